// What it saves to keep a value. Nothing rests on this.
use crate::values::is_same;
use source_language::{Expr, Maker, Operator, Stmt, Test};
use values_again::is_free;

/// How often a loop is taken to turn. A part that leaves it is taken to run once in as many turns.
const TURNS: u64 = 8;

/// The statement before which a value is kept best, as far as it is known, and how many instructions that is taken to
/// save.
#[derive(Clone, Copy)]
pub(crate) struct Found {
    pub(crate) place: u32,
    pub(crate) gain: u64,
}

/// A value that may be kept, and what was found of it so far.
#[derive(Drop)]
pub(crate) struct Look<'a> {
    value: &'a Expr,
    size: u64,
    next: u32,
    found: Found,
}

impl<'a> Look<'a> {
    /// Where a value is kept best in a body that is taken to run so often.
    pub(crate) fn found(value: &'a Expr, body: &Stmt, times: u64) -> Found {
        let mut look = Look {
            value,
            size: size_of(value),
            next: 0,
            found: Found { place: 0, gain: 0 },
        };
        look.saved(body, times);
        look.found
    }

    // How many instructions less a statement is taken to need if the value is kept; none, if it changes the value.
    fn saved(&mut self, s: &Stmt, times: u64) -> Option<u64> {
        let place = self.next;
        self.next = self.next.saturating_add(1);
        let more = times.saturating_mul(TURNS);
        let saved = match s {
            Stmt::Then(a, b) => {
                let first = self.saved(a, times);
                let second = self.saved(b, times);
                sum(first, second)
            }
            Stmt::If(c, a, b) => {
                let first = self.saved(a, share(a, times));
                let second = self.saved(b, share(b, times));
                sum(Some(self.in_test(c, times)), sum(first, second))
            }
            Stmt::Loop(c, b, s) => {
                let body = self.saved(b, more);
                let step = self.saved(s, more);
                sum(Some(self.in_test(c, more)), sum(body, step))
            }
            Stmt::Repeat(c, b, s) => {
                let body = self.saved(b, more);
                let step = self.saved(s, more);
                sum(Some(self.in_test(c, more)), sum(body, step))
            }
            _ => self.in_one(s, times),
        };
        let cost = self.size.saturating_mul(times);
        self.find(place, saved?.saturating_sub(cost));
        saved
    }

    // Notes what keeping the value before a statement is taken to save.
    fn find(&mut self, place: u32, gain: u64) {
        if gain > self.found.gain {
            self.found = Found { place, gain };
        }
    }

    // The same of a statement without parts.
    fn in_one(&self, s: &Stmt, times: u64) -> Option<u64> {
        match s {
            Stmt::Assign(x, d) => {
                let saved = self.in_value(d).saturating_mul(times);
                saved_if(is_free(*x, self.value), saved)
            }
            Stmt::Return(d) => Some(self.in_expr(d).saturating_mul(times)),
            Stmt::Make(maker, _, a, b) => {
                let read = self.in_expr(a).saturating_add(self.in_expr(b));
                saved_if(
                    is_maker_free(*maker, self.value),
                    read.saturating_mul(times),
                )
            }
            Stmt::Store(_, d) => Some(self.in_expr(d).saturating_mul(times)),
            Stmt::Wait(x, y, _) => {
                saved_if(
                    is_one_free(*x, self.value) && is_one_free(*y, self.value),
                    0,
                )
            }
            Stmt::Read(x, _) => saved_if(is_free(*x, self.value), 0),
            _ => Some(0),
        }
    }

    fn in_expr(&self, d: &Expr) -> u64 {
        if is_same(d, self.value) {
            return self.size;
        }
        match d {
            Expr::Two(_, a, b) => self.in_expr(a).saturating_add(self.in_expr(b)),
            _ => 0,
        }
    }

    // The same of what goes to a variable, to which a number is given by one instruction, as is another variable.
    fn in_value(&self, d: &Expr) -> u64 {
        match d {
            Expr::Two(_, _, _) => {
                if is_same(d, self.value) {
                    self.size.saturating_sub(1)
                } else {
                    self.in_expr(d)
                }
            }
            _ => 0,
        }
    }

    // The same of what holds if it is not 0: a 0 with which a value is compared is not needed.
    fn in_held(&self, d: &Expr) -> u64 {
        match d {
            Expr::Two(Operator::Equal, a, b) => self.in_expr(a).saturating_add(self.in_value(b)),
            _ => self.in_expr(d),
        }
    }

    fn in_test(&self, c: &Test, times: u64) -> u64 {
        match c {
            Test::Holds(d) => self.in_held(d).saturating_mul(times),
            Test::Not(t) => self.in_test(t, times),
            Test::Both(a, b) => self
                .in_test(a, times)
                .saturating_add(self.in_test(b, times / 2)),
            Test::Either(a, b) => self
                .in_test(a, times)
                .saturating_add(self.in_test(b, times / 2)),
        }
    }
}

// What a statement saves, if it leaves the value as it is.
fn saved_if(stays: bool, saved: u64) -> Option<u64> {
    if stays { Some(saved) } else { None }
}

fn sum(a: Option<u64>, b: Option<u64>) -> Option<u64> {
    Some(a?.saturating_add(b?))
}

fn is_one_free(x: Option<u8>, e: &Expr) -> bool {
    match x {
        Some(x) => is_free(x, e),
        None => true,
    }
}

fn is_maker_free(maker: Maker, e: &Expr) -> bool {
    match maker {
        Maker::Isolate(x) => is_free(x, e),
        _ => true,
    }
}

// How often one of two parts is taken to run.
fn share(s: &Stmt, times: u64) -> u64 {
    if is_left(s) { times / TURNS } else { times / 2 }
}

// Whether what is behind a statement does not follow it.
fn is_left(s: &Stmt) -> bool {
    match s {
        Stmt::Then(a, b) => is_left(a) || is_left(b),
        Stmt::Return(_) => true,
        Stmt::Break(_) => true,
        _ => false,
    }
}

/// How many instructions compute a value.
pub(crate) fn size_of(e: &Expr) -> u64 {
    match e {
        Expr::Variable(_) => 0,
        Expr::Two(_, a, b) => size_of(a).saturating_add(size_of(b)).saturating_add(1),
        _ => 1,
    }
}
