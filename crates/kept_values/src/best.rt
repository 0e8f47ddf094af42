// Which value is kept. Nothing rests on this choice.
use crate::gains::{Found, Look, size_of};
use crate::values::has_value;
use source_language::{Expr, Function, Stmt, Test};

/// How often a function is taken to run.
const RUNS: u64 = 4096;

/// A value, the statement before which it is kept, and how many instructions that is taken to save.
#[derive(Clone, Copy)]
pub(crate) struct Saving<'a> {
    pub(crate) value: &'a Expr,
    pub(crate) place: u32,
    pub(crate) gain: u64,
}

// The value that is kept best, of those in a function that were looked at.
#[derive(Drop)]
struct Best<'a> {
    body: &'a Stmt,
    saving: Option<Saving<'a>>,
}

impl<'a> Best<'a> {
    fn look(&mut self, value: &'a Expr) {
        let Found { place, gain } = Look::found(value, self.body, RUNS);
        let saving = Saving { value, place, gain };
        if gain > 0 && self.is_better(saving) {
            self.saving = Some(saving);
        }
    }

    // What is computed from other values is kept before numbers, which are read over longer parts.
    fn is_better(&self, saving: Saving<'a>) -> bool {
        let Some(best) = self.saving else {
            return true;
        };
        let is_computed = size_of(saving.value) > 1;
        let was_computed = size_of(best.value) > 1;
        if is_computed == was_computed {
            saving.gain > best.gain
        } else {
            is_computed
        }
    }

    fn look_in_expr(&mut self, d: &'a Expr) {
        match d {
            Expr::Variable(_) => (),
            Expr::Two(_, a, b) => {
                if has_value(d) {
                    self.look(d);
                }
                self.look_in_expr(a);
                self.look_in_expr(b);
            }
            _ => self.look(d),
        }
    }

    fn look_in_test(&mut self, c: &'a Test) {
        match c {
            Test::Holds(d) => self.look_in_expr(d),
            Test::Not(t) => self.look_in_test(t),
            Test::Both(a, b) => {
                self.look_in_test(a);
                self.look_in_test(b);
            }
            Test::Either(a, b) => {
                self.look_in_test(a);
                self.look_in_test(b);
            }
        }
    }

    fn look_in_stmt(&mut self, s: &'a Stmt) {
        match s {
            Stmt::Then(a, b) => {
                self.look_in_stmt(a);
                self.look_in_stmt(b);
            }
            Stmt::Assign(_, d) => self.look_in_expr(d),
            Stmt::If(c, a, b) => {
                self.look_in_test(c);
                self.look_in_stmt(a);
                self.look_in_stmt(b);
            }
            Stmt::Loop(c, b, s) => {
                self.look_in_test(c);
                self.look_in_stmt(b);
                self.look_in_stmt(s);
            }
            Stmt::Repeat(c, b, s) => {
                self.look_in_test(c);
                self.look_in_stmt(b);
                self.look_in_stmt(s);
            }
            Stmt::Return(d) => self.look_in_expr(d),
            Stmt::Make(_, _, a, b) => {
                self.look_in_expr(a);
                self.look_in_expr(b);
            }
            Stmt::Store(_, d) => self.look_in_expr(d),
            _ => (),
        }
    }
}

/// The value that saves most instructions if it is kept, where each loop is taken to turn some times; none, if none saves
/// any.
pub(crate) fn best_saving<'a>(function: &'a Function) -> Option<Saving<'a>> {
    let mut best = Best {
        body: &function.body,
        saving: None,
    };
    best.look_in_stmt(&function.body);
    best.saving
}
