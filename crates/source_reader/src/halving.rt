// What the function of a parallel loop does: it halves its range among two tasks, or takes the numbers of a short one
// by itself.
ghost use Rattle.std.specs.Prelude.{◌≡◌, IfOk};
ghost use Rattle.source_reader.specs.Halving.{neutral, is_0, taken_if, taken, is_long, half_way, half_by, middle, halved, is_skip, to_its_end, one_by_one, gathered};
ghost use Rattle.source_reader.specs.Trees.{tree_of, test_tree_of, stmt_tree_of};

use crate::folding::two;
use crate::inlines::copied;
use crate::loops::{to_end, turns};
use crate::trees::{choice, then};
use job_language::Group;
use source_language::{Expr, Maker, Operator, Stmt, Test};
use source_tokens::Gathers;
use std::alloc::{AllocError, Global};

/// The variable of the lower end of the range, which becomes the index.
pub const LOW: u8 = 0;

/// The variable of the upper end, which is no number of the range.
pub const HIGH: u8 = 1;

/// The variable of what the numbers before gave.
pub const TOTAL: u8 = 2;

/// The variable of what the upper half gave; in the body, the first one that is free.
pub const OTHER: u8 = 3;

/// How many variables such a function has at least.
pub const VARIABLES: u8 = 4;

/// The group of the lower half's task.
pub const LOWER: u64 = 0;

/// The group of the upper half's task.
pub const UPPER: u64 = 1;

/// What comes of no numbers.
fn neutral(gathers: Gathers) -> i64
    ensures { result ≡ neutral gathers }
{
    match gathers {
        Gathers::Sum => 0,
        Gathers::Least => i64::MAX,
        Gathers::Greatest => i64::MIN,
    }
}

fn is_0(e: &Expr) -> bool
    ensures { result ≡ is_0 (tree_of e.now) }
{
    match e {
        Expr::Number(n) => *n == 0,
        _ => false,
    }
}

/// One number as the total, if another is less than a third.
fn taken_if(alloc: Global, less: Expr, than: Expr, from: Expr) -> Result<Stmt, AllocError>
    ensures { IfOk result
        (λ s. stmt_tree_of s ≡ taken_if (tree_of less) (tree_of than) (tree_of from)) }
{
    let is_less = two(alloc, Operator::Below, less, than)?;
    choice(
        alloc,
        Test::Holds(is_less),
        Stmt::Assign(TOTAL, from),
        Stmt::Skip,
    )
}

/// The total with one number more.
pub(crate) fn taken(alloc: Global, gathers: Gathers, e: Expr) -> Result<Stmt, AllocError>
    ensures { IfOk result (λ s. stmt_tree_of s ≡ taken gathers (tree_of e)) }
{
    let total = Expr::Variable(TOTAL);
    match gathers {
        Gathers::Sum => {
            if is_0(&e) {
                return Ok(Stmt::Skip);
            }
            Ok(Stmt::Assign(TOTAL, two(alloc, Operator::Plus, total, e)?))
        }
        Gathers::Least => {
            let from = copied(alloc, &e)?;
            taken_if(alloc, e, total, from)
        }
        Gathers::Greatest => {
            let from = copied(alloc, &e)?;
            taken_if(alloc, total, e, from)
        }
    }
}

/// Whether there are more numbers than one task takes, so many steps apart.
fn is_long(alloc: Global, most: i64, by: i64) -> Result<Test, AllocError>
    ensures { IfOk result (λ t. test_tree_of t ≡ is_long most by) }
{
    let size = to_end(alloc, LOW, HIGH)?;
    let longest = Expr::Number(most.saturating_mul(by));
    Ok(Test::Holds(two(alloc, Operator::Below, longest, size)?))
}

/// Where a range of single steps is halved.
fn half_way(alloc: Global) -> Result<Expr, AllocError>
    ensures { IfOk result (λ e. tree_of e ≡ half_way) }
{
    let low = Expr::Variable(LOW);
    let same = two(alloc, Operator::BitAnd, low, Expr::Variable(HIGH))?;
    let low = Expr::Variable(LOW);
    let different = two(alloc, Operator::BitXor, low, Expr::Variable(HIGH))?;
    let half = two(alloc, Operator::ShiftRight, different, Expr::Number(1))?;
    two(alloc, Operator::Plus, same, half)
}

/// Where a range is halved, a whole number of steps from its lower end.
fn half_by(alloc: Global, by: i64) -> Result<Expr, AllocError>
    ensures { IfOk result (λ e. tree_of e ≡ half_by by) }
{
    let size = to_end(alloc, LOW, HIGH)?;
    let steps = two(alloc, Operator::Over, size, Expr::Number(by))?;
    let more = two(alloc, Operator::Plus, steps, Expr::Number(1))?;
    let half = two(alloc, Operator::ShiftRight, more, Expr::Number(1))?;
    let far = two(alloc, Operator::Times, half, Expr::Number(by))?;
    two(alloc, Operator::Plus, Expr::Variable(LOW), far)
}

/// Where the range is halved.
fn middle(alloc: Global, by: i64) -> Result<Expr, AllocError>
    ensures { IfOk result (λ e. tree_of e ≡ middle by) }
{
    if by == 1 {
        half_way(alloc)
    } else {
        half_by(alloc, by)
    }
}

fn lower() -> Group
    ensures { result ≡ LOWER }
{
    Group::new(LOWER).unwrap()
}

fn upper() -> Group
    ensures { result ≡ UPPER }
{
    Group::new(UPPER).unwrap()
}

/// Both halves as tasks of the same function, and then what is made of what they give.
fn halved(alloc: Global, gathers: Gathers, function: u8, by: i64) -> Result<Stmt, AllocError>
    ensures { IfOk result (λ s. stmt_tree_of s ≡ halved gathers function by) }
{
    let low = Expr::Variable(LOW);
    let first = Stmt::Make(Maker::Spawn(lower()), function, low, Expr::Variable(TOTAL));
    let middle_again = Expr::Variable(TOTAL);
    let second = Stmt::Make(
        Maker::Spawn(upper()),
        function,
        middle_again,
        Expr::Variable(HIGH),
    );
    let both = taken(alloc, gathers, Expr::Variable(OTHER))?;
    let last = then(alloc, both, Stmt::Return(Expr::Variable(TOTAL)))?;
    let last = then(alloc, Stmt::Wait(Some(OTHER), None, upper()), last)?;
    let last = then(alloc, Stmt::Wait(Some(TOTAL), None, lower()), last)?;
    let last = then(alloc, second, last)?;
    let last = then(alloc, first, last)?;
    then(alloc, Stmt::Assign(TOTAL, middle(alloc, by)?), last)
}

fn is_skip(s: &Stmt) -> bool
    ensures { result ≡ is_skip (stmt_tree_of s.now) }
{
    match s {
        Stmt::Skip => true,
        _ => false,
    }
}

/// A body that ends by going on with the next number: its end does that by itself.
fn to_its_end(alloc: Global, body: Stmt) -> Result<Stmt, AllocError>
    ensures { IfOk result (λ s. stmt_tree_of s ≡ to_its_end (stmt_tree_of body)) }
{
    match body {
        Stmt::Then(a, b) => {
            let first = Box::into_inner(a);
            let last = Box::into_inner(b);
            if is_skip(&last) {
                return to_its_end(alloc, first);
            }
            then(alloc, first, to_its_end(alloc, last)?)
        }
        Stmt::If(c, a, b) => {
            let first = to_its_end(alloc, Box::into_inner(a))?;
            let second = to_its_end(alloc, Box::into_inner(b))?;
            choice(alloc, c, first, second)
        }
        Stmt::Continue(loops) => {
            if loops == 0 {
                Ok(Stmt::Skip)
            } else {
                Ok(Stmt::Continue(loops))
            }
        }
        other => Ok(other),
    }
}

/// The body for each number of the range.
fn one_by_one(alloc: Global, gathers: Gathers, by: i64, body: Stmt) -> Result<Stmt, AllocError>
    ensures { IfOk result (λ s. stmt_tree_of s ≡ one_by_one gathers by (stmt_tree_of body)) }
{
    let nothing = Stmt::Assign(TOTAL, Expr::Number(neutral(gathers)));
    let turns = turns(alloc, LOW, HIGH, by, to_its_end(alloc, body)?)?;
    let last = then(alloc, turns, Stmt::Return(Expr::Variable(TOTAL)))?;
    then(alloc, nothing, last)
}

/// The body of a parallel loop's function, which has this number.
pub(crate) fn gathered(
    alloc: Global,
    gathers: Gathers,
    function: u8,
    most: i64,
    by: i64,
    body: Stmt,
) -> Result<Stmt, AllocError>
    ensures { IfOk result
        (λ s. stmt_tree_of s ≡ gathered gathers function most by (stmt_tree_of body)) }
{
    let is_long = is_long(alloc, most, by)?;
    let halved = halved(alloc, gathers, function, by)?;
    let short = one_by_one(alloc, gathers, by, body)?;
    choice(alloc, is_long, halved, short)
}
