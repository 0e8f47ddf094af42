// How many registers operands take, and which of two comes first.
ghost use Rattle.std.specs.Prelude.{◌≡◌, if◌then◌else◌};
ghost use Rattle.job_compiler.specs.Code.{is_right_first, need, need_of_both, one_more};

use crate::registers::VIRTUAL_REGISTERS;
use source_language::Expr;

// One more, but not more than there are.
fn one_more(count: u8) -> u8
    ensures { result ≡ one_more count }
{
    if count < VIRTUAL_REGISTERS {
        count + 1
    } else {
        count
    }
}

// How many registers two operands take that take so many, if the one that takes more is first.
fn need_of_both(left: u8, right: u8) -> u8
    ensures { result ≡ need_of_both left right }
{
    if left == right {
        one_more(left)
    } else if left < right {
        right
    } else {
        left
    }
}

// How many registers an operand takes, of those from the first free one on.
fn need(e: &Expr) -> u8
    ensures { result ≡ need e.now }
{
    match e {
        Expr::Number(_) => 1,
        Expr::Variable(_) => 0,
        Expr::Slot => 1,
        Expr::Width => 1,
        Expr::Two(_, a, b) => need_of_both(need(a), need(b)),
    }
}

/// Whether the right one of two operands comes first, since it takes more registers.
pub(crate) fn is_right_first(a: &Expr, b: &Expr) -> bool
    ensures { result ≡ is_right_first a.now b.now }
{
    need(a) < need(b)
}
