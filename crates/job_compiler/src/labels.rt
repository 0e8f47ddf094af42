// Places to jump to in the code of a function.
ghost use Rattle.std.specs.Prelude.{◌≡◌, ◌+◌, ◌≤◌, ◌∷◌, false, true, slice_get, length};
ghost use Rattle.job_compiler.specs.Code.{over_size, test_size, stmt_size, loop_test, loop_end, after_of, next_of};
ghost use Rattle.job_compiler.specs.Labels.{labels_of};
ghost use Rattle.job_compiler.specs.Registers.{IsTestLow, IsStmtLow};

use crate::registers::VIRTUAL_REGISTERS;
use crate::sizes::{MAX_BODY, over_size, size_of_stmt, size_of_test};
use source_language::{Stmt, Test};

/// Where `continue` and `break` lead in the body of a loop: to the step, and to what follows the loop.
#[derive(Clone, Copy)]
pub(crate) struct Label {
    pub(crate) next: u8,
    pub(crate) after: u8,
}

/// The labels of the loops around a statement.
#[derive(Drop)]
pub(crate) enum Labels<'a> {
    Outside,
    /// Those of the innermost loop, and of the loops around it.
    Inside(Label, &'a Labels<'a>),
}

/// Where `break` leads out of a loop that is around that many others, in a function that ends at `end`.
pub(crate) fn after_of(labels: &Labels, loops: u8, end: u8) -> u8
    ensures { result ≡ after_of (slice_get (labels_of labels.now) loops) end }
{
    match labels {
        Labels::Outside => end,
        Labels::Inside(label, around) => {
            if loops == 0 {
                label.after
            } else {
                after_of(around, loops - 1, end)
            }
        }
    }
}

/// Where `continue` leads in a loop that is around that many others.
pub(crate) fn next_of(labels: &Labels, loops: u8, end: u8) -> u8
    ensures { result ≡ next_of (slice_get (labels_of labels.now) loops) end }
{
    match labels {
        Labels::Outside => end,
        Labels::Inside(label, around) => {
            if loops == 0 {
                label.next
            } else {
                next_of(around, loops - 1, end)
            }
        }
    }
}

/// Where the other side of a choice is, how many instructions it has, and what follows both.
#[derive(Clone, Copy)]
pub(crate) struct IfLabels {
    pub(crate) other: u8,
    pub(crate) size: u8,
    pub(crate) after: u8,
}

/// The places of a choice whose condition is at `at`.
pub(crate) fn if_labels(at: u8, c: &Test, a: &Stmt, b: &Stmt, free: u8) -> IfLabels
    requires condition { IsTestLow VIRTUAL_REGISTERS c.now free }
    requires first { IsStmtLow VIRTUAL_REGISTERS a.now free }
    requires second { IsStmtLow VIRTUAL_REGISTERS b.now free }
    requires room { at + test_size c.now false free + stmt_size a.now free
        + over_size (stmt_size b.now free) + stmt_size b.now free ≤ MAX_BODY }
    ensures other { result.other ≡ at + test_size c.now false free + stmt_size a.now free
        + over_size (stmt_size b.now free) }
    ensures size { result.size ≡ stmt_size b.now free }
    ensures after { result.after ≡ result.other + stmt_size b.now free }
{
    let test = size_of_test(c, false, free);
    let first = size_of_stmt(a, free);
    let size = size_of_stmt(b, free);
    let other = at + test + first + over_size(size);
    let after = other + size;
    IfLabels { other, size, after }
}

/// Where the parts of a loop are: the body, the condition, and the labels of the body.
#[derive(Clone, Copy)]
pub(crate) struct LoopLabels {
    pub(crate) body: u8,
    pub(crate) test: u8,
    pub(crate) label: Label,
}

/// The places of a loop whose body is at `at`.
pub(crate) fn loop_labels(at: u8, c: &Test, b: &Stmt, s: &Stmt, free: u8) -> LoopLabels
    requires condition { IsTestLow VIRTUAL_REGISTERS c.now free }
    requires body_low { IsStmtLow VIRTUAL_REGISTERS b.now free }
    requires step { IsStmtLow VIRTUAL_REGISTERS s.now free }
    requires room { at + stmt_size b.now free + stmt_size s.now free + test_size c.now true free ≤ MAX_BODY }
    ensures body { result.body ≡ at }
    ensures test { result.test ≡ loop_test b.now s.now free at }
    ensures next { result.label.next ≡ at + stmt_size b.now free }
    ensures after { result.label.after ≡ loop_end c.now b.now s.now free at }
{
    let body = size_of_stmt(b, free);
    let step = size_of_stmt(s, free);
    let condition = size_of_test(c, true, free);
    let next = at + body;
    let test = next + step;
    let after = test + condition;
    let label = Label { next, after };
    LoopLabels {
        body: at,
        test,
        label,
    }
}
