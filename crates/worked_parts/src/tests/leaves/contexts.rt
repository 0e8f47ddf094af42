// Which contexts a cancellation notes. An allocation of `new` may be refused, and then the next call succeeds.
ghost use Rattle.std.specs.Prelude.{◌≡◌, ◌+◌, ◌*◌, ◌≤◌, IfOk, None, replicate};
ghost use Rattle.cancel_context.specs.declared.contexts.TheConstants.{BASE_CONTEXTS, CONTEXTS_PER_ROW, MAX_ROWS};

use crate::tests::assert_same;
use cancel_context::{BASE_CONTEXTS, CONTEXTS_PER_ROW, Contexts};
use std::alloc::{AllocError, Global};
use std::test::Fail;

/// No contexts, with room for those of some rows. If an allocation failed they are made once more.
fn no_contexts(alloc: Global, rows: usize) -> Result<Contexts, AllocError>
    requires { rows ≤ MAX_ROWS }
    ensures { IfOk result (λ c. c ≡ replicate (BASE_CONTEXTS + CONTEXTS_PER_ROW * rows) None) }
{
    match Contexts::new(alloc, rows) {
        Ok(contexts) => Ok(contexts),
        Err(_) => Contexts::new(alloc, rows),
    }
}

/// Cancels a row between a root and a group twice, and counts the contexts that each cancellation notes. Those that
/// it cancels are among them.
fn noted_by_two(alloc: Global, contexts: &mut Contexts) -> Result<[usize; 2], AllocError>
    requires { contexts.old ≡ replicate (BASE_CONTEXTS + CONTEXTS_PER_ROW * 1) None }
{
    let root = contexts.bind(None);
    let row = contexts.bind(Some(root));
    let _group = contexts.bind(Some(row));
    let mut noted = Vec::with_capacity(alloc, BASE_CONTEXTS + CONTEXTS_PER_ROW)?;
    contexts.cancel_noted(row, &mut noted);
    let first = noted.len();
    noted.clear();
    contexts.cancel_noted(row, &mut noted);
    Ok([first, noted.len()])
}

#[test]
fn a_cancellation_notes_no_others(rt: HostRuntime) -> Result<(), Fail> {
    let mut contexts = no_contexts(rt.alloc(), 1)?;
    let noted = noted_by_two(rt.alloc(), &mut contexts)?;
    assert_same(&rt, &noted, &[2, 0]);
    Ok(())
}
