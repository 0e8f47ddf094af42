// `cancel_context`: a context is bound, read, cancelled, reset and released.
ghost use Rattle.std.specs.Prelude.{◌≡◌, ◌<◌, ℕ, IfOk, IsTrue, None, Some, true, false, length};
ghost use Rattle.cancel_context.specs.Forest.{IsHeld, binding, held_count, is_cancelled, parent, with_bound, with_request, without};

use crate::leaves::rounds::Rounds;
use crate::leaves::rows::Rows;
use cancel_context::{ContextId, Contexts};
use std::alloc::{AllocError, Global};
use std::marker::Model;

/// A job's context, and those of rows, bound to it.
#[derive(Drop)]
pub(crate) struct BoundContexts {
    contexts: Contexts,
    job: ContextId,
}

impl Model for BoundContexts {
    ghost use Rattle.benchmarks.specs.Bound.{BoundSeen, AreBound};

    ghost Value = { BoundSeen };

    ghost view = { λ b. record { contexts = b.contexts; job = b.job } };

    ghost invariant = { λ b. AreBound (record { contexts = b.contexts; job = b.job }) };
}

impl BoundContexts {
    /// The contexts of these rows but one, which a round binds.
    pub(crate) fn new(alloc: Global, rows: Rows) -> Result<BoundContexts, AllocError>
        ensures { IfOk result (λ bound. held_count bound.contexts ≡ rows) }
    {
        let mut contexts = Contexts::new(alloc, rows.number())?;
        let job = contexts.bind(None);
        for _row in 1..rows.number() {
            contexts.bind(Some(job));
        }
        Ok(BoundContexts { contexts, job })
    }
}

impl Rounds for BoundContexts {
    const CALLS: u8 = 5;

    fn round(&mut self, _number: u32) -> u64 {
        let context = bind(&mut self.contexts, self.job);
        let is_cancelled = is_cancelled(&self.contexts, context);
        let is_first = cancel(&mut self.contexts, context);
        reset(&mut self.contexts, context);
        release(&mut self.contexts, context);
        u64::from(is_cancelled) + u64::from(is_first)
    }
}

// The calls of a round. None is inlined, or a compiler would leave out what a later one undoes.

#[inline(never)]
fn bind(contexts: &mut Contexts, job: ContextId) -> ContextId
    requires room { held_count contexts.old < length contexts.old }
    requires job { IsHeld contexts.old job }
    ensures fresh { binding contexts.old result ≡ None }
    ensures bound { contexts.new ≡ with_bound contexts.old result (Some job) }
    ensures held { IsHeld contexts.new result }
{
    contexts.bind(Some(job))
}

#[inline(never)]
fn is_cancelled(contexts: &Contexts, context: ContextId) -> bool
    requires { IsHeld contexts.now context }
{
    contexts.is_cancelled(context)
}

#[inline(never)]
fn cancel(contexts: &mut Contexts, context: ContextId) -> bool
    requires { IsHeld contexts.old context }
    ensures asked { contexts.new ≡ with_request contexts.old context true }
    ensures keeps { IsHeld contexts.new context }
{
    contexts.cancel(context)
}

#[inline(never)]
fn reset(contexts: &mut Contexts, context: ContextId)
    requires { IsHeld contexts.old context }
    ensures taken_back { contexts.new ≡ with_request contexts.old context false }
    ensures keeps { IsHeld contexts.new context }
{
    contexts.reset(context);
}

#[inline(never)]
fn release(contexts: &mut Contexts, context: ContextId)
    requires held { IsHeld contexts.old context }
    requires ends { (c : ℕ) → parent contexts.old c ≡ Some context
        → IsTrue (is_cancelled contexts.old context) }
    ensures { contexts.new ≡ without contexts.old context }
{
    contexts.release(context);
}
