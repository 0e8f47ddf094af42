// What happens to the contexts of the open rows.
ghost use Rattle.std.specs.Prelude.{◌≡◌, ◌≢◌, ◌+◌, ◌<◌, ℕ, None, Some, false, true, length};
ghost use Rattle.cancel_context.specs.Forest.{IsForest, IsHeld, binding, held_count, is_cancelled, parent, with_bound, with_request, without};
ghost use Rattle.std.specs.Option.{ForSome};

use super::OpenRows;
use super::filing::doom;
use cancel_context::ContextId;

impl OpenRows {
    /// Whether a context is cancelled, by itself or from above.
    pub(crate) fn is_cancelled(&self, context: ContextId) -> bool
        requires { IsHeld self.now.contexts context }
        ensures value { result ≡ is_cancelled self.now.contexts context }
        ensures forest { IsForest self.now.contexts }
    {
        self.contexts.is_cancelled(context)
    }

    /// A new context, bound to another or to none.
    pub(crate) fn bind(&mut self, parent: Option<ContextId>) -> ContextId
        requires room { held_count self.old.contexts < length self.old.contexts }
        requires parent { ForSome parent (IsHeld self.old.contexts) }
        ensures fresh { binding self.old.contexts result ≡ None }
        ensures bound { self.new
            ≡ record self.old { contexts = with_bound self.old.contexts result parent } }
        ensures held { IsHeld self.new.contexts result }
        ensures count { held_count self.new.contexts ≡ held_count self.old.contexts + 1 }
    {
        let context = self.contexts.bind(parent);
        // Nothing waits under an id that was free, and this way that need not be known.
        self.filing.file_all(context.index(), self.doomed);
        context
    }

    /// Asks for the cancellation of a context. The rows that wait under the contexts that it reaches are
    /// doomed.
    pub(crate) fn cancel(&mut self, context: ContextId)
        requires { IsHeld self.old.contexts context }
        ensures requested { self.new
            ≡ record self.old { contexts = with_request self.old.contexts context true } }
        ensures count { held_count self.new.contexts ≡ held_count self.old.contexts }
        ensures forest { IsForest self.new.contexts }
    {
        self.contexts.cancel_noted(context, &mut self.turned);
        doom(&mut self.filing, &mut self.turned, self.doomed);
    }

    /// Takes back the cancel request of a context.
    pub(crate) fn reset(&mut self, context: ContextId)
        requires { IsHeld self.old.contexts context }
        ensures taken_back { self.new
            ≡ record self.old { contexts = with_request self.old.contexts context false } }
        ensures count { held_count self.new.contexts ≡ held_count self.old.contexts }
    {
        self.contexts.reset(context);
    }

    /// Ends a context. If it is cancelled, what is bound to it stays cancelled for good.
    pub(crate) fn release(&mut self, context: ContextId)
        requires held { IsHeld self.old.contexts context }
        requires ends { (c : ℕ) → parent self.old.contexts c ≡ Some context
            → is_cancelled self.old.contexts context ≡ true }
        ensures released { self.new
            ≡ record self.old { contexts = without self.old.contexts context } }
        ensures keeps { (c : ℕ) → c ≢ context → IsHeld self.old.contexts c
            → IsHeld self.new.contexts c }
        ensures count { held_count self.new.contexts + 1 ≡ held_count self.old.contexts }
        ensures others { (c : ℕ) → c ≢ context
            → is_cancelled self.new.contexts c ≡ is_cancelled self.old.contexts c }
        ensures forest { IsForest self.new.contexts }
    {
        self.contexts.release(context);
    }
}
