// A flag for each context: whether it is cancelled.
ghost use Rattle.std.specs.Prelude.{◌≡◌, ◌⊎◌, ℕ, true, false, ◌+◌, ◌<◌, ◌≤◌, ◌||◌, IfOk, [], ◌∷◌, ◌++◌, Contains, length, replicate, slice_set, count_by, vec_capacity};
ghost use Rattle.std.specs.Option.{ForSome, option_copied, option_map_or};
ghost use Rattle.cancel_context.specs.Forest.{IsHeld, parent_in, asks_in};
ghost use Rattle.cancel_context.specs.Order.{HasBindingOrder, IsIn};
ghost use Rattle.cancel_context.specs.Below.{IsLinked};
ghost use Rattle.cancel_context.specs.Flags.{flag, AreFlags, differs, visited, IsSpreading};

use crate::below::Below;
use crate::bindings::{Binding, ContextId};
use place_table::PlaceTable;
use std::alloc::{AllocError, Global};
use std::marker::Model;

/// For each context whether it is cancelled.
pub(crate) struct Flags {
    is_cancelled: Vec<bool>,
    /// While a change spreads: the contexts whose flag has turned, and not yet the flags below them.
    reached: Vec<ContextId>,
}

impl Drop for Flags {
    // An owner drops it in one call, not part by part at each of its ways out.
    fn drop(self) {
        let Flags {
            is_cancelled: _is_cancelled,
            reached: _reached,
        } = self;
    }
}

impl Model for Flags {
    ghost use Rattle.std.specs.Prelude.{◌≤◌, length, vec_capacity};
    ghost use Rattle.cancel_context.specs.Flags.{Flagged};

    ghost Value = { Flagged };

    ghost view = { λ f. record { flags = f.is_cancelled.items; reached = f.reached.items } };

    ghost invariant = { λ f. length f.is_cancelled.items ≤ vec_capacity f.reached };
}

impl Flags {
    /// The flags of `count` contexts, none of them cancelled.
    pub(crate) fn new(alloc: Global, count: usize) -> Result<Flags, AllocError>
        ensures { IfOk result
            (λ flags. flags ≡ record { flags = replicate count false; reached = [] }) }
    {
        Ok(Flags {
            is_cancelled: vec![in alloc; false; count]?,
            reached: Vec::with_capacity(alloc, count)?,
        })
    }

    /// Whether a context is cancelled.
    pub(crate) fn get(&self, context: ContextId) -> bool
        requires { context < length self.now.flags }
        ensures { result ≡ flag self.now.flags context }
    {
        self.is_cancelled[context.index()]
    }

    /// Whether what a context is bound to is cancelled.
    pub(crate) fn above(&self, parent: Option<ContextId>) -> bool
        requires { ForSome parent (λ p. p < length self.now.flags) }
        ensures { result ≡ option_map_or (flag self.now.flags) parent false }
    {
        match parent {
            Some(parent) => self.get(parent),
            None => false,
        }
    }

    /// Whether a context that is held so is cancelled, by its own or from above.
    pub(crate) fn follows(&self, slot: Option<&Binding>) -> bool
        requires { ForSome (parent_in (option_copied slot)) (λ p. p < length self.now.flags) }
        ensures { result ≡ (asks_in (option_copied slot.entry)
            || option_map_or (flag self.now.flags) (parent_in (option_copied slot.entry)) false) }
    {
        match slot {
            Some(binding) => asks(slot) || self.above(binding.parent),
            None => false,
        }
    }

    /// Gives a context that has just been bound the flag of what it is bound to.
    pub(crate) fn start(&mut self, context: ContextId, parent: Option<ContextId>)
        requires place { context < length self.old.flags }
        requires parent { ForSome parent (λ p. p < length self.old.flags) }
        ensures { self.new ≡ record {
          flags = slice_set self.old.flags context
              (option_map_or (flag self.old.flags) parent false);
          reached = self.old.reached;
        } }
    {
        self.is_cancelled[context.index()] = self.above(parent);
    }

    /// Turns the flag of a context, and then those of the contexts below it that follow.
    pub(crate) fn turn(
        &mut self,
        bindings: &PlaceTable<Binding>,
        below: &Below,
        context: ContextId,
        is_cancelled: bool,
    )
        requires forest { HasBindingOrder bindings.now }
        requires linked { IsLinked bindings.now below.now }
        requires none { self.old.reached ≡ [] }
        requires spreads { IsSpreading bindings.now (slice_set self.old.flags context is_cancelled)
            (context ∷ []) [] is_cancelled }
        requires size { length self.old.flags ≡ length bindings.now }
        ensures flags { AreFlags bindings.now self.new.flags }
        ensures none { self.new.reached ≡ [] }
    {
        self.is_cancelled[context.index()] = is_cancelled;
        self.reached.push_reserved(context);
        while let Some(parent) = self.reached.pop() {
            self.spread(bindings, below, parent, is_cancelled);
        }
    }

    /// Turns the flag of a context that is cancelled now, and then those of the contexts below it that
    /// follow, and notes each of these contexts.
    pub(crate) fn turn_noted(
        &mut self,
        bindings: &PlaceTable<Binding>,
        below: &Below,
        context: ContextId,
        turned: &mut Vec<ContextId>,
    )
        requires forest { HasBindingOrder bindings.now }
        requires linked { IsLinked bindings.now below.now }
        requires none { self.old.reached ≡ [] }
        requires spreads { IsSpreading bindings.now (slice_set self.old.flags context true)
            (context ∷ []) [] true }
        requires size { length self.old.flags ≡ length bindings.now }
        requires unnoted { length turned.old.items ≡ 0 }
        requires room { length self.old.flags ≤ vec_capacity turned.old }
        ensures flags { AreFlags bindings.now self.new.flags }
        ensures none { self.new.reached ≡ [] }
        ensures noted { (c : ℕ) → (flag self.new.flags c ≡ flag self.old.flags c)
            ⊎ Contains turned.new.items c }
        ensures capacity { vec_capacity turned.new ≡ vec_capacity turned.old }
    {
        self.is_cancelled[context.index()] = true;
        self.reached.push_reserved(context);
        while let Some(parent) = self.reached.pop() {
            turned.push_reserved(parent);
            self.spread(bindings, below, parent, true);
        }
    }

    /// Turns the flags of the contexts that are bound to a context and follow its flag.
    fn spread(
        &mut self,
        bindings: &PlaceTable<Binding>,
        below: &Below,
        parent: ContextId,
        is_cancelled: bool,
    )
        requires linked { IsLinked bindings.now below.now }
        requires spreads { IsSpreading bindings.now self.old.flags
            (self.old.reached ++ parent ∷ []) [] is_cancelled }
        ensures spreads { IsSpreading bindings.now self.new.flags self.new.reached [] is_cancelled }
        ensures fewer { length self.new.reached + count_by (differs is_cancelled) self.new.flags
            ≡ length self.old.reached + count_by (differs is_cancelled) self.old.flags }
        ensures turned { (c : ℕ)
            → (flag self.new.flags c ≡ flag self.old.flags c) ⊎ IsIn self.new.reached c }
        ensures kept { (c : ℕ) → IsIn self.old.reached c → IsIn self.new.reached c }
    {
        let mut following = below.first(parent);
        while let Some(context) = following {
            self.visit(bindings, context, is_cancelled);
            following = below.next(context);
        }
    }

    /// Turns the flag of a context, unless it has the value already or is cancelled by its own.
    fn visit(&mut self, bindings: &PlaceTable<Binding>, context: ContextId, is_cancelled: bool)
        requires place { context < length self.old.flags }
        requires size { length self.old.flags ≡ length bindings.now }
        requires room { length self.old.reached + count_by (differs is_cancelled) self.old.flags
            ≤ length self.old.flags }
        ensures { self.new ≡ visited bindings.now self.old context is_cancelled }
    {
        let place = context.index();
        if self.is_cancelled[place] == is_cancelled || asks(bindings.get(place)) {
            return;
        }
        self.is_cancelled[place] = is_cancelled;
        self.reached.push_reserved(context);
    }
}

/// Whether a context is cancelled by its own: it has a request, or is an orphan.
pub(crate) fn asks(slot: Option<&Binding>) -> bool
    ensures { result ≡ asks_in (option_copied slot.entry) }
{
    match slot {
        Some(binding) => binding.is_asked || binding.is_orphan,
        None => false,
    }
}
