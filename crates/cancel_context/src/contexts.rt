// A forest of contexts.
ghost use Rattle.std.specs.Prelude.{◌≡◌, ◌≢◌, ◌+◌, ◌*◌, ◌-◌, ◌^◌, ◌<◌, ◌≤◌, ◌||◌, ℕ, Contains, IsTrue, true, false, not, Some, None, length, map, replicate, vec_capacity, IfOk};
ghost use Rattle.std.specs.Option.{ForSome, option_map_or};
ghost use Rattle.cancel_context.specs.Forest.{IsHeld, held_count, binding, parent, is_within, is_cancelled, IsForest, with_bound, with_request, leaving, without_parent, without};
ghost use Rattle.cancel_context.specs.Below.{IsLinked};

use crate::below::Below;
use crate::bindings::{Binding, ContextId};
use crate::flags::Flags;
use place_table::PlaceTable;
use std::alloc::{AllocError, Global};
use std::marker::Model;

/// How many contexts there is room for beside those of rows.
pub const BASE_CONTEXTS: usize = 256;

/// How many contexts there is room for with each row.
pub const CONTEXTS_PER_ROW: usize = 5;

/// How many rows there may be.
pub const MAX_ROWS: usize = 4_096;

const _: () = prove!(BASE_CONTEXTS == 256 && CONTEXTS_PER_ROW == 5 && MAX_ROWS == 4_096);

/// Contexts that are bound to one another. A context is cancelled if it has a cancel request of its
/// own, or if one that it is bound to is cancelled.
pub struct Contexts {
    bindings: PlaceTable<Binding>,
    below: Below,
    flags: Flags,
}

impl Drop for Contexts {
    // An owner drops it in one call, not part by part at each of its ways out.
    fn drop(self) {
        let Contexts {
            bindings: _bindings,
            below: _below,
            flags: _flags,
        } = self;
    }
}

impl Model for Contexts {
    ghost use Rattle.cancel_context.specs.Forest.{Forest};

    ghost Value = { Forest };

    ghost view = { λ c. c.bindings };

    ghost use Rattle.cancel_context.specs.Whole.{IsWhole};

    ghost invariant = { λ c. IsWhole c.bindings c.below c.flags };
}

impl Contexts {
    /// No contexts, with room for those of `rows` rows and 256 more.
    pub fn new(alloc: Global, rows: usize) -> Result<Contexts, AllocError>
        requires { rows ≤ MAX_ROWS }
        ensures empty { IfOk result
            (λ forest. forest ≡ replicate (BASE_CONTEXTS + CONTEXTS_PER_ROW * rows) None) }
        ensures forest { IfOk result IsForest }
    {
        let count = BASE_CONTEXTS + CONTEXTS_PER_ROW * rows;
        Ok(Contexts {
            bindings: PlaceTable::new(alloc, count)?,
            below: Below::new(alloc, count)?,
            flags: Flags::new(alloc, count)?,
        })
    }

    /// A new context, bound to another or to none. It has no request of its own.
    pub fn bind(&mut self, parent: Option<ContextId>) -> ContextId
        requires room { held_count self.old < length self.old }
        requires parent { ForSome parent (IsHeld self.old) }
        ensures fresh { binding self.old result ≡ None }
        ensures bound { self.new ≡ with_bound self.old result parent }
        ensures held { IsHeld self.new result }
        ensures keeps { (c : ℕ) → IsHeld self.old c → IsHeld self.new c }
        ensures count { held_count self.new ≡ held_count self.old + 1 }
        ensures from_above { is_cancelled self.new result
            ≡ option_map_or (is_cancelled self.old) parent false }
        ensures others { (c : ℕ) → c ≢ result → is_cancelled self.new c ≡ is_cancelled self.old c }
        ensures forest { IsForest self.new }
    {
        let binding = Binding {
            parent,
            is_asked: false,
            is_orphan: false,
        };
        let context = ContextId::at(self.bindings.insert(binding));
        self.below.join(context, binding.parent);
        self.flags.start(context, binding.parent);
        context
    }

    /// Asks for the cancellation of a context. Answers whether it was not cancelled before, by itself
    /// or from above.
    pub fn cancel(&mut self, context: ContextId) -> bool
        requires { IsHeld self.old context }
        ensures first { result ≡ not (is_cancelled self.old context) }
        ensures asked { self.new ≡ with_request self.old context true }
        ensures keeps { (c : ℕ) → IsHeld self.old c → IsHeld self.new c }
        ensures count { held_count self.new ≡ held_count self.old }
        ensures cancelled { IsTrue (is_cancelled self.new context) }
        // It reaches all that is bound below, and nothing else.
        ensures reaches { (c : ℕ)
            → is_cancelled self.new c ≡ (is_cancelled self.old c || is_within self.old c context) }
        ensures forest { IsForest self.new }
    {
        let first = !self.flags.get(context);
        self.set_request(context, true);
        first
    }

    /// Asks for the cancellation of a context, as `cancel` does, and puts the contexts that are cancelled
    /// now and were not before into `turned`.
    pub fn cancel_noted(&mut self, context: ContextId, turned: &mut Vec<ContextId>) -> bool
        requires held { IsHeld self.old context }
        requires unnoted { length turned.old.items ≡ 0 }
        requires room { length self.old ≤ vec_capacity turned.old }
        ensures first { result ≡ not (is_cancelled self.old context) }
        ensures asked { self.new ≡ with_request self.old context true }
        ensures keeps { (c : ℕ) → IsHeld self.old c → IsHeld self.new c }
        ensures count { held_count self.new ≡ held_count self.old }
        ensures cancelled { IsTrue (is_cancelled self.new context) }
        ensures reaches { (c : ℕ)
            → is_cancelled self.new c ≡ (is_cancelled self.old c || is_within self.old c context) }
        ensures forest { IsForest self.new }
        ensures noted { (c : ℕ) → is_cancelled self.new c ≡ true → is_cancelled self.old c ≡ false
            → Contains turned.new.items c }
        ensures capacity { vec_capacity turned.new ≡ vec_capacity turned.old }
    {
        request(&mut self.bindings, context, true);
        let first = !self.flags.get(context);
        if first {
            self.flags
                .turn_noted(&self.bindings, &self.below, context, turned);
        }
        first
    }

    /// Whether a context, or one above it, has a cancel request, or was bound to one that was released
    /// while it was cancelled.
    pub fn is_cancelled(&self, context: ContextId) -> bool
        requires { IsHeld self.now context }
        ensures value { result ≡ is_cancelled self.now context }
        ensures forest { IsForest self.now }
    {
        self.flags.get(context)
    }

    /// Whether an id stands for a context that is cancelled. One that stands for none is not.
    pub fn is_held_and_cancelled(&self, context: ContextId) -> bool
        ensures { result ≡ is_cancelled self.now context }
    {
        self.bindings.get(context.index()).is_some() && self.flags.get(context)
    }

    /// Takes back the cancel request of a context, and no other: one above it still holds.
    pub fn reset(&mut self, context: ContextId)
        requires { IsHeld self.old context }
        ensures taken_back { self.new ≡ with_request self.old context false }
        ensures keeps { (c : ℕ) → IsHeld self.old c → IsHeld self.new c }
        ensures count { held_count self.new ≡ held_count self.old }
        ensures others { (c : ℕ) → is_within self.old c context ≡ false
            → is_cancelled self.new c ≡ is_cancelled self.old c }
        ensures no_more { (c : ℕ) → is_cancelled self.new c ≡ true
            → is_cancelled self.old c ≡ true }
        ensures forest { IsForest self.new }
    {
        self.set_request(context, false);
    }

    /// Ends a context. If it is cancelled, what is bound to it stays cancelled for good.
    pub fn release(&mut self, context: ContextId)
        requires held { IsHeld self.old context }
        // Something is bound to it only if it is cancelled.
        requires ends { (c : ℕ) → parent self.old c ≡ Some context
            → IsTrue (is_cancelled self.old context) }
        ensures released { self.new ≡ without self.old context }
        ensures keeps { (c : ℕ) → c ≢ context → IsHeld self.old c → IsHeld self.new c }
        ensures count { held_count self.new + 1 ≡ held_count self.old }
        ensures others { (c : ℕ) → c ≢ context → is_cancelled self.new c ≡ is_cancelled self.old c }
        ensures forest { IsForest self.new }
    {
        let parent = parent_of(&self.bindings, context);
        orphan(&mut self.bindings, &self.below, context);
        self.below.leave(context, parent);
        self.bindings.remove(context.index());
    }

    /// Makes the request of a context, or takes it back, and turns the flags that follow.
    fn set_request(&mut self, context: ContextId, is_asked: bool)
        requires { IsHeld self.old context }
        ensures set { self.new ≡ with_request self.old context is_asked }
        ensures keeps { (c : ℕ) → IsHeld self.old c → IsHeld self.new c }
        ensures count { held_count self.new ≡ held_count self.old }
        ensures forest { IsForest self.new }
    {
        request(&mut self.bindings, context, is_asked);
        let is_cancelled = self.flags.follows(self.bindings.get(context.index()));
        if self.flags.get(context) != is_cancelled {
            self.flags
                .turn(&self.bindings, &self.below, context, is_cancelled);
        }
    }
}

/// Makes the request of a context, or takes it back.
fn request(bindings: &mut PlaceTable<Binding>, context: ContextId, is_asked: bool)
    requires { IsHeld bindings.old context }
    ensures { bindings.new ≡ with_request bindings.old context is_asked }
{
    bindings.at_mut(context.index()).is_asked = is_asked;
}

/// Makes those that are bound to a context orphans.
fn orphan(bindings: &mut PlaceTable<Binding>, below: &Below, parent: ContextId)
    requires linked { IsLinked bindings.old below.now }
    requires held { IsHeld bindings.old parent }
    ensures { bindings.new ≡ map (without_parent parent) bindings.old }
{
    let mut following = below.first(parent);
    while let Some(context) = following {
        leave(bindings.at_mut(context.index()), parent);
        following = below.next(context);
    }
}

/// What a context is bound to.
fn parent_of(bindings: &PlaceTable<Binding>, context: ContextId) -> Option<ContextId>
    ensures { result ≡ parent bindings.now context }
{
    bindings.get(context.index())?.parent
}

/// Leaves a binding without a parent that is released.
fn leave(binding: &mut Binding, parent: ContextId)
    ensures { binding.new ≡ leaving parent binding.old binding.old.parent }
{
    if binding.parent == Some(parent) {
        binding.parent = None;
        binding.is_orphan = true;
    }
}
