// The lists of those bound to each context.
ghost use Rattle.std.specs.Prelude.{◌≡◌, ◌≢◌, None, ◌<◌, IfOk, length, replicate};
ghost use Rattle.std.specs.Option.{ForSome};
ghost use Rattle.cancel_context.specs.Below.{next_of, HasPlace, set_at, emptied, joined, left};

use crate::bindings::ContextId;
use std::alloc::{AllocError, Global};
use std::marker::Model;

/// For each context the list of those bound to it, the last bound first, linked both ways through
/// their places.
pub(crate) struct Below {
    first: Vec<Option<ContextId>>,
    next: Vec<Option<ContextId>>,
    previous: Vec<Option<ContextId>>,
}

impl Drop for Below {
    // An owner drops it in one call, not part by part at each of its ways out.
    fn drop(self) {
        let Below {
            first: _first,
            next: _next,
            previous: _previous,
        } = self;
    }
}

impl Model for Below {
    ghost use Rattle.cancel_context.specs.Below.{Links};

    ghost Value = { Links };

    ghost view = { λ b. record {
      first = b.first.items;
      next = b.next.items;
      previous = b.previous.items;
    } };
}

impl Below {
    /// Lists of `count` contexts, each empty.
    pub(crate) fn new(alloc: Global, count: usize) -> Result<Below, AllocError>
        ensures { IfOk result
            (λ below. below ≡ record {
              first = replicate count None;
              next = replicate count None;
              previous = replicate count None;
            }) }
    {
        Ok(Below {
            first: vec![in alloc; None; count]?,
            next: vec![in alloc; None; count]?,
            previous: vec![in alloc; None; count]?,
        })
    }

    /// The first of those bound to a context.
    pub(crate) fn first(&self, context: ContextId) -> Option<ContextId>
        requires { context < length self.now.first }
        ensures { result ≡ next_of self.now.first context }
    {
        self.first[context.index()]
    }

    /// The one that comes after a context in the list that it is in.
    pub(crate) fn next(&self, context: ContextId) -> Option<ContextId>
        requires { context < length self.now.next }
        ensures { result ≡ next_of self.now.next context }
    {
        self.next[context.index()]
    }

    /// Puts a context that has just been bound before those that were bound to its parent. Nothing is
    /// bound to itself.
    pub(crate) fn join(&mut self, context: ContextId, parent: Option<ContextId>)
        requires place { HasPlace self.old context }
        requires parent { ForSome parent (HasPlace self.old) }
        requires follower { ForSome parent
            (λ p. ForSome (next_of (emptied self.old context).first p) (HasPlace self.old)) }
        ensures { self.new ≡ joined self.old context parent }
    {
        self.first[context.index()] = None;
        let Some(parent) = parent else {
            return;
        };
        self.next[context.index()] = self.first[parent.index()];
        self.previous[context.index()] = None;
        link(
            &mut self.previous,
            self.first[parent.index()],
            Some(context),
        );
        self.first[parent.index()] = Some(context);
    }

    /// Takes a context from the list of its parent, if it has one.
    pub(crate) fn leave(&mut self, context: ContextId, parent: Option<ContextId>)
        requires place { HasPlace self.old context }
        requires parent { ForSome parent (HasPlace self.old) }
        requires before { ForSome parent
            (λ _. ForSome (next_of self.old.previous context) (HasPlace self.old)) }
        requires after { ForSome parent
            (λ _. ForSome (next_of self.old.next context) (HasPlace self.old)) }
        requires apart { ForSome parent (λ _. next_of self.old.previous context ≢ Some context) }
        ensures { self.new ≡ left self.old context parent }
    {
        let Some(parent) = parent else {
            return;
        };
        let place = context.index();
        if self.previous[place].is_none() {
            self.first[parent.index()] = self.next[place];
        }
        let after = self.next[place];
        link(&mut self.next, self.previous[place], after);
        let before = self.previous[place];
        link(&mut self.previous, self.next[place], before);
    }
}

/// Links a context, if there is one, to another.
fn link(links: &mut [Option<ContextId>], context: Option<ContextId>, to: Option<ContextId>)
    requires { ForSome context (λ c. c < length links.old) }
    ensures { links.new ≡ set_at links.old context to }
{
    if let Some(context) = context {
        links[context.index()] = to;
    }
}
