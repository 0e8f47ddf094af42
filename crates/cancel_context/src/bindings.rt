// What a context is bound to.
ghost use Rattle.std.specs.Prelude.{◌≡◌, ◌<◌, ◌^◌};

use std::marker::Model;

/// A context that is held: it stands for that context until the context is released. The id is then
/// used again.
#[derive(Clone, Copy, Debug, PartialEq, Eq)]
pub struct ContextId(pub(crate) u16);

impl Model for ContextId {
    ghost use Rattle.std.specs.Prelude.{ℕ};

    ghost Value = { ℕ };

    ghost view = { λ c. c.0 };

    ghost inverse = { λ n. record { 0 = n } };
}

impl ContextId {
    /// The context at a place.
    pub(crate) fn at(place: usize) -> ContextId
        requires { place < 2 ^ 16 }
        ensures { result ≡ place }
    {
        ContextId(place as u16)
    }

    /// Its place among the contexts, which is below their number while it is held. Two contexts that are
    /// held at once have different places.
    pub fn index(self) -> usize
        ensures { result ≡ self }
    {
        usize::from(self.0)
    }
}

/// How a context is held.
#[derive(Clone, Copy, Debug)]
pub(crate) struct Binding {
    /// The context that it is bound to.
    pub(crate) parent: Option<ContextId>,
    /// Whether it has a cancel request of its own.
    pub(crate) is_asked: bool,
    /// Whether it was bound to a context that was released while it was cancelled.
    pub(crate) is_orphan: bool,
}

impl Model for Binding {
    ghost use Rattle.cancel_context.specs.Forest.{Binding};

    ghost Value = { Binding };

    ghost view = { λ b. record {
      parent = b.parent;
      is_asked = b.is_asked;
      is_orphan = b.is_orphan;
    } };

    ghost inverse = { λ v. record {
      parent = v.parent;
      is_asked = v.is_asked;
      is_orphan = v.is_orphan;
    } };
}
