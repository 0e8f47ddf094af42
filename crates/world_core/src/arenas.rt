// The arena of one tenant, as a world steps it.
ghost use Rattle.std.specs.Prelude.{◌≡◌, IfOk, OnErr, IsSome};
ghost use Rattle.job_language.specs.Brought.{job_of};
ghost use Rattle.tenant_model.specs.State.{State, empty};
ghost use Rattle.tenant_model.specs.Walks.{has_unstarted};
ghost use Rattle.tenant_model.specs.Advance.{arrive, advance};
ghost use Rattle.tenant_model.specs.Asks.{ask};

use arena_core::Arena;
use job_language::{Came, Moved, Reply, Request, TenantConfig};
use std::alloc::{AllocError, Global};

/// The arena of one tenant. It answers the tenant's steps as the definitions do, for every state
/// that it stands for.
pub trait TenantArena: Drop {
    /// Which states of the tenant it stands for.
    ghost stands_for: { Self → State → Type 0 };

    /// A tenant that has done nothing yet.
    fn new(alloc: Global, config: TenantConfig) -> Result<Self, AllocError>
        ensures { IfOk result (λ arena. stands_for arena (empty config)) };

    /// How many of its slots are reserved; these come first.
    fn reserved(&self) -> u8
        ensures { (s : State) → stands_for self.now s → result ≡ s.config.reserved };

    /// Whether a row waits to be started.
    fn has_unstarted(&self) -> bool
        ensures { (s : State) → stands_for self.now s → result ≡ has_unstarted s };

    /// Answers an ask. It fails only if it brings a job and an allocation failed, and then nothing
    /// has changed.
    fn ask(&mut self, alloc: Global, request: Request) -> Result<Reply, AllocError>
        ensures answer { (s : State) → stands_for self.old s
            → IfOk result (λ reply. reply ≡ (ask s request).0) }
        ensures next { (s : State) → stands_for self.old s
            → IfOk result (λ _. stands_for self.new (ask s request).1) }
        ensures refused { (s : State) → stands_for self.old s
            → OnErr result (stands_for self.new s) }
        ensures brings { OnErr result (IsSome (job_of request)) };

    /// Lets a worker arrive at a slot.
    fn arrive(&mut self, slot: u8) -> Came
        ensures answer { (s : State) → stands_for self.old s → result ≡ (arrive s slot).0 }
        ensures next { (s : State) → stands_for self.old s
            → stands_for self.new (arrive s slot).1 };

    /// Advances a slot.
    fn advance(&mut self, slot: u8) -> Moved
        ensures answer { (s : State) → stands_for self.old s → result ≡ (advance s slot).0 }
        ensures next { (s : State) → stands_for self.old s
            → stands_for self.new (advance s slot).1 };
}

impl TenantArena for Arena {
    ghost use Rattle.arena_core.specs.Stands.{StandsFor};

    ghost stands_for = { λ a s. StandsFor a s };

    fn new(alloc: Global, config: TenantConfig) -> Result<Self, AllocError> {
        Arena::new(alloc, config)
    }

    fn reserved(&self) -> u8 {
        self.config().reserved
    }

    fn has_unstarted(&self) -> bool {
        Arena::has_unstarted(self)
    }

    fn ask(&mut self, _alloc: Global, request: Request) -> Result<Reply, AllocError> {
        Ok(Arena::ask(self, request))
    }

    fn arrive(&mut self, slot: u8) -> Came {
        Arena::arrive(self, slot)
    }

    fn advance(&mut self, slot: u8) -> Moved {
        Arena::advance(self, slot)
    }
}
