// The arena of one tenant, and its steps.
ghost use Rattle.std.specs.Prelude.{◌≡◌, ◌≢◌, ◌≤◌, [], ◌∷◌, true, false, IfOk, count_by, length, ◌<◌, ℕ, Some, IfSome, IsSome};
ghost use Rattle.std.specs.Option.{option_map};
ghost use Rattle.job_language.specs.declared.answers.Moved.TheVariants as moved;
ghost use Rattle.job_language.specs.declared.steps.Step.{Step};
ghost use Rattle.job_language.specs.Tenant.{IsValidTenant};
ghost use Rattle.tenant_model.specs.declared.rows.TheConstants.{MAX_HEIGHT};
ghost use Rattle.tenant_model.specs.State.{State, empty};
ghost use Rattle.tenant_model.specs.Walks.{has_unstarted, height, is_unstarted};
ghost use Rattle.tenant_model.specs.Advance.{advance, arrive};
ghost use Rattle.tenant_model.specs.Changes.{open_rows};
ghost use Rattle.tenant_model.specs.Asks.{ask, known_job, status};
ghost use Rattle.tenant_model.specs.Regions.{KeepsRegions};
ghost use Rattle.arena_steps.specs.Within.{advance_within, arrive_within};
ghost use Rattle.arena_core.specs.Stands.{IsOfSomeState, StandsFor, Takes};
ghost use Rattle.arena_core.specs.Views.{Commits, IsSeen};

use crate::asks;
use crate::views::{self, is_topmost};
use arena_rows::Parts;
use job_language::{Came, Moved, Reply, Request, Status, Tenant, TenantConfig};
use job_step::{Segment, View};
use std::alloc::{AllocError, Global};
use std::marker::Model;

/// The arena of one tenant. Its slots are numbered from 0. It answers the tenant's steps as the
/// definitions do, for every state that it stands for.
#[derive(Drop)]
pub struct Arena {
    parts: Parts,
}

impl Model for Arena {
    ghost use Rattle.arena_rows.specs.Held.{Held};
    ghost use Rattle.arena_core.specs.Stands.{IsOfSomeState};

    ghost Value = { Held };

    ghost view = { λ a. a.parts };

    ghost invariant = { λ a. IsOfSomeState a.parts };
}

impl Arena {
    /// A tenant that has done nothing yet, with room for all that it may have at once.
    #[tactic(auto, using(crate::proofs::Standing::stands_first))]
    pub fn new(alloc: Global, config: TenantConfig) -> Result<Arena, AllocError>
        ensures { IfOk result (λ arena. StandsFor arena (empty config)) }
    {
        // Proof hint: the tenant is valid.
        let _ = config.tenant();
        let parts = Parts::new(alloc, config)?;
        Ok(Arena { parts })
    }

    /// What the tenant is given.
    pub fn config(&self) -> &Tenant
        ensures value { (s : State) → StandsFor self.now s → result.now ≡ s.config }
        ensures valid { IsValidTenant result.now }
        ensures stands { IsOfSomeState self.now }
    {
        self.parts.config()
    }

    /// How many rows are on a slot.
    pub fn height(&self, slot: u8) -> usize
        ensures value { (s : State) → StandsFor self.now s → result ≡ height s.rows slot }
        ensures most { result ≤ MAX_HEIGHT }
    {
        if slot >= self.parts.config().slots {
            return 0;
        }
        self.parts.height(slot)
    }

    /// What is seen of a slot.
    pub fn view(&self, slot: u8) -> View
        ensures { (s : State) → StandsFor self.now s → IsSeen s slot result }
    {
        views::view(&self.parts, slot)
    }

    /// Whether an advance of a slot would be idle.
    pub fn is_idle(&self, slot: u8) -> bool
        ensures idle { (s : State) → StandsFor self.now s → result ≡ true
            → (advance s slot).0 ≡ moved.Idle }
        ensures moves { (s : State) → StandsFor self.now s → result ≡ false
            → (advance s slot).0 ≢ moved.Idle }
    {
        arena_steps::is_idle(&self.parts, slot)
    }

    /// Whether a row waits to be started.
    pub fn has_unstarted(&self) -> bool
        ensures { (s : State) → StandsFor self.now s → result ≡ has_unstarted s }
    {
        self.parts.has_unstarted()
    }

    /// How many rows are open: they wait to be started, or are live on a slot.
    pub fn open_rows(&self) -> usize
        ensures { (s : State) → StandsFor self.now s → result ≡ open_rows s.rows }
    {
        self.parts.open_rows()
    }

    /// How many rows wait to be started.
    pub fn waiting_rows(&self) -> usize
        ensures { (s : State) → StandsFor self.now s
            → result ≡ count_by (λ r. is_unstarted r.phase) s.rows }
    {
        self.parts.waiting_rows()
    }

    /// How many jobs were made, the number of the last one.
    pub fn job_count(&self) -> u64
        ensures { (s : State) → StandsFor self.now s → result ≡ length s.jobs }
    {
        self.parts.job_count()
    }

    /// The least number above another one of a job that is neither retired nor released.
    pub fn next_job(&self, after: u64) -> Option<u64>
        ensures known { (s : State) → StandsFor self.now s
            → IfSome result (λ n. (after < n) × IsSome (known_job s n)) }
        ensures least { (s : State) (j : ℕ) → StandsFor self.now s → after < j
            → IsSome (known_job s j) → (n : ℕ) × (result ≡ Some n) × (n ≤ j) }
    {
        self.parts.next_job(after)
    }

    /// How far a job is, if it was made and is neither retired nor released.
    pub fn status(&self, job: u64) -> Option<Status>
        ensures { (s : State) → StandsFor self.now s
            → result ≡ option_map (status s.rows job) (known_job s job) }
    {
        self.parts.status(job)
    }

    /// Answers an ask. It needs no memory.
    pub fn ask(&mut self, request: Request) -> Reply
        ensures { (s : State) → StandsFor self.old s → Takes self.new result (ask s request) }
    {
        // Proof hint: the program of the job is valid.
        let _ = request.job();
        asks::ask(&mut self.parts, request)
    }

    /// Lets a worker arrive at a slot; nothing happens at a slot that the tenant lacks.
    pub fn arrive(&mut self, slot: u8) -> Came
        ensures { (s : State) → StandsFor self.old s → Takes self.new result (arrive s slot) }
    {
        self.parts.arrive(slot)
    }

    /// Lets a worker arrive at a slot, unless that is an entry and the caller has no room for one: then
    /// it is `Full`, and nothing has changed.
    pub fn arrive_within(&mut self, slot: u8, has_room: bool) -> Came
        ensures { (s : State) → StandsFor self.old s
            → Takes self.new result (arrive_within has_room s slot) }
    {
        arena_steps::arrive_within(&mut self.parts, slot, has_room)
    }

    /// Advances a slot; one that the tenant lacks is idle. While a region is live on the slot, the row
    /// that moves is within it, and its touch alone changes the slot's cells (`this_task_arena::isolate`).
    pub fn advance(&mut self, slot: u8) -> Moved
        ensures moved { (s : State) → StandsFor self.old s
            → Takes self.new result (advance s slot) }
        ensures regions { (s : State) → StandsFor self.old s
            → KeepsRegions s (Step.Advance slot ∷ []) }
    {
        arena_steps::advance(&mut self.parts, slot)
    }

    /// Advances a slot, unless that is an entry and the caller has no room for one: then it is `Full`,
    /// and nothing has changed.
    pub fn advance_within(&mut self, slot: u8, has_room: bool) -> Moved
        ensures { (s : State) → StandsFor self.old s
            → Takes self.new result (advance_within has_room s slot) }
    {
        arena_steps::advance_within(&mut self.parts, slot, has_room)
    }

    /// Puts a private run in the place of an advance's own. It is `Stale`, and nothing has changed, if
    /// the run is not that of the slot's topmost frame.
    pub fn commit(&mut self, slot: u8, segment: &Segment) -> Moved
        ensures moved { (s : State) → StandsFor self.old s
            → (t : State) × (Commits true s slot segment.now result t × StandsFor self.new t) }
        ensures regions { (s : State) → StandsFor self.old s
            → KeepsRegions s (Step.Advance slot ∷ []) }
    {
        self.commit_within(slot, segment, true)
    }

    /// Puts a private run in the place of an advance's own, unless that is an entry and the caller has
    /// no room for one: then it is `Full`, and nothing has changed. If the run is not that of the slot's
    /// topmost frame, it is `Stale`.
    pub fn commit_within(&mut self, slot: u8, segment: &Segment, has_room: bool) -> Moved
        ensures { (s : State) → StandsFor self.old s
            → (t : State) × (Commits has_room s slot segment.now result t × StandsFor self.new t) }
    {
        if !is_topmost(&self.parts, slot, segment.top()) {
            return Moved::Stale;
        }
        arena_steps::commit_within(&mut self.parts, slot, &segment.run(), has_room)
    }
}
