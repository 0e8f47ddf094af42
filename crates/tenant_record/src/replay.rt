// An arena with the history that replays to it.
ghost use Rattle.std.specs.Prelude.{◌≡◌, ◌≢◌, ◌++◌, [], ◌≤◌, ◌<◌, IfOk, true, false, count_by, length, vec_len, vec_capacity, ℕ, Some, IfSome, IsSome};
ghost use Rattle.job_language.specs.Recorded.{is_entry};
ghost use Rattle.job_language.specs.Tenant.{IsValidTenant};
ghost use Rattle.job_language.specs.declared.answers.Moved.TheVariants as moved;
ghost use Rattle.job_language.specs.declared.answers.Answer.{Answer};
ghost use Rattle.job_language.specs.declared.answers.Reply.{Reply};
ghost use Rattle.job_language.specs.declared.steps.Step.{Step};
ghost use Rattle.tenant_model.specs.Asks.{is_hello, known_job};
ghost use Rattle.tenant_model.specs.declared.rows.TheConstants.{MAX_HEIGHT};
ghost use Rattle.tenant_model.specs.Changes.{open_rows};
ghost use Rattle.tenant_model.specs.State.{State};
ghost use Rattle.tenant_model.specs.Walks.{has_unstarted, height, is_unstarted};
ghost use Rattle.tenant_model.specs.Advance.{advance};
ghost use Rattle.tenant_record.specs.History.{entries_of, IsHistory};
ghost use Rattle.tenant_record.specs.Replayed.{state_of, status_of, ask_within};
ghost use Rattle.arena_core.specs.Stands.{StandsFor};
ghost use Rattle.arena_steps.specs.Within.{advance_within, arrive_within};
ghost use Rattle.arena_core.specs.Views.{IsSeen, Commits};

use arena_core::Arena;
use job_language::{
    Answer, Came, Entry, Error, Moved, Reply, Request, Status, Step, Tenant, TenantConfig,
};
use job_step::{Segment, View};
use std::alloc::{AllocError, Global};
use std::marker::Model;

/// A tenant's arena, and the history of its steps. The history replays to the arena by its type:
/// its answers are those that a new tenant gives to its steps, and the arena stands for the state
/// after them.
pub struct Replay {
    config: TenantConfig,
    arena: Arena,
    history: Vec<Entry>,
}

impl Drop for Replay {
    // An owner drops it in one call, not part by part at each of its ways out.
    fn drop(self) {
        let Replay {
            config: _config,
            arena: _arena,
            history: _history,
        } = self;
    }
}

impl Model for Replay {
    ghost use Rattle.tenant_record.specs.Replayed.{Replayed};
    ghost use Rattle.tenant_record.specs.ReplayFields.{replayed, IsReplay};

    ghost Value = { Replayed };

    ghost view = { replayed };

    ghost invariant = { IsReplay };
}

impl Replay {
    /// A tenant that has done nothing yet, with room for all entries that its history may have.
    pub fn new(alloc: Global, config: TenantConfig) -> Result<Replay, AllocError>
        ensures { IfOk result (λ replay. replay ≡ record { config = config; history = [] }) }
    {
        let steps = config.tenant().steps;
        Ok(Replay {
            config,
            arena: Arena::new(alloc, config)?,
            history: Vec::with_capacity(alloc, steps)?,
        })
    }

    /// What the tenant is given.
    pub fn config(&self) -> &Tenant
        ensures value { result.now ≡ self.now.config }
        ensures valid { IsValidTenant self.now.config }
    {
        self.config.tenant()
    }

    /// The entries so far.
    pub fn history(&self) -> &[Entry]
        ensures value { result.now ≡ self.now.history }
        ensures right { IsHistory self.now.config self.now.history }
    {
        self.history.as_slice()
    }

    /// The entries, when the arena is done.
    pub fn into_history(self) -> Vec<Entry>
        ensures { result.items ≡ self.history }
    {
        let Replay {
            config: _config,
            arena: _arena,
            history,
        } = self;
        history
    }

    /// How many rows are on a slot.
    pub fn height(&self, slot: u8) -> usize
        ensures value { result ≡ height (state_of self.now).rows slot }
        ensures most { result ≤ MAX_HEIGHT }
    {
        self.arena.height(slot)
    }

    /// Whether an advance of a slot would be idle.
    pub fn is_idle(&self, slot: u8) -> bool
        ensures idle { result ≡ true → (advance (state_of self.now) slot).0 ≡ moved.Idle }
        ensures moves { result ≡ false → (advance (state_of self.now) slot).0 ≢ moved.Idle }
    {
        self.arena.is_idle(slot)
    }

    /// Whether a row waits to be started.
    pub fn has_unstarted(&self) -> bool
        ensures { result ≡ has_unstarted (state_of self.now) }
    {
        self.arena.has_unstarted()
    }

    /// How many rows are open: they wait to be started, or are live on a slot.
    pub fn open_rows(&self) -> usize
        ensures { result ≡ open_rows (state_of self.now).rows }
    {
        self.arena.open_rows()
    }

    /// How many rows wait to be started.
    pub fn waiting_rows(&self) -> usize
        ensures { result ≡ count_by (λ r. is_unstarted r.phase) (state_of self.now).rows }
    {
        self.arena.waiting_rows()
    }

    /// How many jobs were made, the number of the last one.
    pub fn job_count(&self) -> u64
        ensures { result ≡ length (state_of self.now).jobs }
    {
        self.arena.job_count()
    }

    /// The least number above another one of a job that is neither retired nor released.
    pub fn next_job(&self, after: u64) -> Option<u64>
        ensures known { IfSome result
            (λ n. (after < n) × IsSome (known_job (state_of self.now) n)) }
        ensures least { (j : ℕ) → after < j → IsSome (known_job (state_of self.now) j)
            → (n : ℕ) × (result ≡ Some n) × (n ≤ j) }
    {
        self.arena.next_job(after)
    }

    /// How far a job is, if it was made and is neither retired nor released.
    pub fn status(&self, job: u64) -> Option<Status>
        ensures { result ≡ status_of (state_of self.now) job }
    {
        self.arena.status(job)
    }

    /// What is seen of a slot: its topmost frame, if another handle on the frame's program is granted.
    pub fn view(&self, slot: u8) -> View
        ensures { IsSeen (state_of self.now) slot result }
    {
        self.arena.view(slot)
    }

    /// Answers an ask, of which the arena and the history keep one copy each. Without room for an entry
    /// in the caller's log every ask but a hello is refused as at a full history.
    pub fn ask(&mut self, request: Request, copy: Request, has_room: bool) -> Reply
        requires { copy ≡ request }
        ensures answer { result ≡ (ask_within has_room (state_of self.old) request).0 }
        ensures state { state_of self.new ≡ (ask_within has_room (state_of self.old) request).1 }
        ensures config { self.new.config ≡ self.old.config }
        ensures history { self.new.history
            ≡ self.old.history ++ entries_of (Step.Ask request) (Answer.Replied result) }
        ensures right { IsHistory self.new.config self.new.history }
    {
        let answer = Answer::Replied(ask_within(&mut self.arena, request, has_room));
        record(&mut self.history, Step::Ask(copy), &answer);
        replied(&answer)
    }

    /// Lets a worker arrive at a slot. Without room for an entry in the caller's log an arrival that
    /// would be one is refused as at a full history.
    pub fn arrive(&mut self, slot: u8, has_room: bool) -> Came
        ensures answer { result ≡ (arrive_within has_room (state_of self.old) slot).0 }
        ensures state { state_of self.new ≡ (arrive_within has_room (state_of self.old) slot).1 }
        ensures config { self.new.config ≡ self.old.config }
        ensures history { self.new.history
            ≡ self.old.history ++ entries_of (Step.Arrive slot) (Answer.Came result) }
        ensures right { IsHistory self.new.config self.new.history }
    {
        let came = self.arena.arrive_within(slot, has_room);
        record(&mut self.history, Step::Arrive(slot), &Answer::Came(came));
        came
    }

    /// Advances a slot. Without room for an entry in the caller's log an advance that would be one is
    /// refused as at a full history.
    pub fn advance(&mut self, slot: u8, has_room: bool) -> Moved
        ensures answer { result ≡ (advance_within has_room (state_of self.old) slot).0 }
        ensures state { state_of self.new ≡ (advance_within has_room (state_of self.old) slot).1 }
        ensures config { self.new.config ≡ self.old.config }
        ensures history { self.new.history
            ≡ self.old.history ++ entries_of (Step.Advance slot) (Answer.Moved result) }
        ensures right { IsHistory self.new.config self.new.history }
    {
        let moved = self.arena.advance_within(slot, has_room);
        record(
            &mut self.history,
            Step::Advance(slot),
            &Answer::Moved(moved),
        );
        moved
    }

    /// Puts a private run in the place of an advance, and records it as one. It is `Stale` if its frame
    /// is no longer the slot's topmost one.
    pub fn commit(&mut self, slot: u8, segment: &Segment, has_room: bool) -> Moved
        ensures answer { Commits has_room (state_of self.old) slot segment.now
            result (state_of self.new) }
        ensures config { self.new.config ≡ self.old.config }
        ensures history { self.new.history
            ≡ self.old.history ++ entries_of (Step.Advance slot) (Answer.Moved result) }
        ensures right { IsHistory self.new.config self.new.history }
    {
        let moved = self.arena.commit_within(slot, segment, has_room);
        record(
            &mut self.history,
            Step::Advance(slot),
            &Answer::Moved(moved),
        );
        moved
    }
}

/// Answers an ask, or refuses it as at a full history.
fn ask_within(arena: &mut Arena, request: Request, has_room: bool) -> Reply
    ensures { (s : State) → StandsFor arena.old s
        → (result ≡ (ask_within has_room s request).0)
        × StandsFor arena.new (ask_within has_room s request).1 }
{
    if !has_room && !is_hello(&request) {
        return Reply::Refused(Error::HistoryFull);
    }
    arena.ask(request)
}

fn is_hello(request: &Request) -> bool
    ensures { result ≡ is_hello request.now }
{
    matches!(request, Request::Hello(_))
}

fn replied(answer: &Answer) -> Reply
    ensures { (reply : Reply) → answer.now ≡ Answer.Replied reply → result ≡ reply }
{
    match *answer {
        Answer::Replied(reply) => reply,
        _ => Reply::Pending,
    }
}

/// Records a step, if its answer makes it an entry.
pub(crate) fn record(history: &mut Vec<Entry>, step: Step, answer: &Answer)
    requires { is_entry answer.now ≡ true → vec_len history.old < vec_capacity history.old }
    ensures items { history.new.items ≡ history.old.items ++ entries_of step answer.now }
    ensures capacity { vec_capacity history.new ≡ vec_capacity history.old }
{
    if answer.is_entry() {
        history.push_reserved(Entry {
            step,
            answer: *answer,
        });
    }
}
