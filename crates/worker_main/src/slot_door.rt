// A door to slots that pushes each slot that its calls make due.
ghost use Rattle.std.specs.Prelude.{◌≡◌, ◌≤◌, length};
ghost use Rattle.worker_main.specs.Slots.{views_of, commits_of, advances_of, heights_of, pauses_of, Homes, HandsOver, Arrives, PopsAt};

use crate::doors::{SlotAccess, WorkerAccess};
use crate::gate::Gate;
use crate::ringer::Ringer;
use crate::signal::Signal;
use call_queues::QueuePass;
use job_language::{Came, Moved};
use job_step::{Segment, View};
use market_config::Call;
use nested_wait::Door;
use std::marker::Model;
use std::sync::Wait;

/// The door of a worker, a caller or a session. It pushes the call of each slot that becomes due and
/// rings, and its segments pass a gate.
#[derive(Drop)]
pub struct SlotDoor<'q, R: Wait, S: Signal, G: Gate, D: SlotAccess> {
    ringer: Ringer<'q, R, S>,
    gate: &'q G,
    doors: D,
}

impl<'q, R: Wait, S: Signal, G: Gate, D: SlotAccess> Model for SlotDoor<'q, R, S, G, D> {
    ghost use Rattle.std.specs.Prelude.{◌≤◌, length};
    ghost use Rattle.worker_main.specs.Slots.{SlotSeen};

    ghost Value = { SlotSeen D };

    ghost view = { λ s. record { ringer = s.ringer; doors = s.doors } };

    ghost invariant = { λ s. D.tenants s.doors ≤ length s.ringer.queues.config };
}

impl<'q, R: Wait, S: Signal, G: Gate, D: SlotAccess> SlotDoor<'q, R, S, G, D> {
    /// The door of the slots that the doors lead to.
    pub fn new(ringer: Ringer<'q, R, S>, gate: &'q G, doors: D) -> Self
        requires { D.tenants doors ≤ length ringer.queues.config }
        ensures { result ≡ record { ringer = ringer.entry; doors = doors } }
    {
        SlotDoor {
            ringer,
            gate,
            doors,
        }
    }

    /// Gives the slot home, if it leads to one.
    pub fn give_home(&mut self)
        ensures { Homes D.homes self.old self.new }
    {
        self.doors.give_home();
    }

    /// Hands the slot over, if it leads to one: it goes home, and the slot of its tenant that this makes
    /// due is called.
    pub fn hand_over(&mut self)
        ensures { HandsOver D.hands self.old self.new }
    {
        let called = self.doors.hand_over();
        self.ringer.call_due(called);
    }

    /// Whether a call waits that is of the level of its slot's tenant or of a higher one. Others push
    /// and pop meanwhile.
    pub fn is_awaited(&mut self) -> bool
        ensures { self.new ≡ self.old }
    {
        match self.doors.tenant() {
            Some(tenant) => self.ringer.has_call_for(tenant),
            None => false,
        }
    }

    /// Takes the first call of the highest level that has one.
    pub fn pop(&mut self) -> Option<Call>
        ensures { PopsAt self.old result self.new }
    {
        self.ringer.pop()
    }

    /// The queue pass and the doors that it was made with.
    pub fn into_parts(self) -> (QueuePass, D)
        ensures pass { result.0 ≡ self.entry.ringer.pass }
        ensures doors { result.1 ≡ self.entry.doors }
        ensures queues { result.0.queues ≡ self.entry.ringer.queues.queues }
    {
        let SlotDoor {
            ringer,
            gate: _gate,
            doors,
        } = self;
        (ringer.into_pass(), doors)
    }
}

impl<'q, R: Wait, S: Signal, G: Gate, D: WorkerAccess> SlotDoor<'q, R, S, G, D> {
    /// Arrives at the slot of a call.
    pub fn arrive(&mut self, call: Call) -> Came
        ensures { Arrives D.arrives self.old call result self.new }
    {
        let (came, due) = self.doors.arrive(call);
        self.ringer.call_due(due);
        came
    }
}

impl<'q, R: Wait, S: Signal, G: Gate, D: SlotAccess> Door for SlotDoor<'q, R, S, G, D> {
    ghost views = { views_of D.views };

    ghost commits = { commits_of D.commits };

    ghost advances = { advances_of D.advances };

    ghost heights = { heights_of D.heights };

    ghost pauses = { pauses_of D.pauses };

    fn view(&self) -> View {
        self.doors.view()
    }

    fn commit(&mut self, segment: Segment) -> Moved {
        if let Some(tenant) = self.doors.tenant() {
            self.gate.inside(tenant, segment.top().slot);
        }
        let (moved, due) = self.doors.commit(segment);
        self.ringer.call_due(due);
        moved
    }

    fn advance(&mut self) -> Moved {
        let (moved, due) = self.doors.advance();
        self.ringer.call_due(due);
        moved
    }

    fn height(&self) -> usize {
        self.doors.height()
    }

    fn pause(&mut self) -> bool {
        self.doors.pause()
    }
}
