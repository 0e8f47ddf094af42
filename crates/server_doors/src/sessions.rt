// One session at the doors of tenants.
ghost use Rattle.std.specs.Prelude.{◌≡◌, ◌≤◌, ◌<◌, length, map, None};
ghost use Rattle.job_language.specs.Collecting.{IsCollect};
ghost use Rattle.server_doors.specs.Slots.{AreFronts};
ghost use Rattle.server_doors.specs.Sessions.{AreOwn};
ghost use Rattle.server_doors.specs.SessionWays.{AsksBound, with_thread};
ghost use Rattle.server_doors.specs.SlotWays.{GoesHome};

use crate::slots::HeldSlot;
use job_language::{Error, Moved, Reply, Request, TenantName};
use job_step::{Segment, View};
use nested_wait::Door;
use session_core::{Answered, Doors};
use std::marker::Model;
use std::sync::Wait;
use tenant_book::{Front, Naming};
use tenant_record::Seat;
use worker_main::{Ringer, Signal, SlotAccess};

/// One session's ways to the tenants behind locks. It has a seat of each tenant, and is at one slot
/// at most: that of the job that it executes. It calls workers to the slots that become due. It can't be let go: at its
/// end the slot goes home and the seats come back (`SessionDoors::into_parts`).
pub struct SessionDoors<'d, 'q, J: Naming, R: Wait, S: Signal> {
    slots: HeldSlot<'d, J, R>,
    ringer: Ringer<'q, R, S>,
    names: &'d [TenantName],
    seats: Vec<Seat>,
    bound: usize,
}

impl<'d, 'q, J: Naming, R: Wait, S: Signal> Model for SessionDoors<'d, 'q, J, R, S> {
    ghost use Rattle.server_doors.specs.Sessions.{SessionSeen, IsSession};

    ghost Value = { SessionSeen };

    ghost view = { λ s. record {
      at = record { ringer = s.ringer; doors = s.slots };
      names = s.names.now;
      seats = s.seats.items;
      bound = s.bound;
    } };

    ghost invariant = { λ s. IsSession
        (record {
          at = record { ringer = s.ringer; doors = s.slots };
          names = s.names.now;
          seats = s.seats.items;
          bound = s.bound;
        }) };
}

impl<'d, 'q, J: Naming, R: Wait, S: Signal> SessionDoors<'d, 'q, J, R, S> {
    /// A session that is bound to no tenant yet. Seats and names are those of tenants 0, 1 and so on.
    pub fn new(
        slots: HeldSlot<'d, J, R>,
        ringer: Ringer<'q, R, S>,
        names: &'d [TenantName],
        seats: Vec<Seat>,
    ) -> Self
        requires seats { length seats.items ≡ length slots.doors }
        requires own { AreOwn seats.items }
        requires names { names.now ≡ map (λ d. d.config.name) slots.doors }
        requires level { length slots.doors ≤ length ringer.queues.config }
        ensures { result ≡ record {
          at = record { ringer = ringer.entry; doors = slots.entry };
          names = names.now;
          seats = seats.items;
          bound = 0;
        } }
    {
        SessionDoors {
            slots,
            ringer,
            names,
            seats,
            bound: 0,
        }
    }

    /// Gives the slot home that it is at. The doors can then serve another session, by the same seats.
    pub fn leave(&mut self)
        ensures home { GoesHome self.old.at.doors self.new.at.doors }
        ensures session { self.new ≡ with_thread self.old
            (record self.old.at { doors = self.new.at.doors }) }
    {
        self.slots.give_home();
    }

    /// Gives the slot home that it is at, and gives back the seats, what it has seen of each tenant's history, and the
    /// ringer with its queue pass.
    pub fn into_parts(self) -> (Vec<Seat>, Vec<Front<J>>, Ringer<'q, R, S>)
        ensures home { GoesHome self.entry.at.doors
            (record { doors = self.entry.at.doors.doors; fronts = result.1.items; pass = None }) }
        ensures fronts { AreFronts self.entry.at.doors.doors result.1.items }
        ensures seats { result.0.items ≡ self.entry.seats }
        ensures count { length result.0.items ≡ length self.entry.at.doors.doors }
        ensures own { AreOwn result.0.items }
        ensures ringer { result.2 ≡ self.entry.at.ringer }
    {
        let SessionDoors {
            slots,
            ringer,
            names: _names,
            seats,
            bound: _bound,
        } = self;
        let fronts = slots.end();
        (seats, fronts, ringer)
    }

    /// Asks the tenant of the session, by its seat there.
    fn ask_bound(&mut self, request: Request) -> Answered
        requires { self.old.bound < length self.old.seats }
        ensures asks { AsksBound self.old request result self.new }
        ensures pending { result.reply ≡ Reply.Pending → IsCollect request }
    {
        let (reply, due) = self.slots.ask(&mut self.seats[self.bound], request);
        self.ringer.call_due(due);
        Answered {
            reply,
            placed: matches!(reply, Reply::Placed(..)),
        }
    }
}

impl<'d, 'q, J: Naming, R: Wait, S: Signal> Door for SessionDoors<'d, 'q, J, R, S> {
    ghost use Rattle.server_doors.specs.SessionWays.{Sees, Commits, Advances, HasHeight, Waits};

    ghost views = { Sees };

    ghost commits = { Commits };

    ghost advances = { Advances };

    ghost heights = { HasHeight };

    ghost pauses = { Waits };

    fn view(&self) -> View {
        self.slots.view()
    }

    fn commit(&mut self, segment: Segment) -> Moved {
        let (moved, due) = self.slots.commit(segment);
        self.ringer.call_due(due);
        moved
    }

    fn advance(&mut self) -> Moved {
        let (moved, due) = self.slots.advance();
        self.ringer.call_due(due);
        moved
    }

    fn height(&self) -> usize {
        self.slots.height()
    }

    fn pause(&mut self) -> bool {
        self.slots.pause()
    }
}

impl<'d, 'q, J: Naming, R: Wait, S: Signal> Doors for SessionDoors<'d, 'q, J, R, S> {
    ghost use Rattle.server_doors.specs.SessionWays.{Finds, Binds, Asks, WaitsFor};

    ghost finds = { Finds };

    ghost binds = { Binds };

    ghost asks = { Asks };

    ghost waits = { WaitsFor };

    fn find(&self, name: TenantName) -> Option<usize> {
        self.names
            .iter()
            .position(|known| name.as_bytes() == known.as_bytes())
    }

    fn bind(&mut self, tenant: usize, _name: TenantName) -> Result<(), Error> {
        self.bound = tenant;
        Ok(())
    }

    fn ask(&mut self, request: Request) -> Answered {
        if self.bound < self.seats.len() {
            self.ask_bound(request)
        } else {
            Answered {
                reply: Reply::Refused(Error::NoTenant),
                placed: false,
            }
        }
    }

    fn pause_for(&mut self, job: u64) -> bool {
        match self.seats.get(self.bound) {
            Some(seat) => self.slots.wait_for(seat, job),
            None => true,
        }
    }
}
