// One thread at the doors of tenants.
ghost use Rattle.std.specs.Prelude.{◌≡◌, ◌<◌, length, IfSome, None, option_map};
ghost use Rattle.job_language.specs.Collecting.{IsCollect};
ghost use Rattle.server_doors.specs.Slots.{AreFronts, AreNumbered};
ghost use Rattle.server_doors.specs.SlotWays.{AsksBy, call_at};

mod holding;

use crate::places;
use job_language::{Came, Moved, Reply, Request};
use job_step::{Segment, View};
use market_config::Call;
use std::cell::Cell;
use std::marker::Model;
use std::sync::Wait;
use tenant_book::{Front, Naming};
use tenant_lock::{MovedAndSeen, StopFlag, TenantDoor};
use tenant_record::{Advanced, Arrived, AskOutcome, Pass, Seat};
use worker_main::{SlotAccess, WorkerAccess};

/// A private run of fewer instructions is short: to run it away from the lock and to compare its frame and program
/// under the lock takes longer than the run.
pub const SHORT_RUN: u32 = 64;

/// How many moves of a slot after a short run are advances under the lock, before the slot is looked at again.
pub const MOVES_UNDER_LOCK: u8 = 16;

/// From how many moves on, beyond those that its private runs are worth, a thread and others that move so go on by turns.
const MANY_MOVES: u32 = 32;

/// How many such moves are counted at most: a thread whose private runs become long is soon at none.
const MOST_MOVES: u32 = 64;

/// How many instructions of a private run are worth a move: they take about as long as an entry where several threads
/// take the lock by turns.
const MOVE_WORTH: u32 = 256;

// The height that a door may have is the one that a tenant's slot may have.
const _: () = prove!(nested_wait::MAX_HEIGHT == tenant_model::MAX_HEIGHT as usize);

/// One thread's way to the slots of all tenants. It is at one slot at most, whose pass it has. It can't be let go: at
/// its end the slot goes home (`HeldSlot::end`).
pub struct HeldSlot<'d, J: Naming, R: Wait> {
    rt: &'d R,
    doors: &'d [TenantDoor<J>],
    /// What it has seen of each tenant's history.
    fronts: Vec<Front<J>>,
    stop: &'d StopFlag,
    pass: Option<Pass>,
    /// What its last move saw of its slot under the lock, which nobody else moves, if that is known. A view that
    /// was taken is `Bare`.
    height: Option<usize>,
    view: Cell<View>,
    /// How many of its next moves are advances under the lock, whatever its view is: its last private run was short, or
    /// nobody else was at a slot.
    under_lock: u8,
    /// How many moves it has made at its slot, less what its private runs away from the lock were worth; `MOST_MOVES` at
    /// most.
    short_moves: u32,
}

impl<'d, J: Naming, R: Wait> Model for HeldSlot<'d, J, R> {
    ghost use Rattle.server_doors.specs.Slots.{SlotsSeen, IsAtDoors};

    ghost Value = { SlotsSeen };

    ghost view = { λ s. record { doors = s.doors.now; fronts = s.fronts.items; pass = s.pass } };

    ghost use Rattle.std.specs.Prelude.{◌≤◌, IfSome};
    ghost use Rattle.tenant_model.specs.declared.rows.TheConstants.{MAX_HEIGHT};

    ghost invariant = { λ s. IsAtDoors (record { doors = s.doors.now; fronts = s.fronts.items; pass = s.pass })
        × IfSome s.height (λ height. height ≤ MAX_HEIGHT) };
}

impl<'d, J: Naming, R: Wait> HeldSlot<'d, J, R> {
    /// A thread that is at no slot. The doors are those of tenants 0, 1 and so on. If it waits for a job, it stops
    /// once the flag is raised. At a slot it does not: whoever is there stays until the slot may be left. What it does
    /// goes on from what the fronts have seen.
    pub fn new(
        rt: &'d R,
        doors: &'d [TenantDoor<J>],
        fronts: Vec<Front<J>>,
        stop: &'d StopFlag,
    ) -> Self
        requires numbers { AreNumbered doors.now }
        requires fronts { AreFronts doors.now fronts.items }
        ensures { result ≡ record { doors = doors.now; fronts = fronts.items; pass = None } }
    {
        HeldSlot {
            rt,
            doors,
            fronts,
            stop,
            pass: None,
            height: None,
            view: Cell::new(View::Bare),
            under_lock: 0,
            short_moves: 0,
        }
    }

    /// Answers an ask of a seat, and gives the call for a slot that became due. Before the ask it gives
    /// the slot home that it was at; with a job that is placed on a slot it is at that slot.
    pub fn ask(&mut self, seat: &mut Seat, request: Request) -> (Reply, Option<Call>)
        requires { seat.old.tenant < length self.old.doors }
        ensures asks { AsksBy self.old seat.old request result.0 result.1 self.new seat.new }
        ensures pending { result.0 ≡ Reply.Pending → IsCollect request }
        ensures due { IfSome result.1 (λ call. call.tenant < length self.new.doors) }
    {
        self.give_home();
        let tenant = seat.tenant();
        let AskOutcome { reply, due, pass } = places::ask(
            self.rt,
            self.doors,
            &mut self.fronts,
            seat,
            request,
        );
        self.begin(pass);
        (reply, call_of(tenant, due))
    }

    /// Waits while a job of the seat's tenant has no outcome, and says whether to stop.
    pub fn wait_for(&self, seat: &Seat, job: u64) -> bool
        requires { seat.now.tenant < length self.now.doors }
    {
        let doors = self.doors;
        doors[seat.tenant()].pause_for_until(self.rt, seat, job, self.stop)
    }
}

impl<'d, J: Naming, R: Wait> SlotAccess for HeldSlot<'d, J, R> {
    ghost use Rattle.std.specs.Prelude.{length, option_map};
    ghost use Rattle.server_doors.specs.SlotWays.{Commits, Moves, MayHaveHeight, MayBeSeen, Pauses, GoesHome, HandsOver};

    ghost tenants = { λ s. length s.doors };

    ghost at_tenant = { λ s. option_map (λ p. p.tenant) s.pass };

    ghost views = { MayBeSeen };

    ghost commits = { Commits };

    ghost advances = { Moves };

    ghost heights = { MayHaveHeight };

    ghost pauses = { Pauses };

    ghost homes = { GoesHome };

    ghost hands = { HandsOver };

    fn tenant(&self) -> Option<usize> {
        self.pass.as_ref().map(|pass| pass.tenant())
    }

    fn view(&self) -> View {
        let Some(pass) = &self.pass else {
            return View::Bare;
        };
        if self.under_lock > 0 {
            return View::Unshared;
        }
        match self.view.replace(View::Bare) {
            View::Bare => {
                let tenant = pass.tenant();
                let mut me = self.fronts[tenant].again();
                self.doors[tenant].view(self.rt, &mut me, pass)
            }
            view => view,
        }
    }

    fn commit(&mut self, segment: Segment) -> (Moved, Option<Call>) {
        let Some(pass) = self.pass.take() else {
            return (Moved::Idle, None);
        };
        let tenant = pass.tenant();
        let (rt, doors) = (self.rt, self.doors);
        let count = segment.run().count;
        let MovedAndSeen { advanced, height } = places::commit(
            rt,
            doors,
            &mut self.fronts,
            pass,
            segment,
            self.view.get_mut(),
        );
        let Advanced { moved, due, pass } = advanced;
        self.short_moves = self.short_moves.saturating_sub(count / MOVE_WORTH);
        self.hold(pass);
        self.height = height;
        if count < SHORT_RUN || matches!(self.view.get_mut(), View::Unshared) {
            self.under_lock = MOVES_UNDER_LOCK;
        }
        (moved, call_of(tenant, due))
    }

    fn advance(&mut self) -> (Moved, Option<Call>) {
        let Some(pass) = self.pass.take() else {
            return (Moved::Idle, None);
        };
        let tenant = pass.tenant();
        let (rt, doors) = (self.rt, self.doors);
        self.under_lock = self.under_lock.saturating_sub(1);
        let fronts = &mut self.fronts;
        let has_looked = self.under_lock == 0;
        let MovedAndSeen { advanced, height } = if has_looked {
            places::advance_and_look(rt, doors, fronts, pass, self.view.get_mut())
        } else {
            places::advance_and_count(rt, doors, fronts, pass)
        };
        let Advanced { moved, due, pass } = advanced;
        self.hold(pass);
        self.height = height;
        if has_looked && matches!(self.view.get_mut(), View::Unshared) {
            self.under_lock = MOVES_UNDER_LOCK;
        }
        (moved, call_of(tenant, due))
    }

    fn height(&self) -> usize {
        let Some(pass) = &self.pass else {
            return 0;
        };
        match self.height {
            Some(height) => height,
            None => {
                let tenant = pass.tenant();
                let mut me = self.fronts[tenant].again();
                self.doors[tenant].height(self.rt, &mut me, pass)
            }
        }
    }

    fn pause(&mut self) -> bool {
        let (rt, doors) = (self.rt, self.doors);
        match &self.pass {
            Some(pass) => doors[pass.tenant()].pause(rt, pass),
            None => true,
        }
    }

    fn give_home(&mut self) {
        self.forget();
        if let Some(pass) = self.pass.take() {
            places::give_home(self.rt, self.doors, &mut self.fronts, pass);
        }
    }

    fn hand_over(&mut self) -> Option<Call> {
        self.forget();
        let pass = self.pass.take()?;
        let tenant = pass.tenant();
        let due = places::hand_over(self.rt, self.doors, &mut self.fronts, pass);
        call_of(tenant, due)
    }
}

impl<'d, J: Naming, R: Wait> WorkerAccess for HeldSlot<'d, J, R> {
    ghost use Rattle.server_doors.specs.SlotWays.{ArrivesAt};

    ghost arrives = { ArrivesAt };

    fn arrive(&mut self, call: Call) -> (Came, Option<Call>) {
        self.give_home();
        if call.tenant >= self.doors.len() {
            return (Came::Nothing, None);
        }
        let Arrived { came, due, pass } = places::arrive(
            self.rt,
            self.doors,
            &mut self.fronts,
            call,
        );
        self.begin(pass);
        (came, call_of(call.tenant, due))
    }
}

/// The call for a slot of a tenant that became due.
fn call_of(tenant: usize, due: Option<u8>) -> Option<Call>
    ensures { result ≡ option_map (call_at tenant) due }
{
    due.map(|slot| Call { tenant, slot })
}
