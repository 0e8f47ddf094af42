// The tenant's door: the calls that take the lock.
ghost use Rattle.std.specs.Prelude.{◌≡◌, IfOk, IsSome};
ghost use Rattle.std.specs.Sync.Mutex.{mutex_guard_value};
ghost use Rattle.job_language.specs.Brought.{job_of};
ghost use Rattle.job_language.specs.declared.errors.Error.TheVariants.{NoMemory};
ghost use Rattle.tenant_model.specs.Told.{placed_on};
ghost use Rattle.tenant_record.specs.PassData.{GoesWith};
ghost use Rattle.tenant_record.specs.SeatData.{asked, first_seats};
ghost use Rattle.job_language.specs.Collecting.{IsCollect};
ghost use Rattle.tenant_lock.specs.Doors.{ComesWith, IsFrontOf, door_of};
ghost use Rattle.tenant_lock.specs.Under.{IsArrivalOf, IsAskOf, WasUnder};

mod closing;
mod moving;
mod reading;
mod waiting;

use crate::held::Held;
use crate::moving_slot::MovingSlot;
use crate::news::{Done, ToWake};
use job_language::{Entry, MAX_SLOTS, Reply, Request, TenantConfig};
use market_config::Call;
use std::alloc::{AllocError, Global};
use std::array;
use std::marker::Model;
use std::sync::atomic::{AtomicU64, Ordering};
use std::sync::{Condvar, Mutex, MutexGuard, Wait};
use std::thread::yield_now;
use tenant_book::{Front, Naming, Registry};
use tenant_record::{Arrived, AskOutcome, Seat, TenantCell, first_seats};

/// How often a thread looks whether the lock is free, and lets others run, before it sleeps for it.
const LOOKS: u32 = 64;

/// What a door that was closed gives.
#[derive(Drop)]
pub struct Closed {
    /// The entries of the tenant's history, in order.
    pub history: Vec<Entry>,
}

/// A tenant behind a lock. Each call takes the lock once, and what it does to the tenant is said of
/// the tenant's cell; here stands what it does to the tokens.
pub struct TenantDoor<J: Naming> {
    tenant: usize,
    config: TenantConfig,
    seats: usize,
    /// What is known of the tenant's life to whoever comes to the door.
    first: Front<J>,
    held: Mutex<Held<J>>,
    /// Who waits at each slot.
    at_slots: [Condvar; MAX_SLOTS as usize],
    /// Who waits for a job.
    outcomes: Condvar,
    /// How many jobs were made. Nothing that is answered depends on it.
    jobs: AtomicU64,
    moving: MovingSlot,
}

impl<J: Naming> Drop for TenantDoor<J> {
    // An owner drops it in one call, not part by part at each of its ways out.
    fn drop(self) {
        let TenantDoor {
            tenant: _tenant,
            config: _config,
            seats: _seats,
            first: _first,
            held: _held,
            at_slots: _at_slots,
            outcomes: _outcomes,
            jobs: _jobs,
            moving: _moving,
        } = self;
    }
}

impl<J: Naming> Model for TenantDoor<J> {
    ghost use Rattle.std.specs.Prelude.{◌≡◌};
    ghost use Rattle.tenant_lock.specs.Doors.{DoorData, door_of};

    ghost Value = { DoorData };

    ghost view = { λ d. door_of d.first.life d.tenant d.config d.seats };

    ghost invariant = { λ d. d.first.config ≡ d.config };
}

impl<J: Naming> TenantDoor<J> {
    /// The door of a tenant that has done nothing yet, with that many seats. Tenants are numbered from
    /// 0, and so are seats. The tenant's life is entered in the registry.
    pub fn new<R: Wait>(
        rt: &R,
        alloc: Global,
        registry: &Registry<J>,
        tenant: usize,
        config: TenantConfig,
        seats: usize,
    ) -> Result<(TenantDoor<J>, Vec<Seat>), AllocError>
        ensures door { IfOk result
            (λ made. made.0 ≡ door_of made.0.life tenant config seats) }
        ensures seats { IfOk result (λ made. made.1.items ≡ first_seats tenant config.steps seats) }
    {
        let all_seats = first_seats(alloc, tenant, config, seats)?;
        let cell = TenantCell::new(alloc, tenant, config)?;
        let whole = registry.begin(rt, config);
        let first = whole.front().again();
        let held = Held::new(rt, cell, whole);
        let door = TenantDoor {
            tenant,
            config,
            seats,
            first,
            held: Mutex::new(held),
            at_slots: array::from_fn(|_slot| Condvar::new()),
            outcomes: Condvar::new(),
            jobs: AtomicU64::new(0),
            moving: MovingSlot::new(),
        };
        Ok((door, all_seats))
    }

    /// The number of its tenant.
    pub fn tenant(&self) -> usize
        ensures { result ≡ self.now.tenant }
    {
        self.tenant
    }

    /// What is known of the tenant's life to whoever comes to the door: a front of it, with nothing seen.
    pub fn front(&self) -> Front<J>
        ensures { IsFrontOf self.now result }
    {
        self.first.again()
    }

    /// Answers an ask of a seat. With a job that is placed on a slot goes the slot's pass, and with no
    /// other reply a pass. A collect alone can be pending.
    pub fn ask<R: Wait>(
        &self,
        rt: &R,
        me: &mut Front<J>,
        seat: &mut Seat,
        request: Request,
    ) -> AskOutcome
        requires front { IsFrontOf self.now me.old }
        requires seat { seat.old.tenant ≡ self.now.tenant }
        ensures front { IsFrontOf self.now me.new }
        ensures seat { seat.new ≡ asked seat.old request result.reply }
        ensures memory { result.reply ≡ Reply.Refused NoMemory → IsSome (job_of request) }
        ensures placed { GoesWith self.now.tenant (placed_on result.reply) result.pass }
        ensures pending { result.reply ≡ Reply.Pending → IsCollect request }
        ensures cell { WasUnder self.now.tenant me.old me.new
            (IsAskOf self.now.tenant seat.old request result seat.new) }
    {
        let done = self.lock(rt).ask(rt, me, self.tenant, seat, request);
        let asked = self.tell(done);
        if let Reply::Made(_) | Reply::Placed(..) = asked.reply {
            self.jobs.fetch_add(1, Ordering::SeqCst);
        }
        asked
    }

    /// Lets a worker arrive at the slot of a call. If a row was found there, the slot's pass comes with
    /// it. At a slot of another tenant, at one that the tenant lacks, and at one whose pass is out,
    /// nothing happens.
    pub fn arrive<R: Wait>(&self, rt: &R, me: &mut Front<J>, call: Call) -> Arrived
        requires front { IsFrontOf self.now me.old }
        ensures front { IsFrontOf self.now me.new }
        ensures comes { ComesWith self.now.tenant call.slot result.came result.pass }
        ensures cell { WasUnder self.now.tenant me.old me.new (IsArrivalOf self.now.tenant call result) }
    {
        let done = self.lock(rt).arrive(rt, me, self.tenant, call);
        self.tell(done)
    }

    /// Takes the lock. What lies under it is known by its type alone, so whether it is this tenant's cell in this life
    /// is looked at each time. It always is: a lock with another one under it would never be taken.
    fn lock<R: Wait>(&self, rt: &R) -> MutexGuard<'_, Held<J>>
        ensures own { (mutex_guard_value result).cell.tenant ≡ self.now.tenant }
        ensures life { (mutex_guard_value result).life ≡ self.now.life }
    {
        let life = self.first.life();
        for _ in rt.forever() {
            let held = self.wait_for_lock(rt);
            if held.tenant() == self.tenant && held.life() == life {
                return held;
            }
        }
        unreachable!()
    }

    /// Waits for the lock. It is held for microseconds, so a thread looks for about as long before it sleeps for it.
    fn wait_for_lock<R: Wait>(&self, rt: &R) -> MutexGuard<'_, Held<J>> {
        for _ in 0..LOOKS {
            if let Some(held) = self.held.try_lock() {
                return held;
            }
            yield_now();
        }
        self.held.lock(rt)
    }

    /// Wakes who may go on after a call, and gives what the call did.
    fn tell<T>(&self, done: Done<T>) -> T
        ensures { result ≡ done.answer }
    {
        let Done { answer, news } = done;
        let ToWake { at_slots, for_jobs } = news;
        at_slots.wake(&self.at_slots);
        for_jobs.wake(&self.outcomes);
        answer
    }

    /// Wakes all that wait. Who has the lock can do it alone.
    fn wake_all(&self, _held: &MutexGuard<'_, Held<J>>) {
        for at_slot in self.at_slots.iter() {
            at_slot.notify_all();
        }
        self.outcomes.notify_all();
    }
}
