// What a tenant's lock keeps, and the calls to which it is lent.
ghost use Rattle.std.specs.Prelude.{◌≡◌, ◌≢◌, false, IsSome, None, [], replicate};
ghost use Rattle.job_language.specs.Brought.{job_of};
ghost use Rattle.job_language.specs.Recorded.{is_entry, is_recorded_reply};
ghost use Rattle.job_language.specs.declared.errors.Error.TheVariants.{NoMemory};
ghost use Rattle.job_language.specs.declared.tenants.TheConstants.{MAX_SLOTS};
ghost use Rattle.tenant_model.specs.Told.{placed_on};
ghost use Rattle.tenant_record.specs.PassData.{GoesWith};
ghost use Rattle.tenant_record.specs.SeatData.{asked};
ghost use Rattle.job_language.specs.Collecting.{IsCollect};
ghost use Rattle.tenant_record.specs.Cell.{IsAttended, IsRight, arrival};
ghost use Rattle.tenant_record.specs.Locked.{IsArrived};
ghost use Rattle.tenant_book.specs.Fronts.{Follows};
ghost use Rattle.tenant_lock.specs.Doors.{ComesWith};
ghost use Rattle.tenant_lock.specs.Under.{IsArrivalOf, IsAskOf};
ghost use Rattle.tenant_lock.specs.Watch.{KeepsWatch};

mod moving;
mod reading;
mod waiting;

use crate::awaited::AwaitedJobs;
use crate::news::Done;
use crate::waits::Sleepers;
use job_language::{Answer, Came, Error, Reply, Request};
use market_config::Call;
use std::marker::Model;
use std::sync::Wait;
use tenant_book::{Front, Naming, Whole};
use tenant_record::{Advanced, Arrived, AskOutcome, Seat, TenantCell};

/// A tenant's cell, whether those who wait for it must stop, at which slots they wait, and for which jobs.
/// By its type, whoever is noted as asleep at a slot has nothing to do there: each call that changes that
/// names the slot. And a slot with rows on it is out, so that somebody moves it, until those who wait have
/// to stop.
#[derive(Drop)]
pub(crate) struct Held<J: Naming> {
    cell: TenantCell,
    /// The moments of the cell's life, of which the cell is the last.
    whole: Whole<J>,
    is_stopped: bool,
    waiting: Sleepers,
    awaited: Option<AwaitedJobs>,
}

impl<J: Naming> Model for Held<J> {
    ghost use Rattle.tenant_lock.specs.Sleepers.{HeldData};
    ghost use Rattle.tenant_lock.specs.HeldFields.{IsNoted, IsWatched, held_data};

    ghost Value = { HeldData };

    ghost view = { λ h. held_data h.whole.life h.cell h.is_stopped h.waiting h.awaited };

    ghost invariant = { λ h. IsWatched h.cell h.is_stopped h.waiting h.awaited × IsNoted h.whole h.cell };
}

/// What a move of a slot came to.
pub struct MovedAndSeen {
    pub advanced: Advanced,
    /// How many rows are on the slot after it, unless its pass went home.
    pub height: Option<usize>,
}

impl<J: Naming> Held<J> {
    /// A tenant for which nobody waits, and of which no slot has rows but those that are out. Its life has no moment
    /// yet, and the cell is its first.
    pub(crate) fn new<R: Wait>(rt: &R, cell: TenantCell, whole: Whole<J>) -> Held<J>
        requires attended { IsAttended cell }
        requires config { cell.config ≡ whole.config }
        requires begins { whole.log ≡ [] }
        ensures life { result.life ≡ whole.life }
        ensures cell { result.cell ≡ cell }
        ensures stopped { result.is_stopped ≡ false }
        ensures noted { result.noted ≡ replicate MAX_SLOTS false }
        ensures awaited { result.awaited ≡ None }
    {
        let mut whole = whole;
        whole.note(rt, &cell);
        Held {
            cell,
            whole,
            is_stopped: false,
            waiting: Sleepers::new(),
            awaited: None,
        }
    }

    /// Answers an ask of a seat of the tenant of that number.
    #[tactic(auto, using(crate::proofs::Asking::memory_of))]
    pub(crate) fn ask<R: Wait>(
        &mut self,
        rt: &R,
        me: &mut Front<J>,
        tenant: usize,
        seat: &mut Seat,
        request: Request,
    ) -> Done<AskOutcome>
        requires { me.old.life ≡ self.old.life }
        ensures front { Follows me.old me.new self.old.cell self.new.cell }
        ensures seat { seat.new ≡ asked seat.old request result.answer.reply }
        ensures memory { result.answer.reply ≡ Reply.Refused NoMemory → IsSome (job_of request) }
        ensures placed { GoesWith tenant (placed_on result.answer.reply) result.answer.pass }
        ensures pending { result.answer.reply ≡ Reply.Pending → IsCollect request }
        ensures cell { IsAskOf tenant seat.old request result.answer seat.new
            self.old.cell self.new.cell }
        ensures right { IsRight self.old.cell × IsRight self.new.cell }
        ensures kept { self.old.cell.tenant ≢ tenant → self.new ≡ self.old }
        ensures watch { KeepsWatch self.old self.new
            (is_recorded_reply result.answer.reply) result.news }
    {
        // Proof hint: the cell is right.
        let _ = self.cell.history();
        if self.cell.tenant() != tenant {
            self.whole.follow(rt, me, &self.cell);
            return Done::nothing(AskOutcome {
                reply: Reply::Refused(Error::NoTenant),
                due: None,
                pass: None,
            });
        }
        let asked = self.cell.ask(seat, request);
        self.whole.follow(rt, me, &self.cell);
        let has_entered = asked.reply.is_recorded();
        Done::made(
            asked,
            has_entered,
            &self.cell,
            self.is_stopped,
            &mut self.waiting,
            &mut self.awaited,
        )
    }

    /// Lets a worker arrive at the slot of a call, if that is of the tenant of that number.
    pub(crate) fn arrive<R: Wait>(
        &mut self,
        rt: &R,
        me: &mut Front<J>,
        tenant: usize,
        call: Call,
    ) -> Done<Arrived>
        requires { me.old.life ≡ self.old.life }
        ensures front { Follows me.old me.new self.old.cell self.new.cell }
        ensures comes { ComesWith tenant call.slot result.answer.came result.answer.pass }
        ensures cell { IsArrivalOf tenant call result.answer self.old.cell self.new.cell }
        ensures right { IsRight self.old.cell × IsRight self.new.cell }
        ensures elsewhere { call.tenant ≢ tenant → self.new ≡ self.old }
        ensures watch { KeepsWatch self.old self.new
            (is_entry (Answer.Came result.answer.came)) result.news }
    {
        // Proof hint: the cell is right.
        let _ = self.cell.history();
        if call.tenant != tenant || self.cell.tenant() != tenant {
            self.whole.follow(rt, me, &self.cell);
            return Done::nothing(Arrived {
                came: Came::Nothing,
                due: None,
                pass: None,
            });
        }
        let arrived = arrive_at(&mut self.cell, call.slot);
        self.whole.follow(rt, me, &self.cell);
        let has_entered = Answer::Came(arrived.came).is_entry();
        Done::made(
            arrived,
            has_entered,
            &self.cell,
            self.is_stopped,
            &mut self.waiting,
            &mut self.awaited,
        )
    }

    /// The number of the cell's life.
    pub(crate) fn life(&self) -> usize
        ensures { result ≡ self.now.life }
    {
        self.whole.front().life()
    }

    /// The number of the cell's tenant.
    pub(crate) fn tenant(&self) -> usize
        ensures { result ≡ self.now.cell.tenant }
    {
        self.cell.tenant()
    }

    /// What is seen of a pass's slot, and how many rows are on it, are the cell's.
    pub(crate) fn cell(&self) -> &TenantCell
        ensures value { result.now ≡ self.now.cell }
        ensures right { IsRight self.now.cell }
    {
        // Proof hint: the cell is right.
        let _ = self.cell.history();
        &self.cell
    }

    /// The cell, when nobody waits any more.
    pub(crate) fn into_cell(self) -> TenantCell
        ensures { result ≡ self.cell }
    {
        let Held {
            cell,
            whole: _whole,
            is_stopped: _,
            waiting: _waiting,
            awaited: _awaited,
        } = self;
        cell
    }
}

/// Lets a worker arrive at a slot of a cell.
fn arrive_at(cell: &mut TenantCell, slot: u8) -> Arrived
    ensures comes { ComesWith cell.old.tenant slot result.came result.pass }
    ensures answer { result.came ≡ (arrival cell.old slot).0 }
    ensures arrived { IsArrived cell.old slot result.came result.due result.pass cell.new }
    ensures attended { IsAttended cell.old → IsAttended cell.new }
{
    cell.arrive(slot)
}
