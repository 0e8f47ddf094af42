// A tenant's cell: what its lock keeps.
ghost use Rattle.std.specs.Prelude.{◌≡◌, ◌<◌, ◌++◌, IfOk, true, false, vec_len, vec_capacity};
ghost use Rattle.job_language.specs.Recorded.{is_entry, is_recorded_reply};
ghost use Rattle.job_language.specs.declared.answers.Answer.{Answer};
ghost use Rattle.job_language.specs.declared.answers.Moved.TheVariants as moved;
ghost use Rattle.job_language.specs.declared.tenants.TheConstants.{MAX_SLOTS};
ghost use Rattle.tenant_model.specs.Told.{placed_on};
ghost use Rattle.tenant_model.specs.Walks.{height};
ghost use Rattle.job_language.specs.Collecting.{IsCollect};
ghost use Rattle.tenant_record.specs.Cell.{IsAttended, IsCommitted, IsRight, state_of, first_cell, has_slot_of, advance_of, arrival, entered, AnswersAsk, askers_of};
ghost use Rattle.tenant_record.specs.Locked.{IsMoved, IsArrived, IsAsked, IsHandedOver, given_home};
ghost use Rattle.tenant_record.specs.PassData.{GoesWith};

mod looks;

use crate::passes::Pass;
use crate::places::{call, is_out, put, room_at};
use crate::replay::Replay;
use crate::seats::Seat;
use crate::slots::{Advanced, Arrived, SlotRecords};
use job_language::{Came, Entry, Error, Reply, Request, TenantConfig};
use job_step::Segment;
use std::alloc::{AllocError, Global};
use std::marker::Model;

/// A tenant's arena with its history, and what is known of its asks and slots. It is right by its
/// type: the history replays to the arena, each ask in it has the number of its seat, and the pass
/// of each reserved slot with nothing on it is home.
pub struct TenantCell {
    tenant: usize,
    replay: Replay,
    askers: Vec<usize>,
    slots: SlotRecords,
}

impl Drop for TenantCell {
    // An owner drops it in one call, not part by part at each of its ways out.
    fn drop(self) {
        let TenantCell {
            tenant: _tenant,
            replay: _replay,
            askers: _askers,
            slots: _slots,
        } = self;
    }
}

impl Model for TenantCell {
    ghost use Rattle.tenant_record.specs.Cell.{CellData};
    ghost use Rattle.tenant_record.specs.CellFields.{cell_data, IsCell};

    ghost Value = { CellData };

    ghost view = { cell_data };

    ghost invariant = { IsCell };
}

/// What an ask came to.
pub struct AskOutcome {
    pub reply: Reply,
    /// The slot that a worker is called to.
    pub due: Option<u8>,
    /// The pass of the slot where a job was placed.
    pub pass: Option<Pass>,
}

impl TenantCell {
    /// A tenant that has done nothing yet, whose passes are all home, with room for all that it may
    /// record. Tenants are numbered from 0.
    pub fn new(alloc: Global, tenant: usize, config: TenantConfig) -> Result<TenantCell, AllocError>
        ensures cell { IfOk result (λ cell. cell ≡ first_cell tenant config) }
        ensures attended { IfOk result IsAttended }
    {
        let steps = config.tenant().steps;
        Ok(TenantCell {
            tenant,
            replay: Replay::new(alloc, config)?,
            askers: Vec::with_capacity(alloc, steps)?,
            slots: SlotRecords::new(alloc, tenant, &config)?,
        })
    }

    /// Answers an ask of a seat. The arena, the history and the seat keep one copy of the request each;
    /// if one is refused, that is error 9, and nothing has changed.
    pub fn ask(&mut self, seat: &mut Seat, request: Request) -> AskOutcome
        ensures answer { AnswersAsk self.old seat.old request result.reply self.new }
        // A collect alone can be pending.
        ensures pending { result.reply ≡ Reply.Pending → IsCollect request }
        // With a job that is placed on a slot goes the slot's pass, and with no other reply a pass.
        ensures placed { GoesWith self.old.tenant (placed_on result.reply) result.pass }
        ensures asked { IsAsked self.old seat.old request result.reply
            result.due result.pass self.new seat.new }
        ensures attended { IsAttended self.old → IsAttended self.new }
    {
        let (Ok(copy), Ok(kept)) = (request.try_clone(), request.try_clone()) else {
            return AskOutcome {
                reply: Reply::Refused(Error::NoMemory),
                due: None,
                pass: None,
            };
        };
        let reply = self.replay.ask(request, copy, seat.has_room());
        seat.tell(kept, &reply);
        note_asker(&mut self.askers, seat.number(), &reply);
        let (due, pass) = self.slots.asked(&self.replay, &reply);
        AskOutcome { reply, due, pass }
    }

    /// Lets a worker arrive at a slot. Nothing happens if the slot's pass is out.
    pub fn arrive(&mut self, slot: u8) -> Arrived
        ensures answer { result.came ≡ (arrival self.old slot).0 }
        ensures state { state_of self.new ≡ (arrival self.old slot).1 }
        // With an arrival that finds a row goes the slot's pass.
        ensures found { let at = entered slot (is_entry (Answer.Came result.came)) in
            GoesWith self.old.tenant at result.pass }
        ensures arrived { IsArrived self.old slot result.came result.due result.pass self.new }
        ensures attended { IsAttended self.old → IsAttended self.new }
    {
        let Some(has_room) = room_at(self.slots.home.as_slice(), slot) else {
            return Arrived {
                came: Came::Nothing,
                due: None,
                pass: None,
            };
        };
        let came = self.replay.arrive(slot, has_room);
        self.slots.arrived(&self.replay, slot, came)
    }

    /// Advances the slot of a pass of this tenant.
    pub fn advance(&mut self, pass: Pass) -> Advanced
        requires tenant { pass.tenant ≡ self.old.tenant }
        requires slot { pass.slot < self.old.config.slots }
        ensures answer { result.moved ≡ (advance_of self.old pass).0 }
        ensures state { state_of self.new ≡ (advance_of self.old pass).1 }
        ensures moved { IsMoved self.old pass result.moved result.due result.pass self.new }
        ensures attended { has_slot_of self.old pass ≡ true
            → IsAttended self.old → IsAttended self.new }
    {
        let entries = self.replay.history().len();
        let moved = self.replay.advance(pass.slot(), pass.has_room());
        self.slots.moved(&self.replay, pass, moved, entries)
    }

    /// Puts a private run in the place of an advance of the slot of a pass of this tenant. It is
    /// `Stale` if its frame is no longer the slot's topmost one.
    pub fn commit(&mut self, pass: Pass, segment: Segment) -> Advanced
        requires tenant { pass.tenant ≡ self.old.tenant }
        requires slot { pass.slot < self.old.config.slots }
        ensures answer { IsCommitted self.old pass segment result.moved self.new }
        ensures moved { IsMoved self.old pass result.moved result.due result.pass self.new }
        ensures attended { has_slot_of self.old pass ≡ true
            → IsAttended self.old → IsAttended self.new }
    {
        let entries = self.replay.history().len();
        let moved = self.replay.commit(pass.slot(), &segment, pass.has_room());
        self.slots.moved(&self.replay, pass, moved, entries)
    }

    /// Puts a pass of this tenant home. Nothing else changes.
    pub fn give_home(&mut self, pass: Pass)
        requires tenant { pass.tenant ≡ self.old.tenant }
        requires slot { pass.slot < self.old.config.slots }
        ensures home { self.new ≡ given_home self.old pass }
        ensures attended { height (state_of self.old).rows pass.slot ≡ 0
            → IsAttended self.old → IsAttended self.new }
    {
        put(self.slots.home.as_mut_slice(), pass);
    }

    /// Whether the slot of a pass is one of this tenant's, and its pass is out.
    pub fn has_slot_of(&self, pass: &Pass) -> bool
        ensures value { result ≡ has_slot_of self.now pass.now }
        ensures few { result ≡ true → pass.now.slot < MAX_SLOTS }
    {
        let slot = pass.slot();
        pass.tenant() == self.tenant
            && slot < self.config().slots
            && is_out(self.slots.home.as_slice(), slot)
    }

    /// Ends a pass that is not the one that is out of one of this tenant's slots.
    pub fn end_foreign(&self, pass: Pass)
        requires { has_slot_of self.now pass ≡ false }
    {
        pass.end();
    }

    /// Puts a pass of this tenant home, and calls a worker as an entry does: the lowest slot for
    /// workers whose pass is home with nobody called becomes due, if a row waits. That may be the
    /// slot that was left. Nothing else changes.
    pub fn hand_over(&mut self, pass: Pass) -> Option<u8>
        requires tenant { pass.tenant ≡ self.old.tenant }
        requires slot { pass.slot < self.old.config.slots }
        ensures { IsHandedOver self.old pass result self.new }
    {
        self.give_home(pass);
        call(self.slots.home.as_mut_slice(), &self.replay, true)
    }

    /// The entries, when the tenant is done. They are those of a cell that was right.
    pub fn into_history(self) -> Vec<Entry>
        ensures value { result.items ≡ self.history }
        ensures right { IsRight self }
    {
        let TenantCell {
            tenant: _tenant,
            replay,
            askers: _askers,
            slots: _slots,
        } = self;
        replay.into_history()
    }
}

/// Notes the seat of an ask, if the ask is recorded.
fn note_asker(askers: &mut Vec<usize>, number: usize, reply: &Reply)
    requires { is_recorded_reply reply.now ≡ true → vec_len askers.old < vec_capacity askers.old }
    ensures items { askers.new.items ≡ askers.old.items ++ askers_of number reply.now }
    ensures capacity { vec_capacity askers.new ≡ vec_capacity askers.old }
{
    if reply.is_recorded() {
        askers.push_reserved(number);
    }
}
