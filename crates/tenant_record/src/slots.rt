// What is kept of each slot of a tenant.
ghost use Rattle.std.specs.Prelude.{◌≡◌, ◌<◌, ◌≤◌, ◌+◌, ◌^◌, length, IfOk, IfSome, None, true, replicate, slice_index_or};
ghost use Rattle.job_language.specs.Recorded.{is_entry, is_recorded_reply};
ghost use Rattle.job_language.specs.declared.answers.Answer.{Answer};
ghost use Rattle.job_language.specs.declared.tenants.TheConstants.{MAX_SLOTS};
ghost use Rattle.tenant_model.specs.Told.{placed_on};
ghost use Rattle.tenant_record.specs.Cell.{counted, touched, marked, entered};
ghost use Rattle.tenant_record.specs.Locked.{pass_back, home_after, home_arrived};
ghost use Rattle.tenant_record.specs.PassData.{has_room};
ghost use Rattle.tenant_record.specs.Places.{HasRoomFor, place, pass_in, woken, taken, placed_pass, arrived_pass, first_places};
ghost use Rattle.tenant_record.specs.Replayed.{due_in};

use crate::passes::{Pass, still_after};
use crate::places::{Place, admit, call, first_places, hand_out, keep};
use crate::replay::Replay;
use job_language::{Answer, Came, MAX_SLOTS, Moved, Reply, TenantConfig};
use std::alloc::{AllocError, Global};

/// What is kept of each slot of a tenant: how many entries it has, the count of entries at which it
/// was last found idle, unless it was touched since, and where its pass is.
#[derive(Drop)]
pub(crate) struct SlotRecords {
    pub(crate) counts: [usize; MAX_SLOTS as usize],
    pub(crate) idle_since: [Option<usize>; MAX_SLOTS as usize],
    pub(crate) home: Vec<Place>,
}

/// What an advance of a slot, or a commit there, came to.
pub struct Advanced {
    pub moved: Moved,
    /// The slot that a worker is called to.
    pub due: Option<u8>,
    /// The slot's pass, unless it went home.
    pub pass: Option<Pass>,
}

/// What an arrival at a slot came to.
pub struct Arrived {
    pub came: Came,
    /// The slot that a worker is called to.
    pub due: Option<u8>,
    /// The slot's pass, if the arrival found a row.
    pub pass: Option<Pass>,
}

impl SlotRecords {
    /// The slots of a tenant that has done nothing yet: all passes are home.
    pub(crate) fn new(
        alloc: Global,
        tenant: usize,
        config: &TenantConfig,
    ) -> Result<SlotRecords, AllocError>
        ensures counts { IfOk result (λ slots. slots.counts ≡ replicate MAX_SLOTS 0) }
        ensures idle_since { IfOk result (λ slots. slots.idle_since ≡ replicate MAX_SLOTS None) }
        ensures home { IfOk result (λ slots. slots.home.items
            ≡ first_places tenant config.now.steps config.now.slots) }
    {
        let config = config.tenant();
        Ok(SlotRecords {
            counts: [0; MAX_SLOTS as usize],
            idle_since: [None; MAX_SLOTS as usize],
            home: first_places(alloc, tenant, config.steps, config.slots)?,
        })
    }

    /// Takes note of an advance of a pass's slot, which came when the history had `entries` entries.
    pub(crate) fn moved(
        &mut self,
        replay: &Replay,
        pass: Pass,
        moved: Moved,
        entries: usize,
    ) -> Advanced
        requires slot { pass.slot < length self.old.home.items }
        requires slots { length self.old.home.items ≡ replay.now.config.slots }
        requires most { replay.now.config.slots ≤ MAX_SLOTS }
        requires room { is_entry (Answer.Moved moved) ≡ true → has_room pass ≡ true }
        requires few { slice_index_or self.old.counts pass.slot 0 + 1 < 2 ^ 64 }
        ensures moved { result.moved ≡ moved }
        ensures counts { self.new.counts
            ≡ counted self.old.counts pass.slot (is_entry (Answer.Moved moved)) }
        ensures idle_since { self.new.idle_since ≡ marked self.old.idle_since pass.slot moved entries }
        ensures pass { result.pass ≡ pass_back pass moved entries }
        ensures due { result.due ≡ due_in replay.now (is_entry (Answer.Moved moved))
            (home_after self.old.home.items pass moved entries) }
        ensures home { self.new.home.items
            ≡ woken result.due (home_after self.old.home.items pass moved entries) }
    {
        let mut pass = pass;
        let slot = pass.slot();
        let has_entered = Answer::Moved(moved).is_entry();
        pass.tell_move(moved, entries);
        count(&mut self.counts, slot, has_entered);
        mark(&mut self.idle_since, slot, moved, entries);
        let pass = keep(self.home.as_mut_slice(), pass, moved);
        let due = call(self.home.as_mut_slice(), replay, has_entered);
        Advanced { moved, due, pass }
    }

    /// Takes note of an arrival at a slot.
    pub(crate) fn arrived(&mut self, replay: &Replay, slot: u8, came: Came) -> Arrived
        requires slot { slot < length self.old.home.items }
        requires slots { length self.old.home.items ≡ replay.now.config.slots }
        requires most { replay.now.config.slots ≤ MAX_SLOTS }
        requires room { HasRoomFor came self.old.home.items slot }
        requires few { slice_index_or self.old.counts slot 0 + 1 < 2 ^ 64 }
        ensures came { result.came ≡ came }
        ensures counts { self.new.counts
            ≡ counted self.old.counts slot (is_entry (Answer.Came came)) }
        ensures idle_since { self.new.idle_since
            ≡ touched (entered slot (is_entry (Answer.Came came))) self.old.idle_since }
        ensures pass { result.pass ≡ arrived_pass came (pass_in (place self.old.home.items slot)) }
        ensures due { result.due ≡ due_in replay.now (is_entry (Answer.Came came))
            (home_arrived self.old.home.items slot came) }
        ensures home { self.new.home.items
            ≡ woken result.due (home_arrived self.old.home.items slot came) }
    {
        let has_entered = Answer::Came(came).is_entry();
        count(&mut self.counts, slot, has_entered);
        touch(
            &mut self.idle_since,
            if has_entered { Some(slot) } else { None },
        );
        let pass = admit(self.home.as_mut_slice(), slot, came);
        let due = call(self.home.as_mut_slice(), replay, has_entered);
        Arrived { came, due, pass }
    }

    /// Takes note of an ask with that reply. It gives the slot that is due, and the pass of the slot where
    /// a job was placed.
    pub(crate) fn asked(&mut self, replay: &Replay, reply: &Reply) -> (Option<u8>, Option<Pass>)
        requires placed { IfSome (placed_on reply.now) (λ slot. slot < length self.old.home.items) }
        requires slots { length self.old.home.items ≡ replay.now.config.slots }
        requires most { replay.now.config.slots ≤ MAX_SLOTS }
        ensures counts { self.new.counts ≡ self.old.counts }
        ensures idle_since { self.new.idle_since ≡ touched (placed_on reply.now) self.old.idle_since }
        ensures pass { result.1 ≡ placed_pass (placed_on reply.now) self.old.home.items }
        ensures due { result.0 ≡ due_in replay.now (is_recorded_reply reply.now)
            (taken (placed_on reply.now) self.old.home.items) }
        ensures home { self.new.home.items
            ≡ woken result.0 (taken (placed_on reply.now) self.old.home.items) }
    {
        let placed = placed_on(reply);
        touch(&mut self.idle_since, placed);
        let pass = hand_out(self.home.as_mut_slice(), placed);
        let due = call(self.home.as_mut_slice(), replay, reply.is_recorded());
        (due, pass)
    }
}

/// Counts an entry of a slot, if there is one.
fn count(counts: &mut [usize; MAX_SLOTS as usize], slot: u8, has_entered: bool)
    requires slot { slot < MAX_SLOTS }
    requires few { slice_index_or counts.old slot 0 + 1 < 2 ^ 64 }
    ensures { counts.new ≡ counted counts.old slot has_entered }
{
    if has_entered {
        counts[slot as usize] += 1;
    }
}

/// Notes at which count of entries a slot was last found idle, after an advance of it.
fn mark(
    idle_since: &mut [Option<usize>; MAX_SLOTS as usize],
    slot: u8,
    moved: Moved,
    entries: usize,
)
    requires { slot < MAX_SLOTS }
    ensures { idle_since.new ≡ marked idle_since.old slot moved entries }
{
    let at = slot as usize;
    idle_since[at] = still_after(idle_since[at], moved, entries);
}

/// Notes that a slot, if one is named, is not known to be idle.
fn touch(idle_since: &mut [Option<usize>; MAX_SLOTS as usize], slot: Option<u8>)
    requires { IfSome slot (λ slot. slot < MAX_SLOTS) }
    ensures { idle_since.new ≡ touched slot idle_since.old }
{
    if let Some(slot) = slot {
        idle_since[slot as usize] = None;
    }
}

/// The slot where a job was placed.
fn placed_on(reply: &Reply) -> Option<u8>
    ensures { result ≡ placed_on reply.now }
{
    match reply {
        Reply::Placed(_, slot) => Some(*slot),
        _ => None,
    }
}
