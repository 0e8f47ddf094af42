// Who waits at which slots.
ghost use Rattle.std.specs.Prelude.{ℕ, ◌≡◌, ◌<◌, false, true, count_by, replicate, slice_set};
ghost use Rattle.job_language.specs.declared.tenants.TheConstants.{MAX_SLOTS};
ghost use Rattle.tenant_lock.specs.Sleepers.{AreNamed, AreTold, CanMove, IsIdle, is_in, marks};

use job_language::MAX_SLOTS;
use tenant_record::TenantCell;

/// A set of a tenant's slots.
#[derive(Clone, Copy, Debug, PartialEq, Eq)]
pub(crate) struct SlotSet {
    /// Whether each slot is in the set.
    is_in: [bool; MAX_SLOTS as usize],
}

impl SlotSet {
    /// No slot.
    fn none() -> SlotSet
        ensures { result.is_in ≡ replicate MAX_SLOTS false }
    {
        SlotSet {
            is_in: [false; MAX_SLOTS as usize],
        }
    }

    /// The slots, if there are any.
    fn if_any(self) -> Option<SlotSet>
        ensures { marks result ≡ self.is_in }
    {
        if self.is_empty() { None } else { Some(self) }
    }

    /// Whether there is none.
    fn is_empty(self) -> bool
        ensures { result ≡ true → self.is_in ≡ replicate MAX_SLOTS false }
    {
        self.is_in == [false; MAX_SLOTS as usize]
    }

    /// How many there are.
    fn len(self) -> usize
        ensures { result ≡ count_by (λ b. b) self.is_in }
    {
        self.is_in.iter().filter(|is_in| **is_in).count()
    }

    /// Whether a slot is among them.
    pub(crate) fn has(self, slot: u8) -> bool
        ensures { result ≡ is_in self.is_in slot }
    {
        match self.is_in.get(usize::from(slot)) {
            Some(is_in) => *is_in,
            None => false,
        }
    }

    /// Adds a slot.
    fn add(&mut self, slot: u8)
        requires { slot < MAX_SLOTS }
        ensures { self.new.is_in ≡ slice_set self.old.is_in slot true }
    {
        self.is_in[usize::from(slot)] = true;
    }

    /// Takes a slot out.
    fn remove(&mut self, slot: u8)
        requires { slot < MAX_SLOTS }
        ensures { self.new.is_in ≡ slice_set self.old.is_in slot false }
    {
        self.is_in[usize::from(slot)] = false;
    }
}

/// The waits at a tenant's slots.
#[derive(Clone, Copy, Debug, PartialEq, Eq)]
pub struct WaitCounts {
    /// How many slots there are at which somebody may sleep. A thread that stopped waiting early still counts until
    /// the slot can move.
    pub asleep: usize,
    /// How often a thread was woken that slept at a slot.
    pub wakes: u64,
    /// How often the slot was still idle then, and the thread slept again.
    pub idle_wakes: u64,
}

/// Who waits at the slots of a tenant.
#[derive(Drop)]
pub(crate) struct Sleepers {
    /// The slots at which somebody may sleep who was not told to look again, if there are any: who makes an entry then
    /// sees at once that nobody sleeps.
    noted: Option<SlotSet>,
    wakes: u64,
    idle_wakes: u64,
}

impl Sleepers {
    /// Nobody waits.
    pub(crate) fn new() -> Sleepers
        ensures { marks result.noted ≡ replicate MAX_SLOTS false }
    {
        Sleepers {
            noted: None,
            wakes: 0,
            idle_wakes: 0,
        }
    }

    /// Notes that somebody is about to sleep at a slot.
    pub(crate) fn note(&mut self, slot: u8)
        requires { slot < MAX_SLOTS }
        ensures { marks self.new.noted ≡ slice_set (marks self.old.noted) slot true }
    {
        let mut noted = match self.noted {
            Some(noted) => noted,
            None => SlotSet::none(),
        };
        noted.add(slot);
        self.noted = Some(noted);
    }

    /// Forgets the slots at which nobody has to sleep any more, and names them, so that who sleeps there is woken: all
    /// if everybody has to stop, else those that can move.
    pub(crate) fn tell(&mut self, cell: &TenantCell, is_over: bool) -> Option<SlotSet>
        ensures { AreNamed cell.now is_over self.old.noted result self.new.noted }
    {
        let Some(noted) = self.noted else {
            return None;
        };
        let mut noted = noted;
        let named = take_movers(&mut noted, cell, is_over);
        self.noted = noted.if_any();
        named.if_any()
    }

    /// Forgets all slots, since all who sleep are woken.
    pub(crate) fn tell_all(&mut self)
        ensures { marks self.new.noted ≡ replicate MAX_SLOTS false }
    {
        self.noted = None;
    }

    /// Counts that somebody who slept was woken, and whether it sleeps again.
    pub(crate) fn count(&mut self, sleeps_again: bool)
        ensures { self.new.noted ≡ self.old.noted }
    {
        self.wakes = self.wakes.saturating_add(1);
        self.idle_wakes = self.idle_wakes.saturating_add(u64::from(sleeps_again));
    }

    /// How many sleep, and how often they were woken.
    pub(crate) fn waits(&self) -> WaitCounts
        ensures { result.asleep ≡ count_by (λ b. b) (marks self.now.noted) }
    {
        WaitCounts {
            asleep: self.noted.map_or(0, |noted| noted.len()),
            wakes: self.wakes,
            idle_wakes: self.idle_wakes,
        }
    }
}

/// Takes out the slots at which there is something to do, and gives them.
fn take_movers(noted: &mut SlotSet, cell: &TenantCell, is_over: bool) -> SlotSet
    ensures { AreTold cell.now is_over noted.old.is_in result.is_in noted.new.is_in }
{
    let mut named = SlotSet::none();
    for slot in 0..MAX_SLOTS {
        if noted.has(slot) && can_move(cell, is_over, slot) {
            noted.remove(slot);
            named.add(slot);
        }
    }
    named
}

/// Whether there is something to do at a slot, if only to stop.
fn can_move(cell: &TenantCell, is_over: bool, slot: u8) -> bool
    ensures moves { result ≡ true → CanMove cell.now is_over slot }
    ensures waits { result ≡ false → IsIdle cell.now is_over slot }
{
    is_over || !cell.is_idle(slot)
}
