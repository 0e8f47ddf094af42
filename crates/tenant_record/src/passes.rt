// Passes: the right to move a slot, with what its holders were told.
ghost use Rattle.std.specs.Prelude.{◌≡◌, ◌↔◌, length, true, IfOk, IsTrue};
ghost use Rattle.job_language.specs.Recorded.{is_entry};
ghost use Rattle.job_language.specs.declared.answers.Answer.{Answer};
ghost use Rattle.tenant_record.specs.Logs.{entries_on};
ghost use Rattle.tenant_record.specs.PassData.{has_room, advanced, arrived, placed, first_pass, still_after, goes_home};

use crate::logs::is_log;
use crate::notes::{Told, note_move};
use job_language::{Entry, Moved};
use std::alloc::{AllocError, Global};
use std::marker::Model;

/// The right to move a slot of a tenant. It can't be copied or let go: whoever has it gives it home, or hands it on. It
/// keeps what its holders were told: the entries of the slot, in order, whether a move was refused as at a full
/// history, and the count of entries at which the slot was last found idle, unless it was touched since.
pub struct Pass {
    // On the heap, so that a pass that is handed on is one pointer.
    kept: Box<Kept>,
}

/// What a pass keeps.
#[derive(Drop)]
struct Kept {
    tenant: usize,
    slot: u8,
    limit: usize,
    log: Vec<Told>,
    full: bool,
    still: Option<usize>,
}

impl Model for Pass {
    ghost use Rattle.tenant_record.specs.PassData.{PassData};
    ghost use Rattle.tenant_record.specs.PassFields.{pass_data, IsPass};

    ghost Value = { PassData };

    ghost view = { pass_data };

    ghost invariant = { IsPass };
}

impl Pass {
    /// The pass of a slot that nobody had yet, with room for `limit` entries.
    pub(crate) fn new(
        alloc: Global,
        tenant: usize,
        limit: usize,
        slot: u8,
    ) -> Result<Pass, AllocError>
        ensures { IfOk result (λ pass. pass ≡ first_pass tenant limit slot) }
    {
        let kept = Kept {
            tenant,
            slot,
            limit,
            log: Vec::with_capacity(alloc, limit)?,
            full: false,
            still: None,
        };
        Ok(Pass {
            kept: Box::new(alloc, kept)?,
        })
    }

    /// Ends a pass: its cell ends, or it has none.
    pub(crate) fn end(self) {
        let Pass { kept } = self;
        drop(kept);
    }

    /// The number of its tenant, from 0.
    pub fn tenant(&self) -> usize
        ensures { result ≡ self.now.tenant }
    {
        self.kept.tenant
    }

    /// The number of its slot, from 0.
    pub fn slot(&self) -> u8
        ensures { result ≡ self.now.slot }
    {
        self.kept.slot
    }

    /// How many entries of its slot its holders were told of.
    pub fn count(&self) -> usize
        ensures { result ≡ length self.now.log }
    {
        self.kept.log.len()
    }

    /// Whether one of its moves was refused as at a full history.
    pub fn is_full(&self) -> bool
        ensures { result ≡ self.now.full }
    {
        self.kept.full
    }

    /// How many entries the history had when its slot was found idle, if the slot was not touched since.
    pub fn still(&self) -> Option<usize>
        ensures { result ≡ self.now.still }
    {
        self.kept.still
    }

    /// Whether its log has room for an entry.
    pub fn has_room(&self) -> bool
        ensures { result ≡ has_room self.now }
    {
        self.kept.log.len() < self.kept.limit
    }

    /// Whether its log is exactly what a history has of its slot, in order.
    pub fn is_log_of(&self, history: &[Entry]) -> bool
        ensures { IsTrue result ↔ (self.now.log ≡ entries_on self.now.slot history.now) }
    {
        let kept: &Kept = &self.kept;
        is_log(kept.slot, history, kept.log.as_slice())
    }

    /// Tells its holder how an advance was answered, which came when the history had `entries` entries.
    pub(crate) fn tell_move(&mut self, moved: Moved, entries: usize)
        requires { is_entry (Answer.Moved moved) ≡ true → has_room self.old ≡ true }
        ensures { self.new ≡ advanced self.old moved entries }
    {
        note_move(&mut self.kept.log, moved);
        self.kept.full = self.kept.full || matches!(moved, Moved::Full);
        self.kept.still = still_after(self.kept.still, moved, entries);
    }

    /// Tells its holder that an arrival found a row.
    pub(crate) fn tell_arrival(&mut self, row: u64)
        requires { has_room self.old ≡ true }
        ensures { self.new ≡ arrived self.old row }
    {
        self.kept.log.push_reserved(Told::Arrived(row));
        self.kept.still = None;
    }

    /// Tells its holder that a job was placed on its slot.
    pub(crate) fn tell_placed(&mut self)
        ensures { self.new ≡ placed self.old }
    {
        self.kept.still = None;
    }
}

/// The count of entries at which a slot was last found idle, after an advance that came at `entries`
/// entries.
pub(crate) fn still_after(still: Option<usize>, moved: Moved, entries: usize) -> Option<usize>
    ensures { result ≡ still_after still moved entries }
{
    match moved {
        Moved::Idle => Some(entries),
        Moved::Ran | Moved::Nested(_) | Moved::Freed => None,
        Moved::Left | Moved::Stale | Moved::Full => still,
    }
}

/// Whether the pass goes home after an advance with that answer.
pub(crate) fn goes_home(moved: Moved) -> bool
    ensures { result ≡ goes_home moved }
{
    matches!(moved, Moved::Freed | Moved::Left)
}
