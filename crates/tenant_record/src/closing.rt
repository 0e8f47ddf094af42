// Whether a tenant's cell and the tokens that came back to it agree.
ghost use Rattle.std.specs.Prelude.{◌≡◌, ◌<◌, ◌↔◌, ◌||◌, IsTrue, length};
ghost use Rattle.std.specs.List.{list_all, list_any, range_with_len};
ghost use Rattle.tenant_record.specs.Closing.{IsSlotFault, IsFirstFault, has_seat, are_seats, are_some_seats_full, asks_told};
ghost use Rattle.tenant_record.specs.Places.{is_told_full};

use crate::cells::TenantCell;
use crate::seats::Seat;

/// What may be wrong with the pass of a slot.
#[derive(Clone, Copy, Debug, PartialEq, Eq)]
pub enum SlotFault {
    /// The pass is not home.
    PassLost,
    /// Its log has more or fewer entries than the history has of the slot.
    CountWrong,
    /// Its log has other entries, or it knows of another idle advance than the cell.
    LogWrong,
}

/// What is wrong with the pass of a slot, if anything is.
pub fn slot_fault(cell: &TenantCell, slot: u8) -> Option<SlotFault>
    requires { slot < cell.now.config.slots }
    ensures { IsSlotFault cell.now slot result }
{
    let Some(pass) = cell.pass(slot) else {
        return Some(SlotFault::PassLost);
    };
    if pass.count() != cell.count(slot) {
        return Some(SlotFault::CountWrong);
    }
    if pass.is_log_of(cell.history()) && is_same_still(pass.still(), cell.still(slot)) {
        None
    } else {
        Some(SlotFault::LogWrong)
    }
}

/// The first slot with whose pass something is wrong, and what that is.
pub fn first_slot_fault(cell: &TenantCell) -> Option<(u8, SlotFault)>
    ensures { IsFirstFault cell.now result }
{
    let slots = cell.config().slots;
    for slot in 0..slots {
        if let Some(fault) = slot_fault(cell, slot) {
            return Some((slot, fault));
        }
    }
    None
}

/// Whether these are `count` seats of a tenant, each of another number.
pub fn are_seats(tenant: usize, seats: &[Seat], count: usize) -> bool
    ensures { result ≡ are_seats tenant seats.now count }
{
    seats.len() == count && have_all(tenant, seats, count)
}

/// Whether the seats were told of as many asks as the history has.
pub fn are_all_told(cell: &TenantCell, seats: &[Seat]) -> bool
    ensures { IsTrue result ↔ (asks_told seats.now ≡ length cell.now.askers) }
{
    let mut left = cell.askers().len();
    for seat in seats {
        let Some(others) = left.checked_sub(seat.count()) else {
            return false;
        };
        left = others;
    }
    left == 0
}

/// Whether a token that came back reports a full history.
pub fn is_one_full(cell: &TenantCell, seats: &[Seat]) -> bool
    ensures { result ≡ (are_some_seats_full seats.now || list_any is_told_full cell.now.home) }
{
    are_some_seats_full(seats) || cell.has_full_pass()
}

fn are_some_seats_full(seats: &[Seat]) -> bool
    ensures { result ≡ are_some_seats_full seats.now }
{
    seats.iter().any(|seat| seat.is_full())
}

fn have_all(tenant: usize, seats: &[Seat], count: usize) -> bool
    ensures { result ≡ list_all (has_seat tenant seats.now) (range_with_len 0 count) }
{
    (0..count).all(|number| has_seat(tenant, seats, number))
}

fn has_seat(tenant: usize, seats: &[Seat], number: usize) -> bool
    ensures { result ≡ has_seat tenant seats.now number }
{
    seats
        .iter()
        .any(|seat| seat.tenant() == tenant && seat.number() == number)
}

fn is_same_still(still: Option<usize>, other: Option<usize>) -> bool
    ensures { IsTrue result ↔ (still ≡ other) }
{
    match (still, other) {
        (None, None) => true,
        (Some(entries), Some(others)) => entries == others,
        _ => false,
    }
}
