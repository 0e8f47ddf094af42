// Closing a door: its cell against its tokens.
ghost use Rattle.std.specs.Prelude.{ℕ, ◌≡◌};
ghost use Rattle.tenant_lock.specs.Closing.{IsSeatFault, IsAskFault, IsFault, fault_at, is_full_wrong};
ghost use Rattle.tenant_lock.specs.Doors.{door_of};

use crate::faults::CloseFault;
use crate::seat_logs::is_seat_log;
use job_language::TenantConfig;
use same_values::is_same_tenant;
use tenant_record::{
    Seat, SlotFault, TenantCell, are_all_told, are_seats, first_slot_fault, is_one_full,
};

/// What is wrong with a cell, if these seats came back to a door of that tenant with that limit of
/// seats, if anything is.
pub fn fault_of(
    cell: &TenantCell,
    seats: &[Seat],
    tenant: usize,
    config: &TenantConfig,
    count: usize,
) -> Option<CloseFault>
    ensures { (life : ℕ) → IsFault cell.now seats.now (door_of life tenant config.now count) result }
{
    if !are_seats(tenant, seats, count) {
        return Some(CloseFault::SeatMissing);
    }
    if !is_same_tenant(cell.config(), config.tenant()) {
        return Some(CloseFault::ConfigWrong);
    }
    if let Some(seat) = ask_fault(cell, seats, count) {
        return Some(CloseFault::AskWrong(seat));
    }
    if let Some((slot, fault)) = first_slot_fault(cell) {
        return Some(fault_at(slot, fault));
    }
    if is_full_wrong(cell, seats) {
        Some(CloseFault::FullWrong)
    } else {
        None
    }
}

/// The number of the first seat whose log is wrong, or the number of seats if only their counts are.
fn ask_fault(cell: &TenantCell, seats: &[Seat], count: usize) -> Option<usize>
    ensures { IsAskFault cell.now seats.now count result }
{
    if let Some(number) = first_seat_fault(cell, seats) {
        return Some(number);
    }
    if are_all_told(cell, seats) {
        None
    } else {
        Some(count)
    }
}

/// The number of the first seat whose log is not what the history has of it.
fn first_seat_fault(cell: &TenantCell, seats: &[Seat]) -> Option<usize>
    ensures { IsSeatFault cell.now seats.now result }
{
    let mut left = seats;
    while let [seat, rest @ ..] = left {
        if !is_seat_log(cell, seat) {
            return Some(seat.number());
        }
        left = rest;
    }
    None
}

/// What is wrong with the pass of a slot, as the door says it.
fn fault_at(slot: u8, fault: SlotFault) -> CloseFault
    ensures { result ≡ fault_at slot fault }
{
    match fault {
        SlotFault::PassLost => CloseFault::PassLost(slot),
        SlotFault::CountWrong => CloseFault::CountWrong(slot),
        SlotFault::LogWrong => CloseFault::LogWrong(slot),
    }
}

/// Whether a token reports a full history, but the history is not at its limit.
fn is_full_wrong(cell: &TenantCell, seats: &[Seat]) -> bool
    ensures { result ≡ is_full_wrong cell.now seats.now }
{
    is_one_full(cell, seats) && cell.history().len() < cell.config().steps
}
