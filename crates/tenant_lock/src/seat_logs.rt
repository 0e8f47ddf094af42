// Whether the log of a seat is what a history has of the seat.
ghost use Rattle.std.specs.Prelude.{◌≡◌, ◌↔◌, IsTrue};
ghost use Rattle.tenant_record.specs.Cell.{is_ask};
ghost use Rattle.tenant_lock.specs.SeatLogs.{asks_on, HasAsks};

use job_language::{Entry, Step};
use same_values::{is_same_answer, is_same_request};
use tenant_record::{Seat, TenantCell};

/// Whether the log of a seat is exactly the asks that a cell has of the seat, in order.
pub(crate) fn is_seat_log(cell: &TenantCell, seat: &Seat) -> bool
    ensures { IsTrue result ↔ HasAsks cell.now seat.now }
{
    is_log(seat.number(), cell.askers(), cell.history(), seat.log())
}

/// Whether a log is exactly the asks of a history that belong to a seat.
fn is_log(number: usize, askers: &[usize], history: &[Entry], log: &[Entry]) -> bool
    ensures { IsTrue result ↔ (log.now ≡ asks_on number askers.now history.now) }
{
    let (mut left, mut named, mut entries) = (log, askers, history);
    while let ([asker, others @ ..], [entry, rest @ ..]) = (named, entries) {
        entries = rest;
        if !is_ask(&entry.step) {
            continue;
        }
        named = others;
        if *asker != number {
            continue;
        }
        let [noted, told @ ..] = left else {
            return false;
        };
        if !is_same_entry(noted, entry) {
            return false;
        }
        left = told;
    }
    left.is_empty()
}

fn is_ask(step: &Step) -> bool
    ensures { result ≡ is_ask step.now }
{
    matches!(step, Step::Ask(_))
}

/// Whether two entries are the same.
fn is_same_entry(entry: &Entry, other: &Entry) -> bool
    ensures { IsTrue result ↔ (entry.now ≡ other.now) }
{
    is_same_step(&entry.step, &other.step) && is_same_answer(&entry.answer, &other.answer)
}

fn is_same_step(step: &Step, other: &Step) -> bool
    ensures { IsTrue result ↔ (step.now ≡ other.now) }
{
    match (step, other) {
        (Step::Ask(request), Step::Ask(its)) => is_same_request(request, its),
        (Step::Arrive(slot), Step::Arrive(its)) => slot == its,
        (Step::Advance(slot), Step::Advance(its)) => slot == its,
        _ => false,
    }
}
