// Whether two answers are the same.
ghost use Rattle.std.specs.Prelude.{◌≡◌, ◌↔◌, IsTrue};

use job_language::{Answer, Came, Moved, Reply, Status};

/// Whether two answers are the same.
pub fn is_same_answer(given: &Answer, wanted: &Answer) -> bool
    ensures { IsTrue result ↔ (given.now ≡ wanted.now) }
{
    match (given, wanted) {
        (Answer::Replied(given), Answer::Replied(wanted)) => is_same_reply(given, wanted),
        (Answer::Came(given), Answer::Came(wanted)) => is_same_came(given, wanted),
        (Answer::Moved(given), Answer::Moved(wanted)) => is_same_moved(given, wanted),
        _ => false,
    }
}

/// Whether two replies are the same.
pub fn is_same_reply(given: &Reply, wanted: &Reply) -> bool
    ensures { IsTrue result ↔ (given.now ≡ wanted.now) }
{
    match (given, wanted) {
        (Reply::Bound(name), Reply::Bound(other)) => name.as_bytes() == other.as_bytes(),
        (Reply::Made(job), Reply::Made(other)) => job == other,
        (Reply::Placed(job, slot), Reply::Placed(other, at)) => job == other && slot == at,
        (Reply::Job(job, status), Reply::Job(other, is)) => {
            job == other && is_same_status(status, is)
        }
        (Reply::Cancelled(job, first), Reply::Cancelled(other, is)) => job == other && first == is,
        (Reply::Cells(key, count, sum), Reply::Cells(other, many, total)) => {
            key.index() == other.index() && count == many && sum == total
        }
        (Reply::Arena(level, reserved, slots), Reply::Arena(other, kept, all)) => {
            level == other && reserved == kept && slots == all
        }
        (Reply::Epoch(epoch), Reply::Epoch(other)) => epoch == other,
        (Reply::Released(job), Reply::Released(other)) => job == other,
        (Reply::Refused(error), Reply::Refused(other)) => error == other,
        (Reply::Pending, Reply::Pending) => true,
        _ => false,
    }
}

fn is_same_status(given: &Status, wanted: &Status) -> bool
    ensures { IsTrue result ↔ (given.now ≡ wanted.now) }
{
    match (*given, *wanted) {
        (Status::Running, Status::Running) => true,
        (Status::Cancelled, Status::Cancelled) => true,
        (Status::Complete(value), Status::Complete(other)) => value == other,
        (Status::Fault(fault), Status::Fault(other)) => fault.code() == other.code(),
        _ => false,
    }
}

fn is_same_came(given: &Came, wanted: &Came) -> bool
    ensures { IsTrue result ↔ (given.now ≡ wanted.now) }
{
    given == wanted
}

fn is_same_moved(given: &Moved, wanted: &Moved) -> bool
    ensures { IsTrue result ↔ (given.now ≡ wanted.now) }
{
    given == wanted
}
