// The kinds of answers, by the words that are printed.
use job_language::{Answer, Came, Error, JobFault, Moved, Reply, Status};

/// The kind of an answer.
pub(crate) fn kind_of(answer: &Answer) -> &'static str {
    match answer {
        Answer::Replied(reply) => kind_of_reply(reply),
        Answer::Came(Came::At(_)) => "arrive: arrived",
        Answer::Came(Came::Nothing) => "arrive: none",
        Answer::Came(Came::Full) => "arrive: full",
        Answer::Moved(moved) => kind_of_move(moved),
    }
}

fn kind_of_move(moved: &Moved) -> &'static str {
    match moved {
        Moved::Ran => "advance: ran",
        Moved::Nested(_) => "advance: nested",
        Moved::Freed => "advance: freed",
        Moved::Left => "advance: left",
        Moved::Idle => "advance: idle",
        Moved::Stale => "advance: stale",
        Moved::Full => "advance: full",
    }
}

fn kind_of_reply(reply: &Reply) -> &'static str {
    match reply {
        Reply::Bound(_) => "ask: bound",
        Reply::Made(_) => "ask: made",
        Reply::Placed(_, _) => "ask: placed",
        Reply::Job(_, status) => kind_of_status(status),
        Reply::Cancelled(_, true) => "ask: cancelled first",
        Reply::Cancelled(_, false) => "ask: cancelled again",
        Reply::Cells(_, 0, _) => "ask: no cells",
        Reply::Cells(_, _, _) => "ask: cells",
        Reply::Arena(_, _, _) => "ask: arena",
        Reply::Epoch(_) => "ask: epoch",
        Reply::Released(_) => "ask: released",
        Reply::Refused(error) => kind_of_error(error),
        Reply::Pending => "ask: pending",
    }
}

fn kind_of_status(status: &Status) -> &'static str {
    match status {
        Status::Running => "status: running",
        Status::Cancelled => "status: cancelled",
        Status::Complete(_) => "status: complete",
        Status::Fault(JobFault::Division) => "status: fault 1",
        Status::Fault(JobFault::Fuel) => "status: fault 2",
        Status::Fault(JobFault::TooDeep) => "status: fault 3",
        Status::Fault(JobFault::TaskLimit) => "status: fault 4",
        Status::Fault(JobFault::MissingWait) => "status: fault 5",
    }
}

/// The errors that an arena may give, by their numbers.
fn kind_of_error(error: &Error) -> &'static str {
    match error {
        Error::BadRequest => "error 3",
        Error::UnknownJob => "error 6",
        Error::JobLimit => "error 7",
        Error::HistoryFull => "error 8",
        Error::TaskLimit => "error 10",
        Error::Busy => "error 12",
        _ => "error of no arena",
    }
}
