// What a session is told of what a term answered.
ghost use Rattle.std.specs.Prelude.{◌≡◌, ◌≢◌, ◌⊎◌};
ghost use Rattle.job_language.specs.declared.errors.Error.TheVariants.{HistoryFull, NoMemory};
ghost use Rattle.host_sessions.specs.Answers.{brings_job, job_named, told_outside};

use host_terms::Owed;
use job_language::{Error, Reply, Request};
use nested_wait::Attended;
use server_house::Told;
use term_life::Span;

/// What a request was answered that the term that serves was asked.
#[derive(Clone, Copy, Debug, PartialEq, Eq)]
pub(crate) struct Served {
    pub(crate) reply: Reply,
    /// The number of the term that was asked, or 0 if none was.
    pub(crate) term: u64,
}

impl Served {
    /// The term of that number has answered.
    pub(crate) fn by(term: u64, reply: Reply) -> Served
        ensures reply { (result.reply ≡ reply) ⊎ (result.reply ≡ Reply.Refused NoMemory) }
        ensures at_once { result.reply ≢ Reply.Pending }
    {
        Served {
            reply: at_once(reply),
            term,
        }
    }

    /// No term could be asked.
    pub(crate) fn by_none() -> Served
        ensures reply { result.reply ≡ Reply.Refused HistoryFull }
        ensures at_once { result.reply ≢ Reply.Pending }
    {
        Served {
            reply: Reply::Refused(Error::HistoryFull),
            term: 0,
        }
    }
}

/// A reply that nobody has to wait for.
fn at_once(reply: Reply) -> Reply
    ensures reply { (result ≡ reply) ⊎ (result ≡ Reply.Refused NoMemory) }
    ensures at_once { result ≢ Reply.Pending }
{
    match reply {
        // No request but a collect is pending.
        Reply::Pending => Reply::Refused(Error::NoMemory),
        other => other,
    }
}

/// What a session is told of a term's answer, of which its outbox knows. A slot whose history was full before the job
/// on it had its outcome says so of the job.
pub(crate) fn told_outside(told: Told, span: Span, owed: Owed) -> Reply
    ensures { result ≡ told_outside span told }
{
    owed.told();
    if told.attended == Some(Attended::Full) {
        return Reply::Refused(Error::HistoryFull);
    }
    span.reply_outside(told.reply)
}

/// Whether a request brings a job.
pub(crate) fn brings_job(request: &Request) -> bool
    ensures { result ≡ brings_job request.now }
{
    matches!(request, Request::Submit(_) | Request::Execute(_))
}

/// The job that a request names.
pub(crate) fn job_named(request: &Request) -> Option<u64>
    ensures { result ≡ job_named request.now }
{
    match request {
        Request::Poll(job)
        | Request::Collect(job)
        | Request::Take(job)
        | Request::Cancel(job)
        | Request::Release(job) => Some(*job),
        _ => None,
    }
}
