// The reply to a line.
ghost use Rattle.std.specs.Prelude.{◌≡◌, ◌≢◌, ℕ, IfSome, Some, option_map};
ghost use Rattle.nested_wait.specs.Runs.{Attends};
ghost use Rattle.nested_wait.specs.Turns.{Turn};
ghost use Rattle.request_reader.specs.Answers.{asked_data};
ghost use Rattle.session_core.specs.Replies.{hello_in, Greets, RepliesTo, Replies};

use crate::doors::Doors;
use crate::jobs::{collect, execute};
use job_language::{Error, Reply, Request, TenantName};
use request_reader::{Asked, read_request, ready};
use std::alloc::Global;

/// The reply to a line that is not blank, or `None` if waiting for it was stopped. `is_bound` says
/// whether the session has said hello.
pub(crate) fn reply_to<D: Doors>(
    alloc: Global,
    doors: &mut D,
    is_bound: &mut bool,
    line: &[u8],
) -> Option<Reply>
    ensures replies { Replies D.finds D.binds D.asks D.waits
        (Attends (Turn D.views D.commits D.advances) D.heights D.pauses 1)
        line.now (is_bound.old, doors.old) result (is_bound.new, doors.new) }
    ensures told { IfSome result (λ reply. reply ≢ Reply.Pending) }
{
    let asked = match read_request(alloc, line) {
        Ok(asked) => asked,
        Err(error) => return Some(Reply::Refused(error)),
    };
    if let Some(name) = hello_in(&asked) {
        return Some(greet(doors, is_bound, name));
    }
    if !*is_bound {
        return Some(Reply::Refused(Error::NoTenant));
    }
    match ready(alloc, asked) {
        Ok(request) => reply_to_request(doors, request),
        Err(error) => Some(Reply::Refused(error)),
    }
}

/// The name that a hello brings, if it can name a tenant.
fn hello_in(asked: &Asked) -> Option<Option<TenantName>>
    ensures { result ≡ hello_in (asked_data asked.now) }
{
    match asked {
        Asked::Plain(Request::Hello(name)) => Some(*name),
        _ => None,
    }
}

/// Binds the session to the tenant of a name. A session is bound once.
fn greet<D: Doors>(doors: &mut D, is_bound: &mut bool, name: Option<TenantName>) -> Reply
    ensures greets { Greets D.finds D.binds name (is_bound.old, doors.old) result
        (is_bound.new, doors.new) }
    ensures told { result ≢ Reply.Pending }
{
    if *is_bound {
        return Reply::Refused(Error::BadRequest);
    }
    let Some(name) = name else {
        return Reply::Refused(Error::UnknownTenant);
    };
    match doors.find(name) {
        Some(tenant) => match doors.bind(tenant, name) {
            Ok(()) => {
                *is_bound = true;
                Reply::Bound(name)
            }
            Err(error) => Reply::Refused(error),
        },
        None => Reply::Refused(Error::UnknownTenant),
    }
}

/// Asks the tenant that is bound, and waits for the outcome if the request does.
fn reply_to_request<D: Doors>(doors: &mut D, request: Request) -> Option<Reply>
    ensures replies { RepliesTo D.asks D.waits
        (Attends (Turn D.views D.commits D.advances) D.heights D.pauses 1) request result doors.old
        doors.new }
    ensures told { IfSome result (λ reply. reply ≢ Reply.Pending) }
{
    match request {
        Request::Execute(job) => execute(doors, job),
        Request::Collect(job) => collect(doors, false, job),
        Request::Take(job) => collect(doors, true, job),
        other => Some(doors.ask(other).reply),
    }
}
