// What a session has its tenant forget of closed terms.
ghost use Rattle.std.specs.Prelude.{◌≡◌, ◌≢◌, ◌⊎◌, true};
ghost use Rattle.host_sessions.specs.Answers.{IsServed, IsUnnoted};
ghost use Rattle.host_terms.specs.Looks.{IsKeptAnswer};
ghost use Rattle.host_terms.specs.Names.{name_of};
ghost use Rattle.term_life.specs.Outcomes.{is_release};

use super::HostDoors;
use crate::numbering::Served;
use host_terms::Tenancy;
use job_language::{Error, Reply, Request};
use std::io;
use std::io::ErrorKind;
use std::net::Shutdown;
use std::sync::Wait;
use std::time::Clock;
use tenant_book::Naming;

impl<'h, J: Naming, R: Wait + Clock> HostDoors<'h, J, R> {
    /// Releases a job, by its number outside, whose term is closed, once that is noted.
    pub(super) fn let_go(&self, tenancy: &Tenancy<J>, job: u64, request: &Request) -> Reply
        requires { is_release request.now ≡ true }
        ensures { IsKeptAnswer request.now job result ⊎ IsUnnoted result }
    {
        match tenancy.note_release(self.rt, self.alloc, job) {
            Ok(()) => tenancy.answer_closed(self.rt, job, request),
            Err(fault) => self.unnoted(&fault),
        }
    }

    /// What the session is told if it could not be noted what is forgotten. Unless that was for lack of memory, the
    /// client is told nothing: its connection ends.
    fn unnoted(&self, fault: &io::Error) -> Reply
        ensures refused { IsUnnoted result }
        ensures at_once { result ≢ Reply.Pending }
    {
        if fault.kind() == ErrorKind::OutOfMemory {
            return Reply::Refused(Error::NoMemory);
        }
        self.desk.shut(self.rt, Shutdown::Both);
        Reply::Refused(Error::HistoryFull)
    }

    /// Retires all jobs of the tenant, if no row of any term is open.
    pub(super) fn retire(&self, tenancy: &Tenancy<J>) -> Reply
        ensures answer { IsServed (name_of tenancy.now) Request.Retire result }
        ensures at_once { result ≢ Reply.Pending }
    {
        if tenancy.is_busy_before(self.rt) {
            return Reply::Refused(Error::Busy);
        }
        let Served { reply, term } = self.ask_serving(tenancy, Request::Retire);
        match reply {
            Reply::Epoch(_) => self.retire_before(tenancy, term, reply),
            other => other,
        }
    }

    /// The jobs of all terms of the tenant before the one of that number, which has retired its own, are retired too,
    /// once that is noted.
    fn retire_before(&self, tenancy: &Tenancy<J>, term: u64, reply: Reply) -> Reply
        requires { reply ≢ Reply.Pending }
        ensures answer { (result ≡ reply) ⊎ IsUnnoted result }
        ensures at_once { result ≢ Reply.Pending }
    {
        if tenancy.has_jobs_before(self.rt, term) {
            if let Err(fault) = tenancy.note_retired(self.rt, self.alloc, term) {
                return self.unnoted(&fault);
            }
            tenancy.retire_before(self.rt, term);
        }
        reply
    }
}
