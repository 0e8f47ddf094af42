// A session's ways to the tenants of a host.
ghost use Rattle.std.specs.Prelude.{◌≡◌, ◌≢◌, IfSome, None};
ghost use Rattle.job_language.specs.Collecting.{IsCollect};
ghost use Rattle.host_sessions.specs.Answers.{IsAnswer, IsAnswered, IsServed, job_named, told_of};
ghost use Rattle.host_terms.specs.Bookings.{IsOf};
ghost use Rattle.host_sessions.specs.Hellos.{IsBoundBy, bound_name};
ghost use Rattle.host_terms.specs.Names.{name_of};

mod forgetting;
mod owners;

use crate::numbering::{Served, brings_job, job_named, told_outside};
use host_terms::{Admission, Booking, Desk, Found, Host, Tenancy};
use job_language::{Error, Moved, Reply, Request, TenantName};
use job_step::{Segment, View};
use nested_wait::Door;
use server_house::Told;
use session_core::{Answered, Doors};
use std::alloc::Global;
use std::sync::Wait;
use std::time::Clock;
use tenant_book::Naming;

/// How many terms are tried for one request, each of which has a full history.
const TRIES: u32 = 4;

/// One session's ways to the tenants of a host. It stays when terms follow one another: each request goes to the term
/// that serves, or to that of the job that it names. A slot that a job is placed on is attended within the request.
#[derive(Drop)]
pub(crate) struct HostDoors<'h, J: Naming, R: Wait + Clock> {
    rt: &'h R,
    alloc: Global,
    host: &'h Host<J>,
    desk: &'h Desk<J>,
    /// Its place at the tenant that it is bound to.
    admission: Option<Admission<J>>,
}

impl<'h, J: Naming, R: Wait + Clock> HostDoors<'h, J, R> {
    /// A session that is bound to no tenant yet.
    pub(crate) fn new(rt: &'h R, alloc: Global, host: &'h Host<J>, desk: &'h Desk<J>) -> Self {
        HostDoors {
            rt,
            alloc,
            host,
            desk,
            admission: None,
        }
    }

    /// The session has ended. Another one may begin.
    pub(crate) fn leave(&mut self) {
        self.desk.unbind();
        if let Some(booking) = self.desk.take_booking(self.rt) {
            self.desk.give_back(self.rt, self.alloc, booking);
        }
        self.admission = None;
    }

    /// Asks the tenant that the session is bound to, if it is.
    fn ask_admitted(&self, request: Request) -> Reply
        ensures answer { IsAnswered (bound_name self.now.admission) request result }
        ensures pending { result ≡ Reply.Pending → IsCollect request }
    {
        match &self.admission {
            None => Reply::Refused(Error::NoTenant),
            Some(admission) => self.ask_bound(admission.tenancy(), request),
        }
    }

    /// Asks that tenant: about a job, the term that the job belongs to.
    fn ask_bound(&self, tenancy: &Tenancy<J>, request: Request) -> Reply
        ensures answer { IsAnswer (name_of tenancy.now) request result }
        ensures pending { result ≡ Reply.Pending → IsCollect request }
    {
        let Some(job) = job_named(&request) else {
            return self.ask_newest(tenancy, request);
        };
        self.ask_owner(tenancy, job, request)
    }

    /// Asks the term that serves, or all of the tenant's terms to retire.
    fn ask_newest(&self, tenancy: &Tenancy<J>, request: Request) -> Reply
        requires { job_named request ≡ None }
        ensures answer { IsServed (name_of tenancy.now) request result }
        ensures at_once { result ≢ Reply.Pending }
    {
        match request {
            Request::Retire => self.retire(tenancy),
            other => self.ask_serving(tenancy, other).reply,
        }
    }

    /// Asks the term that serves, or the next one if its history is full.
    fn ask_serving(&self, tenancy: &Tenancy<J>, request: Request) -> Served
        requires { job_named request ≡ None }
        ensures answer { IsServed (name_of tenancy.now) request result.reply }
        ensures at_once { result.reply ≢ Reply.Pending }
    {
        let stop = self.desk.is_gone();
        let mut request = request;
        for _try in 0..TRIES {
            let Some(booking) = self.book_for(tenancy, &request) else {
                if self.waits_for_next(tenancy, None) {
                    continue;
                }
                return Served::by_none();
            };
            let span = booking.term().span();
            if booking.term().is_broken() {
                self.desk.keep_booking(self.rt, booking);
                if self.waits_for_next(tenancy, Some(span.number)) {
                    continue;
                }
                return Served::by_none();
            }
            let spare = request.try_clone().ok();
            let (booking, told) = booking.ask(self.rt, self.host.board(), stop, request);
            let is_full = told.reply == Reply::Refused(Error::HistoryFull);
            let reply = self.outside(&booking, told);
            self.desk.keep_booking(self.rt, booking);
            let Some(again) = spare else {
                return Served::by(span.number, reply);
            };
            if !is_full || !self.waits_for_next(tenancy, Some(span.number)) {
                return Served::by(span.number, reply);
            }
            request = again;
        }
        Served::by_none()
    }

    /// Waits until another term serves than the one of that number, as `Tenancy::wait_for_next` says. The replies to
    /// what was asked before go out.
    fn waits_for_next(&self, tenancy: &Tenancy<J>, number: Option<u64>) -> bool {
        self.let_out();
        tenancy.wait_for_next(self.rt, number, self.desk.is_gone())
    }

    /// Lets the replies go out to what was asked before, since the next one may take a while.
    fn let_out(&self) {
        // If they can't, the session finds it out when it goes on.
        let _sent = self.desk.let_out(self.rt, self.alloc);
    }

    /// What the session is told outside of the term where it was told that. It goes out once what the term was asked is
    /// kept.
    fn outside(&self, booking: &Booking<J>, told: Told) -> Reply
        ensures { result ≡ told_of booking.now.term.span told }
    {
        if told.reply == Reply::Pending {
            return Reply::Pending;
        }
        let owed = self.desk.outbox().owe();
        told_outside(told, booking.term().span(), owed)
    }

    /// A place in the term that serves. One whose history is used so far that its jobs may need the rest begins no job,
    /// if another one can be opened.
    fn book_for(&self, tenancy: &Tenancy<J>, request: &Request) -> Option<Booking<J>>
        ensures { IfSome result (λ b. IsOf (name_of tenancy.now) b.term) }
    {
        let booking = self.book_serving(tenancy)?;
        if !brings_job(request) || !self.host.is_used(self.rt, booking.term()) {
            return Some(booking);
        }
        let number = booking.term().span().number;
        self.desk.keep_booking(self.rt, booking);
        self.let_out();
        tenancy.wait_if_one_comes(self.rt, number, self.desk.is_gone());
        self.book_serving(tenancy)
    }

    /// A place in the term that serves.
    fn book_serving(&self, tenancy: &Tenancy<J>) -> Option<Booking<J>>
        ensures { IfSome result (λ b. IsOf (name_of tenancy.now) b.term) }
    {
        if let Some(booking) = self.desk.take_booking(self.rt) {
            if booking.term().is_of(tenancy.name()) && !booking.term().is_left() {
                return Some(booking);
            }
            self.desk.give_back(self.rt, self.alloc, booking);
        }
        tenancy.book_serving(self.rt)
    }
}

impl<'h, J: Naming, R: Wait + Clock> Door for HostDoors<'h, J, R> {
    ghost views = { λ _ _. Unit {0} };

    ghost commits = { λ _ _ _ _. Unit {0} };

    ghost advances = { λ _ _ _. Unit {0} };

    ghost heights = { λ _ _. Unit {0} };

    ghost pauses = { λ _ _ _. Unit {0} };

    fn view(&self) -> View {
        View::Bare
    }

    fn commit(&mut self, _segment: Segment) -> Moved {
        Moved::Idle
    }

    fn advance(&mut self) -> Moved {
        Moved::Idle
    }

    fn height(&self) -> usize {
        0
    }

    fn pause(&mut self) -> bool {
        true
    }
}

impl<'h, J: Naming, R: Wait + Clock> Doors for HostDoors<'h, J, R> {
    ghost finds = { λ _ _ _. Unit {0} };

    ghost binds = { λ _ _ name answer e. IsBoundBy name answer e.admission };

    ghost asks = { λ d request answered e.
        IsAnswered (bound_name d.admission) request answered.reply × (e.admission ≡ d.admission) };

    ghost waits = { λ d _ _ e. e.admission ≡ d.admission };

    fn find(&self, name: TenantName) -> Option<usize> {
        self.host.find(self.rt, name)
    }

    fn bind(&mut self, tenant: usize, name: TenantName) -> Result<(), Error> {
        self.admission = Some(self.host.admit(self.rt, tenant, name)?);
        self.desk.bind();
        Ok(())
    }

    fn ask(&mut self, request: Request) -> Answered {
        if let Request::Execute(_) = &request {
            self.let_out();
        }
        self.desk.begin_asking();
        let reply = self.ask_admitted(request);
        self.desk.end_asking();
        // A slot that a job is placed on was attended.
        Answered {
            reply,
            placed: false,
        }
    }

    fn pause_for(&mut self, job: u64) -> bool {
        let Some(admission) = &self.admission else {
            return true;
        };
        self.let_out();
        match self.find_owner(admission.tenancy(), job, &Request::Collect(job)) {
            Found::Live(booking) => {
                self.desk.begin_asking();
                let stops = booking.wait_for(self.rt, job, self.desk.is_gone());
                self.desk.end_asking();
                self.desk.keep_booking(self.rt, booking);
                stops
            }
            // Its outcome is there, or it has none.
            Found::Answered(_) | Found::Leaving => false,
        }
    }
}
