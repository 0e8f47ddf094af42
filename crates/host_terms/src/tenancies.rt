// A tenant at a host: its terms, one of which serves at most, and the outcomes of those that are closed.
ghost use Rattle.std.specs.Prelude.{◌≡◌, ◌≤◌, true, IfSome};
ghost use Rattle.std.specs.Arc.{arc_value};
ghost use Rattle.host_terms.specs.Bookings.{IsOf};
ghost use Rattle.host_terms.specs.Found.{IsFound};
ghost use Rattle.term_life.specs.Spans.{has_job};
ghost use Rattle.term_life.specs.declared.terms.TheConstants.{MOST_JOBS};

mod leaving;
mod notes;
mod waits;

use crate::admissions::Admissions;
use crate::roster::Roster;
use crate::terms::{Booking, HostTerm};
use host_records::Notes;
use job_language::{Error, Reply, Request, TenantName};
use server_io::ServerFault;
use std::alloc::{AllocError, Global};
use std::sync::{Arc, Condvar, Mutex, Wait};
use tenant_book::Naming;
use term_life::{Outcome, Outcomes, Span, Term, Terms, Why, Wishes};

/// What is kept under the lock.
#[derive(Drop)]
struct Lives<J: Naming> {
    terms: Terms,
    /// The terms that sessions may come to, the oldest first. The last one serves, unless it is left.
    live: Vec<Arc<HostTerm<J>>>,
    /// Of terms that are closed.
    outcomes: Outcomes,
    /// The jobs of terms before the one of this number are retired.
    retired: u64,
    wishes: Wishes,
}

impl<J: Naming> Lives<J> {
    /// The term that serves, if one does.
    fn serving(&self) -> Option<&Arc<HostTerm<J>>> {
        let last = self.live.last()?;
        if last.is_left() { None } else { Some(last) }
    }

    /// The live term to which a job belongs, by its number outside.
    fn owner(&self, job: u64) -> Option<&Arc<HostTerm<J>>>
        ensures { IfSome result (λ term. has_job job (arc_value term.now).span ≡ true) }
    {
        self.live.iter().find(|term| term.span().owns(job))
    }
}

/// Where a job is to be asked for.
#[derive(Drop)]
pub enum Found<J: Naming> {
    /// In its term.
    Live(Booking<J>),
    /// Its term is closed, or there is none: the reply.
    Answered(Reply),
    /// Its term is closed, and the request releases it: that is to be noted before it is answered.
    Leaving,
}

/// A tenant of a host. Its sessions stay when its terms follow one another.
#[derive(Drop)]
pub struct Tenancy<J: Naming> {
    name: TenantName,
    lives: Mutex<Lives<J>>,
    /// A term was opened, or it is known that none can be.
    changed: Condvar,
    /// Where it is noted what is forgotten of terms that are closed.
    notes: Mutex<Option<Notes>>,
    /// The connections that are bound to it.
    admissions: Admissions,
}

impl<J: Naming> Tenancy<J> {
    /// A tenant without a term. The first one will have that number, and its jobs are numbered after `base`. Of terms
    /// that are closed the outcomes of the last `keep` are kept.
    pub fn new(alloc: Global, name: TenantName, first: u64, base: u64, keep: usize) -> Tenancy<J>
        requires { base ≤ MOST_JOBS }
        ensures name { result.name ≡ name }
    {
        Tenancy {
            name,
            lives: Mutex::new(Lives {
                terms: Terms::new(alloc, first, base),
                live: Vec::new(alloc),
                outcomes: Outcomes::new(alloc, keep),
                retired: 0,
                wishes: Wishes::new(),
            }),
            changed: Condvar::new(),
            notes: Mutex::new(None),
            admissions: Admissions::new(),
        }
    }

    /// The tenant's name.
    pub fn name(&self) -> TenantName
        ensures { result ≡ self.now.name }
    {
        self.name
    }

    /// The connections that are bound to it.
    pub(crate) fn admissions(&self) -> &Admissions {
        &self.admissions
    }

    /// How many connections are bound to the tenant.
    pub fn connected(&self) -> u64 {
        self.admissions.connected()
    }

    /// How many hellos were refused so far, since the tenant had as many connections as it may.
    pub fn refused(&self) -> u64 {
        self.admissions.refused()
    }

    /// How many of them were refused since this was asked last.
    pub fn take_unreported(&self) -> u64 {
        self.admissions.take_unreported()
    }

    /// The number of the term that is opened next, and the number of a job after which its jobs are numbered.
    pub fn next<R: Wait>(&self, rt: &R) -> (u64, u64) {
        let lives = self.lives.lock(rt);
        (lives.terms.next(), lives.terms.base())
    }

    /// The term that serves, if one does.
    pub fn serving<R: Wait>(&self, rt: &R) -> Option<Arc<HostTerm<J>>> {
        let lives = self.lives.lock(rt);
        Arc::try_clone(lives.serving()?).ok()
    }

    /// The terms that are not closed and that sessions may come to, the oldest first. An error if an allocation fails.
    pub fn live<R: Wait>(
        &self,
        rt: &R,
        alloc: Global,
    ) -> Result<Vec<Arc<HostTerm<J>>>, AllocError> {
        let lives = self.lives.lock(rt);
        let mut live = Vec::with_capacity(alloc, lives.live.len())?;
        for term in &lives.live {
            live.push(Arc::try_clone(term)?)?;
        }
        Ok(live)
    }

    /// How many terms are not closed.
    pub fn count<R: Wait>(&self, rt: &R) -> usize {
        self.lives.lock(rt).terms.all().len()
    }

    /// Asks for the term that serves to be left for the next one.
    pub fn wish<R: Wait>(&self, rt: &R, why: Why) {
        self.lives.lock(rt).wishes.wish(why);
    }

    /// Why the term that serves is to be left for the next one, if it is.
    pub fn wished<R: Wait>(&self, rt: &R) -> Option<Why> {
        self.lives.lock(rt).wishes.wished()
    }

    /// The same as `refuse_waits`, and what was wished is forgotten.
    pub fn refuse<R: Wait>(&self, rt: &R) {
        self.lives.lock(rt).wishes.refuse();
        self.changed.notify_all();
    }

    /// The next term waits until an older one is closed.
    pub fn hold<R: Wait>(&self, rt: &R) {
        self.lives.lock(rt).wishes.hold();
    }

    /// No term can be opened now: nobody waits for one any longer.
    pub fn refuse_waits<R: Wait>(&self, rt: &R) {
        self.lives.lock(rt).wishes.put_off();
        self.changed.notify_all();
    }

    /// What is known of the term of that number, if it is not closed.
    pub fn known<R: Wait>(&self, rt: &R, number: u64) -> Option<Term>
        ensures { IfSome result (λ term. term.number ≡ number) }
    {
        let lives = self.lives.lock(rt);
        lives
            .terms
            .all()
            .iter()
            .copied()
            .find(|term| term.number == number)
    }

    /// A term that was made for the numbers of `next` serves from now on, and the one before goes on for the jobs that
    /// it has; it was left for that reason. Workers come to it as one of the tenant of that number. `Memory` if an
    /// allocation fails, and `Device` if the numbers are not the next ones or it is another tenant's; nothing has
    /// changed then.
    pub(crate) fn begin<R: Wait>(
        &self,
        rt: &R,
        roster: &Mutex<Roster<J>>,
        tenant: usize,
        term: Arc<HostTerm<J>>,
        why: Why,
    ) -> Result<(), ServerFault> {
        let Span { number, base, room } = term.span();
        let mut lives = self.lives.lock(rt);
        if number != lives.terms.next() || base != lives.terms.base() || !term.is_of(self.name) {
            return Err(ServerFault::Device);
        }
        lives.live.reserve(1)?;
        let handle = Arc::try_clone(&term)?;
        let mut roster = roster.lock(rt);
        roster.make_room(tenant)?;
        if lives.terms.open(why, room)?.is_none() {
            return Err(ServerFault::Device);
        }
        if let Some(before) = lives.live.last() {
            before.leave();
        }
        // There is room for it.
        let _added = roster.add(tenant, handle);
        lives.live.push_reserved(term);
        lives.wishes.begin();
        self.changed.notify_all();
        Ok(())
    }

    /// Wakes all that wait in a term, each to look whether to go on.
    pub(crate) fn wake<R: Wait>(&self, rt: &R) {
        for term in &self.lives.lock(rt).live {
            term.wake(rt);
        }
        self.changed.notify_all();
    }

    /// Tells all that wait in a term to stop.
    pub(crate) fn stop<R: Wait>(&self, rt: &R) {
        for term in &self.lives.lock(rt).live {
            term.stop(rt);
        }
    }

    /// Keeps the outcomes of a term that was closed before the host began.
    pub fn keep_outcomes<R: Wait>(
        &self,
        rt: &R,
        span: Span,
        outcomes: Vec<Outcome>,
    ) -> Result<(), AllocError> {
        self.lives.lock(rt).outcomes.add(span, outcomes)
    }

    /// A place in the term that serves. None if none does.
    pub fn book_serving<R: Wait>(&self, rt: &R) -> Option<Booking<J>>
        ensures { IfSome result (λ b. IsOf self.now.name b.term) }
    {
        let lives = self.lives.lock(rt);
        Booking::of(rt, lives.serving()?, self.name)
    }

    /// Where a job is to be asked for, by its number outside.
    pub fn find<R: Wait>(&self, rt: &R, job: u64, request: &Request) -> Found<J>
        ensures { IsFound self.now.name job request.now result }
    {
        let mut lives = self.lives.lock(rt);
        let retired = lives.retired;
        let booked = match lives.owner(job) {
            Some(term) if term.span().number < retired => None,
            Some(term) => Some(Booking::of(rt, term, self.name)),
            None => None,
        };
        match booked {
            Some(Some(booking)) => Found::Live(booking),
            Some(None) => Found::Answered(Reply::Refused(Error::NoMemory)),
            None if lives.outcomes.is_released_by(job, request) => Found::Leaving,
            None => Found::Answered(lives.outcomes.answer(job, request)),
        }
    }
}
