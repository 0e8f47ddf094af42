// A tenant's terms are left, and taken out once their jobs have their outcomes.
ghost use Rattle.std.specs.Prelude.{◌≡◌, ◌<◌, IfOk, IfSome, OnErr, false, length, slice_get};
ghost use Rattle.std.specs.Arc.{arc_value};
ghost use Rattle.host_terms.specs.Bookings.{seen_of};
ghost use Rattle.host_terms.specs.Endings.{kept_of};
ghost use Rattle.host_terms.specs.Looks.{IsDone, IsDoneTerm};
ghost use Rattle.term_life.specs.Outcomes.{with_ended};

use super::{Lives, Tenancy};
use crate::desks::Desk;
use crate::endings::Ending;
use crate::roster::Roster;
use std::alloc::{AllocError, Global};
use std::sync::{Mutex, Wait};
use tenant_book::Naming;
use term_life::{Outcome, Why};

impl<J: Naming> Lives<J> {
    /// Why the term of that number was left, if it was.
    fn why(&self, number: u64) -> Option<Why> {
        self.terms
            .all()
            .iter()
            .find(|term| term.number == number)
            .and_then(|term| term.why)
    }

    /// The place of the oldest term that was left and where nothing is left that can be done, or, if it is forced, of the
    /// oldest that was left.
    fn done<R: Wait>(&self, rt: &R, is_forced: bool) -> Option<usize>
        ensures place { IfSome result (λ place. place < length self.now.live.items) }
        ensures done { is_forced ≡ false → IfSome result (λ place.
            IfSome (slice_get self.now.live.items place) (λ term. IsDoneTerm (arc_value term))) }
    {
        for place in 0..self.live.len() {
            if self.live[place].may_end(rt, is_forced) {
                return Some(place);
            }
        }
        None
    }

    /// Takes out the term of that place: its outcomes take its place. If an allocation fails, it stays.
    fn take_out<R: Wait>(
        &mut self,
        rt: &R,
        alloc: Global,
        place: usize,
    ) -> Result<Ending<J>, AllocError>
        requires { place < length self.old.live.items }
        ensures term { IfOk result (λ ending. IfSome (slice_get self.old.live.items place) (λ term.
            (ending.term ≡ seen_of (arc_value term)) × (ending.config ≡ (arc_value term).tenant))) }
        ensures kept { IfOk result (λ ending. self.new.outcomes ≡ with_ended ending.term.span
            (kept_of ending.term.span.number self.old.retired ending.outcomes)
            self.old.outcomes) }
        ensures refused { OnErr result (self.new ≡ self.old) }
    {
        let outcomes = self.live[place].outcomes(rt, alloc)?;
        let span = self.live[place].span();
        let kept = self.kept_of(alloc, span.number, outcomes.as_slice())?;
        // From now on they are told without its journal.
        let _is_there = self.live[place].catch_up(rt, alloc, false)?;
        self.outcomes.add(span, kept)?;
        // No allocation from here on: else the term would be lost with what was taken out.
        let term = self.live.remove(place);
        self.terms.close(span.number);
        let why = self.why(span.number);
        Ok(Ending::new(term, why.unwrap_or(Why::Stop), outcomes))
    }

    /// Those of a term's outcomes that are kept: none if its jobs are retired.
    fn kept_of(
        &self,
        alloc: Global,
        number: u64,
        outcomes: &[Outcome],
    ) -> Result<Vec<Outcome>, AllocError>
        ensures { IfOk result (λ kept.
            kept.items ≡ kept_of number self.now.retired outcomes.now) }
    {
        let mut kept = Vec::new(alloc);
        if number >= self.retired {
            kept.extend_from_slice(outcomes)?;
        }
        Ok(kept)
    }
}

impl<J: Naming> Tenancy<J> {
    /// Lets the term that serves, if one does, take no new jobs, for that reason.
    pub fn leave<R: Wait>(&self, rt: &R, why: Why) {
        let mut lives = self.lives.lock(rt);
        lives.terms.leave(why);
        lives.wishes.leave(why);
        if let Some(last) = lives.live.last() {
            last.leave();
        }
    }

    /// Takes a term out whose jobs have their outcomes and where no session is, if there is one: sessions come to it no
    /// more, and get its outcomes. Places that sessions keep in terms that were left are given back before. If it is
    /// forced, a term may have open jobs. If an allocation fails, the term stays, and can be taken out later.
    pub(crate) fn next_ending<R: Wait>(
        &self,
        rt: &R,
        alloc: Global,
        roster: &Mutex<Roster<J>>,
        tenant: usize,
        desks: &[Desk<J>],
        is_forced: bool,
    ) -> Result<Option<Ending<J>>, AllocError>
        ensures { IfOk result (λ found. IfSome found (λ ending.
            is_forced ≡ false → IsDone ending.term ending.config)) }
    {
        let mut lives = self.lives.lock(rt);
        let Some(place) = lives.done(rt, is_forced) else {
            return Ok(None);
        };
        for desk in desks {
            desk.give_back_left(rt);
        }
        if !lives.live[place].is_free_of_sessions(rt) {
            return Ok(None);
        }
        let ending = lives.take_out(rt, alloc, place)?;
        roster.lock(rt).remove(tenant, ending.number());
        Ok(Some(ending))
    }

    /// The term of that number is closed.
    pub fn end<R: Wait>(&self, rt: &R, number: u64) {
        self.lives.lock(rt).terms.end(number);
    }

    /// Whether a row is open in a term that was left.
    pub fn is_busy_before<R: Wait>(&self, rt: &R) -> bool {
        let lives = self.lives.lock(rt);
        lives.live.iter().any(|term| {
            term.is_left()
                && match term.door() {
                    Some(door) => door.tally(rt, &mut door.front()).open_rows > 0,
                    None => false,
                }
        })
    }
}
