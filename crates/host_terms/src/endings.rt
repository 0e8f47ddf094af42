// A term that nobody asks any more.
ghost use Rattle.std.specs.Prelude.{◌≡◌, IfErr, IfOk};
ghost use Rattle.std.specs.Arc.{arc_value};
ghost use Rattle.host_terms.specs.Bookings.{seen_of};
ghost use Rattle.host_terms.specs.Endings.{AreComplete};

use crate::hosts::Host;
use crate::terms::HostTerm;
use host_records::TermEnd;
use server_house::ClientSeats;
use std::alloc::Global;
use std::marker::Model;
use std::sync::{Arc, Wait};
use tenant_book::Naming;
use term_life::{Outcome, Why};

/// A term that sessions come to no more, and new workers neither.
pub struct Ending<J: Naming> {
    term: Arc<HostTerm<J>>,
    why: Why,
    outcomes: Vec<Outcome>,
}

impl<J: Naming> Drop for Ending<J> {
    // An owner drops it in one call, not part by part at each of its ways out.
    fn drop(self) {
        let Ending {
            term: _term,
            why: _why,
            outcomes: _outcomes,
        } = self;
    }
}

impl<J: Naming> Model for Ending<J> {
    ghost use Rattle.std.specs.Arc.{arc_value};
    ghost use Rattle.host_terms.specs.Bookings.{seen_of};
    ghost use Rattle.host_terms.specs.Endings.{EndingSeen, IsEnding};

    ghost Value = { EndingSeen };

    ghost view = { λ e. record {
      term = seen_of (arc_value e.term);
      config = (arc_value e.term).tenant;
      outcomes = e.outcomes.items;
    } };

    ghost invariant = { λ e. IsEnding (record {
      term = seen_of (arc_value e.term);
      config = (arc_value e.term).tenant;
      outcomes = e.outcomes.items;
    }) };
}

/// What a term needs to be closed without an allocation.
#[derive(Drop)]
struct Readied {
    room: ClientSeats,
    is_journaled: bool,
}

impl<J: Naming> Ending<J> {
    pub(crate) fn new(term: Arc<HostTerm<J>>, why: Why, outcomes: Vec<Outcome>) -> Ending<J>
        requires { AreComplete (seen_of (arc_value term)) outcomes.items }
        ensures term { result.term ≡ seen_of (arc_value term) }
        ensures config { result.config ≡ (arc_value term).tenant }
        ensures outcomes { result.outcomes ≡ outcomes.items }
    {
        Ending {
            term,
            why,
            outcomes,
        }
    }

    /// The number of the term.
    pub(crate) fn number(&self) -> u64
        ensures { result ≡ self.now.term.span.number }
    {
        self.term.span().number
    }

    /// Closes the term, if no worker is there any more, and brings its journal, if it has one, to the disk before.
    /// Otherwise it comes back, and so it does if an allocation fails: it can be closed later.
    pub fn close<R: Wait>(self, rt: &R, alloc: Global, host: &Host<J>) -> Result<TermEnd, Ending<J>>
        ensures span { IfOk result (λ end. end.span ≡ self.term.span) }
        ensures config { IfOk result (λ end. end.tenant ≡ self.config) }
        ensures outcomes { IfOk result (λ end. end.outcomes.items ≡ self.outcomes) }
        ensures back { IfErr result (λ ending. ending ≡ self) }
    {
        let Some(Readied { room, is_journaled }) = self.readied(rt, alloc) else {
            return Err(self);
        };
        let Ending {
            term,
            why,
            outcomes,
        } = self;
        let (span, tenant, began) = (term.span(), *term.tenant(), term.began());
        match Arc::try_unwrap(term) {
            Ok(term) => Ok(TermEnd {
                span,
                tenant,
                began,
                why,
                outcomes,
                is_journaled,
                end: term.close(rt, alloc, host.board(), room),
            }),
            Err(term) => Err(Ending {
                term,
                why,
                outcomes,
            }),
        }
    }

    /// What closing the term may fail for, done before. None if a worker is there, or an allocation fails.
    fn readied<R: Wait>(&self, rt: &R, alloc: Global) -> Option<Readied> {
        if !self.term.is_free_of_workers(rt) {
            return None;
        }
        let room = self.term.room_for_seats(alloc).ok()?;
        let is_journaled = self.term.catch_up(rt, alloc, true).ok()?;
        Some(Readied { room, is_journaled })
    }
}
