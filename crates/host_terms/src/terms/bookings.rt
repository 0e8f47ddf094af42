// The places of sessions in a term.
ghost use Rattle.std.specs.Prelude.{◌≡◌, IfSome};
ghost use Rattle.host_terms.specs.Bookings.{IsOf, seen_of};
ghost use Rattle.std.specs.Arc.{arc_value};
ghost use Rattle.server_house.specs.Owned.{AsksThere};

use super::HostTerm;
use crate::board::{Board, TermSignal};
use job_language::{Request, TenantName};
use server_house::{OwnClient, Told};
use std::marker::Model;
use std::sync::{Arc, Wait};
use tenant_book::Naming;
use tenant_lock::StopFlag;

/// A session's place in a term.
pub struct Booking<J: Naming> {
    term: Arc<HostTerm<J>>,
    client: OwnClient<J>,
}

impl<J: Naming> Drop for Booking<J> {
    // An owner drops it in one call, not part by part at each of its ways out.
    fn drop(self) {
        let Booking {
            term: _term,
            client: _client,
        } = self;
    }
}

impl<J: Naming> Model for Booking<J> {
    ghost use Rattle.std.specs.Arc.{arc_value};
    ghost use Rattle.host_terms.specs.Bookings.{BookingSeen, IsBooking, seen_of};

    ghost Value = { BookingSeen };

    ghost view = { λ b. record { term = seen_of (arc_value b.term); client = b.client } };

    ghost invariant = { λ b. IsBooking
        (record { term = seen_of (arc_value b.term); client = b.client }) };
}

impl<J: Naming> Booking<J> {
    /// A place in a term of the tenant of that name. None if all are taken, or too many handles on the term are out.
    pub(crate) fn of<R: Wait>(
        rt: &R,
        term: &Arc<HostTerm<J>>,
        name: TenantName,
    ) -> Option<Booking<J>>
        ensures term { IfSome result (λ b. b.term ≡ seen_of (arc_value term.now)) }
        ensures name { IfSome result (λ b. IsOf name b.term) }
    {
        let term = Arc::try_clone(term).ok()?;
        let client = term.clients.lock(rt).pop()?;
        // A tenant has terms of its own alone, and each place is of its term's house. This way nobody has to believe it.
        if !term.is_home_of(&client, name) {
            return None;
        }
        Some(Booking { term, client })
    }

    /// The term.
    pub fn term(&self) -> &HostTerm<J>
        ensures { self.now.term ≡ seen_of result.now }
    {
        &self.term
    }

    /// Asks the term's tenant, and attends the slot that a job is placed on.
    pub fn ask<R: Wait>(
        self,
        rt: &R,
        board: &Board,
        stop: &StopFlag,
        request: Request,
    ) -> (Booking<J>, Told)
        ensures term { result.0.term ≡ self.term }
        ensures asks { AsksThere self.client request result.1 result.0.client }
    {
        let Booking { term, client } = self;
        let signal = TermSignal {
            board,
            calls: &term.calls,
            crowd: &term.crowd,
        };
        let is_executed = matches!(request, Request::Execute(_));
        term.crowd.begin(&request);
        let (client, told) = client.ask(rt, &signal, stop, request);
        term.crowd.end(is_executed, &told);
        (Booking { term, client }, told)
    }

    /// Waits while a job, by its number outside, has no outcome, and says whether to stop.
    pub fn wait_for<R: Wait>(&self, rt: &R, job: u64, stop: &StopFlag) -> bool {
        self.client.wait_for(rt, self.term.span.inside(job), stop)
    }

    /// Gives the place back to its term.
    pub fn give_back<R: Wait>(self, rt: &R) {
        let Booking { term, client } = self;
        // There is room for it: it was there before.
        let _kept = term.clients.lock(rt).push(client);
    }
}
