// A session asks about a job, in the term that it belongs to.
ghost use Rattle.std.specs.Prelude.{◌≡◌, ◌⊎◌, Some};
ghost use Rattle.host_sessions.specs.Answers.{IsAnswer, IsAsked, job_named};
ghost use Rattle.host_terms.specs.Found.{IsFound};
ghost use Rattle.host_terms.specs.Looks.{IsLooked};
ghost use Rattle.host_terms.specs.Names.{name_of};

use super::HostDoors;
use host_terms::{Booking, Found, Tenancy};
use job_language::{Reply, Request};
use server_house::Told;
use std::sync::Wait;
use std::time::Clock;
use tenant_book::Naming;

impl<'h, J: Naming, R: Wait + Clock> HostDoors<'h, J, R> {
    /// A place in the term of a job, or the reply to a request about it.
    pub(super) fn find_owner(&self, tenancy: &Tenancy<J>, job: u64, request: &Request) -> Found<J>
        ensures { IsFound (name_of tenancy.now) job request.now result }
    {
        if let Some(booking) = self.desk.take_booking(self.rt) {
            let is_own = booking.term().is_of(tenancy.name());
            if is_own && booking.term().span().owns(job) && !booking.term().is_left() {
                return Found::Live(booking);
            }
            self.desk.give_back(self.rt, self.alloc, booking);
        }
        tenancy.find(self.rt, job, request)
    }

    /// Asks about a job, by its number outside.
    pub(super) fn ask_owner(&self, tenancy: &Tenancy<J>, job: u64, request: Request) -> Reply
        requires { job_named request ≡ Some job }
        ensures { IsAnswer (name_of tenancy.now) request result }
    {
        match self.find_owner(tenancy, job, &request) {
            Found::Live(booking) => {
                let inner = booking.term().span().request_inside(request);
                let (booking, told) = self.ask_there(booking, inner);
                let reply = self.outside(&booking, told);
                self.desk.keep_booking(self.rt, booking);
                reply
            }
            Found::Answered(reply) => reply,
            Found::Leaving => self.let_go(tenancy, job, &request),
        }
    }

    /// Asks a term about a job, by its number there. One that was left is only looked at if that is enough: its history
    /// is for the jobs that it has.
    fn ask_there(&self, booking: Booking<J>, request: Request) -> (Booking<J>, Told)
        ensures term { result.0.term ≡ booking.term }
        ensures asked { IsAsked booking.term request result.1
            ⊎ IsLooked booking.term request result.1 }
    {
        if booking.term().is_left() {
            if let Some(told) = booking.term().look_up(self.rt, &request) {
                return (booking, told);
            }
        }
        booking.ask(self.rt, self.host.board(), self.desk.is_gone(), request)
    }
}
