// The seats of sessions that keep a house alive, once they have left it.
ghost use Rattle.std.specs.Prelude.{◌≡◌, ◌++◌, ◌∷◌, [], All, IfOk, IfSome, OnOk};
ghost use Rattle.server_house.specs.Houses.{AreEnds};
ghost use Rattle.server_house.specs.Owned.{IsGivenBackByClient};
ghost use Rattle.server_house.specs.Returned.{AreAskedBy};

use crate::house::House;
use crate::owned::OwnClient;
use std::alloc::{AllocError, Global};
use std::marker::Model;
use std::sync::Wait;
use tenant_book::Naming;
use tenant_lock::{CloseFault, Closed};
use tenant_record::Seat;

/// Seats of sessions, each with what it noted of its session's asks.
#[derive(Drop)]
pub struct ClientSeats {
    seats: Vec<Seat>,
}

impl Model for ClientSeats {
    ghost use Rattle.std.specs.Prelude.{List, All};
    ghost use Rattle.server_house.specs.Owned.{IsGivenBackByClient};
    ghost use Rattle.tenant_record.specs.SeatData.{SeatData};

    ghost Value = { List SeatData };

    ghost view = { λ s. s.seats.items };

    ghost invariant = { λ s. All IsGivenBackByClient s.seats.items };
}

impl ClientSeats {
    /// No seats yet, and room for so many, which are added without an allocation.
    pub fn with_room(alloc: Global, seats: usize) -> Result<ClientSeats, AllocError>
        ensures { IfOk result (λ made. made ≡ []) }
    {
        Ok(ClientSeats {
            seats: Vec::with_capacity(alloc, seats)?,
        })
    }

    /// Adds the seats of a session that has left. Without memory for them they are lost.
    pub fn add<J: Naming>(&mut self, client: OwnClient<J>) -> Result<(), AllocError>
        ensures { OnOk result (self.new ≡ self.old ++ client.seats) }
    {
        self.add_seats(client.into_seats())
    }

    fn add_seats(&mut self, seats: Vec<Seat>) -> Result<(), AllocError>
        requires { All IsGivenBackByClient seats.items }
        ensures { OnOk result (self.new ≡ self.old ++ seats.items) }
    {
        let mut seats = seats;
        self.seats.append(&mut seats)
    }

    /// Closes the only tenant of a house with these seats, as `House::close_only` does: the asks in its history are
    /// those that the seats noted, each of which its session made.
    pub fn close_only<J: Naming, R: Wait>(
        self,
        rt: &R,
        alloc: Global,
        house: House<J>,
    ) -> Option<Result<Closed, CloseFault>>
        ensures ends { IfSome result (λ end. AreEnds house.doors self (end ∷ [])) }
        ensures sessions { IfSome result
            (λ end. AreAskedBy IsGivenBackByClient house.doors (end ∷ [])) }
    {
        let ClientSeats { seats } = self;
        let seen = Vec::new(alloc);
        house.close_only(rt, seats, seen.as_slice())
    }
}
