// The seats that come back.
ghost use Rattle.std.specs.Prelude.{◌≡◌, ◌++◌, true, false, All, IfOk, []};
ghost use Rattle.server_house.specs.Returned.{IsGivenBack};

use crate::fresh::FreshSeats;
use std::alloc::{AllocError, Global};
use std::marker::Model;
use tenant_book::{Front, Naming};
use tenant_record::Seat;

/// What came back: seats, each unused or given back by a session, and what those sessions had seen of each tenant's
/// history.
pub struct Returned<J: Naming> {
    seats: Vec<Seat>,
    fronts: Vec<Front<J>>,
    is_short: bool,
}

impl<J: Naming> Drop for Returned<J> {
    // An owner drops it in one call, not part by part at each of its ways out.
    fn drop(self) {
        let Returned {
            seats: _seats,
            fronts: _fronts,
            is_short: _is_short,
        } = self;
    }
}

impl<J: Naming> Model for Returned<J> {
    ghost use Rattle.std.specs.Prelude.{All};
    ghost use Rattle.server_house.specs.Returned.{ReturnedSeen, IsGivenBack};

    ghost Value = { ReturnedSeen };

    ghost view = { λ r. record { seats = r.seats.items; fronts = r.fronts.items; is_short = r.is_short } };

    ghost invariant = { λ r. All (IsGivenBack r.fronts.items) r.seats.items };
}

impl<J: Naming> Returned<J> {
    /// No seats yet, with room for that many, and for as many fronts: a session has one of each tenant, as it has a
    /// seat.
    pub fn with_room(alloc: Global, seats: usize) -> Result<Returned<J>, AllocError>
        ensures { IfOk result
            (λ returned. returned ≡ record { seats = []; fronts = []; is_short = false }) }
    {
        Ok(Returned {
            seats: Vec::with_capacity(alloc, seats)?,
            fronts: Vec::with_capacity(alloc, seats)?,
            is_short: false,
        })
    }

    /// Keeps seats that came back, and what was seen with them. If there is no memory for them they are lost, and from
    /// then on some are missing.
    #[tactic(auto, using(crate::proofs::Seats::both_given_back, crate::proofs::Seats::before_given_back))]
    pub fn keep(&mut self, own: Vec<Seat>, seen: Vec<Front<J>>)
        requires { All (IsGivenBack seen.items) own.items }
        ensures all { self.new.is_short ≡ false → self.new.seats ≡ self.old.seats ++ own.items }
        ensures seen { self.new.is_short ≡ false → self.new.fronts ≡ self.old.fronts ++ seen.items }
        ensures short { self.old.is_short ≡ true → self.new.is_short ≡ true }
    {
        let (mut own, mut seen) = (own, seen);
        if self.fronts.append(&mut seen).is_err() {
            self.is_short = true;
            return;
        }
        if self.seats.append(&mut own).is_err() {
            self.is_short = true;
        }
    }

    /// Keeps seats that nobody used, in the same way.
    #[tactic(auto, using(crate::proofs::Seats::fresh_kept))]
    pub fn keep_fresh(&mut self, own: FreshSeats)
        ensures all { self.new.is_short ≡ false → self.new.seats ≡ self.old.seats ++ own }
        ensures short { self.old.is_short ≡ true → self.new.is_short ≡ true }
    {
        let mut own = own.into_seats();
        if self.seats.append(&mut own).is_err() {
            self.is_short = true;
        }
    }

    /// Whether some are missing, for lack of memory.
    pub fn is_short(&self) -> bool
        ensures value { result ≡ self.now.is_short }
        ensures given_back { All (IsGivenBack self.now.fronts) self.now.seats }
    {
        self.is_short
    }

    /// The seats, and what was seen with them.
    pub fn into_parts(self) -> (Vec<Seat>, Vec<Front<J>>)
        ensures seats { result.0.items ≡ self.seats }
        ensures fronts { result.1.items ≡ self.fronts }
        ensures given_back { All (IsGivenBack result.1.items) result.0.items }
    {
        let Returned {
            seats,
            fronts,
            is_short: _is_short,
        } = self;
        (seats, fronts)
    }
}
