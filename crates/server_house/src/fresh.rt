// Seats that nobody used yet.
ghost use Rattle.std.specs.Prelude.{◌≡◌, ◌≢◌, ◌∷◌, ◌++◌, All, IfErr, IfOk, IfNone, IfSome, IsPermutation, length};
ghost use Rattle.server_doors.specs.Sessions.{AreOwn};
ghost use Rattle.server_house.specs.Posts.{IsFresh, LacksOne};
ghost use Rattle.tenant_record.specs.SeatData.{SeatData};

use std::alloc::{AllocError, Global};
use std::marker::Model;
use tenant_record::Seat;

/// Unused seats.
pub struct FreshSeats {
    seats: Vec<Seat>,
}

impl Drop for FreshSeats {
    // An owner drops it in one call, not part by part at each of its ways out.
    fn drop(self) {
        let FreshSeats { seats: _seats } = self;
    }
}

impl Model for FreshSeats {
    ghost use Rattle.std.specs.Prelude.{List, All};
    ghost use Rattle.tenant_record.specs.SeatData.{SeatData};
    ghost use Rattle.server_house.specs.Posts.{IsFresh};

    ghost Value = { List SeatData };

    ghost view = { λ f. f.seats.items };

    ghost invariant = { λ f. All IsFresh f.seats.items };
}

impl FreshSeats {
    /// Seats that are unused.
    pub(crate) fn new(seats: Vec<Seat>) -> FreshSeats
        requires { All IsFresh seats.items }
        ensures { result ≡ seats.items }
    {
        FreshSeats { seats }
    }

    /// How many they are.
    pub fn len(&self) -> usize
        ensures { result ≡ length self.now }
    {
        self.seats.len()
    }

    /// A seat of each tenant, tenant 0 first. None if one is missing, and those before it are lost; an error
    /// takes none.
    pub(crate) fn take_each(
        &mut self,
        alloc: Global,
        tenants: usize,
    ) -> Result<Option<Vec<Seat>>, AllocError>
        ensures own { IfOk result (λ taken. IfSome taken (λ seats. AreOwn seats.items)) }
        ensures count { IfOk result
            (λ taken. IfSome taken (λ seats. length seats.items ≡ tenants)) }
        ensures fresh { IfOk result (λ taken. IfSome taken (λ seats. All IsFresh seats.items)) }
        ensures left { IfOk result
            (λ taken. IfSome taken (λ seats. IsPermutation self.old (seats.items ++ self.new))) }
        ensures lacks { IfOk result (λ taken. IfNone taken (LacksOne tenants self.old)) }
        ensures kept { IfErr result (λ _. self.new ≡ self.old) }
    {
        let mut own = Vec::with_capacity(alloc, tenants)?;
        for tenant in 0..tenants {
            let Some(seat) = self.take_seat(tenant) else {
                return Ok(None);
            };
            own.push_reserved(seat);
        }
        Ok(Some(own))
    }

    /// A seat of a tenant, if one is left.
    fn take_seat(&mut self, tenant: usize) -> Option<Seat>
        ensures tenant { IfSome result (λ seat. seat.tenant ≡ tenant) }
        ensures fresh { IfSome result IsFresh }
        ensures left { IfSome result (λ seat. IsPermutation self.old (seat ∷ self.new)) }
        ensures stay { IfNone result (self.new ≡ self.old) }
        ensures lacks { IfNone result (All (λ (s : SeatData). s.tenant ≢ tenant) self.old) }
    {
        let place = self.seats.iter().position(|seat| seat.tenant() == tenant)?;
        Some(self.seats.swap_remove(place))
    }

    /// The seats.
    pub fn into_seats(self) -> Vec<Seat>
        ensures value { result.items ≡ self }
        ensures fresh { All IsFresh result.items }
    {
        let FreshSeats { seats } = self;
        seats
    }
}
