// The end of a server: its tenants are closed.
ghost use Rattle.std.specs.Prelude.{◌≡◌, ◌∷◌, [], IfOk, IfSome, filter, not};
ghost use Rattle.job_language.specs.Tenant.{IsValidTenant};
ghost use Rattle.server_house.specs.Houses.{AreEnds, AreSeenIn, IsEnd, IsSeenIn, is_of};
ghost use Rattle.server_house.specs.Returned.{AreAskedBy, IsGivenBack};

use crate::house::House;
use crate::returned::Returned;
use std::alloc::{AllocError, Global};
use std::sync::Wait;
use tenant_book::{Front, Naming};
use tenant_lock::{CloseFault, Closed, TenantDoor};
use tenant_record::Seat;

impl<J: Naming> House<J> {
    /// Closes all tenants, in order, each with its own seats of those that came back: its history, or what
    /// is wrong. What was seen of a tenant's life begins the history that it closes with. It fails only if an
    /// allocation failed, and then all tenants are given up.
    pub fn close<R: Wait>(
        self,
        rt: &R,
        alloc: Global,
        seats: Vec<Seat>,
        fronts: &[Front<J>],
    ) -> Result<Vec<Result<Closed, CloseFault>>, AllocError>
        ensures ends { IfOk result (λ ends. AreEnds self.doors seats.items ends.items) }
        ensures seen { IfOk result (λ ends. AreSeenIn fronts.now self.doors ends.items) }
    {
        let doors = self.into_doors();
        let mut left = seats;
        let mut ends = Vec::with_capacity(alloc, doors.len())?;
        for door in doors {
            let Parted { own, others } = Parted::new(alloc, left, door.tenant())?;
            ends.push(close_door(rt, door, fronts, own))?;
            left = others;
        }
        Ok(ends)
    }

    /// Closes the only tenant, as `close` does, and without an allocation. None if there is another one, or none.
    pub fn close_only<R: Wait>(
        self,
        rt: &R,
        seats: Vec<Seat>,
        fronts: &[Front<J>],
    ) -> Option<Result<Closed, CloseFault>>
        ensures ends { IfSome result (λ end. AreEnds self.doors seats.items (end ∷ [])) }
        ensures seen { IfSome result (λ end. AreSeenIn fronts.now self.doors (end ∷ [])) }
    {
        let mut doors = self.into_doors();
        let door = doors.pop()?;
        if !doors.is_empty() {
            return None;
        }
        let own = only_of(seats, door.tenant());
        Some(close_door(rt, door, fronts, own))
    }

    /// Closes all tenants as `close` does, with the seats that came back from the server's sessions: the asks in each
    /// history are those that sessions gave back with their seats, and what those sessions had seen begins it.
    pub fn close_returned<R: Wait>(
        self,
        rt: &R,
        alloc: Global,
        returned: Returned<J>,
    ) -> Result<Vec<Result<Closed, CloseFault>>, AllocError>
        ensures ends { IfOk result (λ ends. AreEnds self.doors returned.seats ends.items) }
        ensures sessions { IfOk result (λ ends. AreAskedBy (IsGivenBack returned.fronts) self.doors ends.items) }
        ensures seen { IfOk result (λ ends. AreSeenIn returned.fronts self.doors ends.items) }
    {
        let (seats, fronts) = returned.into_parts();
        self.close(rt, alloc, seats, fronts.as_slice())
    }
}

/// Closes a tenant with its seats.
fn close_door<J: Naming, R: Wait>(
    rt: &R,
    door: TenantDoor<J>,
    fronts: &[Front<J>],
    seats: Vec<Seat>,
) -> Result<Closed, CloseFault>
    requires { IsValidTenant door.config }
    ensures end { IsEnd door seats.items result }
    ensures seen { IsSeenIn fronts.now door result }
{
    door.close(rt, fronts, seats)
}

/// The seats of a tenant, in their order.
fn only_of(seats: Vec<Seat>, tenant: usize) -> Vec<Seat>
    ensures { result.items ≡ filter (is_of tenant) seats.items }
{
    let mut seats = seats;
    seats.retain(|seat| seat.tenant() == tenant);
    seats
}

/// The seats of a tenant, and those of all others, in their order.
#[derive(Drop)]
struct Parted {
    own: Vec<Seat>,
    others: Vec<Seat>,
}

impl Parted {
    fn new(alloc: Global, seats: Vec<Seat>, tenant: usize) -> Result<Parted, AllocError>
        ensures own { IfOk result (λ parted. parted.own.items ≡ filter (is_of tenant) seats.items) }
        ensures others { IfOk result
            (λ parted. parted.others.items ≡ filter (λ s. not (is_of tenant s)) seats.items) }
    {
        let mut own = Vec::new(alloc);
        let mut others = Vec::new(alloc);
        for seat in seats {
            if seat.tenant() == tenant {
                own.push(seat)?;
            } else {
                others.push(seat)?;
            }
        }
        Ok(Parted { own, others })
    }
}
