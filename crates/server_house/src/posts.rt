// The places of threads in a server.
ghost use Rattle.std.specs.Prelude.{◌≡◌, ◌⊎◌, ◌++◌, [], ◌∷◌, IfErr, IfNone, IfOk, IfSome, IsPermutation, length};
ghost use Rattle.server_house.specs.Posts.{IsClient, LacksOne};
ghost use Rattle.server_house.specs.Sessions.{first_session};
ghost use Rattle.server_house.specs.Shared.{ArePassesOf};
ghost use Rattle.server_doors.specs.Slots.{AreFronts};

use crate::fresh::FreshSeats;
use crate::house::House;
use call_queues::QueuePass;
use server_doors::{HeldSlot, SessionDoors};
use std::alloc::{AllocError, Global};
use std::marker::Model;
use std::sync::Wait;
use tenant_book::{Front, Naming};
use tenant_lock::StopFlag;
use tenant_record::Seat;
use worker_main::{Bell, Ringer};

/// The passes of a house's queues that no thread has yet.
pub struct Posts<'h, J: Naming> {
    house: &'h House<J>,
    passes: Vec<QueuePass>,
}

impl<'h, J: Naming> Drop for Posts<'h, J> {
    // An owner drops it in one call, not part by part at each of its ways out.
    fn drop(self) {
        let Posts {
            house: _house,
            passes: _passes,
        } = self;
    }
}

impl<'h, J: Naming> Model for Posts<'h, J> {
    ghost use Rattle.server_house.specs.Posts.{PostsSeen, IsPosts};

    ghost Value = { PostsSeen };

    ghost view = { λ p. record { house = p.house.now; passes = p.passes.items } };

    ghost invariant = { λ p. IsPosts (record { house = p.house.now; passes = p.passes.items }) };
}

/// One thread's pass of the queues of a house, and what the thread has seen of each tenant's history.
#[derive(Drop)]
pub struct Post<'h, J: Naming> {
    pub(crate) house: &'h House<J>,
    pub(crate) pass: QueuePass,
    pub(crate) fronts: Vec<Front<J>>,
}

impl<'h, J: Naming> Model for Post<'h, J> {
    ghost use Rattle.server_house.specs.Posts.{PostSeen, IsPost};

    ghost Value = { PostSeen };

    ghost view = { λ p. record { house = p.house.now; pass = p.pass; fronts = p.fronts.items } };

    ghost invariant = { λ p. IsPost (record { house = p.house.now; pass = p.pass; fronts = p.fronts.items }) };
}

/// One session's pass, and its seat of each tenant.
pub struct Client<'h, J: Naming> {
    pub(crate) post: Post<'h, J>,
    pub(crate) seats: Vec<Seat>,
}

impl<'h, J: Naming> Drop for Client<'h, J> {
    // An owner drops it in one call, not part by part at each of its ways out.
    fn drop(self) {
        let Client {
            post: _post,
            seats: _seats,
        } = self;
    }
}

impl<'h, J: Naming> Model for Client<'h, J> {
    ghost use Rattle.server_house.specs.Posts.{ClientSeen, IsClient};

    ghost Value = { ClientSeen };

    ghost view = { λ c. record { post = c.post; seats = c.seats.items } };

    ghost invariant = { λ c. IsClient (record { post = c.post; seats = c.seats.items }) };
}

impl<'h, J: Naming> Posts<'h, J> {
    /// The posts of a house for whose queues the passes are.
    pub fn new(house: &'h House<J>, passes: Vec<QueuePass>) -> Self
        requires { ArePassesOf house.now.queues.queues passes.items }
        ensures { result ≡ record { house = house.now; passes = passes.items } }
    {
        Posts { house, passes }
    }

    /// A post of the house with its last pass, if one is left. An error takes nothing.
    pub fn next(&mut self, alloc: Global) -> Result<Option<Post<'h, J>>, AllocError>
        ensures house { self.new.house ≡ self.old.house }
        ensures none { IfOk result (λ made. IfNone made (self.old.passes ≡ [])) }
        ensures stay { IfOk result (λ made. IfNone made (self.new ≡ self.old)) }
        ensures post { IfOk result (λ made. IfSome made
            (λ post. post.house ≡ self.old.house)) }
        ensures pass { IfOk result (λ made. IfSome made
            (λ post. self.old.passes ≡ self.new.passes ++ post.pass ∷ [])) }
        ensures kept { IfErr result (λ _. self.new ≡ self.old) }
    {
        let fronts = self.house.fronts(alloc)?;
        Ok(self.next_with(fronts))
    }

    /// A post of the house with its last pass, if one is left, and with these fronts.
    fn next_with(&mut self, fronts: Vec<Front<J>>) -> Option<Post<'h, J>>
        requires { AreFronts self.old.house.doors fronts.items }
        ensures house { self.new.house ≡ self.old.house }
        ensures none { IfNone result (self.old.passes ≡ []) }
        ensures stay { IfNone result (self.new ≡ self.old) }
        ensures post { IfSome result (λ post. post.house ≡ self.old.house) }
        ensures pass { IfSome result (λ post. self.old.passes ≡ self.new.passes ++ post.pass ∷ []) }
    {
        let pass = self.passes.pop()?;
        Some(Post {
            house: self.house,
            pass,
            fronts,
        })
    }

    /// A post for a session, with a seat of each tenant. None if a pass or a seat is missing: no pass is taken then,
    /// and the seats of the tenants before the one that has none are lost. An error takes nothing.
    pub fn next_client(
        &mut self,
        alloc: Global,
        seats: &mut FreshSeats,
    ) -> Result<Option<Client<'h, J>>, AllocError>
        ensures house { self.new.house ≡ self.old.house }
        ensures post { IfOk result (λ made. IfSome made
            (λ client. client.post.house ≡ self.old.house)) }
        ensures pass { IfOk result (λ made. IfSome made
            (λ client. self.old.passes ≡ self.new.passes ++ client.post.pass ∷ [])) }
        ensures left { IfOk result (λ made. IfSome made
            (λ client. IsPermutation seats.old (client.seats ++ seats.new))) }
        ensures none { IfOk result (λ made. IfNone made
            ((self.old.passes ≡ []) ⊎ LacksOne (length self.old.house.doors) seats.old)) }
        ensures stay { IfOk result (λ made. IfNone made (self.new ≡ self.old)) }
        ensures kept { IfErr result (λ _. (self.new ≡ self.old) × (seats.new ≡ seats.old)) }
    {
        if self.passes.is_empty() {
            return Ok(None);
        }
        let house = self.house;
        let fronts = house.fronts(alloc)?;
        let Some(seats) = seats.take_each(alloc, house.doors.len())? else {
            return Ok(None);
        };
        let Some(post) = self.next_with(fronts) else {
            return Ok(None);
        };
        Ok(Some(Client { post, seats }))
    }
}

impl<'h, J: Naming> Client<'h, J> {
    /// The doors of a session that has asked nothing yet. If it waits, it stops once the flag is raised.
    pub fn into_doors<R: Wait>(
        self,
        rt: &'h R,
        stop: &'h StopFlag,
    ) -> SessionDoors<'h, 'h, J, R, Bell>
        ensures session { result ≡ first_session self.entry }
        ensures client { IsClient self.entry }
    {
        let Client { post, seats } = self;
        let Post {
            house,
            pass,
            fronts,
        } = post;
        let slots = HeldSlot::new(rt, house.doors.as_slice(), fronts, stop);
        let ringer = Ringer::new(rt, &house.bell, &house.queues, pass);
        SessionDoors::new(slots, ringer, house.names.as_slice(), seats)
    }

    /// The seats of a session that did not take place.
    pub fn into_seats(self) -> FreshSeats
        ensures { result ≡ self.entry.seats }
    {
        let Client { post: _post, seats } = self;
        FreshSeats::new(seats)
    }
}
