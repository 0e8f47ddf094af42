// How a house is opened with the places of all threads that come to it.
ghost use Rattle.std.specs.Prelude.{◌≡◌, ◌≤◌, ◌<◌, [], IfNone, IfOk, IfSome, length};
ghost use Rattle.std.specs.Arc.{arc_value};
ghost use Rattle.server_house.specs.Houses.{AreDoorsOf};

use super::{OwnClient, OwnPost};
use crate::fresh::FreshSeats;
use crate::house::{House, Opened};
use call_queues::QueuePass;
use job_language::Config;
use std::alloc::{AllocError, Global};
use std::marker::Model;
use std::sync::{Arc, Wait};
use tenant_book::{Naming, Registry};

/// The passes of a house's queues that no thread has yet, with a handle on the house.
#[derive(Drop)]
struct OwnPosts<J: Naming> {
    house: Arc<House<J>>,
    passes: Vec<QueuePass>,
}

impl<J: Naming> Model for OwnPosts<J> {
    ghost use Rattle.std.specs.Arc.{arc_value};
    ghost use Rattle.server_house.specs.Posts.{PostsSeen, IsPosts};

    ghost Value = { PostsSeen };

    ghost view = { λ p. record { house = arc_value p.house; passes = p.passes.items } };

    ghost invariant = { λ p. IsPosts
        (record { house = arc_value p.house; passes = p.passes.items }) };
}

impl<J: Naming> OwnPosts<J> {
    /// A post of the house with its last pass, if one is left.
    fn next(&mut self, alloc: Global) -> Result<Option<OwnPost<J>>, AllocError>
        ensures house { self.new.house ≡ self.old.house }
        ensures post { IfOk result (λ made. IfSome made (λ post. post.house ≡ self.old.house)) }
        ensures none { IfOk result (λ made. IfNone made (self.new.passes ≡ [])) }
    {
        let house = Arc::try_clone(&self.house)?;
        let fronts = house.fronts(alloc)?;
        match self.passes.pop() {
            Some(pass) => {
                let post = OwnPost {
                    house,
                    pass,
                    fronts,
                };
                Ok(Some(post))
            }
            None => Ok(None),
        }
    }

    /// The next posts, `count` of them if that many are left, and else all.
    fn next_posts(&mut self, alloc: Global, count: usize) -> Result<Vec<OwnPost<J>>, AllocError>
        ensures house { self.new.house ≡ self.old.house }
        ensures most { IfOk result (λ posts. length posts.items ≤ count) }
        ensures all { IfOk result (λ posts. length posts.items < count → self.new.passes ≡ []) }
    {
        let mut posts = Vec::with_capacity(alloc, count)?;
        for _post in 0..count {
            let Some(post) = self.next(alloc)? else {
                return Ok(posts);
            };
            posts.push(post)?;
        }
        Ok(posts)
    }

    /// The places of `count` sessions, each with a seat of each tenant. None if a pass or a seat is missing.
    fn next_clients(
        &mut self,
        alloc: Global,
        seats: &mut FreshSeats,
        count: usize,
    ) -> Result<Option<Vec<OwnClient<J>>>, AllocError>
        ensures house { self.new.house ≡ self.old.house }
        ensures count { IfOk result
            (λ made. IfSome made (λ clients. length clients.items ≡ count)) }
    {
        let mut clients = Vec::with_capacity(alloc, count)?;
        for _session in 0..count {
            let Some(client) = self.next_client(alloc, seats)? else {
                return Ok(None);
            };
            clients.push(client)?;
        }
        Ok(Some(clients))
    }

    /// The place of a session, with a seat of each tenant. None if a pass or a seat is missing.
    fn next_client(
        &mut self,
        alloc: Global,
        seats: &mut FreshSeats,
    ) -> Result<Option<OwnClient<J>>, AllocError>
        ensures house { self.new.house ≡ self.old.house }
    {
        let Some(post) = self.next(alloc)? else {
            return Ok(None);
        };
        let tenants = post.house.doors.len();
        match seats.take_each(alloc, tenants)? {
            Some(seats) => Ok(Some(OwnClient::new(post, seats))),
            None => Ok(None),
        }
    }
}

/// A house with the places of all threads that come to it.
#[derive(Drop)]
pub struct Lodging<J: Naming> {
    pub house: Arc<House<J>>,
    /// One for each worker.
    pub posts: Vec<OwnPost<J>>,
    /// One for each session.
    pub clients: Vec<OwnClient<J>>,
}

impl<J: Naming> Lodging<J> {
    /// The house of a configuration's tenants, which have done nothing yet, for its workers and so many sessions. None
    /// if a pass or a seat is missing.
    pub fn open<R: Wait>(
        rt: &R,
        alloc: Global,
        registry: &Registry<J>,
        config: &Config,
        sessions: u8,
    ) -> Result<Option<Lodging<J>>, AllocError>
        requires { 1 ≤ sessions }
        ensures doors { IfOk result (λ made. IfSome made (λ lodging.
            AreDoorsOf sessions config.now.tenants (arc_value lodging.house).doors)) }
        ensures most { IfOk result (λ made. IfSome made
            (λ lodging. length lodging.posts.items ≤ config.now.workers)) }
        ensures count { IfOk result (λ made. IfSome made
            (λ lodging. length lodging.clients.items ≡ sessions)) }
    {
        let Opened {
            house,
            passes,
            seats,
        } = House::open(rt, alloc, registry, config, sessions)?;
        let mut seats = seats;
        let mut own = OwnPosts {
            house: Arc::new(alloc, house)?,
            passes,
        };
        let posts = own.next_posts(alloc, config.workers())?;
        let Some(clients) = own.next_clients(alloc, &mut seats, usize::from(sessions))? else {
            return Ok(None);
        };
        let OwnPosts {
            house,
            passes: _passes,
        } = own;
        Ok(Some(Lodging {
            house,
            posts,
            clients,
        }))
    }
}
