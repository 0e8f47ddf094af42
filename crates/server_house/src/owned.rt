// Places in a house whose threads come and go: each keeps the house alive.
ghost use Rattle.std.specs.Prelude.{◌≡◌, ◌≢◌, All, Some, false, true};
ghost use Rattle.std.specs.Arc.{arc_value};
ghost use Rattle.server_house.specs.Houses.{first_life, first_name};
ghost use Rattle.server_doors.specs.Slots.{AreFronts};
ghost use Rattle.server_house.specs.Owned.{IsGivenBackByClient, ServesThere, client_of, post_of};
ghost use Rattle.server_house.specs.Posts.{IsClient};
ghost use Rattle.worker_main.specs.Visits.{told};

mod asking;
mod lodging;

use crate::house::House;
use call_queues::QueuePass;
use job_language::{Reply, TenantName};
pub use lodging::Lodging;
use nested_wait::Attended;
use server_doors::HeldSlot;
use std::marker::Model;
use std::sync::{Arc, Wait};
use tenant_book::{Front, Naming};
use tenant_lock::StopFlag;
use tenant_record::Seat;
use worker_main::{Gate, Signal, Visiting, serve_call};

/// A pass of the queues of a house, by which a worker serves one call at a time.
#[derive(Drop)]
pub struct OwnPost<J: Naming> {
    house: Arc<House<J>>,
    pass: QueuePass,
    fronts: Vec<Front<J>>,
}

impl<J: Naming> Model for OwnPost<J> {
    ghost use Rattle.std.specs.Arc.{arc_value};
    ghost use Rattle.server_house.specs.Posts.{PostSeen, IsPost};

    ghost Value = { PostSeen };

    ghost view = { λ p. record { house = arc_value p.house; pass = p.pass; fronts = p.fronts.items } };

    ghost invariant = { λ p. IsPost (record { house = arc_value p.house; pass = p.pass; fronts = p.fronts.items }) };
}

impl<J: Naming> OwnPost<J> {
    /// Serves the first call, as a worker that visits slots in that way, and says whether there was one. The gate sees
    /// each private run.
    pub fn serve_call<R: Wait, S: Signal, G: Gate>(
        self,
        rt: &R,
        signal: &S,
        gate: &G,
        visiting: Visiting,
    ) -> (OwnPost<J>, bool)
        ensures house { result.0.house ≡ self.house }
        ensures serves { ServesThere visiting (told (S.stops signal.now) (S.looked signal.now))
            result.1 self result.0 }
    {
        let OwnPost {
            house,
            pass,
            fronts,
        } = self;
        let (pass, fronts, is_called) = serve_there(
            rt, &house, pass, fronts, signal, gate, visiting,
        );
        let post = OwnPost {
            house,
            pass,
            fronts,
        };
        (post, is_called)
    }
}

/// Serves the first call at the slots of a house by a pass of its queues, which comes back, and says whether there was
/// one.
fn serve_there<J: Naming, R: Wait, S: Signal, G: Gate>(
    rt: &R,
    house: &House<J>,
    pass: QueuePass,
    fronts: Vec<Front<J>>,
    signal: &S,
    gate: &G,
    visiting: Visiting,
) -> (QueuePass, Vec<Front<J>>, bool)
    requires pass { pass.queues ≡ house.now.queues.queues }
    requires fronts { AreFronts house.now.doors fronts.items }
    ensures queues { result.0.queues ≡ house.now.queues.queues }
    ensures fronts { AreFronts house.now.doors result.1.items }
    ensures serves { ServesThere visiting (told (S.stops signal.now) (S.looked signal.now)) result.2
        (post_of house.now pass fronts.items) (post_of house.now result.0 result.1.items) }
{
    // A worker stops with the house.
    let never = StopFlag::new();
    let slots = HeldSlot::new(rt, house.doors.as_slice(), fronts, &never);
    let (pass, slots, is_called) = serve_call(
        rt,
        &house.queues,
        pass,
        slots,
        signal,
        gate,
        visiting,
    );
    let fronts = slots.end();
    (pass, fronts, is_called)
}

/// What an ask was answered.
#[derive(Clone, Copy, Debug, PartialEq, Eq)]
pub struct Told {
    pub reply: Reply,
    /// If the job was placed on a slot, how attending the slot ended.
    pub attended: Option<Attended>,
}

/// A pass of the queues of a house, and a seat of each of its tenants, by which a session asks.
pub struct OwnClient<J: Naming> {
    house: Arc<House<J>>,
    pass: QueuePass,
    fronts: Vec<Front<J>>,
    seats: Vec<Seat>,
}

impl<J: Naming> Drop for OwnClient<J> {
    // An owner drops it in one call, not part by part at each of its ways out.
    fn drop(self) {
        let OwnClient {
            house: _house,
            pass: _pass,
            fronts: _fronts,
            seats: _seats,
        } = self;
    }
}

impl<J: Naming> Model for OwnClient<J> {
    ghost use Rattle.std.specs.Arc.{arc_value};
    ghost use Rattle.server_house.specs.Posts.{ClientSeen};
    ghost use Rattle.server_house.specs.Owned.{IsOwnClient, client_of};

    ghost Value = { ClientSeen };

    ghost view = { λ c. client_of (arc_value c.house) c.pass c.fronts.items c.seats.items };

    ghost invariant = { λ c. IsOwnClient
        (client_of (arc_value c.house) c.pass c.fronts.items c.seats.items) };
}

impl<J: Naming> OwnClient<J> {
    /// The place of a session that has asked nothing yet.
    fn new(post: OwnPost<J>, seats: Vec<Seat>) -> OwnClient<J>
        requires { IsClient (record { post = post; seats = seats.items }) }
    {
        let OwnPost {
            house,
            pass,
            fronts,
        } = post;
        OwnClient {
            house,
            pass,
            fronts,
            seats,
        }
    }

    /// The number of the life of the house's first tenant, which is the one that is asked.
    pub fn life(&self) -> Option<usize>
        ensures { result ≡ first_life self.now.post.house.doors }
    {
        self.house.first_life()
    }

    /// Whether the house's first tenant has that name.
    pub fn is_of(&self, name: TenantName) -> bool
        ensures own { result ≡ true → first_name self.now.post.house.doors ≡ Some name }
        ensures other { result ≡ false → first_name self.now.post.house.doors ≢ Some name }
    {
        self.house.is_of(name)
    }

    /// The seats, with what they noted of the asks.
    pub fn into_seats(self) -> Vec<Seat>
        ensures value { result.items ≡ self.seats }
        ensures given_back { All IsGivenBackByClient result.items }
    {
        let OwnClient {
            house: _house,
            pass: _pass,
            fronts: _fronts,
            seats,
        } = self;
        seats
    }
}
