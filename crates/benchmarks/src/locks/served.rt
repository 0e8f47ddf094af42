// A session of a server beside two workers.
ghost use Rattle.server_house.specs.Shared.{ArePassesOf};

use crate::locks::closing::close_checked;
use crate::stops::Stop;
use call_queues::QueuePass;
use job_language::{Config, TenantConfig};
use server_house::{Client, FreshSeats, House, Opened, Post, Posts, serve_calls, serve_client};
use std::alloc::Global;
use std::sync::Wait;
use std::thread;
use std::thread::Threads;
use tenant_book::{Front, Naming, Registry};
use tenant_lock::StopFlag;
use tenant_record::Seat;
use worker_main::{Gate, Visiting};

/// How many workers there are.
const WORKERS: usize = 2;

/// What a session wrote, and how many entries its tenant's history has.
#[derive(Drop)]
pub(crate) struct Served {
    pub(crate) replies: Vec<u8>,
    pub(crate) entries: usize,
}

/// What a session wrote, and the seats that it gives back.
#[derive(Drop)]
struct Session<J: Naming> {
    replies: Vec<u8>,
    seats: Vec<Seat>,
    fronts: Vec<Front<J>>,
}

/// Lets a session of a house with one tenant answer these lines, beside two workers whose private runs the gate sees.
/// Then the tenant is closed, and its history taken again.
pub(crate) fn serve<J: Naming + Send + Sync, R: Threads + Wait + Sync, G: Gate + Sync>(
    rt: &R,
    alloc: Global,
    registry: &Registry<J>,
    tenant: TenantConfig,
    lines: &str,
    gate: &G,
) -> Result<Served, Stop> {
    let config = Config::new(vec![in alloc; tenant]?, WORKERS).ok_or(Stop::Invalid)?;
    let Opened {
        house,
        passes,
        seats,
    } = House::open(rt, alloc, registry, &config, 1)?;
    let served = serve_in(rt, alloc, &house, passes, seats, lines, gate);
    match served {
        Ok(
            Session {
                replies,
                seats,
                fronts,
            },
        ) => {
            let entries = close_checked(rt, alloc, tenant, house, seats, fronts.as_slice())?;
            Ok(Served { replies, entries })
        }
        Err(stop) => Err(stop),
    }
}

/// Serves the session, and lets the workers serve calls until it has ended.
fn serve_in<J: Naming + Send + Sync, R: Threads + Wait + Sync, G: Gate + Sync>(
    rt: &R,
    alloc: Global,
    house: &House<J>,
    passes: Vec<QueuePass>,
    seats: FreshSeats,
    lines: &str,
    gate: &G,
) -> Result<Session<J>, Stop>
    requires { ArePassesOf house.now.queues.queues passes.items }
{
    let mut seats = seats;
    let mut posts = Posts::new(house, passes);
    let client = posts.next_client(alloc, &mut seats)?.ok_or(Stop::Place)?;
    let first = posts.next(alloc)?.ok_or(Stop::Place)?;
    let second = posts.next(alloc)?.ok_or(Stop::Place)?;
    let (session, _served) = thread::join(
        rt,
        move || serve_lines(rt, alloc, house, client, lines),
        move || work_both(rt, house, first, second, gate),
    );
    Ok(session)
}

/// Serves the session, and tells the workers to stop.
fn serve_lines<J: Naming, R: Wait>(
    rt: &R,
    alloc: Global,
    house: &House<J>,
    client: Client<'_, J>,
    lines: &str,
) -> Session<J> {
    let mut reader = lines.as_bytes();
    let mut replies = Vec::new(alloc);
    let never = StopFlag::new();
    let (_end, seats, fronts) = serve_client(rt, alloc, client, &never, &mut reader, &mut replies);
    house.stop(rt);
    Session {
        replies,
        seats,
        fronts,
    }
}

/// Two workers serve calls until the house stops.
fn work_both<J: Naming + Send + Sync, R: Threads + Wait + Sync, G: Gate + Sync>(
    rt: &R,
    house: &House<J>,
    first: Post<'_, J>,
    second: Post<'_, J>,
    gate: &G,
) {
    let bell = house.bell();
    let _served = thread::join(
        rt,
        move || serve_calls(rt, first, bell, gate, Visiting::Staying),
        move || serve_calls(rt, second, bell, gate, Visiting::Staying),
    );
}
