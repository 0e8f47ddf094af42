// All threads of a server.
ghost use Rattle.std.specs.Prelude.{◌≡◌, ◌⊎◌, true, false, All, IfErr, IfOk, IsSome, None};
ghost use Rattle.server_io.specs.declared.ends.ServerFault.TheVariants.{Device, Memory};
ghost use Rattle.std.specs.Thread.{IsSend};
ghost use Rattle.server_house.specs.Returned.{IsGivenBack};
ghost use Rattle.server_house.specs.Shared.{ArePassesOf};

use crate::connections::Connection;
use crate::reception::{Admitted, Reception};
use call_queues::QueuePass;
use mio::Waker;
use server_house::{Client, FreshSeats, House, Posts, Returned, serve_calls, serve_client};
use server_io::{Endpoint, ServerFault, Watch};
use std::alloc::Global;
use std::fs::Files;
use std::io::ErrorKind;
use std::net::Net;
use std::sync::{Mutex, Wait};
use std::thread::{Scope, Threads};
use std::{io, thread};
use tenant_book::Naming;
use worker_main::{NoGate, Visiting};

/// How the connections of a server ended.
#[derive(Drop)]
pub struct Served<J: Naming> {
    /// The seats that came back from the sessions, with what they had seen, and those that no session took.
    pub returned: Returned<J>,
    /// The first fault: `listening` could not be printed, a connection could not be accepted or have its thread, or a
    /// seat was lost for lack of memory.
    pub fault: Option<ServerFault>,
}

impl<J: Naming> Served<J> {
    /// The end after that fault. Without one it is a fault that a seat was lost.
    fn new(returned: Returned<J>, fault: Option<ServerFault>) -> Served<J>
        ensures first { IsSome fault → result.fault ≡ fault }
        ensures none { fault ≡ None → returned.is_short ≡ false → result.fault ≡ None }
        ensures given_back { All (IsGivenBack result.returned.fronts) result.returned.seats }
        ensures lost { result.returned.is_short ≡ true → IsSome result.fault }
    {
        let is_short = returned.is_short();
        let fault = match fault {
            None if is_short => Some(ServerFault::Memory),
            first => first,
        };
        Served { returned, fault }
    }
}

/// Starts a thread for each of `workers` workers, prints `listening`, accepts `connections` connections,
/// and serves each by a thread of its own. When all sessions have ended it tells the workers to stop,
/// and waits for them. A session whose client has gone waits for nothing more. When the socket's file is gone, no
/// more connections are accepted, nothing waits any more, and each session ends once it has answered the lines that
/// it has. `Device` if a worker can't be started or the socket can't be watched, and `Memory` if an allocation
/// fails first: nothing was printed, and nobody served.
pub fn serve_connections<J: Naming + Send + Sync, R: Threads + Wait + Files + Net + Sync + Print>(
    rt: &R,
    alloc: Global,
    house: &House<J>,
    passes: Vec<QueuePass>,
    seats: FreshSeats,
    endpoint: &Endpoint<'_>,
    workers: usize,
    connections: u8,
) -> Result<Served<J>, ServerFault>
    requires { ArePassesOf house.now.queues.queues passes.items }
    ensures fault { IfErr result (λ end. (end ≡ Device) ⊎ (end ≡ Memory)) }
    ensures given_back { IfOk result (λ served. All (IsGivenBack served.returned.fronts) served.returned.seats) }
    ensures lost { IfOk result (λ served. served.returned.is_short ≡ true → IsSome served.fault) }
{
    let posts = Posts::new(house, passes);
    let returned = Mutex::new(Returned::with_room(alloc, seats.len())?);
    let waiting = Mutex::new(Vec::with_capacity(alloc, usize::from(connections))?);
    let (watch, waker) = Watch::new(rt, alloc, endpoint, connections).map_err(
        ServerFault::of_system,
    )?;
    let back = &returned;
    let served = thread::scope(
        thread::scope_env(),
        rt,
        move |scope|
            requires { IsSend J.row }
        {
            let posts = match start_workers(scope, rt, alloc, house, posts, workers) {
                Ok(rest) => rest,
                Err(fault) => {
                    house.stop(rt);
                    return Err(fault);
                }
            };
            let reception = Reception::new(alloc, posts, seats, watch, connections);
            Ok(receive(rt, alloc, house, reception, endpoint, waiting, back, &waker))
        },
    );
    let fault = served.map_err(ServerFault::of_system)?;
    Ok(Served::new(returned.into_inner(), fault))
}

/// Prints `listening`, accepts connections, and stops the house once their sessions have ended: the first fault.
fn receive<'h, J: Naming + Send + Sync, R: Threads + Wait + Files + Sync + Print>(
    rt: &R,
    alloc: Global,
    house: &House<J>,
    reception: Reception<'h, J>,
    endpoint: &Endpoint<'_>,
    waiting: Mutex<Vec<Client<'h, J>>>,
    back: &Mutex<Returned<J>>,
    waker: &Waker,
) -> Option<ServerFault> {
    let mut reception = reception;
    if println!(rt; "listening").is_err() {
        reception.note(ServerFault::Device);
    }
    let fault = accept_all(rt, alloc, house, reception, endpoint, waiting, back, waker);
    house.stop(rt);
    fault
}

/// Starts a thread for each of `workers` workers, as long as there is a pass for it, and gives back the passes that are
/// left. `OutOfMemory` if there is no room for what a worker sees, or the fault of the thread that can't be started:
/// the workers that were started go on.
fn start_workers<'s, 'r: 's, 'h: 's, J: Naming + Send + Sync, E: 's, R: Threads + Wait + Sync>(
    scope: &Scope<'s, E>,
    rt: &'r R,
    alloc: Global,
    house: &'h House<J>,
    posts: Posts<'h, J>,
    workers: usize,
) -> io::Result<Posts<'h, J>> {
    let mut posts = posts;
    for _worker in 0..workers {
        let post = match posts.next(alloc) {
            Ok(Some(post)) => post,
            Ok(None) => break,
            Err(_) => return Err(io::Error::from(ErrorKind::OutOfMemory)),
        };
        scope.spawn(move || serve_calls(rt, post, house.bell(), &NoGate, Visiting::Staying))?;
    }
    Ok(posts)
}

/// Accepts connections, waits until their sessions have ended, and gives the first fault. The seats that no session
/// took come back too.
fn accept_all<'h, J: Naming + Send + Sync, R: Threads + Wait + Files + Sync>(
    rt: &R,
    alloc: Global,
    house: &House<J>,
    reception: Reception<'h, J>,
    endpoint: &Endpoint<'_>,
    waiting: Mutex<Vec<Client<'h, J>>>,
    back: &Mutex<Returned<J>>,
    waker: &Waker,
) -> Option<ServerFault> {
    let desk = &waiting;
    let fault = thread::scope(thread::scope_env(), rt, move |scope| {
        let mut reception = reception;
        for _turn in rt.forever() {
            for _connection in 0..reception.left() {
                let Some(Admitted { client, connection }) = reception.admit(alloc, endpoint) else {
                    break;
                };
                // A thread takes it from here, so its seats are not lost if no thread can be started.
                if let Err(fault) = let_wait(rt, desk, back, client) {
                    reception.lose_last(fault);
                    break;
                }
                let session = move || serve_waiting(rt, alloc, desk, &connection, back, waker);
                if scope.spawn(session).is_err() {
                    reception.lose_last(ServerFault::Device);
                }
            }
            if reception.is_over() {
                break;
            }
            reception.attend(rt, house, endpoint);
        }
        let (seats, fault) = reception.into_rest();
        back.lock(rt).keep_fresh(seats);
        fault
    });
    give_back(rt, waiting.into_inner(), back);
    fault
}

/// Gives back the seats of the clients that no thread took.
fn give_back<J: Naming, R: Wait>(rt: &R, left: Vec<Client<'_, J>>, back: &Mutex<Returned<J>>) {
    for client in left {
        back.lock(rt).keep_fresh(client.into_seats());
    }
}

/// Lets a client wait for its thread. `Memory` if there is no room for it; its seats come back then.
fn let_wait<'h, J: Naming, R: Wait>(
    rt: &R,
    desk: &Mutex<Vec<Client<'h, J>>>,
    back: &Mutex<Returned<J>>,
    client: Client<'h, J>,
) -> Result<(), ServerFault> {
    match put(rt, desk, client) {
        None => Ok(()),
        Some(refused) => {
            back.lock(rt).keep_fresh(refused.into_seats());
            Err(ServerFault::Memory)
        }
    }
}

/// Puts a client with those that wait. It comes back if there is no room for it.
fn put<'h, J: Naming, R: Wait>(
    rt: &R,
    desk: &Mutex<Vec<Client<'h, J>>>,
    client: Client<'h, J>,
) -> Option<Client<'h, J>> {
    let refused = desk.lock(rt).push(client).err()?;
    Some(refused.value)
}

/// Serves a client that waits, and keeps its seats.
fn serve_waiting<J: Naming, R: Wait>(
    rt: &R,
    alloc: Global,
    desk: &Mutex<Vec<Client<'_, J>>>,
    connection: &Connection,
    back: &Mutex<Returned<J>>,
    waker: &Waker,
) {
    let client = desk.lock(rt).pop();
    if let Some(client) = client {
        let stream = &connection.stream;
        // However it ended, its seats come back, and the connection ends.
        let (_end, seats, fronts) = serve_client(
            rt,
            alloc,
            client,
            &connection.is_gone,
            &mut &*stream,
            &mut &*stream,
        );
        back.lock(rt).keep(seats, fronts);
    }
    connection.end();
    // If the waker fails, the next tick shows that the session has ended.
    let _ = waker.wake();
}
