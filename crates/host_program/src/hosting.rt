// The life of a host.
ghost use Rattle.std.specs.Thread.{IsSend};
ghost use Rattle.std.specs.Prelude.{◌≡◌, IfOk, length};

use crate::accepting::accept_all;
use host_filing::{
    Filing, Office, System, Writer, end_of, millis, read_config, recover_all, seconds,
    write_histories,
};
use host_folder::{Folder, remove_old_notes};
use host_keeping::{HostContext, Keeper, Progress, Shower, keep_journals};
use host_records::Outlet;
use host_sessions::attend_desk;
use host_status::Event;
use host_terms::{Desk, Host, Place, Reception};
use mio::Waker;
use program_words::HostWords;
use server_io::{Access, Endpoint, ServerEnd, ServerFault, Watch};
use std::alloc::{AllocError, Global};
use std::io::ErrorKind;
use std::marker::Brand;
use std::net::Shutdown;
use std::sync::Wait;
use std::sync::atomic::Ordering;
use std::thread;
use std::thread::{Scope, Threads};
use std::time::{Clock, Duration};
use tenant_book::{Naming, OpenedRegistry};

/// How long the thread that looks after terms waits between two rounds, in milliseconds.
const TICK: u64 = 10;

/// How long a client has to take a reply once its session is to stop, in milliseconds.
const LAST_REPLIES: u64 = 1000;

/// Hosts tenants in a folder until its socket is removed. An error if the host could not begin: there is no
/// configuration, the socket can't be bound, a term or a thread can't be started, or an allocation failed. The
/// histories of all terms are those of one registry.
pub(crate) fn host_tenants<'h, R: System>(
    rt: &R,
    alloc: Global,
    words: HostWords<'h>,
    folder: &'h Folder,
    outlet: &'h Outlet,
) -> Result<ServerEnd, ServerFault> {
    host_named::<Brand, R>(rt, alloc, OpenedRegistry::new(), words, folder, outlet)
}

/// Hosts tenants as `host_tenants` does, with that registry.
fn host_named<'h, J: Naming + Send + Sync, R: System>(
    rt: &R,
    alloc: Global,
    opened: OpenedRegistry,
    words: HostWords<'h>,
    folder: &'h Folder,
    outlet: &'h Outlet,
) -> Result<ServerEnd, ServerFault>
    requires { opened ≡ J.registry }
{
    let Ok(connections) = u8::try_from(words.connections) else {
        return Err(ServerFault::Words);
    };
    let config = read_config(rt, alloc, words.config)?;
    let mut shelves = folder.prepare(rt, words.keep)?;
    let host: Host<J> = Host::new(
        alloc,
        opened.named(),
        words.rotate_at,
        words.tenant_connections,
    );
    let desks = new_desks(alloc, connections)?;
    let places = new_places(alloc, config.workers())?;
    let progress = Progress::new();
    let context = HostContext {
        host: &host,
        desks: desks.as_slice(),
        places: places.as_slice(),
        office: Office {
            outlet,
            folder,
            words,
        },
        progress: &progress,
        began: seconds(rt),
        connections,
    };
    context.say(rt, alloc, Event::Start);
    recover_all(rt, alloc, context.office, &mut shelves)?;
    remove_old_notes(rt, folder, &shelves)?;
    let endpoint = Endpoint::bind(rt, alloc, folder.socket.as_str(), access_of(words))?;
    let mut keeper = Keeper::new(alloc, config.workers(), Filing::new(alloc, shelves));
    keeper.adopt(rt, alloc, context, &config)?;
    keeper.open_all(rt, alloc, context)?;
    let end = serve(rt, alloc, context, &endpoint, keeper);
    endpoint.remove(rt);
    end
}

/// Who may use the socket, by the words.
fn access_of(words: HostWords<'_>) -> Access {
    Access {
        mode: words.mode,
        group: words.group,
    }
}

/// Starts the threads of a host, and looks after its terms until it is told to stop and they are closed.
fn serve<'h, J: Naming + Send + Sync, R: System>(
    rt: &R,
    alloc: Global,
    context: HostContext<'h, J>,
    endpoint: &Endpoint<'_>,
    keeper: Keeper<J>,
) -> Result<ServerEnd, ServerFault> {
    let (watch, waker) = match Watch::new(rt, alloc, endpoint, context.connections) {
        Ok(made) => made,
        Err(fault) if fault.kind() == ErrorKind::OutOfMemory => return Err(ServerFault::Memory),
        Err(_) => return Err(ServerFault::Device),
    };
    // Whoever waits for it must not wait in vain: without memory for it the host does not start.
    let listening = String::from_str(alloc, "listening")?;
    let writer = Writer::new();
    let (writes, wakes) = (&writer, &waker);
    thread::scope(
        thread::scope_env(),
        rt,
        move |scope|
            requires { IsSend J.row }
        {
            let started = start_threads(scope, rt, alloc, context, wakes);
            let accepting = Reception::new(watch, context.desks);
            let is_writing = scope
                .spawn(move || write_histories(rt, alloc, writes))
                .is_ok();
            let is_journaling = scope
                .spawn(move || keep_journals(rt, alloc, context))
                .is_ok();
            let is_accepting = scope
                .spawn(move || accept_all(rt, alloc, context, endpoint, accepting))
                .is_ok();
            let end = if started && is_writing && is_journaling && is_accepting {
                keep_hosting(rt, alloc, context, endpoint, keeper, writes, listening)
            } else {
                Err(ServerFault::Device)
            };
            end_threads(rt, context, writes);
            end
        },
    )
}

/// Starts a thread for each desk and each worker. It says whether all were started.
fn start_threads<
    's,
    'r: 's,
    'h: 's,
    'w: 's,
    J: Naming + Send + Sync,
    E: 's,
    R: Threads + Wait + Clock + Sync,
>(
    scope: &Scope<'s, E>,
    rt: &'r R,
    alloc: Global,
    context: HostContext<'h, J>,
    waker: &'w Waker,
) -> bool {
    for desk in context.desks {
        let session = move || attend_desk(rt, alloc, context.host, desk, waker);
        if scope.spawn(session).is_err() {
            return false;
        }
    }
    for place in context.places {
        let work = move || context.host.work(rt, place);
        if scope.spawn(work).is_err() {
            return false;
        }
    }
    true
}

/// Lets all threads end.
fn end_threads<J: Naming, R: Wait>(rt: &R, context: HostContext<'_, J>, writer: &Writer) {
    close_desks(rt, context);
    context.host.stop_workers(rt);
    context.progress.is_stopping.store(true, Ordering::SeqCst);
    context.progress.is_over.store(true, Ordering::SeqCst);
    writer.close(rt);
}

/// Prints that line, looks after terms until the socket is removed, and then closes them all.
fn keep_hosting<J: Naming + Send + Sync, R: System>(
    rt: &R,
    alloc: Global,
    context: HostContext<'_, J>,
    endpoint: &Endpoint<'_>,
    keeper: Keeper<J>,
    writer: &Writer,
    listening: String,
) -> Result<ServerEnd, ServerFault> {
    let mut keeper = keeper;
    let mut shower = Shower::new();
    shower.show_now(rt, alloc, context, &keeper);
    context.office.outlet.print(rt, Some(listening));
    for _turn in rt.forever() {
        if !endpoint.is_there(rt) {
            break;
        }
        keeper.look_for_orders(rt, alloc, context);
        keeper.tend_all(rt, alloc, context, writer);
        shower.show(rt, alloc, context, &keeper);
        thread::sleep(rt, Duration::from_millis(TICK));
    }
    context.say(rt, alloc, Event::Stop);
    finish(rt, alloc, context, &mut keeper, writer);
    shower.show_now(rt, alloc, context, &keeper);
    end_of(keeper.filing().faults())
}

/// Ends all terms: jobs that are there may get their outcomes, for so many seconds; then nothing waits any longer.
fn finish<J: Naming + Send + Sync, R: System>(
    rt: &R,
    alloc: Global,
    context: HostContext<'_, J>,
    keeper: &mut Keeper<J>,
    writer: &Writer,
) {
    context.progress.is_stopping.store(true, Ordering::SeqCst);
    shut_desks(rt, context, Shutdown::Read);
    keeper.leave_all(rt, context);
    let most = u64::from(context.office.words.finish).saturating_mul(1000);
    let until = millis(rt).saturating_add(most);
    for _turn in rt.forever() {
        keeper.close_terms(rt, alloc, context, writer, false);
        if keeper.is_over(rt, context, writer) || millis(rt) >= until {
            break;
        }
        thread::sleep(rt, Duration::from_millis(TICK));
    }
    context.host.stop_waits(rt);
    wait_for_sessions(rt, context);
    close_desks(rt, context);
    context.host.stop_workers(rt);
    for _turn in rt.forever() {
        keeper.close_terms(rt, alloc, context, writer, true);
        if keeper.is_over(rt, context, writer) {
            break;
        }
        thread::sleep(rt, Duration::from_millis(TICK));
    }
}

/// Waits until all sessions have ended. Those that have not after a while are cut off.
fn wait_for_sessions<J: Naming, R: Wait + Clock>(rt: &R, context: HostContext<'_, J>) {
    let until = millis(rt).saturating_add(LAST_REPLIES);
    for _turn in rt.forever() {
        if context.connected(rt) == 0 {
            return;
        }
        if millis(rt) >= until {
            shut_desks(rt, context, Shutdown::Both);
        }
        thread::sleep(rt, Duration::from_millis(TICK));
    }
}

fn shut_desks<J: Naming, R: Wait>(rt: &R, context: HostContext<'_, J>, how: Shutdown) {
    for desk in context.desks {
        desk.shut(rt, how);
    }
}

fn close_desks<J: Naming, R: Wait>(rt: &R, context: HostContext<'_, J>) {
    for desk in context.desks {
        desk.close(rt);
    }
}

/// A desk for each connection that is served at a time.
fn new_desks<J: Naming>(alloc: Global, connections: u8) -> Result<Vec<Desk<J>>, AllocError>
    ensures { IfOk result (λ desks. length desks.items ≡ connections) }
{
    let mut desks = Vec::with_capacity(alloc, usize::from(connections))?;
    for _connection in 0..connections {
        desks.push(Desk::new())?;
    }
    Ok(desks)
}

/// A place for each worker.
fn new_places(alloc: Global, workers: usize) -> Result<Vec<Place>, AllocError>
    ensures { IfOk result (λ places. length places.items ≡ workers) }
{
    let mut places = Vec::with_capacity(alloc, workers)?;
    for _worker in 0..workers {
        places.push(Place::new())?;
    }
    Ok(places)
}
