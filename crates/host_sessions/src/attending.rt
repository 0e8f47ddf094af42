// The thread of a desk.

use crate::sessions::HostDoors;
use crate::streams::{Incoming, Outgoing};
use host_terms::{Desk, Host};
use mio::Waker;
use session_core::serve;
use std::alloc::Global;
use std::io::{Read, Write};
use std::net::Shutdown;
use std::os::unix::net::UnixStream;
use std::sync::{Arc, Wait};
use std::time::Clock;
use tenant_book::Naming;

/// Serves the guests of a desk until no more come.
pub fn attend_desk<J: Naming, R: Wait + Clock>(
    rt: &R,
    alloc: Global,
    host: &Host<J>,
    desk: &Desk<J>,
    waker: &Waker,
) {
    for _guest in rt.forever() {
        let Some(stream) = desk.next_guest(rt) else {
            return;
        };
        // However it ended, the next guest may come.
        serve_guest(rt, alloc, host, desk, &stream);
        // The client may have gone before.
        let _ = stream.shutdown(Shutdown::Both);
        desk.free(rt);
        // If the waker fails, the next tick shows that the desk is free.
        let _ = waker.wake();
    }
}

/// Serves a guest until the connection ends, however it does. Without memory for its replies, it ends at once.
fn serve_guest<J: Naming, R: Wait + Clock>(
    rt: &R,
    alloc: Global,
    host: &Host<J>,
    desk: &Desk<J>,
    stream: &Arc<UnixStream>,
) {
    let Ok(sending) = Arc::try_clone(stream) else {
        return;
    };
    if desk.outbox().open(rt, alloc, sending).is_err() {
        return;
    }
    let mut incoming = Incoming {
        rt,
        alloc,
        desk,
        stream: &**stream,
    };
    let mut outgoing = Outgoing { rt, alloc, desk };
    serve_lines(rt, alloc, host, desk, &mut incoming, &mut outgoing);
    desk.outbox().close(rt);
}

/// Answers the lines of a reader at a desk, until that ends or fails, or the writer does.
fn serve_lines<S: Read, W: Write, J: Naming, R: Wait + Clock>(
    rt: &R,
    alloc: Global,
    host: &Host<J>,
    desk: &Desk<J>,
    reader: &mut S,
    writer: &mut W,
) {
    let mut doors = HostDoors::new(rt, alloc, host, desk);
    // However it ended, the client's connection ends.
    let _end = serve(alloc, reader, writer, &mut doors);
    // What was answered before goes out, if it can.
    let _sent = desk.let_out(rt, alloc);
    doors.leave();
}
