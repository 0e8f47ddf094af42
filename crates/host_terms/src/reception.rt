// The thread that accepts a host's connections, and looks after them.

use crate::desks::Desk;
use server_io::{Endpoint, Watch};
use std::alloc::Global;
use std::io;
use std::os::fd::AsRawFd;
use std::os::unix::net::UnixStream;
use std::sync::{Arc, Wait};
use std::time::Duration;
use tenant_book::Naming;
use term_life::{Overdue, Patience};

/// How long a wait takes at most, in milliseconds.
const TICK: u64 = 20;

/// How many connections the host has ended, by what they have not done in time.
#[derive(Clone, Copy, Debug, PartialEq, Eq)]
pub struct Cuts {
    /// They said no hello.
    pub hello: u64,
    /// They asked nothing.
    pub idle: u64,
}

/// What the thread that accepts has.
#[derive(Drop)]
pub struct Reception<'h, J: Naming> {
    watch: Watch,
    desks: &'h [Desk<J>],
    /// The number of the next connection.
    next: usize,
}

impl<'h, J: Naming> Reception<'h, J> {
    /// What accepts connections that the watch reports, for these desks.
    pub fn new(watch: Watch, desks: &'h [Desk<J>]) -> Self {
        Reception {
            watch,
            desks,
            next: 0,
        }
    }

    /// Accepts connections as long as some wait and desks are free, at that time of the monotonic clock, in
    /// milliseconds: how many. An error if one could not be accepted.
    pub fn admit<R: Wait>(
        &mut self,
        rt: &R,
        alloc: Global,
        endpoint: &Endpoint<'_>,
        now: u64,
    ) -> io::Result<u64> {
        let mut admitted = 0u64;
        for desk in self.desks {
            if desk.is_free(rt) {
                let Some(stream) = endpoint.accept()? else {
                    return Ok(admitted);
                };
                self.seat(rt, alloc, desk, stream, now)?;
                admitted = admitted.saturating_add(1);
            }
        }
        Ok(admitted)
    }

    /// Seats a client at a desk.
    fn seat<R: Wait>(
        &mut self,
        rt: &R,
        alloc: Global,
        desk: &Desk<J>,
        stream: UnixStream,
        now: u64,
    ) -> io::Result<()> {
        let stream = Arc::new(alloc, stream)?;
        let incoming = Arc::try_clone(&stream)?;
        self.watch.add(stream.as_raw_fd(), self.next)?;
        desk.seat(rt, self.next, now, stream, incoming);
        self.next = self.next.wrapping_add(1);
        Ok(())
    }

    /// Ends the connections that have done nothing for too long by that time of the monotonic clock, in milliseconds:
    /// how many.
    pub fn cut<R: Wait>(&self, rt: &R, now: u64, patience: Patience) -> Cuts {
        let mut cuts = Cuts { hello: 0, idle: 0 };
        for desk in self.desks {
            match desk.cut(rt, now, patience) {
                Some(Overdue::Hello) => cuts.hello = cuts.hello.saturating_add(1),
                Some(Overdue::Idle) => cuts.idle = cuts.idle.saturating_add(1),
                None => {}
            }
        }
        cuts
    }

    /// Accepts no more connections.
    pub fn leave(&self, endpoint: &Endpoint<'_>) {
        // If it fails, the thread is woken for connections that nobody accepts.
        let _ = self.watch.leave(endpoint);
    }

    /// Waits until something happens, for a tick at most. It says whether a guest has gone, whose session then is to
    /// stop waiting.
    pub fn attend<R: Wait>(&mut self, rt: &R) -> io::Result<bool> {
        self.watch.wait(Duration::from_millis(TICK))?;
        let mut has_gone = false;
        for desk in self.desks {
            has_gone |= desk.raise_gone(rt, &self.watch);
        }
        Ok(has_gone)
    }
}
