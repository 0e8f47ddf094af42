// Waiting for connections, for clients that go, and for sessions that end.
ghost use Rattle.std.specs.Prelude.{◌≡◌, ◌<◌, ◌≤◌, ◌+◌, ◌-◌, None, Some};

use crate::endpoint::Endpoint;
use mio::unix::SourceFd;
use mio::{Events, Interest, Poll, Token, Waker};
use std::alloc::Global;
use std::io;
use std::net::Net;
use std::os::fd::{AsRawFd, RawFd};
use std::time::Duration;

/// The listener's token. Connections have those from 2 on, by their numbers.
const LISTENER: usize = 0;

const WAKER: usize = 1;

const FIRST_CONNECTION: usize = 2;

/// What the system reports of a server's sockets. Each connection that is watched has a number of its own.
#[derive(Drop)]
pub struct Watch {
    poll: Poll,
    events: Events<Global>,
}

impl Watch {
    /// Watches an endpoint for connections. The waker ends a wait from another thread.
    pub fn new<R: Net>(
        rt: &R,
        alloc: Global,
        endpoint: &Endpoint<'_>,
        connections: u8,
    ) -> io::Result<(Watch, Waker)> {
        let events = Events::with_capacity(alloc, usize::from(connections) + FIRST_CONNECTION)?;
        let poll = Poll::new(rt)?;
        let fd = endpoint.listener.as_raw_fd();
        poll.registry()
            .register(&mut SourceFd(&fd), Token(LISTENER), Interest::READABLE)?;
        let waker = Waker::new(poll.registry(), Token(WAKER))?;
        Ok((Watch { poll, events }, waker))
    }

    /// Watches an endpoint for connections no more.
    pub fn leave(&self, endpoint: &Endpoint<'_>) -> io::Result<()> {
        let fd = endpoint.listener.as_raw_fd();
        self.poll.registry().deregister(&mut SourceFd(&fd))
    }

    /// Watches a connection, by its number, for its client's going.
    pub fn add(&self, fd: RawFd, number: usize) -> io::Result<()> {
        // A hang-up is reported whatever one is interested in, and nothing else is to wake.
        self.poll.registry().register(
            &mut SourceFd(&fd),
            Token(token_of(number)),
            Interest::PRIORITY,
        )
    }

    /// Waits until something is reported, or for that long.
    pub fn wait(&mut self, most: Duration) -> io::Result<()> {
        self.poll.poll(&mut self.events, Some(most))
    }

    /// Whether the last wait ended with nothing reported.
    pub fn was_quiet(&self) -> bool {
        self.events.is_empty()
    }

    /// Whether the last wait reported that the client of the connection of that number has gone.
    pub fn has_gone(&self, number: usize) -> bool {
        self.events.iter().any(|event| number_of(event.token().0) == Some(number)
            && event.is_write_closed())
    }
}

/// The token of the connection of that number.
fn token_of(number: usize) -> usize
    ensures { number ≤ usize.MAX - 2 → result ≡ number + 2 }
{
    FIRST_CONNECTION.saturating_add(number)
}

/// The number of the connection that has a token. The first two are nobody's.
fn number_of(token: usize) -> Option<usize>
    ensures none { token < 2 → result ≡ None }
    ensures number { 2 ≤ token → result ≡ Some (token - 2) }
{
    token.checked_sub(FIRST_CONNECTION)
}
