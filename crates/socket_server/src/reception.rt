// The thread that accepts connections, and looks after them until their sessions have ended.
ghost use Rattle.std.specs.Prelude.{◌≡◌, ◌⊎◌, ◌+◌, ◌-◌, true, false, IsSome, None, Some};

use crate::connections::Connection;
use server_house::{Client, FreshSeats, House, Posts};
use server_io::{Endpoint, ServerFault, Watch};
use std::alloc::{AllocError, Global};
use std::fs::Files;
use std::os::unix::net::UnixStream;
use std::sync::{Arc, Wait};
use std::time::Duration;
use tenant_book::Naming;

/// How long a wait takes at most, in milliseconds. What is looked at after each, such as whether the socket's file is
/// still there, is seen within that time.
const TICK: u64 = 250;

/// How many quiet ticks a client has to take a reply once the server stops.
const PATIENCE: u8 = 4;

/// A connection that was accepted, for its session's thread.
#[derive(Drop)]
pub(crate) struct Admitted<'h, J: Naming> {
    pub(crate) client: Client<'h, J>,
    pub(crate) connection: Arc<Connection>,
}

/// What the thread that accepts has: the posts and seats that no session took, and the connections so far.
#[derive(Drop)]
pub(crate) struct Reception<'h, J: Naming> {
    posts: Posts<'h, J>,
    seats: FreshSeats,
    watch: Watch,
    accepted: Vec<Arc<Connection>>,
    /// How many connections are still to be accepted.
    left: u8,
    /// The first fault.
    fault: Option<ServerFault>,
    /// Once the server stops: how many quiet ticks are left until it cuts the connections off.
    patience: Option<u8>,
}

impl<'h, J: Naming> Reception<'h, J> {
    pub(crate) fn new(
        alloc: Global,
        posts: Posts<'h, J>,
        seats: FreshSeats,
        watch: Watch,
        connections: u8,
    ) -> Self
        ensures left { result.left ≡ connections }
        ensures fault { result.fault ≡ None }
        ensures patience { result.patience ≡ None }
    {
        Reception {
            posts,
            seats,
            watch,
            accepted: Vec::new(alloc),
            left: connections,
            fault: None,
            patience: None,
        }
    }

    /// How many connections are still to be accepted.
    pub(crate) fn left(&self) -> u8
        ensures { result ≡ self.now.left }
    {
        self.left
    }

    /// Accepts a connection, if one waits and one is still to be accepted.
    pub(crate) fn admit(
        &mut self,
        alloc: Global,
        endpoint: &Endpoint<'_>,
    ) -> Option<Admitted<'h, J>>
        ensures admitted { IsSome result → self.new.left + 1 ≡ self.old.left }
        ensures goes_on { IsSome result → self.new.fault ≡ self.old.fault }
        ensures stays { result ≡ None → (self.new.left ≡ self.old.left) ⊎ (self.new.left ≡ 0 × IsSome self.new.fault) }
    {
        let left = self.left.checked_sub(1)?;
        let Ok(accepted) = endpoint.accept() else {
            self.fail(ServerFault::Device);
            return None;
        };
        match self.admit_stream(alloc, accepted?) {
            Ok(Some(admitted)) => {
                self.left = left;
                return Some(admitted);
            }
            Ok(None) => self.fail(ServerFault::Device),
            Err(_) => self.fail(ServerFault::Memory),
        }
        None
    }

    /// A connection with a post and a seat of each tenant. None if one is missing, or it can't be watched. The seats
    /// come last, so that none is lost.
    fn admit_stream(
        &mut self,
        alloc: Global,
        stream: UnixStream,
    ) -> Result<Option<Admitted<'h, J>>, AllocError>
        ensures left { self.new.left ≡ self.old.left }
        ensures fault { self.new.fault ≡ self.old.fault }
    {
        let connection = Arc::new(alloc, Connection::new(stream))?;
        if self
            .watch
            .add(connection.fd(), self.accepted.len())
            .is_err()
        {
            return Ok(None);
        }
        self.accepted.push(Arc::try_clone(&connection)?)?;
        let client = match self.posts.next_client(alloc, &mut self.seats) {
            Ok(Some(client)) => client,
            Ok(None) => {
                connection.end();
                return Ok(None);
            }
            Err(fault) => {
                connection.end();
                return Err(fault);
            }
        };
        Ok(Some(Admitted { client, connection }))
    }

    /// Notes a fault, if it is the first.
    pub(crate) fn note(&mut self, fault: ServerFault)
        ensures first { IsSome self.old.fault → self.new.fault ≡ self.old.fault }
        ensures noted { self.old.fault ≡ None → self.new.fault ≡ Some fault }
        ensures left { self.new.left ≡ self.old.left }
    {
        self.fault = self.fault.or(Some(fault));
    }

    /// Accepts no more connections, for a fault.
    fn fail(&mut self, fault: ServerFault)
        ensures first { IsSome self.old.fault → self.new.fault ≡ self.old.fault }
        ensures noted { self.old.fault ≡ None → self.new.fault ≡ Some fault }
        ensures left { self.new.left ≡ 0 }
    {
        self.note(fault);
        self.left = 0;
    }

    /// The last connection has no thread, for a fault: it ends, and no more are accepted.
    pub(crate) fn lose_last(&mut self, fault: ServerFault)
        ensures first { IsSome self.old.fault → self.new.fault ≡ self.old.fault }
        ensures noted { self.old.fault ≡ None → self.new.fault ≡ Some fault }
        ensures left { self.new.left ≡ 0 }
    {
        if let Some(connection) = self.accepted.last() {
            connection.end();
        }
        self.fail(fault);
    }

    /// Whether no connection is still to be accepted, and all sessions have ended.
    pub(crate) fn is_over(&self) -> bool
        ensures { result ≡ true → self.now.left ≡ 0 }
    {
        self.left == 0 && self.accepted.iter().all(|connection| connection.is_over())
    }

    /// Waits until something happens, for a tick at most. Sessions whose clients have gone stop waiting; and if the
    /// socket's file is gone, the server stops.
    pub(crate) fn attend<R: Files + Wait>(
        &mut self,
        rt: &R,
        house: &House<J>,
        endpoint: &Endpoint<'_>,
    ) {
        if self.watch.wait(Duration::from_millis(TICK)).is_err() {
            self.fail(ServerFault::Device);
            self.stop(rt, house);
        }
        if self.raise_gone() {
            house.wake(rt);
        }
        if self.patience.is_none() && !endpoint.is_there(rt) {
            self.stop(rt, house);
        }
        self.lose_patience();
    }

    /// Raises the flags of the connections whose clients have gone, as the last wait reported. It says whether there
    /// are any.
    fn raise_gone(&self) -> bool {
        let mut is_any = false;
        for (number, connection) in self.accepted.iter().enumerate() {
            if self.watch.has_gone(number) && !connection.is_over() {
                connection.is_gone.raise();
                is_any = true;
            }
        }
        is_any
    }

    /// Stops the server: it accepts no more, nothing waits any more, and no more lines come in.
    fn stop<R: Wait>(&mut self, rt: &R, house: &House<J>)
        ensures left { self.new.left ≡ 0 }
        ensures fault { self.new.fault ≡ self.old.fault }
        ensures patience { IsSome self.new.patience }
        ensures kept { IsSome self.old.patience → self.new.patience ≡ self.old.patience }
    {
        self.left = 0;
        self.patience = self.patience.or(Some(PATIENCE));
        house.stop(rt);
        for connection in &self.accepted {
            connection.end_lines();
        }
    }

    /// Cuts off the connections that are left when patience is at its end.
    fn lose_patience(&mut self)
        ensures left { self.new.left ≡ self.old.left }
        ensures fault { self.new.fault ≡ self.old.fault }
        ensures none { self.old.patience ≡ None → self.new.patience ≡ None }
    {
        let Some(patience) = self.patience else {
            return;
        };
        self.patience = Some(patience_after(patience, self.watch.was_quiet()));
        if patience == 0 {
            for connection in &self.accepted {
                connection.cut();
            }
        }
    }

    /// The seats that no session took, and the first fault.
    pub(crate) fn into_rest(self) -> (FreshSeats, Option<ServerFault>)
        ensures seats { result.0 ≡ self.entry.seats }
        ensures fault { result.1 ≡ self.entry.fault }
    {
        let Reception {
            posts: _posts,
            seats,
            watch: _watch,
            accepted: _accepted,
            left: _left,
            fault,
            patience: _patience,
        } = self;
        (seats, fault)
    }
}

/// How many quiet ticks are left after a tick.
fn patience_after(patience: u8, is_quiet: bool) -> u8
    ensures quiet { is_quiet ≡ true → result ≡ patience - 1 }
    ensures busy { is_quiet ≡ false → result ≡ patience }
{
    if is_quiet {
        patience.saturating_sub(1)
    } else {
        patience
    }
}
