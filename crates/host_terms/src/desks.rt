// The places of a host's sessions, each of which serves one client after another.

use crate::outbox::{Outbox, lost};
use crate::terms::Booking;
use host_records::Kept;
use server_io::Watch;
use std::alloc::Global;
use std::io;
use std::net::Shutdown;
use std::os::unix::net::UnixStream;
use std::sync::atomic::{AtomicBool, AtomicU64, Ordering};
use std::sync::{Arc, Condvar, Mutex, Wait};
use tenant_book::Naming;
use tenant_lock::StopFlag;
use term_life::{Overdue, Patience, Seen};

/// A client at a desk.
#[derive(Drop)]
struct Guest {
    /// The number of its connection.
    number: usize,
    stream: Arc<UnixStream>,
    seen: Seen,
    /// Whether the host has ended its connection.
    is_cut: bool,
}

/// Who is at a desk.
#[derive(Drop)]
struct Seating {
    guest: Option<Guest>,
    /// The stream of a guest whom the desk's thread has not seen yet.
    incoming: Option<Arc<UnixStream>>,
    /// Whether no more guests come.
    is_closed: bool,
}

/// Where one session after another is served, by one thread.
#[derive(Drop)]
pub struct Desk<J: Naming> {
    /// Raised while the guest has gone: nobody is there who could take a reply.
    is_gone: StopFlag,
    seating: Mutex<Seating>,
    changed: Condvar,
    /// The session's place in the term that it asked last, while it asks nothing.
    booking: Mutex<Option<Booking<J>>>,
    /// Where the session's replies go.
    outbox: Outbox,
    /// Whether the session is bound to a tenant, and whether it is within a request.
    is_bound: AtomicBool,
    is_asking: AtomicBool,
    /// How many requests were answered at the desk, or have waited.
    asked: AtomicU64,
}

impl<J: Naming> Desk<J> {
    /// A desk at which nobody is.
    pub fn new() -> Desk<J> {
        Desk {
            is_gone: StopFlag::new(),
            seating: Mutex::new(Seating {
                guest: None,
                incoming: None,
                is_closed: false,
            }),
            changed: Condvar::new(),
            booking: Mutex::new(None),
            outbox: Outbox::new(),
            is_bound: AtomicBool::new(false),
            is_asking: AtomicBool::new(false),
            asked: AtomicU64::new(0),
        }
    }

    /// Whether nobody is at the desk.
    pub fn is_free<R: Wait>(&self, rt: &R) -> bool {
        self.seating.lock(rt).guest.is_none()
    }

    /// Seats a client who comes at that time, by the number of its connection.
    pub(crate) fn seat<R: Wait>(
        &self,
        rt: &R,
        number: usize,
        now: u64,
        stream: Arc<UnixStream>,
        incoming: Arc<UnixStream>,
    ) {
        let mut seating = self.seating.lock(rt);
        seating.guest = Some(Guest {
            number,
            stream,
            seen: Seen::new(now, self.asked.load(Ordering::SeqCst)),
            is_cut: false,
        });
        seating.incoming = Some(incoming);
        self.changed.notify_one();
    }

    /// Lets the guest's session stop waiting, if the watch reported that the guest has gone. It says whether it did.
    pub(crate) fn raise_gone<R: Wait>(&self, rt: &R, watch: &Watch) -> bool {
        let seating = self.seating.lock(rt);
        match &seating.guest {
            Some(guest) if watch.has_gone(guest.number) => {
                self.is_gone.raise();
                true
            }
            _ => false,
        }
    }

    /// Ends the guest's connection, if it has done nothing for too long by that time, and says why.
    pub(crate) fn cut<R: Wait>(&self, rt: &R, now: u64, patience: Patience) -> Option<Overdue> {
        let mut seating = self.seating.lock(rt);
        let guest = seating.guest.as_mut()?;
        // These before the count, which rises before either of them says that a request has ended.
        let is_asking = self.is_asking.load(Ordering::SeqCst);
        let is_bound = self.is_bound.load(Ordering::SeqCst);
        guest.seen.look(now, self.asked.load(Ordering::SeqCst));
        if guest.is_cut || is_asking {
            return None;
        }
        let overdue = guest.seen.overdue(now, is_bound, patience)?;
        guest.is_cut = true;
        // The client may have gone before.
        let _ = guest.stream.shutdown(Shutdown::Both);
        Some(overdue)
    }

    /// The session is bound to a tenant.
    pub fn bind(&self) {
        self.asked.fetch_add(1, Ordering::SeqCst);
        self.is_bound.store(true, Ordering::SeqCst);
    }

    /// The session is bound to no tenant any more.
    pub fn unbind(&self) {
        self.is_bound.store(false, Ordering::SeqCst);
    }

    /// The session begins a request, or goes on waiting for its reply.
    pub fn begin_asking(&self) {
        self.is_asking.store(true, Ordering::SeqCst);
    }

    /// The session was answered.
    pub fn end_asking(&self) {
        self.asked.fetch_add(1, Ordering::SeqCst);
        self.is_asking.store(false, Ordering::SeqCst);
    }

    /// Shuts the guest's stream, or one direction of it.
    pub fn shut<R: Wait>(&self, rt: &R, how: Shutdown) {
        if let Some(guest) = &self.seating.lock(rt).guest {
            // The client may have gone before.
            let _ = guest.stream.shutdown(how);
        }
    }

    /// Lets no more guests come.
    pub fn close<R: Wait>(&self, rt: &R) {
        self.seating.lock(rt).is_closed = true;
        self.changed.notify_one();
    }

    /// Raised while the guest has gone.
    pub fn is_gone(&self) -> &StopFlag {
        &self.is_gone
    }

    /// Where the session's replies go.
    pub fn outbox(&self) -> &Outbox {
        &self.outbox
    }

    /// The session's place in the term that it asked last.
    pub fn take_booking<R: Wait>(&self, rt: &R) -> Option<Booking<J>> {
        self.booking.lock(rt).take()
    }

    /// Keeps the session's place for its next request, in the place of another one.
    pub fn keep_booking<R: Wait>(&self, rt: &R, booking: Booking<J>) {
        let before = self.booking.lock(rt).replace(booking);
        if let Some(before) = before {
            before.give_back(rt);
        }
    }

    /// Gives the session's place back to its term. What the term was asked is kept before, or no reply goes out any
    /// more.
    pub fn give_back<R: Wait>(&self, rt: &R, alloc: Global, booking: Booking<J>) {
        if self.outbox.is_owing() {
            self.outbox.settle(booking.term().kept(rt, alloc));
        }
        booking.give_back(rt);
    }

    /// Lets all replies go out that wait, once what they tell is kept. If that can't be, none goes out any more.
    pub fn let_out<R: Wait>(&self, rt: &R, alloc: Global) -> io::Result<()> {
        if self.outbox.is_empty(rt) && !self.outbox.is_owing() {
            return Ok(());
        }
        match self.kept(rt, alloc) {
            Some(kept) => self.outbox.send(rt, kept),
            None => {
                self.outbox.settle(None);
                Err(lost())
            }
        }
    }

    /// Has kept what the replies tell that wait, if that can be. The session has its place in hand meanwhile, so nobody
    /// else waits for the disk.
    fn kept<R: Wait>(&self, rt: &R, alloc: Global) -> Option<Kept> {
        if !self.outbox.is_owing() {
            return Some(Kept::of_nothing());
        }
        let booking = self.take_booking(rt)?;
        let kept = booking.term().kept(rt, alloc);
        self.keep_booking(rt, booking);
        kept
    }

    /// Gives the session's place back to its term, if that takes no new jobs. A session that has replies to let out,
    /// once what they tell is kept, has its place until then.
    pub(crate) fn give_back_left<R: Wait>(&self, rt: &R) {
        let mut kept = self.booking.lock(rt);
        let is_left = match &*kept {
            Some(booking) => booking.term().is_left(),
            None => false,
        };
        if is_left && !self.outbox.is_owing() {
            if let Some(booking) = kept.take() {
                booking.give_back(rt);
            }
        }
    }

    /// The stream of the next guest. None if no more come.
    pub fn next_guest<R: Wait>(&self, rt: &R) -> Option<Arc<UnixStream>> {
        let mut seating = self
            .changed
            .wait_while(rt, self.seating.lock(rt), |seating| {
                seating.incoming.is_none() && !seating.is_closed
            });
        seating.incoming.take()
    }

    /// The guest's session has ended.
    pub fn free<R: Wait>(&self, rt: &R) {
        let mut seating = self.seating.lock(rt);
        seating.guest = None;
        self.is_gone.lower();
    }
}
