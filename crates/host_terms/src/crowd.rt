// Who is at the slots of a term.

use job_language::Request;
use server_house::Told;
use std::sync::atomic::{AtomicBool, AtomicU64, Ordering};
use std::sync::{Mutex, Wait};
use std::time::Clock;
use tenant_book::Naming;
use tenant_lock::TenantDoor;
use term_life::{Glance, Pace, Verdict};

/// The threads at the slots of a term, and the jobs that want one more.
#[derive(Drop)]
pub(crate) struct Crowd {
    /// How many workers serve its calls, and how many sessions attend a slot.
    there: AtomicU64,
    /// How many jobs were submitted, and how many executed that found no slot.
    submitted: AtomicU64,
    pace: Mutex<Pace>,
    /// Whether the threads that are there are in each other's way, so that one is to leave.
    is_thick: AtomicBool,
}

impl Crowd {
    /// Nobody is there.
    pub(crate) fn new() -> Crowd {
        Crowd {
            there: AtomicU64::new(0),
            submitted: AtomicU64::new(0),
            pace: Mutex::new(Pace::new()),
            is_thick: AtomicBool::new(false),
        }
    }

    /// One more thread is there.
    pub(crate) fn enter(&self) {
        self.there.fetch_add(1, Ordering::SeqCst);
    }

    /// A thread that entered is there no more.
    pub(crate) fn leave(&self) {
        self.there.fetch_sub(1, Ordering::SeqCst);
    }

    /// A session begins to ask the term. While a job is executed the session may be at a slot, and a job that is
    /// submitted wants a worker.
    pub(crate) fn begin(&self, request: &Request) {
        match request {
            Request::Execute(_) => self.enter(),
            Request::Submit(_) => self.submit(),
            _ => {}
        }
    }

    /// The session has asked it. A job to be executed for which no slot was free wants a worker.
    pub(crate) fn end(&self, is_executed: bool, told: &Told) {
        if is_executed {
            self.leave();
            if told.attended.is_none() {
                self.submit();
            }
        }
    }

    /// One more job wants a worker.
    fn submit(&self) {
        self.submitted.fetch_add(1, Ordering::SeqCst);
    }

    /// Whether a worker that has a call of the term is to come now. Where nobody is, it is.
    pub(crate) fn admits<J: Naming, R: Wait + Clock>(&self, rt: &R, door: &TenantDoor<J>) -> bool {
        let submitted = self.submitted.load(Ordering::SeqCst);
        if self.there.load(Ordering::SeqCst) == 0 {
            self.pace.lock(rt).heed(submitted);
            return true;
        }
        let entries = door.counts(rt, &mut door.front()).entries;
        let Some(at) = micros(rt) else {
            return true;
        };
        let now = Glance {
            at,
            entries: entries as u64,
            submitted,
        };
        let verdict = self.pace.lock(rt).judge(now);
        let is_thick = verdict == Verdict::Leaves && self.awake(rt, door) > 1;
        self.is_thick.store(is_thick, Ordering::SeqCst);
        verdict == Verdict::Comes
    }

    /// How many of the threads that are there do not wait at a slot.
    fn awake<J: Naming, R: Wait>(&self, rt: &R, door: &TenantDoor<J>) -> u64 {
        let asleep = door.waits(rt).asleep as u64;
        self.there.load(Ordering::SeqCst).saturating_sub(asleep)
    }

    /// Whether the worker that asks is to leave. Of several it says so to one, and then not until somebody has looked
    /// again.
    pub(crate) fn sheds(&self) -> bool {
        self.is_thick.load(Ordering::SeqCst) && self.is_thick.swap(false, Ordering::SeqCst)
    }

    /// Takes what lets a worker come whatever it sees, if one may.
    pub(crate) fn take_grant<R: Wait>(&self, rt: &R) -> bool {
        self.pace.lock(rt).take_grant()
    }

    /// Lets so many more workers come, whatever they see.
    pub(crate) fn grant<R: Wait>(&self, rt: &R, count: u64) {
        self.pace.lock(rt).grant(count);
    }

    /// No call is held back any more.
    pub(crate) fn forget<R: Wait>(&self, rt: &R) {
        self.pace.lock(rt).forget();
    }
}

/// The time of the monotonic clock in microseconds. None if the clock can't be read.
pub(crate) fn micros<R: Clock>(rt: &R) -> Option<u64> {
    u64::try_from(rt.monotonic().ok()?.as_micros()).ok()
}
