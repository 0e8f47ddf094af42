// The bell that one thread rings and another waits for.
ghost use Rattle.std.specs.Prelude.{◌≡◌, ◌==◌, ◌&&◌, not, true, if◌then◌else◌, Some, None};
ghost use Rattle.worker_main.specs.Rings.{next_ring};

use crate::signal::Signal;
use call_queues::Pushed;
use std::sync::atomic::{AtomicBool, Ordering};
use std::sync::{Condvar, CondvarTimeouts, Mutex, Wait};
use std::time::{Clock, Duration};

/// A bell for workers. A thread that waits for it sleeps. Rings are counted, so one that comes
/// between a failed pop and the wait is not lost, unless 2^64 come there.
pub struct Bell {
    rung: Mutex<Rung>,
    changed: Condvar,
    /// Whether it told to stop, for those who look without the lock.
    has_told: AtomicBool,
}

impl Drop for Bell {
    // An owner drops it in one call, not part by part at each of its ways out.
    fn drop(self) {
        let Bell {
            rung: _rung,
            changed: _changed,
            has_told: _has_told,
        } = self;
    }
}

/// How often the bell rang, modulo 2^64, and whether it tells to stop.
#[derive(Clone, Copy, Drop)]
struct Rung {
    times: u64,
    is_stopped: bool,
}

impl Rung {
    fn ring(&mut self)
        ensures { self.new ≡ record self.old { times = next_ring self.old.times } }
    {
        self.times = self.times.wrapping_add(1);
    }

    fn stop(&mut self)
        ensures { self.new ≡ record self.old { is_stopped = true } }
    {
        self.is_stopped = true;
    }

    fn heard(&self) -> Option<u64>
        ensures { result ≡ if self.now.is_stopped then None else Some self.now.times }
    {
        if self.is_stopped {
            None
        } else {
            Some(self.times)
        }
    }

    fn is_quiet_since(&self, heard: u64) -> bool
        ensures { result ≡ not self.now.is_stopped && (self.now.times == heard) }
    {
        !self.is_stopped && self.times == heard
    }
}

impl Bell {
    /// A bell that has not rung.
    pub fn new() -> Bell {
        Bell {
            rung: Mutex::new(Rung {
                times: 0,
                is_stopped: false,
            }),
            changed: Condvar::new(),
            has_told: AtomicBool::new(false),
        }
    }

    /// Tells all that listen to stop, from now on, and those that are at a slot before their next turn there.
    pub fn stop<R: Wait>(&self, rt: &R) {
        self.has_told.store(true, Ordering::SeqCst);
        self.rung.lock(rt).stop();
        self.changed.notify_all();
    }

    /// Wakes one that waits, if one does, to look around, as a ring for a call does.
    pub fn nudge<R: Wait>(&self, rt: &R) {
        self.rung.lock(rt).ring();
        self.changed.notify_one();
    }

    /// Waits as `wait_past`, but for that long at most.
    pub fn wait_past_for<R: Wait + Clock>(&self, rt: &R, heard: u64, most: Duration) {
        let rung = self.rung.lock(rt);
        let _waited = self
            .changed
            .wait_timeout_while(rt, rung, most, |rung| rung.is_quiet_since(heard));
    }
}

impl Signal for Bell {
    ghost stops = { λ _. Unit {0} };

    ghost hears = { λ _ _. Unit {0} };

    ghost looked = { λ _ _. Unit {0} };

    fn ring<R: Wait>(&self, rt: &R, pushed: Pushed) {
        self.rung.lock(rt).ring();
        self.changed.notify_one();
        pushed.rung();
    }

    fn listen<R: Wait>(&self, rt: &R) -> Option<u64> {
        self.rung.lock(rt).heard()
    }

    fn may_go_on(&self, _look: u64) -> bool {
        !self.has_told.load(Ordering::SeqCst)
    }

    fn is_awaited(&self) -> bool {
        // All that wait for its workers are in their queues.
        false
    }

    fn wait_past<R: Wait>(&self, rt: &R, heard: u64) {
        let _rung = self
            .changed
            .wait_while(rt, self.rung.lock(rt), |rung| rung.is_quiet_since(heard));
    }
}
