// Which calls wait, and what wakes the workers.

use crate::crowd::Crowd;
use call_queues::Pushed;
use job_language::Level;
use std::sync::Wait;
use std::sync::atomic::{AtomicBool, AtomicI64, AtomicU64, Ordering};
use term_life::STRETCH;
use worker_main::{Bell, Signal};

/// How many calls wait at each level, in all terms together, and the bell that is rung for each.
#[derive(Drop)]
pub struct Board {
    bell: Bell,
    high: AtomicI64,
    normal: AtomicI64,
    low: AtomicI64,
    /// How many calls are held back.
    held: AtomicI64,
    /// When somebody last looked at those, in microseconds of the monotonic clock.
    looked: AtomicU64,
    /// Whether a worker without a call looks at them from time to time.
    is_watched: AtomicBool,
}

impl Board {
    pub(crate) fn new() -> Board {
        Board {
            bell: Bell::new(),
            high: AtomicI64::new(0),
            normal: AtomicI64::new(0),
            low: AtomicI64::new(0),
            held: AtomicI64::new(0),
            looked: AtomicU64::new(0),
            is_watched: AtomicBool::new(false),
        }
    }

    pub(crate) fn bell(&self) -> &Bell {
        &self.bell
    }

    /// Whether a call of that level waits.
    pub(crate) fn has_call_at(&self, level: Level) -> bool {
        self.count(level).load(Ordering::SeqCst) > 0
    }

    /// Whether a call of that level or of a higher one waits.
    fn has_call_for(&self, level: Level) -> bool {
        match level {
            Level::High => self.has_call_at(Level::High),
            Level::Normal => self.has_call_at(Level::High) || self.has_call_at(Level::Normal),
            Level::Low => {
                self.has_call_at(Level::High)
                    || self.has_call_at(Level::Normal)
                    || self.has_call_at(Level::Low)
            }
        }
    }

    /// Whether a call is held back.
    pub(crate) fn has_held(&self) -> bool {
        self.held.load(Ordering::SeqCst) > 0
    }

    /// Whether it is time to look at the calls that are held back. It says so to one thread. Without a clock it always
    /// is.
    pub(crate) fn is_to_look(&self, now: Option<u64>) -> bool {
        let Some(now) = now else {
            return true;
        };
        let looked = self.looked.load(Ordering::SeqCst);
        now.saturating_sub(looked) >= STRETCH
            && self
                .looked
                .compare_exchange(looked, now, Ordering::SeqCst, Ordering::SeqCst)
                .is_ok()
    }

    /// Whether the worker that asks is the one to watch the calls that are held back.
    pub(crate) fn begin_watch(&self) -> bool {
        self.has_held() && !self.is_watched.swap(true, Ordering::SeqCst)
    }

    /// The worker that watched them does so no more.
    pub(crate) fn end_watch(&self) {
        self.is_watched.store(false, Ordering::SeqCst);
    }

    /// Whether calls are held back, and nobody watches them.
    pub(crate) fn lacks_watch(&self) -> bool {
        self.has_held() && !self.is_watched.load(Ordering::SeqCst)
    }

    fn count(&self, level: Level) -> &AtomicI64 {
        match level {
            Level::High => &self.high,
            Level::Normal => &self.normal,
            Level::Low => &self.low,
        }
    }
}

/// The calls of one term that wait, or are held back. Each is noted here, and on the board, once it is in the term's
/// queue, and claimed before it is taken out. So who has claimed one finds one.
#[derive(Drop)]
pub(crate) struct Calls {
    level: Level,
    waiting: AtomicI64,
    held: AtomicI64,
}

impl Calls {
    pub(crate) fn new(level: Level) -> Calls {
        Calls {
            level,
            waiting: AtomicI64::new(0),
            held: AtomicI64::new(0),
        }
    }

    pub(crate) fn level(&self) -> Level {
        self.level
    }

    pub(crate) fn is_any(&self) -> bool {
        self.waiting.load(Ordering::SeqCst) > 0
    }

    /// Claims one of the calls that wait. One thread at a time may do so.
    pub(crate) fn claim(&self, board: &Board) {
        self.waiting.fetch_sub(1, Ordering::SeqCst);
        board.count(self.level).fetch_sub(1, Ordering::SeqCst);
    }

    /// Whether one is held back.
    pub(crate) fn is_held(&self) -> bool {
        self.held.load(Ordering::SeqCst) > 0
    }

    /// Holds back one that was claimed.
    pub(crate) fn hold(&self, board: &Board) {
        self.held.fetch_add(1, Ordering::SeqCst);
        board.held.fetch_add(1, Ordering::SeqCst);
    }

    /// Lets all wait that were held back, and gives how many there are.
    pub(crate) fn release(&self, board: &Board) -> i64 {
        let held = self.held.swap(0, Ordering::SeqCst);
        board.held.fetch_sub(held, Ordering::SeqCst);
        self.waiting.fetch_add(held, Ordering::SeqCst);
        board.count(self.level).fetch_add(held, Ordering::SeqCst);
        held
    }

    /// No worker comes any more.
    pub(crate) fn withdraw(&self, board: &Board) {
        let waiting = self.waiting.swap(0, Ordering::SeqCst);
        board.count(self.level).fetch_sub(waiting, Ordering::SeqCst);
        let held = self.held.swap(0, Ordering::SeqCst);
        board.held.fetch_sub(held, Ordering::SeqCst);
    }

    fn note(&self, board: &Board) {
        self.waiting.fetch_add(1, Ordering::SeqCst);
        board.count(self.level).fetch_add(1, Ordering::SeqCst);
    }
}

/// The board, as the threads at one term's slots hear it.
#[derive(Clone, Copy)]
pub(crate) struct TermSignal<'b, 'c> {
    pub(crate) board: &'b Board,
    pub(crate) calls: &'c Calls,
    pub(crate) crowd: &'c Crowd,
}

impl<'b, 'c> Signal for TermSignal<'b, 'c> {
    ghost stops = { λ _. Unit {0} };

    ghost hears = { λ _ _. Unit {0} };

    ghost looked = { λ _ _. Unit {0} };

    fn ring<R: Wait>(&self, rt: &R, pushed: Pushed) {
        self.calls.note(self.board);
        self.board.bell.ring(rt, pushed);
    }

    fn listen<R: Wait>(&self, rt: &R) -> Option<u64> {
        self.board.bell.listen(rt)
    }

    fn may_go_on(&self, look: u64) -> bool {
        self.board.bell.may_go_on(look)
    }

    fn is_awaited(&self) -> bool {
        self.board.has_call_for(self.calls.level) || self.crowd.sheds()
    }

    fn wait_past<R: Wait>(&self, rt: &R, heard: u64) {
        self.board.bell.wait_past(rt, heard);
    }
}
