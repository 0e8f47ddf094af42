// What a host prints and reports, which threads of their own write: nobody else waits for whoever reads it.
ghost use Rattle.std.specs.Prelude.{◌≡◌, ◌<◌, ◌+◌, ◌^◌, ◌&&◌, ◌==◌, length, take};
ghost use Rattle.term_life.specs.Spans.{capped};
ghost use Rattle.host_records.specs.Outlets.{owed, worth, worth_if};

use host_status::Event;
use std::alloc::{AllocError, Global};
use std::collections::VecDeque;
use std::sync::{Condvar, CondvarTimeouts, Mutex, Wait};
use std::time::{Clock, Duration};

/// How many lines wait at most, at each of the two.
const ROOM: usize = 512;

/// What is next to be written.
#[derive(Drop)]
enum Line {
    /// A line, without its newline.
    Text(String),
    /// That many lines, which were lost.
    Lost(u64),
}

impl Line {
    /// How many lines it tells of.
    fn worth(&self) -> u64
        ensures { result ≡ worth self.now }
    {
        match self {
            Line::Text(_) => 1,
            Line::Lost(lines) => *lines,
        }
    }
}

/// Lines that wait.
#[derive(Drop)]
struct Lines {
    /// The oldest first.
    waiting: VecDeque<Line>,
    /// How many lines were lost since the last one that waits.
    lost: u64,
    /// Whether a line is being written.
    is_writing: bool,
}

impl Lines {
    /// Adds a line. Without room for it, it is lost, and so is each one until there is room for two.
    fn add(&mut self, text: String)
        ensures order { take (length self.old.waiting.items) self.new.waiting.items
            ≡ self.old.waiting.items }
        ensures owed { owed self.old + 1 < 2 ^ 64 → owed self.new ≡ owed self.old + 1 }
    {
        if self.lost > 0 && self.waiting.len() + 1 < ROOM {
            let lost = self.lost;
            self.lost = 0;
            self.push(Line::Lost(lost));
        }
        if self.lost > 0 {
            self.lose(1);
        } else {
            self.push(Line::Text(text));
        }
    }

    /// Adds a line, or what stands for several. Without room for it, these are lost.
    #[tactic(auto, using(crate::proofs::Lines::one_more))]
    fn push(&mut self, line: Line)
        ensures order { take (length self.old.waiting.items) self.new.waiting.items
            ≡ self.old.waiting.items }
        ensures owed { owed self.old + worth line < 2 ^ 64
            → owed self.new ≡ owed self.old + worth line }
    {
        let worth = line.worth();
        if self.waiting.len() >= ROOM || self.waiting.push_back(line).is_err() {
            self.lose(worth);
        }
    }

    fn lose(&mut self, lines: u64)
        ensures { self.new ≡ record self.old { lost = capped (self.old.lost + lines) } }
    {
        self.lost = self.lost.saturating_add(lines);
    }

    /// The next line, or what was lost after the last one. None if all is written.
    #[tactic(auto, using(crate::proofs::Lines::one_less))]
    fn take(&mut self) -> Option<Line>
        ensures { owed self.old ≡ worth_if result + owed self.new }
    {
        let next = self.waiting.pop_front();
        if next.is_none() && self.lost > 0 {
            let lost = self.lost;
            self.lost = 0;
            return Some(Line::Lost(lost));
        }
        next
    }

    fn is_empty(&self) -> bool
        ensures { result ≡ ((length self.now.waiting.items == 0) && (self.now.lost == 0)) }
    {
        self.waiting.is_empty() && self.lost == 0
    }
}

/// A limited number of lines that wait to be written. What comes when as many wait is lost, and counted.
#[derive(Drop)]
struct Queue {
    lines: Mutex<Lines>,
    changed: Condvar,
}

impl Queue {
    fn new(alloc: Global) -> Result<Queue, AllocError> {
        Ok(Queue {
            lines: Mutex::new(Lines {
                waiting: VecDeque::with_capacity(alloc, ROOM)?,
                lost: 0,
                is_writing: false,
            }),
            changed: Condvar::new(),
        })
    }

    /// Adds a line, or the loss of one for which there is no memory.
    fn put<R: Wait>(&self, rt: &R, line: Option<String>) {
        let mut lines = self.lines.lock(rt);
        match line {
            Some(text) => lines.add(text),
            None => lines.lose(1),
        }
        self.changed.notify_all();
    }

    /// Waits for what is next to be written.
    fn next<R: Wait>(&self, rt: &R) -> Option<Line> {
        let mut lines = self
            .changed
            .wait_while(rt, self.lines.lock(rt), |lines| lines.is_empty());
        lines.is_writing = true;
        lines.take()
    }

    /// What was taken is written.
    fn rest<R: Wait>(&self, rt: &R) {
        self.lines.lock(rt).is_writing = false;
        self.changed.notify_all();
    }

    /// Waits until all is written, for that long at most.
    fn drain<R: Wait + Clock>(&self, rt: &R, most: Duration) {
        let lines = self.lines.lock(rt);
        let _waited = self.changed.wait_timeout_while(rt, lines, most, |lines| {
            lines.is_writing || !lines.is_empty()
        });
    }
}

/// The lines of a host for standard output and for standard error.
#[derive(Drop)]
pub struct Outlet {
    printed: Queue,
    reported: Queue,
}

impl Outlet {
    /// No lines yet.
    pub fn new(alloc: Global) -> Result<Outlet, AllocError> {
        Ok(Outlet {
            printed: Queue::new(alloc)?,
            reported: Queue::new(alloc)?,
        })
    }

    /// Lets a line be written to standard output. None stands for one for which there was no memory.
    pub fn print<R: Wait>(&self, rt: &R, line: Option<String>) {
        self.printed.put(rt, line);
    }

    /// Lets a line be written to standard error. None stands for one for which there was no memory.
    pub fn report<R: Wait>(&self, rt: &R, line: Option<String>) {
        self.reported.put(rt, line);
    }

    /// Lets an event be reported, with the time since 1970. It is lost if the clock can't be read or an allocation
    /// fails.
    pub fn say<R: Wait + Clock>(&self, rt: &R, alloc: Global, event: Event<'_>) {
        self.report(rt, line_of(rt, alloc, event));
    }

    /// Waits until everything is written, for that long at most for either of the two.
    pub fn drain<R: Wait + Clock>(&self, rt: &R, most: Duration) {
        self.printed.drain(rt, most);
        self.reported.drain(rt, most);
    }
}

/// The line of an event that happens now.
fn line_of<R: Clock>(rt: &R, alloc: Global, event: Event<'_>) -> Option<String> {
    let time = rt.since_1970().ok()?;
    event.line(alloc, time).ok()
}

/// Writes what an outlet has for standard output, a line at a time, as long as the process lives. Lines that were lost
/// are reported as an event.
pub fn write_printed<R: Wait + Clock + Print>(rt: &R, alloc: Global, outlet: &Outlet) {
    for _line in rt.forever() {
        match outlet.printed.next(rt) {
            Some(Line::Text(text)) => {
                // Nothing can be done about a line that the system does not take.
                let _ = println!(rt; "{}", text.as_str());
            }
            Some(Line::Lost(lines)) => outlet.say(rt, alloc, Event::Unwritten { lines }),
            None => {}
        }
        outlet.printed.rest(rt);
    }
}

/// Writes what an outlet has for standard error, in the same way.
pub fn write_reported<R: Wait + Clock + Eprint>(rt: &R, alloc: Global, outlet: &Outlet) {
    for _line in rt.forever() {
        let text = match outlet.reported.next(rt) {
            Some(Line::Text(text)) => Some(text),
            Some(Line::Lost(lines)) => line_of(rt, alloc, Event::Unwritten { lines }),
            None => None,
        };
        if let Some(text) = text {
            // As above.
            let _ = eprintln!(rt; "{}", text.as_str());
        }
        outlet.reported.rest(rt);
    }
}
