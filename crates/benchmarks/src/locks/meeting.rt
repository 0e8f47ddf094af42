// Two private runs on one tenant that are under way at once.
ghost use Rattle.std.specs.Prelude.{◌≡◌};

use crate::locks::jobs::with_slots;
use crate::locks::lines::{HELLO, push_job};
use crate::locks::served::serve;
use crate::stops::Stop;
use std::alloc::Global;
use std::marker::Brand;
use std::sync::{Mutex, Wait};
use std::thread::{Threads, yield_now};
use tenant_book::{Naming, OpenedRegistry, Registry};
use worked_jobs::FIRST;
use worker_main::Gate;

/// Waits for both jobs.
const COLLECTS: &str = "{\"job\":1,\"op\":\"collect\"}\n{\"job\":2,\"op\":\"collect\"}\n";

/// More entries than the jobs make.
const STEPS: usize = 256;

/// How often a run looks whether the other one has come.
const TURNS: u32 = 1_000_000;

/// How many private runs have come into the gate, and how many of them saw two there.
#[derive(Clone, Copy, Drop)]
struct Inside {
    came: u32,
    saw_two: u32,
}

impl Inside {
    fn come(&mut self) {
        self.came = self.came.saturating_add(1);
    }

    /// Whether two have come.
    fn sees_two(&mut self) -> bool {
        let sees = self.came >= 2;
        if sees {
            self.saw_two = self.saw_two.saturating_add(1);
        }
        sees
    }
}

/// A gate in which each private run lets others run until two have come, or until it has looked often.
#[derive(Drop)]
struct TwoGate<'g, R> {
    rt: &'g R,
    inside: &'g Mutex<Inside>,
}

impl<R: Wait> Gate for TwoGate<'_, R> {
    fn inside(&self, _tenant: usize, _slot: u8) {
        self.inside.lock(self.rt).come();
        for _turn in 0..TURNS {
            if self.inside.lock(self.rt).sees_two() {
                return;
            }
            yield_now();
        }
    }
}

/// What came of two private runs.
#[derive(Clone, Copy)]
pub(crate) struct Met {
    /// How many of them saw two in the gate.
    pub(crate) saw_two: u32,
    /// How many entries the history has.
    pub(crate) entries: usize,
}

/// Lets two workers run a job each, which a session submits, on a tenant of two slots, of which none is reserved.
pub(crate) fn meet<R: Threads + Wait + Sync>(rt: &R, alloc: Global) -> Result<Met, Stop> {
    let inside = Mutex::new(Inside {
        came: 0,
        saw_two: 0,
    });
    let entries = meet_at::<Brand, R>(rt, alloc, OpenedRegistry::new(), &inside)?;
    Ok(Met {
        saw_two: inside.into_inner().saw_two,
        entries,
    })
}

/// Lets the private runs meet at a gate. How many entries the history has.
fn meet_at<J: Naming + Send + Sync, R: Threads + Wait + Sync>(
    rt: &R,
    alloc: Global,
    opened: OpenedRegistry,
    inside: &Mutex<Inside>,
) -> Result<usize, Stop>
    requires { opened ≡ J.registry }
{
    let registry: Registry<J> = opened.named();
    let mut lines = String::from_str(alloc, HELLO)?;
    push_job(&mut lines, "submit", FIRST)?;
    push_job(&mut lines, "submit", FIRST)?;
    lines.push_str(COLLECTS)?;
    let gate = TwoGate { rt, inside };
    let served = serve(
        rt,
        alloc,
        &registry,
        with_slots(2, 0, STEPS)?,
        lines.as_str(),
        &gate,
    )?;
    Ok(served.entries)
}
