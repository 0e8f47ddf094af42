// The sixth Fibonacci number, executed by a session beside two workers.
ghost use Rattle.std.specs.Prelude.{◌≡◌};

use crate::locks::jobs::with_slots;
use crate::locks::lines::{HELLO, last_value, push_job};
use crate::locks::served::{Served, serve};
use crate::stops::Stop;
use std::alloc::Global;
use std::marker::Brand;
use std::sync::Wait;
use std::thread::Threads;
use tenant_book::{Naming, OpenedRegistry, Registry};
use worked_jobs::FIB;
use worker_main::NoGate;

/// More entries than the job makes.
const STEPS: usize = 10_000;

/// Executes the job on a tenant of three slots, of which one is reserved. The session attends that slot. The job's
/// value.
pub(crate) fn execute<R: Threads + Wait + Sync>(rt: &R, alloc: Global) -> Result<i64, Stop> {
    execute_in::<Brand, R>(rt, alloc, OpenedRegistry::new())
}

fn execute_in<J: Naming + Send + Sync, R: Threads + Wait + Sync>(
    rt: &R,
    alloc: Global,
    opened: OpenedRegistry,
) -> Result<i64, Stop>
    requires { opened ≡ J.registry }
{
    let registry: Registry<J> = opened.named();
    let mut lines = String::from_str(alloc, HELLO)?;
    push_job(&mut lines, "execute", FIB)?;
    let Served {
        replies,
        entries: _entries,
    } = serve(
        rt,
        alloc,
        &registry,
        with_slots(3, 1, STEPS)?,
        lines.as_str(),
        &NoGate,
    )?;
    last_value(alloc, replies.as_slice())
}
