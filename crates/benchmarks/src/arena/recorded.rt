// Jobs that run on one slot of a tenant's cell, which records each ask and each advance.
use crate::arena::runs::{Ran, two_slots};
use crate::stops::Stop;
use crate::tenants::{job_of, value_of};
use job_language::{Job, MAX_ROWS, MAX_STEPS, Moved, Reply, Request};
use std::alloc::Global;
use tenant_record::{Advanced, AskOutcome, Pass, Seat, TenantCell, first_seats};

/// Runs a job `jobs` times, each on a cell of its own.
pub(crate) fn run_recorded(alloc: Global, text: &str, jobs: usize) -> Result<Ran, Stop> {
    let job = job_of(alloc, text)?;
    let mut sum = Ran::default();
    for _ in 0..jobs {
        sum = sum.and(run_alone(alloc, &job)?);
    }
    Ok(sum)
}

/// Runs a job on a new cell.
fn run_alone(alloc: Global, job: &Job) -> Result<Ran, Stop> {
    let config = two_slots("acme", MAX_ROWS)?;
    let mut seats = first_seats(alloc, 0, config, 1)?;
    let seat = seats.first_mut().ok_or(Stop::Place)?;
    let job = job.try_clone()?;
    let mut cell = TenantCell::new(alloc, 0, config)?;
    run(&mut cell, seat, job)
}

/// Executes a job, runs it and collects its value.
fn run(cell: &mut TenantCell, seat: &mut Seat, job: Job) -> Result<Ran, Stop> {
    let AskOutcome {
        reply,
        due: _due,
        pass,
    } = cell.ask(seat, Request::Execute(job));
    let ran = run_on_slot(cell, pass);
    let Reply::Placed(number, _) = reply else {
        return Err(Stop::Outcome);
    };
    let ran = ran?;
    let value = value_of(collect(cell, seat, number))?;
    Ok(Ran { value, ..ran })
}

/// The reply to a collection of a job.
fn collect(cell: &mut TenantCell, seat: &mut Seat, job: u64) -> Reply {
    let AskOutcome {
        reply,
        due: _due,
        pass,
    } = cell.ask(seat, Request::Collect(job));
    give_home(cell, pass);
    reply
}

/// Advances the slot of a pass until it is free. What is left of the pass goes home.
fn run_on_slot(cell: &mut TenantCell, pass: Option<Pass>) -> Result<Ran, Stop> {
    let mut ran = Ran::of_root();
    let mut pass = pass;
    let mut is_free = Ok(false);
    for _ in 0..MAX_STEPS {
        let (moved, kept) = advance(cell, pass);
        pass = kept;
        is_free = counted(&mut ran, moved);
        if !matches!(is_free, Ok(false)) {
            break;
        }
    }
    give_home(cell, pass);
    if is_free? {
        Ok(ran)
    } else {
        Err(Stop::Outcome)
    }
}

/// Counts an advance, if one was made.
fn counted(ran: &mut Ran, moved: Option<Moved>) -> Result<bool, Stop> {
    ran.count(moved.ok_or(Stop::Place)?)
}

/// Advances the slot of a pass, if it is one of the cell's: how that was answered, and the pass unless it went home.
fn advance(cell: &mut TenantCell, pass: Option<Pass>) -> (Option<Moved>, Option<Pass>) {
    match pass {
        Some(pass) if cell.has_slot_of(&pass) => {
            let Advanced {
                moved,
                due: _due,
                pass,
            } = cell.advance(pass);
            (Some(moved), pass)
        }
        pass => (None, pass),
    }
}

/// Puts a pass home, if there is one. One that is not of one of the cell's slots is ended.
fn give_home(cell: &mut TenantCell, pass: Option<Pass>) {
    match pass {
        Some(pass) if cell.has_slot_of(&pass) => cell.give_home(pass),
        Some(pass) => cell.end_foreign(pass),
        None => {}
    }
}
