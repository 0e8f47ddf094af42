// The end of a tenant.
use crate::stops::Stop;
use job_language::{Entry, TenantConfig};
use server_house::House;
use solo_eval::{Verdict, check};
use std::alloc::Global;
use std::sync::Wait;
use tenant_book::{Front, Naming};
use tenant_record::Seat;

/// Closes the only tenant of a house with its seats, and takes the history again. How many entries it has.
pub(crate) fn close_checked<J: Naming, R: Wait>(
    rt: &R,
    alloc: Global,
    config: TenantConfig,
    house: House<J>,
    seats: Vec<Seat>,
    fronts: &[Front<J>],
) -> Result<usize, Stop> {
    let mut ends = house.close(rt, alloc, seats, fronts)?;
    let closed = ends.pop().ok_or(Stop::Place)??;
    checked(alloc, config, closed.history.as_slice())
}

fn checked(alloc: Global, config: TenantConfig, history: &[Entry]) -> Result<usize, Stop> {
    match check(alloc, config, history)? {
        Verdict::Yes => Ok(history.len()),
        Verdict::No(_) => Err(Stop::History),
    }
}
