// Small requests, read from memory.
mod readings;
mod times;

use crate::stops::Stop;
use crate::words::number_in;
use readings::{requests_in, requests_of};
use std::time::CpuClock;
use times::compare;

/// How many requests are read if no word says it.
const FEW: usize = 1000;

/// `BLOCK REQUESTS` reads REQUESTS requests in blocks of BLOCK bytes, and prints how fast that was, compared
/// with `serde_json` alone on the same lines. Without words it prints how many of a few were read.
pub(crate) fn run<R>(rt: &R, words: &[&str]) -> Result<(), Stop>
where
    R: CpuClock + Print + AllocGlobal,
{
    match words {
        [] => print_few(rt),
        [block, requests] => compare(rt, number_in(block)?, number_in(requests)?),
        _ => Err(Stop::Words),
    }
}

/// Reads a few requests byte by byte.
fn print_few<R: Print + AllocGlobal>(rt: &R) -> Result<(), Stop> {
    let text = requests_of(rt.alloc(), FEW)?;
    let read = requests_in(rt.alloc(), text.as_str(), 1)?;
    println!(rt; "{read} requests of {} bytes", text.len())?;
    Ok(())
}
