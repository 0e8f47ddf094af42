// How fast reading is, by the processor time that it takes.
use crate::reading::readings::{requests_in, requests_of, values_in};
use crate::stops::Stop;
use std::io;
use std::time::CpuClock;

/// How often each reading is done; the fastest counts.
const ROUNDS: usize = 5;

/// How many nanoseconds of the processor the same lines took.
#[derive(Clone, Copy)]
struct Times {
    /// Read as requests.
    requests: u64,
    /// Read as JSON values alone.
    values: u64,
}

impl Times {
    /// The fastest of both.
    fn or(self, other: Times) -> Times {
        Times {
            requests: self.requests.min(other.requests),
            values: self.values.min(other.values),
        }
    }
}

/// Prints how many bytes a microsecond are read as requests, in blocks of `block` bytes, and as JSON
/// values alone, and how much longer the first takes.
pub(crate) fn compare<R: CpuClock + Print + AllocGlobal>(
    rt: &R,
    block: usize,
    count: usize,
) -> Result<(), Stop> {
    let text = requests_of(rt.alloc(), count)?;
    let times = fastest(rt, text.as_str(), block)?;
    let requests_speed = speed(text.len(), times.requests);
    let values_speed = speed(text.len(), times.values);
    let percent = times.requests.saturating_mul(100) / times.values.max(1);
    println!(rt; "{block}\t{requests_speed}\t{values_speed}\t{percent}")?;
    Ok(())
}

fn fastest<R>(rt: &R, text: &str, block: usize) -> Result<Times, Stop>
where
    R: CpuClock + AllocGlobal,
{
    let mut fastest = Times {
        requests: u64::MAX,
        values: u64::MAX,
    };
    for _round in 0..ROUNDS {
        fastest = fastest.or(time_once(rt, text, block)?);
    }
    Ok(fastest)
}

fn time_once<R>(rt: &R, text: &str, block: usize) -> Result<Times, Stop>
where
    R: CpuClock + AllocGlobal,
{
    let start = nanos(rt)?;
    let requests = requests_in(rt.alloc(), text, block)?;
    let between = nanos(rt)?;
    let values = values_in(rt.alloc(), text);
    let end = nanos(rt)?;
    if requests != values {
        return Err(Stop::Unread);
    }
    Ok(Times {
        requests: between.saturating_sub(start),
        values: end.saturating_sub(between),
    })
}

/// The processor time that the thread has used.
fn nanos<R: CpuClock>(rt: &R) -> io::Result<u64> {
    let used = rt.thread_cpu_time()?;
    let seconds = used.as_secs().saturating_mul(1_000_000_000);
    Ok(seconds.saturating_add(u64::from(used.subsec_nanos())))
}

/// How many bytes a microsecond that is.
fn speed(bytes: usize, nanos: u64) -> u64 {
    (bytes as u64).saturating_mul(1000) / nanos.max(1)
}
