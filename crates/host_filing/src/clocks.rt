// What time it is.

use std::time::Clock;

/// The time of the monotonic clock in milliseconds; 0 if the clock can't be read.
pub fn millis<R: Clock>(rt: &R) -> u64 {
    match rt.monotonic() {
        Ok(time) => u64::try_from(time.as_millis()).unwrap_or(u64::MAX),
        Err(_) => 0,
    }
}

/// The time in seconds since 1970; 0 if the clock can't be read.
pub fn seconds<R: Clock>(rt: &R) -> u64 {
    match rt.since_1970() {
        Ok(time) => time.as_secs(),
        Err(_) => 0,
    }
}
