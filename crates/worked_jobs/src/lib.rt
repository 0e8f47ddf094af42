//! Jobs as customers write them, whose steps and values were worked out by hand, and what the crates of tests share.
#![tactic(auto)]

mod jobs;
mod tenants;

pub use jobs::{
    CANCEL_THEN_WAIT, CHAIN, CLASSIC, FIB, FIRST, HALF, ISOLATED, JobText, LEAST_BY_MINUS_ONE,
    NESTED, NINE, NOT_VALID, PLAIN, POSTED, SLOT, SPIN, STOLEN, UNUSED, UNWAITED, WRAP,
    ZERO_DIVISOR,
};
pub use tenants::{FIB_OF_SIX, job_of, tenant};
