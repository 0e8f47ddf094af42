// Reading jobs from their canonical text, without a JSON value between.
mod instructions;
mod jobs;
mod numbers;
mod operands;
mod valid;

pub use jobs::{read_canonical_job, reads_back};
