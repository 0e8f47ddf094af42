// Jobs: a program, its two arguments and its fuel.
ghost use Rattle.std.specs.Prelude.{◌≡◌, ◌≤◌, ◌&&◌, nat_le, if◌then◌else◌, Some, None, IfOk};

use crate::programs::Program;
use std::alloc::AllocError;
use std::marker::Model;

/// The most fuel that a job may be given; the least is 1.
pub const MAX_FUEL: u64 = 1_000_000;

/// How many instructions a job may execute, from 1 to 1,000,000.
#[derive(Clone, Copy, Debug, PartialEq, Eq)]
pub struct Fuel(u32);

impl Model for Fuel {
    ghost use Rattle.std.specs.Prelude.{ℕ, ◌≤◌};
    ghost use Rattle.job_language.specs.declared.jobs.TheConstants.{MAX_FUEL};

    ghost Value = { ℕ };

    ghost view = { λ f. f.0 };

    ghost invariant = { λ f. (1 ≤ f.0) × (f.0 ≤ MAX_FUEL) };

    ghost inverse = { λ n. record { 0 = n } };
}

impl Fuel {
    /// That much fuel, if a job may be given it.
    pub fn new(instructions: u64) -> Option<Fuel>
        ensures { result ≡ (if nat_le 1 instructions && nat_le instructions MAX_FUEL
            then Some instructions else None) }
    {
        if 1 <= instructions && instructions <= MAX_FUEL {
            Some(Fuel(instructions as u32))
        } else {
            None
        }
    }

    /// How many instructions it pays for.
    pub fn instructions(self) -> u64
        ensures value { result ≡ self }
        ensures some { 1 ≤ result }
        ensures most { result ≤ MAX_FUEL }
    {
        u64::from(self.0)
    }
}

/// What a tenant wants worked off: the root runs procedure 0 with the two arguments in registers 0
/// and 1.
#[derive(Drop)]
pub struct Job {
    pub program: Program,
    pub args: [i64; 2],
    pub fuel: Fuel,
}

impl Job {
    /// The same job, over the same program. It fails only if `Program::try_clone` does.
    pub fn try_clone(&self) -> Result<Job, AllocError>
        ensures { IfOk result (λ job. job ≡ self.now) }
    {
        Ok(Job {
            program: self.program.try_clone()?,
            args: self.args,
            fuel: self.fuel,
        })
    }
}
