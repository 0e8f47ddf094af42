// The steps of a tenant, and the entries of its history.
ghost use Rattle.std.specs.Prelude.{◌≡◌, IfOk, OnErr};
ghost use Rattle.job_language.specs.Brought.{StepBrings};

use crate::answers::Answer;
use crate::requests::Request;
use std::alloc::AllocError;

/// A step of a tenant: an ask, or an arrival or an advance on a slot, numbered from 0.
#[derive(Drop)]
pub enum Step {
    Ask(Request),
    Arrive(u8),
    Advance(u8),
}

impl Step {
    /// The same step. It fails only if it brings a job, as `Program::try_clone` does.
    pub fn try_clone(&self) -> Result<Step, AllocError>
        ensures ok { IfOk result (λ step. step ≡ self.now) }
        ensures brings { OnErr result (StepBrings self.now) }
    {
        match self {
            Step::Ask(request) => Ok(Step::Ask(request.try_clone()?)),
            Step::Arrive(slot) => Ok(Step::Arrive(*slot)),
            Step::Advance(slot) => Ok(Step::Advance(*slot)),
        }
    }
}

/// An entry of a tenant's history.
#[derive(Drop)]
pub struct Entry {
    pub step: Step,
    pub answer: Answer,
}
