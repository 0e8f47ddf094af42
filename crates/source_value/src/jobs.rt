// The serial job of a source.
ghost use Rattle.std.specs.Prelude.{◌≡◌, true, [], ◌∷◌, map, IfOk, IfErr};
ghost use Rattle.job_language.specs.Serial.{is_serial};
ghost use Rattle.source_tokens.specs.Givens.{view_given};
ghost use Rattle.arena_compile.specs.Jobs.{IsJobOf};
ghost use Rattle.source_value.specs.Refusals.{IsNotRun};

use crate::errors::SourceError;
use arena_compile::{CompileError, job_of};
use job_language::Job;
use source_tokens::Given;
use std::alloc::Global;

/// The job of a source, with all the fuel that a job may have, if it is serial.
pub(crate) fn serial_job_of(
    alloc: Global,
    first: i64,
    second: i64,
    givens: &[Given],
    text: &[u8],
) -> Result<Job, SourceError>
    ensures made { IfOk result (IsJobOf (first ∷ second ∷ []) (map view_given givens.now) text.now) }
    ensures serial { IfOk result (λ job. is_serial job.program ≡ true) }
    ensures refused { IfErr result (IsNotRun (map view_given givens.now) text.now) }
{
    match job_of(alloc, [first, second], givens, text) {
        Ok(job) => {
            if job.program.is_serial() {
                Ok(job)
            } else {
                Err(SourceError::NotSerial)
            }
        }
        Err(CompileError::Memory) => Err(SourceError::Memory),
        Err(CompileError::Fault(fault)) => Err(SourceError::Fault(fault)),
    }
}
