// The value of a source.
ghost use Rattle.std.specs.Prelude.{[], ◌∷◌, map, IfOk, IfErr, IfSome};
ghost use Rattle.source_tokens.specs.Givens.{view_given};
ghost use Rattle.source_value.specs.Refusals.{IsNotRun};
ghost use Rattle.source_value.specs.TextValues.{HasValue, IsSerialValueOf};

use crate::errors::SourceError;
use crate::jobs::serial_job_of;
use serial_eval::serial;
use source_serial::source_values;
use source_tokens::Given;
use std::alloc::Global;

/// The value of a source: what its first function gives with two arguments, if each task runs as soon
/// as it is made. It is `None` if that takes more than `most` instructions of the job that
/// `arena-compile` makes of the source, and at a divisor of 0.
pub fn value_of_source(
    alloc: Global,
    first: i64,
    second: i64,
    givens: &[Given],
    text: &[u8],
    most: u64,
) -> Result<Option<i64>, SourceError>
    ensures value { IfOk result (λ o. IfSome o (HasValue (map view_given givens.now) text.now (first ∷ second ∷ []))) }
    ensures program { IfOk result (IsSerialValueOf (map view_given givens.now) text.now (first ∷ second ∷ []) most) }
    ensures refused { IfErr result (IsNotRun (map view_given givens.now) text.now) }
{
    source_values();
    let job = serial_job_of(alloc, first, second, givens, text)?;
    match serial(alloc, &job.program, job.args, most) {
        Ok(value) => Ok(value),
        Err(_) => Err(SourceError::Memory),
    }
}
