// Where a job stands among those that are held, in the order of their numbers.
ghost use Rattle.std.specs.Prelude.{◌≡◌, ◌<◌, length, slice_index_or, IfSome};
ghost use Rattle.arena_rows.specs.declared.rows.CurrentJob.{CurrentJob};
ghost use Rattle.arena_rows.specs.Held.{NumbersRise, place_of};

use crate::rows::CurrentJob;

/// How many jobs have smaller numbers: the place of the job of that number, if it is there.
pub(crate) fn place_of(jobs: &[CurrentJob], number: u64) -> usize
    ensures { NumbersRise jobs.now → result ≡ place_of jobs.now number }
{
    match place_from_last(jobs, number) {
        Some(place) => place,
        None => jobs.partition_point(|job| job.number < number),
    }
}

/// The place of the job of that number, if it is there and so are all that were made after it.
fn place_from_last(jobs: &[CurrentJob], number: u64) -> Option<usize>
    ensures within { IfSome result (λ place. place < length jobs.now) }
    ensures there { IfSome result
        (λ place. (d : CurrentJob) → (slice_index_or jobs.now place d).number ≡ number) }
{
    let later = jobs.last()?.number.checked_sub(number)?;
    if later >= jobs.len() as u64 {
        return None;
    }
    let place = jobs.len() - 1 - later as usize;
    if jobs[place].number == number {
        Some(place)
    } else {
        None
    }
}
