// How many rows are open, and how they are named.
ghost use Rattle.std.specs.Prelude.{◌≡◌, ◌+◌, ◌≤◌, ◌↔◌, IsSome, IfSome};

use job_language::MAX_ROWS;
use region_tag::RowId;
use std::marker::Model;

/// How many rows are open while a round is made: 2 at least, `MAX_ROWS` at most.
#[derive(Clone, Copy)]
pub(crate) struct Rows {
    number: usize,
}

impl Model for Rows {
    ghost use Rattle.std.specs.Prelude.{ℕ, ◌≤◌};
    ghost use Rattle.job_language.specs.declared.tenants.TheConstants.{MAX_ROWS};

    ghost Value = { ℕ };

    ghost view = { λ r. r.number };

    ghost invariant = { λ r. (2 ≤ r.number) × (r.number ≤ MAX_ROWS) };

    ghost inverse = { λ n. record { number = n } };
}

impl Rows {
    /// None if there are fewer or more.
    pub(crate) fn new(number: usize) -> Option<Rows>
        ensures some { IsSome result ↔ ((2 ≤ number) × (number ≤ MAX_ROWS)) }
        ensures value { IfSome result (λ rows. rows ≡ number) }
    {
        if number < 2 || number > MAX_ROWS {
            return None;
        }
        Some(Rows { number })
    }

    pub(crate) fn number(self) -> usize
        ensures value { result ≡ self }
        ensures least { 2 ≤ result }
        ensures most { result ≤ MAX_ROWS }
    {
        self.number
    }
}

/// The row that is at a place before all rounds: numbers are from 1, in the order of places.
pub(crate) fn row_at(place: usize) -> RowId
    requires { place ≤ MAX_ROWS }
    ensures number { result.number ≡ place + 1 }
    ensures place { result.place ≡ place }
{
    RowId {
        number: place as u64 + 1,
        place,
    }
}

/// The row of a round, at the place that is left for it. Its number is above those of all rows before.
pub(crate) fn row_of_round(number: u32, place: usize) -> RowId
    ensures number { MAX_ROWS + 1 ≤ result.number }
    ensures place { result.place ≡ place }
{
    RowId {
        number: MAX_ROWS as u64 + 1 + u64::from(number),
        place,
    }
}
