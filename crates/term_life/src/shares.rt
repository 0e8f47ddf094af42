// How much of a history is used.
ghost use Rattle.std.specs.Prelude.{◌≤◌, ◌*◌, ◌↔◌, IsTrue};

/// Whether `entries` are at least that many per cent of `steps`. A term is left once that is so of its history.
pub fn is_used(entries: usize, steps: usize, percent: u32) -> bool
    ensures { IsTrue result ↔ (steps * percent ≤ entries * 100) }
{
    entries as u128 * 100 >= steps as u128 * u128::from(percent)
}
