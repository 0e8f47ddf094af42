// Whose turn it is.
ghost use Rattle.std.specs.Prelude.{◌≡◌, ◌<◌, ◌≤◌, ℕ, IfSome, None, length};
ghost use Rattle.term_life.specs.Turns.{IsFirst, IsNext, Waits};

/// The place whose turn it is among those that wait, which stand in a ring, after the turn of the last one. None if
/// none waits.
pub fn next_turn(waits: &[bool], last: usize) -> Option<usize>
    requires { last < length waits.now }
    ensures next { IfSome result (λ place. IsNext waits.now last place) }
    ensures none { result ≡ None → (place : ℕ) → Waits waits.now place → ⊥ }
{
    let start = last + 1;
    match first_from(waits, start, waits.len()) {
        Some(place) => Some(place),
        None => first_from(waits, 0, start),
    }
}

/// The first of the places from `low` on, below `high`, that waits.
fn first_from(waits: &[bool], low: usize, high: usize) -> Option<usize>
    requires { (low ≤ high) × (high ≤ length waits.now) }
    ensures { IsFirst waits.now low high result }
{
    for place in low..high {
        if waits[place] {
            return Some(place);
        }
    }
    None
}
