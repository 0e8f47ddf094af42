// Rounds of a leaf's calls.
ghost use Rattle.std.specs.Prelude.{◌≡◌};

/// A leaf with rows in it, and the calls of it that are measured.
pub(crate) trait Rounds: Drop {
    /// How many calls a round makes.
    const CALLS: u8;

    /// Makes these calls, and gives the sum of what they answered. Rounds are numbered from 0.
    fn round(&mut self, number: u32) -> u64
        ensures { self.new ≡ self.old };
}

/// What was done.
#[derive(Clone, Copy)]
pub(crate) struct Ran {
    /// How many calls were made.
    pub(crate) calls: u64,
    /// The wrapping sum of what they answered.
    pub(crate) sum: u64,
}

/// Makes `rounds` rounds.
pub(crate) fn run<L: Rounds>(mut leaf: L, rounds: u32) -> Ran {
    let mut sum = 0u64;
    for number in 0..rounds {
        sum = sum.wrapping_add(leaf.round(number));
    }
    Ran {
        calls: u64::from(rounds) * u64::from(L::CALLS),
        sum,
    }
}
