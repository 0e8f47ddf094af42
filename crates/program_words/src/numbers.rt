// Numbers among words.
ghost use Rattle.std.specs.Prelude.{◌≡◌, ◌≤◌, ◌<◌, MatchOption, option_map};
ghost use Rattle.program_words.specs.Numbers.{NamesNumber, NamesNoNumber, IsGiven, IsMisgiven};

/// A number that a word may name: from `least` to `most`, in digits of that radix.
#[derive(Clone, Copy, Debug)]
pub(crate) struct Range {
    pub(crate) radix: u32,
    pub(crate) least: u32,
    pub(crate) most: u32,
}

impl Range {
    /// A range of decimal numbers.
    pub(crate) const fn decimal(least: u32, most: u32) -> Range
        ensures { result ≡ record { radix = 10; least = least; most = most } }
    {
        Range {
            radix: 10,
            least,
            most,
        }
    }

    /// The number that a text names, if it names one of the range.
    pub(crate) fn number_in(self, text: &str) -> Option<u32>
        requires least { 2 ≤ self.radix }
        requires most { self.radix ≤ 36 }
        ensures { MatchOption result (NamesNoNumber self text.now) (NamesNumber self text.now) }
    {
        match u32::from_str_radix(text, self.radix) {
            Ok(number) if self.least <= number && number <= self.most => Some(number),
            _ => None,
        }
    }

    /// The number that an option was given, or the other one if it was given none. None if it was given a text that
    /// names no number of the range.
    pub(crate) fn given_or(self, value: Option<&str>, other: u32) -> Option<u32>
        requires least { 2 ≤ self.radix }
        requires most { self.radix ≤ 36 }
        ensures { MatchOption result (IsMisgiven self (option_map (λ text. text.now) value.entry))
            (IsGiven self other (option_map (λ text. text.now) value.entry)) }
    {
        match value {
            Some(text) => self.number_in(text),
            None => Some(other),
        }
    }
}
