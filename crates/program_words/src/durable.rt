// How far what a client was told outlives the host.
ghost use Rattle.std.specs.Prelude.{◌≡◌, MatchOption, option_map};
ghost use Rattle.program_words.specs.Durable.{IsGivenDurable, IsMisgivenDurable, durable_named, durable_word};

/// When a reply goes out, and so what outlives what.
#[derive(Clone, Copy, Debug, PartialEq, Eq)]
pub enum Durable {
    /// At once. Jobs end with the host.
    Off,
    /// Once all that the tenant was asked is given to the system: it outlives a kill of the host.
    Write,
    /// The same, and each second it is brought to the disk: at most the last seconds are lost if the power fails.
    Second,
    /// Once all that the tenant was asked is on the disk: it outlives a power cut.
    Reply,
}

impl Durable {
    /// The one of that word.
    pub fn named(word: &str) -> Option<Durable>
        ensures { result ≡ durable_named word.now }
    {
        match word {
            "off" => Some(Durable::Off),
            "write" => Some(Durable::Write),
            "second" => Some(Durable::Second),
            "reply" => Some(Durable::Reply),
            _ => None,
        }
    }

    /// Its word.
    pub fn word(self) -> &'static str
        ensures { result.now ≡ durable_word self }
    {
        match self {
            Durable::Off => "off",
            Durable::Write => "write",
            Durable::Second => "second",
            Durable::Reply => "reply",
        }
    }
}

/// The one that an option was given, or `Write` if it was given none. None if it was given another word.
pub(crate) fn durable_in(value: Option<&str>) -> Option<Durable>
    ensures { MatchOption result
        (IsMisgivenDurable (option_map (λ text. text.now) value.entry))
        (IsGivenDurable (option_map (λ text. text.now) value.entry)) }
{
    match value {
        Some(word) => Durable::named(word),
        None => Some(Durable::Write),
    }
}
