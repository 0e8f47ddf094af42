// What becomes of a term that is closed.
ghost use Rattle.std.specs.Prelude.{◌≡◌};
ghost use Rattle.host_filing.specs.Fates.{unwritten};

use host_records::TermEnd;

/// What became of a term's history.
#[derive(Clone, Copy, Debug, PartialEq, Eq)]
pub(crate) enum Fate {
    /// It is in its file.
    Dumped,
    /// Its journal has it, for the next start.
    Journaled,
    /// It is lost.
    Lost,
}

impl Fate {
    /// That of a history that can't be written to its file.
    pub(crate) fn unwritten(end: &TermEnd) -> Fate
        ensures { result ≡ unwritten end.now }
    {
        if end.is_journaled {
            Fate::Journaled
        } else {
            Fate::Lost
        }
    }
}

/// A term that is done with: its files are written, or it is known that they can't be.
#[derive(Clone, Copy, Debug, PartialEq, Eq)]
pub struct Filed {
    /// Its tenant's number at the host.
    pub tenant: usize,
    /// Its own number.
    pub term: u64,
}
