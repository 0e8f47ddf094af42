// The words that the program is called with.
use crate::stops::Stop;

/// What is measured.
#[derive(Clone, Copy)]
pub(crate) enum What {
    /// Jobs on an arena or a tenant's cell.
    Arena,
    /// The calls of the arena's leaves.
    Leaves,
    /// Threads at the locked doors of tenants.
    Locks,
    /// The private run of a job's root.
    PrivateRun,
    /// Requests that are read.
    Reading,
}

/// All of it, in the order in which it is done without words.
pub(crate) const ALL: [What; 5] = [
    What::Arena,
    What::Leaves,
    What::Locks,
    What::PrivateRun,
    What::Reading,
];

impl What {
    /// What has that word.
    pub(crate) fn named(word: &str) -> Result<What, Stop> {
        match word {
            "arena" => Ok(What::Arena),
            "leaves" => Ok(What::Leaves),
            "locks" => Ok(What::Locks),
            "private_run" => Ok(What::PrivateRun),
            "reading" => Ok(What::Reading),
            _ => Err(Stop::Words),
        }
    }
}

/// The number that a word spells.
pub(crate) fn number_in(word: &str) -> Result<usize, Stop> {
    word.parse().ok().ok_or(Stop::Words)
}
