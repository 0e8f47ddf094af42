// Why words are not read.
ghost use Rattle.std.specs.Prelude.{◌≡◌, ◌≢◌};
ghost use Rattle.program_words.specs.declared.faults.WordsFault.TheVariants.{Memory};

use clap::error::ErrorKind;
use std::alloc::AllocError;
use thiserror::Error as DeriveError;

/// Why words are not read.
#[derive(Clone, Copy, Debug, PartialEq, Eq, DeriveError)]
pub enum WordsFault {
    #[error("these are not words that the program is called with")]
    Words,
    #[error("an allocation failed")]
    Memory,
}

impl From<AllocError> for WordsFault {
    ghost from_gives = { λ _ e. e ≡ Memory };

    fn from(_error: AllocError) -> WordsFault {
        WordsFault::Memory
    }
}

/// What an error of clap is.
pub(crate) fn fault_of(kind: ErrorKind) -> WordsFault
    ensures words { result ≡ WordsFault.Words → kind ≢ ErrorKind.OutOfMemory }
    ensures memory { result ≡ WordsFault.Memory → kind ≡ ErrorKind.OutOfMemory }
{
    match kind {
        ErrorKind::OutOfMemory => WordsFault::Memory,
        _ => WordsFault::Words,
    }
}
