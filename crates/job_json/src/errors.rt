// Where a value breaks the rules of its format, and why it was not read.
ghost use Rattle.job_json.specs.Refused.{IsMemory};

use std::alloc::{AllocError, AllocFailed};
use thiserror::Error;

/// Where a value first breaks the rules of its format.
#[derive(Clone, Copy, Debug, PartialEq, Eq)]
pub enum Place {
    /// Before any instruction: the shape of the whole, its numbers, or the lengths of its lists.
    Head,
    /// At an instruction of a procedure, both numbered from 0.
    At(usize, usize),
}

/// Why a value was not read.
#[derive(Debug, Drop, Error)]
pub enum Refused {
    #[error("not valid at {place:?}")]
    Bad { place: Place },
    #[error("out of memory")]
    Memory(AllocError),
}

impl From<AllocError> for Refused {
    ghost from_gives = { λ _ e. IsMemory e };

    fn from(error: AllocError) -> Refused {
        Refused::Memory(error)
    }
}

impl<T: Drop> From<AllocFailed<T>> for Refused {
    ghost from_gives = { λ _ e. IsMemory e };

    fn from(error: AllocFailed<T>) -> Refused {
        Refused::Memory(AllocError::from(error))
    }
}
