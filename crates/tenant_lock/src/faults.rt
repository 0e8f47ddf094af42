// Why a door that is closed gives no history.
ghost use Rattle.std.specs.Prelude.{◌≡◌};
ghost use Rattle.tenant_lock.specs.FaultCodes.{code_of};

use thiserror::Error as DeriveError;

/// Why a door that was closed gives no history. Slots and seats are numbered from 0.
#[derive(Clone, Copy, Debug, PartialEq, Eq, DeriveError)]
pub enum CloseFault {
    #[error("the pass of slot {0} is not home")]
    PassLost(u8),
    #[error("the pass of slot {0} was told of another number of entries than the history has")]
    CountWrong(u8),
    #[error("the pass of slot {0} was told of other entries than the history has")]
    LogWrong(u8),
    #[error("these are not all seats of the door")]
    SeatMissing,
    /// The number of seats stands for all of them: together they were told of another number of asks.
    #[error("seat {0} was told of other asks than the history has")]
    AskWrong(usize),
    #[error("the tenant's configuration is not that of its door")]
    ConfigWrong,
    #[error("a pass or seat was told that the history is full, and it is not")]
    FullWrong,
}

impl CloseFault {
    /// Its number, from 1 to 7.
    pub fn code(self) -> u8
        ensures { result ≡ code_of self }
    {
        match self {
            CloseFault::PassLost(_) => 1,
            CloseFault::CountWrong(_) => 2,
            CloseFault::LogWrong(_) => 3,
            CloseFault::SeatMissing => 4,
            CloseFault::AskWrong(_) => 5,
            CloseFault::ConfigWrong => 6,
            CloseFault::FullWrong => 7,
        }
    }
}
