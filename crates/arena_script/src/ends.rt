// How a script ends.
ghost use Rattle.std.specs.Prelude.{◌≡◌, option_map};
ghost use Rattle.arena_script.specs.Ends.{status_of, fault_of};
ghost use Rattle.arena_script.specs.declared.ends.ScriptEnd.TheVariants.{Device, Memory};

use crate::devices::DeviceFault;
use std::alloc::{AllocError, AllocFailed};

/// How a script ended.
#[derive(Clone, Copy, Debug, PartialEq, Eq)]
pub enum ScriptEnd {
    /// All lines were answered.
    Done,
    /// A line of a dump can't be read as one; the last line of the output names it.
    BadLine,
    /// The program was not called with words that it knows.
    Words,
    /// The first line names no tenant, or is no configuration.
    Config,
    /// An entry of the dump that was to be finished is not what its tenant answers.
    History,
    /// The reader or the writer failed, or the reader was called too often.
    Device,
    /// An allocation failed.
    Memory,
}

impl ScriptEnd {
    /// The status that the process ends with.
    pub fn status(self) -> u8
        ensures { result ≡ status_of self }
    {
        match self {
            ScriptEnd::Done => 0,
            ScriptEnd::BadLine | ScriptEnd::Words | ScriptEnd::Config | ScriptEnd::History => 2,
            ScriptEnd::Device | ScriptEnd::Memory => 3,
        }
    }

    /// What the process writes to standard error.
    pub fn fault(self) -> Option<&'static str>
        ensures { option_map (λ text. text.now) result ≡ fault_of self }
    {
        match self {
            ScriptEnd::Done | ScriptEnd::BadLine => None,
            ScriptEnd::Words => Some("arena-script: words"),
            ScriptEnd::Config => Some("arena-script: config"),
            ScriptEnd::History => Some("arena-script: history"),
            ScriptEnd::Device => Some("arena-script: device"),
            ScriptEnd::Memory => Some("arena-script: memory"),
        }
    }
}

impl From<AllocError> for ScriptEnd {
    ghost from_gives = { λ _ e. e ≡ Memory };

    fn from(_error: AllocError) -> ScriptEnd {
        ScriptEnd::Memory
    }
}

impl From<DeviceFault> for ScriptEnd {
    ghost from_gives = { λ _ e. e ≡ Device };

    fn from(_fault: DeviceFault) -> ScriptEnd {
        ScriptEnd::Device
    }
}
