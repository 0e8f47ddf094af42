// A file to which bytes are added at its end.
ghost use Rattle.std.specs.Prelude.{◌≡◌, ◌≤◌, ◌++◌, [], List, ℕ, length, take, OnOk, OnErr};
ghost use Rattle.part_writer.specs.declared.files.PartFault.TheVariants.{Memory};
ghost use Rattle.part_writer.specs.Moments.{Elapses, FailedSince, CrashLeaves};

use std::alloc::AllocError;

/// Why a part was not written.
#[derive(Clone, Copy, Debug, PartialEq, Eq)]
pub enum PartFault {
    /// An allocation failed.
    Memory,
    /// The file failed.
    Failed,
    /// No history holds the entry.
    NoEntry,
}

impl From<AllocError> for PartFault {
    ghost from_gives = { λ _ e. e ≡ Memory };

    fn from(_error: AllocError) -> PartFault {
        PartFault::Memory
    }
}

/// A file to which bytes are added at its end, and what a crash leaves of it.
pub trait PartFile {
    /// The bytes that are on the disk for certain.
    ghost durable: { Self → List ℕ };

    /// The bytes that were added since.
    ghost pending: { Self → List ℕ };

    /// The moment, as a number that doesn't fall.
    ghost moment: { Self → ℕ };

    /// What a crash at some moment from that one on might have left, during a call or between two.
    ghost left_since: { Self → ℕ → List ℕ → Type 0 };

    /// How often the disk has failed.
    ghost faults: { Self → ℕ };

    /// Adds bytes at the end. At a fault some of them may have been added.
    fn append(&mut self, bytes: &[u8]) -> Result<(), PartFault>
        ensures same { durable self.new ≡ durable self.old }
        ensures added { OnOk result (pending self.new ≡ pending self.old ++ bytes.now) }
        ensures time { Elapses (moment self.old) (moment self.new)
            (left_since self.old) (left_since self.new)
            (CrashLeaves (durable self.old) (pending self.old ++ bytes.now)) }
        ensures cause { FailedSince (faults self.old) (faults self.new) result };

    /// Brings all bytes to the disk.
    fn sync(&mut self) -> Result<(), PartFault>
        ensures durable { OnOk result (durable self.new ≡ durable self.old ++ pending self.old) }
        ensures none { OnOk result (pending self.new ≡ []) }
        ensures time { Elapses (moment self.old) (moment self.new)
            (left_since self.old) (left_since self.new)
            (CrashLeaves (durable self.old) (pending self.old)) }
        ensures cause { FailedSince (faults self.old) (faults self.new) result };

    /// This moment is one of those since an earlier one.
    ghost counts_now: { (file : Self) (t : ℕ) (left : List ℕ) → t ≤ moment file
        → CrashLeaves (durable file) (pending file) left → left_since file t left };

    /// Since this moment there is no other.
    ghost only_now: { (file : Self) (left : List ℕ) → left_since file (moment file) left
        → CrashLeaves (durable file) (pending file) left };
}
