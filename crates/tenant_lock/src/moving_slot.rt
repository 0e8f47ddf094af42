// Which slot of a tenant is moved, where several threads would move slots by turns.

use std::sync::atomic::{AtomicU64, Ordering};

/// How often a thread looks whether the slot that is moved is still moved.
const LOOKS: u32 = 20;

/// How far it counts between two looks: some ten microseconds. It lets nobody have its processor meanwhile, which it might
/// get back only after milliseconds.
const COUNTS: u64 = 1_000;

/// The slot that a thread moves step by step, without a long private run between its steps. Nothing that is answered
/// depends on it.
#[derive(Drop)]
pub(crate) struct MovingSlot {
    slot: AtomicU64,
    /// How often it was moved, more or less: the slot before it may be counted as well.
    moves: AtomicU64,
}

impl MovingSlot {
    /// No slot is moved yet.
    pub(crate) fn new() -> MovingSlot {
        MovingSlot {
            slot: AtomicU64::new(u64::MAX),
            moves: AtomicU64::new(0),
        }
    }

    /// A slot is moved once more. If another one was moved since, that one goes on before, as long as it is moved all the
    /// time, for some tenths of a millisecond at most.
    pub(crate) fn move_again(&self, slot: u8) {
        let slot = u64::from(slot);
        if self.slot.load(Ordering::Relaxed) != slot {
            self.let_go_on();
            self.slot.store(slot, Ordering::Relaxed);
        }
        let moves = self.moves.load(Ordering::Relaxed);
        self.moves.store(moves.wrapping_add(1), Ordering::Relaxed);
    }

    /// Lets the slot that is moved go on.
    fn let_go_on(&self) {
        for _look in 0..LOOKS {
            let seen = self.moves.load(Ordering::Relaxed);
            count_up();
            if self.moves.load(Ordering::Relaxed) == seen {
                return;
            }
        }
    }
}

/// Counts for some ten microseconds, by steps that no compiler leaves out.
fn count_up() {
    let counted = AtomicU64::new(0);
    for _count in 0..COUNTS {
        counted.fetch_add(1, Ordering::SeqCst);
    }
}
