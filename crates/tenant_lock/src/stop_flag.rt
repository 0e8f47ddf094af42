// One thread told to stop waiting.

use std::sync::atomic::{AtomicBool, Ordering};

/// Whether one thread is to stop waiting at the doors of tenants. Another thread raises it, and it stays raised until
/// it is lowered.
#[derive(Drop)]
pub struct StopFlag {
    is_raised: AtomicBool,
}

impl StopFlag {
    /// A flag that is not raised.
    pub fn new() -> StopFlag {
        StopFlag {
            is_raised: AtomicBool::new(false),
        }
    }

    /// Raises the flag. A thread that waits sees it once it is woken (`TenantDoor::wake`).
    pub fn raise(&self) {
        self.is_raised.store(true, Ordering::SeqCst);
    }

    /// Lowers the flag.
    pub fn lower(&self) {
        self.is_raised.store(false, Ordering::SeqCst);
    }

    /// Whether the flag is raised.
    pub fn is_raised(&self) -> bool {
        self.is_raised.load(Ordering::SeqCst)
    }
}
