// What a private run passes through.

/// What a worker calls between a private run and its commit.
pub trait Gate {
    /// Called once for each segment that was made, outside any lock. Tenants and slots are numbered
    /// from 0.
    fn inside(&self, tenant: usize, slot: u8);
}

/// A gate that does nothing.
#[derive(Clone, Copy, Debug)]
pub struct NoGate;

impl Gate for NoGate {
    fn inside(&self, _tenant: usize, _slot: u8) {}
}
