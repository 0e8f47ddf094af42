// Calls for workers.

/// A call for a worker to come to a slot of a tenant, both numbered from 0.
#[derive(Clone, Copy, Debug, PartialEq, Eq)]
pub struct Call {
    pub tenant: usize,
    pub slot: u8,
}
