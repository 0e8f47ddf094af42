// The steps of a world.

/// A step of a world: what a connection, a master or a worker does. Tenants, slots and workers are
/// numbered from 0.
#[derive(Drop)]
pub enum Raw {
    /// A line, without its newline, on a connection that is bound to the tenant.
    Line(usize, Vec<u8>),
    /// A master advances a slot of the tenant.
    Master(usize, u8),
    /// The call of a slot of the tenant goes into its queue.
    Push(usize, u8),
    /// The worker asks for a call.
    Pop(usize),
    /// The worker arrives at the slot of the call that it holds.
    Arrive(usize),
    /// The worker advances the slot that it is in.
    Advance(usize),
}
