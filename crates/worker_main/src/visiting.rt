// How long workers stay at a slot.

/// How long a worker stays at a slot whose tenant has rows for it.
#[derive(Clone, Copy, Debug, PartialEq, Eq)]
pub enum Visiting {
    /// As long as the tenant has rows. A tenant with more slots than there are workers then keeps
    /// all of them while it has rows.
    Staying,
    /// As long as no other call of the tenant's level or of a higher one waits. If one does, the
    /// worker leaves as soon as no row is on the slot, and the slot's own call goes behind it.
    Sharing,
}
