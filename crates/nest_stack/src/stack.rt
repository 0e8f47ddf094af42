// A row on a stack, and how the stacks are held.
use job_step::Frame;
use region_tag::RowId;

/// How many rows may be live on a slot, regions among them.
pub const MAX_HEIGHT: usize = 128;

const _: () = prove!(MAX_HEIGHT == 128);

/// A row on the stack of a slot.
#[derive(Clone, Copy, Debug, PartialEq, Eq)]
pub struct Nested {
    /// Where the row is in its program.
    pub frame: Frame,
    pub row: RowId,
    pub is_region: bool,
}

/// A row, and the position of the one below it.
#[derive(Clone, Copy)]
pub(crate) struct Node {
    pub(crate) nested: Nested,
    pub(crate) below: Option<usize>,
}

/// How many rows a stack has, and the position of its topmost one.
#[derive(Clone, Copy)]
pub(crate) struct Stack {
    pub(crate) top: Option<usize>,
    pub(crate) height: usize,
}
