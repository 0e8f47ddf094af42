//! Contexts that are bound to one another and can be cancelled: a cancellation reaches all that is
//! bound below a context, and nothing above it (the oneAPI's `task_group_context`).
#![tactic(auto)]

mod below;
mod bindings;
mod contexts;
mod flags;

pub use bindings::ContextId;
pub use contexts::{BASE_CONTEXTS, CONTEXTS_PER_ROW, Contexts, MAX_ROWS};
