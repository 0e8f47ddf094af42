//! Worked examples, and a pass that goes to a thread and comes back.
mod crowd;
mod examples;
mod pushes;
mod spawned;

pub(crate) use pushes::push;
