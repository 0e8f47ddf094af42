//! The scripts of `arena-script`: lines of steps in, lines of answers out.
#![tactic(auto)]

mod bytes;
mod checks;
mod commands;
mod devices;
mod dumps;
mod ends;
mod finishing;
mod inputs;
mod own;
mod runs;
mod scripts;
mod serials;

pub use commands::Command;
pub use ends::ScriptEnd;
pub use inputs::MAX_SCRIPT_LINE;
pub use scripts::script;
