//! From functions of the source language to procedures of a job.
#![tactic(auto)]

mod branches;
mod checks;
mod compile;
mod emit;
mod errors;
mod labels;
mod laws;
mod memory;
mod narrow;
mod needs;
mod programs;
mod registers;
mod sizes;
mod virtuals;

pub use checks::is_valid_proc;
pub use compile::{code_in, compile_function, compile_in, plain_proc};
pub use errors::{CompileError, ProgramError, Refusal};
pub use laws::{code_is_compiled, coloured_code_is_compiled, runs_follow, worked_example};
pub use memory::{Memory, ProgramMemory};
pub use narrow::narrow_two;
pub use programs::{are_calls, compile_procs, compile_program};
pub use virtuals::{VirtualCode, VirtualInstr};
