//! The lines of a dump: a tenant, and the entries of its history, read and written.
#![tactic(auto)]

mod laws;
mod lines;
mod members;
mod replies;
mod requests;
mod whole;
mod writing;

pub use laws::{dumps_have_these_lines, replies_have_one_text};
pub use lines::{Said, said_by};
pub use requests::{request_in, tenant_of};
pub use whole::{DumpFault, write_dump};
pub use writing::{entry_line, first_line};
