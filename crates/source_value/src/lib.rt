//! From the text of a source to the value of its job, and to the line that a tenant replies.
#![tactic(auto)]

mod errors;
mod jobs;
mod laws;
mod replies;
mod tenants;
mod values;

pub use errors::SourceError;
pub use laws::texts_have_values;
pub use replies::{reply_line_of_source, reply_of_source};
pub use tenants::lone_tenant;
pub use values::value_of_source;
