//! The sessions of a host: each belongs to a tenant, and goes to the term that serves, or to that of the job which a
//! request names.
#![tactic(auto)]

mod attending;
mod numbering;
mod sessions;
mod streams;

pub use attending::attend_desk;
