//! One history of a tenant for all threads: a registry of the lives that tenants have in a process, beginnings of a
//! life's history that a thread has seen, and its whole under the tenant's lock.
#![tactic(auto)]

mod book;
mod lives;
mod steps;

pub use book::{Front, Whole};
pub use lives::{Life, Naming, OpenedRegistry, Registry};
