//! The terms of a host's tenants, the places of sessions in them, and the workers that serve them: a session belongs to a
//! tenant and stays when its terms follow one another, and workers come to all terms.
#![tactic(auto)]

mod admissions;
mod board;
mod crowd;
mod desks;
mod endings;
mod hosts;
mod outbox;
mod places;
mod reception;
mod roster;
mod tenancies;
mod terms;

pub use admissions::Admission;
pub use board::Board;
pub use desks::Desk;
pub use endings::Ending;
pub use hosts::Host;
pub use outbox::{Outbox, Owed};
pub use places::Place;
pub use reception::{Cuts, Reception};
pub use tenancies::{Found, Tenancy};
pub use terms::{Booking, HostTerm};
