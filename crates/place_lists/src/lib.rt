//! Lists of places, linked both ways: a place is added at the end of a list, and leaves from anywhere
//! in it, without a walk.
#![tactic(auto)]

mod filing;
mod links;
mod lists;

pub use filing::Filing;
pub use lists::{Lists, Places};
