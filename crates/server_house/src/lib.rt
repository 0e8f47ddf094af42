//! The house of a server: the tenants that all its threads share, what each thread takes of it, the
//! session of a client, and the close.
#![tactic(auto)]

mod client_seats;
mod closing;
mod fresh;
mod house;
mod owned;
mod posts;
mod returned;
mod sessions;
mod starting;

pub use client_seats::ClientSeats;
pub use fresh::FreshSeats;
pub use house::{House, Opened};
pub use owned::{Lodging, OwnClient, OwnPost, Told};
pub use posts::{Client, Post, Posts};
pub use returned::Returned;
pub use sessions::{serve_calls, serve_client, serve_next};
