//! Many tenants and the market between them, on one thread: each step of a connection, a master or
//! a worker goes to the arena of one tenant or to the market.
#![tactic(auto)]

mod arenas;
mod lines;
mod raws;
mod starting;
mod steps;
mod worlds;

pub use arenas::TenantArena;
pub use raws::Raw;
pub use worlds::World;
