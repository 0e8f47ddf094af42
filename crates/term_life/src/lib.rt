//! What a host decides of its tenants' terms: when the next one is opened, and who waits for it; their lives, with the
//! numbers of their jobs; whose turn it is among tenants; whether one more worker is to come; how long a connection may
//! do nothing; what is tried again; and which outcomes and dumps stay.
#![tactic(auto)]

mod dumps;
mod outcomes;
mod pace;
mod patience;
mod shares;
mod spans;
mod tending;
mod terms;
mod trials;
mod turns;
mod wishes;

pub use dumps::Shelf;
pub use outcomes::{Outcome, Outcomes, running};
pub use pace::{Glance, Pace, STRETCH, Verdict};
pub use patience::{Overdue, Patience, Seen};
pub use shares::is_used;
pub use spans::Span;
pub use tending::{Beat, MOST_TERMS, Order, Step, Tending};
pub use terms::{MOST_JOBS, Stage, Term, Terms, Why};
pub use trials::Trial;
pub use turns::next_turn;
pub use wishes::{Awaited, Waiting, Wishes};
