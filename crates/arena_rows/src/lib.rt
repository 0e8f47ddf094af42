//! The open rows of one tenant in the parts that answer at a cost that does not grow, and which states they stand for.
#![tactic(auto)]

mod arrivals;
mod changes;
mod dropped_spawns;
mod endings;
mod finishing;
mod founding;
mod frames;
mod isolated;
mod job_places;
mod jobs;
mod limits;
mod marks;
mod open_rows;
mod parts;
mod posts;
mod reads;
mod retiring;
mod rows;
mod settled;
mod settling;
mod spawns;
mod stepping;
mod submits;
mod taking;
mod tells;

pub use parts::Parts;
pub use rows::{CurrentJob, OpenRow, Source, Stage};
