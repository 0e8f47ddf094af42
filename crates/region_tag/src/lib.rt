//! The region that each open row of a tenant is in, and the regions around it.
#![tactic(auto)]

mod regions;
mod row_id;

pub use regions::{Regions, Tagged};
pub use row_id::RowId;
