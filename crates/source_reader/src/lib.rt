//! Sources of the job language, read as trees of its core.
#![tactic(auto)]

mod ahead;
mod arguments;
mod bodies;
mod built_ins;
mod calls;
mod cells;
mod constants;
mod declaring;
mod extents;
mod faults;
mod folding;
mod functions;
mod gathering;
mod givers;
mod giving;
mod groups;
mod halving;
mod headers;
mod inlines;
mod items;
mod joining;
mod keys;
mod laws;
mod layouts;
mod lines;
mod loops;
mod marks;
mod nameless;
mod names;
mod operands;
mod parameters;
mod places;
mod questions;
mod ranges;
mod returns;
mod simple;
mod source;
mod statements;
mod statuses;
mod tasks;
mod trees;
mod truths;
mod values;
mod variables;
mod waits;
mod widths;

pub use faults::Wrong;
pub use laws::{built_ins_have_values, widths_keep_arguments};
pub use places::Place;
pub use source::{
    SourceError, SourceFault, function_place, function_title, named_variables, read_source,
};
pub use variables::NamedVariable;
