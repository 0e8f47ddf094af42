//! The tokens of a source of the job language.
#![tactic(auto)]

mod breaks;
mod built_ins;
mod bytes;
mod givens;
mod lexemes;
mod numbers;
mod scanning;
mod signs;
mod tokens;
mod words;

pub use givens::{Given, are_params, tokens_with};
pub use scanning::tokens_in;
pub use tokens::{BuiltIn, Gathers, Kind, Part, Sign, Token};
