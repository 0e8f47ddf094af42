//! The source language of jobs, as a tree in which names are numbers, and what a function of it does.
#![tactic(auto)]

mod laws;
mod syntax;

pub use laws::worked_examples;
pub use syntax::{Expr, Function, Maker, Operator, Question, Stmt, Test};
