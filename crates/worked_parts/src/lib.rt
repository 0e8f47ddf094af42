//! Worked examples and faults of the parts of an arena, of lines and of replies, each at its own calls: what no built
//! program shows by itself. They are tests alone; what is expected was worked out from the documents, not taken from a
//! run.
#![tactic(auto)]

#[cfg(test)]
mod tests;
