//! Worked examples and faults of what threads share, each at its own calls: what no built program shows by itself. They
//! are tests alone; what is expected was worked out from the documents, not taken from a run.
#![tactic(auto)]

#[cfg(test)]
mod tests;
