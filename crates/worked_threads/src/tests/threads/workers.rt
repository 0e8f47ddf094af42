//! Visits of one worker at doors in memory.
mod sharing;
mod tours;
mod visits;
