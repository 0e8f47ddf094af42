// Sessions over memory: worked examples, and readers and writers that fail.
mod desks;
mod devices;
mod faults;
mod sessions;
