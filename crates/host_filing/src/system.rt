// The system that a host runs on.

use std::fs::{File, Files};
use std::net::Net;
use std::sync::Wait;
use std::thread::Threads;
use std::time::Clock;

/// What a host needs of the system that it runs on.
pub trait System: Files<File = File>
    + Net
    + Threads
    + Wait
    + Clock
    + Sync
    + AllocGlobal
    + Clone
    + Drop {}

impl<R> System for R
where
    R: Files<File = File> + Net + Threads + Wait + Clock + Sync + AllocGlobal + Clone + Drop,
{}
