// What threads share: a tenant behind its door, queues of calls, and a worker.
pub(super) mod locks;
mod queues;
mod sleepers;
mod workers;
