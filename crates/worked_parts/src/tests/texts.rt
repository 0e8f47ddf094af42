// Refusals, lines, replies, and readers and writers that fail.
mod lines;
mod readers;
mod refusals;
mod replies;
mod requests;
mod writers;
