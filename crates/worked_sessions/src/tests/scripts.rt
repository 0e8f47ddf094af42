// Scripts by readers and writers that fail.
mod devices;
