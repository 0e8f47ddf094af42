// Why a source is not run.
use arena_compile::CompileFault;

/// Why a source is not run.
#[derive(Clone, Copy)]
pub enum SourceError {
    /// An allocation failed.
    Memory,
    /// It has a fault, or a function that can't be compiled.
    Fault(CompileFault),
    /// It depends on more than a serial value does: a slot, the width of its arena, a cell, or whether it is cancelled;
    /// or it posts a task.
    NotSerial,
}
