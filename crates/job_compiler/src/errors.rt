// Why a function or a program is not compiled.

/// Why a function has no procedure.
#[derive(Clone, Copy, Debug, PartialEq, Eq)]
pub enum Refusal {
    /// It has fewer than two variables, or names one that it does not have.
    NoFunction,
    /// Its variables, with the values that are on the way at once, are more than 255.
    TooManyValues,
    /// It has more than 256 instructions.
    TooLong,
    /// It needs more than 8 registers.
    TooManyRegisters,
}

/// Why a function is not compiled.
#[derive(Clone, Copy, Debug, PartialEq, Eq)]
pub enum CompileError {
    /// An allocation failed.
    NoMemory,
    Refused(Refusal),
}

/// Why functions make no program; a number is that of a function, from 0.
#[derive(Clone, Copy, Debug, PartialEq, Eq)]
pub enum ProgramError {
    /// An allocation failed.
    NoMemory,
    /// There is no function, or there are more than 16.
    Count,
    Refused(usize, Refusal),
    /// It names a procedure that is not there.
    NoProcedure(usize),
}
