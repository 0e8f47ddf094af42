// Why a source is not read.
ghost use Rattle.std.specs.Prelude.{◌≡◌, Err, length};
ghost use Rattle.source_reader.specs.declared.faults.ReadError.TheVariants.{Memory};
ghost use Rattle.source_reader.specs.Faults.{fault_at};

use source_tokens::Token;
use std::alloc::{AllocError, AllocFailed};

/// What is wrong with a source.
#[derive(Clone, Copy, Debug, PartialEq, Eq)]
pub enum Wrong {
    /// Another token was wanted.
    Unexpected,
    /// No variable, constant, cell or inline function of this name is there.
    UnknownName,
    /// A variable, a constant, a cell or an inline function of this name is there already.
    KnownName,
    /// More variables than a function may have.
    TooManyNames,
    /// What the name stands for can't be assigned to.
    NotAssigned,
    /// The value of a constant is not written as a number.
    NoConstant,
    /// The step of a loop is 0, or that of a parallel loop is not from 1 to 1,048,576.
    NoStep,
    /// How many numbers a task of a parallel loop takes is no constant from 1.
    NoGrain,
    /// A constant, a cell or an inline function below a function, or one of the first two below an inline function.
    LateItem,
    /// A name that is given a number is not that of a `param`.
    NoParam,
    /// More constants and cells than a source may have, or more inline functions.
    TooManyItems,
    /// The key of a cell is no number from 0 to 7.
    WrongKey,
    /// Another cell has this key.
    KnownKey,
    /// No key is left for a cell.
    TooManyCells,
    /// A cell inside an expression.
    CellValue,
    /// A division that `&&` or `||` may skip, where a number is wanted.
    SkippedDivision,
    /// A division in what an inline function is given.
    GivenDivision,
    /// Too many operators and parentheses, or too many statements.
    TooLong,
    /// A statement that is never reached.
    NeverReached,
    /// `break` or `continue`, with no loop around it.
    NoLoop,
    /// `give` outside the body of a parallel loop.
    NotGathered,
    /// `return` in the body of a parallel loop.
    GatheringReturn,
    /// A function of this name is there already, or it is `main` and not the first one.
    KnownFunction,
    /// No function of this name is there.
    UnknownFunction,
    /// What is behind the `:` of a parameter is no width.
    NoWidth,
    /// A parameter of the function that the root runs has a width.
    RootWidth,
    /// No number that a task gets has room for a parameter.
    NoRoom,
    /// More parameters than a function may have.
    TooManyParameters,
    /// An argument is a number that does not fit the width of its parameter.
    TooWide,
    /// A function gets more or fewer arguments than it has parameters.
    ArgumentCount,
    /// A task or a group, where a variable is wanted, that was not waited for.
    NotWaited,
    /// A wait for a task that may be skipped or done again here, or in a block inside the one that declares the task.
    WaitSkipped,
    /// What is waited for is no task, or a group that was waited for before.
    NoTask,
    /// What a group adds up to, inside an expression.
    GroupValue,
    /// Where a group that was not waited for is wanted, or a task to cancel, there is none of this name.
    NotGroup,
    /// A block inside that of the function ends, and a task or a group of its own was not waited for.
    TaskLeft,
    /// More tasks and groups that were not waited for than a function may have.
    NoGroup,
    /// More functions than a job may have, of which each parallel loop has one.
    TooManyFunctions,
    /// There is no function.
    NoFunction,
}

/// The first fault of a source: what is wrong, and how many tokens are left there.
#[derive(Clone, Copy, Debug, PartialEq, Eq)]
pub struct Fault {
    pub left: usize,
    pub wrong: Wrong,
}

/// Why nothing is read.
#[derive(Clone, Copy, Debug, PartialEq, Eq)]
pub enum ReadError {
    /// An allocation failed.
    Memory,
    Fault(Fault),
}

impl From<AllocError> for ReadError {
    ghost from_gives = { λ _ e. e ≡ Memory };

    fn from(_error: AllocError) -> ReadError {
        ReadError::Memory
    }
}

impl<T: Drop> From<AllocFailed<T>> for ReadError {
    ghost from_gives = { λ _ e. e ≡ Memory };

    fn from(_error: AllocFailed<T>) -> ReadError {
        ReadError::Memory
    }
}

/// The fault at the first of these tokens.
pub(crate) fn fault_at(tokens: &[Token], wrong: Wrong) -> ReadError
    ensures { result ≡ ReadError.Fault (fault_at tokens.now wrong) }
{
    ReadError::Fault(Fault {
        left: tokens.len(),
        wrong,
    })
}
