// Why a source makes no job, in words.
ghost use Rattle.std.specs.Prelude.{ℕ, List};
ghost use Rattle.register_choice.specs.Refusals.{IsWithoutChoice};
ghost use Rattle.source_tokens.specs.Givens.{Givens};
ghost use Rattle.arena_compile.specs.Jobs.{IsFunctionAt, IsFaultOf};

use register_choice::{ChoiceRefusal, Crowd};
use source_reader::{Place, SourceFault, Wrong};

/// A function that needs more registers than there are: its number, from 0, where it begins, and a place of its code
/// from which on too many of its variables and values are read later.
#[derive(Clone, Copy)]
pub struct CrowdedFunction {
    pub number: usize,
    pub place: Place,
    pub crowd: Crowd,
}

/// What is wrong with a source, and where: a place of its text, or the function that can't be compiled.
#[derive(Clone, Copy)]
pub enum CompileFault {
    Source(SourceFault),
    /// The function that begins there has more instructions, variables or values on the way than it may have.
    TooLong(Place),
    Crowded(CrowdedFunction),
    /// The function that begins there needs more registers than there are, though nowhere too much is read later.
    NoChoice(Place),
    /// The functions, of which the first one begins there, are more than a job may have, or there are none.
    Count(Place),
    /// The function that begins there names one that is not there.
    NoProcedure(Place),
}

/// Why there is no job.
#[derive(Clone, Copy)]
pub enum CompileError {
    /// An allocation failed.
    Memory,
    Fault(CompileFault),
}

impl CompileFault {
    /// Where it is.
    pub fn place(&self) -> Place {
        match self {
            CompileFault::Source(fault) => fault.place,
            CompileFault::TooLong(place) => *place,
            CompileFault::Crowded(function) => function.place,
            CompileFault::NoChoice(place) => *place,
            CompileFault::Count(place) => *place,
            CompileFault::NoProcedure(place) => *place,
        }
    }

    /// What it is, in words that name nothing of the source.
    pub(crate) fn words(&self) -> &'static str {
        match self {
            CompileFault::Source(fault) => words_of(fault.wrong),
            CompileFault::TooLong(_) => "this function is too long for a procedure",
            CompileFault::Crowded(_) => "this function needs more than 8 registers",
            CompileFault::NoChoice(_) =>
                "this function needs more than 8 registers: let another fn do a part, or compute a value where it is needed",
            CompileFault::Count(_) => "a job has from 1 to 16 functions",
            CompileFault::NoProcedure(_) => "this function names one that is not there",
        }
    }
}

fn words_of(wrong: Wrong) -> &'static str {
    match wrong {
        Wrong::Unexpected => "this is not expected here, or is not taken by arena-compile",
        Wrong::UnknownName => "nothing of this name is known here",
        Wrong::KnownName => "something else has this name already",
        Wrong::TooManyNames => "a function has at most 240 variables",
        Wrong::NotAssigned => "only variables and cells are assigned to, and no index of a loop",
        Wrong::NoStep => "a step is a constant that is not 0, and of a `psum` 1 to 1048576",
        Wrong::NoGrain => "the grain of a parallel loop is a constant from 1",
        Wrong::CellValue => "a cell is read alone: write `let x = c.local` before this",
        Wrong::SkippedDivision =>
            "`&&` or `||` may skip a division here: write `let x = ..` with it before this",
        Wrong::GivenDivision => "write `let x = ..` with this division before the line",
        Wrong::TooLong => "what begins here is too long, or nested too deep",
        Wrong::NeverReached => "this is never reached: leave it out",
        Wrong::NoLoop => "there is no loop around this",
        Wrong::NotGathered => "`give` belongs into the body of a parallel loop: write `return`",
        Wrong::GatheringReturn => "the body of a parallel loop ends by `give`, not by `return`",
        Wrong::KnownFunction => "a function has this name already, or `main` is not the first one",
        Wrong::UnknownFunction => "no function of this name is there",
        Wrong::NotWaited =>
            "this is a task or a group that was not waited for: write `wait` before its value is read",
        Wrong::WaitSkipped =>
            "a task is waited for in its own block, and not where that may be skipped or done again",
        Wrong::NoTask => "only a task or a group is waited for, and a group once",
        Wrong::GroupValue =>
            "what a group adds up to is read alone: write `let x = wait g` before this",
        Wrong::NotGroup => "no group of this name, nor a task to cancel, is there to be waited for",
        Wrong::TaskLeft => "a task or a group of this block is not waited for before it ends",
        Wrong::NoGroup =>
            "no group is left: wait for a task before, since there are 4, and a call needs one",
        Wrong::TooManyFunctions => "a job has at most 16 functions, and each parallel loop is one",
        Wrong::NoFunction => "there is no fn: write `fn main(x, y) { .. }`",
        _ => words_of_items(wrong),
    }
}

/// What is wrong with constants and cells.
fn words_of_items(wrong: Wrong) -> &'static str {
    match wrong {
        Wrong::NoConstant => "the value of a constant is made of numbers and of constants above it",
        Wrong::NoParam => "a name that is given a number is not that of a `param` here",
        Wrong::LateItem => "constants and cells stand first, then inline functions, then others",
        Wrong::TooManyItems => "at most 100 of these are taken",
        Wrong::WrongKey => "the key of a cell is a number from 0 to 7",
        Wrong::KnownKey => "another cell has this key",
        Wrong::TooManyCells => "no key is left for this cell: there are 8",
        _ => words_of_parameters(wrong),
    }
}

/// What is wrong with parameters or arguments.
fn words_of_parameters(wrong: Wrong) -> &'static str {
    match wrong {
        Wrong::NoWidth => "a width is u1 to u62, as in `lo: u20`",
        Wrong::RootWidth =>
            "the first function gets its two numbers whole: let it call one with widths",
        Wrong::NoRoom =>
            "a task gets two numbers, and this needs more: give small parameters a width",
        Wrong::TooManyParameters => "a function has at most 16 parameters",
        Wrong::TooWide => "this does not fit the width of its parameter",
        _ => "a function gets as many arguments as it has parameters",
    }
}

/// The fault of the function of that number, which begins there.
pub(crate) fn fault_of(number: usize, refusal: ChoiceRefusal, place: Place) -> CompileFault
    ensures { (gs : Givens) (text : List ℕ)
        → IsFunctionAt gs text number place (λ f. IsWithoutChoice f refusal) → IsFaultOf gs text result }
{
    match refusal {
        ChoiceRefusal::Refused(_) => CompileFault::TooLong(place),
        ChoiceRefusal::Crowded(crowd) => CompileFault::Crowded(CrowdedFunction {
            number,
            place,
            crowd,
        }),
        ChoiceRefusal::NoChoice => CompileFault::NoChoice(place),
    }
}
