// Values that are computed again where they are read, if registers are too few to keep them.
ghost use Rattle.std.specs.Prelude.{◌<◌, IfOk, IfSome, IsSome};
ghost use Rattle.source_language.specs.declared.syntax.Function.{Function};
ghost use Rattle.job_compiler.specs.Compiled.{IsFunction};
ghost use Rattle.register_choice.specs.Keeping.{IsBetter};
ghost use Rattle.register_choice.specs.Refusals.{IsWithoutChoice};

use crate::compile::{ChoiceError, ChoiceRefusal, compile_function};
use job_compiler::are_calls;
use job_language::Proc;
use source_language::Function;
use std::alloc::{AllocError, Global};
use values_again::{again_is_compiled, cost_of, read_again};

/// How many variables of a function are computed again at most.
pub(crate) const MOST_AGAIN: u8 = 40;

// What is alive where registers are too few, and which variables are computed again already.
#[derive(Clone, Copy)]
pub(crate) struct Need {
    alive: [bool; 256],
    done: [bool; 256],
}

// The variable that is alive there and costs least to compute again.
fn cheapest(function: &Function, need: &Need) -> Option<u8>
    ensures { IfSome result (λ v. v < function.now.variables) }
{
    let mut found = None;
    let mut least = u32::MAX;
    for v in 0..function.variables {
        let number = usize::from(v);
        if need.alive[number] && !need.done[number] {
            if let Some(cost) = cost_of(function, v, &need.alive) {
                if cost < least {
                    least = cost;
                    found = Some(v);
                }
            }
        }
    }
    found
}

// What a refusal asks for, where these variables are computed again already; none, if registers are not too few.
fn need_of(refusal: &ChoiceRefusal, done: [bool; 256]) -> Option<Need>
    ensures { (f : Function) → IsSome result → IsWithoutChoice f refusal.now → IsFunction f }
{
    match refusal {
        ChoiceRefusal::Refused(_) => None,
        ChoiceRefusal::Crowded(crowd) => Some(Need {
            alive: crowd.live,
            done,
        }),
        ChoiceRefusal::NoChoice => Some(Need {
            alive: [true; 256],
            done,
        }),
    }
}

/// The procedure of a function that was refused, if there is one when values are computed again where they are read. The
/// function is no longer what it was.
pub(crate) fn with_values_again(
    alloc: Global,
    procs: usize,
    function: &mut Function,
    refusal: &ChoiceRefusal,
) -> Result<Option<Proc>, AllocError>
    requires { IsWithoutChoice function.old refusal.now }
    ensures { IfOk result (IsBetter procs function.old function.new) }
{
    match need_of(refusal, [false; 256]) {
        Some(need) => with_one_again(alloc, procs, function, MOST_AGAIN, need),
        None => Ok(None),
    }
}

// The same, with so many variables more at most.
fn with_one_again(
    alloc: Global,
    procs: usize,
    function: &mut Function,
    left: u8,
    need: Need,
) -> Result<Option<Proc>, AllocError>
    requires { IsFunction function.old }
    ensures { IfOk result (IsBetter procs function.old function.new) }
{
    again_is_compiled();
    if left == 0 {
        return Ok(None);
    }
    let Some(v) = cheapest(function, &need) else {
        return Ok(None);
    };
    read_again(alloc, function, v)?;
    let mut done = need.done;
    done[usize::from(v)] = true;
    match compile_function(alloc, function) {
        Ok(proc) => {
            if are_calls(procs, proc.instrs()) {
                Ok(Some(proc))
            } else {
                Ok(None)
            }
        }
        Err(ChoiceError::NoMemory) => Err(AllocError),
        Err(ChoiceError::Refused(refusal)) => match need_of(&refusal, done) {
            Some(need) => with_one_again(alloc, procs, function, left - 1, need),
            None => Ok(None),
        },
    }
}
