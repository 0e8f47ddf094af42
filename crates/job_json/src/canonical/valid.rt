// Whether instructions lead to places and procedures that are there.
ghost use Rattle.std.specs.Prelude.{◌≡◌, ◌≤◌, ◌<◌, ◌-◌, All, IfSome, IsTrue, length, slice_get};
ghost use Rattle.std.specs.List.{list_all};
ghost use Rattle.job_language.specs.Program.{is_last, IsInRange, IsValidProc, IsValidProgram};
ghost use Rattle.job_json.specs.InsideCanonical.{calls_within, jumps_within};

use job_language::{Instr, MAX_INSTRS, MAX_PROCS, Proc};

/// Whether these instructions, whose jumps may lead to any place that a procedure can have, are a
/// procedure.
pub(super) fn is_proc(instrs: &[Instr]) -> bool
    requires { All (IsInRange MAX_INSTRS) instrs.now }
    ensures { IsTrue result → IsValidProc instrs.now }
{
    if instrs.len() > MAX_INSTRS || !ends(instrs) {
        return false;
    }
    all_jump_within(instrs.len(), instrs)
}

/// Whether there are instructions, and the last one may end a procedure.
fn ends(instrs: &[Instr]) -> bool
    ensures some { IsTrue result → 0 < length instrs.now }
    ensures ends { IsTrue result
        → IfSome (slice_get instrs.now (length instrs.now - 1)) (λ i. IsTrue (is_last i)) }
{
    if instrs.is_empty() {
        return false;
    }
    instrs[instrs.len() - 1].is_last()
}

/// Whether all jumps lead to the first so many places.
fn all_jump_within(places: usize, instrs: &[Instr]) -> bool
    ensures { result ≡ list_all (jumps_within places) instrs.now }
{
    instrs.iter().all(|instr| jumps_within(places, instr))
}

fn jumps_within(places: usize, instr: &Instr) -> bool
    ensures { result ≡ jumps_within places instr.now }
{
    match *instr {
        Instr::Jz(_, place) | Instr::Jmp(place) => usize::from(place) < places,
        _ => true,
    }
}

/// Whether these procedures are a program.
pub(super) fn are_program(procs: &[Proc]) -> bool
    requires { All IsValidProc procs.now }
    ensures { IsTrue result → IsValidProgram procs.now }
{
    if procs.is_empty() || procs.len() > MAX_PROCS {
        return false;
    }
    all_call_within(procs.len(), procs)
}

/// Whether all that is called is one of the first so many procedures.
fn all_call_within(count: usize, procs: &[Proc]) -> bool
    ensures { result ≡ list_all (list_all (calls_within count)) procs.now }
{
    procs.iter().all(|proc| proc_calls_within(count, proc))
}

fn proc_calls_within(count: usize, proc: &Proc) -> bool
    ensures { result ≡ list_all (calls_within count) proc.now }
{
    proc.instrs().iter().all(|instr| calls_within(count, instr))
}

fn calls_within(count: usize, instr: &Instr) -> bool
    ensures { result ≡ calls_within count instr.now }
{
    match *instr {
        Instr::Spawn(_, proc, _, _) | Instr::Post(proc, _, _) | Instr::Isolate(_, proc, _, _) => {
            usize::from(proc) < count
        }
        _ => true,
    }
}
