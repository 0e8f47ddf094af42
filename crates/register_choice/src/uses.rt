// What an instruction reads and writes, and where it may go on.
ghost use Rattle.std.specs.Prelude.{◌≡◌, ◌<◌};
ghost use Rattle.job_compiler.specs.Colours.{reads, writes, leads_to};
ghost use Rattle.job_compiler.specs.Virtual.{instr_of};
ghost use Rattle.register_choice.specs.Choice.{listed};

use job_compiler::VirtualInstr;

/// The registers that an instruction reads, at most two.
#[tactic(auto, using(crate::proofs::Operators::two_reads))]
pub(crate) fn reads(instr: &VirtualInstr) -> (Option<u8>, Option<u8>)
    ensures { reads (instr_of instr.now) ≡ listed result.0 result.1 }
{
    match *instr {
        VirtualInstr::Two(_, _, a, b) => (Some(a), Some(b)),
        VirtualInstr::Jz(a, _) => (Some(a), None),
        VirtualInstr::Spawn(_, _, a, b) => (Some(a), Some(b)),
        VirtualInstr::Post(_, a, b) => (Some(a), Some(b)),
        VirtualInstr::Isolate(_, _, a, b) => (Some(a), Some(b)),
        VirtualInstr::Store(_, a) => (Some(a), None),
        VirtualInstr::Ret(a) => (Some(a), None),
        VirtualInstr::Set(_, _) => (None, None),
        VirtualInstr::Slot(_) => (None, None),
        VirtualInstr::Width(_) => (None, None),
        VirtualInstr::Jmp(_) => (None, None),
        VirtualInstr::Wait(_, _, _) => (None, None),
        VirtualInstr::Cancel(_) => (None, None),
        VirtualInstr::Ask(_) => (None, None),
        VirtualInstr::Load(_, _) => (None, None),
        VirtualInstr::Sum(_, _) => (None, None),
        VirtualInstr::Count(_, _) => (None, None),
    }
}

/// The registers that it writes, in this order.
#[tactic(auto, using(crate::proofs::Operators::two_writes))]
pub(crate) fn writes(instr: &VirtualInstr) -> (Option<u8>, Option<u8>)
    ensures { writes (instr_of instr.now) ≡ listed result.0 result.1 }
{
    match *instr {
        VirtualInstr::Set(d, _) => (Some(d), None),
        VirtualInstr::Two(_, d, _, _) => (Some(d), None),
        VirtualInstr::Slot(d) => (Some(d), None),
        VirtualInstr::Width(d) => (Some(d), None),
        VirtualInstr::Isolate(d, _, _, _) => (Some(d), None),
        VirtualInstr::Wait(d, e, _) => (Some(d), Some(e)),
        VirtualInstr::Ask(d) => (Some(d), None),
        VirtualInstr::Load(d, _) => (Some(d), None),
        VirtualInstr::Sum(d, _) => (Some(d), None),
        VirtualInstr::Count(d, _) => (Some(d), None),
        VirtualInstr::Jz(_, _) => (None, None),
        VirtualInstr::Jmp(_) => (None, None),
        VirtualInstr::Spawn(_, _, _, _) => (None, None),
        VirtualInstr::Post(_, _, _) => (None, None),
        VirtualInstr::Cancel(_) => (None, None),
        VirtualInstr::Store(_, _) => (None, None),
        VirtualInstr::Ret(_) => (None, None),
    }
}

/// The places where it may go on from a place.
#[tactic(auto, using(crate::proofs::Operators::two_leads))]
pub(crate) fn leads_to(instr: &VirtualInstr, place: usize) -> (Option<usize>, Option<usize>)
    requires { place < usize.MAX }
    ensures { leads_to (instr_of instr.now) place ≡ listed result.0 result.1 }
{
    let next = place + 1;
    match *instr {
        VirtualInstr::Jz(_, t) => (Some(usize::from(t)), Some(next)),
        VirtualInstr::Jmp(t) => (Some(usize::from(t)), None),
        VirtualInstr::Ret(_) => (None, None),
        VirtualInstr::Set(_, _) => (Some(next), None),
        VirtualInstr::Two(_, _, _, _) => (Some(next), None),
        VirtualInstr::Slot(_) => (Some(next), None),
        VirtualInstr::Width(_) => (Some(next), None),
        VirtualInstr::Spawn(_, _, _, _) => (Some(next), None),
        VirtualInstr::Post(_, _, _) => (Some(next), None),
        VirtualInstr::Isolate(_, _, _, _) => (Some(next), None),
        VirtualInstr::Wait(_, _, _) => (Some(next), None),
        VirtualInstr::Cancel(_) => (Some(next), None),
        VirtualInstr::Ask(_) => (Some(next), None),
        VirtualInstr::Load(_, _) => (Some(next), None),
        VirtualInstr::Sum(_, _) => (Some(next), None),
        VirtualInstr::Count(_, _) => (Some(next), None),
        VirtualInstr::Store(_, _) => (Some(next), None),
    }
}
