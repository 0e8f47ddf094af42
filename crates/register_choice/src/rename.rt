// Virtual registers as the registers of a frame that were chosen for them.
ghost use Rattle.std.specs.Prelude.{◌≡◌, ◌≤◌, [], length, IfSome, slice_index_or, vec_capacity};
ghost use Rattle.job_compiler.specs.Code.{op_instr};
ghost use Rattle.job_compiler.specs.Colours.{renamed};
ghost use Rattle.job_compiler.specs.Virtual.{instr_of};
ghost use Rattle.register_choice.specs.Choice.{renamed_from};

use crate::check::colours_at;
use job_compiler::{VirtualCode, VirtualInstr, narrow_two};
use job_language::{Instr, Register};

/// The instructions over the registers that were chosen, in memory that is there for them; none, if a
/// frame lacks one of these.
pub(crate) fn rename(
    code: &VirtualCode,
    colours: &[[u8; 256]],
    memory: Vec<Instr>,
) -> Option<Vec<Instr>>
    requires empty { memory.items ≡ [] }
    requires room { length code.now ≤ vec_capacity memory }
    ensures { IfSome result (λ instrs. instrs.items ≡ renamed_from colours.now 0 code.now) }
{
    let mut instrs = memory;
    for (place, instr) in code.instrs().iter().enumerate() {
        let from = colours_at(colours, place);
        let to = colours_at(colours, place + 1);
        instrs.push(rename_one(instr, from, to)?).unwrap();
    }
    Some(instrs)
}

fn register(colours: &[u8], u: u8) -> Option<Register>
    ensures { IfSome result (λ r. r ≡ slice_index_or colours.now u 0) }
{
    Register::new(u64::from(*colours.get(usize::from(u))?))
}

// What it reads is in the first registers, and what it writes goes to the second ones.
#[tactic(auto, using(crate::proofs::Operators::two_renamed))]
fn rename_one(instr: &VirtualInstr, from: &[u8], to: &[u8]) -> Option<Instr>
    ensures { IfSome result (λ i. i ≡ renamed (λ u. slice_index_or from.now u 0)
        (λ u. slice_index_or to.now u 0) (instr_of instr.now)) }
{
    match *instr {
        VirtualInstr::Set(d, n) => Some(Instr::Set(register(to, d)?, n)),
        VirtualInstr::Two(op, d, a, b) => {
            Some(narrow_two(op, register(to, d)?, register(from, a)?, register(from, b)?))
        }
        VirtualInstr::Slot(d) => Some(Instr::Slot(register(to, d)?)),
        VirtualInstr::Width(d) => Some(Instr::Width(register(to, d)?)),
        VirtualInstr::Jz(a, t) => Some(Instr::Jz(register(from, a)?, t)),
        VirtualInstr::Jmp(t) => Some(Instr::Jmp(t)),
        VirtualInstr::Spawn(g, p, a, b) => Some(Instr::Spawn(
            g,
            p,
            register(from, a)?,
            register(from, b)?,
        )),
        VirtualInstr::Post(p, a, b) => Some(Instr::Post(p, register(from, a)?, register(from, b)?)),
        VirtualInstr::Isolate(d, p, a, b) => {
            Some(Instr::Isolate(register(to, d)?, p, register(from, a)?, register(from, b)?))
        }
        VirtualInstr::Wait(d, e, g) => Some(Instr::Wait(register(to, d)?, register(to, e)?, g)),
        VirtualInstr::Cancel(g) => Some(Instr::Cancel(g)),
        VirtualInstr::Ask(d) => Some(Instr::Ask(register(to, d)?)),
        VirtualInstr::Load(d, k) => Some(Instr::Load(register(to, d)?, k)),
        VirtualInstr::Sum(d, k) => Some(Instr::Sum(register(to, d)?, k)),
        VirtualInstr::Count(d, k) => Some(Instr::Count(register(to, d)?, k)),
        VirtualInstr::Store(k, a) => Some(Instr::Store(k, register(from, a)?)),
        VirtualInstr::Ret(a) => Some(Instr::Ret(register(from, a)?)),
    }
}
