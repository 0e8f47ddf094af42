// Virtual registers as the registers of a frame.
ghost use Rattle.std.specs.Prelude.{◌≡◌, ◌<◌, ◌≤◌, ℕ, [], length, IfSome, IsNone, OnSome, SomeIff, vec_capacity};
ghost use Rattle.std.specs.List.{All};
ghost use Rattle.job_language.specs.Program.{IsInRange};
ghost use Rattle.job_compiler.specs.Code.{op_instr};
ghost use Rattle.job_compiler.specs.Virtual.{instr_of};

use crate::virtuals::{VirtualCode, VirtualInstr};
use job_language::{Instr, REGISTERS, Register};
use source_language::Operator;

/// The instructions with the same registers, in memory that is there for them; none, if a frame lacks
/// one of these.
pub(crate) fn narrow(code: &VirtualCode, memory: Vec<Instr>) -> Option<Vec<Instr>>
    requires empty { memory.items ≡ [] }
    requires room { length code.now ≤ vec_capacity memory }
    ensures some { IfSome result (λ instrs. instrs.items ≡ code.now) }
    ensures none { IsNone result → (len : ℕ) → ¬ All (IsInRange len) code.now }
{
    let mut instrs = memory;
    for instr in code.instrs() {
        match narrow_one(instr) {
            Some(one) => instrs.push(one).unwrap(),
            None => return None,
        }
    }
    Some(instrs)
}

fn register(number: u8) -> Option<Register>
    ensures { SomeIff result (number < REGISTERS) number }
{
    Register::new(u64::from(number))
}

/// The instruction of an operator.
pub fn narrow_two(op: Operator, d: Register, a: Register, b: Register) -> Instr
    ensures { result ≡ op_instr op d a b }
{
    match op {
        Operator::Plus => Instr::Add(d, a, b),
        Operator::Minus => Instr::Sub(d, a, b),
        Operator::Times => Instr::Mul(d, a, b),
        Operator::Over => Instr::Div(d, a, b),
        Operator::Remainder => Instr::Rem(d, a, b),
        Operator::BitAnd => Instr::And(d, a, b),
        Operator::BitOr => Instr::Or(d, a, b),
        Operator::BitXor => Instr::Xor(d, a, b),
        Operator::ShiftLeft => Instr::Shl(d, a, b),
        Operator::ShiftRight => Instr::Shr(d, a, b),
        Operator::Below => Instr::Lt(d, a, b),
        Operator::AtMost => Instr::Le(d, a, b),
        Operator::Equal => Instr::Eq(d, a, b),
    }
}

fn narrow_one(instr: &VirtualInstr) -> Option<Instr>
    ensures some { IfSome result (λ i. i ≡ instr_of instr.now) }
    ensures none { IsNone result → (len : ℕ) → ¬ IsInRange len (instr_of instr.now) }
{
    match *instr {
        VirtualInstr::Set(d, n) => Some(Instr::Set(register(d)?, n)),
        VirtualInstr::Two(op, d, a, b) => {
            Some(narrow_two(op, register(d)?, register(a)?, register(b)?))
        }
        VirtualInstr::Slot(d) => Some(Instr::Slot(register(d)?)),
        VirtualInstr::Width(d) => Some(Instr::Width(register(d)?)),
        VirtualInstr::Jz(a, t) => Some(Instr::Jz(register(a)?, t)),
        VirtualInstr::Jmp(t) => Some(Instr::Jmp(t)),
        VirtualInstr::Spawn(g, p, a, b) => Some(Instr::Spawn(g, p, register(a)?, register(b)?)),
        VirtualInstr::Post(p, a, b) => Some(Instr::Post(p, register(a)?, register(b)?)),
        VirtualInstr::Isolate(d, p, a, b) => {
            Some(Instr::Isolate(register(d)?, p, register(a)?, register(b)?))
        }
        VirtualInstr::Wait(d, e, g) => Some(Instr::Wait(register(d)?, register(e)?, g)),
        VirtualInstr::Cancel(g) => Some(Instr::Cancel(g)),
        VirtualInstr::Ask(d) => Some(Instr::Ask(register(d)?)),
        VirtualInstr::Load(d, k) => Some(Instr::Load(register(d)?, k)),
        VirtualInstr::Sum(d, k) => Some(Instr::Sum(register(d)?, k)),
        VirtualInstr::Count(d, k) => Some(Instr::Count(register(d)?, k)),
        VirtualInstr::Store(k, a) => Some(Instr::Store(k, register(a)?)),
        VirtualInstr::Ret(a) => Some(Instr::Ret(register(a)?)),
    }
}
