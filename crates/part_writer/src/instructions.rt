// The text of an instruction.
ghost use Rattle.std.specs.Prelude.{◌≡◌, ◌++◌, OnOk, pos, [], ◌∷◌};
ghost use Rattle.job_json.specs.CanonicalText.{instr_then, operands_then};
ghost use Rattle.part_writer.specs.Added.{Adds};

use crate::adding::{add_bytes, add_signed};
use job_language::{Group, Instr, Key, Register};
use std::alloc::AllocError;

/// Adds the text of an instruction.
pub(crate) fn add_instr(text: &mut Vec<u8>, instr: Instr) -> Result<(), AllocError>
    ensures { OnOk result (Adds text.old.items text.new.items (instr_then instr)) }
{
    match instr {
        Instr::Set(d, n) => add_list(text, b"[\"set\"", &[register(d), n]),
        Instr::Add(d, a, b) => add_three(text, b"[\"add\"", d, a, b),
        Instr::Sub(d, a, b) => add_three(text, b"[\"sub\"", d, a, b),
        Instr::Mul(d, a, b) => add_three(text, b"[\"mul\"", d, a, b),
        Instr::Div(d, a, b) => add_three(text, b"[\"div\"", d, a, b),
        Instr::Lt(d, a, b) => add_three(text, b"[\"lt\"", d, a, b),
        Instr::Rem(d, a, b) => add_three(text, b"[\"rem\"", d, a, b),
        Instr::And(d, a, b) => add_three(text, b"[\"and\"", d, a, b),
        Instr::Or(d, a, b) => add_three(text, b"[\"or\"", d, a, b),
        Instr::Xor(d, a, b) => add_three(text, b"[\"xor\"", d, a, b),
        Instr::Shl(d, a, b) => add_three(text, b"[\"shl\"", d, a, b),
        Instr::Shr(d, a, b) => add_three(text, b"[\"shr\"", d, a, b),
        Instr::Eq(d, a, b) => add_three(text, b"[\"eq\"", d, a, b),
        Instr::Le(d, a, b) => add_three(text, b"[\"le\"", d, a, b),
        Instr::Jz(a, t) => add_list(text, b"[\"jz\"", &[register(a), i64::from(t)]),
        Instr::Jmp(t) => add_list(text, b"[\"jmp\"", &[i64::from(t)]),
        Instr::Slot(d) => add_list(text, b"[\"slot\"", &[register(d)]),
        Instr::Width(d) => add_list(text, b"[\"width\"", &[register(d)]),
        Instr::Spawn(g, p, a, b) => add_list(
            text,
            b"[\"spawn\"",
            &[group(g), i64::from(p), register(a), register(b)],
        ),
        Instr::Post(p, a, b) => add_list(
            text,
            b"[\"post\"",
            &[i64::from(p), register(a), register(b)],
        ),
        Instr::Wait(d, e, g) => add_list(text, b"[\"wait\"", &[register(d), register(e), group(g)]),
        Instr::Cancel(g) => add_list(text, b"[\"cancel\"", &[group(g)]),
        Instr::Ask(d) => add_list(text, b"[\"ask\"", &[register(d)]),
        Instr::Isolate(d, p, a, b) => add_list(
            text,
            b"[\"isolate\"",
            &[register(d), i64::from(p), register(a), register(b)],
        ),
        Instr::Load(d, k) => add_list(text, b"[\"load\"", &[register(d), key(k)]),
        Instr::Store(k, a) => add_list(text, b"[\"store\"", &[key(k), register(a)]),
        Instr::Sum(d, k) => add_list(text, b"[\"sum\"", &[register(d), key(k)]),
        Instr::Count(d, k) => add_list(text, b"[\"count\"", &[register(d), key(k)]),
        Instr::Ret(a) => add_list(text, b"[\"ret\"", &[register(a)]),
    }
}

fn register(register: Register) -> i64
    ensures { result ≡ pos register }
{
    register.index() as i64
}

fn group(group: Group) -> i64
    ensures { result ≡ pos group }
{
    group.index() as i64
}

fn key(key: Key) -> i64
    ensures { result ≡ pos key }
{
    key.index() as i64
}

/// Adds what an instruction begins with, and three registers.
fn add_three(
    text: &mut Vec<u8>,
    begin: &[u8],
    d: Register,
    a: Register,
    b: Register,
) -> Result<(), AllocError>
    ensures { OnOk result (Adds text.old.items text.new.items
        (λ rest. begin.now ++ operands_then (pos d ∷ pos a ∷ pos b ∷ []) rest)) }
{
    add_list(text, begin, &[register(d), register(a), register(b)])?;
    Ok(())
}

/// Adds what an instruction begins with, and its operands.
fn add_list(text: &mut Vec<u8>, begin: &[u8], operands: &[i64]) -> Result<(), AllocError>
    ensures { OnOk result (Adds text.old.items text.new.items
        (λ rest. begin.now ++ operands_then operands.now rest)) }
{
    add_bytes(text, begin)?;
    for operand in operands {
        add_signed(text, b",", *operand)?;
    }
    add_bytes(text, b"]")?;
    Ok(())
}
