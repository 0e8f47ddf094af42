// Writing instructions.
ghost use Rattle.std.specs.Prelude.{◌≡◌, pos, map, IfOk, [], ◌∷◌};
ghost use Rattle.serde_json.specs.View.{view};
ghost use Rattle.job_json.specs.JobData.{instr_data, list_data};

use crate::operations::Operation;
use job_language::{Group, Instr, Key, Register};
use serde_json::Value;
use std::alloc::{AllocError, Global};

/// An instruction as a list of its name and its operands.
pub(super) fn write_instr(alloc: Global, instr: &Instr) -> Result<Value, AllocError>
    ensures { IfOk result (λ v. view v ≡ instr_data instr.now) }
{
    match *instr {
        Instr::Set(d, n) => write_list(alloc, Operation::Set, &[register(d), n]),
        Instr::Add(d, a, b) => write_registers(alloc, Operation::Add, d, a, b),
        Instr::Sub(d, a, b) => write_registers(alloc, Operation::Sub, d, a, b),
        Instr::Mul(d, a, b) => write_registers(alloc, Operation::Mul, d, a, b),
        Instr::Div(d, a, b) => write_registers(alloc, Operation::Div, d, a, b),
        Instr::Lt(d, a, b) => write_registers(alloc, Operation::Lt, d, a, b),
        Instr::Rem(d, a, b) => write_registers(alloc, Operation::Rem, d, a, b),
        Instr::And(d, a, b) => write_registers(alloc, Operation::And, d, a, b),
        Instr::Or(d, a, b) => write_registers(alloc, Operation::Or, d, a, b),
        Instr::Xor(d, a, b) => write_registers(alloc, Operation::Xor, d, a, b),
        Instr::Shl(d, a, b) => write_registers(alloc, Operation::Shl, d, a, b),
        Instr::Shr(d, a, b) => write_registers(alloc, Operation::Shr, d, a, b),
        Instr::Eq(d, a, b) => write_registers(alloc, Operation::Eq, d, a, b),
        Instr::Le(d, a, b) => write_registers(alloc, Operation::Le, d, a, b),
        Instr::Jz(a, t) => write_list(alloc, Operation::Jz, &[register(a), i64::from(t)]),
        Instr::Jmp(t) => write_list(alloc, Operation::Jmp, &[i64::from(t)]),
        Instr::Slot(d) => write_list(alloc, Operation::Slot, &[register(d)]),
        Instr::Width(d) => write_list(alloc, Operation::Width, &[register(d)]),
        Instr::Spawn(g, p, a, b) => write_list(
            alloc,
            Operation::Spawn,
            &[group(g), i64::from(p), register(a), register(b)],
        ),
        Instr::Post(p, a, b) => write_list(
            alloc,
            Operation::Post,
            &[i64::from(p), register(a), register(b)],
        ),
        Instr::Wait(d, e, g) => write_list(
            alloc,
            Operation::Wait,
            &[register(d), register(e), group(g)],
        ),
        Instr::Cancel(g) => write_list(alloc, Operation::Cancel, &[group(g)]),
        Instr::Ask(d) => write_list(alloc, Operation::Ask, &[register(d)]),
        Instr::Isolate(d, p, a, b) => write_list(
            alloc,
            Operation::Isolate,
            &[register(d), i64::from(p), register(a), register(b)],
        ),
        Instr::Load(d, k) => write_list(alloc, Operation::Load, &[register(d), key(k)]),
        Instr::Store(k, a) => write_list(alloc, Operation::Store, &[key(k), register(a)]),
        Instr::Sum(d, k) => write_list(alloc, Operation::Sum, &[register(d), key(k)]),
        Instr::Count(d, k) => write_list(alloc, Operation::Count, &[register(d), key(k)]),
        Instr::Ret(a) => write_list(alloc, Operation::Ret, &[register(a)]),
    }
}

fn register(register: Register) -> i64
    ensures { result ≡ pos register }
{
    register.index() as i64
}

fn group(group: Group) -> i64
    ensures { result ≡ pos group }
{
    group.index() as i64
}

fn key(key: Key) -> i64
    ensures { result ≡ pos key }
{
    key.index() as i64
}

fn write_registers(
    alloc: Global,
    operation: Operation,
    d: Register,
    a: Register,
    b: Register,
) -> Result<Value, AllocError>
    ensures { IfOk result (λ v. view v ≡ list_data operation (pos d ∷ pos a ∷ pos b ∷ [])) }
{
    write_list(alloc, operation, &[register(d), register(a), register(b)])
}

fn write_list(alloc: Global, operation: Operation, operands: &[i64]) -> Result<Value, AllocError>
    ensures { IfOk result (λ v. view v ≡ list_data operation operands.now) }
{
    let mut list = Vec::with_capacity(alloc, operands.len() + 1)?;
    list.push(Value::try_from_str(alloc, operation.name())?)?;
    for operand in operands {
        list.push(Value::from(*operand))?;
    }
    Ok(Value::Array(list))
}
