// Reading instructions.
ghost use Rattle.std.specs.Prelude.{◌≡◌, ◌<◌, ◌≤◌, map, option_map, IfSome, FitsSigned};
ghost use Rattle.std.specs.Int.{w64};
ghost use Rattle.job_language.specs.Program.{IsInRange, Calls};
ghost use Rattle.serde_json.specs.View.{view};
ghost use Rattle.job_json.specs.Json.{items_of, integer};
ghost use Rattle.job_json.specs.Instruction.{register, group, key, below, one, two, three, four, instr_of};
ghost use Rattle.job_json.specs.InsideOperation.{made_of};

use crate::operations::Operation;
use crate::values::items_of;
use job_language::{GROUPS, Group, Instr, KEYS, Key, MAX_INSTRS, MAX_PROCS, REGISTERS, Register};
use serde_json::Value;

/// The instruction that a value spells, in a program of `procs` procedures and a procedure of
/// `instrs` instructions.
#[tactic(auto, using(crate::proofs::Named::instr_found, crate::proofs::Named::instr_missing))]
pub(super) fn instr_of(procs: usize, instrs: usize, value: &Value) -> Option<Instr>
    requires procs { procs ≤ MAX_PROCS }
    requires instrs { instrs ≤ MAX_INSTRS }
    ensures value { result ≡ instr_of procs instrs (view value.now) }
    ensures in_range { IfSome result (IsInRange instrs) }
    ensures calls { IfSome result (Calls procs) }
{
    let (name, operands) = items_of(value)?.split_first()?;
    let operation = Operation::named(name.as_str()?)?;
    instr_from(operation, procs, instrs, operands)
}

fn register(value: &Value) -> Option<Register>
    ensures value { result ≡ register (view value.now) }
    ensures in_range { IfSome result (λ r. r < REGISTERS) }
{
    Register::new(value.as_u64()?)
}

fn group(value: &Value) -> Option<Group>
    ensures value { result ≡ group (view value.now) }
    ensures in_range { IfSome result (λ g. g < GROUPS) }
{
    Group::new(value.as_u64()?)
}

fn key(value: &Value) -> Option<Key>
    ensures value { result ≡ key (view value.now) }
    ensures in_range { IfSome result (λ k. k < KEYS) }
{
    Key::new(value.as_u64()?)
}

fn number(value: &Value) -> Option<i64>
    ensures value { result ≡ integer (view value.now) }
    ensures in_range { IfSome result (FitsSigned w64) }
{
    value.as_i64()
}

fn below(limit: usize, value: &Value) -> Option<u8>
    requires { limit ≤ MAX_INSTRS }
    ensures value { result ≡ below limit (view value.now) }
    ensures in_range { IfSome result (λ n. n < limit) }
{
    let number = value.as_u64()?;
    if number < limit as u64 {
        Some(number as u8)
    } else {
        None
    }
}

/// The instruction of that name with these operands, in a program of `procs` procedures and a
/// procedure of `instrs` instructions.
#[tactic(auto, using(crate::proofs::Operands::one_made, crate::proofs::Operands::two_made, crate::proofs::Operands::three_made, crate::proofs::Operands::four_made), unfolding(crate::specs::InsideOperation::made_of))]
fn instr_from(
    operation: Operation,
    procs: usize,
    instrs: usize,
    operands: &[Value],
) -> Option<Instr>
    requires procs { procs ≤ MAX_PROCS }
    requires instrs { instrs ≤ MAX_INSTRS }
    ensures value { result ≡ made_of operation procs instrs (map view operands.now) }
    ensures in_range { IfSome result (IsInRange instrs) }
    ensures calls { IfSome result (Calls procs) }
{
    match operation {
        Operation::Set => register_and_number(operands).map(|(d, n)| Instr::Set(d, n)),
        Operation::Add => three_registers(operands).map(|(d, a, b)| Instr::Add(d, a, b)),
        Operation::Sub => three_registers(operands).map(|(d, a, b)| Instr::Sub(d, a, b)),
        Operation::Mul => three_registers(operands).map(|(d, a, b)| Instr::Mul(d, a, b)),
        Operation::Div => three_registers(operands).map(|(d, a, b)| Instr::Div(d, a, b)),
        Operation::Lt => three_registers(operands).map(|(d, a, b)| Instr::Lt(d, a, b)),
        Operation::Rem => three_registers(operands).map(|(d, a, b)| Instr::Rem(d, a, b)),
        Operation::And => three_registers(operands).map(|(d, a, b)| Instr::And(d, a, b)),
        Operation::Or => three_registers(operands).map(|(d, a, b)| Instr::Or(d, a, b)),
        Operation::Xor => three_registers(operands).map(|(d, a, b)| Instr::Xor(d, a, b)),
        Operation::Shl => three_registers(operands).map(|(d, a, b)| Instr::Shl(d, a, b)),
        Operation::Shr => three_registers(operands).map(|(d, a, b)| Instr::Shr(d, a, b)),
        Operation::Eq => three_registers(operands).map(|(d, a, b)| Instr::Eq(d, a, b)),
        Operation::Le => three_registers(operands).map(|(d, a, b)| Instr::Le(d, a, b)),
        Operation::Jz => register_and_place(instrs, operands).map(|(a, t)| Instr::Jz(a, t)),
        Operation::Jmp => one_place(instrs, operands).map(|t| Instr::Jmp(t)),
        Operation::Slot => one_register(operands).map(|d| Instr::Slot(d)),
        Operation::Width => one_register(operands).map(|d| Instr::Width(d)),
        Operation::Spawn => group_and_call(procs, operands).map(|(g, p, a, b)| Instr::Spawn(
            g, p, a, b,
        )),
        Operation::Post => call(procs, operands).map(|(p, a, b)| Instr::Post(p, a, b)),
        Operation::Wait => two_registers_and_group(operands).map(|(d, e, g)| Instr::Wait(d, e, g)),
        Operation::Cancel => one_group(operands).map(|g| Instr::Cancel(g)),
        Operation::Ask => one_register(operands).map(|d| Instr::Ask(d)),
        Operation::Isolate => register_and_call(procs, operands).map(|(d, p, a, b)| Instr::Isolate(
            d, p, a, b,
        )),
        Operation::Load => register_and_key(operands).map(|(d, k)| Instr::Load(d, k)),
        Operation::Store => key_and_register(operands).map(|(k, a)| Instr::Store(k, a)),
        Operation::Sum => register_and_key(operands).map(|(d, k)| Instr::Sum(d, k)),
        Operation::Count => register_and_key(operands).map(|(d, k)| Instr::Count(d, k)),
        Operation::Ret => one_register(operands).map(|a| Instr::Ret(a)),
    }
}

#[tactic(auto, unfolding(crate::specs::Instruction::one))]
fn one_register(operands: &[Value]) -> Option<Register>
    ensures value { result ≡ one register (λ x. x) (map view operands.now) }
    ensures in_range { IfSome result (λ d. d < REGISTERS) }
{
    let [d] = operands else { return None };
    register(d)
}

#[tactic(auto, unfolding(crate::specs::Instruction::one))]
fn one_group(operands: &[Value]) -> Option<Group>
    ensures value { result ≡ one group (λ x. x) (map view operands.now) }
    ensures in_range { IfSome result (λ g. g < GROUPS) }
{
    let [g] = operands else { return None };
    group(g)
}

#[tactic(auto, unfolding(crate::specs::Instruction::one))]
fn one_place(instrs: usize, operands: &[Value]) -> Option<u8>
    requires { instrs ≤ MAX_INSTRS }
    ensures value { result ≡ one (below instrs) (λ x. x) (map view operands.now) }
    ensures in_range { IfSome result (λ t. t < instrs) }
{
    let [t] = operands else { return None };
    below(instrs, t)
}

#[tactic(auto, unfolding(crate::specs::Instruction::one, crate::specs::Instruction::two))]
fn register_and_number(operands: &[Value]) -> Option<(Register, i64)>
    ensures value { result ≡ two register integer (λ x y. (x, y)) (map view operands.now) }
    ensures in_range { IfSome result (λ x. (x.0 < REGISTERS) × FitsSigned w64 x.1) }
{
    let [d, n] = operands else { return None };
    Some((register(d)?, number(n)?))
}

#[tactic(auto, unfolding(crate::specs::Instruction::one, crate::specs::Instruction::two))]
fn register_and_place(instrs: usize, operands: &[Value]) -> Option<(Register, u8)>
    requires { instrs ≤ MAX_INSTRS }
    ensures value { result ≡ two register (below instrs) (λ x y. (x, y)) (map view operands.now) }
    ensures in_range { IfSome result (λ x. (x.0 < REGISTERS) × (x.1 < instrs)) }
{
    let [a, t] = operands else { return None };
    Some((register(a)?, below(instrs, t)?))
}

#[tactic(auto, unfolding(crate::specs::Instruction::one, crate::specs::Instruction::two))]
fn register_and_key(operands: &[Value]) -> Option<(Register, Key)>
    ensures value { result ≡ two register key (λ x y. (x, y)) (map view operands.now) }
    ensures in_range { IfSome result (λ x. (x.0 < REGISTERS) × (x.1 < KEYS)) }
{
    let [d, k] = operands else { return None };
    Some((register(d)?, key(k)?))
}

#[tactic(auto, unfolding(crate::specs::Instruction::one, crate::specs::Instruction::two))]
fn key_and_register(operands: &[Value]) -> Option<(Key, Register)>
    ensures value { result ≡ two key register (λ x y. (x, y)) (map view operands.now) }
    ensures in_range { IfSome result (λ x. (x.0 < KEYS) × (x.1 < REGISTERS)) }
{
    let [k, a] = operands else { return None };
    Some((key(k)?, register(a)?))
}

#[tactic(auto, unfolding(crate::specs::Instruction::one, crate::specs::Instruction::two, crate::specs::Instruction::three))]
fn three_registers(operands: &[Value]) -> Option<(Register, Register, Register)>
    ensures value { result ≡ three register register register (λ x y z. (x, y, z))
        (map view operands.now) }
    ensures in_range { IfSome result (λ x. (x.0 < REGISTERS) × (x.1 < REGISTERS)
        × (x.2 < REGISTERS)) }
{
    let [d, a, b] = operands else { return None };
    Some((register(d)?, register(a)?, register(b)?))
}

#[tactic(auto, unfolding(crate::specs::Instruction::one, crate::specs::Instruction::two, crate::specs::Instruction::three))]
fn two_registers_and_group(operands: &[Value]) -> Option<(Register, Register, Group)>
    ensures value { result ≡ three register register group (λ x y z. (x, y, z))
        (map view operands.now) }
    ensures in_range { IfSome result (λ x. (x.0 < REGISTERS) × (x.1 < REGISTERS) × (x.2 < GROUPS)) }
{
    let [d, e, g] = operands else { return None };
    Some((register(d)?, register(e)?, group(g)?))
}

#[tactic(auto, unfolding(crate::specs::Instruction::one, crate::specs::Instruction::two, crate::specs::Instruction::three))]
fn call(procs: usize, operands: &[Value]) -> Option<(u8, Register, Register)>
    requires { procs ≤ MAX_PROCS }
    ensures value { result ≡ three (below procs) register register (λ x y z. (x, y, z))
        (map view operands.now) }
    ensures in_range { IfSome result (λ x. (x.0 < procs) × (x.1 < REGISTERS) × (x.2 < REGISTERS)) }
{
    let [p, a, b] = operands else { return None };
    Some((below(procs, p)?, register(a)?, register(b)?))
}

#[tactic(auto, unfolding(crate::specs::Instruction::one, crate::specs::Instruction::two, crate::specs::Instruction::three, crate::specs::Instruction::four))]
fn group_and_call(procs: usize, operands: &[Value]) -> Option<(Group, u8, Register, Register)>
    requires { procs ≤ MAX_PROCS }
    ensures value { result ≡ four group (below procs) register register (λ x y z w. (x, y, z, w))
        (map view operands.now) }
    ensures in_range { IfSome result (λ x. (x.0 < GROUPS) × (x.1 < procs) × (x.2 < REGISTERS)
        × (x.3 < REGISTERS)) }
{
    let [g, p, a, b] = operands else { return None };
    Some((group(g)?, below(procs, p)?, register(a)?, register(b)?))
}

#[tactic(auto, unfolding(crate::specs::Instruction::one, crate::specs::Instruction::two, crate::specs::Instruction::three, crate::specs::Instruction::four))]
fn register_and_call(procs: usize, operands: &[Value]) -> Option<(Register, u8, Register, Register)>
    requires { procs ≤ MAX_PROCS }
    ensures value { result ≡ four register (below procs) register register (λ x y z w. (x, y, z, w))
        (map view operands.now) }
    ensures in_range { IfSome result (λ x. (x.0 < REGISTERS) × (x.1 < procs) × (x.2 < REGISTERS)
        × (x.3 < REGISTERS)) }
{
    let [d, p, a, b] = operands else { return None };
    Some((register(d)?, below(procs, p)?, register(a)?, register(b)?))
}
