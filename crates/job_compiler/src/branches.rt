// The code of a condition, and the jumps of a choice.
ghost use Rattle.std.specs.Prelude.{◌≡◌, ◌+◌, ◌≤◌, [], ◌∷◌, ◌++◌, length, true, None, if◌then◌else◌};
ghost use Rattle.job_compiler.specs.Code.{op_instr, operand, operand_code, both_code, left_of, right_of, opposed, jump_code, jumps, over_size, over_code, test_size, test_code};
ghost use Rattle.job_language.specs.declared.instructions.Instr.TheVariants.{Jz};
ghost use Rattle.job_compiler.specs.Registers.{IsOperandLow, AreBothLow, IsTestLow};

use crate::emit::{emit_both, emit_expr, operand};
use crate::registers::VIRTUAL_REGISTERS;
use crate::sizes::{MAX_BODY, compared, opposite, size_of_test};
use crate::virtuals::{VirtualCode, VirtualInstr};
use source_language::{Expr, Operator, Test};

/// A jump if a condition is as wanted; else what follows it is next.
pub(crate) fn emit_test(code: &mut VirtualCode, c: &Test, want: bool, to: u8, free: u8)
    requires low { IsTestLow VIRTUAL_REGISTERS c.now free }
    requires room { length code.old + test_size c.now want free ≤ MAX_BODY }
    ensures code { code.new ≡ code.old ++ test_code c.now want to free (length code.old) }
    ensures len { length code.new ≡ length code.old + test_size c.now want free }
{
    match c {
        Test::Holds(e) => match compared(e) {
            Some(a) => emit_jump(code, a, !want, to, free),
            None => emit_jump(code, e, want, to, free),
        },
        Test::Not(t) => emit_test(code, t, !want, to, free),
        Test::Both(a, b) => {
            let after = code.next() + size_of_test(c, want, free);
            emit_test(code, a, false, chosen(want, after, to), free);
            emit_test(code, b, want, to, free);
        }
        Test::Either(a, b) => {
            let after = code.next() + size_of_test(c, want, free);
            emit_test(code, a, true, chosen(want, to, after), free);
            emit_test(code, b, want, to, free);
        }
    }
}

fn chosen(want: bool, first: u8, second: u8) -> u8
    ensures { result ≡ (if want then first else second) }
{
    if want { first } else { second }
}

// A jump if an expression is 0.
fn emit_if_not(code: &mut VirtualCode, e: &Expr, to: u8, free: u8)
    requires low { IsOperandLow VIRTUAL_REGISTERS e.now free }
    requires room { length code.old + length (operand_code e.now free) + 1 ≤ MAX_BODY }
    ensures code { code.new ≡ code.old
        ++ (operand_code e.now free ++ Jz (operand e.now free) to ∷ []) }
    ensures len { length code.new ≡ length code.old + length (operand_code e.now free) + 1 }
{
    emit_expr(code, e, None, free);
    code.put(VirtualInstr::Jz(operand(e, free), to));
}

// A jump if an expression is not 0, past another one.
fn emit_past(code: &mut VirtualCode, e: &Expr, to: u8, free: u8)
    requires low { IsOperandLow VIRTUAL_REGISTERS e.now free }
    requires room { length code.old + length (operand_code e.now free) + 2 ≤ MAX_BODY }
    ensures code { code.new ≡ code.old
        ++ jump_code true None e.now to free (length code.old) }
    ensures len { length code.new ≡ length code.old + length (operand_code e.now free) + 2 }
{
    emit_expr(code, e, None, free);
    let after = code.next() + 2;
    code.put(VirtualInstr::Jz(operand(e, free), after));
    code.put(VirtualInstr::Jmp(to));
}

// Two operands, and an operator of both, exchanged.
fn emit_exchanged(code: &mut VirtualCode, op: Operator, a: &Expr, b: &Expr, free: u8)
    requires low { AreBothLow VIRTUAL_REGISTERS a.now b.now free }
    requires room { length code.old + length (both_code a.now b.now free) + 1 ≤ MAX_BODY }
    ensures code { code.new ≡ code.old ++ (both_code a.now b.now free
        ++ op_instr op free (right_of a.now b.now free) (left_of a.now b.now free) ∷ []) }
    ensures len { length code.new ≡ length code.old + length (both_code a.now b.now free) + 1 }
{
    let (left, right) = emit_both(code, a, b, free);
    code.put(VirtualInstr::Two(op, free, right, left));
}

// A jump if an expression is not 0.
fn emit_if_so(code: &mut VirtualCode, e: &Expr, to: u8, free: u8)
    requires low { IsOperandLow VIRTUAL_REGISTERS e.now free }
    requires room { length code.old + (length (operand_code e.now free) + jumps true (opposed e.now)) ≤ MAX_BODY }
    ensures code { code.new ≡ code.old
        ++ jump_code true (opposed e.now) e.now to free (length code.old) }
    ensures len { length code.new
        ≡ length code.old + (length (operand_code e.now free) + jumps true (opposed e.now)) }
{
    match e {
        Expr::Two(op, a, b) => match opposite(*op) {
            Some(other) => {
                emit_exchanged(code, other, a, b, free);
                code.put(VirtualInstr::Jz(free, to));
            }
            None => emit_past(code, e, to, free),
        },
        Expr::Number(_) => emit_past(code, e, to, free),
        Expr::Variable(_) => emit_past(code, e, to, free),
        Expr::Slot => emit_past(code, e, to, free),
        Expr::Width => emit_past(code, e, to, free),
    }
}

// A jump if an expression is 0, or if it is not.
fn emit_jump(code: &mut VirtualCode, e: &Expr, want: bool, to: u8, free: u8)
    requires low { IsOperandLow VIRTUAL_REGISTERS e.now free }
    requires room { length code.old + (length (operand_code e.now free) + jumps want (opposed e.now)) ≤ MAX_BODY }
    ensures code { code.new ≡ code.old
        ++ jump_code want (opposed e.now) e.now to free (length code.old) }
    ensures len { length code.new
        ≡ length code.old + (length (operand_code e.now free) + jumps want (opposed e.now)) }
{
    if want {
        emit_if_so(code, e, to, free);
    } else {
        emit_if_not(code, e, to, free);
    }
}

/// The jump over a side of a choice that has so many instructions.
pub(crate) fn emit_over(code: &mut VirtualCode, size: u8, to: u8)
    requires { length code.old + over_size size ≤ MAX_BODY }
    ensures code { code.new ≡ code.old ++ over_code size to }
    ensures len { length code.new ≡ length code.old + over_size size }
{
    if 0 < size {
        code.put(VirtualInstr::Jmp(to));
    }
}
