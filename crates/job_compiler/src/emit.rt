// The code of a function.
ghost use Rattle.std.specs.Prelude.{◌≡◌, ◌↔◌, ◌+◌, ◌<◌, ◌≤◌, ℕ, [], ◌∷◌, ◌++◌, length, None};
ghost use Rattle.job_compiler.specs.Code.{operand, operand_code, both_code, left_of, right_of, register_for, make_code, make_instr, read_instr, stmt_size, stmt_code, function_code};
ghost use Rattle.job_language.specs.declared.instructions.Instr.TheVariants.{Ret, Store};
ghost use Rattle.job_compiler.specs.Labels.{labels_of};
ghost use Rattle.job_compiler.specs.Registers.{IsWantedLow, IsOperandLow, AreBothLow, IsStmtLow};
ghost use Rattle.job_compiler.specs.Virtual.{instr_of};
ghost use Rattle.job_compiler.specs.Wanted.{wanted_code};

use crate::branches::{emit_over, emit_test};
use crate::labels::{Labels, after_of, if_labels, loop_labels, next_of};
use crate::needs::is_right_first;
use crate::registers::VIRTUAL_REGISTERS;
use crate::sizes::{MAX_BODY, above};
use crate::virtuals::{VirtualCode, VirtualInstr};
use job_language::Key;
use source_language::{Expr, Function, Maker, Operator, Question, Stmt};

/// The code of a function whose body has at most that many instructions.
pub(crate) fn emit_function(code: &mut VirtualCode, function: &Function, end: u8)
    requires empty { code.old ≡ [] }
    requires low { IsStmtLow VIRTUAL_REGISTERS function.now.body function.now.variables }
    requires size { end ≡ stmt_size function.now.body function.now.variables }
    requires room { end ≤ MAX_BODY }
    ensures { code.new ≡ function_code function.now }
{
    emit_stmt(
        code,
        &function.body,
        function.variables,
        &Labels::Outside,
        end,
    );
    code.put(VirtualInstr::Set(0, 0));
    code.put(VirtualInstr::Ret(0));
}

/// The register of an operand.
pub(crate) fn operand(e: &Expr, free: u8) -> u8
    ensures { result ≡ operand e.now free }
{
    match e {
        Expr::Variable(x) => *x,
        _ => free,
    }
}

/// The register that is written, if one is asked for, and else the first free one.
fn written(into: Option<u8>, free: u8) -> u8
    ensures { result ≡ register_for into free }
{
    match into {
        Some(d) => d,
        None => free,
    }
}

#[cycle(expr)]
pub(crate) fn emit_expr(code: &mut VirtualCode, e: &Expr, into: Option<u8>, free: u8)
    requires low { IsWantedLow VIRTUAL_REGISTERS e.now into free }
    requires room { length code.old + length (wanted_code e.now into free) ≤ MAX_BODY }
    ensures code { code.new ≡ code.old ++ wanted_code e.now into free }
    ensures len { length code.new ≡ length code.old + length (wanted_code e.now into free) }
{
    match e {
        Expr::Number(n) => code.put(VirtualInstr::Set(written(into, free), *n)),
        Expr::Variable(x) => {
            if let Some(d) = into {
                code.put(VirtualInstr::Two(Operator::BitOr, d, *x, *x));
            }
        }
        Expr::Slot => code.put(VirtualInstr::Slot(written(into, free))),
        Expr::Width => code.put(VirtualInstr::Width(written(into, free))),
        Expr::Two(op, a, b) => {
            let (left, right) = emit_both(code, a, b, free);
            code.put(VirtualInstr::Two(*op, written(into, free), left, right));
        }
    }
}

/// Two operands, of which the one that takes more registers comes first; gives the registers in which
/// they then are.
#[cycle(expr)]
pub(crate) fn emit_both(code: &mut VirtualCode, a: &Expr, b: &Expr, free: u8) -> (u8, u8)
    requires low { AreBothLow VIRTUAL_REGISTERS a.now b.now free }
    requires room { length code.old + length (both_code a.now b.now free) ≤ MAX_BODY }
    ensures code { code.new ≡ code.old ++ both_code a.now b.now free }
    ensures len { length code.new ≡ length code.old + length (both_code a.now b.now free) }
    ensures left { result.0 ≡ left_of a.now b.now free }
    ensures right { result.1 ≡ right_of a.now b.now free }
{
    if is_right_first(a, b) {
        emit_expr(code, b, None, free);
        let next = above(b, free);
        emit_expr(code, a, None, next);
        (operand(a, next), operand(b, free))
    } else {
        emit_expr(code, a, None, free);
        let next = above(a, free);
        emit_expr(code, b, None, next);
        (operand(a, free), operand(b, next))
    }
}

fn make_instr(m: Maker, p: u8, a: u8, b: u8) -> VirtualInstr
    ensures { instr_of result ≡ make_instr m p a b }
{
    match m {
        Maker::Spawn(g) => VirtualInstr::Spawn(g, p, a, b),
        Maker::Post => VirtualInstr::Post(p, a, b),
        Maker::Isolate(d) => VirtualInstr::Isolate(d, p, a, b),
    }
}

fn read_instr(d: u8, q: Question) -> VirtualInstr
    ensures { instr_of result ≡ read_instr d q }
{
    match q {
        Question::Cancelled => VirtualInstr::Ask(d),
        Question::Cell(k) => VirtualInstr::Load(d, k),
        Question::CellSum(k) => VirtualInstr::Sum(d, k),
        Question::CellCount(k) => VirtualInstr::Count(d, k),
    }
}

// Two operands, and an instruction that makes a row of them.
fn emit_make(code: &mut VirtualCode, m: Maker, p: u8, a: &Expr, b: &Expr, free: u8)
    requires low { AreBothLow VIRTUAL_REGISTERS a.now b.now free }
    requires room { length code.old + length (both_code a.now b.now free) + 1 ≤ MAX_BODY }
    ensures code { code.new ≡ code.old ++ make_code m p a.now b.now free }
    ensures len { length code.new ≡ length code.old + length (both_code a.now b.now free) + 1 }
{
    let (left, right) = emit_both(code, a, b, free);
    code.put(make_instr(m, p, left, right));
}

fn emit_return(code: &mut VirtualCode, e: &Expr, free: u8)
    requires low { IsOperandLow VIRTUAL_REGISTERS e.now free }
    requires room { length code.old + length (operand_code e.now free) + 1 ≤ MAX_BODY }
    ensures code { code.new ≡ code.old ++ (operand_code e.now free ++ Ret (operand e.now free) ∷ []) }
    ensures len { length code.new ≡ length code.old + length (operand_code e.now free) + 1 }
{
    emit_expr(code, e, None, free);
    code.put(VirtualInstr::Ret(operand(e, free)));
}

fn emit_store(code: &mut VirtualCode, k: Key, e: &Expr, free: u8)
    requires low { IsOperandLow VIRTUAL_REGISTERS e.now free }
    requires room { length code.old + length (operand_code e.now free) + 1 ≤ MAX_BODY }
    ensures code { code.new ≡ code.old
        ++ (operand_code e.now free ++ Store k (operand e.now free) ∷ []) }
    ensures len { length code.new ≡ length code.old + length (operand_code e.now free) + 1 }
{
    emit_expr(code, e, None, free);
    code.put(VirtualInstr::Store(k, operand(e, free)));
}

fn emit_stmt(code: &mut VirtualCode, s: &Stmt, free: u8, labels: &Labels, end: u8)
    requires low { IsStmtLow VIRTUAL_REGISTERS s.now free }
    requires room { length code.old + stmt_size s.now free ≤ MAX_BODY }
    ensures code { code.new ≡ code.old
        ++ stmt_code s.now free (length code.old) (labels_of labels.now) end }
    ensures len { length code.new ≡ length code.old + stmt_size s.now free }
{
    match s {
        Stmt::Skip => (),
        Stmt::Then(a, b) => {
            emit_stmt(code, a, free, &*labels, end);
            emit_stmt(code, b, free, &*labels, end);
        }
        Stmt::Assign(x, e) => emit_expr(code, e, Some(*x), free),
        Stmt::If(c, a, b) => {
            let sides = if_labels(code.next(), c, a, b, free);
            emit_test(code, c, false, sides.other, free);
            emit_stmt(code, a, free, &*labels, end);
            emit_over(code, sides.size, sides.after);
            emit_stmt(code, b, free, &*labels, end);
        }
        Stmt::Loop(c, b, step) => {
            let parts = loop_labels(code.next() + 1, c, b, step, free);
            code.put(VirtualInstr::Jmp(parts.test));
            emit_stmt(code, b, free, &Labels::Inside(parts.label, &*labels), end);
            emit_stmt(code, step, free, &*labels, end);
            emit_test(code, c, true, parts.body, free);
        }
        Stmt::Repeat(c, b, step) => {
            let parts = loop_labels(code.next(), c, b, step, free);
            emit_stmt(code, b, free, &Labels::Inside(parts.label, &*labels), end);
            emit_stmt(code, step, free, &*labels, end);
            emit_test(code, c, true, parts.body, free);
        }
        Stmt::Break(loops) => code.put(VirtualInstr::Jmp(after_of(&*labels, *loops, end))),
        Stmt::Continue(loops) => code.put(VirtualInstr::Jmp(next_of(&*labels, *loops, end))),
        Stmt::Return(e) => emit_return(code, e, free),
        Stmt::Make(m, p, a, b) => emit_make(code, *m, *p, a, b, free),
        Stmt::Wait(d, e, g) => {
            code.put(VirtualInstr::Wait(written(*d, free), written(*e, free), *g));
        }
        Stmt::Cancel(g) => code.put(VirtualInstr::Cancel(*g)),
        Stmt::Read(d, q) => code.put(read_instr(*d, *q)),
        Stmt::Store(k, e) => emit_store(code, *k, e, free),
    }
}
