// What a function must meet before it is compiled, and a list of instructions afterwards.
ghost use Rattle.std.specs.Prelude.{IsTrue, ◌≡◌, ◌<◌, ◌≤◌, ◌↔◌, length};
ghost use Rattle.job_language.specs.Program.{IsInRange, IsValidProc};
ghost use Rattle.job_compiler.specs.Compiled.{IsFunction};
ghost use Rattle.job_compiler.specs.Within.{IsWithin, IsTestWithin, IsStmtWithin, IsMakerWithin, IsOneWithin};

use job_language::{GROUPS, Instr, KEYS, MAX_INSTRS, REGISTERS, Register};
use source_language::{Expr, Function, Maker, Stmt, Test};

/// Whether the variables of an expression are below a number.
pub(crate) fn expr_within(n: u8, e: &Expr) -> bool
    ensures { IsTrue result ↔ IsWithin n e.now }
{
    match e {
        Expr::Number(z) => {
            let _value = *z;
            true
        }
        Expr::Variable(x) => *x < n,
        Expr::Slot => true,
        Expr::Width => true,
        Expr::Two(_, a, b) => expr_within(n, a) && expr_within(n, b),
    }
}

pub(crate) fn test_within(n: u8, c: &Test) -> bool
    ensures { IsTrue result ↔ IsTestWithin n c.now }
{
    match c {
        Test::Holds(e) => expr_within(n, e),
        Test::Not(t) => test_within(n, t),
        Test::Both(a, b) => test_within(n, a) && test_within(n, b),
        Test::Either(a, b) => test_within(n, a) && test_within(n, b),
    }
}

fn maker_within(n: u8, m: Maker) -> bool
    ensures { IsTrue result ↔ IsMakerWithin n m }
{
    match m {
        Maker::Isolate(d) => d < n,
        Maker::Spawn(_) => true,
        Maker::Post => true,
    }
}

fn one_within(n: u8, into: Option<u8>) -> bool
    ensures { IsTrue result ↔ IsOneWithin n into }
{
    match into {
        Some(d) => d < n,
        None => true,
    }
}

pub(crate) fn stmt_within(n: u8, s: &Stmt) -> bool
    ensures { IsTrue result ↔ IsStmtWithin n s.now }
{
    match s {
        Stmt::Skip => true,
        Stmt::Then(a, b) => stmt_within(n, a) && stmt_within(n, b),
        Stmt::Assign(x, e) => *x < n && expr_within(n, e),
        Stmt::If(c, a, b) => test_within(n, c) && stmt_within(n, a) && stmt_within(n, b),
        Stmt::Loop(c, b, s) => test_within(n, c) && stmt_within(n, b) && stmt_within(n, s),
        Stmt::Repeat(c, b, s) => test_within(n, c) && stmt_within(n, b) && stmt_within(n, s),
        Stmt::Break(_) => true,
        Stmt::Continue(_) => true,
        Stmt::Return(e) => expr_within(n, e),
        Stmt::Make(m, _, a, b) => maker_within(n, *m) && expr_within(n, a) && expr_within(n, b),
        Stmt::Wait(d, e, _) => one_within(n, *d) && one_within(n, *e),
        Stmt::Cancel(_) => true,
        Stmt::Read(d, _) => *d < n,
        Stmt::Store(_, e) => expr_within(n, e),
    }
}

/// Whether a function has its two parameters, and names only variables that it has.
pub(crate) fn is_function(function: &Function) -> bool
    ensures { IsTrue result ↔ IsFunction function.now }
{
    function.variables >= 2 && stmt_within(function.variables, &function.body)
}

// Each register is one: what this brings is that its number is low.
fn one(a: Register) -> bool
    ensures { IsTrue result × (a < REGISTERS) }
{
    a.index() < REGISTERS
}

fn two(a: Register, b: Register) -> bool
    ensures { IsTrue result × (a < REGISTERS) × (b < REGISTERS) }
{
    one(a) && one(b)
}

fn three(d: Register, a: Register, b: Register) -> bool
    ensures { IsTrue result × (d < REGISTERS) × (a < REGISTERS) × (b < REGISTERS) }
{
    one(d) && two(a, b)
}

/// Whether an instruction is one of a procedure of that many instructions.
fn is_in_range(len: usize, instr: &Instr) -> bool
    ensures { IsTrue result ↔ IsInRange len instr.now }
{
    match *instr {
        Instr::Set(d, n) => {
            let _value = n;
            one(d)
        }
        Instr::Add(d, a, b) => three(d, a, b),
        Instr::Sub(d, a, b) => three(d, a, b),
        Instr::Mul(d, a, b) => three(d, a, b),
        Instr::Div(d, a, b) => three(d, a, b),
        Instr::Lt(d, a, b) => three(d, a, b),
        Instr::Rem(d, a, b) => three(d, a, b),
        Instr::And(d, a, b) => three(d, a, b),
        Instr::Or(d, a, b) => three(d, a, b),
        Instr::Xor(d, a, b) => three(d, a, b),
        Instr::Shl(d, a, b) => three(d, a, b),
        Instr::Shr(d, a, b) => three(d, a, b),
        Instr::Eq(d, a, b) => three(d, a, b),
        Instr::Le(d, a, b) => three(d, a, b),
        Instr::Jz(a, t) => one(a) && usize::from(t) < len,
        Instr::Jmp(t) => usize::from(t) < len,
        Instr::Slot(d) => one(d),
        Instr::Width(d) => one(d),
        Instr::Spawn(g, _, a, b) => g.index() < GROUPS && two(a, b),
        Instr::Post(_, a, b) => two(a, b),
        Instr::Wait(d, e, g) => g.index() < GROUPS && two(d, e),
        Instr::Cancel(g) => g.index() < GROUPS,
        Instr::Ask(d) => one(d),
        Instr::Isolate(d, _, a, b) => three(d, a, b),
        Instr::Load(d, k) => k.index() < KEYS && one(d),
        Instr::Store(k, a) => k.index() < KEYS && one(a),
        Instr::Sum(d, k) => k.index() < KEYS && one(d),
        Instr::Count(d, k) => k.index() < KEYS && one(d),
        Instr::Ret(a) => one(a),
    }
}

/// Whether instructions make a procedure.
pub fn is_valid_proc(instrs: &[Instr]) -> bool
    ensures { IsTrue result ↔ IsValidProc instrs.now }
{
    let len = instrs.len();
    if len == 0 {
        return false;
    }
    if len > MAX_INSTRS {
        return false;
    }
    for instr in instrs {
        if !is_in_range(len, instr) {
            return false;
        }
    }
    instrs[len - 1].is_last()
}
