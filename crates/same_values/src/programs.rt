// Whether two programs are the same.
ghost use Rattle.std.specs.Prelude.{◌≡◌, ◌↔◌, IsTrue};

use job_language::{Group, Instr, Key, Proc, Program, Register};

/// Whether two instructions are the same.
fn is_same_instr(instr: &Instr, other: &Instr) -> bool
    ensures { IsTrue result ↔ (instr.now ≡ other.now) }
{
    match *instr {
        Instr::Set(to, value) => matches!(*other, Instr::Set(t, v) if t == to && v == value),
        Instr::Add(to, a, b) =>
            matches!(*other, Instr::Add(t, c, d) if t == to && c == a && d == b),
        Instr::Sub(to, a, b) =>
            matches!(*other, Instr::Sub(t, c, d) if t == to && c == a && d == b),
        Instr::Mul(to, a, b) =>
            matches!(*other, Instr::Mul(t, c, d) if t == to && c == a && d == b),
        Instr::Div(to, a, b) =>
            matches!(*other, Instr::Div(t, c, d) if t == to && c == a && d == b),
        Instr::Lt(to, a, b) => matches!(*other, Instr::Lt(t, c, d) if t == to && c == a && d == b),
        Instr::Rem(to, a, b) =>
            matches!(*other, Instr::Rem(t, c, d) if t == to && c == a && d == b),
        Instr::And(to, a, b) =>
            matches!(*other, Instr::And(t, c, d) if t == to && c == a && d == b),
        Instr::Or(to, a, b) => matches!(*other, Instr::Or(t, c, d) if t == to && c == a && d == b),
        Instr::Xor(to, a, b) =>
            matches!(*other, Instr::Xor(t, c, d) if t == to && c == a && d == b),
        Instr::Shl(to, a, b) =>
            matches!(*other, Instr::Shl(t, c, d) if t == to && c == a && d == b),
        Instr::Shr(to, a, b) =>
            matches!(*other, Instr::Shr(t, c, d) if t == to && c == a && d == b),
        Instr::Eq(to, a, b) => matches!(*other, Instr::Eq(t, c, d) if t == to && c == a && d == b),
        Instr::Le(to, a, b) => matches!(*other, Instr::Le(t, c, d) if t == to && c == a && d == b),
        Instr::Jz(a, at) => matches!(*other, Instr::Jz(b, t) if b == a && t == at),
        Instr::Jmp(at) => matches!(*other, Instr::Jmp(t) if t == at),
        Instr::Slot(to) => matches!(*other, Instr::Slot(t) if t == to),
        Instr::Width(to) => matches!(*other, Instr::Width(t) if t == to),
        Instr::Spawn(g, p, a, b) =>
            matches!(*other, Instr::Spawn(h, q, c, d) if h == g && q == p && c == a && d == b),
        Instr::Post(p, a, b) =>
            matches!(*other, Instr::Post(q, c, d) if q == p && c == a && d == b),
        Instr::Wait(to, status, g) =>
            matches!(*other, Instr::Wait(t, s, h) if t == to && s == status && h == g),
        Instr::Cancel(g) => matches!(*other, Instr::Cancel(h) if h == g),
        Instr::Ask(to) => matches!(*other, Instr::Ask(t) if t == to),
        Instr::Isolate(to, p, a, b) =>
            matches!(*other, Instr::Isolate(t, q, c, d) if t == to && q == p && c == a && d == b),
        Instr::Load(to, key) => matches!(*other, Instr::Load(t, k) if t == to && k == key),
        Instr::Store(key, a) => matches!(*other, Instr::Store(k, b) if k == key && b == a),
        Instr::Sum(to, key) => matches!(*other, Instr::Sum(t, k) if t == to && k == key),
        Instr::Count(to, key) => matches!(*other, Instr::Count(t, k) if t == to && k == key),
        Instr::Ret(a) => matches!(*other, Instr::Ret(b) if b == a),
    }
}

/// Whether two procedures have the same instructions.
fn is_same_proc(proc: &Proc, other: &Proc) -> bool
    ensures { IsTrue result ↔ (proc.now ≡ other.now) }
{
    let (mut left, mut others) = (proc.instrs(), other.instrs());
    while let ([instr, rest @ ..], [its, others_rest @ ..]) = (left, others) {
        if !is_same_instr(instr, its) {
            return false;
        }
        (left, others) = (rest, others_rest);
    }
    left.is_empty() && others.is_empty()
}

/// Whether two programs have the same procedures.
pub fn is_same_program(program: &Program, other: &Program) -> bool
    ensures { IsTrue result ↔ (program.now ≡ other.now) }
{
    let (mut left, mut others) = (program.procs(), other.procs());
    while let ([proc, rest @ ..], [its, others_rest @ ..]) = (left, others) {
        if !is_same_proc(proc, its) {
            return false;
        }
        (left, others) = (rest, others_rest);
    }
    left.is_empty() && others.is_empty()
}
