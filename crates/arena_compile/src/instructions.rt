// Instructions as the assembler reads them.
use job_language::{Group, Instr, Key, Register};
use std::alloc::{AllocError, Global};

/// An instruction of a program whose procedures have these names. A target is the label of its instruction.
pub(crate) fn text_of(alloc: Global, instr: &Instr, names: &[&str]) -> Result<String, AllocError> {
    match *instr {
        Instr::Set(d, n) => format!(in alloc; "set     r{} {n}", d.index()),
        Instr::Add(d, a, b) => with_three(alloc, "add", d, a, b),
        Instr::Sub(d, a, b) => with_three(alloc, "sub", d, a, b),
        Instr::Mul(d, a, b) => with_three(alloc, "mul", d, a, b),
        Instr::Div(d, a, b) => with_three(alloc, "div", d, a, b),
        Instr::Lt(d, a, b) => with_three(alloc, "lt", d, a, b),
        Instr::Rem(d, a, b) => with_three(alloc, "rem", d, a, b),
        Instr::And(d, a, b) => with_three(alloc, "and", d, a, b),
        Instr::Or(d, a, b) => with_three(alloc, "or", d, a, b),
        Instr::Xor(d, a, b) => with_three(alloc, "xor", d, a, b),
        Instr::Shl(d, a, b) => with_three(alloc, "shl", d, a, b),
        Instr::Shr(d, a, b) => with_three(alloc, "shr", d, a, b),
        Instr::Eq(d, a, b) => with_three(alloc, "eq", d, a, b),
        Instr::Le(d, a, b) => with_three(alloc, "le", d, a, b),
        Instr::Jz(a, t) => format!(in alloc; "jz      r{} L{t}", a.index()),
        Instr::Jmp(t) => format!(in alloc; "jmp     L{t}"),
        Instr::Slot(d) => with_one(alloc, "slot", d),
        Instr::Width(d) => with_one(alloc, "width", d),
        Instr::Spawn(g, p, a, b) => spawned(alloc, g, name_of(names, p), a, b),
        Instr::Post(p, a, b) => posted(alloc, name_of(names, p), a, b),
        Instr::Wait(d, e, g) => waited(alloc, d, e, g),
        Instr::Cancel(g) => format!(in alloc; "cancel  g{}", g.index()),
        Instr::Ask(d) => with_one(alloc, "ask", d),
        Instr::Isolate(d, p, a, b) => isolated(alloc, d, name_of(names, p), a, b),
        Instr::Load(d, k) => of_cell(alloc, "load", d, k),
        Instr::Store(k, a) => format!(in alloc; "store   k{} r{}", k.index(), a.index()),
        Instr::Sum(d, k) => of_cell(alloc, "sum", d, k),
        Instr::Count(d, k) => of_cell(alloc, "count", d, k),
        Instr::Ret(a) => with_one(alloc, "ret", a),
    }
}

/// The name of the procedure of that number.
fn name_of<'a>(names: &[&'a str], number: u8) -> &'a str {
    match names.get(usize::from(number)) {
        Some(name) => *name,
        None => "?",
    }
}

fn with_one(alloc: Global, name: &str, a: Register) -> Result<String, AllocError> {
    format!(in alloc; "{name:8}r{}", a.index())
}

fn with_three(
    alloc: Global,
    name: &str,
    d: Register,
    a: Register,
    b: Register,
) -> Result<String, AllocError> {
    format!(in alloc; "{name:8}r{} r{} r{}", d.index(), a.index(), b.index())
}

fn spawned(
    alloc: Global,
    group: Group,
    name: &str,
    a: Register,
    b: Register,
) -> Result<String, AllocError> {
    format!(in alloc;
        "spawn   g{} {name} r{} r{}",
        group.index(),
        a.index(),
        b.index()
    )
}

fn posted(alloc: Global, name: &str, a: Register, b: Register) -> Result<String, AllocError> {
    format!(in alloc; "post    {name} r{} r{}", a.index(), b.index())
}

fn waited(alloc: Global, d: Register, e: Register, group: Group) -> Result<String, AllocError> {
    format!(in alloc; "wait    r{} r{} g{}", d.index(), e.index(), group.index())
}

fn isolated(
    alloc: Global,
    d: Register,
    name: &str,
    a: Register,
    b: Register,
) -> Result<String, AllocError> {
    format!(in alloc;
        "isolate r{} {name} r{} r{}",
        d.index(),
        a.index(),
        b.index()
    )
}

fn of_cell(alloc: Global, name: &str, d: Register, key: Key) -> Result<String, AllocError> {
    format!(in alloc; "{name:8}r{} k{}", d.index(), key.index())
}
