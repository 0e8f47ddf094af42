// Instructions: what a procedure of a job may do, one step at a time.
ghost use Rattle.std.specs.Prelude.{◌≡◌, ℕ, ◌<◌, nat_lt, if◌then◌else◌, Some, None};

use std::marker::Model;

/// How many registers a frame has.
pub const REGISTERS: usize = 8;

/// How many task groups a frame has of its own.
pub const GROUPS: usize = 4;

/// How many keys there are for the cells of a slot.
pub const KEYS: usize = 8;

/// A register of a frame, numbered from 0 to 7.
#[derive(Clone, Copy, Debug, PartialEq, Eq)]
pub struct Register(u8);

impl Model for Register {
    ghost Value = { ℕ };

    ghost view = { λ r. r.0 };

    ghost invariant = { λ r. r.0 < 8 };

    ghost inverse = { λ n. record { 0 = n } };
}

impl Register {
    /// The register of a number, if there is one.
    pub fn new(number: u64) -> Option<Register>
        ensures { result ≡ (if nat_lt number REGISTERS then Some number else None) }
    {
        if number < REGISTERS as u64 {
            Some(Register(number as u8))
        } else {
            None
        }
    }

    /// Its place among the registers of a frame.
    pub fn index(self) -> usize
        ensures value { result ≡ self }
        ensures in_range { result < REGISTERS }
    {
        self.0 as usize
    }
}

/// A task group of a frame, numbered from 0 to 3.
#[derive(Clone, Copy, Debug, PartialEq, Eq)]
pub struct Group(u8);

impl Model for Group {
    ghost Value = { ℕ };

    ghost view = { λ g. g.0 };

    ghost invariant = { λ g. g.0 < 4 };

    ghost inverse = { λ n. record { 0 = n } };
}

impl Group {
    /// The group of a number, if there is one.
    pub fn new(number: u64) -> Option<Group>
        ensures { result ≡ (if nat_lt number GROUPS then Some number else None) }
    {
        if number < GROUPS as u64 {
            Some(Group(number as u8))
        } else {
            None
        }
    }

    /// Its place among the groups of a frame.
    pub fn index(self) -> usize
        ensures value { result ≡ self }
        ensures in_range { result < GROUPS }
    {
        self.0 as usize
    }
}

/// A key of thread-specific cells, numbered from 0 to 7: each key has one cell for each slot.
#[derive(Clone, Copy, Debug, PartialEq, Eq)]
pub struct Key(u8);

impl Model for Key {
    ghost Value = { ℕ };

    ghost view = { λ k. k.0 };

    ghost invariant = { λ k. k.0 < 8 };

    ghost inverse = { λ n. record { 0 = n } };
}

impl Key {
    /// The key of a number, if there is one.
    pub fn new(number: u64) -> Option<Key>
        ensures { result ≡ (if nat_lt number KEYS then Some number else None) }
    {
        if number < KEYS as u64 {
            Some(Key(number as u8))
        } else {
            None
        }
    }

    /// Its place among the keys.
    pub fn index(self) -> usize
        ensures value { result ≡ self }
        ensures in_range { result < KEYS }
    {
        self.0 as usize
    }
}

/// An instruction. Numbers are 64 bits wide and wrap. Its operands stand in the order of its text.
///
/// The first eighteen are private to a frame; the others are shared: they reach the tenant's groups,
/// rows, cells and contexts, and `ret` ends the frame.
#[derive(Clone, Copy)]
pub enum Instr {
    /// `["set",d,n]`: register d becomes n.
    Set(Register, i64),
    /// `["add",d,a,b]`: d becomes a + b.
    Add(Register, Register, Register),
    /// `["sub",d,a,b]`: d becomes a - b.
    Sub(Register, Register, Register),
    /// `["mul",d,a,b]`: d becomes a * b.
    Mul(Register, Register, Register),
    /// `["div",d,a,b]`: d becomes a / b, rounded toward zero. A divisor of 0 is a fault.
    Div(Register, Register, Register),
    /// `["lt",d,a,b]`: d becomes 1 if a < b, else 0.
    Lt(Register, Register, Register),
    /// `["rem",d,a,b]`: d becomes what a / b leaves, with the sign of a. A divisor of 0 is a fault.
    Rem(Register, Register, Register),
    /// `["and",d,a,b]`: d becomes the bits that a and b both have, in two's complement.
    And(Register, Register, Register),
    /// `["or",d,a,b]`: d becomes the bits that a or b has.
    Or(Register, Register, Register),
    /// `["xor",d,a,b]`: d becomes the bits that only one of a and b has.
    Xor(Register, Register, Register),
    /// `["shl",d,a,b]`: d becomes a, shifted left by the lowest six bits of b.
    Shl(Register, Register, Register),
    /// `["shr",d,a,b]`: d becomes a, shifted right by the lowest six bits of b; it keeps its sign.
    Shr(Register, Register, Register),
    /// `["eq",d,a,b]`: d becomes 1 if a = b, else 0.
    Eq(Register, Register, Register),
    /// `["le",d,a,b]`: d becomes 1 if a <= b, else 0.
    Le(Register, Register, Register),
    /// `["jz",a,t]`: goes on at instruction t if a is 0.
    Jz(Register, u8),
    /// `["jmp",t]`: goes on at instruction t.
    Jmp(u8),
    /// `["slot",d]`: d becomes the index of the slot that runs the frame (`current_thread_index`).
    Slot(Register),
    /// `["width",d]`: d becomes the number of slots (`max_concurrency`).
    Width(Register),
    /// `["spawn",g,p,a,b]`: makes a task of procedure p in group g (`task_group::run`).
    Spawn(Group, u8, Register, Register),
    /// `["post",p,a,b]`: makes a task of procedure p in no group and no region (`enqueue`).
    Post(u8, Register, Register),
    /// `["wait",d,e,g]`: waits for group g; its total goes to d, its status to e (`task_group::wait`).
    Wait(Register, Register, Group),
    /// `["cancel",g]`: cancels the tasks of group g (`task_group::cancel`).
    Cancel(Group),
    /// `["ask",d]`: d becomes 1 if the frame's own context is cancelled (`is_canceling`).
    Ask(Register),
    /// `["isolate",d,p,a,b]`: runs procedure p as a region; its value goes to d (`isolate`).
    Isolate(Register, u8, Register, Register),
    /// `["load",d,k]`: d becomes this slot's cell of key k, made as 0 if it is absent (`local`).
    Load(Register, Key),
    /// `["store",k,a]`: this slot's cell of key k becomes a.
    Store(Key, Register),
    /// `["sum",d,k]`: d becomes the sum of the cells of key k (`combine`).
    Sum(Register, Key),
    /// `["count",d,k]`: d becomes the number of cells of key k (`size`).
    Count(Register, Key),
    /// `["ret",a]`: ends the frame with the value of a.
    Ret(Register),
}

const _: () = prove!(size_of::<Instr>() == 16);

impl Instr {
    ghost use Rattle.job_language.specs.Program.{is_last};

    /// May a procedure end with it?
    pub fn is_last(&self) -> bool
        ensures { result ≡ is_last self.now }
    {
        matches!(self, Instr::Jmp(_) | Instr::Ret(_))
    }
}
