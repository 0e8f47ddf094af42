// The syntax tree of a function: variables, groups and procedures are numbers.
use job_language::{Group, Key};

/// An operator between two numbers of 64 bits, which wraps. Division rounds toward zero, and a remainder
/// has the sign of the dividend. Bits are those of two's complement; a number is shifted by the lowest six
/// bits of another, and to the right it keeps its sign. Comparisons give 1 or 0.
#[derive(Clone, Copy, Debug, PartialEq, Eq)]
pub enum Operator {
    Plus,
    Minus,
    Times,
    Over,
    Remainder,
    BitAnd,
    BitOr,
    BitXor,
    ShiftLeft,
    ShiftRight,
    Below,
    AtMost,
    Equal,
}

/// An expression. It only reads.
#[derive(Drop)]
pub enum Expr {
    Number(i64),
    Variable(u8),
    /// The index of the slot.
    Slot,
    /// The number of slots.
    Width,
    Two(Operator, Box<Expr>, Box<Expr>),
}

/// A condition. `&&` and `||` stop early.
#[derive(Drop)]
pub enum Test {
    /// It is not 0.
    Holds(Expr),
    Not(Box<Test>),
    Both(Box<Test>, Box<Test>),
    Either(Box<Test>, Box<Test>),
}

/// What makes a row.
#[derive(Clone, Copy, Debug)]
pub enum Maker {
    Spawn(Group),
    Post,
    /// The value of the region goes to this variable.
    Isolate(u8),
}

/// What is asked of the tenant for one number.
#[derive(Clone, Copy, Debug)]
pub enum Question {
    Cancelled,
    Cell(Key),
    CellSum(Key),
    CellCount(Key),
}

/// A statement.
#[derive(Drop)]
pub enum Stmt {
    Skip,
    Then(Box<Stmt>, Box<Stmt>),
    Assign(u8, Expr),
    If(Test, Box<Stmt>, Box<Stmt>),
    /// While the condition holds, the body and then the step. `continue` goes on at the step.
    Loop(Test, Box<Stmt>, Box<Stmt>),
    /// The body and then the step, and this again as long as the condition then holds.
    Repeat(Test, Box<Stmt>, Box<Stmt>),
    /// Leaves the innermost loop, and as many more as it says. With fewer around it, the function ends.
    Break(u8),
    /// Leaves as many loops as it says, and goes on at the step of the next one.
    Continue(u8),
    Return(Expr),
    /// Makes a row of a procedure with two numbers.
    Make(Maker, u8, Expr, Expr),
    /// Waits for a group. Its total goes to the first variable, and then its status to the second one,
    /// if there is one.
    Wait(Option<u8>, Option<u8>, Group),
    Cancel(Group),
    Read(u8, Question),
    Store(Key, Expr),
}

/// A function: how many variables it has, of which the first two are its parameters, and its body.
#[derive(Drop)]
pub struct Function {
    pub variables: u8,
    pub body: Stmt,
}
