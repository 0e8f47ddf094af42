// Tokens.
use source_language::Operator;

/// An operator between two values.
#[derive(Clone, Copy, Debug, PartialEq, Eq)]
pub enum Sign {
    Or,
    And,
    Equal,
    Unequal,
    Below,
    AtMost,
    Above,
    AtLeast,
    Plus,
    Minus,
    Times,
    Over,
    Remainder,
    BitAnd,
    BitOr,
    BitXor,
    ShiftLeft,
    ShiftRight,
}

/// What is asked of a cell.
#[derive(Clone, Copy, Debug, PartialEq, Eq)]
pub enum Part {
    /// `.local`
    Local,
    /// `.sum`
    Sum,
    /// `.count`
    Count,
}

/// What a parallel loop makes of the values that its body gives.
#[derive(Clone, Copy, Debug, PartialEq, Eq)]
pub enum Gathers {
    /// `psum`
    Sum,
    /// `pmin`
    Least,
    /// `pmax`
    Greatest,
}

/// A function that the language has, unless the source has one of its name.
#[derive(Clone, Copy, Debug, PartialEq, Eq)]
pub enum BuiltIn {
    /// `min`
    Min,
    /// `max`
    Max,
    /// `abs`
    Abs,
}

/// What a token is.
#[derive(Clone, Copy, Debug, PartialEq, Eq)]
pub enum Kind {
    Number(i64),
    /// A name, by the first lexeme that has it.
    Name(usize),
    /// A function that the language has, before `(`, and its name.
    BuiltIn(BuiltIn, usize),
    Sign(Sign),
    /// `+=` and the like.
    Update(Operator),
    /// `=`
    Set,
    /// `!`
    Not,
    /// `~`
    Complement,
    /// `(`
    Open,
    /// `)`
    Close,
    /// `{`
    Begin,
    /// `}`
    End,
    Comma,
    Colon,
    /// `..`
    Range,
    /// The end of a line that is not broken there.
    LineEnd,
    /// `;`
    Semicolon,
    Fn,
    /// The name of the function that the root runs.
    Main,
    Let,
    If,
    Else,
    While,
    Break,
    Continue,
    Return,
    Slot,
    Width,
    Call,
    Spawn,
    Wait,
    Sync,
    Group,
    Cancel,
    For,
    In,
    Step,
    /// `psum`, `pmin` or `pmax`.
    Gathers(Gathers),
    Grain,
    Give,
    /// `const`
    Const,
    /// `param`, and the number that its name is given from outside, if it is given one.
    Param(Option<i64>),
    Inline,
    Isolate,
    Post,
    Cancelled,
    Cell,
    /// A part of a cell, with the point before it.
    Part(Part),
    /// `@`
    At,
    /// What is no token of the language.
    Other,
}

/// A token, and the place in the text where it begins.
#[derive(Clone, Copy, Debug)]
pub struct Token {
    pub kind: Kind,
    pub at: usize,
    /// How many bits it says, if its text is a width: `u1` to `u62`, which is a name elsewhere. Else 0.
    pub bits: u8,
}
