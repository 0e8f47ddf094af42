// Words of the language.
ghost use Rattle.std.specs.Prelude.{◌≡◌};
ghost use Rattle.std.specs.Str.{bytes_eq};
ghost use Rattle.source_tokens.specs.Words.{word_named, opening_word, choice_word, leaving_word, asking_word, counting_word, item_word, gathering_word, giving_word, waiting_word, group_word, region_word, cell_word, part_word, shared_word, task_word, parallel_word, later_word, kind_named};

use crate::signs::{mark_named, sign_kind};
use crate::tokens::{Gathers, Kind, Part};

/// The kind of a word or sign of the language.
pub(crate) fn kind_named(lexeme: &[u8]) -> Option<Kind>
    ensures { result ≡ kind_named lexeme.now }
{
    match word_named(lexeme) {
        Some(kind) => Some(kind),
        None => match mark_named(lexeme) {
            Some(kind) => Some(kind),
            None => sign_kind(lexeme),
        },
    }
}

/// Whether a lexeme is that word.
pub(crate) fn is(lexeme: &[u8], word: &[u8]) -> bool
    ensures { result ≡ bytes_eq lexeme.now word.now }
{
    lexeme == word
}

/// The kind of a word that is taken.
fn word_named(lexeme: &[u8]) -> Option<Kind>
    ensures { result ≡ word_named lexeme.now }
{
    match opening_word(lexeme) {
        Some(kind) => Some(kind),
        None => match choice_word(lexeme) {
            Some(kind) => Some(kind),
            None => match leaving_word(lexeme) {
                Some(kind) => Some(kind),
                None => match asking_word(lexeme) {
                    Some(kind) => Some(kind),
                    None => later_word(lexeme),
                },
            },
        },
    }
}

/// `fn`, `main` or `let`.
fn opening_word(lexeme: &[u8]) -> Option<Kind>
    ensures { result ≡ opening_word lexeme.now }
{
    if is(lexeme, b"fn") {
        Some(Kind::Fn)
    } else if is(lexeme, b"main") {
        Some(Kind::Main)
    } else if is(lexeme, b"let") {
        Some(Kind::Let)
    } else {
        None
    }
}

/// `if`, `else` or `while`.
fn choice_word(lexeme: &[u8]) -> Option<Kind>
    ensures { result ≡ choice_word lexeme.now }
{
    if is(lexeme, b"if") {
        Some(Kind::If)
    } else if is(lexeme, b"else") {
        Some(Kind::Else)
    } else if is(lexeme, b"while") {
        Some(Kind::While)
    } else {
        None
    }
}

/// `break`, `continue` or `return`.
fn leaving_word(lexeme: &[u8]) -> Option<Kind>
    ensures { result ≡ leaving_word lexeme.now }
{
    if is(lexeme, b"break") {
        Some(Kind::Break)
    } else if is(lexeme, b"continue") {
        Some(Kind::Continue)
    } else if is(lexeme, b"return") {
        Some(Kind::Return)
    } else {
        None
    }
}

/// `slot`, `width` or `call`.
fn asking_word(lexeme: &[u8]) -> Option<Kind>
    ensures { result ≡ asking_word lexeme.now }
{
    if is(lexeme, b"slot") {
        Some(Kind::Slot)
    } else if is(lexeme, b"width") {
        Some(Kind::Width)
    } else if is(lexeme, b"call") {
        Some(Kind::Call)
    } else {
        None
    }
}

/// `for`, `in` or `step`.
fn counting_word(lexeme: &[u8]) -> Option<Kind>
    ensures { result ≡ counting_word lexeme.now }
{
    if is(lexeme, b"for") {
        Some(Kind::For)
    } else if is(lexeme, b"in") {
        Some(Kind::In)
    } else if is(lexeme, b"step") {
        Some(Kind::Step)
    } else {
        None
    }
}

/// `const`, `param` or `inline`.
fn item_word(lexeme: &[u8]) -> Option<Kind>
    ensures { result ≡ item_word lexeme.now }
{
    if is(lexeme, b"const") {
        Some(Kind::Const)
    } else if is(lexeme, b"param") {
        Some(Kind::Param(None))
    } else if is(lexeme, b"inline") {
        Some(Kind::Inline)
    } else {
        None
    }
}

/// The word of a parallel loop.
fn gathering_word(lexeme: &[u8]) -> Option<Kind>
    ensures { result ≡ gathering_word lexeme.now }
{
    if is(lexeme, b"psum") {
        Some(Kind::Gathers(Gathers::Sum))
    } else if is(lexeme, b"pmin") {
        Some(Kind::Gathers(Gathers::Least))
    } else if is(lexeme, b"pmax") {
        Some(Kind::Gathers(Gathers::Greatest))
    } else {
        None
    }
}

/// `grain` or `give`.
fn giving_word(lexeme: &[u8]) -> Option<Kind>
    ensures { result ≡ giving_word lexeme.now }
{
    if is(lexeme, b"grain") {
        Some(Kind::Grain)
    } else if is(lexeme, b"give") {
        Some(Kind::Give)
    } else {
        None
    }
}

/// `spawn`, `wait` or `sync`.
fn waiting_word(lexeme: &[u8]) -> Option<Kind>
    ensures { result ≡ waiting_word lexeme.now }
{
    if is(lexeme, b"spawn") {
        Some(Kind::Spawn)
    } else if is(lexeme, b"wait") {
        Some(Kind::Wait)
    } else if is(lexeme, b"sync") {
        Some(Kind::Sync)
    } else {
        None
    }
}

/// `group` or `cancel`.
fn group_word(lexeme: &[u8]) -> Option<Kind>
    ensures { result ≡ group_word lexeme.now }
{
    if is(lexeme, b"group") {
        Some(Kind::Group)
    } else if is(lexeme, b"cancel") {
        Some(Kind::Cancel)
    } else {
        None
    }
}

/// `isolate` or `post`.
fn region_word(lexeme: &[u8]) -> Option<Kind>
    ensures { result ≡ region_word lexeme.now }
{
    if is(lexeme, b"isolate") {
        Some(Kind::Isolate)
    } else if is(lexeme, b"post") {
        Some(Kind::Post)
    } else {
        None
    }
}

/// `cell` or `cancelled`.
fn cell_word(lexeme: &[u8]) -> Option<Kind>
    ensures { result ≡ cell_word lexeme.now }
{
    if is(lexeme, b"cell") {
        Some(Kind::Cell)
    } else if is(lexeme, b"cancelled") {
        Some(Kind::Cancelled)
    } else {
        None
    }
}

/// A part of a cell.
fn part_word(lexeme: &[u8]) -> Option<Kind>
    ensures { result ≡ part_word lexeme.now }
{
    if is(lexeme, b".local") {
        Some(Kind::Part(Part::Local))
    } else if is(lexeme, b".sum") {
        Some(Kind::Part(Part::Sum))
    } else if is(lexeme, b".count") {
        Some(Kind::Part(Part::Count))
    } else {
        None
    }
}

/// A word of what tasks share, or of regions.
fn shared_word(lexeme: &[u8]) -> Option<Kind>
    ensures { result ≡ shared_word lexeme.now }
{
    match region_word(lexeme) {
        Some(kind) => Some(kind),
        None => match cell_word(lexeme) {
            Some(kind) => Some(kind),
            None => part_word(lexeme),
        },
    }
}

/// A word of tasks and their groups, or of what tasks share.
fn task_word(lexeme: &[u8]) -> Option<Kind>
    ensures { result ≡ task_word lexeme.now }
{
    match waiting_word(lexeme) {
        Some(kind) => Some(kind),
        None => match group_word(lexeme) {
            Some(kind) => Some(kind),
            None => shared_word(lexeme),
        },
    }
}

/// A word of parallel loops, of tasks and their groups, or of what tasks share.
fn parallel_word(lexeme: &[u8]) -> Option<Kind>
    ensures { result ≡ parallel_word lexeme.now }
{
    match gathering_word(lexeme) {
        Some(kind) => Some(kind),
        None => match giving_word(lexeme) {
            Some(kind) => Some(kind),
            None => task_word(lexeme),
        },
    }
}

/// A word of counting loops, of what stands above functions, or of what runs in parallel.
fn later_word(lexeme: &[u8]) -> Option<Kind>
    ensures { result ≡ later_word lexeme.now }
{
    match counting_word(lexeme) {
        Some(kind) => Some(kind),
        None => match item_word(lexeme) {
            Some(kind) => Some(kind),
            None => parallel_word(lexeme),
        },
    }
}
