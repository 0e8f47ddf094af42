// What a source calls its functions, and the numbers that they are given.
use crate::messages::word_at;
use source_tokens::{Kind, Token, tokens_in};
use std::alloc::{AllocError, Global};

/// The name of a function, and for each of its two numbers, or for both of them, what the source calls it.
#[derive(Drop)]
pub(crate) struct Head {
    pub(crate) name: String,
    pub(crate) numbers: Vec<String>,
}

/// The functions of a source, and behind them those of its parallel loops, which are called by the function around each.
pub(crate) fn heads_in(alloc: Global, text: &[u8]) -> Result<Vec<Head>, AllocError> {
    let tokens = tokens_in(alloc, text)?;
    let mut heads = Vec::new(alloc);
    let mut loops = Vec::new(alloc);
    let mut loops_of_function = 0usize;
    let mut behind_inline = false;
    for (at, token) in tokens.iter().enumerate() {
        match token.kind {
            Kind::Fn => {
                if !behind_inline {
                    heads.push(head_of(alloc, tokens.as_slice(), at, text)?)?;
                    loops_of_function = 0;
                }
            }
            Kind::Gathers(_) => {
                loops_of_function = loops_of_function.saturating_add(1);
                let name = loop_name(alloc, heads.last(), loops_of_function)?;
                loops.push(head_of_loop(alloc, name, tokens.as_slice(), at, text)?)?;
            }
            _ => {}
        }
        behind_inline = matches!(token.kind, Kind::Inline);
    }
    for head in loops {
        heads.push(head)?;
    }
    Ok(heads)
}

/// The function whose `fn` is that token.
fn head_of(alloc: Global, tokens: &[Token], at: usize, text: &[u8]) -> Result<Head, AllocError> {
    let name = word_behind(alloc, tokens, at, text)?;
    let mut parameters = String::new(alloc);
    let mut has_widths = false;
    let mut numbers = Vec::new(alloc);
    for token in tokens.iter().skip(at).skip(3) {
        match token.kind {
            Kind::Close => break,
            Kind::Comma => parameters.push_str(", ")?,
            Kind::Colon => {
                has_widths = true;
                parameters.push_str(": ")?;
            }
            _ => {
                let word = word_at(alloc, text, token.at)?;
                parameters.push_str(word.as_str())?;
                numbers.push(format!(in alloc; "r{}: {word}", numbers.len())?)?;
            }
        }
    }
    if has_widths {
        numbers = vec![in alloc; format!(in alloc; "r0 and r1: {parameters}")?]?;
    }
    Ok(Head { name, numbers })
}

/// The function of the parallel loop whose word is that token.
fn head_of_loop(
    alloc: Global,
    name: String,
    tokens: &[Token],
    at: usize,
    text: &[u8],
) -> Result<Head, AllocError> {
    let index = word_behind(alloc, tokens, at, text)?;
    let numbers = vec![in alloc;
        format!(in alloc; "r0: {index}")?,
        format!(in alloc; "r1: (end of {index})")?,
    ]?;
    Ok(Head { name, numbers })
}

/// What the parallel loop of that number is called, of those of a function.
fn loop_name(alloc: Global, around: Option<&Head>, number: usize) -> Result<String, AllocError> {
    match around {
        Some(head) => format!(in alloc; "{}.sum{number}", head.name),
        None => format!(in alloc; "sum{number}"),
    }
}

/// The word behind that token.
fn word_behind(
    alloc: Global,
    tokens: &[Token],
    at: usize,
    text: &[u8],
) -> Result<String, AllocError> {
    match tokens.iter().skip(at).nth(1) {
        Some(token) => word_at(alloc, text, token.at),
        None => Ok(String::new(alloc)),
    }
}
