// The words that the program is called with.
use source_tokens::Given;
use std::alloc::{AllocError, Global};

/// The arguments of a job: as many numbers as there are words, at most two, and 0 for those that are left out.
pub fn args_in(words: &[&str]) -> Option<[i64; 2]> {
    match words {
        [] => Some([0, 0]),
        [first] => Some([first.parse::<i64>().ok()?, 0]),
        [first, second] => Some([first.parse::<i64>().ok()?, second.parse::<i64>().ok()?]),
        _ => None,
    }
}

/// What `NAME=NUMBER` gives to a `param`.
pub fn given_in(word: &str) -> Option<Given<'_>> {
    let (name, number) = word.split_once('=')?;
    if name.is_empty() {
        return None;
    }
    Some(Given {
        name: name.as_bytes(),
        number: number.parse::<i64>().ok()?,
    })
}
