// What is said of a source that makes no job.
use crate::errors::{CompileFault, CrowdedFunction};
use job_language::REGISTERS;
use source_reader::{NamedVariable, function_title, named_variables};
use source_tokens::Given;
use std::alloc::{AllocError, Global};

/// The fault of a source behind its place, `line:column: fault`. Of a function that needs more registers than there are
/// it says what is alive where there are too few.
pub fn fault_line(
    alloc: Global,
    fault: &CompileFault,
    givens: &[Given],
    text: &[u8],
) -> Result<String, AllocError> {
    let place = fault.place();
    match fault {
        CompileFault::Crowded(function) => {
            let title = title_of(alloc, text, function.number)?;
            let alive = alive_in(alloc, function, givens, text)?;
            format!(in alloc;
                "{}:{}: {title} needs more than {REGISTERS} registers, and there is no memory to put one into; at \
                 once alive are {alive}: let another fn do a part, or compute a value where it is needed",
                place.line, place.column
            )
        }
        _ => format!(in alloc; "{}:{}: {}", place.line, place.column, fault.words()),
    }
}

/// What a function is called: its name, or by the word of its parallel loop.
pub(crate) fn title_of(alloc: Global, text: &[u8], number: usize) -> Result<String, AllocError> {
    let word = word_at(alloc, text, function_title(alloc, text, number)?)?;
    match word.as_str() {
        "psum" | "pmin" | "pmax" => format!(in alloc; "this {word}"),
        _ => Ok(word),
    }
}

/// The word that begins there.
pub(crate) fn word_at(alloc: Global, text: &[u8], at: usize) -> Result<String, AllocError> {
    let mut word = String::new(alloc);
    for byte in text.iter().skip(at) {
        if !byte.is_ascii_alphanumeric() && *byte != b'_' {
            break;
        }
        word.push(char::from(*byte))?;
    }
    Ok(word)
}

/// The variables that are alive where a function has too few registers, by their names, and how many other values are.
fn alive_in(
    alloc: Global,
    function: &CrowdedFunction,
    givens: &[Given],
    text: &[u8],
) -> Result<String, AllocError> {
    let variables = named_variables(alloc, givens, text)?;
    let mut alive = Vec::new(alloc);
    let mut others = 0usize;
    for (number, is_live) in function.crowd.live.iter().enumerate() {
        if *is_live {
            let names = names_of(alloc, variables.as_slice(), function.number, number, text)?;
            if names.is_empty() {
                others = others.saturating_add(1);
            } else {
                alive.push(joined(alloc, names.as_slice(), " or ")?)?;
            }
        }
    }
    match others {
        0 => {}
        1 => alive.push(String::from_str(alloc, "1 other value")?)?,
        _ => alive.push(format!(in alloc; "{others} other values")?)?,
    }
    joined(alloc, alive.as_slice(), " and ")
}

/// The names that stand for a variable of a function, of which one is in each block.
fn names_of(
    alloc: Global,
    variables: &[NamedVariable],
    function: usize,
    number: usize,
    text: &[u8],
) -> Result<Vec<String>, AllocError> {
    let mut names: Vec<String> = Vec::new(alloc);
    for named in variables {
        if usize::from(named.function) == function && usize::from(named.variable) == number {
            let name = name_of(alloc, named, text)?;
            if !names.contains(&name) {
                names.push(name)?;
            }
        }
    }
    Ok(names)
}

fn name_of(alloc: Global, named: &NamedVariable, text: &[u8]) -> Result<String, AllocError> {
    let word = word_at(alloc, text, named.at)?;
    if named.is_end {
        format!(in alloc; "the end of {word}")
    } else {
        Ok(word)
    }
}

/// Words with commas between them, and that word before the last one.
fn joined(alloc: Global, words: &[String], last: &str) -> Result<String, AllocError> {
    let mut all = String::new(alloc);
    for (number, word) in words.iter().enumerate() {
        if number > 0 {
            all.push_str(if number + 1 < words.len() { ", " } else { last })?;
        }
        all.push_str(word.as_str())?;
    }
    Ok(all)
}
