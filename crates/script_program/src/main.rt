//! `arena-script`: answers a script of steps on standard input, line by line.
#![tactic(auto)]

use arena_script::{ScriptEnd, script};
use program_version::{asks_version, print_version};
use std::env::Env;
use std::io::ErrorKind;
use std::process::ExitCode;
use std::{env, io};

fn main(rt: HostRuntime) -> ExitCode {
    let end = match words_of(&rt) {
        Ok(words) => answered(&rt, words.as_slice()),
        Err(fault) => match fault.kind() {
            // A word that is no text.
            ErrorKind::InvalidData => ScriptEnd::Words,
            _ => ScriptEnd::Memory,
        },
    };
    if let Some(fault) = end.fault() {
        // The status tells of the fault even if standard error takes nothing.
        let _ = rt.eprintln(fault);
    }
    ExitCode::from(end.status())
}

/// The words that the program was called with, after its name.
fn words_of<R: Env + AllocGlobal>(rt: &R) -> io::Result<Vec<String>> {
    let mut words = Vec::new(rt.alloc());
    for word in env::args(rt)?.skip(1) {
        words.push(word)?;
    }
    Ok(words)
}

fn answered<R: Input + Print + AllocGlobal>(rt: &R, words: &[String]) -> ScriptEnd {
    let mut texts = Vec::new(rt.alloc());
    for word in words {
        if texts.push(word.as_str()).is_err() {
            return ScriptEnd::Memory;
        }
    }
    if asks_version(texts.as_slice()) {
        return match print_version(rt, "arena-script") {
            Ok(()) => ScriptEnd::Done,
            Err(_) => ScriptEnd::Device,
        };
    }
    script(
        rt.alloc(),
        texts.as_slice(),
        &mut rt.reader(),
        &mut io::writer(rt),
    )
}
