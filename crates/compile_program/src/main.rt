//! `arena-compile`: reads a source on standard input, and writes the line of its job, its instructions as a listing, or
//! the line with which a tenant replies when it has executed that job.
#![tactic(auto)]

use arena_compile::{
    CompileError, CompileFault, args_in, fault_line, given_in, job_line, job_listing,
};
use job_language::{Fuel, MAX_FUEL};
use program_version::{asks_version, print_version};
use source_tokens::Given;
use source_value::{SourceError, lone_tenant, reply_line_of_source};
use std::env::Env;
use std::io::{ErrorKind, Read, Write};
use std::process::ExitCode;
use std::{env, io};

/// How long a source may be, in bytes.
const MAX_SOURCE: u64 = 65_536;

/// Why there is no line.
#[derive(Drop)]
enum Stop {
    /// The program was not called with words that it knows.
    Words,
    /// An allocation, the input or the output failed.
    Device,
    /// An allocation failed.
    Memory,
    /// The source is too long.
    Length,
    /// The source has no serial value.
    NotSerial,
    /// The source has a fault, which is this line.
    Fault(String),
}

fn main(rt: HostRuntime) -> ExitCode {
    match run(&rt) {
        Ok(()) => ExitCode::from(0),
        Err(stop) => told(&rt, stop),
    }
}

fn run<R: Env + Input + Print + AllocGlobal>(rt: &R) -> Result<(), Stop> {
    let words = words_of(rt)?;
    let texts = texts_of(rt, words.as_slice())?;
    if asks_version(texts.as_slice()) {
        return print_version(rt, "arena-compile").map_err(|_fault| Stop::Device);
    }
    match texts.as_slice().split_first() {
        Some((first, rest)) if *first == "--serial" => print_reply(rt, rest),
        Some((first, rest)) if *first == "--listing" => print_listing(rt, rest),
        _ => print_job(rt, texts.as_slice()),
    }
}

/// What the words say.
#[derive(Drop)]
struct Said<'a> {
    /// The numbers that params are given, each behind `-D`.
    givens: Vec<Given<'a>>,
    args: [i64; 2],
}

fn said_by<'a, R: AllocGlobal>(rt: &R, words: &[&'a str]) -> Result<Said<'a>, Stop> {
    let mut givens = Vec::new(rt.alloc());
    let mut numbers = Vec::new(rt.alloc());
    let mut gives = false;
    for word in words {
        if gives {
            let given = given_in(*word).ok_or(Stop::Words)?;
            givens.push(given).map_err(|_fault| Stop::Memory)?;
            gives = false;
        } else if *word == "-D" {
            gives = true;
        } else {
            numbers.push(*word).map_err(|_fault| Stop::Memory)?;
        }
    }
    if gives {
        return Err(Stop::Words);
    }
    let args = args_in(numbers.as_slice()).ok_or(Stop::Words)?;
    Ok(Said { givens, args })
}

/// Prints the job of the source on standard input, by what the words say.
fn print_job<R: Input + Print + AllocGlobal>(rt: &R, words: &[&str]) -> Result<(), Stop> {
    let Said { givens, args } = said_by(rt, words)?;
    let text = source_of(rt)?;
    match job_line(rt.alloc(), args, givens.as_slice(), text.as_slice()) {
        Ok(line) => rt.println(line.as_str()).map_err(|_fault| Stop::Device),
        Err(CompileError::Memory) => Err(Stop::Memory),
        Err(CompileError::Fault(fault)) => Err(faulty(
            rt,
            &fault,
            givens.as_slice(),
            text.as_slice(),
        )),
    }
}

/// Prints the instructions of that job, with the names of its procedures.
fn print_listing<R: Input + Print + AllocGlobal>(rt: &R, words: &[&str]) -> Result<(), Stop> {
    let Said { givens, args: _ } = said_by(rt, words)?;
    let text = source_of(rt)?;
    match job_listing(rt.alloc(), givens.as_slice(), text.as_slice()) {
        Ok(lines) => rt.print(lines.as_str()).map_err(|_fault| Stop::Device),
        Err(CompileError::Memory) => Err(Stop::Memory),
        Err(CompileError::Fault(fault)) => Err(faulty(
            rt,
            &fault,
            givens.as_slice(),
            text.as_slice(),
        )),
    }
}

/// Prints what a tenant of one slot replies when it has executed that job with all fuel.
fn print_reply<R: Input + Print + AllocGlobal>(rt: &R, words: &[&str]) -> Result<(), Stop> {
    let Said { givens, args } = said_by(rt, words)?;
    let [first, second] = args;
    let text = source_of(rt)?;
    let fuel = Fuel::new(MAX_FUEL).unwrap();
    match reply_line_of_source(
        rt.alloc(),
        lone_tenant(),
        first,
        second,
        fuel,
        givens.as_slice(),
        text.as_slice(),
    ) {
        Ok(line) => io::writer(rt)
            .write_all(line.line())
            .map_err(|_fault| Stop::Device),
        Err(SourceError::Memory) => Err(Stop::Memory),
        Err(SourceError::NotSerial) => Err(Stop::NotSerial),
        Err(SourceError::Fault(fault)) => Err(faulty(
            rt,
            &fault,
            givens.as_slice(),
            text.as_slice(),
        )),
    }
}

/// That there is no line since the source has that fault.
fn faulty<R: AllocGlobal>(rt: &R, fault: &CompileFault, givens: &[Given], text: &[u8]) -> Stop {
    match fault_line(rt.alloc(), fault, givens, text) {
        Ok(line) => Stop::Fault(line),
        Err(_) => Stop::Memory,
    }
}

/// The words that the program was called with, after its name.
fn words_of<R: Env + AllocGlobal>(rt: &R) -> Result<Vec<String>, Stop> {
    match words_in(rt) {
        Ok(words) => Ok(words),
        Err(fault) => match fault.kind() {
            // A word that is no text.
            ErrorKind::InvalidData => Err(Stop::Words),
            _ => Err(Stop::Device),
        },
    }
}

fn words_in<R: Env + AllocGlobal>(rt: &R) -> io::Result<Vec<String>> {
    let mut words = Vec::new(rt.alloc());
    for word in env::args(rt)?.skip(1) {
        words.push(word)?;
    }
    Ok(words)
}

/// The words as texts.
fn texts_of<'a, R: AllocGlobal>(rt: &R, words: &'a [String]) -> Result<Vec<&'a str>, Stop> {
    let mut texts = Vec::new(rt.alloc());
    for word in words {
        if texts.push(word.as_str()).is_err() {
            return Err(Stop::Device);
        }
    }
    Ok(texts)
}

/// The source on standard input.
fn source_of<R: Input + AllocGlobal>(rt: &R) -> Result<Vec<u8>, Stop> {
    let mut text = Vec::new(rt.alloc());
    match rt.reader().take(MAX_SOURCE + 1).read_to_end(&mut text) {
        Ok(_) => {
            if text.len() as u64 > MAX_SOURCE {
                Err(Stop::Length)
            } else {
                Ok(text)
            }
        }
        Err(_) => Err(Stop::Device),
    }
}

impl Stop {
    /// The status that the program ends with.
    fn status(&self) -> u8 {
        match self {
            Stop::Length | Stop::NotSerial | Stop::Fault(_) => 1,
            Stop::Words => 2,
            Stop::Device | Stop::Memory => 3,
        }
    }
}

/// Says on standard error why there is no line.
fn say<R: Eprint>(rt: &R, stop: &Stop) -> io::Result<()> {
    match stop {
        Stop::Words => rt.eprintln("arena-compile: words"),
        Stop::Device => rt.eprintln("arena-compile: device"),
        Stop::Memory => rt.eprintln("arena-compile: memory"),
        Stop::Length => rt.eprintln("1:1: the source has more than 65536 bytes"),
        Stop::NotSerial => {
            rt.eprintln("1:1: the value may depend on the slot, the width, cells or the schedule")
        }
        Stop::Fault(line) => rt.eprintln(line.as_str()),
    }
}

/// Tells why there is no line. The status tells it even if standard error takes nothing.
fn told<R: Eprint>(rt: &R, stop: Stop) -> ExitCode {
    match say(rt, &stop) {
        Ok(()) | Err(_) => ExitCode::from(stop.status()),
    }
}
