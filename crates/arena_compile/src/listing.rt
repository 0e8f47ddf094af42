// The instructions of a job, as a person reads them.
ghost use Rattle.std.specs.Prelude.{IfErr, map};
ghost use Rattle.source_tokens.specs.Givens.{view_given};
ghost use Rattle.arena_compile.specs.Jobs.{IsErrorOf};

use crate::errors::CompileError;
use crate::heads::{Head, heads_in};
use crate::instructions::text_of;
use crate::jobs::job_of;
use job_language::{Instr, Proc, Program};
use source_tokens::Given;
use std::alloc::{AllocError, Global};

/// The procedures of a source as the assembler reads them: each with its name and its parameters, its instructions with
/// their numbers, and labels where they jump to. Its params have the numbers that they are given.
pub fn job_listing(alloc: Global, givens: &[Given], text: &[u8]) -> Result<String, CompileError>
    ensures refused { IfErr result (IsErrorOf (map view_given givens.now) text.now) }
{
    let job = job_of(alloc, [0, 0], givens, text)?;
    match program_lines(alloc, &job.program, text) {
        Ok(lines) => Ok(lines),
        Err(_) => Err(CompileError::Memory),
    }
}

fn program_lines(alloc: Global, program: &Program, text: &[u8]) -> Result<String, AllocError> {
    let heads = heads_in(alloc, text)?;
    let mut names = Vec::new(alloc);
    for head in heads.iter() {
        names.push(head.name.as_str())?;
    }
    let mut lines = String::new(alloc);
    lines.push_str(if program.is_serial() {
        "; a serial job\n"
    } else {
        "; not a serial job\n"
    })?;
    for (number, proc) in program.procs().iter().enumerate() {
        if let Some(head) = heads.get(number) {
            add_head(alloc, &mut lines, number, head)?;
        }
        add_instrs(alloc, &mut lines, proc, names.as_slice())?;
    }
    Ok(lines)
}

fn add_head(
    alloc: Global,
    lines: &mut String,
    number: usize,
    head: &Head,
) -> Result<(), AllocError> {
    let first = format!(in alloc; "\nproc {}    ; {number}\n", head.name)?;
    lines.push_str(first.as_str())?;
    for called in head.numbers.iter() {
        let line = format!(in alloc; "        ; {called}\n")?;
        lines.push_str(line.as_str())?;
    }
    Ok(())
}

fn add_instrs(
    alloc: Global,
    lines: &mut String,
    proc: &Proc,
    names: &[&str],
) -> Result<(), AllocError> {
    for (place, instr) in proc.instrs().iter().enumerate() {
        if is_target(proc, place) {
            let label = format!(in alloc; "L{place}:\n")?;
            lines.push_str(label.as_str())?;
        }
        let words = text_of(alloc, instr, names)?;
        let line = format!(in alloc; "        {words:32}; {place}\n")?;
        lines.push_str(line.as_str())?;
    }
    Ok(())
}

/// Whether an instruction of the procedure jumps to that one.
fn is_target(proc: &Proc, place: usize) -> bool {
    for instr in proc.instrs() {
        if target_of(instr) == Some(place) {
            return true;
        }
    }
    false
}

fn target_of(instr: &Instr) -> Option<usize> {
    match *instr {
        Instr::Jz(_, target) => Some(usize::from(target)),
        Instr::Jmp(target) => Some(usize::from(target)),
        _ => None,
    }
}
