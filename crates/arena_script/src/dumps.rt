// The lines of a dump: a tenant, and the entries of its history.
ghost use Rattle.std.specs.Prelude.{◌≡◌, ◌<◌, ◌^◌, [], unwrap_or, IsSome, IfOk, IfErr, OnOk};
ghost use Rattle.request_reader.specs.Calls.{AreCalls};
ghost use Rattle.request_reader.specs.declared.turns.TheConstants.{MAX_TURNS};
ghost use Rattle.request_reader.specs.Reading.{lines_left, work_left};
ghost use Rattle.arena_script.specs.Faults.{HasCause, IsLost};
ghost use Rattle.arena_script.specs.DumpReads.{with_said, read_on, dump_read, came_to, after_first, IsVerdictHeld};
ghost use Rattle.arena_script.specs.ScriptLines.{lines_in};

use crate::devices::next_line;
use crate::ends::ScriptEnd;
use crate::inputs::{Input, MAX_SCRIPT_LINE};
use arena_check::check;
use dump_lines::{Said, said_by, tenant_of};
use job_language::{Entry, TenantConfig};
use request_reader::{LineReader, Source};
use solo_eval::Verdict;
use std::alloc::{AllocError, Global};
use std::marker::Model;

/// A tenant, and what a dump says of its history.
pub(crate) struct Dump {
    config: TenantConfig,
    /// The entries before the first that is foreign.
    entries: Vec<Entry>,
    has_foreign: bool,
}

impl Drop for Dump {
    // An owner drops it in one call, not part by part at each of its ways out.
    fn drop(self) {
        let Dump {
            config: _config,
            entries: _entries,
            has_foreign: _has_foreign,
        } = self;
    }
}

impl Model for Dump {
    ghost use Rattle.arena_script.specs.DumpHeld.{DumpHeld};

    ghost Value = { DumpHeld };

    ghost view = { λ d. record {
      config = d.config;
      entries = d.entries.items;
      has_foreign = d.has_foreign;
    } };
}

/// What reading a dump came to.
#[derive(Drop)]
pub(crate) enum DumpRead {
    Whole(Dump),
    /// The line of that number, from 1, is the first that is none of a dump's.
    BadLine(u64),
}

/// Reads a dump to its end, or to its first bad line.
pub(crate) fn read_dump<R: Source>(alloc: Global, reader: &mut R) -> Result<DumpRead, ScriptEnd>
    ensures read { IfOk result (λ read. IsSome (R.remaining reader.old)
        → dump_read (lines_in (R.remaining reader.old)) ≡ came_to read) }
    ensures lost { IfErr result IsLost }
    ensures cause { IfErr result (HasCause (R.failed reader.new)
        (AreCalls R.called MAX_TURNS 0 reader.old reader.new) ⊥) }
{
    let mut lines = LineReader::new(alloc, MAX_SCRIPT_LINE)?;
    match read_first(alloc, &mut lines, reader)? {
        Some(dump) => read_on(alloc, dump, lines, reader),
        None => Ok(DumpRead::BadLine(1)),
    }
}

/// A dump with no entry yet, of the tenant that the first line names.
fn read_first<R: Source>(
    alloc: Global,
    lines: &mut LineReader,
    reader: &mut R,
) -> Result<Option<Dump>, ScriptEnd>
    ensures first { IfOk result (λ first. IsSome (R.remaining reader.old)
        → dump_read (lines_left lines.old (unwrap_or (R.remaining reader.old) []))
        ≡ after_first first (lines_left lines.new (unwrap_or (R.remaining reader.new) []))) }
    ensures known { IsSome (R.remaining reader.old) → IsSome (R.remaining reader.new) }
    ensures work { IfOk result (λ first. IsSome first → work_left lines.new < work_left lines.old) }
    ensures lost { IfErr result IsLost }
    ensures calls { AreCalls R.called lines.old.turns lines.new.turns reader.old reader.new }
    ensures cause { IfErr result (HasCause (R.failed reader.new) (lines.new.turns ≡ 0) ⊥) }
{
    if next_line(lines, reader)? != Input::Line {
        return Ok(None);
    }
    match tenant_of(alloc, lines.line())? {
        Some(config) => Ok(Some(Dump {
            config,
            entries: Vec::new(alloc),
            has_foreign: false,
        })),
        None => Ok(None),
    }
}

/// Reads the lines after the first.
fn read_on<R: Source>(
    alloc: Global,
    mut dump: Dump,
    mut lines: LineReader,
    reader: &mut R,
) -> Result<DumpRead, ScriptEnd>
    requires { work_left lines < 2 ^ 63 }
    ensures read { IfOk result (λ read. IsSome (R.remaining reader.old)
        → read_on (lines_left lines (unwrap_or (R.remaining reader.old) [])) 2 dump
        ≡ came_to read) }
    ensures lost { IfErr result IsLost }
    ensures cause { IfErr result (HasCause (R.failed reader.new)
        (AreCalls R.called lines.turns 0 reader.old reader.new) ⊥) }
{
    let mut number = 2;
    loop {
        match next_line(&mut lines, reader)? {
            Input::Line => match said_by(alloc, lines.line())? {
                Some(said) => dump.add(said)?,
                None => return Ok(DumpRead::BadLine(number)),
            },
            Input::TooLong => return Ok(DumpRead::BadLine(number)),
            Input::End => return Ok(DumpRead::Whole(dump)),
        }
        number += 1;
    }
}

impl Dump {
    /// Adds what the next line says.
    fn add(&mut self, said: Said) -> Result<(), AllocError>
        ensures { OnOk result (self.new ≡ with_said self.old said) }
    {
        match said {
            Said::Foreign => self.has_foreign = true,
            Said::Entry(entry) => {
                if !self.has_foreign {
                    self.entries.push(entry)?;
                }
            }
        }
        Ok(())
    }

    /// The verdict on its history, in which a foreign entry is never right.
    pub(crate) fn verdict(&self, alloc: Global) -> Result<Verdict, AllocError>
        ensures { IfOk result (λ verdict. IsVerdictHeld self.now verdict) }
    {
        let verdict = check(alloc, self.config, self.entries.as_slice())?;
        if !self.has_foreign {
            return Ok(verdict);
        }
        match verdict {
            Verdict::Yes => Ok(Verdict::No(self.entries.len() as u64 + 1)),
            Verdict::No(number) => Ok(Verdict::No(number)),
        }
    }
}
