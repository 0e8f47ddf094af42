// The words that the host is called with, as clap reads them.
ghost use Rattle.std.specs.Prelude.{◌≡◌, ◌≤◌, IfOk, MatchOption, map, option_map, Err, false};
ghost use Rattle.clap.specs.Words.{found_of, rows_of, app_of, takes};
ghost use Rattle.program_words.specs.Numbers.{IsMisgiven};
ghost use Rattle.program_words.specs.HostOptions.{host_app, needed_app, serving_app, limiting_app, options_in, group_range, AreRead, AreRefused, LackValues, IsGivenOption, IsHostCommand};
ghost use Rattle.program_words.specs.declared.faults.WordsFault.{WordsFault};

use crate::durable::{Durable, durable_in};
use crate::faults::WordsFault;
use crate::numbers::Range;
use crate::options::{matches_in, option, required, value_of};
use clap::{ArgMatches, Command};
use std::alloc::{AllocError, Global};

/// What the host is called with.
#[derive(Clone, Copy, Debug, PartialEq, Eq)]
pub struct HostWords<'a> {
    /// The path of the configuration.
    pub config: &'a str,
    /// The folder in which the host works.
    pub run: &'a str,
    /// How many connections are served at a time, from 1 to 64.
    pub connections: u32,
    /// How many of them may be bound to one tenant, from 1 to 64.
    pub tenant_connections: u32,
    /// At how many per cent of its steps a history ends a term, from 1 to 100.
    pub rotate_at: u32,
    /// How many dumps of each tenant are kept, from 1 to 999,999.
    pub keep: u32,
    /// How many seconds jobs have to end once the host is to stop, up to 86,400.
    pub finish: u32,
    /// How many seconds a connection has until its hello is answered, up to 86,400; 0 for any time.
    pub hello_seconds: u32,
    /// How many seconds a connection may ask nothing after that, up to 86,400; 0 for any time.
    pub idle_seconds: u32,
    /// How far what a client was told outlives the host.
    pub durable: Durable,
    /// The mode of the socket, up to 0o777.
    pub mode: u32,
    /// The group of the socket, if it is not the process' own.
    pub group: Option<u32>,
}

/// Reads the words of a command line, the program's name first: `arena-host --config F --run D [--connections N]
/// [--tenant-connections N] [--rotate-at P] [--keep K] [--finish S] [--hello-seconds S] [--idle-seconds S]
/// [--durable off|write|second|reply] [--mode M] [--group G]`, in any order, also as `--config=F`. M is in octal
/// digits, all other numbers are in decimal ones.
pub fn read_host_words<'a>(alloc: Global, words: &'a [&'a str]) -> Result<HostWords<'a>, WordsFault>
    ensures read { IfOk result
        (λ read. AreRead (options_in (map (λ word. word.now) words.entry.now)) read) }
    ensures refused { result ≡ Err WordsFault.Words
        → AreRefused (map (λ word. word.now) words.entry.now) }
{
    let matches = matches_in(command(alloc)?, words)?;
    values_of(&matches).ok_or(WordsFault::Words)
}

/// The values that the options must have, and may.
fn values_of<'a>(matches: &ArgMatches<'a>) -> Option<HostWords<'a>>
    ensures { MatchOption result (LackValues (rows_of (found_of matches.now)))
        (AreRead (rows_of (found_of matches.now))) }
{
    let config = value_of(matches, "config")?;
    let run = value_of(matches, "run")?;
    let connections = Range::decimal(1, 64).given_or(value_of(matches, "connections"), 64)?;
    let tenant_connections = Range::decimal(1, 64).given_or(
        value_of(matches, "tenant-connections"),
        64,
    )?;
    let rotate_at = Range::decimal(1, 100).given_or(value_of(matches, "rotate-at"), 50)?;
    let keep = Range::decimal(1, 999_999).given_or(value_of(matches, "keep"), 8)?;
    let finish = Range::decimal(0, 86_400).given_or(value_of(matches, "finish"), 10)?;
    let hello_seconds = Range::decimal(0, 86_400).given_or(value_of(matches, "hello-seconds"), 60)?;
    let idle_seconds = Range::decimal(0, 86_400).given_or(value_of(matches, "idle-seconds"), 0)?;
    let durable = durable_in(value_of(matches, "durable"))?;
    let mode = octal().given_or(value_of(matches, "mode"), 0o600)?;
    let group = group_in(value_of(matches, "group"))?;
    Some(HostWords {
        config,
        run,
        connections,
        tenant_connections,
        rotate_at,
        keep,
        finish,
        hello_seconds,
        idle_seconds,
        durable,
        mode,
        group,
    })
}

/// The modes of a file.
fn octal() -> Range
    ensures { result ≡ record { radix = 8; least = 0; most = 511 } }
{
    Range {
        radix: 8,
        least: 0,
        most: 0o777,
    }
}

/// The number of a group, if the option was given one. None if it was given a text that names no group.
fn group_in(value: Option<&str>) -> Option<Option<u32>>
    ensures { MatchOption result
        (IsMisgiven group_range (option_map (λ text. text.now) value.entry))
        (IsGivenOption group_range (option_map (λ text. text.now) value.entry)) }
{
    let Some(text) = value else {
        return Some(None);
    };
    let group = Range::decimal(0, 4_294_967_294).number_in(text)?;
    Some(Some(group))
}

/// The host's command.
fn command<'a>(alloc: Global) -> Result<Command<'a>, AllocError>
    ensures { IfOk result (λ command. IsHostCommand command) }
{
    limiting(alloc)?
        .arg(option(alloc, "durable"))?
        .arg(option(alloc, "mode"))?
        .arg(option(alloc, "group"))
}

/// What it must be called with.
fn needed<'a>(alloc: Global) -> Result<Command<'a>, AllocError>
    ensures { IfOk result (λ command. app_of command ≡ needed_app) }
{
    Command::new(alloc, "arena-host")
        .arg(required(alloc, "config"))?
        .arg(required(alloc, "run"))
}

/// The same with how it serves.
fn serving<'a>(alloc: Global, needed: Command<'a>) -> Result<Command<'a>, AllocError>
    requires { app_of needed ≡ needed_app }
    ensures { IfOk result (λ command. app_of command ≡ serving_app) }
{
    needed
        .arg(option(alloc, "connections"))?
        .arg(option(alloc, "rotate-at"))?
        .arg(option(alloc, "keep"))?
        .arg(option(alloc, "finish"))
}

/// The same with how long connections may do nothing, and how many a tenant may have.
fn limiting<'a>(alloc: Global) -> Result<Command<'a>, AllocError>
    ensures { IfOk result (λ command. app_of command ≡ limiting_app) }
{
    serving(alloc, needed(alloc)?)?
        .arg(option(alloc, "hello-seconds"))?
        .arg(option(alloc, "idle-seconds"))?
        .arg(option(alloc, "tenant-connections"))
}
