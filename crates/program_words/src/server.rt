// The words that the server is called with, as clap reads them.
ghost use Rattle.std.specs.Prelude.{◌≡◌, IfOk, MatchOption, map, Err, false};
ghost use Rattle.clap.specs.Words.{found_of, rows_of, takes};
ghost use Rattle.program_words.specs.ServerOptions.{server_app, options_in, AreRead, AreRefused, LackValues, NamesCount, NamesNoCount, IsServerCommand};
ghost use Rattle.program_words.specs.declared.faults.WordsFault.{WordsFault};

use crate::faults::WordsFault;
use crate::options::{matches_in, option, required, value_of};
use clap::{ArgMatches, Command};
use std::alloc::{AllocError, Global};

/// How many connections a server may serve; it serves at least one.
pub const MAX_CONNECTIONS: u8 = 64;

const _: () = prove!(MAX_CONNECTIONS == 64);

/// What the server is called with.
#[derive(Clone, Copy, Debug, PartialEq, Eq)]
pub struct ServerWords<'a> {
    /// The path of the configuration.
    pub config: &'a str,
    /// The path of the socket to bind.
    pub socket: &'a str,
    /// How many connections are served, from 1 to 64.
    pub connections: u8,
    /// The folder that the histories are written to.
    pub dump: Option<&'a str>,
}

/// Reads the words of a command line, the program's name first:
/// `arena-server --config F --socket P --connections N [--dump D]`, in any order, also as
/// `--config=F`.
pub fn read_server_words<'a>(
    alloc: Global,
    words: &'a [&'a str],
) -> Result<ServerWords<'a>, WordsFault>
    ensures read { IfOk result
        (λ read. AreRead (options_in (map (λ word. word.now) words.entry.now)) read) }
    ensures refused { result ≡ Err WordsFault.Words
        → AreRefused (map (λ word. word.now) words.entry.now) }
{
    let matches = matches_in(command(alloc)?, words)?;
    values_of(&matches).ok_or(WordsFault::Words)
}

/// The values that the options must have, and may.
fn values_of<'a>(matches: &ArgMatches<'a>) -> Option<ServerWords<'a>>
    ensures { MatchOption result (LackValues (rows_of (found_of matches.now)))
        (AreRead (rows_of (found_of matches.now))) }
{
    let config = value_of(matches, "config")?;
    let socket = value_of(matches, "socket")?;
    let connections = connections_in(value_of(matches, "connections")?)?;
    Some(ServerWords {
        config,
        socket,
        connections,
        dump: value_of(matches, "dump"),
    })
}

/// The number of connections that a text names.
fn connections_in(text: &str) -> Option<u8>
    ensures { MatchOption result (NamesNoCount text.now) (NamesCount text.now) }
{
    match text.parse::<u8>() {
        Ok(count) if 1 <= count && count <= MAX_CONNECTIONS => Some(count),
        _ => None,
    }
}

/// The server's command.
fn command<'a>(alloc: Global) -> Result<Command<'a>, AllocError>
    ensures { IfOk result (λ command. IsServerCommand command) }
{
    Command::new(alloc, "arena-server")
        .arg(required(alloc, "config"))?
        .arg(required(alloc, "socket"))?
        .arg(required(alloc, "connections"))?
        .arg(option(alloc, "dump"))
}
