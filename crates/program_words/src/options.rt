// Options as clap has them.
ghost use Rattle.std.specs.Prelude.{◌≡◌, Err, IfOk, map, option_map, false, true};
ghost use Rattle.clap.specs.Words.{app_of, first_of, found_of, is_simple, matches_of, rows_of, rule_of, takes};
ghost use Rattle.program_words.specs.Rules.{option_rule, required_rule};
ghost use Rattle.program_words.specs.declared.faults.WordsFault.{WordsFault};

use crate::faults::{WordsFault, fault_of};
use clap::{Arg, ArgAction, ArgMatches, Command};
use std::alloc::Global;

/// What a command makes of words.
pub(crate) fn matches_in<'a>(
    command: Command<'a>,
    words: &'a [&'a str],
) -> Result<ArgMatches<'a>, WordsFault>
    requires { is_simple (app_of command) ≡ true }
    ensures options { IfOk result
        (λ matches. rows_of (found_of matches)
        ≡ matches_of (app_of command.entry) (map (λ word. word.now) words.entry.now)) }
    ensures refused { result ≡ Err WordsFault.Words
        → takes (app_of command.entry) (map (λ word. word.now) words.entry.now) ≡ false }
{
    match command.try_get_matches_from(words) {
        Ok(matches) => Ok(matches),
        Err(error) => Err(fault_of(error.kind())),
    }
}

/// The value that an option was given.
pub(crate) fn value_of<'a>(matches: &ArgMatches<'a>, name: &str) -> Option<&'a str>
    ensures { option_map (λ value. value.now) result
        ≡ first_of name.now (rows_of (found_of matches.now)) }
{
    matches.get_str(name)
}

/// An option that takes a value.
pub(crate) fn option<'a>(alloc: Global, name: &'a str) -> Arg<'a>
    ensures rule { rule_of result ≡ option_rule name.entry.now }
    ensures global { result.global ≡ false }
{
    Arg::new(alloc, name).long(name).action(ArgAction::Set)
}

/// An option that must be there.
pub(crate) fn required<'a>(alloc: Global, name: &'a str) -> Arg<'a>
    ensures rule { rule_of result ≡ required_rule name.entry.now }
    ensures global { result.global ≡ false }
{
    option(alloc, name).required(true)
}
