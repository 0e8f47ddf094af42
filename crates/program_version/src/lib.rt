//! The version of the programs, and the word that asks for it.
#![tactic(auto)]

ghost use Rattle.std.specs.Prelude.{◌≡◌, map};
ghost use Rattle.program_version.specs.Words.{is_version_word};

use std::io;

/// The version of all that is released together: the programs, the Python package and the Debian package.
pub const VERSION: &str = "0.9.0";

/// Whether the words that follow a program's name are `--version` alone.
pub fn asks_version(words: &[&str]) -> bool
    ensures { result ≡ is_version_word (map (λ word. word.now) words.now) }
{
    match words {
        [word] => *word == "--version",
        _ => false,
    }
}

/// Prints a program's name and version on a line.
pub fn print_version<R: Print>(rt: &R, program: &str) -> io::Result<()> {
    println!(rt; "{program} {VERSION}")
}
