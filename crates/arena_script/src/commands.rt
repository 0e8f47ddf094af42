// What a script is, by the words that the program is called with.
ghost use Rattle.std.specs.Prelude.{◌≡◌};
ghost use Rattle.arena_script.specs.Commands.{command_of};

/// What a script is.
#[derive(Clone, Copy, Debug, PartialEq, Eq)]
pub enum Command {
    /// The first line is a tenant, and the others are its steps.
    Own,
    /// The first line is a configuration, and the others are the steps of its world.
    Run,
    /// The lines are a dump, whose verdict is asked.
    Check,
    /// The lines are a dump, whose end may be missing, to be finished.
    Finish,
    /// Each line is a job, whose serial value is asked.
    Serial,
}

impl Command {
    /// The command that words ask for; none for any other words. No word at all asks for `Own`.
    pub fn of(words: &[&str]) -> Option<Command>
        ensures { result ≡ command_of words.now }
    {
        match words {
            [] | ["own"] => Some(Command::Own),
            ["run"] => Some(Command::Run),
            ["check"] => Some(Command::Check),
            ["finish"] => Some(Command::Finish),
            ["serial"] => Some(Command::Serial),
            _ => None,
        }
    }
}
