ghost use Rattle.std.specs.Prelude.{◌≡◌};
ghost use Rattle.npd_words.specs.Rows.{command_among, command_of};
ghost use Rattle.npd_words.specs.Spelled.{command_text};

/// What the program is asked to do.
#[derive(Clone, Copy)]
pub enum Command {
    /// Decode a capture by a database.
    Decode,
    /// Check a database.
    Check,
    /// Decode a capture that is made for it.
    Gen,
}

/// All commands.
pub const COMMANDS: [Command; 3] = [Command::Decode, Command::Check, Command::Gen];

impl Command {
    /// The command as it is written.
    #[tactic(auto, unfolding(crate::specs::Spelled::command_text))]
    pub fn spelled(self) -> &'static str
        ensures { result.now ≡ command_text self }
    {
        match self {
            Command::Decode => "decode",
            Command::Check => "check",
            Command::Gen => "gen",
        }
    }
}

fn command_among(commands: &[Command], word: &str) -> Option<Command>
    ensures { result ≡ command_among commands.now word.now }
{
    for command in commands {
        if word == command.spelled() {
            return Some(*command);
        }
    }
    None
}

/// The command that is written so.
pub fn command_of(word: &str) -> Option<Command>
    ensures { result ≡ command_of word.now }
{
    command_among(&COMMANDS, word)
}
