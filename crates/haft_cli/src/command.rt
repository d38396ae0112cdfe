//! The command line, and which files a command reads.
ghost use Rattle.std.specs.Prelude.{◌≡◌, map, string_bytes};
ghost use Rattle.haft_cli.specs.Command.{command_of};
ghost use Rattle.haft_cli.specs.Table.{row_of};
ghost use Rattle.haft_cli.specs.Answers.{reads};

use haft_io::Which;

/// What the words ask for.
#[derive(Clone, Copy, PartialEq, Eq)]
pub enum Command {
    /// `check F`: whether the module of a file is accepted.
    Check,
    /// `run F S`: the run of a module, hardened, over a schedule.
    Run,
    /// `src F S`: the run of a module's source over a schedule, up to its end, an undefined step or a race.
    Src,
}

impl Command {
    /// Whether the command reads a file.
    pub fn reads(self, which: Which) -> bool
        ensures { result ≡ reads (row_of self) which }
    {
        match (self, which) {
            (Command::Check, Which::Second) => false,
            (Command::Check, Which::First) | (Command::Run | Command::Src, _) => true,
        }
    }
}

/// What the words ask for, or `None` where they are no command line.
pub fn command_of(words: &[String]) -> Option<Command>
    ensures { result ≡ command_of (map string_bytes words.now) }
{
    match words {
        [word, _] if word.as_bytes() == b"check".as_slice() => Some(Command::Check),
        [word, _, _] if word.as_bytes() == b"run".as_slice() => Some(Command::Run),
        [word, _, _] if word.as_bytes() == b"src".as_slice() => Some(Command::Src),
        _ => None,
    }
}
