//! The arguments, the exit status and the messages.
ghost use Rattle.std.specs.Prelude.{◌≡◌, ◌↔◌, List, [], ◌∷◌, map, Some};
ghost use Rattle.std.specs.Bool.{OnTrue};
ghost use Rattle.std.specs.Io.KnownBytes.{Appends};
ghost use Rattle.wasmnorm.specs.Command.{word_of, status_of, message_of, line_of};
ghost use Rattle.wasmnorm.specs.declared.modes.Mode.{Mode};

use crate::modes::Mode;
use crate::run::RunError;
use std::fmt;
use std::io::Write;

/// The message for invalid arguments.
pub const USAGE: &str = "usage: wasmnorm calls|types|module";

/// The exit status for invalid arguments.
pub const USAGE_STATUS: u8 = 2;

/// Returns the mode that the arguments name. `None` means that they are invalid.
pub fn mode_of(args: &[&str]) -> Option<Mode>
    ensures { (mode : Mode) →
        (result ≡ Some mode) ↔ (map (λ arg. arg.now) args.now ≡ word_of mode ∷ []) }
{
    match args {
        [word] => match *word {
            "calls" => Some(Mode::Calls),
            "types" => Some(Mode::Types),
            "module" => Some(Mode::Module),
            _ => None,
        },
        _ => None,
    }
}

/// Returns the exit status of a run with this outcome.
pub fn status(outcome: &Result<(), RunError>) -> u8
    ensures { result ≡ status_of outcome.now }
{
    match outcome {
        Ok(()) => 0,
        Err(RunError::Refused { .. }) => 1,
        Err(RunError::Memory) => 3,
        Err(RunError::Read | RunError::Write) => 4,
    }
}

impl fmt::Display for RunError {
    ghost output = { λ error. Some (message_of error) };

    fn fmt<W: fmt::Write>(&self, f: &mut fmt::Formatter<W>) -> fmt::Result {
        match self {
            RunError::Refused { at } => write!(f, "refused at {at}"),
            RunError::Memory => write!(f, "no memory"),
            RunError::Read => write!(f, "read failed"),
            RunError::Write => write!(f, "write failed"),
        }
    }
}

/// Writes the message for an error and a line feed. Returns `false` if a write fails.
pub fn report<W: Write>(error: &RunError, writer: &mut W) -> bool
    ensures { OnTrue result
        (Appends (W.contents writer.old) (W.contents writer.new) (line_of error.now)) }
{
    writeln!(writer, "{error}").is_ok()
}
