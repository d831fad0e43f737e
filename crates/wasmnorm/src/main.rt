//! `wasmnorm` reads WebAssembly bytes from standard input, and writes their minimal encoding to standard output.
//!
//! The argument names the form of the input: `calls` is a list of instructions, `types` the body of a type section, and
//! `module` a module. In a module, `wasmnorm` shortens section sizes, type sections and code sections, and copies the
//! bodies of all other sections. `--help` and `--version` print a text.
//!
//! The exit status is 0 if the bytes were written, 1 if the input is malformed, 2 for invalid arguments, 3 if memory
//! ran out, and 4 if a read or a write failed.
#![tactic(auto)]

ghost use Rattle.std.specs.Prelude.{◌≡◌};
ghost use Rattle.wasmnorm.specs.Command.{status_of};

mod command;
mod modes;
mod run;
mod streams;
mod texts;

use crate::command::{USAGE, USAGE_STATUS, mode_of, report, status};
use crate::modes::Mode;
use crate::run::{RunError, run};
use crate::streams::flush;
use crate::texts::text_of;
use std::process::ExitCode;
use std::{env, fs, io};

/// What the arguments ask for.
#[derive(Clone, Copy)]
enum Request {
    /// To normalise standard input.
    Normalise(Mode),
    /// To print a text.
    Print(&'static str),
}

fn main(rt: HostRuntime) -> ExitCode {
    let code = match read_request(&rt) {
        Ok(Some(Request::Normalise(mode))) => reported_status(&rt, run_standard(&rt, mode)),
        Ok(Some(Request::Print(text))) => reported_status(&rt, print_text(&rt, text)),
        Err(error) if error.kind() == io::ErrorKind::OutOfMemory => {
            reported_status(&rt, Err(RunError::Memory))
        }
        _ => {
            let _ = eprintln!(rt; "{USAGE}");
            USAGE_STATUS
        }
    };
    ExitCode::from(code)
}

/// Reads the request from the program's arguments.
///
/// `None` means that the arguments are invalid. Fails if memory runs out, or if an argument isn't UTF-8.
fn read_request(rt: &HostRuntime) -> io::Result<Option<Request>> {
    let words: Vec<String> = env::args(rt)?.skip(1).collect(rt.alloc())?;
    let args: Vec<&str> = words.iter().map(|word| word.as_str()).collect(rt.alloc())?;
    if let Some(text) = text_of(&args) {
        return Ok(Some(Request::Print(text)));
    }
    match mode_of(&args) {
        Some(mode) => Ok(Some(Request::Normalise(mode))),
        None => Ok(None),
    }
}

/// Prints the text and a line feed on standard output.
fn print_text(rt: &HostRuntime, text: &str) -> Result<(), RunError> {
    match println!(rt; "{text}") {
        Ok(()) => Ok(()),
        Err(_) => Err(RunError::Write),
    }
}

/// Runs the program from standard input to standard output, and flushes the output.
fn run_standard(rt: &HostRuntime, mode: Mode) -> Result<(), RunError> {
    let mut output = rt.stdout();
    run(
        rt.alloc(),
        mode,
        input_len(rt),
        &mut rt.stdin(),
        &mut output,
    )?;
    flush(&mut output)
}

/// Returns the length in bytes of the file that is standard input. `None` means that it is no file.
fn input_len(rt: &HostRuntime) -> Option<usize> {
    match fs::metadata(rt, "/dev/stdin") {
        Ok(metadata) if metadata.is_file() => usize::try_from(metadata.len()).ok(),
        _ => None,
    }
}

/// Reports the error of a run, if any, on standard error, and returns the exit status.
fn reported_status(rt: &HostRuntime, outcome: Result<(), RunError>) -> u8
    ensures { result ≡ status_of outcome }
{
    if let Err(error) = &outcome {
        report(error, &mut rt.stderr());
    }
    status(&outcome)
}
