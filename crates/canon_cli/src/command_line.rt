//! The command line: the request that its words make, and the answer to words that make none.
use crate::options::{USAGE, command, is_option};
use crate::outputs::report_failed_write;
use crate::paths::exists;
use crate::request::Request;
use crate::statuses::USAGE_STATUS;
use crate::words::inputs_alone_escape;
use clap::error::ErrorKind;
use std::alloc::AllocError;

/// What the words of the command line ask for.
#[derive(Drop)]
pub enum Asked<'a> {
    /// A run.
    Run(Request<'a>),
    /// Nothing more: the answer is printed. Holds the exit status.
    Answered(u8),
}

/// Reads the words of the command line, the program's name among them. If they are wrong, or if they ask for the help or
/// the version, prints the answer.
///
/// Fails if memory runs out.
pub fn read_request<'a>(rt: &HostRuntime, words: &'a [String]) -> Result<Asked<'a>, AllocError> {
    match command(rt.alloc())?.try_get_matches_from(words) {
        Ok(matches) => {
            let request = Request::from_matches(rt.alloc(), &matches)?;
            if inputs_alone_escape(words, &request.inputs) {
                return Ok(Asked::Run(request));
            }
            Ok(Asked::Answered(refuse_usage(rt, "invalid argument: expected UTF-8")))
        }
        Err(error) if error.kind() == ErrorKind::OutOfMemory => Err(AllocError),
        Err(error) => Ok(Asked::Answered(print_answer(rt, &error))),
    }
}

/// Prints an error in the words, the help or the version, and returns the exit status.
fn print_answer(rt: &HostRuntime, error: &clap::Error) -> u8 {
    let printed = error.print(rt);
    if error.use_stderr() {
        return USAGE_STATUS;
    }
    match printed {
        Ok(()) => 0,
        Err(error) => report_failed_write(rt, &error),
    }
}

/// Returns the first input if it is the name of an option and no file: whoever writes `check` means `--check`.
pub fn mistaken_option<'a>(rt: &HostRuntime, request: &Request<'a>) -> Option<&'a str> {
    let word = *request.inputs.first()?;
    if is_option(word) && !exists(rt, word) {
        Some(word)
    } else {
        None
    }
}

/// Reports that the words don't go together, and returns the exit status.
pub fn refuse_usage(rt: &HostRuntime, message: &str) -> u8 {
    let _ = eprintln!(rt;
        "error: {message}\n\nUsage: {USAGE}\n\nFor more information, try '--help'."
    );
    USAGE_STATUS
}
