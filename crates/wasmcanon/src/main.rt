//! `wasmcanon` writes the canonical form of a WebAssembly module: every number, size, type, index and limit has its
//! minimal encoding.
//!
//! The module `run` holds what is proved, for any reader and any writer. The crate `canon_cli` reads the command line and
//! opens files, and `wasm_listing` writes listings and reports.
#![tactic(auto)]

mod actions;
mod contents;
mod differences;
mod files;
mod hints;
mod job;
mod json;
mod listings;
mod messages;
mod objects;
mod offsets;
mod order;
mod reports;
mod results;
mod run;
mod uses;

use actions::run_job;
use canon_cli::command_line::{Asked, mistaken_option, read_request, refuse_usage};
use canon_cli::request::Request;
use canon_cli::statuses::MEMORY_STATUS;
use canon_cli::words::read_words;
use job::{Job, JobError};
use std::alloc::AllocError;
use std::process::ExitCode;

fn main(rt: HostRuntime) -> ExitCode {
    let status = match read_words(&rt) {
        Ok(words) => run_words(&rt, &words),
        Err(error) => Err(error),
    };
    ExitCode::from(status.unwrap_or_else(|_| no_memory(&rt)))
}

fn no_memory(rt: &HostRuntime) -> u8 {
    let _ = eprintln!(rt; "error: out of memory");
    MEMORY_STATUS
}

/// Runs the program with these words, and returns the exit status.
///
/// Fails if memory runs out.
fn run_words(rt: &HostRuntime, words: &[String]) -> Result<u8, AllocError> {
    match read_request(rt, words)? {
        Asked::Run(request) => run_request(rt, request),
        Asked::Answered(status) => Ok(status),
    }
}

/// Does what the command line asks for, and returns the exit status.
///
/// Fails if memory runs out.
fn run_request(rt: &HostRuntime, request: Request<'_>) -> Result<u8, AllocError> {
    if let Some(word) = mistaken_option(rt, &request) {
        let message = format!(in rt.alloc(); "{word}: no such file: did you mean --{word}?")?;
        return Ok(refuse_usage(rt, message.as_str()));
    }
    match Job::new(rt.alloc(), request) {
        Ok(job) => run_job(rt, &job),
        Err(JobError::Memory) => Err(AllocError),
        Err(JobError::Usage(message)) => Ok(refuse_usage(rt, message)),
    }
}
