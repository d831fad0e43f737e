//! What a run does: what the command line asks for, with its patterns of names.
use crate::run::FormOptions;
use canon_cli::request::Request;
use std::alloc::{AllocError, Global};
use wasm_modules::selection::{Pattern, Sections, Selection};

/// A request with its patterns of names.
#[derive(Drop)]
pub struct Job<'a> {
    /// The request.
    pub request: Request<'a>,
    /// Patterns of the names of custom sections to drop.
    dropped: Vec<Pattern<'a>>,
    /// Patterns of the names of custom sections to keep even so.
    kept: Vec<Pattern<'a>>,
}

/// Why there is no job.
#[derive(Drop)]
pub enum JobError {
    /// The words don't go together.
    Usage(&'static str),
    /// Memory ran out.
    Memory,
}

impl From<AllocError> for JobError {
    fn from(_error: AllocError) -> JobError {
        JobError::Memory
    }
}

impl<'a> Job<'a> {
    /// Returns the job that a request asks for.
    ///
    /// Fails with `Usage` if the request's words don't go together, and with `Memory` if memory runs out.
    pub fn new(alloc: Global, request: Request<'a>) -> Result<Job<'a>, JobError> {
        let mut dropped = patterns_of(alloc, &request.dropped)?;
        if request.strip_all {
            dropped.push(Pattern::of_all()).map_err(AllocError::from)?;
        }
        let kept = patterns_of(alloc, &request.kept)?;
        match request.fault() {
            Some(message) => Err(JobError::Usage(message)),
            None => Ok(Job {
                request,
                dropped,
                kept,
            }),
        }
    }

    /// Returns what is written of a module.
    pub fn form_options(&self) -> FormOptions<'_> {
        FormOptions {
            sections: self.sections(),
            names: self.request.names,
        }
    }

    /// Returns the sections to write.
    fn sections(&self) -> Sections<'_> {
        if !self.request.strip_offsets && self.dropped.is_empty() {
            return Sections::All;
        }
        Sections::Selected(Selection {
            offsets: self.request.strip_offsets,
            dropped: self.dropped.as_slice(),
            kept: self.kept.as_slice(),
        })
    }
}

/// Returns the patterns of names that these words spell.
fn patterns_of<'a>(alloc: Global, words: &[&'a str]) -> Result<Vec<Pattern<'a>>, AllocError> {
    let mut patterns = Vec::new(alloc);
    for word in words {
        patterns.push(Pattern::new(word))?;
    }
    Ok(patterns)
}
