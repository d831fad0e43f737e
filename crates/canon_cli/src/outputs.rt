//! The outputs of a run.
use crate::paths::{is_folder, is_read_only, is_same_file, is_special};
use crate::request::{Location, Output, Request};
use crate::statuses::WRITE_STATUS;
use std::alloc::{AllocError, Global};
use std::io;
use std::io::{ErrorKind, IsTerminal};
use std::path::{Path, PathBuf};

/// The outputs of the modules.
#[derive(Clone, Copy)]
pub enum Outputs<'m> {
    /// Standard output.
    Standard,
    /// A file.
    File(&'m str),
    /// Files in this folder, with the names of the inputs.
    Folder(&'m str),
    /// The inputs.
    InPlace,
}

/// Why there are no outputs.
#[derive(Drop)]
pub enum OutputError {
    /// The modules can't be written there.
    Usage(&'static str),
    /// Memory ran out.
    Memory,
}

impl From<AllocError> for OutputError {
    fn from(_error: AllocError) -> OutputError {
        OutputError::Memory
    }
}

impl<'m> Outputs<'m> {
    /// Returns the outputs that the command line asks for.
    ///
    /// Fails with `Usage` if the modules can't be written there, and with `Memory` if memory runs out.
    pub fn new(rt: &HostRuntime, request: &Request<'m>) -> Result<Outputs<'m>, OutputError> {
        match request.output {
            Output::InPlace => Ok(Outputs::InPlace),
            Output::Standard if !request.force && rt.stdout().is_terminal() => {
                Err(OutputError::Usage(
                    "standard output is a terminal: name a file with -o, or use --force",
                ))
            }
            Output::Standard => Ok(Outputs::Standard),
            Output::Path(path) if path.ends_with('/') || is_folder(rt, path) => {
                if have_names(rt.alloc(), &request.inputs)? {
                    Ok(Outputs::Folder(path))
                } else {
                    Err(OutputError::Usage("modules that go to a folder need names that differ"))
                }
            }
            Output::Path(path) if request.inputs.len() == 1 => Ok(Outputs::File(path)),
            Output::Path(_) => Err(OutputError::Usage(
                "several modules need -o FOLDER/, or --in-place to replace them",
            )),
        }
    }

    /// Returns the output of a module that doesn't go to a folder.
    pub fn location(self, input: Location<'m>) -> Location<'m> {
        match self {
            Outputs::File(path) | Outputs::Folder(path) => Location::File(path),
            Outputs::Standard => Location::Standard,
            Outputs::InPlace => input,
        }
    }

    /// Returns the path of a module that goes to a folder. `None` means that it doesn't.
    pub fn path_in_folder(
        self,
        alloc: Global,
        input: Location<'_>,
    ) -> Result<Option<PathBuf>, AllocError> {
        match (self, input) {
            (Outputs::Folder(folder), Location::File(path) | Location::NotText(path)) => {
                let name = name_of(path).unwrap_or(path);
                Ok(Some(Path::new(folder).join(alloc, name)?))
            }
            _ => Ok(None),
        }
    }
}

/// Returns the name of a file, without its folder. Standard input has none.
fn name_of(word: &str) -> Option<&str> {
    match Location::named(word) {
        Location::File(path) | Location::NotText(path) => Path::new(path).file_name(),
        Location::Standard => None,
    }
}

/// Checks whether each of the inputs has a name, and no two have the same.
///
/// Fails if memory runs out.
fn have_names(alloc: Global, inputs: &[&str]) -> Result<bool, AllocError> {
    let mut names = Vec::new(alloc);
    for word in inputs {
        let Some(name) = name_of(word) else {
            return Ok(false);
        };
        names.push(name)?;
    }
    names.sort_unstable();
    let count = names.len();
    names.dedup();
    Ok(names.len() == count)
}

/// Returns why the canonical form of `input` may not be written to `output`. `None` means that it may.
pub fn refusal_of(
    rt: &HostRuntime,
    request: &Request<'_>,
    input: Location<'_>,
    output: Location<'_>,
) -> Option<&'static str> {
    let Location::File(path) = output else {
        return None;
    };
    match request.output {
        Output::InPlace if is_special(rt, path) => Some(
            "not a regular file: --in-place replaces files",
        ),
        _ if request.force => None,
        _ if is_read_only(rt, path) => Some("read-only file: use --force to replace it"),
        Output::Path(_) if is_file_of(rt, input, path) => Some(
            "also an input: use --in-place, or --force to replace it",
        ),
        _ => None,
    }
}

/// Checks whether the input is the file at `path`.
fn is_file_of(rt: &HostRuntime, input: Location<'_>, path: &str) -> bool {
    match input {
        Location::File(input) => is_same_file(rt, input, path),
        Location::Standard | Location::NotText(_) => false,
    }
}

/// Reports that a write to standard output failed, and returns the exit status.
///
/// A reader that closed its end, as `head` does, wants no more: that is no error.
pub fn report_failed_write(rt: &HostRuntime, error: &io::Error) -> u8 {
    if error.kind() == ErrorKind::BrokenPipe {
        return 0;
    }
    let _ = eprintln!(rt; "error: standard output: write failed: {error}");
    WRITE_STATUS
}
