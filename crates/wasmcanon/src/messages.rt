//! The messages on standard error.
use crate::order::DisorderMessage;
use crate::run::Failure;
use canon_cli::request::Location;
use canon_cli::text::{InputName, OutputName};
use std::fmt;

/// The message for a run that failed.
#[derive(Clone, Copy)]
pub struct FailureMessage<'i, 'o, 'f> {
    /// The input.
    pub input: Location<'i>,
    /// The output.
    pub output: Location<'o>,
    /// The error.
    pub failure: &'f Failure,
}

impl fmt::Display for FailureMessage<'_, '_, '_> {
    fn fmt<W: fmt::Write>(&self, f: &mut fmt::Formatter<W>) -> fmt::Result {
        let input = InputName(self.input);
        match self.failure {
            Failure::Refused(refusal) => write!(f, "{input}: {refusal}"),
            Failure::Disordered { error, section } => {
                let section = *section;
                write!(f, "{input}: {}", DisorderMessage { error, section })
            }
            Failure::ObjectFile => write!(
                f,
                "{input}: object file: canonicalise after linking, or use --force"
            ),
            Failure::Memory => write!(f, "out of memory"),
            Failure::Read(error) => write!(f, "{input}: read failed: {error}"),
            Failure::Write(error) => {
                let output = OutputName(self.output);
                write!(f, "{output}: write failed: {error}")
            }
        }
    }
}
