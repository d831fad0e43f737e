//! The results of a run over several modules: the exit status, and what is printed as JSON.
use crate::json::failure_value;
use crate::messages::FailureMessage;
use crate::run::Failure;
use canon_cli::outputs::report_failed_write;
use canon_cli::request::Location;
use canon_cli::statuses::NO_STATUS;
use serde_json::Value;
use std::alloc::AllocError;
use std::io;

/// The results of a run so far.
#[derive(Drop)]
pub struct Results {
    rt: HostRuntime,
    /// The results as JSON, if they are printed so.
    values: Option<Vec<Value>>,
    /// The highest exit status of a failure, or 0.
    status: u8,
    /// Whether a question was answered with no.
    is_denied: bool,
    /// Whether nothing is printed.
    is_quiet: bool,
}

impl Results {
    /// Returns no results. With `json` they are printed as JSON.
    pub fn new(rt: &HostRuntime, json: bool) -> Results {
        let values = if json {
            Some(Vec::new(rt.alloc()))
        } else {
            None
        };
        Results {
            rt: *rt,
            values,
            status: 0,
            is_denied: false,
            is_quiet: false,
        }
    }

    /// Prints nothing if `quiet` is set.
    pub fn silenced(self, quiet: bool) -> Results {
        Results {
            is_quiet: quiet,
            ..self
        }
    }

    /// Checks whether nothing is printed.
    pub fn is_quiet(&self) -> bool {
        self.is_quiet
    }

    /// Checks whether results are printed as JSON.
    pub fn is_json(&self) -> bool {
        self.values.is_some()
    }

    /// Raises the exit status to `status`, that of a failure.
    pub fn raise(&mut self, status: u8) {
        self.status = self.status.max(status);
    }

    /// Checks whether a module has failed.
    pub fn has_failed(&self) -> bool {
        self.status != 0
    }

    /// Answers a question with no.
    pub fn deny(&mut self) {
        self.is_denied = true;
    }

    /// Keeps a result as JSON.
    pub fn push(&mut self, value: Value) -> Result<(), AllocError> {
        if let Some(values) = &mut self.values {
            values.push(value)?;
        }
        Ok(())
    }

    /// Reports why a module failed.
    pub fn fail(
        &mut self,
        input: Location<'_>,
        output: Location<'_>,
        failure: &Failure,
    ) -> Result<(), AllocError> {
        self.raise(failure.status());
        if self.is_quiet {
            return Ok(());
        }
        let message = FailureMessage {
            input,
            output,
            failure,
        };
        let rt = self.rt;
        let _ = eprintln!(rt; "error: {message}");
        if let Failure::Disordered { .. } = failure {
            let _ = eprintln!(rt; "help: --any-order takes such modules");
        }
        if self.is_json() {
            self.push(failure_value(rt.alloc(), input, &message)?)?;
        }
        Ok(())
    }

    /// Reports that a write to standard output failed, unless its reader closed its end.
    pub fn fail_write(&mut self, error: &io::Error) {
        let status = report_failed_write(&self.rt, error);
        self.raise(status);
    }

    /// Prints the results that are printed as JSON, and returns the exit status.
    pub fn finish(mut self) -> u8 {
        let rt = self.rt;
        if let Some(values) = self.values.take() {
            let list = Value::Array(values);
            if let Err(error) = println!(rt; "{list}") {
                self.fail_write(&error);
            }
        }
        if self.status == 0 && self.is_denied {
            NO_STATUS
        } else {
            self.status
        }
    }
}
