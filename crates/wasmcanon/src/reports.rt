//! The action `--report`.
use crate::files::report_file;
use crate::json::{failure_members, failure_value};
use crate::messages::FailureMessage;
use crate::results::Results;
use crate::run::Failure;
use canon_cli::held::HeldWriter;
use canon_cli::request::{Location, Request};
use canon_cli::text::InputName;
use std::alloc::AllocError;
use std::io::{Stdout, Write};
use wasm_listing::listing::Stop;
use wasm_listing::report::Report;

/// Prints the report of each module. A row is printed once its section is rewritten, so that none is kept.
///
/// Fails if memory runs out.
pub fn report_modules(rt: &HostRuntime, request: &Request<'_>) -> Result<u8, AllocError> {
    let mut results = Results::new(rt, false);
    let mut writer = HeldWriter::new(rt.alloc(), rt.stdout());
    match report_all(rt, request, &mut writer, &mut results) {
        Ok(()) | Err(Stop::Malformed | Stop::Enough) => {}
        Err(Stop::Memory) => return Err(AllocError),
        Err(Stop::Write(error)) => results.fail_write(&error),
    }
    Ok(results.finish())
}

/// Writes the report of each module, up to the first write that fails.
fn report_all(
    rt: &HostRuntime,
    request: &Request<'_>,
    writer: &mut HeldWriter<Stdout>,
    results: &mut Results,
) -> Result<(), Stop> {
    for (number, word) in request.inputs.iter().enumerate() {
        if request.json {
            write!(writer, "{}", if number == 0 { "[" } else { ",\n" })?;
        }
        report_module(rt, request, Location::named(word), writer, results)?;
    }
    if request.json {
        writeln!(writer, "]")?;
    }
    writer.flush()?;
    Ok(())
}

/// Writes the report of a module. Its name precedes it if there are several.
fn report_module(
    rt: &HostRuntime,
    request: &Request<'_>,
    input: Location<'_>,
    writer: &mut HeldWriter<Stdout>,
    results: &mut Results,
) -> Result<(), Stop> {
    writer.mark();
    if request.inputs.len() > 1 && !request.json {
        writeln!(writer, "{}:", InputName(input))?;
    }
    let mut report = Report::new(rt.alloc(), &mut *writer, request.json, request.names);
    report.begin()?;
    let reported = report_file(rt, request, input, &mut report);
    report.stopped()?;
    match reported {
        Ok(()) => report.end(input.word())?,
        Err(failure) => return fail(rt, request, input, writer, results, &failure),
    }
    writer.flush()?;
    Ok(())
}

/// Reports why a module failed. Takes back the rows of the sections before, if there aren't too many.
fn fail(
    rt: &HostRuntime,
    request: &Request<'_>,
    input: Location<'_>,
    writer: &mut HeldWriter<Stdout>,
    results: &mut Results,
    failure: &Failure,
) -> Result<(), Stop> {
    let is_begun = !writer.take_back();
    if request.json {
        let alloc = rt.alloc();
        if is_begun {
            let members = failure_members(alloc, input, failure)?;
            write!(writer, "],{}", members.as_str())?;
        } else {
            let message = FailureMessage {
                input,
                output: Location::Standard,
                failure,
            };
            write!(writer, "{}", failure_value(alloc, input, &message)?)?;
        }
    }
    writer.flush()?;
    results.fail(input, Location::Standard, failure)?;
    Ok(())
}
