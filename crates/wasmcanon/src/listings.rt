//! The action `--list`.
use crate::files::read_input_at;
use crate::json::{failure_members, file_value};
use crate::results::Results;
use crate::run::{Failure, accept};
use canon_cli::request::{Location, Request};
use canon_cli::text::InputName;
use std::alloc::AllocError;
use std::io;
use std::io::{BufWriter, Stdout, Write};
use wasm_listing::listing::{Choice, Lines, Stop, Values, list_module};

/// Prints a listing of each module.
///
/// Fails if memory runs out.
pub fn list_modules(rt: &HostRuntime, request: &Request<'_>) -> Result<u8, AllocError> {
    let mut results = Results::new(rt, false);
    let Ok(mut writer) = BufWriter::new(rt.alloc(), rt.stdout()) else {
        return Err(AllocError);
    };
    match list_all(rt, request, &mut writer, &mut results) {
        Ok(()) | Err(Stop::Malformed | Stop::Enough) => {}
        Err(Stop::Memory) => return Err(AllocError),
        Err(Stop::Write(error)) => results.fail_write(&error),
    }
    Ok(results.finish())
}

/// Writes a listing of each module, up to the first write that fails.
fn list_all(
    rt: &HostRuntime,
    request: &Request<'_>,
    writer: &mut BufWriter<Stdout>,
    results: &mut Results,
) -> Result<(), Stop> {
    let mut choice = Choice::new(rt.alloc(), request.sections.as_slice(), request.headers)?;
    for (number, word) in request.inputs.iter().enumerate() {
        let input = Location::named(word);
        if request.json {
            write!(writer, "{}", if number == 0 { "[" } else { ",\n" })?;
            list_as_json(rt, request, input, &mut choice, writer, results)?;
        } else {
            list_as_text(rt, request, input, &mut choice, writer, results)?;
        }
    }
    if request.json {
        writeln!(writer, "]")?;
    }
    writer.flush()?;
    warn_of_unmatched(rt, &choice)
}

/// Warns of words for sections that no module has.
fn warn_of_unmatched(rt: &HostRuntime, choice: &Choice<'_>) -> Result<(), Stop> {
    for warning in &choice.unmatched(rt.alloc())? {
        let _ = eprintln!(rt; "{warning}");
    }
    Ok(())
}

/// Writes the listing of a module. Its name precedes it if there are several.
fn list_as_text(
    rt: &HostRuntime,
    request: &Request<'_>,
    input: Location<'_>,
    choice: &mut Choice<'_>,
    writer: &mut BufWriter<Stdout>,
    results: &mut Results,
) -> Result<(), Stop> {
    let module = match read_input_at(rt, input) {
        Ok(module) => module,
        Err(failure) => return fail(writer, results, input, &failure),
    };
    if request.inputs.len() > 1 {
        writeln!(writer, "{}:", InputName(input))?;
    }
    let mut lines = Lines::new(writer);
    goes_on(list_module(rt.alloc(), &module, choice, &mut lines))?;
    match accept(rt.alloc(), module, request.any_order) {
        Ok(_) => Ok(()),
        Err(failure) => fail(writer, results, input, &failure),
    }
}

/// Writes the object of a module as JSON.
fn list_as_json(
    rt: &HostRuntime,
    request: &Request<'_>,
    input: Location<'_>,
    choice: &mut Choice<'_>,
    writer: &mut BufWriter<Stdout>,
    results: &mut Results,
) -> Result<(), Stop> {
    let alloc = rt.alloc();
    let module = match read_input_at(rt, input) {
        Ok(module) => module,
        Err(failure) => {
            let members = failure_members(alloc, input, &failure)?;
            write!(writer, "{{{}", members.as_str())?;
            return fail(writer, results, input, &failure);
        }
    };
    let mut values = Values::new(writer);
    values.begin()?;
    goes_on(list_module(alloc, &module, choice, &mut values))?;
    values.end()?;
    match accept(alloc, module, request.any_order) {
        Ok(_) => {
            let file = file_value(alloc, input)?;
            write!(writer, ",\"file\":{file}}}")?;
            Ok(())
        }
        Err(failure) => {
            let members = failure_members(alloc, input, &failure)?;
            write!(writer, ",{}", members.as_str())?;
            fail(writer, results, input, &failure)
        }
    }
}

/// Goes on after a malformed part: the refusal of the module follows.
fn goes_on(listed: Result<(), Stop>) -> Result<(), Stop> {
    match listed {
        Err(Stop::Malformed) => Ok(()),
        other => other,
    }
}

/// Writes what was listed, and reports why a module failed.
fn fail(
    writer: &mut BufWriter<Stdout>,
    results: &mut Results,
    input: Location<'_>,
    failure: &Failure,
) -> Result<(), Stop> {
    writer.flush()?;
    results.fail(input, Location::Standard, failure)?;
    Ok(())
}
