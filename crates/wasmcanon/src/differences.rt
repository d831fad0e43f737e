//! The action `--diff --all`, and what `--diff` prints of the first part that differs.
use crate::actions::two_inputs;
use crate::files::read_input_at;
use crate::hints::with_hints;
use crate::json::{difference_value, failure_members};
use crate::results::Results;
use crate::run::{Failure, accept, canonical_of};
use canon_cli::held::HeldWriter;
use canon_cli::request::{Location, Request};
use canon_cli::text::InputName;
use std::alloc::{AllocError, Global};
use std::io::{BufWriter, Stdout, Write};
use wasm_listing::diff::{Difference, find_difference};
use wasm_listing::listing::{DifferentLines, DifferentValues, FirstItem, Stop, list_differences};

/// Compares two modules, and prints all parts in which they differ.
///
/// The parts are listed before the modules are rewritten, so that no module is held twice. Fails if memory runs out.
pub fn diff_all(rt: &HostRuntime, request: &Request<'_>) -> Result<u8, AllocError> {
    let mut results = Results::new(rt, false);
    let Some((one, other)) = read_two(rt, request, &mut results)? else {
        return Ok(results.finish());
    };
    let mut writer = HeldWriter::new(rt.alloc(), rt.stdout());
    writer.mark();
    let listed = list_parts(rt, request, &one, &other, &mut writer);
    if let Err(Stop::Memory) = listed {
        return Err(AllocError);
    }
    let printed = match accept_two(rt, request, one, other) {
        Ok((one, other)) => {
            let difference = find_difference(rt.alloc(), &one, &other);
            let item = find_item(rt, request, [one.as_slice(), other.as_slice()], difference)?;
            let printed = listed.and_then(|_| end_parts(
                rt,
                request,
                difference,
                item,
                &mut writer,
            ));
            tell(rt, request, difference, &mut results);
            printed
        }
        Err((input, failure)) => refuse(rt, request, input, &failure, &mut writer, &mut results),
    };
    match printed {
        Ok(()) | Err(Stop::Malformed | Stop::Enough) => {}
        Err(Stop::Memory) => return Err(AllocError),
        Err(Stop::Write(error)) => results.fail_write(&error),
    }
    Ok(results.finish())
}

/// Prints the first part in which two canonical forms differ on standard error.
///
/// Fails if memory runs out.
pub fn print_first(rt: &HostRuntime, one: &[u8], other: &[u8]) -> Result<(), AllocError> {
    let Ok(mut writer) = BufWriter::new(rt.alloc(), rt.stderr()) else {
        return Err(AllocError);
    };
    let mut first = DifferentLines::of_first(rt.alloc(), &mut writer);
    if let Err(Stop::Memory) = list_differences(rt.alloc(), one, other, &mut first) {
        return Err(AllocError);
    }
    let _ = writer.flush();
    Ok(())
}

/// Returns the number of the first item in which two canonical forms differ, if results are printed as JSON. `None` means
/// that nothing differs, or a section as a whole.
///
/// Fails if memory runs out.
pub fn find_item(
    rt: &HostRuntime,
    request: &Request<'_>,
    [one, other]: [&[u8]; 2],
    difference: Option<Difference<'_>>,
) -> Result<Option<u32>, AllocError> {
    if difference.is_none() || !request.json {
        return Ok(None);
    }
    let mut first = FirstItem::new();
    match list_differences(rt.alloc(), one, other, &mut first) {
        Err(Stop::Memory) => Err(AllocError),
        _ => Ok(first.number),
    }
}

/// Reads two modules. Returns `None` if that failed. Then a malformed first module is reported before a second one that
/// can't be read.
fn read_two(
    rt: &HostRuntime,
    request: &Request<'_>,
    results: &mut Results,
) -> Result<Option<(Vec<u8>, Vec<u8>)>, AllocError> {
    let [first, second] = two_inputs(request);
    let (input, failure) = match read_input_at(rt, first) {
        Ok(one) => match read_input_at(rt, second) {
            Ok(other) => return Ok(Some((one, other))),
            Err(failure) => match accept(rt.alloc(), one, request.any_order) {
                Ok(_) => (second, failure),
                Err(refused) => (first, refused),
            },
        },
        Err(failure) => (first, failure),
    };
    results.fail(input, Location::Standard, &failure)?;
    Ok(None)
}

/// Rewrites two modules to their canonical forms. Fails with the first that is refused.
fn accept_two<'m>(
    rt: &HostRuntime,
    request: &Request<'m>,
    one: Vec<u8>,
    other: Vec<u8>,
) -> Result<(Vec<u8>, Vec<u8>), (Location<'m>, Failure)> {
    let [first, second] = two_inputs(request);
    match hinted_form(rt.alloc(), one, request.any_order) {
        Ok(one) => match hinted_form(rt.alloc(), other, request.any_order) {
            Ok(other) => Ok((one, other)),
            Err(failure) => Err((second, failure)),
        },
        Err(failure) => Err((first, failure)),
    }
}

/// Rewrites a module to its canonical form, with its branch hints moved.
fn hinted_form(alloc: Global, input: Vec<u8>, any_order: bool) -> Result<Vec<u8>, Failure> {
    let canonical = canonical_of(alloc, input, any_order)?;
    Ok(with_hints(alloc, canonical)?.bytes)
}

/// Writes the parts in which two modules differ, up to the first malformed part.
fn list_parts(
    rt: &HostRuntime,
    request: &Request<'_>,
    one: &[u8],
    other: &[u8],
    writer: &mut HeldWriter<Stdout>,
) -> Result<(), Stop> {
    let alloc = rt.alloc();
    let listed = if request.json {
        write!(writer, "{{\"differences\":[")?;
        list_differences(alloc, one, other, &mut DifferentValues::new(writer))
    } else {
        list_differences(alloc, one, other, &mut DifferentLines::new(alloc, writer))
    };
    match listed {
        Err(Stop::Malformed | Stop::Enough) => Ok(()),
        listed => listed,
    }
}

/// Writes what follows the parts in which two modules differ.
fn end_parts(
    rt: &HostRuntime,
    request: &Request<'_>,
    difference: Option<Difference<'_>>,
    item: Option<u32>,
    writer: &mut HeldWriter<Stdout>,
) -> Result<(), Stop> {
    if request.json {
        let alloc = rt.alloc();
        let value = difference_value(alloc, two_inputs(request), difference, item)?;
        let text = format!(in alloc; "{value}")?;
        let members = text.as_str().strip_prefix("{").unwrap_or("}");
        writeln!(writer, "],{members}")?;
    }
    writer.flush()?;
    Ok(())
}

/// Reports that two modules differ, and where.
fn tell(
    rt: &HostRuntime,
    request: &Request<'_>,
    difference: Option<Difference<'_>>,
    results: &mut Results,
) {
    if let Some(difference) = difference {
        let [first, second] = two_inputs(request);
        let (one, other) = (InputName(first), InputName(second));
        let _ = eprintln!(rt; "error: {one} and {other} differ: {difference}");
        results.deny();
    }
}

/// Reports why a module failed. Takes back the parts that were listed, if there aren't too many.
fn refuse(
    rt: &HostRuntime,
    request: &Request<'_>,
    input: Location<'_>,
    failure: &Failure,
    writer: &mut HeldWriter<Stdout>,
    results: &mut Results,
) -> Result<(), Stop> {
    if !writer.take_back() && request.json {
        let members = failure_members(rt.alloc(), input, failure)?;
        writeln!(writer, "],{}", members.as_str())?;
    }
    writer.flush()?;
    results.fail(input, Location::Standard, failure)?;
    Ok(())
}
