//! The actions on the modules that the command line names.
use crate::differences::{diff_all, find_item, print_first};
use crate::files::{canonicalise_file, check_file, hash_file, read_canonical_at};
use crate::hints::with_hints;
use crate::job::Job;
use crate::json::{difference_value, digest_value, verdict_value};
use crate::listings::list_modules;
use crate::reports::report_modules;
use crate::results::Results;
use crate::run::Verdict;
use crate::uses::PatternUses;
use canon_cli::outputs::{OutputError, Outputs, refusal_of};
use canon_cli::request::{Action, Location, Request};
use canon_cli::statuses::USAGE_STATUS;
use canon_cli::text::{Hex, InputName, OffsetWarning, OutputName, SumName};
use serde_json::Value;
use std::alloc::AllocError;
use std::io;
use wasm_listing::diff::find_difference;

/// Does what the command line asks for, and returns the exit status.
///
/// Fails if memory runs out.
pub fn run_job(rt: &HostRuntime, job: &Job<'_>) -> Result<u8, AllocError> {
    let request = &job.request;
    match request.action {
        Action::Write => write_modules(rt, job),
        Action::Diff if request.all => diff_all(rt, request),
        Action::Diff => diff_modules(rt, request),
        Action::Check => check_modules(rt, request),
        Action::Hash => hash_modules(rt, job),
        Action::Report => report_modules(rt, request),
        Action::List => list_modules(rt, request),
    }
}

/// Writes the canonical form of each module.
fn write_modules(rt: &HostRuntime, job: &Job<'_>) -> Result<u8, AllocError> {
    let outputs = match Outputs::new(rt, &job.request) {
        Ok(outputs) => outputs,
        Err(OutputError::Memory) => return Err(AllocError),
        Err(OutputError::Usage(message)) => {
            let _ = eprintln!(rt; "error: {message}");
            return Ok(USAGE_STATUS);
        }
    };
    let mut results = Results::new(rt, false);
    let mut uses = PatternUses::new(rt.alloc(), &job.request)?;
    for word in &job.request.inputs {
        write_module(
            rt,
            job,
            outputs,
            Location::named(word),
            &mut results,
            &mut uses,
        )?;
    }
    warn_of_patterns(rt, &results, &uses);
    Ok(results.finish())
}

/// Writes the canonical form of a module to its output.
fn write_module<'m>(
    rt: &HostRuntime,
    job: &Job<'_>,
    outputs: Outputs<'m>,
    input: Location<'m>,
    results: &mut Results,
    uses: &mut PatternUses<'_>,
) -> Result<(), AllocError> {
    match outputs.path_in_folder(rt.alloc(), input)? {
        Some(path) => write_to(rt, job, input, Location::File(path.as_str()), results, uses),
        None => write_to(rt, job, input, outputs.location(input), results, uses),
    }
}

/// Writes the canonical form of a module to this output.
fn write_to(
    rt: &HostRuntime,
    job: &Job<'_>,
    input: Location<'_>,
    output: Location<'_>,
    results: &mut Results,
    uses: &mut PatternUses<'_>,
) -> Result<(), AllocError> {
    if let Some(reason) = refusal_of(rt, &job.request, input, output) {
        let output = OutputName(output);
        let _ = eprintln!(rt; "error: {output}: {reason}");
        results.raise(USAGE_STATUS);
        return Ok(());
    }
    match canonicalise_file(rt, job, input, output, uses) {
        Ok(names) => warn_of_offsets(rt, input, &names),
        Err(failure) => results.fail(input, output, &failure)?,
    }
    Ok(())
}

/// Warns of sections with stale offsets, if there are any.
fn warn_of_offsets(rt: &HostRuntime, input: Location<'_>, names: &[String]) {
    if !names.is_empty() {
        let input = InputName(input);
        let warning = OffsetWarning { input, names };
        let _ = eprintln!(rt; "{warning}");
    }
}

/// Warns of patterns that match no custom section, unless a module wasn't read.
fn warn_of_patterns(rt: &HostRuntime, results: &Results, uses: &PatternUses<'_>) {
    if !results.has_failed() {
        uses.warn(rt);
    }
}

/// Checks whether each module is canonical.
fn check_modules(rt: &HostRuntime, request: &Request<'_>) -> Result<u8, AllocError> {
    let mut results = Results::new(rt, request.json).silenced(request.quiet);
    for word in &request.inputs {
        let input = Location::named(word);
        match check_file(rt, request, input) {
            Ok(verdict) => add_verdict(rt, &mut results, input, verdict)?,
            Err(failure) => results.fail(input, Location::Standard, &failure)?,
        }
    }
    Ok(results.finish())
}

/// Reports where a module isn't canonical.
fn add_verdict(
    rt: &HostRuntime,
    results: &mut Results,
    input: Location<'_>,
    verdict: Verdict,
) -> Result<(), AllocError> {
    if let Verdict::Longer(refusal) = verdict {
        results.deny();
        if !results.is_quiet() {
            let input = InputName(input);
            let _ = eprintln!(rt; "error: {input}: not canonical: {refusal}");
        }
    }
    if results.is_json() {
        results.push(verdict_value(rt.alloc(), input, verdict)?)?;
    }
    Ok(())
}

/// Prints the digest of the canonical form of each module.
fn hash_modules(rt: &HostRuntime, job: &Job<'_>) -> Result<u8, AllocError> {
    let mut results = Results::new(rt, job.request.json);
    let mut uses = PatternUses::new(rt.alloc(), &job.request)?;
    for word in &job.request.inputs {
        let input = Location::named(word);
        match hash_file(rt, job, input, &mut uses) {
            Ok(digest) => add_digest(rt, &mut results, input, digest)?,
            Err(failure) => results.fail(input, Location::Standard, &failure)?,
        }
    }
    warn_of_patterns(rt, &results, &uses);
    Ok(results.finish())
}

/// Prints a digest and the name of its module, as `sha256sum` does.
fn add_digest(
    rt: &HostRuntime,
    results: &mut Results,
    input: Location<'_>,
    digest: [u8; 32],
) -> Result<(), AllocError> {
    let hex = Hex(digest);
    if results.is_json() {
        let text = format!(in rt.alloc(); "{hex}")?;
        return results.push(digest_value(rt.alloc(), input, text.as_str())?);
    }
    let name = SumName::of(input);
    let mark = name.mark();
    note_write(results, println!(rt; "{mark}{hex}  {name}"));
    Ok(())
}

/// Reports a write to standard output that failed.
fn note_write(results: &mut Results, printed: io::Result<()>) {
    if let Err(error) = printed {
        results.fail_write(&error);
    }
}

/// Compares the canonical forms of two modules.
fn diff_modules(rt: &HostRuntime, request: &Request<'_>) -> Result<u8, AllocError> {
    let mut results = Results::new(rt, false).silenced(request.quiet);
    let [first, second] = two_inputs(request);
    let Some(one) = canonical_form_at(rt, request, first, &mut results)? else {
        return Ok(results.finish());
    };
    let Some(other) = canonical_form_at(rt, request, second, &mut results)? else {
        return Ok(results.finish());
    };
    let difference = find_difference(rt.alloc(), &one, &other);
    if let Some(difference) = difference {
        results.deny();
        if !request.quiet {
            let (first_name, second_name) = (InputName(first), InputName(second));
            let _ = eprintln!(rt; "error: {first_name} and {second_name} differ: {difference}");
            print_first(rt, &one, &other)?;
        }
    }
    if request.json {
        let item = find_item(rt, request, [one.as_slice(), other.as_slice()], difference)?;
        let value = difference_value(rt.alloc(), [first, second], difference, item)?;
        print_value(rt, &mut results, &value);
    }
    Ok(results.finish())
}

fn print_value(rt: &HostRuntime, results: &mut Results, value: &Value) {
    note_write(results, println!(rt; "{value}"));
}

/// Returns the two modules to compare.
pub fn two_inputs<'m>(request: &Request<'m>) -> [Location<'m>; 2] {
    let first = request.inputs.first().copied().unwrap_or("-");
    let second = request.inputs.get(1).copied().unwrap_or("-");
    [Location::named(first), Location::named(second)]
}

/// Reads a module, and returns its canonical form. Returns `None` if it failed.
fn canonical_form_at(
    rt: &HostRuntime,
    request: &Request<'_>,
    input: Location<'_>,
    results: &mut Results,
) -> Result<Option<Vec<u8>>, AllocError> {
    match read_canonical_at(rt, request, input) {
        Ok(canonical) => {
            let hinted = with_hints(rt.alloc(), canonical)?;
            Ok(Some(hinted.bytes))
        }
        Err(failure) => {
            results.fail(input, Location::Standard, &failure)?;
            Ok(None)
        }
    }
}
