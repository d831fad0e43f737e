//! Files: inputs, and outputs that replace a file only once they are complete.
use crate::job::Job;
use crate::run::{
    Canonical, Failure, Verdict, canonicalise, check, hash, read_canonical, read_input, report,
};
use crate::uses::PatternUses;
use canon_cli::paths::is_special;
use canon_cli::progress::{Progress, Source, not_text};
use canon_cli::replacement::LateReplacement;
use canon_cli::request::{Location, Request};
use std::alloc::Global;
use std::io::Write;
use std::{fs, io};
use wasm_code::section::HEADER;
use wasm_modules::counting::SectionWatcher;

/// Reads the module at `input`, and writes its canonical form to `output`. Notes which patterns match its custom
/// sections.
///
/// If bytes have moved, returns the names of the sections that keep offsets and are written.
pub fn canonicalise_file(
    rt: &HostRuntime,
    job: &Job<'_>,
    input: Location<'_>,
    output: Location<'_>,
    uses: &mut PatternUses<'_>,
) -> Result<Vec<String>, Failure> {
    let mut source = open(rt, input, Progress::new(rt).beside(output))?;
    let stale = canonicalise_to(rt, &mut source, output, job, uses);
    source.end();
    stale
}

/// Checks whether the module at `input` is its own canonical form.
pub fn check_file(
    rt: &HostRuntime,
    request: &Request<'_>,
    input: Location<'_>,
) -> Result<Verdict, Failure> {
    let mut source = open(rt, input, Progress::new(rt).unless(request.quiet))?;
    let verdict = check(rt.alloc(), &mut source, request.any_order, request.names);
    source.end();
    verdict
}

/// Returns the digest of the canonical form of the module at `input`. Notes which patterns match its custom sections.
pub fn hash_file(
    rt: &HostRuntime,
    job: &Job<'_>,
    input: Location<'_>,
    uses: &mut PatternUses<'_>,
) -> Result<[u8; 32], Failure> {
    let mut source = open(rt, input, Progress::new(rt))?;
    let digest = hash(
        rt.alloc(),
        &mut source,
        job.request.any_order,
        job.form_options(),
        uses,
    );
    source.end();
    digest
}

/// Reads the module at `input`, and returns its canonical form.
pub fn read_canonical_at(
    rt: &HostRuntime,
    request: &Request<'_>,
    input: Location<'_>,
) -> Result<Canonical, Failure> {
    let mut source = open(rt, input, Progress::new(rt).unless(request.quiet))?;
    let canonical = read_canonical(rt.alloc(), &mut source, request.any_order);
    source.end();
    canonical
}

/// Reads the module at `input`, and shows each section to the watcher while it is rewritten.
pub fn report_file<S: SectionWatcher>(
    rt: &HostRuntime,
    request: &Request<'_>,
    input: Location<'_>,
    watcher: &mut S,
) -> Result<(), Failure> {
    let mut source = open(rt, input, Progress::new(rt))?;
    let reported = report(rt.alloc(), &mut source, request.any_order, watcher);
    source.end();
    reported
}

/// Reads all bytes of the module at `input`, which may be malformed.
pub fn read_input_at(rt: &HostRuntime, input: Location<'_>) -> Result<Vec<u8>, Failure> {
    let mut source = open(rt, input, Progress::new(rt))?;
    let module = read_input(rt.alloc(), &mut source);
    source.end();
    module
}

fn open(rt: &HostRuntime, input: Location<'_>, progress: Progress) -> Result<Source, Failure> {
    Source::open(rt, input, HEADER, progress).map_err(Failure::Read)
}

fn canonicalise_to(
    rt: &HostRuntime,
    source: &mut Source,
    output: Location<'_>,
    job: &Job<'_>,
    uses: &mut PatternUses<'_>,
) -> Result<Vec<String>, Failure> {
    match output {
        Location::Standard => {
            let mut writer = rt.stdout();
            let stale = write_form(rt.alloc(), source, &mut writer, job, true, uses)?;
            writer.flush().map_err(Failure::Write)?;
            Ok(stale)
        }
        Location::File(path) => canonicalise_to_file(rt, source, path, job, uses),
        Location::NotText(_) => Err(Failure::Write(not_text())),
    }
}

/// Reads a module, and writes its canonical form, unless it is an object file and `objects` isn't set.
fn write_form<W: Write>(
    alloc: Global,
    source: &mut Source,
    writer: &mut W,
    job: &Job<'_>,
    objects: bool,
    uses: &mut PatternUses<'_>,
) -> Result<Vec<String>, Failure> {
    let mut writer = source.watch(writer);
    canonicalise(
        alloc,
        source,
        &mut writer,
        job.request.any_order,
        objects,
        job.form_options(),
        uses,
    )
}

/// Writes the canonical form to a new file beside `path`, and renames it to `path` once it is complete.
///
/// The new file is created once the module was read. If the run fails, the file at `path` is unchanged. A device or a pipe
/// is written to directly.
fn canonicalise_to_file(
    rt: &HostRuntime,
    source: &mut Source,
    path: &str,
    job: &Job<'_>,
    uses: &mut PatternUses<'_>,
) -> Result<Vec<String>, Failure> {
    if is_special(rt, path) {
        let mut file = fs::create(rt, path).map_err(write_failure)?;
        return write_form(rt.alloc(), source, &mut file, job, true, uses);
    }
    let mut replacement = LateReplacement::new(rt, path);
    match write_form(
        rt.alloc(),
        source,
        &mut replacement,
        job,
        job.request.force,
        uses,
    ) {
        Ok(stale) => match replacement.put() {
            Ok(()) => Ok(stale),
            Err(error) => Err(write_failure(error)),
        },
        Err(failure) => {
            replacement.remove();
            Err(match failure {
                Failure::Write(error) => write_failure(error),
                other => other,
            })
        }
    }
}

/// Returns the failure for an error from creating or renaming a file: `Memory` if memory ran out, `Write` otherwise.
fn write_failure(error: io::Error) -> Failure {
    if error.kind() == io::ErrorKind::OutOfMemory {
        Failure::Memory
    } else {
        Failure::Write(error)
    }
}
