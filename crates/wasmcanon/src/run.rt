//! A run of the program, for any reader and any writer.
ghost use Rattle.std.specs.Prelude.{◌≡◌, ℕ, List, false, true, IfOk, IfErr, IfSome, OnOk};
ghost use Rattle.std.specs.Io.KnownBytes.{IsAtEnd, Keeps};
ghost use Rattle.wasm_sections.specs.formats.ModuleSections.{module_section};
ghost use Rattle.wasm_modules.specs.Counting.{ShowsModule};
ghost use Rattle.wasm_modules.specs.RefusalNumbers.{CountsParts};
ghost use Rattle.wasmcanon.specs.Objects.{IsObjectFile, IsNoObjectFile};
ghost use Rattle.wasmcanon.specs.Run.{Accepts, FormIs, HasCode, HasOneForm, TellsMoved, IsModule, IsCanonicalForm, AppendsBeginning, AppendsForm, IsForm, IsHash, IfObjectFile, IfPlaced, IfWriteFailed, NeverWrites, OnceAllIsRead, BeforeAnyWrite, IsReadFailure, IsVerdictOn, outcome_of, status_of};
ghost use Rattle.wasmcanon.specs.StaleSections.{NamesStale};
ghost use Rattle.wasmcanon.specs.declared.run.Failure.TheVariants.{Memory};

use crate::contents::{verdict_on_contents, with_contents};
use crate::hints::with_hints;
use crate::objects::is_object_file;
use crate::offsets::stale_names;
use crate::order::{MisplacedSection, check_sections};
use crate::uses::PatternUses;
use canon_cli::input::Input;
use sha2::{Digest, Sha256};
use std::alloc::{AllocError, Global};
use std::io;
use std::io::{ErrorKind, Write};
use wasm_code::decode::rewrite;
use wasm_codec::reader::DecodeError;
use wasm_codec::reader::refusal::Refusal;
use wasm_codec::streams::write_all;
use wasm_custom_sections::moved_hints::HintedCode;
use wasm_modules::counting::{SectionWatcher, rewrite_watched};
use wasm_modules::modules::{WholeModule, rewrite_and_check_whole_module};
use wasm_modules::order::ModuleError;
use wasm_modules::selection::{Sections, choose_sections};

/// Why a run failed.
#[derive(Drop)]
pub enum Failure {
    /// The input is malformed.
    ///
    /// `at` is the offset of the first malformed section, or 0 if the header is malformed.
    Refused(Refusal),
    /// The sections are out of order, or their counts disagree.
    Disordered {
        /// The rule that the sections break.
        error: ModuleError,
        /// The section that is out of order. `None` means that counts disagree.
        section: Option<MisplacedSection>,
    },
    /// The module is an object file, which isn't written unless that is asked for.
    ObjectFile,
    /// Memory ran out.
    Memory,
    /// A read failed.
    Read(io::Error),
    /// A write failed.
    Write(io::Error),
}

impl Failure {
    /// Returns the exit status: 1 if the input is malformed or out of order, 2 if it is an object file, 3 if memory ran
    /// out, 4 if a read or a write failed.
    pub fn status(&self) -> u8
        ensures { result ≡ status_of self.now }
    {
        match self {
            Failure::Refused(_) | Failure::Disordered { .. } => 1,
            Failure::ObjectFile => 2,
            Failure::Memory => 3,
            Failure::Read(_) | Failure::Write(_) => 4,
        }
    }
}

impl From<AllocError> for Failure {
    ghost from_gives = { λ _ failure. failure ≡ Memory };

    fn from(_error: AllocError) -> Failure {
        Failure::Memory
    }
}

/// The canonical form of a module.
#[derive(Drop)]
pub struct Canonical {
    /// The bytes.
    pub bytes: Vec<u8>,
    /// Whether bytes have moved: another encoding is longer.
    pub has_moved: bool,
    /// The code of the module, if it has branch hints, as it was before.
    pub code: Option<HintedCode>,
}

/// What is written of a canonical form.
#[derive(Clone, Copy)]
pub struct FormOptions<'a> {
    /// The sections.
    pub sections: Sections<'a>,
    /// Whether the contents of sections `name` and `producers` get their minimal encoding too.
    pub names: bool,
}

/// The verdict on a module.
#[derive(Clone, Copy)]
pub enum Verdict {
    /// It is its own canonical form.
    Canonical,
    /// It isn't. Holds the first part that isn't minimally encoded: `at` is the offset of its section.
    Longer(Refusal),
}

/// Reads a module, and writes its canonical form with these options. Notes which patterns match its custom sections.
///
/// Branch hints move with their instructions. If bytes have moved, returns the names of the custom sections that keep
/// other offsets and are written.
///
/// Fails with `Refused` if the input is malformed, and with `Disordered` if its sections are out of order or their counts
/// disagree, unless any order is allowed. Fails with `ObjectFile` if the output would be an object file, unless `objects` is set: its
/// relocations would be stale. Fails with `Memory` if memory runs out, and with `Read` or `Write` if a read or a write
/// fails.
#[tactic(auto, using(crate::proofs::FormLaws::has_one_form, crate::proofs::ResultLaws::failed_to_write, crate::proofs::ResultLaws::not_written, crate::proofs::SectionSearches::form_is, crate::proofs::StaleLaws::form_names))]
pub fn canonicalise<R: Input, W: Write>(
    alloc: Global,
    reader: &mut R,
    writer: &mut W,
    any_order: bool,
    objects: bool,
    options: FormOptions<'_>,
    uses: &mut PatternUses<'_>,
) -> Result<Vec<String>, Failure>
    // The names are those of all sections in the form that keep offsets, but for those of branch hints that were moved. Or
    // there are none, since no byte has moved.
    ensures stale { IfOk result (λ names. IfSome (R.remaining reader.old) (λ input.
        FormIs options.entry input (λ form. NamesStale options.entry input form names.items))) }
    // The canonical form of the input with these options was appended, and nothing else.
    ensures ok { OnOk result (IfSome (R.remaining reader.old) (λ input.
        AppendsForm options.entry input (W.contents writer.old) (W.contents writer.new))) }
    // There is only one.
    ensures one { HasOneForm options.entry }
    // A refused input is malformed, and unless any order is allowed, the sections of an accepted one are in order.
    ensures accepts { IfSome (R.remaining reader.old) (λ input. Accepts any_order input (outcome_of result)) }
    // All of the input is read before it is refused or a byte is written.
    ensures read_to_end { OnceAllIsRead result (IsAtEnd (R.remaining reader.new)) }
    // The section and the item that it names are numbered by those before them.
    ensures numbers { IfPlaced result (λ refusal. IfSome (R.remaining reader.old) (λ input.
        CountsParts module_section input refusal)) }
    // Nothing was written, unless the failure is `Write`.
    ensures nothing_written { BeforeAnyWrite result (Keeps (W.contents writer.old) (W.contents writer.new)) }
    // The failure is `ObjectFile` only if the output would be an object file, and none may be written.
    ensures objects { IfObjectFile result (objects ≡ false) }
    ensures is_object { IfObjectFile result (IfSome (R.remaining reader.old) (λ input.
        FormIs options.entry input IsObjectFile)) }
    // Unless `objects` is set, the output is no object file.
    ensures no_object { objects ≡ false → OnOk result (IfSome (R.remaining reader.old) (λ input.
        FormIs options.entry input IsNoObjectFile)) }
    // After `Write`, a proper prefix of the canonical form was appended.
    ensures beginning { IfWriteFailed result (IfSome (R.remaining reader.old) (λ input.
        AppendsBeginning options.entry input (W.contents writer.old) (W.contents writer.new))) }
{
    let form = read_form(alloc, reader, any_order, options, uses)?;
    if !objects && is_object_file(&form.bytes) {
        return Err(Failure::ObjectFile);
    }
    match write_all(writer, &form.bytes) {
        Ok(()) => Ok(form.stale),
        Err(error) => Err(Failure::Write(error)),
    }
}

/// Reads a module, and returns the SHA-256 digest of its canonical form with these options. Notes which patterns match
/// its custom sections.
///
/// Fails as `canonicalise` does, but never with `Write` or `ObjectFile`.
pub fn hash<R: Input>(
    alloc: Global,
    reader: &mut R,
    any_order: bool,
    options: FormOptions<'_>,
    uses: &mut PatternUses<'_>,
) -> Result<[u8; 32], Failure>
    // The result is the digest of the canonical form of the input with these options.
    ensures ok { IfOk result (λ digest. IfSome (R.remaining reader.old) (λ input. IsHash options.entry input digest)) }
    // A refused input is malformed, and unless any order is allowed, the sections of an accepted one are in order.
    ensures accepts { IfSome (R.remaining reader.old) (λ input. Accepts any_order input (outcome_of result)) }
    // The section and the item that it names are numbered by those before them.
    ensures numbers { IfPlaced result (λ refusal. IfSome (R.remaining reader.old) (λ input.
        CountsParts module_section input refusal)) }
{
    let form = read_form(alloc, reader, any_order, options, uses)?;
    Ok(Sha256::digest(form.bytes.as_slice()))
}

/// A canonical form with options.
#[derive(Drop)]
struct Form {
    bytes: Vec<u8>,
    /// If bytes have moved, the names of the custom sections whose offsets are stale.
    stale: Vec<String>,
}

/// Reads a module, and returns its canonical form with these options. Notes which patterns match its custom sections.
#[tactic(auto, using(crate::proofs::ResultLaws::failed_to_read))]
fn read_form<R: Input>(
    alloc: Global,
    reader: &mut R,
    any_order: bool,
    options: FormOptions<'_>,
    uses: &mut PatternUses<'_>,
) -> Result<Form, Failure>
    ensures ok { IfOk result (λ form. IfSome (R.remaining reader.old) (λ input.
        IsForm options.entry input form.bytes.items)) }
    ensures stale { IfOk result (λ form. IfSome (R.remaining reader.old) (λ input.
        NamesStale options.entry input form.bytes.items form.stale.items)) }
    ensures accepts { IfSome (R.remaining reader.old) (λ input. Accepts any_order input (outcome_of result)) }
    ensures read_to_end { OnceAllIsRead result (IsAtEnd (R.remaining reader.new)) }
    ensures numbers { IfPlaced result (λ refusal. IfSome (R.remaining reader.old) (λ input.
        CountsParts module_section input refusal)) }
    ensures unwritten { NeverWrites result }
{
    let canonical = read_canonical(alloc, reader, any_order)?;
    uses.note_module(alloc, &canonical.bytes);
    let has_moved = canonical.has_moved;
    let hinted = with_hints(alloc, canonical)?;
    let chosen = choose_sections(hinted.bytes, options.sections);
    let len = chosen.len();
    let bytes = with_contents(alloc, chosen, options.names)?;
    let stale = stale_names(
        alloc,
        bytes.as_slice(),
        has_moved,
        bytes.len() != len,
        hinted.are_moved,
    )?;
    Ok(Form { bytes, stale })
}

/// Reads a module, and returns its canonical form.
///
/// Fails as `canonicalise` does, but never with `Write` or `ObjectFile`.
#[tactic(auto, using(crate::proofs::ResultLaws::failed_to_read))]
pub fn read_canonical<R: Input>(
    alloc: Global,
    reader: &mut R,
    any_order: bool,
) -> Result<Canonical, Failure>
    // The result is the canonical form of the input.
    ensures ok { IfOk result (λ form. IfSome (R.remaining reader.old) (λ input. IsCanonicalForm input form.bytes.items)) }
    // The code is that of the input, if it has branch hints.
    ensures code { IfOk result (λ form. IfSome (R.remaining reader.old) (λ input. HasCode input form.code)) }
    // `has_moved` tells whether it differs from the input.
    ensures moved { IfOk result (λ form. IfSome (R.remaining reader.old) (λ input.
        TellsMoved form.has_moved input form.bytes.items)) }
    // A refused input is malformed, and unless any order is allowed, the sections of an accepted one are in order.
    ensures accepts { IfSome (R.remaining reader.old) (λ input. Accepts any_order input (outcome_of result)) }
    // All of the input is read before it is refused.
    ensures read_to_end { OnceAllIsRead result (IsAtEnd (R.remaining reader.new)) }
    // The section and the item that it names are numbered by those before them.
    ensures numbers { IfPlaced result (λ refusal. IfSome (R.remaining reader.old) (λ input.
        CountsParts module_section input refusal)) }
    // The failure is neither `Write` nor `ObjectFile`.
    ensures unwritten { NeverWrites result }
{
    let input = read_all(alloc, reader)?;
    let canonical = canonical_of(alloc, input, any_order)?;
    Ok(canonical)
}

/// Rewrites a module to its canonical form, and notes what moves its branch hints.
///
/// Fails with `Refused`, `Disordered` and `Memory` as `canonicalise` does.
pub fn canonical_of(alloc: Global, input: Vec<u8>, any_order: bool) -> Result<Canonical, Failure>
    // The result is the canonical form of the input.
    ensures ok { IfOk result (λ form. IsCanonicalForm input.items form.bytes.items) }
    // The code is that of the input, if it has branch hints.
    ensures code { IfOk result (λ form. HasCode input.items form.code) }
    // `has_moved` tells whether it differs from the input.
    ensures moved { IfOk result (λ form. TellsMoved form.has_moved input.items form.bytes.items) }
    // A refused input is malformed, and unless any order is allowed, the sections of an accepted one are in order.
    ensures accepts { Accepts any_order input.items (outcome_of result) }
    // The section and the item that it names are numbered by those before them.
    ensures numbers { IfPlaced result (CountsParts module_section input.items) }
    // The failure is neither `Write` nor `ObjectFile`.
    ensures unwritten { NeverWrites result }
{
    // Rewriting takes the input, so the code that branch hints refer to is copied first.
    let code = HintedCode::of_module(alloc, &input)?;
    let len = input.len();
    let bytes = accept(alloc, input, any_order)?;
    let has_moved = bytes.len() != len;
    Ok(Canonical {
        bytes,
        has_moved,
        code,
    })
}

/// Reads a module, and rewrites it to its canonical form. Shows each section to the watcher before and after.
///
/// Sections before a malformed one are shown too. Fails as `canonicalise` does, but never with `Write` or `ObjectFile`.
#[tactic(auto, using(crate::proofs::ResultLaws::failed_to_read, crate::proofs::ResultLaws::accepted_in_order, crate::proofs::ResultLaws::refused_in_order))]
pub fn report<R: Input, S: SectionWatcher>(
    alloc: Global,
    reader: &mut R,
    any_order: bool,
    watcher: &mut S,
) -> Result<(), Failure>
    // The input is a module.
    ensures ok { OnOk result (IfSome (R.remaining reader.old) IsModule) }
    // A refused input is malformed, and unless any order is allowed, the sections of an accepted one are in order.
    ensures accepts { IfSome (R.remaining reader.old) (λ input. Accepts any_order input (outcome_of result)) }
    // The watcher is shown each section of the input.
    ensures shows { OnOk result (IfSome (R.remaining reader.old) (λ input.
        ShowsModule S.Sees S.Takes input watcher.old watcher.new)) }
{
    let input = read_all(alloc, reader)?;
    match check_order_unless(alloc, &input, any_order) {
        Ok(()) => show_sections(input, watcher),
        // A malformed module is refused all the same.
        Err(disorder) => {
            let _form = canonical_form(input)?;
            Err(disorder)
        }
    }
}

/// Reads a module, and checks whether it is its own canonical form. With `names`, the contents of its sections `name`
/// and `producers` must be minimally encoded too.
///
/// Fails as `canonicalise` does, but never with `Write` or `ObjectFile`.
#[tactic(auto, using(crate::proofs::ResultLaws::failed_to_read, crate::proofs::ResultLaws::refused_in_order))]
pub fn check<R: Input>(
    alloc: Global,
    reader: &mut R,
    any_order: bool,
    names: bool,
) -> Result<Verdict, Failure>
    // The verdict is right.
    ensures ok { IfOk result (λ verdict. IfSome (R.remaining reader.old) (λ input. IsVerdictOn names input verdict)) }
    // A refused input is malformed, and unless any order is allowed, the sections of an accepted one are in order.
    ensures accepts { IfSome (R.remaining reader.old) (λ input. Accepts any_order input (outcome_of result)) }
    // The section and the item that it names are numbered by those before them.
    ensures numbers { IfPlaced result (λ refusal. IfSome (R.remaining reader.old) (λ input.
        CountsParts module_section input refusal)) }
{
    let input = read_all(alloc, reader)?;
    let order = check_order_unless(alloc, &input, any_order);
    let verdict = verdict_on(alloc, input, names)?;
    order?;
    Ok(verdict)
}

/// Reads all bytes of a module, which may be malformed.
///
/// Fails with `Memory` if memory runs out, and with `Read` if a read fails.
pub fn read_input<R: Input>(alloc: Global, reader: &mut R) -> Result<Vec<u8>, Failure>
    // All bytes of the input are returned, if they are known.
    ensures all { IfOk result (λ bytes. IfSome (R.remaining reader.old) (λ input. bytes.items ≡ input)) }
    // The failure is `Memory` or `Read`.
    ensures failure { IfErr result IsReadFailure }
{
    read_all(alloc, reader)
}

/// Rewrites a module in place to its canonical form.
///
/// Fails with `Refused`, `Disordered` and `Memory` as `canonicalise` does.
#[tactic(auto, using(crate::proofs::ResultLaws::refused_in_order))]
pub fn accept(alloc: Global, input: Vec<u8>, any_order: bool) -> Result<Vec<u8>, Failure>
    // The result is the canonical form of the input.
    ensures ok { IfOk result (λ form. IsCanonicalForm input.items form.items) }
    // A refused input is malformed, and unless any order is allowed, the sections of an accepted one are in order.
    ensures accepts { Accepts any_order input.items (outcome_of result) }
    // The section and the item that it names are numbered by those before them.
    ensures numbers { IfPlaced result (CountsParts module_section input.items) }
    // The failure is neither `Write` nor `ObjectFile`.
    ensures unwritten { NeverWrites result }
{
    // Rewriting takes the input, so the order is checked first. A malformed module is refused all the same.
    let order = check_order_unless(alloc, &input, any_order);
    let form = canonical_form(input)?;
    order?;
    Ok(form)
}

/// Checks the order and the counts of a module's sections, unless any order is allowed. Accepts a malformed module.
#[tactic(auto, using(crate::proofs::ResultLaws::not_checked))]
fn check_order_unless(alloc: Global, input: &[u8], any_order: bool) -> Result<(), Failure>
    ensures accepts { Accepts any_order input.now (outcome_of result) }
    ensures placed { IfPlaced result (λ _. ⊥) }
    ensures unwritten { NeverWrites result }
{
    if any_order {
        Ok(())
    } else {
        check_sections(alloc, input)
    }
}

/// Checks whether a module is its own canonical form, with `names` down to the contents of `name` and `producers`.
/// Rewrites it in place.
#[tactic(auto, using(crate::proofs::ResultLaws::contents_checked, crate::proofs::ResultLaws::longer_checked, crate::proofs::ResultLaws::placed))]
fn verdict_on(alloc: Global, input: Vec<u8>, names: bool) -> Result<Verdict, Failure>
    ensures ok { IfOk result (IsVerdictOn names input.items) }
    ensures accepts { Accepts true input.items (outcome_of result) }
    ensures numbers { IfPlaced result (CountsParts module_section input.items) }
{
    match rewrite_and_check_whole_module(input) {
        Ok(checked) => match checked.longer {
            None => {
                // The module is unchanged.
                let verdict = verdict_on_contents(alloc, &checked.bytes, names)?;
                Ok(verdict)
            }
            Some(refusal) => Ok(Verdict::Longer(refusal)),
        },
        Err(DecodeError::Memory) => Err(Failure::Memory),
        Err(DecodeError::Malformed(broken)) => Err(Failure::Refused(broken)),
    }
}

/// Rewrites a module, and shows each section to the watcher before and after.
fn show_sections<S: SectionWatcher>(input: Vec<u8>, watcher: &mut S) -> Result<(), Failure>
    ensures ok { OnOk result (IsModule input.items) }
    ensures shows { OnOk result (ShowsModule S.Sees S.Takes input.items watcher.old watcher.new) }
    ensures accepts { Accepts true input.items (outcome_of result) }
{
    let mut input = input;
    match rewrite_watched(input.as_mut_slice(), watcher) {
        Ok(_) => Ok(()),
        Err(DecodeError::Memory) => Err(Failure::Memory),
        Err(DecodeError::Malformed(malformed)) => Err(Failure::Refused(malformed)),
    }
}

/// Rewrites a module in place to its canonical form.
#[tactic(auto, using(crate::proofs::ResultLaws::placed))]
fn canonical_form(input: Vec<u8>) -> Result<Vec<u8>, Failure>
    ensures ok { IfOk result (λ canonical. IsCanonicalForm input.items canonical.items) }
    ensures accepts { Accepts true input.items (outcome_of result) }
    ensures numbers { IfPlaced result (CountsParts module_section input.items) }
    ensures unwritten { NeverWrites result }
{
    match rewrite::<WholeModule>(input) {
        Ok(canonical) => Ok(canonical),
        Err(DecodeError::Memory) => Err(Failure::Memory),
        Err(DecodeError::Malformed(refusal)) => Err(Failure::Refused(refusal)),
    }
}

/// Reads all of the input.
fn read_all<R: Input>(alloc: Global, reader: &mut R) -> Result<Vec<u8>, Failure>
    // All bytes of the input are returned, if they are known.
    ensures all { IfOk result (λ bytes. IfSome (R.remaining reader.old) (λ input. bytes.items ≡ input)) }
    // No byte is left.
    ensures end { OnOk result (IsAtEnd (R.remaining reader.new)) }
    // The failure is `Memory` or `Read`.
    ensures failure { IfErr result IsReadFailure }
{
    let mut bytes = Vec::new(alloc);
    if let Some(len) = reader.expected_len() {
        // The last read, which finds the end, needs room too. Without memory for all, the list grows with the input.
        let _ = bytes.reserve_exact(len.saturating_add(1));
    }
    match reader.read_to_end(&mut bytes) {
        Ok(_) => Ok(bytes),
        Err(error) if error.kind() == ErrorKind::OutOfMemory => Err(Failure::Memory),
        Err(error) => Err(Failure::Read(error)),
    }
}
