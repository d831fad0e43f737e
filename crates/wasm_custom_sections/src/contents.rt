//! Modules whose custom sections `name` and `producers` have minimally encoded contents.
ghost use Rattle.std.specs.Prelude.{◌≡◌, ◌≤◌, ℕ, List, true, false, IfOk, IfErr, IfSome, IfNone, length, take};
ghost use Rattle.wasm_codec.specs.Lawful.{IsLawful, IsLawfulBody};
ghost use Rattle.wasm_codec.specs.Outcomes.{EncodesSome, LiesIn, as_read};
ghost use Rattle.wasm_codec.specs.Rewriter.{Rewrites};
ghost use Rattle.wasm_codec.specs.formats.Combinators.{◌⊗◌};
ghost use Rattle.wasm_externals.specs.formats.Names.{name};
ghost use Rattle.wasm_code.specs.formats.Modules.{raw_module};
ghost use Rattle.wasm_code.specs.formats.Sections.{SectionParts, parts_of};
ghost use Rattle.wasm_sections.specs.formats.ModuleSections.{KeepsMinimal};
ghost use Rattle.wasm_custom_sections.specs.MinimalContents.{DecodesNext, IsDecodedAs, MinimisesContents, MinimisesNext, MinimisesRest, RewritesContents, section_with};
ghost use Rattle.wasm_custom_sections.specs.formats.NameParts.{SubsectionParts};
ghost use Rattle.wasm_custom_sections.specs.formats.Names.{name_data};

use crate::names::{AnySubsection, NameSection};
use crate::producers::{Producers, ProducersSection};
use std::alloc::{AllocError, Global};
use std::marker::PhantomData;
use wasm_code::decode::{Decode, normalise};
use wasm_code::raw::{after_header, read_section, rewrite_raw_module, rewrite_raw_section};
use wasm_code::section::{HEADER, RawSection};
use wasm_codec::reader::DecodeError;
use wasm_codec::reader::cursor::{Cursor, Fault};
use wasm_codec::reader::malformed::Construct;
use wasm_codec::rewriter::{Finished, Rewriter};
use wasm_externals::names::rewrite_name;
use wasm_lists::readable::Item;
use wasm_lists::rewriting::{RewritableBody, rewrite_sized, rewrite_to_end};
use wasm_sections::bodies::ListOf;
use wasm_sections::custom::read_custom;

/// Replaces the contents of a module's custom sections `name` and `producers` by their minimal encoding.
///
/// Malformed contents stay as they are, and so do the bodies of other sections. The sizes of sections get their minimal
/// encoding. It works in place, and copies the contents of one section at a time. Fails with `Refused` as
/// `read_module` does, and with `Memory` if there is no memory for a copy.
pub fn rewrite_module_contents(alloc: Global, bytes: Vec<u8>) -> Result<Vec<u8>, DecodeError>
    ensures rewrites { RewritesContents bytes.items (as_read result) }
    ensures place { IfErr result (LiesIn (length bytes.items)) }
{
    let mut bytes = bytes;
    match rewrite_raw_module(bytes.as_mut_slice()) {
        Ok(len) => {
            bytes.truncate(len);
            let minimal = rewrite_contents(alloc, bytes)?;
            Ok(minimal)
        }
        Err(error) => Err(error),
    }
}

/// Replaces the contents of a well-formed module's custom sections `name` and `producers` as `rewrite_module_contents`
/// does. A malformed module becomes empty.
///
/// Fails if there is no memory for a copy of one section's contents.
pub fn rewrite_contents(alloc: Global, bytes: Vec<u8>) -> Result<Vec<u8>, AllocError>
    ensures ok { IfOk result (λ minimal. MinimisesContents bytes.items minimal.items) }
    ensures minimal { IfOk result (λ minimal. KeepsMinimal bytes.items minimal.items) }
{
    let mut bytes = bytes;
    let len = minimise_contents(alloc, bytes.as_mut_slice())?;
    bytes.truncate(len);
    Ok(bytes)
}

/// Does the same on a slice. Returns the length of the result, which begins the slice.
fn minimise_contents(alloc: Global, bytes: &mut [u8]) -> Result<usize, AllocError>
    ensures len { IfOk result (λ len. len ≤ length bytes.new) }
    ensures ok { IfOk result (λ len. MinimisesContents bytes.old (take len bytes.new)) }
{
    let Minimised { bytes: _bytes, len } = minimise_slice(alloc, bytes);
    let found = len?;
    match found {
        Some(len) => Ok(len),
        None => Ok(0),
    }
}

/// A slice with minimal contents.
#[derive(Drop)]
struct Minimised<'a> {
    /// The slice.
    bytes: &'a mut [u8],
    /// Length in bytes of the module with minimal contents. `None` means that the module is malformed.
    len: Result<Option<usize>, AllocError>,
}

/// Rewrites the sections, and returns the same slice.
fn minimise_slice<'a>(alloc: Global, bytes: &'a mut [u8]) -> Minimised<'a>
    ensures same_reference { IfOk result.len (λ found. IfSome found (λ _. result.bytes.ghost_name ≡ bytes.entry.ghost_name)) }
    ensures len { IfOk result.len (λ found. IfSome found (λ len. len ≤ length result.bytes.now)) }
    ensures ok { IfOk result.len (λ found. IfSome found (λ len. MinimisesContents bytes.old (take len result.bytes.now))) }
    ensures none { IfOk result.len (λ found. IfNone found ((sections : List SectionParts) → raw_module.Encodes bytes.old sections → ⊥)) }
{
    let Some(_sections) = after_header(bytes) else {
        return Minimised {
            bytes,
            len: Ok(None),
        };
    };
    let mut rewriter = Rewriter::new(bytes);
    rewriter.skip(HEADER.len());
    match rewrite_sections(alloc, &mut rewriter) {
        Ok(true) => {
            let Finished { bytes, len } = rewriter.finish();
            Minimised {
                bytes,
                len: Ok(Some(len)),
            }
        }
        Ok(false) => Minimised {
            bytes: rewriter.finish().bytes,
            len: Ok(None),
        },
        Err(error) => Minimised {
            bytes: rewriter.finish().bytes,
            len: Err(error),
        },
    }
}

/// Rewrites the sections up to the end. Returns `false` at a malformed one.
fn rewrite_sections(alloc: Global, rewriter: &mut Rewriter) -> Result<bool, AllocError>
    ensures rest { MinimisesRest rewriter.old rewriter.new result }
{
    while rewriter.len() > 0 {
        rewriter.are_bytes();
        match rewrite_next(alloc, rewriter) {
            Ok(()) => {}
            Err(Fault::Memory) => return Err(AllocError),
            Err(Fault::Malformed(_)) => return Ok(false),
        }
    }
    Ok(true)
}

/// Rewrites the next section: its size, and its contents if they are decoded.
///
/// Fails with `Malformed` if there is no section, and with `Memory` if there is no memory for a copy of its contents.
#[tactic(auto, using(crate::proofs::ContentsLaws::names_written, crate::proofs::ContentsLaws::producers_written, crate::proofs::ContentsLaws::other_written))]
fn rewrite_next(alloc: Global, rewriter: &mut Rewriter) -> Result<(), Fault>
    ensures next { MinimisesNext rewriter.old rewriter.new result }
{
    rewriter.are_bytes();
    match next_contents(alloc, rewriter.left())? {
        Some(Decoded::Names) => rewrite_with::<Subsections>(rewriter),
        Some(Decoded::Producers) => rewrite_with::<ListOf<Item<'static, Producers<'static>>>>(
            rewriter,
        ),
        None => rewrite_raw_section(rewriter),
    }
}

/// A custom section whose contents are decoded.
#[derive(Clone, Copy)]
pub enum Decoded {
    /// A section `name`.
    Names,
    /// A section `producers`.
    Producers,
}

/// Returns how the contents of the section are decoded that the bytes begin with, if they are.
fn next_contents(alloc: Global, bytes: &[u8]) -> Result<Option<Decoded>, AllocError>
    ensures next { IfOk result (DecodesNext bytes.now) }
{
    let mut cursor = Cursor::new(bytes);
    match read_section(&mut cursor) {
        Ok(section) => contents_of(alloc, section),
        Err(_) => Ok(None),
    }
}

/// Returns how the contents of a section are decoded. `None` means that they are malformed or the section has another
/// name.
///
/// Fails if there is no memory for a copy of the contents.
pub fn contents_of(alloc: Global, section: RawSection<'_>) -> Result<Option<Decoded>, AllocError>
    ensures contents { IfOk result (IsDecodedAs (parts_of section.entry)) }
{
    if section.id != 0 {
        return Ok(None);
    }
    let Ok(custom) = read_custom(section.body) else {
        return Ok(None);
    };
    match custom.name {
        "name" => {
            let decodes = decodes::<NameSection>(alloc, custom.bytes)?;
            Ok(if decodes { Some(Decoded::Names) } else { None })
        }
        "producers" => {
            let decodes = decodes::<ProducersSection<'_>>(alloc, custom.bytes)?;
            Ok(if decodes {
                Some(Decoded::Producers)
            } else {
                None
            })
        }
        _ => Ok(None),
    }
}

/// Checks whether contents decode. Fails if there is no memory for a copy.
fn decodes<'a, T: Decode<'a>>(alloc: Global, bytes: &[u8]) -> Result<bool, AllocError>
    ensures yes { IfOk result (λ decodes. decodes ≡ true → EncodesSome T.format.Encodes bytes.now) }
    ensures no { IfOk result (λ decodes. decodes ≡ false → EncodesSome T.format.Encodes bytes.now → ⊥) }
{
    match normalise::<T>(alloc, bytes) {
        Ok(_) => Ok(true),
        Err(DecodeError::Malformed(_)) => Ok(false),
        Err(DecodeError::Memory) => Err(AllocError),
    }
}

/// Rewrites a section with these contents.
fn rewrite_with<T: RewritableBody>(rewriter: &mut Rewriter) -> Result<(), Fault>
    ensures lawful { IsLawfulBody T.format }
    ensures rewrites { Rewrites (section_with T.format) rewriter.old rewriter.new result }
{
    T::is_lawful();
    let _id = rewriter.byte_of(Construct::SectionId)?;
    rewrite_sized::<Named<T>>(rewriter)
}

/// A name, and contents to the end.
struct Named<T: RewritableBody> {
    _contents: PhantomData<T>,
}

impl<T: RewritableBody> RewritableBody for Named<T> {
    ghost Value = { List ℕ × T.Value };

    ghost format = { name ⊗ T.format };

    #[inline(always)]
    fn is_lawful() {
        T::is_lawful();
    }

    #[tactic(auto, using(std::proofs::Common::append_assoc))]
    fn rewrite(rewriter: &mut Rewriter) -> Result<(), Fault> {
        rewrite_name(rewriter)?;
        T::rewrite(rewriter)
    }
}

/// The subsections of a section `name`.
struct Subsections;

impl RewritableBody for Subsections {
    ghost Value = { List SubsectionParts };

    ghost format = { name_data };

    #[inline(always)]
    #[tactic(auto, using(crate::proofs::SubsectionLaws::name_data_is_lawful))]
    fn is_lawful() {}

    fn rewrite(rewriter: &mut Rewriter) -> Result<(), Fault> {
        rewrite_to_end::<AnySubsection>(rewriter)
    }
}
