//! Modules with every section decoded (Core 3.0, Modules).
ghost use Rattle.std.specs.Prelude.{◌≡◌, ◌≤◌, List, IfOk, IfErr, IfSome, length, take};
ghost use Rattle.std.specs.List.{AllByRecursion};
ghost use Rattle.wasm_codec.specs.Outcomes.{IfMalformed, LiesIn, as_decoded, as_read, NeedsNoMemory};
ghost use Rattle.wasm_codec.specs.formats.Combinators.{minimal_if, minimal_only};
ghost use Rattle.wasm_code.specs.Longer.{len_of, verdict_of, RefusalLiesIn};
ghost use Rattle.wasm_modules.specs.Longer.{form_of};
ghost use Rattle.wasm_code.specs.Modules.{CountsSections, IsModulePrefixOf};
ghost use Rattle.wasm_modules.specs.RefusalNumbers.{CountsParts};
ghost use Rattle.wasm_sections.specs.formats.ModuleSectionParts.{ModuleSectionParts, all_module_section_parts};
ghost use Rattle.wasm_sections.specs.formats.ModuleSections.{module_section, whole_module, MinimalWholeModule};
ghost use Rattle.wasm_codec.specs.Decoding.{Decodes, DecodesMinimal, Checks, Normalises, NormalisesInPlace, NormalisesTo, ChecksAll, RewritesInPlace, TakesMinimal};
ghost use Rattle.wasm_codec.specs.Lawful.{IsLawfulBody};
ghost use Rattle.wasm_code.specs.DecodedPrefixes.{ArePrefixes};

pub use crate::counting::ItemCounts;
pub use crate::order::{ModuleError, check_order};
use std::alloc::Global;
use wasm_code::decode::{Decode, check, normalise, read, read_strict, rewrite};
pub use wasm_code::longer::CheckedInPlace;
use wasm_code::longer::rewrite_and_check_module_of;
use wasm_code::normaliser::framing::rewrite_module_of;
use wasm_code::raw::{check_module_of, read_module_of};
use wasm_codec::reader::refusal::Refusal;
use wasm_codec::reader::{DecodeError, ReadError, without_memory, without_reason};
use wasm_sections::module_sections::{AnySection, ModuleSection};

/// A module with every section decoded (Core 3.0, Modules).
///
/// `read::<WholeModule>` returns its sections. They come in any order and any number of times: `check_order` tells whether
/// they make a module. `at` of a refusal is the offset of the first malformed section, or 0 if the header is missing.
///
/// # Examples
///
/// ```
/// # use wasm_encoder::{WholeModule, normalise};
/// let padded = b"\0asm\x01\0\0\0\x0c\x82\x00\x80\x00"; // a data count of 0 in two bytes
/// let minimal = normalise::<WholeModule>(rt.alloc(), padded)?;
/// assert_eq!(rt; minimal.as_slice(), b"\0asm\x01\0\0\0\x0c\x01\x00".as_slice());
/// ```
pub struct WholeModule;

impl<'a> Decode<'a> for WholeModule {
    type Output = Vec<ModuleSection<'a>>;

    ghost Value = { List ModuleSectionParts };

    ghost view = { λ sections. all_module_section_parts sections.items };

    ghost format = { whole_module };

    ghost Minimal = { MinimalWholeModule };

    ghost IsPrefix = { IsModulePrefixOf module_section };

    ghost IsMinimalPrefix = { IsModulePrefixOf (minimal_only module_section) };

    ghost Counts = { λ strict. CountsParts (minimal_if strict module_section) };

    #[inline(always)]
    #[tactic(auto, using(wasm_sections::proofs::ModuleSectionLaws::whole_module_is_lawful))]
    fn is_lawful()
        ensures lawful { IsLawfulBody whole_module }
        ensures minimal { TakesMinimal whole_module MinimalWholeModule }
        ensures prefixes { ArePrefixes whole_module.Encodes (IsModulePrefixOf module_section) }
        ensures minimal_prefixes { ArePrefixes MinimalWholeModule (IsModulePrefixOf (minimal_only module_section)) }
    {}

    #[tactic(auto, using(crate::proofs::RefusalLaws::counts_parts))]
    fn read_all(alloc: Global, bytes: &'a [u8]) -> Result<Vec<ModuleSection<'a>>, DecodeError> {
        read_module_of::<ModuleSection<'_>, false>(alloc, bytes)
    }

    #[tactic(auto, using(crate::proofs::RefusalLaws::counts_parts))]
    fn read_all_strict(
        alloc: Global,
        bytes: &'a [u8],
    ) -> Result<Vec<ModuleSection<'a>>, DecodeError> {
        read_module_of::<ModuleSection<'_>, true>(alloc, bytes)
    }

    #[tactic(auto, using(crate::proofs::RefusalLaws::counts_parts))]
    fn check_all(alloc: Global, bytes: &[u8]) -> Result<(), DecodeError>
        ensures checks { ChecksAll MinimalWholeModule (IsModulePrefixOf (minimal_only module_section)) bytes.now (as_read result) }
        ensures place { IfErr result (LiesIn (length bytes.now)) }
        ensures counts { IfMalformed result (CountsParts (minimal_only module_section) bytes.now) }
    {
        check_module_of::<AnySection>(alloc, bytes)
    }

    #[tactic(auto, using(crate::proofs::RefusalLaws::counts_parts))]
    fn rewrite_all(bytes: &mut [u8]) -> Result<usize, DecodeError>
        ensures len { IfOk result (λ len. len ≤ length bytes.new) }
        ensures rewrites { RewritesInPlace whole_module (IsModulePrefixOf module_section) bytes.old bytes.new (as_read result) }
        ensures memory { NeedsNoMemory (as_read result) }
        ensures place { IfErr result (LiesIn (length bytes.old)) }
        ensures counts { IfMalformed result (CountsParts module_section bytes.old) }
    {
        rewrite_module_of::<AnySection>(bytes)
    }
}

/// Reads a module and decodes every section, in any encoding (Core 3.0, Modules).
///
/// Sections may come in any order, and more than once: `check_order` checks that. Fails with `Refused` if the bytes are
/// malformed: `at` is the offset of the first malformed section, or 0 if the header is missing. A section is malformed
/// if its id is above 13 or its body doesn't decode. Fails with `Memory` if an allocation fails.
///
/// # Examples
///
/// ```
/// # use wasm_encoder::{ModuleSection, read_whole_module};
/// let bytes = b"\0asm\x01\0\0\0\x08\x82\x00\x85\x00"; // a start section; its size and its index are padded
/// let sections = read_whole_module(rt.alloc(), bytes)?;
/// assert!(rt; matches!(sections.as_slice(), [ModuleSection::Start(5)]));
/// ```
pub fn read_whole_module<'a>(
    alloc: Global,
    bytes: &'a [u8],
) -> Result<Vec<ModuleSection<'a>>, ReadError>
    ensures decodes { Decodes (λ sections. all_module_section_parts sections.items) whole_module (IsModulePrefixOf module_section) bytes.now result }
{
    without_reason(read::<WholeModule>(alloc, bytes))
}

/// Reads a minimally encoded module and decodes every section (Core 3.0, Modules).
///
/// Fails with `Refused` at the offset of the first section that is malformed or not minimally encoded, or at 0 if the
/// header is missing. Fails with `Memory` if an allocation fails.
///
/// # Examples
///
/// ```
/// # use wasm_encoder::{ReadError, read_whole_module_strict};
/// let minimal = b"\0asm\x01\0\0\0\x08\x01\x05";
/// assert_eq!(rt; read_whole_module_strict(rt.alloc(), minimal)?.len(), 1);
/// let padded = b"\0asm\x01\0\0\0\x08\x81\x00\x05"; // the size 1 in two bytes
/// let refused = read_whole_module_strict(rt.alloc(), padded);
/// assert!(rt; matches!(refused, Err(ReadError::Refused { at: 8 })));
/// ```
pub fn read_whole_module_strict<'a>(
    alloc: Global,
    bytes: &'a [u8],
) -> Result<Vec<ModuleSection<'a>>, ReadError>
    ensures decodes { DecodesMinimal (λ sections. all_module_section_parts sections.items) whole_module MinimalWholeModule (IsModulePrefixOf (minimal_only module_section)) bytes.now result }
{
    without_reason(read_strict::<WholeModule>(alloc, bytes))
}

/// Checks that a module and all its sections are minimally encoded (Core 3.0, Modules).
///
/// Accepts and refuses as `read_whole_module_strict` does, but builds no list of sections. Fails with `Memory` if an
/// allocation fails.
pub fn check_whole_module(alloc: Global, bytes: &[u8]) -> Result<(), ReadError>
    ensures checks { Checks whole_module MinimalWholeModule (IsModulePrefixOf (minimal_only module_section)) bytes.now result }
{
    without_reason(check::<WholeModule>(alloc, bytes))
}

/// Returns the minimal encoding of a module: of every number, size, type and index in every section (Core 3.0,
/// Modules).
///
/// Fails with `Refused` as `read_whole_module` does, and with `Memory` if the bytes can't be copied.
///
/// # Examples
///
/// ```
/// # use wasm_encoder::normalise_whole_module;
/// let padded = b"\0asm\x01\0\0\0\x08\x82\x00\x85\x00";
/// let minimal = normalise_whole_module(rt.alloc(), padded)?;
/// assert_eq!(rt; minimal.as_slice(), b"\0asm\x01\0\0\0\x08\x01\x05".as_slice());
/// ```
pub fn normalise_whole_module(alloc: Global, bytes: &[u8]) -> Result<Vec<u8>, ReadError>
    ensures normalises { Normalises whole_module MinimalWholeModule (IsModulePrefixOf module_section) bytes.now result }
    // The minimal encoding of sections in range encodes them.
    ensures encodes { (sections : List ModuleSectionParts) → AllByRecursion module_section.InRange sections →
        bytes.now ≡ whole_module.bytes sections → whole_module.Encodes bytes.now sections }
{
    without_reason(normalise::<WholeModule>(alloc, bytes))
}

/// Replaces a module by its minimal encoding in place (Core 3.0, Modules).
///
/// Fails with `Refused` as `read_whole_module` does. Allocates nothing.
///
/// # Examples
///
/// ```
/// # use wasm_encoder::sections::rewrite_whole_module;
/// let padded = Vec::from_slice(rt.alloc(), b"\0asm\x01\0\0\0\x08\x82\x00\x85\x00")?;
/// let minimal = rewrite_whole_module(padded)?;
/// assert_eq!(rt; minimal.as_slice(), b"\0asm\x01\0\0\0\x08\x01\x05".as_slice());
/// ```
pub fn rewrite_whole_module(bytes: Vec<u8>) -> Result<Vec<u8>, ReadError>
    ensures normalises { NormalisesInPlace whole_module (IsModulePrefixOf module_section) bytes.items result }
{
    without_reason(rewrite::<WholeModule>(bytes))
}

/// The minimal encoding of a module, and what the module was.
///
/// # Examples
///
/// ```
/// # use wasm_encoder::sections::{CheckedModule, rewrite_and_check_whole_module};
/// let module = Vec::from_slice(rt.alloc(), b"\0asm\x01\0\0\0")?;
/// let CheckedModule { bytes, longer } = rewrite_and_check_whole_module(module)?;
/// assert!(rt; bytes.len() == 8 && longer.is_none());
/// ```
#[derive(Debug, PartialEq, Eq, Drop)]
pub struct CheckedModule {
    /// The minimal encoding.
    pub bytes: Vec<u8>,
    /// The first part of the module that wasn't minimally encoded. Its `at` is the offset of the first such section.
    /// `None` means that the module was minimally encoded, and is unchanged.
    pub longer: Option<Refusal>,
}

/// Replaces a module by its minimal encoding in place, and tells whether it was minimally encoded (Core 3.0, Modules).
///
/// If it was, the bytes are unchanged. Fails with `Malformed` as `rewrite::<WholeModule>` does. Allocates nothing.
///
/// # Examples
///
/// ```
/// # use wasm_encoder::Reason;
/// # use wasm_encoder::sections::rewrite_and_check_whole_module;
/// let padded = Vec::from_slice(rt.alloc(), b"\0asm\x01\0\0\0\x08\x02\x85\x00")?; // the index 5 in two bytes
/// let checked = rewrite_and_check_whole_module(padded)?;
/// assert_eq!(rt; checked.bytes.as_slice(), b"\0asm\x01\0\0\0\x08\x01\x05".as_slice());
/// let reason = checked.longer.map(|refusal| (refusal.offset, refusal.reason));
/// assert_eq!(rt; reason, Some((10, Reason::NotMinimal { bytes: 2, minimal: 1 })));
/// assert!(rt; rewrite_and_check_whole_module(checked.bytes)?.longer.is_none());
/// ```
pub fn rewrite_and_check_whole_module(bytes: Vec<u8>) -> Result<CheckedModule, DecodeError>
    ensures normalises { NormalisesInPlace whole_module (IsModulePrefixOf module_section) bytes.items (form_of result) }
    // The result is that of `check_whole_module`.
    ensures checks { IfOk result (λ checked. Checks whole_module MinimalWholeModule (IsModulePrefixOf (minimal_only module_section)) bytes.items (verdict_of checked.longer)) }
    ensures place { IfErr result (LiesIn (length bytes.items)) }
    ensures within { IfOk result (λ checked. IfSome checked.longer (RefusalLiesIn (length bytes.items))) }
    ensures counts { IfMalformed result (CountsParts module_section bytes.items) }
    // The section of the first part that isn't minimal counts the sections before it, which are minimally encoded.
    ensures numbers { IfOk result (λ checked. IfSome checked.longer (CountsSections (minimal_only module_section) bytes.items)) }
{
    let mut bytes = bytes;
    match rewrite_and_check_module_of::<AnySection>(bytes.as_mut_slice()) {
        Ok(CheckedInPlace { len, longer }) => {
            bytes.truncate(len);
            Ok(CheckedModule { bytes, longer })
        }
        Err(error) => Err(error),
    }
}

/// Replaces a module by its minimal encoding in place, as [`rewrite_and_check_whole_module`] does. The minimal encoding
/// begins the slice.
///
/// If it fails, the bytes are unspecified. Allocates nothing.
///
/// # Examples
///
/// ```
/// # use wasm_encoder::sections::rewrite_and_check_in_place;
/// let mut bytes = *b"\0asm\x01\0\0\0\x08\x02\x85\x00"; // the index 5 in two bytes
/// let checked = rewrite_and_check_in_place(&mut bytes)?;
/// assert_eq!(rt; &bytes[..checked.len], b"\0asm\x01\0\0\0\x08\x01\x05".as_slice());
/// assert_eq!(rt; checked.longer.map(|refusal| refusal.offset), Some(10));
/// ```
pub fn rewrite_and_check_in_place(bytes: &mut [u8]) -> Result<CheckedInPlace, Refusal>
    ensures len { IfOk result (λ checked. checked.len ≤ length bytes.new) }
    ensures normalises { NormalisesTo whole_module (IsModulePrefixOf module_section) bytes.old (λ len. take len bytes.new) (len_of (as_decoded result)) }
    // The result is that of `check_whole_module`.
    ensures checks { IfOk result (λ checked. Checks whole_module MinimalWholeModule (IsModulePrefixOf (minimal_only module_section)) bytes.old (verdict_of checked.longer)) }
    ensures place { IfErr (as_decoded result) (LiesIn (length bytes.old)) }
    ensures within { IfOk result (λ checked. IfSome checked.longer (RefusalLiesIn (length bytes.old))) }
    ensures counts { IfMalformed (as_decoded result) (CountsParts module_section bytes.old) }
    // The section of the first part that isn't minimal counts the sections before it, which are minimally encoded.
    ensures numbers { IfOk result (λ checked. IfSome checked.longer (CountsSections (minimal_only module_section) bytes.old)) }
{
    without_memory(rewrite_and_check_module_of::<AnySection>(bytes))
}
