//! What is decoded from all of its bytes, and the five calls that read, check and normalise it.
//!
//! The type that builds a section is the type that decodes its body: `read::<ExportSection>(alloc, body)` returns the
//! exports, and so on. [`Instructions`] stands for a list of instructions, [`Module`] for a module with undecoded sections,
//! and `WholeModule` for one with every section decoded. Implement [`Decode`] for a type of your own.
ghost use Rattle.std.specs.Prelude.{List, true, false, IfErr, length, ◌≤◌, IfOk};
ghost use Rattle.wasm_codec.specs.Outcomes.{IfMalformed, LiesIn, as_read, NeedsNoMemory, EncodesSome};
ghost use Rattle.wasm_codec.specs.Decoding.{TakesMinimal, ChecksAll, RewritesInPlace};
ghost use Rattle.wasm_codec.specs.Lawful.{IsLawfulBody};
ghost use Rattle.wasm_codec.specs.formats.Bodies.{to_end};
ghost use Rattle.wasm_codec.specs.formats.Combinators.{minimal_if, minimal_only};
ghost use Rattle.wasm_codec.specs.Lists.{CountsItems};
ghost use Rattle.wasm_types.specs.declared.types.recursive.TypeEntry.{TypeEntry};
ghost use Rattle.wasm_types.specs.formats.Types.{recursive_type, type_body, IsTypeBodyPrefix, MinimalTypeBody, IsMinimalTypeBodyPrefix};
ghost use Rattle.wasm_instructions.specs.formats.Instructions.{Instruction, Instructions as InstructionList, MinimalInstructions, instruction};
ghost use Rattle.wasm_code.specs.declared.code.CodeBody.{CodeBody};
ghost use Rattle.wasm_code.specs.formats.CodeBodies.{code_body, code_section_body, IsCodeSectionBodyPrefix, MinimalCodeSectionBody, IsMinimalCodeSectionBodyPrefix};
ghost use Rattle.wasm_code.specs.formats.Sections.{SectionParts, all_parts_of};
ghost use Rattle.wasm_code.specs.formats.Modules.{raw_module, raw_section, MinimalModule};
ghost use Rattle.wasm_code.specs.Modules.{CountsSections, IsModulePrefix, IsMinimalModulePrefix};
ghost use Rattle.wasm_code.specs.DecodedPrefixes.{ArePrefixes};

use crate::code::CodeSection;
use crate::raw::RawSection;
use crate::type_section::TypeSection;
use crate::wasm_core::Module;
use std::alloc::Global;
use wasm_code::code::CodeBody;
pub use wasm_code::decode::{
    Decode, check, normalise, read, read_strict, rewrite, rewrite_in_place,
};
use wasm_code::raw::{check_raw_module, read_module_of, rewrite_raw_module};
use wasm_codec::reader::DecodeError;
use wasm_instructions::reader::lists::read_calls_to_end;
use wasm_instructions::table::Call;
use wasm_lists::checking::{check_items_to_end, check_list_to_end};
use wasm_lists::reading::read_list_to_end;
use wasm_lists::rewriting::{rewrite_items_to_end, rewrite_list_to_end};
use wasm_types::types::TypeEntry;

/// A list of instructions with nothing between them and nothing after them (Core 3.0, Instructions).
///
/// # Examples
///
/// ```
/// # use wasm_encoder::{Instructions, check, read};
/// let calls = read::<Instructions>(rt.alloc(), b"\x20\xc2\x80\x00\x0b")?; // local.get 66, end
/// assert_eq!(rt; calls.len(), 2);
/// let padded = check::<Instructions>(rt.alloc(), b"\x20\xc2\x80\x00\x0b");
/// assert_eq!(rt; padded.err().and_then(|error| error.at()), Some(0));
/// ```
pub struct Instructions;

impl<'a> Decode<'a> for Instructions {
    type Output = Vec<Call>;

    ghost Value = { List Instruction };

    ghost view = { λ calls. calls.items };

    ghost format = { to_end instruction };

    ghost Minimal = { MinimalInstructions };

    ghost IsPrefix = { EncodesSome InstructionList };

    ghost IsMinimalPrefix = { EncodesSome MinimalInstructions };

    #[inline(always)]
    fn is_lawful() {}

    #[tactic(auto, using(wasm_codec::proofs::ListReading::none_within))]
    fn read_all(alloc: Global, bytes: &'a [u8]) -> Result<Vec<Call>, DecodeError> {
        read_calls_to_end::<false>(alloc, bytes)
    }

    #[tactic(auto, using(wasm_codec::proofs::ListReading::none_within))]
    fn read_all_strict(alloc: Global, bytes: &'a [u8]) -> Result<Vec<Call>, DecodeError> {
        read_calls_to_end::<true>(alloc, bytes)
    }

    #[tactic(auto, using(wasm_codec::proofs::ListReading::none_within))]
    fn check_all(alloc: Global, bytes: &[u8]) -> Result<(), DecodeError> {
        check_items_to_end::<Call>(alloc, bytes)
    }

    #[tactic(auto, using(wasm_codec::proofs::ListReading::none_within))]
    fn rewrite_all(bytes: &mut [u8]) -> Result<usize, DecodeError> {
        rewrite_items_to_end::<Call>(bytes)
    }
}

impl<'a> Decode<'a> for TypeSection {
    type Output = Vec<TypeEntry>;

    ghost Value = { List TypeEntry };

    ghost view = { λ entries. entries.items };

    ghost format = { type_body };

    ghost Minimal = { MinimalTypeBody };

    ghost IsPrefix = { IsTypeBodyPrefix };

    ghost IsMinimalPrefix = { IsMinimalTypeBodyPrefix };

    ghost Counts = { λ strict. CountsItems strict recursive_type };

    #[inline(always)]
    fn is_lawful() {}

    #[tactic(auto, unfolding(wasm_types::specs::formats::Types::type_body))]
    fn read_all(alloc: Global, bytes: &'a [u8]) -> Result<Vec<TypeEntry>, DecodeError> {
        read_list_to_end::<TypeEntry, false>(alloc, bytes)
    }

    #[tactic(auto, unfolding(wasm_types::specs::formats::Types::type_body))]
    fn read_all_strict(alloc: Global, bytes: &'a [u8]) -> Result<Vec<TypeEntry>, DecodeError> {
        read_list_to_end::<TypeEntry, true>(alloc, bytes)
    }

    #[tactic(auto, unfolding(wasm_types::specs::formats::Types::type_body))]
    fn check_all(alloc: Global, bytes: &[u8]) -> Result<(), DecodeError> {
        check_list_to_end::<TypeEntry>(alloc, bytes)
    }

    #[tactic(auto, unfolding(wasm_types::specs::formats::Types::type_body))]
    fn rewrite_all(bytes: &mut [u8]) -> Result<usize, DecodeError> {
        rewrite_list_to_end::<TypeEntry>(bytes)
    }
}

impl<'a> Decode<'a> for CodeSection {
    type Output = Vec<CodeBody>;

    ghost Value = { List CodeBody };

    ghost view = { λ bodies. bodies.items };

    ghost format = { code_section_body };

    ghost Minimal = { MinimalCodeSectionBody };

    ghost IsPrefix = { IsCodeSectionBodyPrefix };

    ghost IsMinimalPrefix = { IsMinimalCodeSectionBodyPrefix };

    ghost Counts = { λ strict. CountsItems strict code_body };

    #[inline(always)]
    fn is_lawful() {}

    #[tactic(auto, unfolding(wasm_code::specs::formats::CodeBodies::code_section_body))]
    fn read_all(alloc: Global, bytes: &'a [u8]) -> Result<Vec<CodeBody>, DecodeError> {
        read_list_to_end::<CodeBody, false>(alloc, bytes)
    }

    #[tactic(auto, unfolding(wasm_code::specs::formats::CodeBodies::code_section_body))]
    fn read_all_strict(alloc: Global, bytes: &'a [u8]) -> Result<Vec<CodeBody>, DecodeError> {
        read_list_to_end::<CodeBody, true>(alloc, bytes)
    }

    #[tactic(auto, unfolding(wasm_code::specs::formats::CodeBodies::code_section_body))]
    fn check_all(alloc: Global, bytes: &[u8]) -> Result<(), DecodeError> {
        check_list_to_end::<CodeBody>(alloc, bytes)
    }

    #[tactic(auto, unfolding(wasm_code::specs::formats::CodeBodies::code_section_body))]
    fn rewrite_all(bytes: &mut [u8]) -> Result<usize, DecodeError> {
        rewrite_list_to_end::<CodeBody>(bytes)
    }
}

impl<'a> Decode<'a> for Module {
    type Output = Vec<RawSection<'a>>;

    ghost Value = { List SectionParts };

    ghost view = { λ sections. all_parts_of sections.items };

    ghost format = { raw_module };

    ghost Minimal = { MinimalModule };

    ghost IsPrefix = { IsModulePrefix };

    ghost IsMinimalPrefix = { IsMinimalModulePrefix };

    ghost Counts = { λ strict. CountsSections (minimal_if strict raw_section) };

    #[inline(always)]
    fn is_lawful()
        ensures lawful { IsLawfulBody raw_module }
        ensures minimal { TakesMinimal raw_module MinimalModule }
        ensures prefixes { ArePrefixes raw_module.Encodes IsModulePrefix }
        ensures minimal_prefixes { ArePrefixes MinimalModule IsMinimalModulePrefix }
    {}

    fn read_all(alloc: Global, bytes: &'a [u8]) -> Result<Vec<RawSection<'a>>, DecodeError> {
        read_module_of::<RawSection<'_>, false>(alloc, bytes)
    }

    fn read_all_strict(alloc: Global, bytes: &'a [u8]) -> Result<Vec<RawSection<'a>>, DecodeError> {
        read_module_of::<RawSection<'_>, true>(alloc, bytes)
    }

    fn check_all(alloc: Global, bytes: &[u8]) -> Result<(), DecodeError>
        ensures checks { ChecksAll MinimalModule IsMinimalModulePrefix bytes.now (as_read result) }
        ensures place { IfErr result (LiesIn (length bytes.now)) }
        ensures counts { IfMalformed result (CountsSections (minimal_only raw_section) bytes.now) }
    {
        check_raw_module(alloc, bytes)
    }

    fn rewrite_all(bytes: &mut [u8]) -> Result<usize, DecodeError>
        ensures len { IfOk result (λ len. len ≤ length bytes.new) }
        ensures rewrites { RewritesInPlace raw_module IsModulePrefix bytes.old bytes.new (as_read result) }
        ensures memory { NeedsNoMemory (as_read result) }
        ensures place { IfErr result (LiesIn (length bytes.old)) }
        ensures counts { IfMalformed result (CountsSections raw_section bytes.old) }
    {
        rewrite_raw_module(bytes)
    }
}
