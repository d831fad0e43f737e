//! Custom sections whose contents are decoded if their name is known.
ghost use Rattle.std.specs.Prelude.{◌≡◌, IfOk, IfErr, IfSome, IfNone};
ghost use Rattle.wasm_codec.specs.declared.reader.ReadError.TheVariants.{Memory};
ghost use Rattle.wasm_sections.specs.formats.EntryParts.{custom_parts};
ghost use Rattle.wasm_custom_sections.specs.KnownSections.{IsKnown};

use crate::branch_hints::{BranchHints, FunctionHints};
use crate::core_dumps::{
    CoreDumpInstance, CoreDumpInstancesSection, CoreDumpModule, CoreDumpModulesSection,
    CoreDumpSection,
};
use crate::core_stacks::{CoreDumpStack, CoreDumpStackSection};
use crate::linking::{LinkingSection, LinkingSubsection};
use crate::names::{NameSection, NameSubsection};
use crate::producers::{Producers, ProducersSection};
use crate::target_features::{TargetFeature, TargetFeaturesSection};
use std::alloc::Global;
use wasm_code::decode::{Decode, read};
use wasm_codec::reader::{DecodeError, ReadError};
use wasm_sections::custom::CustomSection;

/// The contents of a custom section, decoded if its name is known.
///
/// # Examples
///
/// ```
/// # use wasm_encoder::{CustomSection, KnownCustomSection, known_custom_section};
/// let section = CustomSection { name: "target_features", bytes: b"\x01+\x07simd128" };
/// let known = known_custom_section(rt.alloc(), &section)?;
/// assert!(rt; matches!(known, KnownCustomSection::TargetFeatures(_)));
/// ```
#[derive(Debug, Drop)]
pub enum KnownCustomSection<'a> {
    /// Subsections of a section `name`.
    Names(Vec<NameSubsection<'a>>),
    /// Fields of a section `producers`.
    Producers(Vec<Producers<'a>>),
    /// Features of a section `target_features`.
    TargetFeatures(Vec<TargetFeature<'a>>),
    /// Hints of a section `metadata.code.branch_hint`.
    BranchHints(Vec<FunctionHints>),
    /// Subsections of a section `linking`.
    Linking(Vec<LinkingSubsection<'a>>),
    /// Process of a section `core`.
    CoreDump(CoreDumpSection<'a>),
    /// Modules of a section `coremodules`.
    CoreDumpModules(Vec<CoreDumpModule<'a>>),
    /// Instances of a section `coreinstances`.
    CoreDumpInstances(Vec<CoreDumpInstance>),
    /// Thread and frames of a section `corestack`.
    CoreDumpStack(CoreDumpStack<'a>),
    /// Contents that stay bytes: the section has another name, or they are malformed.
    Other(&'a [u8]),
}

/// Decodes the contents of a custom section if its name is known: `name`, `producers`, `target_features`,
/// `metadata.code.branch_hint`, `linking`, `core`, `coremodules`, `coreinstances` or `corestack`.
///
/// Contents under another name stay bytes, and so do malformed ones. Fails only with `Memory`, if an allocation fails.
///
/// # Examples
///
/// ```
/// # use wasm_encoder::{CustomSection, KnownCustomSection, known_custom_section};
/// let section = CustomSection { name: "name", bytes: b"\x00\x02\x01m" };
/// let known = known_custom_section(rt.alloc(), &section)?;
/// assert!(rt; matches!(known, KnownCustomSection::Names(_)));
/// let malformed = CustomSection { name: "name", bytes: b"\x00\x02\x01" };
/// let other = known_custom_section(rt.alloc(), &malformed)?;
/// assert!(rt; matches!(other, KnownCustomSection::Other(_)));
/// ```
pub fn known_custom_section<'a>(
    alloc: Global,
    section: &CustomSection<'a>,
) -> Result<KnownCustomSection<'a>, ReadError>
    ensures known { IfOk result (IsKnown (custom_parts section.now)) }
    ensures memory { IfErr result (λ e. e ≡ Memory) }
{
    let bytes = section.bytes;
    match section.name {
        "name" => match decoded::<NameSection>(alloc, bytes)? {
            Some(subsections) => Ok(KnownCustomSection::Names(subsections)),
            None => Ok(KnownCustomSection::Other(bytes)),
        },
        "producers" => match decoded::<ProducersSection<'a>>(alloc, bytes)? {
            Some(fields) => Ok(KnownCustomSection::Producers(fields)),
            None => Ok(KnownCustomSection::Other(bytes)),
        },
        "target_features" => match decoded::<TargetFeaturesSection<'a>>(alloc, bytes)? {
            Some(features) => Ok(KnownCustomSection::TargetFeatures(features)),
            None => Ok(KnownCustomSection::Other(bytes)),
        },
        "metadata.code.branch_hint" => match decoded::<BranchHints>(alloc, bytes)? {
            Some(functions) => Ok(KnownCustomSection::BranchHints(functions)),
            None => Ok(KnownCustomSection::Other(bytes)),
        },
        "linking" => match decoded::<LinkingSection>(alloc, bytes)? {
            Some(subsections) => Ok(KnownCustomSection::Linking(subsections)),
            None => Ok(KnownCustomSection::Other(bytes)),
        },
        "core" => match decoded::<CoreDumpSection<'a>>(alloc, bytes)? {
            Some(process) => Ok(KnownCustomSection::CoreDump(process)),
            None => Ok(KnownCustomSection::Other(bytes)),
        },
        "coremodules" => match decoded::<CoreDumpModulesSection<'a>>(alloc, bytes)? {
            Some(modules) => Ok(KnownCustomSection::CoreDumpModules(modules)),
            None => Ok(KnownCustomSection::Other(bytes)),
        },
        "coreinstances" => match decoded::<CoreDumpInstancesSection>(alloc, bytes)? {
            Some(instances) => Ok(KnownCustomSection::CoreDumpInstances(instances)),
            None => Ok(KnownCustomSection::Other(bytes)),
        },
        "corestack" => match decoded::<CoreDumpStackSection<'a>>(alloc, bytes)? {
            Some(thread) => Ok(KnownCustomSection::CoreDumpStack(thread)),
            None => Ok(KnownCustomSection::Other(bytes)),
        },
        _ => Ok(KnownCustomSection::Other(bytes)),
    }
}

/// Reads contents. Returns `None` if they are malformed, and fails with `Memory` if an allocation fails.
fn decoded<'a, T: Decode<'a>>(
    alloc: Global,
    bytes: &'a [u8],
) -> Result<Option<T::Output>, ReadError>
    ensures some { IfOk result (λ o. IfSome o (λ value. T.format.Encodes bytes.now (T.view value))) }
    ensures none { IfOk result (λ o. IfNone o ((value : T.Value) → T.format.Encodes bytes.now value → ⊥)) }
    ensures memory { IfErr result (λ e. e ≡ Memory) }
{
    match read::<T>(alloc, bytes) {
        Ok(value) => Ok(Some(value)),
        Err(DecodeError::Malformed(_)) => Ok(None),
        Err(DecodeError::Memory) => Err(ReadError::Memory),
    }
}
