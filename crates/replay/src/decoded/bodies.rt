//! The five calls on the bodies of sections, by the section's name, and on modules.

use crate::calls::{Count, Counted, Normal, count_of, normal_of, strict_of};
use crate::mismatch::Mismatch;
use std::alloc::Global;
use wasm_encoder::{
    BranchHints, CoreDumpInstancesSection, CoreDumpModulesSection, CoreDumpSection,
    CoreDumpStackSection, CustomSection, DataCountSection, DataSection, Decode, ElementSection,
    ExportSection, FunctionSection, GlobalSection, ImportSection, LinkingSection, MemorySection,
    NameSection, ProducersSection, StartSection, TableSection, TagSection, TargetFeaturesSection,
    WholeModule,
};

/// The answers of the calls to some bytes.
#[derive(Drop)]
pub struct Answers {
    /// How many items the reader gives, or where it refuses the bytes.
    pub read: Count,
    /// How many items the strict reader gives, or where it and the check refuse the bytes.
    pub strict: Count,
    /// The normal form, or where the bytes can't be normalised, also in place.
    pub normal: Normal,
}

/// Makes the five calls for a section, or for a module.
pub fn all_answers(alloc: Global, section: &str, body: &[u8]) -> Result<Answers, Mismatch> {
    match section {
        "import" => answers_of::<ImportSection<'_>>(alloc, body),
        "function" => answers_of::<FunctionSection>(alloc, body),
        "table" => answers_of::<TableSection>(alloc, body),
        "memory" => answers_of::<MemorySection>(alloc, body),
        "global" => answers_of::<GlobalSection>(alloc, body),
        "export" => answers_of::<ExportSection<'_>>(alloc, body),
        "element" => answers_of::<ElementSection>(alloc, body),
        "data" => answers_of::<DataSection<'_>>(alloc, body),
        "tag" => answers_of::<TagSection>(alloc, body),
        "start" => answers_of::<StartSection>(alloc, body),
        "data count" => answers_of::<DataCountSection>(alloc, body),
        "names" => answers_of::<NameSection>(alloc, body),
        "producers" => answers_of::<ProducersSection<'_>>(alloc, body),
        "target features" => answers_of::<TargetFeaturesSection<'_>>(alloc, body),
        "branch hints" => answers_of::<BranchHints>(alloc, body),
        "linking" => answers_of::<LinkingSection>(alloc, body),
        "core" => answers_of::<CoreDumpSection<'_>>(alloc, body),
        "coremodules" => answers_of::<CoreDumpModulesSection<'_>>(alloc, body),
        "coreinstances" => answers_of::<CoreDumpInstancesSection>(alloc, body),
        "corestack" => answers_of::<CoreDumpStackSection<'_>>(alloc, body),
        "custom" => answers_of::<CustomSection<'_>>(alloc, body),
        "module" => answers_of::<WholeModule>(alloc, body),
        _ => Err(Mismatch::NotUnderstood),
    }
}

/// Makes the five calls.
fn answers_of<'a, T: Decode<'a>>(alloc: Global, body: &'a [u8]) -> Result<Answers, Mismatch>
where
    T::Output: Counted,
{
    let read = count_of::<T>(alloc, body)?;
    let strict = strict_of::<T>(alloc, body)?;
    let normal = normal_of::<T>(alloc, body)?;
    Ok(Answers {
        read,
        strict,
        normal,
    })
}
