//! The five calls on bytes that they refuse, by what they decode.

use crate::calls::refusal_of;
use crate::mismatch::Mismatch;
use crate::refusals::expected::Expected;
use std::alloc::Global;
use wasm_encoder::{
    BranchHints, CodeSection, CoreDumpInstancesSection, CoreDumpModulesSection, CoreDumpSection,
    CoreDumpStackSection, CustomSection, DataCountSection, DataSection, Decode, ElementSection,
    ExportSection, FunctionSection, GlobalSection, ImportSection, Instructions, LinkingSection,
    MemorySection, Module, NameSection, ProducersSection, StartSection, TableSection, TagSection,
    TargetFeaturesSection, TypeSection, WholeModule, check, normalise, read, read_strict, rewrite,
};

/// The calls refuse the bytes so: `all` five of them; `read` with the two that normalise; `read_strict`; or `check`.
pub fn check_refusal(
    alloc: Global,
    calls: &str,
    what: &str,
    bytes: &[u8],
    expected: &Expected<'_>,
) -> Result<(), Mismatch> {
    match what {
        "types" => check_calls::<TypeSection>(alloc, calls, bytes, expected),
        "import" => check_calls::<ImportSection<'_>>(alloc, calls, bytes, expected),
        "function" => check_calls::<FunctionSection>(alloc, calls, bytes, expected),
        "table" => check_calls::<TableSection>(alloc, calls, bytes, expected),
        "memory" => check_calls::<MemorySection>(alloc, calls, bytes, expected),
        "global" => check_calls::<GlobalSection>(alloc, calls, bytes, expected),
        "export" => check_calls::<ExportSection<'_>>(alloc, calls, bytes, expected),
        "start" => check_calls::<StartSection>(alloc, calls, bytes, expected),
        "element" => check_calls::<ElementSection>(alloc, calls, bytes, expected),
        "code" => check_calls::<CodeSection>(alloc, calls, bytes, expected),
        "data" => check_calls::<DataSection<'_>>(alloc, calls, bytes, expected),
        "data count" => check_calls::<DataCountSection>(alloc, calls, bytes, expected),
        "tag" => check_calls::<TagSection>(alloc, calls, bytes, expected),
        "custom" => check_calls::<CustomSection<'_>>(alloc, calls, bytes, expected),
        "calls" => check_calls::<Instructions>(alloc, calls, bytes, expected),
        "sections" => check_calls::<Module>(alloc, calls, bytes, expected),
        "module" => check_calls::<WholeModule>(alloc, calls, bytes, expected),
        _ => check_contents(alloc, calls, what, bytes, expected),
    }
}

/// The same for the contents of a custom section.
fn check_contents(
    alloc: Global,
    calls: &str,
    what: &str,
    bytes: &[u8],
    expected: &Expected<'_>,
) -> Result<(), Mismatch> {
    match what {
        "names" => check_calls::<NameSection>(alloc, calls, bytes, expected),
        "producers" => check_calls::<ProducersSection<'_>>(alloc, calls, bytes, expected),
        "target features" => {
            check_calls::<TargetFeaturesSection<'_>>(alloc, calls, bytes, expected)
        }
        "branch hints" => check_calls::<BranchHints>(alloc, calls, bytes, expected),
        "linking" => check_calls::<LinkingSection>(alloc, calls, bytes, expected),
        "core" => check_calls::<CoreDumpSection<'_>>(alloc, calls, bytes, expected),
        "coremodules" => check_calls::<CoreDumpModulesSection<'_>>(alloc, calls, bytes, expected),
        "coreinstances" => check_calls::<CoreDumpInstancesSection>(alloc, calls, bytes, expected),
        "corestack" => check_calls::<CoreDumpStackSection<'_>>(alloc, calls, bytes, expected),
        _ => Err(Mismatch::NotUnderstood),
    }
}

/// The calls for a type refuse the bytes so.
fn check_calls<'a, T: Decode<'a>>(
    alloc: Global,
    calls: &str,
    bytes: &'a [u8],
    expected: &Expected<'_>,
) -> Result<(), Mismatch> {
    match calls {
        "all" => {
            check_wide::<T>(alloc, bytes, expected)?;
            expected.check(alloc, refusal_of(&read_strict::<T>(alloc, bytes))?)?;
            expected.check(alloc, refusal_of(&check::<T>(alloc, bytes))?)
        }
        "read" => check_wide::<T>(alloc, bytes, expected),
        "read_strict" => expected.check(alloc, refusal_of(&read_strict::<T>(alloc, bytes))?),
        "check" => expected.check(alloc, refusal_of(&check::<T>(alloc, bytes))?),
        _ => Err(Mismatch::NotUnderstood),
    }
}

/// The three calls that accept any encoding refuse the bytes so.
fn check_wide<'a, T: Decode<'a>>(
    alloc: Global,
    bytes: &'a [u8],
    expected: &Expected<'_>,
) -> Result<(), Mismatch> {
    let copy = Vec::from_slice(alloc, bytes)?;
    expected.check(alloc, refusal_of(&read::<T>(alloc, bytes))?)?;
    expected.check(alloc, refusal_of(&normalise::<T>(alloc, bytes))?)?;
    expected.check(alloc, refusal_of(&rewrite::<T>(copy))?)
}
