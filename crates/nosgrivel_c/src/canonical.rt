//! Canonical forms of modules (Core 3.0, Modules). Every section is decoded.
ghost use Rattle.wasm_code.specs.Modules.{IsModulePrefixOf};
ghost use Rattle.wasm_codec.specs.formats.Combinators.{minimal_only};
ghost use Rattle.wasm_sections.specs.formats.ModuleSections.{MinimalWholeModule, module_section, whole_module};
ghost use Rattle.nosgrivel_c.specs.Calls.{ChecksNormal, JudgesNormal, RewritesNormal, WritesInPlace, WritesNormal};

use crate::delivery::{answer, deliver, judge, report};
use std::alloc::Global;
use wasm_code::decode::rewrite_in_place;
use wasm_modules::modules::{WholeModule, check_whole_module, normalise_whole_module};

/// Writes the canonical form of a module to the start of the output: every number, size, type, index and limit has its
/// minimal encoding.
///
/// Two modules have the same canonical form if and only if their decoded sections are equal. A module with a malformed
/// section is refused. Section order is not checked. Bytes move, so offsets in custom sections become stale: those of
/// relocatable object files (`linking`, `reloc.*`) and of debug information (DWARF).
#[unsafe(no_mangle)]
pub extern "C" fn nosgrivel_canonicalise(
    alloc: Global,
    input: &[u8],
    output: &mut [u8],
    count: &mut usize,
) -> u32
    ensures writes { WritesNormal whole_module (IsModulePrefixOf module_section) input.now output.old output.new count.old count.new result }
{
    deliver(normalise_whole_module(alloc, input), output, count)
}

/// Writes the canonical form of a module over its own bytes.
///
/// The call makes the canonical form in memory of its own, and copies it if all goes well.
#[unsafe(no_mangle)]
pub extern "C" fn nosgrivel_canonicalise_in_place(
    alloc: Global,
    bytes: &mut [u8],
    count: &mut usize,
) -> u32
    ensures writes { WritesInPlace whole_module (IsModulePrefixOf module_section) bytes.old bytes.new count.old count.new result }
{
    let canonical = normalise_whole_module(alloc, bytes);
    deliver(canonical, bytes, count)
}

/// Replaces a module by its minimal encoding in its own bytes.
///
/// The call needs no memory. If it refuses the bytes, they are unspecified afterwards.
#[unsafe(no_mangle)]
pub extern "C" fn nosgrivel_rewrite_canonical(bytes: &mut [u8], count: &mut usize) -> u32
    ensures rewrites { RewritesNormal whole_module (IsModulePrefixOf module_section) bytes.old bytes.new count.new result }
{
    report(rewrite_in_place::<WholeModule>(bytes), count)
}

/// Checks whether a module is in its canonical form, and returns the length of that form.
#[unsafe(no_mangle)]
pub extern "C" fn nosgrivel_judge_canonical(alloc: Global, input: &[u8], count: &mut usize) -> u32
    ensures judges { JudgesNormal whole_module (IsModulePrefixOf module_section) input.now count.old count.new result }
{
    judge(normalise_whole_module(alloc, input), input, count)
}

/// Checks whether a module is in its canonical form, and locates the first section that isn't.
///
/// The call copies the input.
#[unsafe(no_mangle)]
pub extern "C" fn nosgrivel_check_canonical(alloc: Global, input: &[u8], count: &mut usize) -> u32
    ensures checks { ChecksNormal MinimalWholeModule (IsModulePrefixOf (minimal_only module_section)) input.now count.old count.new result }
{
    answer(check_whole_module(alloc, input), input, count)
}
