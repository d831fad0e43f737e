//! Modules (Core 3.0, Modules). The bodies of sections other than type and code sections are not decoded.
ghost use Rattle.wasm_code.specs.formats.Modules.{typed_module, MinimalModule};
ghost use Rattle.wasm_code.specs.Modules.{IsMinimalModulePrefix, IsTypedModulePrefix};
ghost use Rattle.nosgrivel_c.specs.Calls.{ChecksNormal, JudgesNormal, RewritesNormal, WritesInPlace, WritesNormal};

use crate::delivery::{answer, deliver, judge, report};
use std::alloc::Global;
use wasm_code::normaliser::{normalise_module, rewrite_module_in_place};
use wasm_code::raw::check_module;

/// Writes the minimal encoding of a module to the start of the output.
///
/// Section sizes, type sections and code sections get their minimal encoding. All other bodies are copied. A module
/// with a malformed type section or code section is refused. Bytes move, so offsets in custom sections become stale:
/// those of relocatable object files (`linking`, `reloc.*`) and of debug information (DWARF).
#[unsafe(no_mangle)]
pub extern "C" fn nosgrivel_normalise_module(
    alloc: Global,
    input: &[u8],
    output: &mut [u8],
    count: &mut usize,
) -> u32
    ensures writes { WritesNormal typed_module IsTypedModulePrefix input.now output.old output.new count.old count.new result }
{
    deliver(normalise_module(alloc, input), output, count)
}

/// Writes the minimal encoding of a module over its own bytes.
///
/// The call makes the encoding in memory of its own, and copies it if all goes well.
#[unsafe(no_mangle)]
pub extern "C" fn nosgrivel_normalise_module_in_place(
    alloc: Global,
    bytes: &mut [u8],
    count: &mut usize,
) -> u32
    ensures writes { WritesInPlace typed_module IsTypedModulePrefix bytes.old bytes.new count.old count.new result }
{
    let normal = normalise_module(alloc, bytes);
    deliver(normal, bytes, count)
}

/// Replaces a module by its minimal encoding in its own bytes.
///
/// The call needs no memory. If it refuses the bytes, they are unspecified afterwards.
#[unsafe(no_mangle)]
pub extern "C" fn nosgrivel_rewrite_module(bytes: &mut [u8], count: &mut usize) -> u32
    ensures rewrites { RewritesNormal typed_module IsTypedModulePrefix bytes.old bytes.new count.new result }
{
    report(rewrite_module_in_place(bytes), count)
}

/// Checks whether a module is minimally encoded, and returns the length of its minimal encoding.
#[unsafe(no_mangle)]
pub extern "C" fn nosgrivel_judge_module(alloc: Global, input: &[u8], count: &mut usize) -> u32
    ensures judges { JudgesNormal typed_module IsTypedModulePrefix input.now count.old count.new result }
{
    judge(normalise_module(alloc, input), input, count)
}

/// Checks whether the header and the size of each section of a module are minimally encoded.
///
/// The bodies are not decoded; `nosgrivel_judge_module` decodes those of type sections and code sections. The call
/// allocates nothing.
#[unsafe(no_mangle)]
pub extern "C" fn nosgrivel_check_module(alloc: Global, input: &[u8], count: &mut usize) -> u32
    ensures checks { ChecksNormal MinimalModule IsMinimalModulePrefix input.now count.old count.new result }
{
    answer(check_module(alloc, input), input, count)
}
