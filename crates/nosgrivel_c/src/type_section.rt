//! Bodies of type sections (Core 3.0, Type Section).
ghost use Rattle.wasm_types.specs.formats.Types.{type_body, IsTypeBodyPrefix, MinimalTypeBody, IsMinimalTypeBodyPrefix};
ghost use Rattle.nosgrivel_c.specs.Calls.{ChecksNormal, JudgesNormal, RewritesNormal, WritesInPlace, WritesNormal};

use crate::delivery::{answer, deliver, judge, report};
use std::alloc::Global;
use wasm_types::type_sections::{
    check_type_section, normalise_type_section, rewrite_type_section_in_place,
};

/// Writes the minimal encoding of the body of a type section to the start of the output.
///
/// The body doesn't include the section's id and size.
#[unsafe(no_mangle)]
pub extern "C" fn nosgrivel_normalise_type_section(
    alloc: Global,
    input: &[u8],
    output: &mut [u8],
    count: &mut usize,
) -> u32
    ensures writes { WritesNormal type_body IsTypeBodyPrefix input.now output.old output.new count.old count.new result }
{
    deliver(normalise_type_section(alloc, input), output, count)
}

/// Writes the minimal encoding of the body of a type section over its own bytes.
///
/// The call makes the encoding in memory of its own, and copies it if all goes well.
#[unsafe(no_mangle)]
pub extern "C" fn nosgrivel_normalise_type_section_in_place(
    alloc: Global,
    bytes: &mut [u8],
    count: &mut usize,
) -> u32
    ensures writes { WritesInPlace type_body IsTypeBodyPrefix bytes.old bytes.new count.old count.new result }
{
    let normal = normalise_type_section(alloc, bytes);
    deliver(normal, bytes, count)
}

/// Replaces the body of a type section by its minimal encoding in its own bytes.
///
/// The call needs no memory. If it refuses the bytes, they are unspecified afterwards.
#[unsafe(no_mangle)]
pub extern "C" fn nosgrivel_rewrite_type_section(bytes: &mut [u8], count: &mut usize) -> u32
    ensures rewrites { RewritesNormal type_body IsTypeBodyPrefix bytes.old bytes.new count.new result }
{
    report(rewrite_type_section_in_place(bytes), count)
}

/// Checks whether the body of a type section is minimally encoded, and returns the length of its minimal encoding.
#[unsafe(no_mangle)]
pub extern "C" fn nosgrivel_judge_type_section(
    alloc: Global,
    input: &[u8],
    count: &mut usize,
) -> u32
    ensures judges { JudgesNormal type_body IsTypeBodyPrefix input.now count.old count.new result }
{
    judge(normalise_type_section(alloc, input), input, count)
}

/// Checks whether the count and each entry are minimally encoded.
///
/// The call copies the input.
#[unsafe(no_mangle)]
pub extern "C" fn nosgrivel_check_type_section(
    alloc: Global,
    input: &[u8],
    count: &mut usize,
) -> u32
    ensures checks { ChecksNormal MinimalTypeBody IsMinimalTypeBodyPrefix input.now count.old count.new result }
{
    answer(check_type_section(alloc, input), input, count)
}
