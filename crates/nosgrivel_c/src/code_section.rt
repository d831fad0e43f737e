//! Bodies of code sections (Core 3.0, Code Section).
ghost use Rattle.wasm_code.specs.formats.CodeBodies.{code_section_body, IsCodeSectionBodyPrefix, MinimalCodeSectionBody, IsMinimalCodeSectionBodyPrefix};
ghost use Rattle.nosgrivel_c.specs.Calls.{ChecksNormal, JudgesNormal, RewritesNormal, WritesInPlace, WritesNormal};

use crate::delivery::{answer, deliver, judge, report};
use std::alloc::Global;
use wasm_code::code::normaliser::{normalise_code_section, rewrite_code_section_in_place};
use wasm_code::code::reader::check_code_section;

/// Writes the minimal encoding of the body of a code section to the start of the output.
///
/// The body doesn't include the section's id and size.
#[unsafe(no_mangle)]
pub extern "C" fn nosgrivel_normalise_code_section(
    alloc: Global,
    input: &[u8],
    output: &mut [u8],
    count: &mut usize,
) -> u32
    ensures writes { WritesNormal code_section_body IsCodeSectionBodyPrefix input.now output.old output.new count.old count.new result }
{
    deliver(normalise_code_section(alloc, input), output, count)
}

/// Writes the minimal encoding of the body of a code section over its own bytes.
///
/// The call makes the encoding in memory of its own, and copies it if all goes well.
#[unsafe(no_mangle)]
pub extern "C" fn nosgrivel_normalise_code_section_in_place(
    alloc: Global,
    bytes: &mut [u8],
    count: &mut usize,
) -> u32
    ensures writes { WritesInPlace code_section_body IsCodeSectionBodyPrefix bytes.old bytes.new count.old count.new result }
{
    let normal = normalise_code_section(alloc, bytes);
    deliver(normal, bytes, count)
}

/// Replaces the body of a code section by its minimal encoding in its own bytes.
///
/// The call needs no memory. If it refuses the bytes, they are unspecified afterwards.
#[unsafe(no_mangle)]
pub extern "C" fn nosgrivel_rewrite_code_section(bytes: &mut [u8], count: &mut usize) -> u32
    ensures rewrites { RewritesNormal code_section_body IsCodeSectionBodyPrefix bytes.old bytes.new count.new result }
{
    report(rewrite_code_section_in_place(bytes), count)
}

/// Checks whether the body of a code section is minimally encoded, and returns the length of its minimal encoding.
#[unsafe(no_mangle)]
pub extern "C" fn nosgrivel_judge_code_section(
    alloc: Global,
    input: &[u8],
    count: &mut usize,
) -> u32
    ensures judges { JudgesNormal code_section_body IsCodeSectionBodyPrefix input.now count.old count.new result }
{
    judge(normalise_code_section(alloc, input), input, count)
}

/// Checks whether the count and each code body are minimally encoded.
///
/// The call copies the input.
#[unsafe(no_mangle)]
pub extern "C" fn nosgrivel_check_code_section(
    alloc: Global,
    input: &[u8],
    count: &mut usize,
) -> u32
    ensures checks { ChecksNormal MinimalCodeSectionBody IsMinimalCodeSectionBodyPrefix input.now count.old count.new result }
{
    answer(check_code_section(alloc, input), input, count)
}
