//! Lists of instructions (Core 3.0, Instructions).
ghost use Rattle.wasm_codec.specs.Outcomes.{EncodesSome};
ghost use Rattle.wasm_codec.specs.formats.Bodies.{to_end};
ghost use Rattle.wasm_instructions.specs.formats.Instructions.{Instructions, MinimalInstructions, instruction};
ghost use Rattle.nosgrivel_c.specs.Calls.{ChecksNormal, JudgesNormal, RewritesNormal, WritesInPlace, WritesNormal};

use crate::delivery::{answer, deliver, judge, report};
use std::alloc::Global;
use wasm_instructions::normaliser::{normalise_instructions, rewrite_instructions_in_place};
use wasm_instructions::reader::instructions::check_instructions;

/// Writes the minimal encoding of a list of instructions to the start of the output.
///
/// The instructions need not nest, and the last one need not be `end`.
#[unsafe(no_mangle)]
pub extern "C" fn nosgrivel_normalise_instructions(
    alloc: Global,
    input: &[u8],
    output: &mut [u8],
    count: &mut usize,
) -> u32
    ensures writes { WritesNormal (to_end instruction) (EncodesSome Instructions) input.now output.old output.new count.old count.new result }
{
    deliver(normalise_instructions(alloc, input), output, count)
}

/// Writes the minimal encoding of a list of instructions over its own bytes.
///
/// The call makes the encoding in memory of its own, and copies it if all goes well.
#[unsafe(no_mangle)]
pub extern "C" fn nosgrivel_normalise_instructions_in_place(
    alloc: Global,
    bytes: &mut [u8],
    count: &mut usize,
) -> u32
    ensures writes { WritesInPlace (to_end instruction) (EncodesSome Instructions) bytes.old bytes.new count.old count.new result }
{
    let normal = normalise_instructions(alloc, bytes);
    deliver(normal, bytes, count)
}

/// Replaces a list of instructions by its minimal encoding in its own bytes.
///
/// The call needs no memory. If it refuses the bytes, they are unspecified afterwards.
#[unsafe(no_mangle)]
pub extern "C" fn nosgrivel_rewrite_instructions(bytes: &mut [u8], count: &mut usize) -> u32
    ensures rewrites { RewritesNormal (to_end instruction) (EncodesSome Instructions) bytes.old bytes.new count.new result }
{
    report(rewrite_instructions_in_place(bytes), count)
}

/// Checks whether a list of instructions is minimally encoded, and returns the length of its minimal encoding.
#[unsafe(no_mangle)]
pub extern "C" fn nosgrivel_judge_instructions(
    alloc: Global,
    input: &[u8],
    count: &mut usize,
) -> u32
    ensures judges { JudgesNormal (to_end instruction) (EncodesSome Instructions) input.now count.old count.new result }
{
    judge(normalise_instructions(alloc, input), input, count)
}

/// Checks whether each instruction is minimally encoded.
///
/// The call copies the input.
#[unsafe(no_mangle)]
pub extern "C" fn nosgrivel_check_instructions(
    alloc: Global,
    input: &[u8],
    count: &mut usize,
) -> u32
    ensures checks { ChecksNormal MinimalInstructions (EncodesSome MinimalInstructions) input.now count.old count.new result }
{
    answer(check_instructions(alloc, input), input, count)
}
