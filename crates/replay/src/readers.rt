//! Readers and normalisers, by what they read.

use crate::calls::{
    Count, Normal, count_of, normal_of, placed, refusal_by, same_normal, strict_of,
};
use crate::mismatch::Mismatch;
use std::alloc::Global;
use wasm_encoder::reader::Refusal;
use wasm_encoder::{
    CodeSection, Instructions, Module, TypeSection, normalise_code_section, normalise_instructions,
    normalise_module, normalise_type_section, rewrite_module,
};

/// Runs the reader.
pub fn read(alloc: Global, what: &str, input: &[u8]) -> Result<Count, Mismatch> {
    match what {
        "calls" => count_of::<Instructions>(alloc, input),
        "types" => count_of::<TypeSection>(alloc, input),
        "code" => count_of::<CodeSection>(alloc, input),
        "module" => count_of::<Module>(alloc, input),
        _ => Err(Mismatch::NotUnderstood),
    }
}

/// Why and where the reader refuses the bytes, if it does.
pub fn refusal(alloc: Global, what: &str, input: &[u8]) -> Result<Option<Refusal>, Mismatch> {
    match what {
        "calls" => refusal_by::<Instructions>(alloc, input),
        "types" => refusal_by::<TypeSection>(alloc, input),
        "code" => refusal_by::<CodeSection>(alloc, input),
        "module" | "sections" => refusal_by::<Module>(alloc, input),
        _ => Err(Mismatch::NotUnderstood),
    }
}

/// Runs the strict reader and the check.
pub fn read_strictly(alloc: Global, what: &str, input: &[u8]) -> Result<Count, Mismatch> {
    match what {
        "calls" => strict_of::<Instructions>(alloc, input),
        "types" => strict_of::<TypeSection>(alloc, input),
        "code" => strict_of::<CodeSection>(alloc, input),
        "module" => strict_of::<Module>(alloc, input),
        _ => Err(Mismatch::NotUnderstood),
    }
}

/// Runs the normalisers, by their own names and by the type, into new memory and in place.
pub fn normalise(alloc: Global, what: &str, input: &[u8]) -> Result<Normal, Mismatch> {
    match what {
        "calls" => same_normal(
            normalise_instructions(alloc, input),
            normal_of::<Instructions>(alloc, input)?,
        ),
        "types" => same_normal(
            normalise_type_section(alloc, input),
            normal_of::<TypeSection>(alloc, input)?,
        ),
        "code" => same_normal(
            normalise_code_section(alloc, input),
            normal_of::<CodeSection>(alloc, input)?,
        ),
        _ => normal_of_module(alloc, input),
    }
}

/// Runs the normaliser of a module, of its type section and of its code section. It rewrites more than that of
/// `Module`, which is for sizes alone.
fn normal_of_module(alloc: Global, input: &[u8]) -> Result<Normal, Mismatch> {
    let copy = Vec::from_slice(alloc, input)?;
    let rewritten = placed(rewrite_module(copy))?;
    same_normal(normalise_module(alloc, input), rewritten)
}
