//! Canonical forms of modules without some of their custom sections (Core 3.0, Modules).
ghost use Rattle.std.specs.Prelude.{IfOk, List};
ghost use Rattle.wasm_codec.specs.Outcomes.{IfRefused, IsLongestPrefix};
ghost use Rattle.wasm_code.specs.Modules.{IsModulePrefixOf};
ghost use Rattle.wasm_sections.specs.formats.ModuleSectionParts.{ModuleSectionParts};
ghost use Rattle.wasm_sections.specs.formats.ModuleSections.{module_section, whole_module};
ghost use Rattle.nosgrivel_c.specs.Stripping.{IsStripped, Lists, WritesStripped};

use crate::delivery::{BAD_PATTERN, deliver};
use std::alloc::{AllocError, Global};
use std::str;
use wasm_codec::reader::ReadError;
use wasm_modules::modules::normalise_whole_module;
use wasm_modules::selection::{Pattern, Selection, select_sections};

/// Writes the canonical form of a module, without the custom sections whose names match a pattern of `dropped` and none
/// of `kept`, to the start of the output.
///
/// A pattern ends at a NUL or at the end of the text. Each `*` in it stands for any characters, or for none. Returns
/// `BAD_PATTERN` if `dropped` or `kept` isn't UTF-8.
#[unsafe(no_mangle)]
pub extern "C" fn nosgrivel_strip(
    alloc: Global,
    input: &[u8],
    dropped: &[u8],
    kept: &[u8],
    output: &mut [u8],
    count: &mut usize,
) -> u32
    ensures writes { WritesStripped input.now dropped.now kept.now output.old output.new count.old count.new result }
{
    let Ok(dropped) = str::from_utf8(dropped) else {
        return BAD_PATTERN;
    };
    let Ok(kept) = str::from_utf8(kept) else {
        return BAD_PATTERN;
    };
    deliver(strip(alloc, input, dropped, kept), output, count)
}

/// Returns the canonical form of a module without the custom sections whose names match a pattern of `dropped` and none
/// of `kept`.
fn strip(alloc: Global, input: &[u8], dropped: &str, kept: &str) -> Result<Vec<u8>, ReadError>
    ensures given { IfOk result (λ left. IsStripped dropped.now kept.now input.now left.items) }
    ensures prefix { IfRefused result (IsLongestPrefix (IsModulePrefixOf module_section) input.now) }
    ensures unencoded { IfRefused result (λ _. (sections : List ModuleSectionParts) → whole_module.Encodes input.now sections → ⊥) }
{
    let dropped = list_patterns(alloc, dropped)?;
    let kept = list_patterns(alloc, kept)?;
    let canonical = normalise_whole_module(alloc, input)?;
    let selection = Selection {
        offsets: false,
        dropped: &dropped,
        kept: &kept,
    };
    Ok(select_sections(canonical, selection))
}

/// Returns the patterns that a text lists.
///
/// Fails if memory runs out.
fn list_patterns(alloc: Global, text: &str) -> Result<Vec<Pattern<'_>>, AllocError>
    ensures { IfOk result (λ patterns. Lists text.now patterns.items) }
{
    let mut patterns = Vec::new(alloc);
    let mut text = text;
    while let Some((part, rest)) = text.split_once('\0') {
        patterns.push(Pattern::new(part))?;
        text = rest;
    }
    if text.is_empty() {
        return Ok(patterns);
    }
    patterns.push(Pattern::new(text))?;
    Ok(patterns)
}
