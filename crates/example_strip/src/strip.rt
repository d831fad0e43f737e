//! Modules without their custom sections.
ghost use Rattle.std.specs.Prelude.{List, IfOk};
ghost use Rattle.std.specs.Io.KnownBytes.{Appends};
ghost use Rattle.wasm_encoder.specs.Outcomes.{IsLongestPrefix};
ghost use Rattle.wasm_encoder.specs.ModuleFormats.{raw_module};
ghost use Rattle.wasm_encoder.specs.Modules.{IsModulePrefix};
ghost use Rattle.wasm_encoder.specs.Sections.{SectionParts, all_parts_of};
ghost use Rattle.example_strip.specs.Kept.{kept};
ghost use Rattle.example_strip.specs.Results.{IfRefused};

use std::alloc::Global;
use std::io::Write;
use thiserror::Error;
use wasm_encoder::{ModuleWriter, RawSection, ReadError, SectionId, WriteError, read_module};

/// Why a module wasn't stripped.
#[derive(Debug, Drop, Error)]
pub enum StripError {
    /// The module is malformed, or memory ran out.
    #[error("{0}")]
    Read(ReadError),
    /// A write failed, or memory ran out.
    #[error("{0}")]
    Write(WriteError),
}

/// Writes the module without its custom sections, and returns the writer.
///
/// Fails with `Read` as `read_module` does, and has written nothing then.
pub fn strip<W: Write + Drop>(alloc: Global, bytes: &[u8], writer: W) -> Result<W, StripError>
    // The kept sections were written in their order.
    ensures written { (sections : List SectionParts) → raw_module.Encodes bytes.now sections →
        IfOk result (λ output. Appends (W.contents writer) (W.contents output) (raw_module.bytes (kept sections))) }
    // Only a malformed module is refused.
    ensures malformed { IfRefused result (λ _. (sections : List SectionParts) → raw_module.Encodes bytes.now sections → ⊥) }
    // `at` is the length of the longest well-formed prefix.
    ensures prefix { IfRefused result (IsLongestPrefix IsModulePrefix bytes.now) }
{
    match read_module(alloc, bytes) {
        Ok(sections) => match write_kept(alloc, &sections, writer) {
            Ok(output) => Ok(output),
            Err(error) => Err(StripError::Write(error)),
        },
        Err(error) => Err(StripError::Read(error)),
    }
}

/// Writes a module of the sections that aren't custom.
fn write_kept<W: Write + Drop>(
    alloc: Global,
    sections: &[RawSection],
    writer: W,
) -> Result<W, WriteError>
    ensures { IfOk result (λ output. Appends (W.contents writer) (W.contents output) (raw_module.bytes (kept (all_parts_of sections.now)))) }
{
    let mut module = ModuleWriter::new(alloc, writer)?;
    for section in sections {
        if section.id != u8::from(SectionId::Custom) {
            module.section(section)?;
        }
    }
    Ok(module.finish()?)
}
