//! An export section of functions alone (Core 3.0, Export Section).
ghost use Rattle.std.specs.Prelude.{◌≡◌, ◌++◌, OnOk, IfErr, length, take};
ghost use Rattle.wasm_encoder.specs.Encoding.{byte_list_bytes, IsRefusal, OnlyTooLong};
ghost use Rattle.example_sections.specs.Exports.{export_bytes, body_of, HasShortName, CanExport};

use std::alloc::{Allocator, Global};
use wasm_encoder::{
    Encode, EncodeError, Section, SectionId, encode_bytes, encode_list, encode_str,
};

/// Kind byte of an exported function.
pub const FUNCTION: u8 = 0x00;

/// An exported function.
#[derive(Clone, Copy, Debug)]
pub struct FunctionExport<'a> {
    /// Name of the export.
    pub name: &'a str,
    /// Function index.
    pub function: u32,
}

/// The name, the kind and the index.
///
/// Fails with `TooLong` if the name is longer than 4,294,967,295 bytes.
impl<'a> Encode for FunctionExport<'a> {
    ghost bytes = { export_bytes };

    ghost CanEncode = { HasShortName };

    ghost refuses = { OnlyTooLong };

    fn encode<A: Allocator>(&self, sink: &mut Vec<u8, A>) -> Result<(), EncodeError> {
        let start = sink.len();
        let appended = append_export(self, sink);
        if appended.is_err() {
            sink.truncate(start);
        }
        appended
    }
}

/// Appends an export. On error a part of it may remain.
fn append_export<A: Allocator>(
    export: &FunctionExport,
    sink: &mut Vec<u8, A>,
) -> Result<(), EncodeError>
    ensures ok { OnOk result (sink.new.items ≡ sink.old.items ++ export_bytes export.now) }
    ensures can { OnOk result (HasShortName export.now) }
    ensures refused { IfErr result (IsRefusal HasShortName OnlyTooLong export.now) }
    ensures kept { take (length sink.old.items) sink.new.items ≡ sink.old.items }
{
    encode_str(export.name, sink)?;
    sink.extend_from_slice(&[FUNCTION])?;
    export.function.encode(sink)
}

/// An export section.
#[derive(Debug, Drop)]
pub struct ExportSection<'a> {
    /// Exports in order.
    pub exports: &'a [FunctionExport<'a>],
    /// Allocator for the body, which is built before its size is known.
    pub alloc: Global,
}

/// The size of the body in bytes, the number of exports and the exports.
///
/// Fails with `TooLong` if the size, the number or a name's length is above 4,294,967,295.
impl<'a> Encode for ExportSection<'a> {
    ghost bytes = { λ section. byte_list_bytes (body_of section.exports.now) };

    ghost CanEncode = { λ section. CanExport section.exports.now };

    ghost refuses = { OnlyTooLong };

    fn encode<A: Allocator>(&self, sink: &mut Vec<u8, A>) -> Result<(), EncodeError> {
        let mut body = Vec::new(self.alloc);
        encode_list(self.exports, &mut body)?;
        encode_bytes(&body, sink)
    }
}

impl<'a> Section for ExportSection<'a> {
    ghost id = { λ _. 7 };

    fn id(&self) -> u8 {
        u8::from(SectionId::Export)
    }
}
