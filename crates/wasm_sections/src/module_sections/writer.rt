//! Writers of single decoded sections (Core 3.0, Modules).
ghost use Rattle.std.specs.Prelude.{◌≡◌, ◌++◌, OnOk, OnErr, IfErr, length, take};
ghost use Rattle.std.specs.List.{All};
ghost use Rattle.wasm_codec.specs.Encoding.{byte_list_bytes, OnlyTooLong};
ghost use Rattle.wasm_codec.specs.Lists.{items_bytes};
ghost use Rattle.wasm_sections.specs.WrittenSections.{content_bytes, CountedContent, CountedList, EncodesContent, IsSizedListRefusal, WrittenContent};
ghost use Rattle.wasm_sections.specs.formats.ModuleSectionParts.{module_section_parts, section_id};

use crate::module_sections::ModuleSection;
use crate::numbers::{DataCountSection, StartSection};
use std::alloc::Allocator;
use wasm_codec::encode::{EncodeError, keep_or_undo, put_size_before};
use wasm_lists::encode::{Encode, encode_list};
use wasm_lists::list::Items;

impl<'a> ModuleSection<'a> {
    /// Returns the id of the section (Core 3.0, Sections).
    ///
    /// # Examples
    ///
    /// ```
    /// # use wasm_encoder::ModuleSection;
    /// assert_eq!(rt; ModuleSection::Start(0).id(), 8);
    /// ```
    pub fn id(&self) -> u8
        ensures { result ≡ section_id (module_section_parts self.now) }
    {
        match self {
            ModuleSection::Custom(_) => 0,
            ModuleSection::Types(_) => 1,
            ModuleSection::Imports(_) => 2,
            ModuleSection::Functions(_) => 3,
            ModuleSection::Tables(_) => 4,
            ModuleSection::Memories(_) => 5,
            ModuleSection::Globals(_) => 6,
            ModuleSection::Exports(_) => 7,
            ModuleSection::Start(_) => 8,
            ModuleSection::Elements(_) => 9,
            ModuleSection::Code(_) => 10,
            ModuleSection::Data(_) => 11,
            ModuleSection::DataCount(_) => 12,
            ModuleSection::Tags(_) => 13,
        }
    }
}

/// The size of the body in bytes, and the body (Core 3.0, Sections).
///
/// Fails with `TooLong` if a list in the section has more than 4,294,967,295 items, or a name, bytes or the body have
/// more bytes than that.
impl<'a> Encode for ModuleSection<'a> {
    ghost bytes = { λ section. content_bytes (module_section_parts section) };

    ghost IsWritten = { WrittenContent };

    ghost CanEncode = { CountedContent };

    ghost refuses = { OnlyTooLong };

    fn encode<A: Allocator>(&self, sink: &mut Vec<u8, A>) -> Result<(), EncodeError>
        ensures encodes { EncodesContent self.now sink.old.items sink.new.items result }
    {
        match self {
            ModuleSection::Custom(section) => section.encode(sink),
            ModuleSection::Types(entries) => encode_sized_list(entries, sink),
            ModuleSection::Imports(imports) => encode_sized_list(imports, sink),
            ModuleSection::Functions(types) => encode_sized_list(types, sink),
            ModuleSection::Tables(tables) => encode_sized_list(tables, sink),
            ModuleSection::Memories(memories) => encode_sized_list(memories, sink),
            ModuleSection::Globals(globals) => encode_sized_list(globals, sink),
            ModuleSection::Exports(exports) => encode_sized_list(exports, sink),
            ModuleSection::Start(function) => StartSection {
                function_index: *function,
            }
            .encode(sink),
            ModuleSection::Elements(segments) => encode_sized_list(segments, sink),
            ModuleSection::Code(bodies) => encode_sized_list(bodies, sink),
            ModuleSection::Data(segments) => encode_sized_list(segments, sink),
            ModuleSection::DataCount(count) => DataCountSection { count: *count }.encode(sink),
            ModuleSection::Tags(tags) => encode_sized_list(tags, sink),
        }
    }
}

/// Appends the size in bytes of a list, the number of its items, and each item's encoding. On error `sink` is
/// unchanged.
///
/// Fails with `TooLong` if the list has more than 4,294,967,295 items or bytes, and with any error of an item.
fn encode_sized_list<T: Encode, A: Allocator>(
    items: &Items<T>,
    sink: &mut Vec<u8, A>,
) -> Result<(), EncodeError>
    ensures ok { OnOk result (sink.new.items ≡ sink.old.items ++ byte_list_bytes (items_bytes T.bytes items.now)) }
    ensures can { OnOk result (CountedList T.bytes T.CanEncode items.now) }
    ensures written { OnOk result (All T.IsWritten items.now) }
    ensures refused { IfErr result (IsSizedListRefusal T.bytes T.CanEncode T.refuses items.now) }
    ensures err { OnErr result (sink.new.items ≡ sink.old.items) }
{
    let start = sink.len();
    let result = append_sized_list(items, sink);
    keep_or_undo(sink, start, result)
}

/// Appends the size in bytes of a list, the number of its items, and each item's encoding. On error a part of them may
/// remain.
fn append_sized_list<T: Encode, A: Allocator>(
    items: &Items<T>,
    sink: &mut Vec<u8, A>,
) -> Result<(), EncodeError>
    ensures ok { OnOk result (sink.new.items ≡ sink.old.items ++ byte_list_bytes (items_bytes T.bytes items.now)) }
    ensures can { OnOk result (CountedList T.bytes T.CanEncode items.now) }
    ensures written { OnOk result (All T.IsWritten items.now) }
    ensures refused { IfErr result (IsSizedListRefusal T.bytes T.CanEncode T.refuses items.now) }
    ensures kept { take (length sink.old.items) sink.new.items ≡ sink.old.items }
{
    let start = sink.len();
    encode_list(items.as_slice(), sink)?;
    if u32::try_from(sink.len() - start).is_err() {
        return Err(EncodeError::TooLong);
    }
    put_size_before(sink, start)
}
