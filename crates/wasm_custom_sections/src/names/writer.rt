//! Writers of decoded subsections of a name section (Core 3.0, Name Section).
ghost use Rattle.std.specs.Prelude.{◌∷◌, ◌<◌, ⊤, length};
ghost use Rattle.std.specs.List.{All};
ghost use Rattle.wasm_codec.specs.Appending.{Appends};
ghost use Rattle.wasm_codec.specs.Encoding.{byte_list_bytes, IsCount, IsMinimal, OnlyTooLong};
ghost use Rattle.wasm_codec.specs.Lists.{items_bytes};
ghost use Rattle.wasm_codec.specs.formats.Grammar.{IsBytes};
ghost use Rattle.wasm_custom_sections.specs.WrittenNames.{AppendsSubsection, CountedItems, CountedNames, CountedSubsection, indirect_bytes, IsWrittenSubsection, naming_bytes, subsection_bytes};
ghost use Rattle.wasm_custom_sections.specs.formats.NameParts.{indirect_parts, naming_parts};
ghost use Rattle.wasm_custom_sections.specs.formats.Names.{indirect_naming, naming};

use crate::name_maps::{IndirectNaming, Naming};
use crate::names::{ModuleName, NameSubsection};
use crate::sized::{ListItems, append_subsection};
use std::alloc::Allocator;
use wasm_codec::encode::{EncodeError, keep_or_undo};
use wasm_codec::rewriter::are_bytes;
use wasm_lists::encode::{Encode, encode_bytes};
use wasm_lists::list::Items;

/// The id, the size of the contents in bytes, and the contents (Core 3.0, Name Section).
///
/// Fails with `TooLong` if a list in the subsection has more than 4,294,967,295 items, or a name or the contents have
/// more bytes than that. If `Unknown` has an id below 12, the bytes are those of another kind of subsection.
impl<'a> Encode for NameSubsection<'a> {
    ghost bytes = { subsection_bytes };

    ghost IsWritten = { IsWrittenSubsection };

    ghost CanEncode = { CountedSubsection };

    ghost refuses = { OnlyTooLong };

    fn encode<A: Allocator>(&self, sink: &mut Vec<u8, A>) -> Result<(), EncodeError> {
        let start = sink.len();
        let result = append(self, sink);
        keep_or_undo(sink, start, result)
    }
}

/// Appends a subsection. On error a part of it may remain.
fn append<A: Allocator>(
    subsection: &NameSubsection<'_>,
    sink: &mut Vec<u8, A>,
) -> Result<(), EncodeError>
    ensures { AppendsSubsection subsection.now sink.old.items sink.new.items result }
{
    match subsection {
        NameSubsection::Module(name) => append_subsection(0, &ModuleName { name }, sink),
        NameSubsection::Functions(names) => append_names(1, names, sink),
        NameSubsection::Locals(items) => append_items(2, items, sink),
        NameSubsection::Labels(items) => append_items(3, items, sink),
        NameSubsection::Types(names) => append_names(4, names, sink),
        NameSubsection::Tables(names) => append_names(5, names, sink),
        NameSubsection::Memories(names) => append_names(6, names, sink),
        NameSubsection::Globals(names) => append_names(7, names, sink),
        NameSubsection::Elements(names) => append_names(8, names, sink),
        NameSubsection::Data(names) => append_names(9, names, sink),
        NameSubsection::Fields(items) => append_items(10, items, sink),
        NameSubsection::Tags(names) => append_names(11, names, sink),
        NameSubsection::Unknown { id, bytes } => append_unknown(*id, bytes, sink),
    }
}

/// Appends an id, the size of a name map, and the map. On error a part of them may remain.
fn append_names<A: Allocator>(
    id: u8,
    names: &Items<Naming<'_>>,
    sink: &mut Vec<u8, A>,
) -> Result<(), EncodeError>
    ensures { Appends (id ∷ byte_list_bytes (items_bytes naming_bytes names.now)) (CountedNames names.now)
        (All (λ n. IsMinimal naming.Encodes naming.bytes (naming_parts n)) names.now) sink.old.items sink.new.items result }
{
    let items = names.as_slice();
    append_subsection(id, &ListItems { items }, sink)
}

/// Appends an id, the size of an indirect name map, and the map. On error a part of them may remain.
fn append_items<A: Allocator>(
    id: u8,
    items: &Items<IndirectNaming<'_>>,
    sink: &mut Vec<u8, A>,
) -> Result<(), EncodeError>
    ensures { Appends (id ∷ byte_list_bytes (items_bytes indirect_bytes items.now)) (CountedItems items.now)
        (All (λ i. IsMinimal indirect_naming.Encodes indirect_naming.bytes (indirect_parts i)) items.now) sink.old.items sink.new.items result }
{
    let items = items.as_slice();
    append_subsection(id, &ListItems { items }, sink)
}

/// Appends an id, the size of bytes, and the bytes. On error a part of them may remain.
fn append_unknown<A: Allocator>(
    id: u8,
    bytes: &[u8],
    sink: &mut Vec<u8, A>,
) -> Result<(), EncodeError>
    ensures appends { Appends (id ∷ byte_list_bytes bytes.now) (IsCount (length bytes.now)) ⊤ sink.old.items sink.new.items result }
    ensures range { (id < 256) × IsBytes bytes.now }
{
    are_bytes(bytes);
    sink.reserve(1)?;
    sink.push_reserved(id);
    encode_bytes(bytes, sink)
}
