//! Names for indices, and lists of them (Core 3.0, Name Section).
ghost use Rattle.std.specs.Prelude.{◌≡◌, ◌↔◌, ◌++◌, [], refl, IsTrue, OnOk, OnErr, IfErr, length, take};
ghost use Rattle.std.proofs.lemmas.List.{map_push};
ghost use Rattle.wasm_codec.specs.Appending.{AppendsMinimal};
ghost use Rattle.wasm_codec.specs.Encoding.{IsCount, IsMinimal, OnlyTooLong};
ghost use Rattle.wasm_codec.specs.Lawful.{IsLawful};
ghost use Rattle.wasm_codec.specs.Leb128.{unsigned_leb128};
ghost use Rattle.wasm_codec.specs.Inputs.{Passes};
ghost use Rattle.wasm_codec.specs.Rewriter.{Rewrites};
ghost use Rattle.wasm_codec.specs.declared.encode.EncodeError.TheVariants.{Memory};
ghost use Rattle.wasm_codec.specs.Outcomes.{IsMalformed};
ghost use Rattle.wasm_codec.specs.formats.Grammar.{TakesBytes};
ghost use Rattle.wasm_externals.specs.Making.{Makes};
ghost use Rattle.wasm_lists.specs.EncodedLists.{IsFull, IsMemoryOrTooLong, body_bytes};
ghost use Rattle.wasm_sections.specs.ListSections.{Adds, StandsForItems};
ghost use Rattle.wasm_custom_sections.specs.Gaining.{AddsNamed, GainsWith};
ghost use Rattle.wasm_custom_sections.specs.WrittenNames.{AreCountedNames};
ghost use Rattle.wasm_custom_sections.specs.formats.NameParts.{NamingParts, naming_parts, all_naming_parts, IndirectParts, indirect_parts, all_indirect_parts};
ghost use Rattle.wasm_custom_sections.specs.formats.Names.{naming, naming_of, indirect_naming, indirect_of};

use std::alloc::{Allocator, Global};
use std::marker::Model;
use wasm_codec::encode::leb128::put_u32;
use wasm_codec::encode::{EncodeError, keep_or_undo};
use wasm_codec::reader::cursor::{Cursor, Fault};
use wasm_codec::rewriter::Rewriter;
use wasm_externals::names::{NameInput, append_name};
use wasm_lists::encode::{Encode, encode_list};
use wasm_lists::encoded_list::{Counted, EncodedList};
use wasm_lists::list::Items;
use wasm_lists::readable::{Item, Readable};
use wasm_lists::reading::read_list;
use wasm_lists::rewriting::{Rewritable, rewrite_list};

/// A name for an index (Core 3.0, Name Maps).
#[derive(Clone, Copy, Debug)]
pub struct Naming<'a> {
    /// Index of the item.
    pub index: u32,
    /// Name of the item.
    pub name: &'a str,
}

/// Names inside an item, such as those of a function's locals (Core 3.0, Indirect Name Maps).
#[derive(Debug, Drop)]
pub struct IndirectNaming<'a> {
    /// Index of the item.
    pub index: u32,
    /// Names inside the item.
    pub names: Items<Naming<'a>>,
}

/// Takes a name for an index (Core 3.0, Name Maps).
#[tactic(auto, unfolding(crate::specs::formats::Names::naming))]
fn take_naming<'a, I: NameInput<'a>>(input: &mut I) -> Result<Naming<'a>, Fault>
    ensures passes { Passes I.writes naming_parts naming (I.state input.old) (I.state input.new) result }
    ensures err { IfErr result IsMalformed }
{
    let index = input.u32()?;
    let name = input.name()?;
    Ok(Naming { index, name })
}

impl<'a> Readable<'a> for Naming<'a> {
    ghost Value = { NamingParts };

    ghost view = { naming_parts };

    ghost views = { all_naming_parts };

    ghost views_each = { record { none = refl; more = λ names naming. map_push naming_parts names naming } };

    ghost format = { naming };

    #[inline(always)]
    #[tactic(auto, using(crate::proofs::NamingLaws::naming_is_lawful, crate::proofs::NamingLaws::naming_takes))]
    fn is_lawful()
        ensures lawful { IsLawful naming }
        ensures some { TakesBytes naming.Encodes }
    {}

    fn read(_alloc: Global, cursor: &mut Cursor<'a>) -> Result<Naming<'a>, Fault> {
        take_naming(cursor)
    }

    fn rewrite(rewriter: &mut Rewriter) -> Result<(), Fault>
        ensures rewrites { Rewrites naming rewriter.old rewriter.new result }
    {
        take_naming(rewriter)?;
        Ok(())
    }
}

/// Rewrites names inside an item to their minimal encoding.
#[tactic(auto, using(std::proofs::Common::append_assoc), unfolding(crate::specs::formats::Names::indirect_naming))]
fn rewrite_indirect_naming(rewriter: &mut Rewriter) -> Result<(), Fault>
    ensures rewrites { Rewrites indirect_naming rewriter.old rewriter.new result }
{
    rewriter.u32()?;
    rewrite_list::<Item<'static, Naming<'static>>>(rewriter)
}

impl<'a> Readable<'a> for IndirectNaming<'a> {
    ghost Value = { IndirectParts };

    ghost view = { indirect_parts };

    ghost views = { all_indirect_parts };

    ghost views_each = { record { none = refl; more = λ items item. map_push indirect_parts items item } };

    ghost format = { indirect_naming };

    #[inline(always)]
    #[tactic(auto, using(crate::proofs::NamingLaws::indirect_is_lawful, crate::proofs::NamingLaws::indirect_takes))]
    fn is_lawful()
        ensures lawful { IsLawful indirect_naming }
        ensures some { TakesBytes indirect_naming.Encodes }
    {}

    #[tactic(auto, unfolding(crate::specs::formats::Names::indirect_naming))]
    fn read(alloc: Global, cursor: &mut Cursor<'a>) -> Result<IndirectNaming<'a>, Fault> {
        let index = cursor.u32()?;
        let names = read_list(alloc, cursor)?;
        Ok(IndirectNaming { index, names })
    }

    fn rewrite(rewriter: &mut Rewriter) -> Result<(), Fault>
        ensures rewrites { Rewrites indirect_naming rewriter.old rewriter.new result }
    {
        rewrite_indirect_naming(rewriter)
    }
}

/// Names inside an item, to rewrite.
pub(crate) struct AnyIndirectNaming;

impl Rewritable for AnyIndirectNaming {
    ghost Value = { IndirectParts };

    ghost format = { indirect_naming };

    #[inline(always)]
    #[tactic(auto, using(crate::proofs::NamingLaws::indirect_is_lawful, crate::proofs::NamingLaws::indirect_takes))]
    fn is_lawful() {}

    fn rewrite(rewriter: &mut Rewriter) -> Result<(), Fault> {
        rewrite_indirect_naming(rewriter)
    }
}

/// Appends a name for an index. On error a part of it may remain.
fn append_naming<A: Allocator>(item: &Naming<'_>, sink: &mut Vec<u8, A>) -> Result<(), EncodeError>
    ensures { AppendsMinimal naming (naming_parts item.now) (IsCount (length item.now.name.now)) sink.old.items sink.new.items result }
{
    sink.reserve(5)?;
    put_u32(sink, item.index);
    append_name(item.name, sink)
}

/// The index and the name (Core 3.0, Name Maps).
///
/// Fails with `TooLong` if the name is longer than 4,294,967,295 bytes.
impl<'a> Encode for Naming<'a> {
    ghost bytes = { λ item. naming.bytes (naming_parts item) };

    ghost IsWritten = { λ item. IsMinimal naming.Encodes naming.bytes (naming_parts item) };

    ghost CanEncode = { λ item. IsCount (length item.name.now) };

    ghost refuses = { OnlyTooLong };

    fn encode<A: Allocator>(&self, sink: &mut Vec<u8, A>) -> Result<(), EncodeError> {
        let start = sink.len();
        let result = append_naming(self, sink);
        keep_or_undo(sink, start, result)
    }
}

/// Appends names inside an item. On error a part of them may remain.
fn append_indirect_naming<A: Allocator>(
    item: &IndirectNaming<'_>,
    sink: &mut Vec<u8, A>,
) -> Result<(), EncodeError>
    ensures { AppendsMinimal indirect_naming (indirect_parts item.now) (AreCountedNames item.now.names) sink.old.items sink.new.items result }
{
    sink.reserve(5)?;
    put_u32(sink, item.index);
    encode_list(item.names.as_slice(), sink)
}

/// The index, the number of names, and the names (Core 3.0, Indirect Name Maps).
///
/// Fails with `TooLong` if there are more than 4,294,967,295 names, or one is longer than so many bytes.
impl<'a> Encode for IndirectNaming<'a> {
    ghost bytes = { λ item. indirect_naming.bytes (indirect_parts item) };

    ghost IsWritten = { λ item. IsMinimal indirect_naming.Encodes indirect_naming.bytes (indirect_parts item) };

    ghost CanEncode = { λ item. AreCountedNames item.names };

    ghost refuses = { OnlyTooLong };

    fn encode<A: Allocator>(&self, sink: &mut Vec<u8, A>) -> Result<(), EncodeError> {
        let start = sink.len();
        let result = append_indirect_naming(self, sink);
        keep_or_undo(sink, start, result)
    }
}

/// Names for indices, in the order in which you append them (Core 3.0, Name Maps).
///
/// The standard wants ascending indices, each at most once. Nothing checks that. In contracts the map is the number of
/// its names and their bytes.
///
/// # Examples
///
/// ```
/// # use wasm_encoder::{Encode, NameMap};
/// let mut functions = NameMap::new(rt.alloc());
/// functions.append(0, "main")?;
/// let mut bytes = Vec::new(rt.alloc());
/// functions.encode(&mut bytes)?;
/// assert_eq!(rt; bytes.as_slice(), b"\x01\x00\x04main".as_slice());
/// ```
#[derive(Debug, Drop)]
pub struct NameMap {
    names: EncodedList,
}

impl Model for NameMap {
    ghost use Rattle.wasm_lists.specs.EncodedLists.{EncodedItems};

    ghost Value = { EncodedItems };

    ghost view = { λ map. map.names };
}

impl NameMap {
    /// Returns a map without names. Allocates nothing.
    #[tactic(auto, using(crate::proofs::GainingLaws::stands_for_none))]
    pub fn new(alloc: Global) -> NameMap
        ensures { StandsForItems naming result [] }
    {
        NameMap {
            names: EncodedList::new(alloc),
        }
    }

    /// Returns the number of names.
    pub fn len(&self) -> u32
        ensures { result ≡ self.now.count }
    {
        self.names.len()
    }

    /// Returns whether the map has no names.
    pub fn is_empty(&self) -> bool
        ensures { IsTrue result ↔ (self.now.count ≡ 0) }
    {
        self.names.len() == 0
    }

    /// Appends the name `name` for the index `index`. On error the map is unchanged.
    ///
    /// Fails with `TooLong` if the map already has 4,294,967,295 names or `name` is longer than 4,294,967,295 bytes, and
    /// with `Memory` if the map can't grow.
    #[tactic(auto, using(crate::proofs::GainingLaws::adds_naming))]
    pub fn append(&mut self, index: u32, name: &str) -> Result<(), EncodeError>
        ensures adds { AddsNamed naming (length name.now) self.old (naming_of (index, name.now)) self.new result }
    {
        self.names.add(&Naming { index, name })
    }

    /// Copies the map. Fails with `Memory` if it can't allocate.
    pub fn try_clone(&self) -> Result<NameMap, EncodeError>
        ensures makes { Makes self.now result }
    {
        let names = self.names.try_clone()?;
        Ok(NameMap { names })
    }
}

/// The number of names, and the names (Core 3.0, Name Maps).
impl Encode for NameMap {
    ghost bytes = { body_bytes };

    ghost IsWritten = { λ map. IsCount map.count };

    fn encode<A: Allocator>(&self, sink: &mut Vec<u8, A>) -> Result<(), EncodeError>
        ensures ok { OnOk result (sink.new.items ≡ sink.old.items ++ body_bytes self.now) }
        ensures written { OnOk result (IsCount self.now.count) }
        ensures refused { IfErr result (λ e. e ≡ Memory) }
        ensures err { OnErr result (sink.new.items ≡ sink.old.items) }
    {
        Counted { list: &self.names }.encode(sink)
    }
}

/// The names inside an item, which are encoded already.
#[derive(Drop)]
struct ItemNames<'a> {
    index: u32,
    names: &'a NameMap,
}

/// The index, the number of names, and the names (Core 3.0, Indirect Name Maps).
impl<'a> Encode for ItemNames<'a> {
    ghost bytes = { λ item. unsigned_leb128 item.index ++ body_bytes item.names.now };

    ghost IsWritten = { λ item. IsCount item.index × IsCount item.names.now.count };

    fn encode<A: Allocator>(&self, sink: &mut Vec<u8, A>) -> Result<(), EncodeError> {
        let start = sink.len();
        let result = append_item_names(self, sink);
        keep_or_undo(sink, start, result)
    }
}

/// Appends an index and a map. On error a part of it may remain.
fn append_item_names<A: Allocator>(
    item: &ItemNames<'_>,
    sink: &mut Vec<u8, A>,
) -> Result<(), EncodeError>
    ensures ok { OnOk result (sink.new.items ≡ sink.old.items ++ (unsigned_leb128 item.now.index ++ body_bytes item.now.names.now)) }
    ensures written { OnOk result (IsCount item.now.index × IsCount item.now.names.now.count) }
    ensures refused { IfErr result (λ e. e ≡ Memory) }
    ensures kept { take (length sink.old.items) sink.new.items ≡ sink.old.items }
{
    sink.reserve(5)?;
    put_u32(sink, item.index);
    item.names.encode(sink)
}

/// Names inside several items, in the order in which you append them (Core 3.0, Indirect Name Maps).
///
/// The standard wants ascending indices, each at most once. Nothing checks that. In contracts the map is the number of
/// its items and their bytes.
///
/// # Examples
///
/// ```
/// # use wasm_encoder::{Encode, IndirectNameMap, NameMap};
/// let mut parameters = NameMap::new(rt.alloc());
/// parameters.append(0, "x")?;
/// let mut locals = IndirectNameMap::new(rt.alloc());
/// locals.append(3, &parameters)?; // of the function 3
/// let mut bytes = Vec::new(rt.alloc());
/// locals.encode(&mut bytes)?;
/// assert_eq!(rt; bytes.as_slice(), b"\x01\x03\x01\x00\x01x".as_slice());
/// ```
#[derive(Debug, Drop)]
pub struct IndirectNameMap {
    items: EncodedList,
}

impl Model for IndirectNameMap {
    ghost use Rattle.wasm_lists.specs.EncodedLists.{EncodedItems};

    ghost Value = { EncodedItems };

    ghost view = { λ map. map.items };
}

impl IndirectNameMap {
    /// Returns a map without items. Allocates nothing.
    #[tactic(auto, using(crate::proofs::GainingLaws::stands_for_none))]
    pub fn new(alloc: Global) -> IndirectNameMap
        ensures { StandsForItems indirect_naming result [] }
    {
        IndirectNameMap {
            items: EncodedList::new(alloc),
        }
    }

    /// Returns the number of items.
    pub fn len(&self) -> u32
        ensures { result ≡ self.now.count }
    {
        self.items.len()
    }

    /// Returns whether the map has no items.
    pub fn is_empty(&self) -> bool
        ensures { IsTrue result ↔ (self.now.count ≡ 0) }
    {
        self.items.len() == 0
    }

    /// Appends the names inside the item `index`. On error the map is unchanged.
    ///
    /// Fails with `TooLong` if the map already has 4,294,967,295 items, and with `Memory` if the map can't grow.
    #[tactic(auto, using(crate::proofs::GainingLaws::adds_names))]
    pub fn append(&mut self, index: u32, names: &NameMap) -> Result<(), EncodeError>
        ensures adds { Adds (GainsWith naming indirect_naming (λ values. indirect_of (index, values))) self.old names.now self.new
            (IsMemoryOrTooLong (IsFull self.old)) result }
    {
        self.items.add(&ItemNames { index, names })
    }

    /// Copies the map. Fails with `Memory` if it can't allocate.
    pub fn try_clone(&self) -> Result<IndirectNameMap, EncodeError>
        ensures makes { Makes self.now result }
    {
        let items = self.items.try_clone()?;
        Ok(IndirectNameMap { items })
    }
}

/// The number of items, and the names of each (Core 3.0, Indirect Name Maps).
impl Encode for IndirectNameMap {
    ghost bytes = { body_bytes };

    ghost IsWritten = { λ map. IsCount map.count };

    fn encode<A: Allocator>(&self, sink: &mut Vec<u8, A>) -> Result<(), EncodeError>
        ensures ok { OnOk result (sink.new.items ≡ sink.old.items ++ body_bytes self.now) }
        ensures written { OnOk result (IsCount self.now.count) }
        ensures refused { IfErr result (λ e. e ≡ Memory) }
        ensures err { OnErr result (sink.new.items ≡ sink.old.items) }
    {
        Counted { list: &self.items }.encode(sink)
    }
}
