//! The section `producers`: the languages and tools that a module was made with (tool conventions, Producers Section).
ghost use Rattle.std.specs.Prelude.{◌≡◌, ◌↔◌, ◌++◌, ◌⊎◌, [], refl, codes, IsTrue, IfErr, length};
ghost use Rattle.std.proofs.lemmas.List.{map_push};
ghost use Rattle.wasm_codec.specs.Appending.{Appends, AppendsMinimal};
ghost use Rattle.wasm_codec.specs.Encoding.{IsCount, IsMinimal, OnlyTooLong};
ghost use Rattle.wasm_codec.specs.Lawful.{IsLawful};
ghost use Rattle.wasm_codec.specs.Inputs.{Passes};
ghost use Rattle.wasm_codec.specs.Rewriter.{Rewrites};
ghost use Rattle.wasm_codec.specs.Outcomes.{IsMalformed};
ghost use Rattle.wasm_codec.specs.formats.Grammar.{TakesBytes};
ghost use Rattle.wasm_externals.specs.Making.{Makes};
ghost use Rattle.wasm_externals.specs.formats.Names.{name as name_format};
ghost use Rattle.wasm_lists.specs.EncodedLists.{IsFull, IsMemoryOrTooLong, IsUncounted, body_bytes};
ghost use Rattle.wasm_sections.specs.ListSections.{Adds, GainsItem, StandsForItems};
ghost use Rattle.wasm_custom_sections.specs.Gaining.{GainsWith};
ghost use Rattle.wasm_custom_sections.specs.formats.ProducerParts.{FieldParts, ProducerParts, all_field_parts, all_producer_parts, field_parts, producer_parts};
ghost use Rattle.wasm_custom_sections.specs.formats.Producers.{field_of, producer, producer_of, producers_field};

use crate::custom_list::{CustomItem, CustomList};
use std::alloc::{Allocator, Global};
use std::marker::Model;
use wasm_codec::encode::{EncodeError, keep_or_undo};
use wasm_codec::reader::cursor::{Cursor, Fault};
use wasm_codec::rewriter::Rewriter;
use wasm_externals::names::{NameInput, append_name, read_name, rewrite_name};
use wasm_lists::encode::Encode;
use wasm_lists::encoded_list::{Counted, EncodedList};
use wasm_lists::list::Items;
use wasm_lists::readable::{Item, Readable};
use wasm_lists::reading::read_list;
use wasm_lists::rewriting::rewrite_list;

/// A language or a tool, with its version.
#[derive(Clone, Copy, Debug)]
pub struct Producer<'a> {
    /// Name of the language or the tool.
    pub name: &'a str,
    /// Version, which may be empty.
    pub version: &'a str,
}

/// A field of a producers section as it is read: `language`, `processed-by` or `sdk`, and its values.
#[derive(Debug, Drop)]
pub struct Producers<'a> {
    /// Name of the field.
    pub field: &'a str,
    /// Values of the field.
    pub values: Items<Producer<'a>>,
}

/// Takes a name and a version.
#[tactic(auto, unfolding(crate::specs::formats::Producers::producer))]
fn take_producer<'a, I: NameInput<'a>>(input: &mut I) -> Result<Producer<'a>, Fault>
    ensures passes { Passes I.writes producer_parts producer (I.state input.old) (I.state input.new) result }
    ensures err { IfErr result IsMalformed }
{
    let name = input.name()?;
    let version = input.name()?;
    Ok(Producer { name, version })
}

impl<'a> Readable<'a> for Producer<'a> {
    ghost Value = { ProducerParts };

    ghost view = { producer_parts };

    ghost views = { all_producer_parts };

    ghost views_each = { record { none = refl; more = λ items item. map_push producer_parts items item } };

    ghost format = { producer };

    #[inline(always)]
    #[tactic(auto, using(crate::proofs::ProducerLaws::producer_is_lawful, crate::proofs::ProducerLaws::producer_takes))]
    fn is_lawful()
        ensures lawful { IsLawful producer }
        ensures some { TakesBytes producer.Encodes }
    {}

    fn read(_alloc: Global, cursor: &mut Cursor<'a>) -> Result<Producer<'a>, Fault> {
        take_producer(cursor)
    }

    fn rewrite(rewriter: &mut Rewriter) -> Result<(), Fault>
        ensures rewrites { Rewrites producer rewriter.old rewriter.new result }
    {
        take_producer(rewriter)?;
        Ok(())
    }
}

impl<'a> Readable<'a> for Producers<'a> {
    ghost Value = { FieldParts };

    ghost view = { field_parts };

    ghost views = { all_field_parts };

    ghost views_each = { record { none = refl; more = λ items item. map_push field_parts items item } };

    ghost format = { producers_field };

    #[inline(always)]
    #[tactic(auto, using(crate::proofs::ProducerLaws::field_is_lawful, crate::proofs::ProducerLaws::field_takes))]
    fn is_lawful()
        ensures lawful { IsLawful producers_field }
        ensures some { TakesBytes producers_field.Encodes }
    {}

    #[tactic(auto, unfolding(crate::specs::formats::Producers::producers_field))]
    fn read(alloc: Global, cursor: &mut Cursor<'a>) -> Result<Producers<'a>, Fault> {
        let field = read_name(cursor)?;
        let values = read_list(alloc, cursor)?;
        Ok(Producers { field, values })
    }

    #[tactic(auto, using(std::proofs::Common::append_assoc), unfolding(crate::specs::formats::Producers::producers_field))]
    fn rewrite(rewriter: &mut Rewriter) -> Result<(), Fault>
        ensures rewrites { Rewrites producers_field rewriter.old rewriter.new result }
    {
        rewrite_name(rewriter)?;
        rewrite_list::<Item<'static, Producer<'static>>>(rewriter)
    }
}

impl<'a> CustomItem for Producers<'a> {
    ghost Value = { FieldParts };

    ghost format = { producers_field };

    ghost named = { codes "producers" };

    fn section_name() -> &'static str
        ensures { result.now ≡ codes "producers" }
    {
        "producers"
    }

    #[inline(always)]
    #[tactic(auto, using(crate::proofs::ProducerLaws::field_is_lawful))]
    fn is_lawful()
        ensures lawful { IsLawful producers_field }
    {}
}

/// Appends a name and a version. On error a part of them may remain.
fn append_producer<A: Allocator>(
    item: &Producer<'_>,
    sink: &mut Vec<u8, A>,
) -> Result<(), EncodeError>
    ensures { AppendsMinimal producer (producer_parts item.now) (IsCount (length item.now.name.now) × IsCount (length item.now.version.now)) sink.old.items sink.new.items result }
{
    append_name(item.name, sink)?;
    append_name(item.version, sink)
}

/// The name and the version.
///
/// Fails with `TooLong` if one of them is longer than 4,294,967,295 bytes.
impl<'a> Encode for Producer<'a> {
    ghost bytes = { λ item. producer.bytes (producer_parts item) };

    ghost IsWritten = { λ item. IsMinimal producer.Encodes producer.bytes (producer_parts item) };

    ghost CanEncode = { λ item. IsCount (length item.name.now) × IsCount (length item.version.now) };

    ghost refuses = { OnlyTooLong };

    fn encode<A: Allocator>(&self, sink: &mut Vec<u8, A>) -> Result<(), EncodeError> {
        let start = sink.len();
        let result = append_producer(self, sink);
        keep_or_undo(sink, start, result)
    }
}

/// The values of a field: you add names with their versions. In contracts it is their number and their bytes.
///
/// # Examples
///
/// ```
/// # use wasm_encoder::{Encode, ProducersField};
/// let mut field = ProducersField::new(rt.alloc());
/// field.value("clang", "18")?;
/// let mut bytes = Vec::new(rt.alloc());
/// field.encode(&mut bytes)?;
/// assert_eq!(rt; bytes.as_slice(), b"\x01\x05clang\x0218".as_slice());
/// ```
#[derive(Debug, Drop)]
pub struct ProducersField {
    values: EncodedList,
}

impl Model for ProducersField {
    ghost use Rattle.wasm_lists.specs.EncodedLists.{EncodedItems};

    ghost Value = { EncodedItems };

    ghost view = { λ field. field.values };
}

impl ProducersField {
    /// Returns a field without values. Allocates nothing.
    #[tactic(auto, using(crate::proofs::GainingLaws::stands_for_none))]
    pub fn new(alloc: Global) -> ProducersField
        ensures { StandsForItems producer result [] }
    {
        ProducersField {
            values: EncodedList::new(alloc),
        }
    }

    /// Returns the number of values.
    pub fn len(&self) -> u32
        ensures { result ≡ self.now.count }
    {
        self.values.len()
    }

    /// Returns whether the field has no values.
    pub fn is_empty(&self) -> bool
        ensures { IsTrue result ↔ (self.now.count ≡ 0) }
    {
        self.values.len() == 0
    }

    /// Adds a language or a tool, and its version. On error the field is unchanged.
    ///
    /// Fails with `TooLong` if the field already has 4,294,967,295 values, or `name` or `version` is longer than
    /// 4,294,967,295 bytes, and with `Memory` if the field can't grow.
    pub fn value(&mut self, name: &str, version: &str) -> Result<(), EncodeError>
        ensures adds { Adds (GainsItem producer) self.old (producer_of (name.now, version.now)) self.new
            (IsMemoryOrTooLong (IsFull self.old ⊎ (IsUncounted (length name.now) ⊎ IsUncounted (length version.now)))) result }
    {
        self.values.add(&Producer { name, version })
    }

    /// Copies the field. Fails with `Memory` if it can't allocate.
    pub fn try_clone(&self) -> Result<ProducersField, EncodeError>
        ensures makes { Makes self.now result }
    {
        let values = self.values.try_clone()?;
        Ok(ProducersField { values })
    }
}

/// The number of values, and the values.
impl Encode for ProducersField {
    ghost bytes = { body_bytes };

    ghost IsWritten = { λ field. IsCount field.count };

    fn encode<A: Allocator>(&self, sink: &mut Vec<u8, A>) -> Result<(), EncodeError> {
        Counted { list: &self.values }.encode(sink)
    }
}

/// A field whose values are encoded already.
#[derive(Drop)]
struct NamedField<'a> {
    name: &'a str,
    values: &'a ProducersField,
}

/// Appends the name of a field and its values. On error a part of them may remain.
fn append_field<A: Allocator>(
    item: &NamedField<'_>,
    sink: &mut Vec<u8, A>,
) -> Result<(), EncodeError>
    ensures { Appends (name_format.bytes item.now.name.now ++ body_bytes item.now.values.now) (IsCount (length item.now.name.now))
        (IsMinimal name_format.Encodes name_format.bytes item.now.name.now × IsCount item.now.values.now.count) sink.old.items sink.new.items result }
{
    append_name(item.name, sink)?;
    item.values.encode(sink)
}

/// The name of the field, the number of values, and the values.
///
/// Fails with `TooLong` if the name is longer than 4,294,967,295 bytes.
impl<'a> Encode for NamedField<'a> {
    ghost bytes = { λ item. name_format.bytes item.name.now ++ body_bytes item.values.now };

    ghost IsWritten = { λ item. IsMinimal name_format.Encodes name_format.bytes item.name.now × IsCount item.values.now.count };

    ghost CanEncode = { λ item. IsCount (length item.name.now) };

    ghost refuses = { OnlyTooLong };

    fn encode<A: Allocator>(&self, sink: &mut Vec<u8, A>) -> Result<(), EncodeError> {
        let start = sink.len();
        let result = append_field(self, sink);
        keep_or_undo(sink, start, result)
    }
}

/// A producers section: the languages and tools that a module was made with (tool conventions, Producers Section).
///
/// The conventions want each field and each value at most once. Nothing checks that.
///
/// # Examples
///
/// ```
/// # use wasm_encoder::{Encode, ProducersField, ProducersSection};
/// let mut language = ProducersField::new(rt.alloc());
/// language.value("C11", "")?;
/// let mut producers = ProducersSection::new(rt.alloc());
/// producers.field("language", &language)?;
/// let mut bytes = Vec::new(rt.alloc());
/// producers.encode(&mut bytes)?; // the size, the name "producers", one field with one value
/// let expected = b"\x1a\x09producers\x01\x08language\x01\x03C11\x00";
/// assert_eq!(rt; bytes.as_slice(), expected.as_slice());
/// ```
///
/// Reading the contents of such a section, after its name, returns the fields:
///
/// ```
/// # use wasm_encoder::{ProducersSection, read};
/// let contents = b"\x01\x03sdk\x01\x0aEmscripten\x033.1";
/// for producers in &read::<ProducersSection<'_>>(rt.alloc(), contents)? {
///     assert_eq!(rt; producers.field, "sdk");
///     assert_eq!(rt; producers.values.len(), 1);
/// }
/// ```
pub type ProducersSection<'a> = CustomList<Producers<'a>>;

impl<'a> CustomList<Producers<'a>> {
    /// Adds the field `name`: `language`, `processed-by` or `sdk`.
    ///
    /// Fails with `TooLong` if the section already has 4,294,967,295 fields or `name` is longer than 4,294,967,295
    /// bytes.
    pub fn field(&mut self, name: &str, values: &ProducersField) -> Result<(), EncodeError>
        ensures adds { Adds (GainsWith producer producers_field (λ items. field_of (name.now, items))) self.old values.now self.new
            (IsMemoryOrTooLong (IsFull self.old ⊎ IsUncounted (length name.now))) result }
    {
        self.items.add(&NamedField { name, values })
    }
}
