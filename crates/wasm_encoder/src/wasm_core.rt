//! Sections and modules (Core 3.0, Modules).
ghost use Rattle.std.specs.Prelude.{◌≡◌, ◌∷◌, ℕ, List, [], IfOk, IfErr, length};
ghost use Rattle.wasm_codec.specs.Encoding.{IsRefusal};
ghost use Rattle.wasm_code.specs.formats.Sections.{header};
ghost use Rattle.wasm_sections.specs.formats.ModuleSections.{MinimalWholeModule};
ghost use Rattle.wasm_encoder.specs.BuiltModules.{AppendsTo, AppendsSection, BuildsModule};
ghost use Rattle.wasm_encoder.specs.WrittenModules.{EncodesInParts};
ghost use Rattle.wasm_encoder.specs.EncodedLists.{Makes};
ghost use Rattle.wasm_encoder.specs.SectionIds.{section_id};
ghost use Rattle.wasm_codec.specs.declared.encode.EncodeError.TheVariants.{Memory};

use crate::encoded_section::EncodedSection;
use std::alloc::{Allocator, Global};
use std::marker::Model;
use wasm_code::section::{HEADER, RawSection, TYPE_SECTION_ID, append_section};
use wasm_codec::encode::EncodeError;
use wasm_lists::encode::Encode;
use wasm_sections::module_sections::ModuleSection;

/// A section of a module: an id, and an encoding that is the size of a body in bytes and the body.
///
/// Implement it for sections of your own. Nothing checks the id or the bytes.
///
/// # Examples
///
/// ```
/// # use wasm_encoder::{RawSection, Section};
/// let mut bytes = Vec::new(rt.alloc());
/// RawSection { id: 0, body: b"\x04test\x2a" }.append_to(&mut bytes)?;
/// assert_eq!(rt; bytes.as_slice(), b"\x00\x06\x04test\x2a".as_slice());
/// ```
pub trait Section: Encode {
    /// The id of the section.
    ghost id: { Self → ℕ };

    /// Returns the id of the section.
    fn id(&self) -> u8
        ensures { result ≡ id self.now };

    /// Appends the id and the encoding of the section to `dst`. On error `dst` is unchanged.
    ///
    /// Fails with `Memory` if `dst` can't grow, and with the errors of the section's `encode`.
    fn append_to<A: Allocator>(&self, dst: &mut Vec<u8, A>) -> Result<(), EncodeError>
        ensures appends { AppendsTo (id self.now) (Self.bytes self.now) (Self.CanEncode self.now) (Self.IsWritten self.now)
            (IsRefusal Self.CanEncode Self.refuses self.now) dst.old.items dst.new.items result }
    {
        append_section(self.id(), self, dst)
    }

    /// Returns the id and the encoding of the section, for a [`ModuleWriter`](crate::ModuleWriter).
    ///
    /// By default it copies the encoding. Sections that keep their bytes lend them instead: `TypeSection`, `CodeSection`,
    /// each `ListSection`, `CustomSection`, `NameSection` and `RawSection`. Fails with `Memory`, and with the errors of
    /// `encode`.
    fn encoded(&self, alloc: Global) -> Result<EncodedSection<'_>, EncodeError>
        ensures encodes { EncodesInParts (id self.now) (Self.bytes self.now) (Self.CanEncode self.now) (Self.IsWritten self.now)
            (IsRefusal Self.CanEncode Self.refuses self.now) result }
    {
        let mut front = Vec::new(alloc);
        append_section(self.id(), self, &mut front)?;
        Ok(EncodedSection::new(front, &[]))
    }
}

impl<'a> Section for RawSection<'a> {
    ghost id = { λ section. section.id };

    fn id(&self) -> u8 {
        self.id
    }

    fn encoded(&self, alloc: Global) -> Result<EncodedSection<'_>, EncodeError> {
        EncodedSection::of_body(alloc, self.id, self.body)
    }
}

/// The id of one of the standard's sections (Core 3.0, Sections).
#[derive(Clone, Copy, Debug, PartialEq, Eq, PartialOrd, Ord)]
pub enum SectionId {
    /// A custom section, 0.
    Custom,
    /// The type section, 1.
    Types,
    /// The import section, 2.
    Import,
    /// The function section, 3.
    Function,
    /// The table section, 4.
    Table,
    /// The memory section, 5.
    Memory,
    /// The global section, 6.
    Global,
    /// The export section, 7.
    Export,
    /// The start section, 8.
    Start,
    /// The element section, 9.
    Element,
    /// The code section, 10.
    Code,
    /// The data section, 11.
    Data,
    /// The data count section, 12.
    DataCount,
    /// The tag section, 13.
    Tag,
}

impl From<SectionId> for u8 {
    ghost from_gives = { λ id byte. byte ≡ section_id id };

    fn from(id: SectionId) -> u8 {
        match id {
            SectionId::Custom => 0,
            SectionId::Types => TYPE_SECTION_ID,
            SectionId::Import => 2,
            SectionId::Function => 3,
            SectionId::Table => 4,
            SectionId::Memory => 5,
            SectionId::Global => 6,
            SectionId::Export => 7,
            SectionId::Start => 8,
            SectionId::Element => 9,
            SectionId::Code => 10,
            SectionId::Data => 11,
            SectionId::DataCount => 12,
            SectionId::Tag => 13,
        }
    }
}

/// One byte (Core 3.0, Sections).
impl Encode for SectionId {
    ghost bytes = { λ id. section_id id ∷ [] };

    fn encode<A: Allocator>(&self, sink: &mut Vec<u8, A>) -> Result<(), EncodeError> {
        sink.reserve(1)?;
        sink.push_reserved(u8::from(*self));
        Ok(())
    }
}

/// A module: a header, and then the id and the encoding of each section (Core 3.0, Modules).
///
/// Nothing checks the order of sections. In contracts the module is its bytes.
///
/// # Examples
///
/// ```
/// # use wasm_encoder::{ConstExpr, ExportKind, ExportSection, GlobalSection, GlobalType, Module, ValType};
/// let mut globals = GlobalSection::new(rt.alloc());
/// globals.global(GlobalType::new(ValType::I32, false), ConstExpr::i32_const(rt.alloc(), 42)?)?;
/// let mut exports = ExportSection::new(rt.alloc());
/// exports.export("answer", ExportKind::Global, 0)?;
/// let mut module = Module::new(rt.alloc())?;
/// module.section(&globals)?;
/// module.section(&exports)?;
/// let expected = b"\0asm\x01\0\0\0\x06\x06\x01\x7f\x00\x41\x2a\x0b\x07\x0a\x01\x06answer\x03\x00";
/// assert_eq!(rt; module.as_slice(), expected.as_slice());
/// ```
#[derive(Debug, Drop)]
pub struct Module {
    bytes: Vec<u8>,
}

impl Model for Module {
    ghost use Rattle.std.specs.Prelude.{ℕ, List};

    ghost Value = { List ℕ };

    ghost view = { λ m. m.bytes.items };
}

impl Module {
    /// The bytes that every module begins with: the magic number and the version.
    pub const HEADER: [u8; 8] = HEADER;

    /// Returns a module without sections. Fails with `Memory` if it can't allocate.
    #[tactic(auto, using(crate::proofs::WholeModuleLaws::no_sections))]
    pub fn new(alloc: Global) -> Result<Module, EncodeError>
        ensures ok { IfOk result (λ m. m ≡ header) }
        // The header is the minimal encoding of a module without sections.
        ensures whole { IfOk result (λ m. MinimalWholeModule m []) }
        ensures err { IfErr result (λ e. e ≡ Memory) }
    {
        let bytes = Vec::from_slice(alloc, &Module::HEADER)?;
        Ok(Module { bytes })
    }

    /// Returns a module of these sections, as `read_whole_module` returns them.
    ///
    /// If they were read from a module, it is what `normalise::<WholeModule>` returns for that module. Fails with
    /// `Memory` if it can't allocate. Fails with `TooLong` if a list in a section has more than 4,294,967,295 items, or
    /// a name, bytes or the body of a section have more bytes than that.
    ///
    /// # Examples
    ///
    /// ```
    /// # use wasm_encoder::{Module, ModuleSection, read_whole_module};
    /// let padded = b"\0asm\x01\0\0\0\x08\x83\x00\x85\x80\x00"; // a start section, size and index padded
    /// let mut sections = read_whole_module(rt.alloc(), padded)?;
    /// sections.push(ModuleSection::DataCount(3))?;
    /// let module = Module::from_sections(rt.alloc(), &sections)?;
    /// assert_eq!(rt; module.as_slice(), b"\0asm\x01\0\0\0\x08\x01\x05\x0c\x01\x03".as_slice());
    /// ```
    pub fn from_sections(
        alloc: Global,
        sections: &[ModuleSection<'_>],
    ) -> Result<Module, EncodeError>
        ensures builds { BuildsModule sections.now result }
    {
        let mut module = Module::new(alloc)?;
        for section in sections {
            module.section(section)?;
        }
        Ok(module)
    }

    /// Appends the id and the encoding of a section. On error the module is unchanged.
    ///
    /// Fails with `Memory` if the module can't grow, and with the errors of the section's `encode`. It calls the
    /// section's `id` and `encode`, never its `append_to`.
    pub fn section<S: Section>(&mut self, section: &S) -> Result<(), EncodeError>
        ensures appends { AppendsSection (S.id section.now) (S.bytes section.now) (S.CanEncode section.now) (S.IsWritten section.now)
            (IsRefusal S.CanEncode S.refuses section.now) self.old self.new result }
    {
        append_section(section.id(), section, &mut self.bytes)
    }

    /// Returns the bytes of the module.
    pub fn as_slice(&self) -> &[u8]
        ensures value { result.now ≡ self.now }
    {
        self.bytes.as_slice()
    }

    /// Returns the length of the module in bytes.
    pub fn len(&self) -> usize
        ensures { result ≡ length self.now }
    {
        self.bytes.len()
    }

    /// Returns the list that holds the bytes of the module.
    pub fn finish(self) -> Vec<u8>
        ensures { result.items ≡ self }
    {
        let Module { bytes } = self;
        bytes
    }

    /// Copies the module. Fails with `Memory` if it can't allocate.
    pub fn try_clone(&self) -> Result<Module, EncodeError>
        ensures makes { Makes self.now result }
    {
        let bytes = Vec::from_slice(*self.bytes.allocator(), self.bytes.as_slice())?;
        Ok(Module { bytes })
    }
}
