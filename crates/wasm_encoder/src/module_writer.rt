//! A module that is written section by section (Core 3.0, Modules).
ghost use Rattle.std.specs.Prelude.{◌≡◌, [], ℕ, List, Option, IfOk};
ghost use Rattle.std.specs.Io.KnownBytes.{Appends, Keeps};
ghost use Rattle.wasm_codec.specs.Encoding.{IsRefusal};
ghost use Rattle.wasm_code.specs.formats.Sections.{header};
ghost use Rattle.wasm_sections.specs.formats.ModuleSectionParts.{ModuleSectionParts};
ghost use Rattle.wasm_encoder.specs.WrittenModules.{IsWrittenModule, WritesSection};
ghost use Rattle.wasm_encoder.specs.declared.module_writer.WriteError.TheVariants as errors;

use crate::wasm_core::{Module, Section};
use std::alloc::Global;
use std::io;
use std::io::Write;
use std::marker::Model;
use thiserror::Error;
use wasm_codec::encode::EncodeError;
use wasm_codec::streams::write_all;

/// Error of [`ModuleWriter::section`].
#[derive(Debug, Drop, Error)]
pub enum WriteError {
    /// The section has no encoding, or memory ran out. Nothing was written.
    #[error("{0}")]
    Encode(EncodeError),
    /// A write failed. A part of the section may be written.
    #[error("{0}")]
    Io(io::Error),
}

impl From<EncodeError> for WriteError {
    ghost from_gives = { λ error e. e ≡ errors.Encode error };

    fn from(error: EncodeError) -> WriteError {
        WriteError::Encode(error)
    }
}

impl From<io::Error> for WriteError {
    ghost from_gives = { λ error e. e ≡ errors.Io error };

    fn from(error: io::Error) -> WriteError {
        WriteError::Io(error)
    }
}

/// A module that goes to a writer, section by section (Core 3.0, Modules).
///
/// It writes what [`Module`] would hold. The bytes of a section go from the section's own memory to the writer, in two
/// writes for each section, and the module takes no memory of its own. Nothing checks the order of sections.
///
/// In contracts it is the contents of the writer.
///
/// # Examples
///
/// ```
/// # use wasm_encoder::{ExportKind, ExportSection, MemorySection, MemoryType, ModuleWriter};
/// let mut memories = MemorySection::new(rt.alloc());
/// memories.memory(MemoryType::new(1))?;
/// let mut exports = ExportSection::new(rt.alloc());
/// exports.export("memory", ExportKind::Memory, 0)?;
/// let mut module = ModuleWriter::new(rt.alloc(), Vec::new(rt.alloc()))?; // or rt.stdout(), or a file
/// module.section(&memories)?;
/// module.section(&exports)?;
/// let bytes = module.finish()?;
/// let expected = b"\0asm\x01\0\0\0\x05\x03\x01\x00\x01\x07\x0a\x01\x06memory\x02\x00";
/// assert_eq!(rt; bytes.as_slice(), expected.as_slice());
/// ```
#[derive(Debug, Drop)]
pub struct ModuleWriter<W: Write> {
    writer: W,
    alloc: Global,
}

impl<W: Write> Model for ModuleWriter<W> {
    ghost use Rattle.std.specs.Prelude.{ℕ, List, Option};

    ghost Value = { Option (List ℕ) };

    ghost view = { λ m. W.contents m.writer };
}

impl<W: Write + Drop> ModuleWriter<W> {
    /// Writes the header of a module. Fails if a write fails.
    ///
    /// `alloc` is for the few bytes in front of a section, and for a section that [`Section::encoded`] copies.
    #[tactic(auto, using(crate::proofs::WriterLaws::header_written))]
    pub fn new(alloc: Global, mut writer: W) -> io::Result<ModuleWriter<W>>
        ensures ok { IfOk result (λ m. Appends (W.contents writer) m header) }
        // A module without sections was written.
        ensures whole { IfOk result (λ m. IsWrittenModule (W.contents writer) m []) }
    {
        write_all(&mut writer, &Module::HEADER)?;
        Ok(ModuleWriter { writer, alloc })
    }

    /// Writes the id and the encoding of a section.
    ///
    /// Fails with `Encode` if memory runs out or the section has no encoding, and writes nothing then. Fails with `Io`
    /// if a write fails. A part of the section may then be written, and the module can't be completed.
    pub fn section<S: Section>(&mut self, section: &S) -> Result<(), WriteError>
        ensures writes { WritesSection (S.id section.now) (S.bytes section.now) (S.CanEncode section.now) (S.IsWritten section.now)
            (IsRefusal S.CanEncode S.refuses section.now) self.old self.new result }
    {
        let encoded = section.encoded(self.alloc)?;
        encoded.write_to(&mut self.writer)?;
        Ok(())
    }

    /// Flushes the writer, and returns it. Fails if that fails.
    #[tactic(auto, using(crate::proofs::WriterLaws::still_written))]
    pub fn finish(self) -> io::Result<W>
        ensures ok { IfOk result (λ writer. Keeps self (W.contents writer)) }
        // The module that was written stays.
        ensures whole { (start : Option (List ℕ)) (sections : List ModuleSectionParts) → IsWrittenModule start self sections →
            IfOk result (λ writer. IsWrittenModule start (W.contents writer) sections) }
    {
        let ModuleWriter {
            mut writer,
            alloc: _,
        } = self;
        writer.flush()?;
        Ok(writer)
    }
}
