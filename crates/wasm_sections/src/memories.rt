//! The memory section (Core 3.0, Memory Section).
ghost use Rattle.wasm_sections.specs.SectionKinds.{memory_section};
ghost use Rattle.wasm_sections.specs.ListSections.{AddsItem};

use crate::list_section::{ListSection, SectionItem};
use wasm_codec::encode::EncodeError;
use wasm_externals::limits::MemoryType;

/// A memory section: the type of each memory that the module defines (Core 3.0, Memory Section).
///
/// # Examples
///
/// ```
/// # use wasm_encoder::{Encode, MemorySection, MemoryType};
/// let ty = MemoryType { maximum: Some(2), ..MemoryType::new(1) };
/// let mut memories = MemorySection::new(rt.alloc());
/// memories.memory(ty)?;
/// let mut bytes = Vec::new(rt.alloc());
/// memories.encode(&mut bytes)?;
/// assert_eq!(rt; bytes.as_slice(), b"\x04\x01\x01\x01\x02".as_slice());
/// ```
pub type MemorySection = ListSection<MemoryType>;

impl SectionItem for MemoryType {
    ghost view = { λ ty. ty };

    ghost section = { memory_section };

    fn section_id() -> u8 {
        5
    }

    #[inline(always)]
    #[tactic(auto, using(crate::proofs::ItemLaws::memories_lawful))]
    fn is_lawful() {}
}

impl ListSection<MemoryType> {
    /// Adds a memory.
    ///
    /// Fails with `TooLong` if the section already has 4,294,967,295 memories.
    pub fn memory(&mut self, ty: MemoryType) -> Result<(), EncodeError>
        ensures adds { AddsItem memory_section self.old ty self.new result }
    {
        self.push(&ty)
    }
}
