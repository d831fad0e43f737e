//! The function section (Core 3.0, Function Section).
ghost use Rattle.wasm_sections.specs.SectionKinds.{function_section};
ghost use Rattle.wasm_sections.specs.ListSections.{AddsItem};

use crate::list_section::{ListSection, SectionItem};
use wasm_codec::encode::EncodeError;

/// A function section: a type index for each function that the module defines (Core 3.0, Function Section).
///
/// # Examples
///
/// ```
/// # use wasm_encoder::{Encode, FunctionSection};
/// let mut functions = FunctionSection::new(rt.alloc());
/// functions.function(0)?;
/// functions.function(133)?;
/// let mut bytes = Vec::new(rt.alloc());
/// functions.encode(&mut bytes)?;
/// assert_eq!(rt; bytes.as_slice(), b"\x04\x02\x00\x85\x01".as_slice());
/// ```
pub type FunctionSection = ListSection<u32>;

impl SectionItem for u32 {
    ghost view = { λ index. index };

    ghost section = { function_section };

    fn section_id() -> u8 {
        3
    }

    #[inline(always)]
    #[tactic(auto, using(crate::proofs::ItemLaws::functions_lawful))]
    fn is_lawful() {}
}

impl ListSection<u32> {
    /// Adds a function of the type with index `type_index`.
    ///
    /// Fails with `TooLong` if the section already has 4,294,967,295 functions.
    pub fn function(&mut self, type_index: u32) -> Result<(), EncodeError>
        ensures adds { AddsItem function_section self.old type_index self.new result }
    {
        self.push(&type_index)
    }
}
