//! The tag section (Core 3.0, Tag Section).
ghost use Rattle.wasm_sections.specs.SectionKinds.{tag_section};
ghost use Rattle.wasm_sections.specs.ListSections.{AddsItem};

use crate::list_section::{ListSection, SectionItem};
use wasm_codec::encode::EncodeError;
use wasm_externals::types::TagType;

/// A tag section: the type of each tag that the module defines (Core 3.0, Tag Section).
///
/// # Examples
///
/// ```
/// # use wasm_encoder::{Encode, TagSection, TagType};
/// # use wasm_encoder::sections::TagKind;
/// let mut tags = TagSection::new(rt.alloc());
/// tags.tag(TagType { kind: TagKind::Exception, func_type_idx: 0 })?;
/// let mut bytes = Vec::new(rt.alloc());
/// tags.encode(&mut bytes)?;
/// assert_eq!(rt; bytes.as_slice(), b"\x03\x01\x00\x00".as_slice());
/// ```
pub type TagSection = ListSection<TagType>;

impl SectionItem for TagType {
    ghost view = { λ ty. ty };

    ghost section = { tag_section };

    fn section_id() -> u8 {
        13
    }

    #[inline(always)]
    #[tactic(auto, using(crate::proofs::ItemLaws::tags_lawful))]
    fn is_lawful() {}
}

impl ListSection<TagType> {
    /// Adds a tag.
    ///
    /// Fails with `TooLong` if the section already has 4,294,967,295 tags.
    pub fn tag(&mut self, ty: TagType) -> Result<(), EncodeError>
        ensures adds { AddsItem tag_section self.old ty self.new result }
    {
        self.push(&ty)
    }
}
