//! Sections with their bodies as bytes (Core 3.0, Sections).
ghost use Rattle.std.specs.Prelude.{◌≡◌, ◌++◌, ◌∷◌, Some, None, OnOk, OnErr, IfErr, IfSome, IfNone, length};
ghost use Rattle.wasm_codec.specs.Encoding.{byte_list_bytes, IsCount, IsRefusal, OnlyTooLong, too_long_at_once};
ghost use Rattle.wasm_code.specs.formats.Sections.{all_parts_of, first_body_of};

use std::alloc::Allocator;
use wasm_codec::encode::{EncodeError, keep_or_undo};
use wasm_lists::encode::{Encode, encode_bytes};

/// Header of every module: the magic number and the version (Core 3.0, Modules).
pub const HEADER: [u8; 8] = [0x00, 0x61, 0x73, 0x6D, 0x01, 0x00, 0x00, 0x00];

/// Id of type sections (Core 3.0, Sections).
pub const TYPE_SECTION_ID: u8 = 1;

/// Id of code sections (Core 3.0, Sections).
pub const CODE_SECTION_ID: u8 = 10;

/// A section of any id, with its body as bytes (Core 3.0, Sections).
///
/// # Examples
///
/// ```
/// # use wasm_encoder::{Module, RawSection};
/// let mut module = Module::new(rt.alloc())?;
/// module.section(&RawSection { id: 3, body: b"\x01\x00" })?;
/// assert_eq!(rt; module.finish().as_slice(), b"\0asm\x01\0\0\0\x03\x02\x01\x00".as_slice());
/// ```
#[derive(Clone, Copy, Debug)]
pub struct RawSection<'a> {
    /// Id of the section.
    pub id: u8,
    /// Body, without its size.
    pub body: &'a [u8],
}

/// The size of the body in bytes, and the body (Core 3.0, Sections).
///
/// Fails with `TooLong` if the body is longer than 4,294,967,295 bytes.
impl<'a> Encode for RawSection<'a> {
    ghost bytes = { λ section. byte_list_bytes section.body.now };

    ghost CanEncode = { λ section. IsCount (length section.body.now) };

    ghost refuses = { OnlyTooLong };

    ghost at_once = { λ section. too_long_at_once (length section.body.now) };

    fn encode<A: Allocator>(&self, sink: &mut Vec<u8, A>) -> Result<(), EncodeError> {
        encode_bytes(self.body, sink)
    }
}

/// Returns the body of the first section whose id is `id`, among sections from
/// [`read_module`](crate::raw::read_module) for example. Returns `None` if there is none.
///
/// # Examples
///
/// ```
/// # use wasm_encoder::{first_body, read_module};
/// let module = b"\0asm\x01\0\0\0\x00\x02\x01n\x03\x02\x01\x00";
/// let sections = read_module(rt.alloc(), module)?;
/// let body = first_body(sections.as_slice(), 3).unwrap_or_default();
/// assert_eq!(rt; body, b"\x01\x00".as_slice());
/// ```
pub fn first_body<'a>(sections: &[RawSection<'a>], id: u8) -> Option<&'a [u8]>
    ensures found { IfSome result (λ body. first_body_of id (all_parts_of sections.now) ≡ Some body.now) }
    ensures missing { IfNone result (first_body_of id (all_parts_of sections.now) ≡ None) }
{
    for section in sections {
        if section.id == id {
            return Some(section.body);
        }
    }
    None
}

/// Appends the id of a section and the section's encoding. On error `dst` is unchanged.
pub fn append_section<S: Encode, A: Allocator>(
    id: u8,
    section: &S,
    dst: &mut Vec<u8, A>,
) -> Result<(), EncodeError>
    ensures ok { OnOk result (dst.new.items ≡ dst.old.items ++ id ∷ S.bytes section.now) }
    ensures can { OnOk result (S.CanEncode section.now) }
    ensures written { OnOk result (S.IsWritten section.now) }
    ensures refused { IfErr result (IsRefusal S.CanEncode S.refuses section.now) }
    ensures err { OnErr result (dst.new.items ≡ dst.old.items) }
{
    let start = dst.len();
    dst.reserve(1)?;
    dst.push_reserved(id);
    let result = section.encode(dst);
    keep_or_undo(dst, start, result)
}
