//! Readers of code section bodies (Core 3.0, Code Section).
ghost use Rattle.std.specs.Prelude.{refl, ◌<◌, true, IfErr};
ghost use Rattle.wasm_codec.specs.Outcomes.{IsMalformed};
ghost use Rattle.wasm_codec.specs.Places.{Reads};
ghost use Rattle.wasm_codec.specs.formats.Combinators.{items};
ghost use Rattle.wasm_code.specs.declared.code.CodeBody.{CodeBody};
ghost use Rattle.wasm_code.specs.formats.CodeBodies.{local_group, code_body, code_section_body, IsCodeSectionBodyPrefix, MinimalCodeSectionBody, IsMinimalCodeSectionBodyPrefix};
ghost use Rattle.wasm_codec.specs.Decoding.{Decodes, DecodesMinimal, Checks};
ghost use Rattle.wasm_code.specs.PrefixFree.{CodeBodiesArePrefixFree};

use crate::code::CodeBody;
use crate::code::normaliser::read_local_group;
use std::alloc::Global;
use wasm_codec::reader::cursor::{Cursor, Fault};
use wasm_codec::reader::{ReadError, without_reason};
use wasm_codec::rewriter::Rewriter;
use wasm_instructions::reader::lists::read_calls;
use wasm_lists::checking::check_list_to_end;
use wasm_lists::list::Items;
use wasm_lists::readable::Readable;
use wasm_lists::reading::read_list_to_end;
use wasm_lists::rewriting::Rewritable;
use wasm_types::types::ValType;

/// Reads a code section body, in any encoding (Core 3.0, Code Section).
///
/// A code body ends by its size: neither nesting nor a final `end` is checked. Fails with `Refused` if the section body
/// is malformed: `at` is the offset of the first malformed or missing code body, or of trailing bytes. It is 0 if the
/// count is malformed. Fails with `Memory` if an allocation fails.
///
/// # Examples
///
/// ```
/// # use wasm_encoder::{ValType, read_code_section};
/// let bodies = read_code_section(rt.alloc(), b"\x01\x06\x01\x02\x7f\x20\x00\x0b")?;
/// assert_eq!(rt; bodies.len(), 1);
/// assert_eq!(rt; bodies[0].locals.as_slice(), [(2, ValType::I32)].as_slice());
/// assert_eq!(rt; bodies[0].calls.len(), 2); // local.get 0; end
/// ```
#[tactic(auto, unfolding(crate::specs::formats::CodeBodies::code_section_body))]
pub fn read_code_section(alloc: Global, body: &[u8]) -> Result<Vec<CodeBody>, ReadError>
    ensures decodes { Decodes (λ bodies. bodies.items) code_section_body IsCodeSectionBodyPrefix body.now result }
    ensures prefix_free { CodeBodiesArePrefixFree }
{
    without_reason(read_list_to_end::<CodeBody, false>(alloc, body))
}

/// Reads a minimally encoded code section body (Core 3.0, Code Section).
///
/// Fails with `Refused` if the section body is malformed or not minimally encoded: `at` is the offset of the first code
/// body that is malformed, missing or not minimal, or of trailing bytes. It is 0 if the count is malformed or not
/// minimal. Fails with `Memory` if an allocation fails.
///
/// # Examples
///
/// ```
/// # use wasm_encoder::{ReadError, read_code_section_strict};
/// let bodies = read_code_section_strict(rt.alloc(), b"\x01\x02\x00\x0b")?; // no locals; end
/// assert_eq!(rt; bodies.len(), 1);
/// let padded = read_code_section_strict(rt.alloc(), b"\x01\x82\x00\x00\x0b"); // a size in two bytes
/// assert_eq!(rt; padded.err(), Some(ReadError::Refused { at: 1 }));
/// ```
pub fn read_code_section_strict(alloc: Global, body: &[u8]) -> Result<Vec<CodeBody>, ReadError>
    ensures decodes { DecodesMinimal (λ bodies. bodies.items) code_section_body MinimalCodeSectionBody IsMinimalCodeSectionBodyPrefix body.now result }
{
    without_reason(read_list_to_end::<CodeBody, true>(alloc, body))
}

impl<'a> Readable<'a> for CodeBody {
    ghost Value = { CodeBody };

    ghost view = { λ body. body };

    ghost views = { λ bodies. bodies };

    ghost views_each = { record { none = refl; more = λ bodies body. refl } };

    ghost format = { code_body };

    fn read(alloc: Global, cursor: &mut Cursor<'a>) -> Result<CodeBody, Fault> {
        read_code_body(alloc, cursor)
    }

    #[inline(always)]
    #[tactic(auto, using(crate::proofs::CodeBodyLaws::code_laws))]
    fn is_lawful() {}

    fn rewrite(rewriter: &mut Rewriter) -> Result<(), Fault> {
        <CodeBody as Rewritable>::rewrite(rewriter)
    }
}

/// Reads a code body: its size, its locals, and instructions up to its end.
fn read_code_body(alloc: Global, cursor: &mut Cursor<'_>) -> Result<CodeBody, Fault>
    ensures reads { Reads code_body.at cursor.old cursor.new result }
{
    let mut code = cursor.body()?;
    let locals = read_locals(alloc, &mut code)?;
    let calls = read_calls(alloc, &mut code)?;
    cursor.set_minimal(code.is_minimal());
    Ok(CodeBody { locals, calls })
}

/// Reads the locals: a count, and as many groups. A pair can't be `Readable` here, since its type isn't of this crate.
pub(crate) fn read_locals(
    alloc: Global,
    cursor: &mut Cursor<'_>,
) -> Result<Items<(u32, ValType)>, Fault>
    ensures reads { Reads (items local_group).at cursor.old cursor.new result }
{
    let count = cursor.u32()?;
    let mut groups = Vec::new(alloc);
    for index in 0..count {
        let group = read_numbered_group(cursor, index)?;
        groups.push(group)?;
    }
    Ok(Items::from(groups))
}

/// Reads the group of locals with this number.
fn read_numbered_group(cursor: &mut Cursor<'_>, index: u32) -> Result<(u32, ValType), Fault>
    ensures reads { Reads local_group.at cursor.old cursor.new result }
    ensures err { IfErr result IsMalformed }
{
    match read_local_group(cursor) {
        Ok(group) => Ok(group),
        Err(Fault::Malformed(malformed)) => {
            Err(Fault::Malformed(malformed.in_item(index).in_locals()))
        }
        Err(Fault::Memory) => Err(Fault::Memory),
    }
}

/// Checks that a code section body is minimally encoded (Core 3.0, Code Section).
///
/// Fails with `Refused` if it isn't: `at` is the offset of the first code body that is malformed, missing or not
/// minimal, or of trailing bytes. It is 0 if the count is malformed or not minimal. Fails with `Memory` if an
/// allocation fails.
///
/// # Examples
///
/// ```
/// # use wasm_encoder::{ReadError, check_code_section};
/// check_code_section(rt.alloc(), b"\x01\x02\x00\x0b")?; // no locals; end
/// let padded = check_code_section(rt.alloc(), b"\x01\x82\x00\x00\x0b"); // a size in two bytes
/// assert_eq!(rt; padded.err(), Some(ReadError::Refused { at: 1 }));
/// ```
pub fn check_code_section(alloc: Global, body: &[u8]) -> Result<(), ReadError>
    ensures checks { Checks code_section_body MinimalCodeSectionBody IsMinimalCodeSectionBodyPrefix body.now result }
{
    without_reason(check_list_to_end::<CodeBody>(alloc, body))
}
