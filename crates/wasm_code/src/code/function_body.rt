//! Function bodies whose instructions are still bytes (Core 3.0, Code Section).
ghost use Rattle.std.proofs.lemmas.List.{map_push};
ghost use Rattle.std.specs.Prelude.{◌≡◌, false, map, refl, true};
ghost use Rattle.wasm_codec.specs.Lawful.{IsLawful};
ghost use Rattle.wasm_codec.specs.Places.{Reads};
ghost use Rattle.wasm_codec.specs.Reading.{map_ok};
ghost use Rattle.wasm_codec.specs.Rewriter.{Rewrites};
ghost use Rattle.wasm_codec.specs.formats.Grammar.{TakesBytes};
ghost use Rattle.wasm_instructions.specs.formats.Instructions.{instruction};
ghost use Rattle.wasm_lists.specs.ItemReading.{GivesToEnd, starting};
ghost use Rattle.wasm_code.specs.formats.CodeBodies.{FunctionParts, function_body, function_bytes, function_parts};

use crate::code::normaliser::rewrite_locals;
use crate::code::reader::read_locals;
use std::alloc::Global;
use wasm_codec::reader::cursor::{Cursor, Fault};
use wasm_codec::reader::malformed::Construct;
use wasm_codec::rewriter::Rewriter;
use wasm_instructions::table::Call;
use wasm_lists::item_reader::ItemReader;
use wasm_lists::list::Items;
use wasm_lists::readable::Readable;
use wasm_lists::rewriting::{RewritableBody, rewrite_sized};
use wasm_types::types::ValType;

/// The locals of a function, and its instructions as bytes (Core 3.0, Code Section).
///
/// # Examples
///
/// ```
/// # use wasm_encoder::{FunctionBody, ItemReader, Opcode};
/// let section = b"\x01\x06\x01\x02\x7f\x20\x00\x0b"; // one function: two locals of type i32; local.get 0; end
/// let mut bodies = ItemReader::<FunctionBody<'_>>::list(rt.alloc(), section)?;
/// while let Some(next) = bodies.next() {
///     let (offset, body) = next?;
///     assert_eq!(rt; offset, 1);
///     let mut instructions = body.instructions(rt.alloc());
///     while let Some(next) = instructions.next() {
///         let (offset, call) = next?;
///         assert!(rt; offset == 0 && call.op() == Opcode::without_prefix(0x20) || offset == 2);
///     }
/// }
/// ```
#[derive(Drop)]
pub struct FunctionBody<'a> {
    /// Groups of locals: the number of locals in a group, and their type.
    pub locals: Items<(u32, ValType)>,
    /// Instructions in order, with the last `end`. They aren't decoded.
    pub instructions: &'a [u8],
}

impl<'a> FunctionBody<'a> {
    /// Returns the instructions one after another, in any encoding. Their offsets start at 0.
    pub fn instructions(&self, alloc: Global) -> ItemReader<'a, Call>
        ensures start { result ≡ starting 0 self.now.instructions.now false }
        ensures gives { GivesToEnd (λ call. call) instruction self.now.instructions.now result }
    {
        ItemReader::to_end(alloc, self.instructions)
    }

    /// Returns the instructions one after another, minimally encoded. Their offsets start at 0.
    pub fn instructions_strict(&self, alloc: Global) -> ItemReader<'a, Call>
        ensures start { result ≡ starting 0 self.now.instructions.now true }
        ensures gives { GivesToEnd (λ call. call) instruction self.now.instructions.now result }
    {
        ItemReader::to_end_strict(alloc, self.instructions)
    }
}

/// The size in bytes of what follows, the list of locals, and the instructions (Core 3.0, Code Section).
impl<'a> Readable<'a> for FunctionBody<'a> {
    ghost Value = { FunctionParts };

    ghost view = { function_parts };

    ghost views = { λ bodies. map function_parts bodies };

    ghost views_each = { record { none = refl; more = λ bodies body. map_push function_parts bodies body } };

    ghost format = { function_body };

    fn read(alloc: Global, cursor: &mut Cursor<'a>) -> Result<FunctionBody<'a>, Fault> {
        read_function_body(alloc, cursor)
    }

    #[inline(always)]
    #[tactic(auto, using(crate::proofs::FunctionBodyLaws::function_laws))]
    fn is_lawful()
        ensures lawful { IsLawful function_body }
        ensures some { TakesBytes function_body.Encodes }
    {}

    #[tactic(auto, unfolding(crate::specs::formats::CodeBodies::function_body))]
    fn rewrite(rewriter: &mut Rewriter) -> Result<(), Fault>
        ensures rewrites { Rewrites function_body rewriter.old rewriter.new result }
    {
        rewrite_sized::<FunctionBytes>(rewriter)
    }
}

/// Reads a function body: its size, its locals, and the bytes after them.
fn read_function_body<'a>(alloc: Global, cursor: &mut Cursor<'a>) -> Result<FunctionBody<'a>, Fault>
    ensures reads { Reads function_body.at cursor.old cursor.new (map_ok function_parts result) }
{
    let mut body = cursor.body()?;
    let locals = read_locals(alloc, &mut body)?;
    let count = body.len();
    let instructions = body.take(count, Construct::Body)?;
    cursor.set_minimal(body.is_minimal());
    Ok(FunctionBody {
        locals,
        instructions,
    })
}

/// The locals of a function and the bytes after them, which take up all bytes of a body.
struct FunctionBytes;

impl RewritableBody for FunctionBytes {
    ghost Value = { FunctionParts };

    ghost format = { function_bytes };

    #[inline(always)]
    #[tactic(auto, using(crate::proofs::FunctionBodyLaws::function_laws))]
    fn is_lawful() {}

    #[tactic(auto, using(std::proofs::Common::append_assoc))]
    fn rewrite(rewriter: &mut Rewriter) -> Result<(), Fault> {
        rewrite_locals(rewriter)?;
        rewriter.rest();
        Ok(())
    }
}
