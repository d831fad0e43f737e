//! The section `metadata.code.branch_hint`: which branches are likely taken (WebAssembly proposal, Branch Hinting).
ghost use Rattle.std.specs.Prelude.{◌≡◌, ◌∷◌, Bool, [], refl, codes, IfErr, length};
ghost use Rattle.wasm_codec.specs.Appending.{AppendsMinimal};
ghost use Rattle.wasm_codec.specs.Encoding.{IsCount, IsMinimal, OnlyTooLong};
ghost use Rattle.wasm_codec.specs.Lawful.{IsLawful};
ghost use Rattle.wasm_codec.specs.Places.{Reads};
ghost use Rattle.wasm_codec.specs.Outcomes.{IsMalformed};
ghost use Rattle.wasm_codec.specs.formats.Bodies.{sized};
ghost use Rattle.wasm_custom_sections.specs.Gaining.{AddsNamed};
ghost use Rattle.wasm_custom_sections.specs.declared.branch_hints.BranchHint.{BranchHint};
ghost use Rattle.wasm_custom_sections.specs.declared.branch_hints.FunctionHints.{FunctionHints};
ghost use Rattle.wasm_custom_sections.specs.formats.BranchHints.{branch_hint, function_hints, hint_value, hints_of};

use crate::custom_list::{CustomItem, CustomList};
use std::alloc::{Allocator, Global};
use wasm_codec::encode::leb128::put_u32;
use wasm_codec::encode::{EncodeError, keep_or_undo};
use wasm_codec::reader::cursor::{Cursor, Fault};
use wasm_codec::reader::malformed::Construct;
use wasm_codec::rewriter::Rewriter;
use wasm_lists::encode::{Encode, encode_list};
use wasm_lists::list::Items;
use wasm_lists::readable::{Item, Readable};
use wasm_lists::reading::read_list;
use wasm_lists::rewriting::{RewritableBody, rewrite_list, rewrite_sized};

/// A hint for a `br_if` or an `if`.
#[derive(Clone, Copy, Debug, PartialEq, Eq)]
pub struct BranchHint {
    /// Offset of the instruction from the beginning of the function body, after its size.
    pub branch_func_offset: u32,
    /// Whether the branch is likely taken.
    pub likely: bool,
}

/// The hints for a function.
#[derive(Debug, PartialEq, Eq, Drop)]
pub struct FunctionHints {
    /// Index of the function.
    pub function_index: u32,
    /// Hints, which the proposal wants in ascending order of their offsets.
    pub hints: Items<BranchHint>,
}

/// Reads the byte of a hint.
#[tactic(auto, unfolding(crate::specs::formats::BranchHints::hint_value))]
fn read_value(cursor: &mut Cursor<'_>) -> Result<bool, Fault>
    ensures reads { Reads hint_value.at cursor.old cursor.new result }
    ensures err { IfErr result IsMalformed }
{
    match cursor.byte_of(Construct::BranchHint)? {
        0x00 => Ok(false),
        0x01 => Ok(true),
        byte => Err(Fault::Malformed(cursor.invalid(Construct::BranchHint, byte))),
    }
}

/// Reads a size and the byte of a hint that fills so many bytes.
fn read_sized_value(cursor: &mut Cursor<'_>) -> Result<bool, Fault>
    ensures reads { Reads (sized hint_value).at cursor.old cursor.new result }
{
    let mut body = cursor.body()?;
    let likely = read_value(&mut body)?;
    if body.len() > 0 {
        return Err(Fault::Malformed(body.trailing()));
    }
    cursor.set_minimal(body.is_minimal());
    Ok(likely)
}

/// The byte of a hint, to rewrite.
struct HintValue;

impl RewritableBody for HintValue {
    ghost Value = { Bool };

    ghost format = { hint_value };

    #[inline(always)]
    #[tactic(auto, using(crate::proofs::HintLaws::value_body_is_lawful))]
    fn is_lawful() {}

    #[tactic(auto, unfolding(crate::specs::formats::BranchHints::hint_value))]
    fn rewrite(rewriter: &mut Rewriter) -> Result<(), Fault> {
        match rewriter.byte_of(Construct::BranchHint)? {
            0x00 => Ok(()),
            0x01 => Ok(()),
            byte => Err(Fault::Malformed(rewriter.invalid(Construct::BranchHint, byte))),
        }
    }
}

impl<'a> Readable<'a> for BranchHint {
    ghost Value = { BranchHint };

    ghost view = { λ x. x };

    ghost views = { λ xs. xs };

    ghost views_each = { record { none = refl; more = λ xs x. refl } };

    ghost format = { branch_hint };

    #[inline(always)]
    #[tactic(auto, using(crate::proofs::HintLaws::hint_is_lawful, crate::proofs::HintLaws::hint_takes))]
    fn is_lawful() {}

    #[tactic(auto, unfolding(crate::specs::formats::BranchHints::branch_hint))]
    fn read(_alloc: Global, cursor: &mut Cursor<'a>) -> Result<BranchHint, Fault> {
        let branch_func_offset = cursor.u32()?;
        let likely = read_sized_value(cursor)?;
        Ok(BranchHint {
            branch_func_offset,
            likely,
        })
    }

    #[tactic(auto, using(std::proofs::Common::append_assoc), unfolding(crate::specs::formats::BranchHints::branch_hint))]
    fn rewrite(rewriter: &mut Rewriter) -> Result<(), Fault> {
        rewriter.u32()?;
        rewrite_sized::<HintValue>(rewriter)
    }
}

impl<'a> Readable<'a> for FunctionHints {
    ghost Value = { FunctionHints };

    ghost view = { λ x. x };

    ghost views = { λ xs. xs };

    ghost views_each = { record { none = refl; more = λ xs x. refl } };

    ghost format = { function_hints };

    #[inline(always)]
    #[tactic(auto, using(crate::proofs::HintLaws::hints_are_lawful, crate::proofs::HintLaws::hints_take))]
    fn is_lawful() {}

    #[tactic(auto, unfolding(crate::specs::formats::BranchHints::function_hints))]
    fn read(alloc: Global, cursor: &mut Cursor<'a>) -> Result<FunctionHints, Fault> {
        let function_index = cursor.u32()?;
        let hints = read_list(alloc, cursor)?;
        Ok(FunctionHints {
            function_index,
            hints,
        })
    }

    #[tactic(auto, using(std::proofs::Common::append_assoc), unfolding(crate::specs::formats::BranchHints::function_hints))]
    fn rewrite(rewriter: &mut Rewriter) -> Result<(), Fault> {
        rewriter.u32()?;
        rewrite_list::<Item<'_, BranchHint>>(rewriter)
    }
}

impl CustomItem for FunctionHints {
    ghost Value = { FunctionHints };

    ghost format = { function_hints };

    ghost named = { codes "metadata.code.branch_hint" };

    fn section_name() -> &'static str
        ensures { result.now ≡ codes "metadata.code.branch_hint" }
    {
        "metadata.code.branch_hint"
    }

    #[inline(always)]
    #[tactic(auto, using(crate::proofs::HintLaws::hints_are_lawful))]
    fn is_lawful()
        ensures lawful { IsLawful function_hints }
    {}
}

/// Returns the byte of a hint.
#[tactic(auto, unfolding(crate::specs::formats::BranchHints::hint_value))]
fn value_byte(likely: bool) -> u8
    ensures { hint_value.bytes likely ≡ result ∷ [] }
{
    if likely { 0x01 } else { 0x00 }
}

/// The offset, the size 1, and a byte.
impl Encode for BranchHint {
    ghost bytes = { branch_hint.bytes };

    ghost IsWritten = { IsMinimal branch_hint.Encodes branch_hint.bytes };

    fn encode<A: Allocator>(&self, sink: &mut Vec<u8, A>) -> Result<(), EncodeError> {
        sink.reserve(11)?;
        put_u32(sink, self.branch_func_offset);
        put_u32(sink, 1);
        sink.push_reserved(value_byte(self.likely));
        Ok(())
    }
}

/// The hints for a function, in a slice.
#[derive(Drop)]
struct HintsOf<'a> {
    function_index: u32,
    hints: &'a [BranchHint],
}

/// Appends an index and hints. On error a part of them may remain.
fn append_hints<A: Allocator>(item: &HintsOf<'_>, sink: &mut Vec<u8, A>) -> Result<(), EncodeError>
    ensures { AppendsMinimal function_hints (hints_of (item.now.function_index, item.now.hints.now)) (IsCount (length item.now.hints.now)) sink.old.items sink.new.items result }
{
    sink.reserve(5)?;
    put_u32(sink, item.function_index);
    encode_list(item.hints, sink)
}

/// The index of the function, the number of hints, and the hints.
///
/// Fails with `TooLong` if there are more than 4,294,967,295 hints.
impl<'a> Encode for HintsOf<'a> {
    ghost bytes = { λ item. function_hints.bytes (hints_of (item.function_index, item.hints.now)) };

    ghost IsWritten = { λ item. IsMinimal function_hints.Encodes function_hints.bytes (hints_of (item.function_index, item.hints.now)) };

    ghost CanEncode = { λ item. IsCount (length item.hints.now) };

    ghost refuses = { OnlyTooLong };

    fn encode<A: Allocator>(&self, sink: &mut Vec<u8, A>) -> Result<(), EncodeError> {
        let start = sink.len();
        let result = append_hints(self, sink);
        keep_or_undo(sink, start, result)
    }
}

/// The index of the function, the number of hints, and the hints.
///
/// Fails with `TooLong` if there are more than 4,294,967,295 hints.
impl Encode for FunctionHints {
    ghost bytes = { function_hints.bytes };

    ghost IsWritten = { IsMinimal function_hints.Encodes function_hints.bytes };

    ghost CanEncode = { λ function. IsCount (length function.hints) };

    ghost refuses = { OnlyTooLong };

    fn encode<A: Allocator>(&self, sink: &mut Vec<u8, A>) -> Result<(), EncodeError> {
        let item = HintsOf {
            function_index: self.function_index,
            hints: self.hints.as_slice(),
        };
        item.encode(sink)
    }
}

/// A section of branch hints, `metadata.code.branch_hint` (WebAssembly proposal, Branch Hinting).
///
/// The section stands before the code section. Nothing checks that, nor the order of functions and offsets.
///
/// # Examples
///
/// ```
/// # use wasm_encoder::{BranchHint, BranchHints};
/// let mut hints = BranchHints::new(rt.alloc());
/// hints.function_hints(3, &[BranchHint { branch_func_offset: 7, likely: true }])?;
/// let contents = hints.contents()?; // one function, 3; one hint: offset 7, size 1, likely
/// assert_eq!(rt; contents.as_slice(), b"\x01\x03\x01\x07\x01\x01".as_slice());
/// ```
///
/// Reading the contents of such a section, after its name, returns the hints:
///
/// ```
/// # use wasm_encoder::{BranchHints, read};
/// for function in &read::<BranchHints>(rt.alloc(), b"\x01\x03\x01\x07\x01\x00")? {
///     assert_eq!(rt; function.function_index, 3);
///     assert!(rt; !function.hints.as_slice()[0].likely);
/// }
/// ```
pub type BranchHints = CustomList<FunctionHints>;

impl CustomList<FunctionHints> {
    /// Adds the hints for the function `function_index`.
    ///
    /// Fails with `TooLong` if the section already has hints for 4,294,967,295 functions or there are more than
    /// 4,294,967,295 hints.
    pub fn function_hints(
        &mut self,
        function_index: u32,
        hints: &[BranchHint],
    ) -> Result<(), EncodeError>
        ensures adds { AddsNamed function_hints (length hints.now) self.old (hints_of (function_index, hints.now)) self.new result }
    {
        self.items.add(&HintsOf {
            function_index,
            hints,
        })
    }
}
