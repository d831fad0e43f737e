//! Core dumps: the stack of a thread (tool conventions, Core Dumps).
ghost use Rattle.std.specs.Prelude.{◌≡◌, ◌↔◌, ◌⊎◌, [], refl, codes, ⊤, IsTrue, IfOk, IfErr, length, ◌≤◌};
ghost use Rattle.std.proofs.lemmas.List.{map_push};
ghost use Rattle.wasm_codec.specs.Decoding.{ChecksAll, TakesMinimal, RewritesInPlace};
ghost use Rattle.wasm_codec.specs.Appending.{Appends, AppendsMinimal};
ghost use Rattle.wasm_codec.specs.Encoding.{IsCount, IsCountRefusal, IsMinimal, OnlyTooLong};
ghost use Rattle.wasm_codec.specs.Lawful.{IsLawful, IsLawfulBody};
ghost use Rattle.wasm_codec.specs.Outcomes.{IfMalformed, LiesIn, NeedsNoMemory, as_read};
ghost use Rattle.wasm_codec.specs.Rewriter.{Rewrites};
ghost use Rattle.wasm_codec.specs.formats.Combinators.{minimal_only};
ghost use Rattle.wasm_codec.specs.formats.Grammar.{TakesBytes};
ghost use Rattle.wasm_externals.specs.Making.{Makes};
ghost use Rattle.wasm_lists.specs.EncodedLists.{IsFull, IsMemoryOrTooLong, IsUncounted};
ghost use Rattle.wasm_sections.specs.ListSections.{Adds, GainsItem, StandsForItems};
ghost use Rattle.wasm_code.specs.DecodedPrefixes.{ArePrefixes, IsNothingOr};
ghost use Rattle.wasm_custom_sections.specs.CoreDumpSections.{HoldsStack, stack_bytes};
ghost use Rattle.wasm_custom_sections.specs.NamedSections.{CountedNamed, IsNamedSection, named_bytes};
ghost use Rattle.wasm_custom_sections.specs.declared.core_stacks.CoreDumpStackFrame.{CoreDumpStackFrame};
ghost use Rattle.wasm_custom_sections.specs.formats.CoreStacks.{StackParts, all_stack_parts, core_frame, core_stack, frame_of, stack_parts};

use crate::core_values::CoreDumpValue;
use crate::whole_values::{Whole, append_named, read_value_to_end};
use std::alloc::{Allocator, Global};
use std::marker::Model;
use wasm_code::decode::Decode;
use wasm_codec::encode::leb128::put_u32;
use wasm_codec::encode::{EncodeError, keep_or_undo};
use wasm_codec::reader::DecodeError;
use wasm_codec::reader::cursor::{Cursor, Fault};
use wasm_codec::reader::malformed::Construct;
use wasm_codec::rewriter::Rewriter;
use wasm_externals::names::{append_name, read_name, rewrite_name};
use wasm_lists::encode::{Encode, encode_list};
use wasm_lists::encoded_list::{Counted, EncodedList};
use wasm_lists::list::Items;
use wasm_lists::readable::{Item, Readable};
use wasm_lists::reading::read_list;
use wasm_lists::rewriting::rewrite_list;
use wasm_sections::bodies::rewrite_body;

/// A frame of a stack in a core dump.
#[derive(Debug, PartialEq, Eq, Drop)]
pub struct CoreDumpStackFrame {
    /// Index of the instance in the section `coreinstances`.
    pub instance_index: u32,
    /// Index of the function.
    pub function_index: u32,
    /// Offset of the instruction in the function.
    pub code_offset: u32,
    /// Values of the locals.
    pub locals: Items<CoreDumpValue>,
    /// Values on the stack.
    pub stack: Items<CoreDumpValue>,
}

/// A section `corestack` as it is read: a thread and the frames of its stack.
#[derive(Debug, Drop)]
pub struct CoreDumpStack<'a> {
    /// Name of the thread.
    pub name: &'a str,
    /// Frames of the stack.
    pub frames: Items<CoreDumpStackFrame>,
}

impl<'a> Readable<'a> for CoreDumpStackFrame {
    ghost Value = { CoreDumpStackFrame };

    ghost view = { λ x. x };

    ghost views = { λ xs. xs };

    ghost views_each = { record { none = refl; more = λ xs x. refl } };

    ghost format = { core_frame };

    #[inline(always)]
    #[tactic(auto, using(crate::proofs::CoreStackLaws::frame_is_lawful, crate::proofs::CoreStackLaws::frame_takes))]
    fn is_lawful() {}

    #[tactic(auto, unfolding(crate::specs::formats::CoreStacks::core_frame))]
    fn read(alloc: Global, cursor: &mut Cursor<'a>) -> Result<CoreDumpStackFrame, Fault> {
        let byte = cursor.byte_of(Construct::Reserved)?;
        if byte != 0x00 {
            return Err(Fault::Malformed(cursor.invalid(Construct::Reserved, byte)));
        }
        let instance_index = cursor.u32()?;
        let function_index = cursor.u32()?;
        let code_offset = cursor.u32()?;
        let locals = read_list(alloc, cursor)?;
        let stack = read_list(alloc, cursor)?;
        Ok(CoreDumpStackFrame {
            instance_index,
            function_index,
            code_offset,
            locals,
            stack,
        })
    }

    #[tactic(auto, using(std::proofs::Common::append_assoc), unfolding(crate::specs::formats::CoreStacks::core_frame))]
    fn rewrite(rewriter: &mut Rewriter) -> Result<(), Fault>
        ensures rewrites { Rewrites core_frame rewriter.old rewriter.new result }
    {
        let byte = rewriter.byte_of(Construct::Reserved)?;
        if byte != 0x00 {
            return Err(Fault::Malformed(rewriter.invalid(Construct::Reserved, byte)));
        }
        rewriter.u32()?;
        rewriter.u32()?;
        rewriter.u32()?;
        rewrite_list::<Item<'static, CoreDumpValue>>(rewriter)?;
        rewrite_list::<Item<'static, CoreDumpValue>>(rewriter)
    }
}

impl<'a> Readable<'a> for CoreDumpStack<'a> {
    ghost Value = { StackParts };

    ghost view = { stack_parts };

    ghost views = { all_stack_parts };

    ghost views_each = { record { none = refl; more = λ items item. map_push stack_parts items item } };

    ghost format = { core_stack };

    #[inline(always)]
    #[tactic(auto, using(crate::proofs::CoreStackLaws::stack_is_lawful, crate::proofs::CoreStackLaws::stack_takes))]
    fn is_lawful()
        ensures lawful { IsLawful core_stack }
        ensures some { TakesBytes core_stack.Encodes }
    {}

    #[tactic(auto, unfolding(crate::specs::formats::CoreStacks::core_stack))]
    fn read(alloc: Global, cursor: &mut Cursor<'a>) -> Result<CoreDumpStack<'a>, Fault> {
        let byte = cursor.byte_of(Construct::Reserved)?;
        if byte != 0x00 {
            return Err(Fault::Malformed(cursor.invalid(Construct::Reserved, byte)));
        }
        let name = read_name(cursor)?;
        let frames = read_list(alloc, cursor)?;
        Ok(CoreDumpStack { name, frames })
    }

    #[tactic(auto, using(std::proofs::Common::append_assoc), unfolding(crate::specs::formats::CoreStacks::core_stack))]
    fn rewrite(rewriter: &mut Rewriter) -> Result<(), Fault>
        ensures rewrites { Rewrites core_stack rewriter.old rewriter.new result }
    {
        let byte = rewriter.byte_of(Construct::Reserved)?;
        if byte != 0x00 {
            return Err(Fault::Malformed(rewriter.invalid(Construct::Reserved, byte)));
        }
        rewrite_name(rewriter)?;
        rewrite_list::<Item<'static, CoreDumpStackFrame>>(rewriter)
    }
}

/// A frame whose values are in slices.
#[derive(Drop)]
struct FrameOf<'a> {
    instance_index: u32,
    function_index: u32,
    code_offset: u32,
    locals: &'a [CoreDumpValue],
    stack: &'a [CoreDumpValue],
}

/// Appends a frame. On error a part of it may remain.
fn append_frame<A: Allocator>(item: &FrameOf<'_>, sink: &mut Vec<u8, A>) -> Result<(), EncodeError>
    ensures { AppendsMinimal core_frame (frame_of (item.now.instance_index, (item.now.function_index, (item.now.code_offset, (item.now.locals.now, item.now.stack.now)))))
        (IsCount (length item.now.locals.now) × IsCount (length item.now.stack.now)) sink.old.items sink.new.items result }
{
    sink.reserve(16)?;
    sink.push_reserved(0x00);
    put_u32(sink, item.instance_index);
    put_u32(sink, item.function_index);
    put_u32(sink, item.code_offset);
    encode_list(item.locals, sink)?;
    encode_list(item.stack, sink)
}

/// The byte 0x00, the index of the instance, that of the function, the offset, and the lists of locals and of values on
/// the stack.
///
/// Fails with `TooLong` if a list has more than 4,294,967,295 values.
impl<'a> Encode for FrameOf<'a> {
    ghost bytes = { λ item. core_frame.bytes (frame_of (item.instance_index, (item.function_index, (item.code_offset, (item.locals.now, item.stack.now))))) };

    ghost IsWritten = { λ item. IsMinimal core_frame.Encodes core_frame.bytes (frame_of (item.instance_index, (item.function_index, (item.code_offset, (item.locals.now, item.stack.now))))) };

    ghost CanEncode = { λ item. IsCount (length item.locals.now) × IsCount (length item.stack.now) };

    ghost refuses = { OnlyTooLong };

    fn encode<A: Allocator>(&self, sink: &mut Vec<u8, A>) -> Result<(), EncodeError> {
        let start = sink.len();
        let result = append_frame(self, sink);
        keep_or_undo(sink, start, result)
    }
}

/// A section `corestack`: a thread of a core dump and the frames of its stack (tool conventions, Core Dumps). You add
/// frames, and it keeps them encoded.
///
/// On error the section is unchanged. In contracts it is the name of the thread, and the frames' number and bytes.
///
/// # Examples
///
/// ```
/// # use wasm_encoder::{CoreDumpStackSection, CoreDumpValue};
/// let mut stack = CoreDumpStackSection::new(rt.alloc(), "main");
/// stack.frame(0, 42, 0x1234, &[CoreDumpValue::I32(1)], &[CoreDumpValue::I32(2)])?;
/// let contents = stack.contents()?; // 0x00, the name "main", one frame with a local and a value on the stack
/// let expected = b"\x00\x04main\x01\x00\x00\x2a\xb4\x24\x01\x7f\x01\x01\x7f\x02";
/// assert_eq!(rt; contents.as_slice(), expected.as_slice());
/// ```
///
/// Reading the contents of such a section, after its name, returns the thread and its frames:
///
/// ```
/// # use wasm_encoder::{CoreDumpStackSection, CoreDumpValue, read};
/// let contents = b"\x00\x04main\x01\x00\x00\x2a\x07\x01\x01\x00";
/// let thread = read::<CoreDumpStackSection<'_>>(rt.alloc(), contents)?;
/// assert_eq!(rt; thread.name, "main");
/// let frame = &thread.frames.as_slice()[0];
/// assert_eq!(rt; frame.function_index, 42);
/// assert_eq!(rt; frame.locals.as_slice(), [CoreDumpValue::Missing].as_slice());
/// ```
#[derive(Debug, Drop)]
pub struct CoreDumpStackSection<'a> {
    name: &'a str,
    frames: EncodedList,
}

impl<'a> Model for CoreDumpStackSection<'a> {
    ghost use Rattle.wasm_custom_sections.specs.CoreDumpSections.{BuiltStack};

    ghost Value = { BuiltStack };

    ghost view = { λ section. record { name = section.name.now; frames = section.frames } };
}

impl<'a> CoreDumpStackSection<'a> {
    /// Returns the section of a thread of this name without frames. Allocates nothing.
    #[tactic(auto, using(crate::proofs::GainingLaws::stands_for_none))]
    pub fn new(alloc: Global, name: &'a str) -> CoreDumpStackSection<'a>
        ensures name { result.name ≡ name.now }
        ensures frames { StandsForItems core_frame result.frames [] }
    {
        CoreDumpStackSection {
            name,
            frames: EncodedList::new(alloc),
        }
    }

    /// Returns the number of frames.
    pub fn len(&self) -> u32
        ensures { result ≡ self.now.frames.count }
    {
        self.frames.len()
    }

    /// Returns whether the section has no frames.
    pub fn is_empty(&self) -> bool
        ensures { IsTrue result ↔ (self.now.frames.count ≡ 0) }
    {
        self.frames.len() == 0
    }

    /// Adds a frame of the function `function_index` of the instance `instance_index`.
    ///
    /// `code_offset` is the offset of the instruction in the function. Fails with `TooLong` if the section already has
    /// 4,294,967,295 frames, or `locals` or `stack` has more than 4,294,967,295 values, and with `Memory` if the section
    /// can't grow.
    pub fn frame(
        &mut self,
        instance_index: u32,
        function_index: u32,
        code_offset: u32,
        locals: &[CoreDumpValue],
        stack: &[CoreDumpValue],
    ) -> Result<(), EncodeError>
        ensures adds { Adds (GainsItem core_frame) self.old.frames (frame_of (instance_index, (function_index, (code_offset, (locals.now, stack.now))))) self.new.frames
            (IsMemoryOrTooLong (IsFull self.old.frames ⊎ (IsUncounted (length locals.now) ⊎ IsUncounted (length stack.now)))) result }
        ensures name { self.new.name ≡ self.old.name }
    {
        self.frames.add(&FrameOf {
            instance_index,
            function_index,
            code_offset,
            locals,
            stack,
        })
    }

    /// Returns the contents of the section after its name.
    ///
    /// Fails with `TooLong` if the name of the thread is longer than 4,294,967,295 bytes, and with `Memory` if it can't
    /// allocate.
    pub fn contents(&self) -> Result<Vec<u8>, EncodeError>
        ensures ok { IfOk result (λ contents. contents.items ≡ stack_bytes self.now) }
        ensures refused { IfErr result (IsCountRefusal (length self.now.name)) }
    {
        let mut contents = Vec::new(self.frames.allocator());
        self.as_contents().encode(&mut contents)?;
        Ok(contents)
    }

    /// Returns the contents of the section, to encode.
    fn as_contents(&self) -> StackContents<'_>
        ensures name { result.name.now ≡ self.now.name }
        ensures frames { result.frames.now ≡ self.now.frames }
    {
        StackContents {
            name: self.name,
            frames: &self.frames,
        }
    }

    /// Copies the section. Fails with `Memory` if it can't allocate.
    pub fn try_clone(&self) -> Result<CoreDumpStackSection<'a>, EncodeError>
        ensures makes { Makes self.now result }
    {
        let frames = self.frames.try_clone()?;
        Ok(CoreDumpStackSection {
            name: self.name,
            frames,
        })
    }
}

/// The contents of a section whose frames are encoded already.
#[derive(Drop)]
struct StackContents<'a> {
    name: &'a str,
    frames: &'a EncodedList,
}

/// Appends the contents of a section. On error a part of them may remain.
fn append_contents<A: Allocator>(
    item: &StackContents<'_>,
    sink: &mut Vec<u8, A>,
) -> Result<(), EncodeError>
    ensures { Appends (stack_bytes (record { name = item.now.name.now; frames = item.now.frames.now })) (IsCount (length item.now.name.now))
        (HoldsStack (record { name = item.now.name.now; frames = item.now.frames.now })) sink.old.items sink.new.items result }
{
    sink.reserve(1)?;
    sink.push_reserved(0x00);
    append_name(item.name, sink)?;
    Counted { list: item.frames }.encode(sink)
}

/// The byte 0x00, the name of the thread, the number of frames, and the frames.
///
/// Fails with `TooLong` if the name is longer than 4,294,967,295 bytes.
impl<'a> Encode for StackContents<'a> {
    ghost bytes = { λ item. stack_bytes (record { name = item.name.now; frames = item.frames.now }) };

    ghost IsWritten = { λ item. HoldsStack (record { name = item.name.now; frames = item.frames.now }) };

    ghost CanEncode = { λ item. IsCount (length item.name.now) };

    ghost refuses = { OnlyTooLong };

    fn encode<A: Allocator>(&self, sink: &mut Vec<u8, A>) -> Result<(), EncodeError> {
        let start = sink.len();
        let result = append_contents(self, sink);
        keep_or_undo(sink, start, result)
    }
}

/// The size of the body in bytes, the name `corestack`, the byte 0x00, the name of the thread, and the frames.
///
/// Fails with `TooLong` if the body is longer than 4,294,967,295 bytes.
impl<'a> Encode for CoreDumpStackSection<'a> {
    ghost bytes = { λ section. named_bytes (codes "corestack") (stack_bytes section) };

    ghost IsWritten = { λ section. HoldsStack section × IsNamedSection (codes "corestack") (stack_bytes section) };

    ghost CanEncode = { λ section. CountedNamed (codes "corestack") (stack_bytes section) };

    ghost refuses = { OnlyTooLong };

    fn encode<A: Allocator>(&self, sink: &mut Vec<u8, A>) -> Result<(), EncodeError> {
        let start = sink.len();
        let result = append_named("corestack", &self.as_contents(), sink);
        keep_or_undo(sink, start, result)
    }
}

/// The contents after the name, as `read::<CoreDumpStackSection>` returns them: the byte 0x00, the name of the thread, and
/// the frames.
impl<'a> Decode<'a> for CoreDumpStackSection<'a> {
    type Output = CoreDumpStack<'a>;

    ghost Value = { StackParts };

    ghost view = { stack_parts };

    ghost format = { core_stack };

    ghost Minimal = { (minimal_only core_stack).Encodes };

    ghost IsPrefix = { IsNothingOr core_stack };

    ghost IsMinimalPrefix = { IsNothingOr (minimal_only core_stack) };

    #[inline(always)]
    #[tactic(auto, using(crate::proofs::CoreStackLaws::stack_body_is_lawful))]
    fn is_lawful()
        ensures lawful { IsLawfulBody core_stack }
        ensures minimal { TakesMinimal core_stack (minimal_only core_stack).Encodes }
        ensures prefixes { ArePrefixes core_stack.Encodes (IsNothingOr core_stack) }
        ensures minimal_prefixes { ArePrefixes (minimal_only core_stack).Encodes (IsNothingOr (minimal_only core_stack)) }
    {}

    fn read_all(alloc: Global, bytes: &'a [u8]) -> Result<CoreDumpStack<'a>, DecodeError> {
        read_value_to_end::<CoreDumpStack<'a>, false>(alloc, bytes)
    }

    fn read_all_strict(alloc: Global, bytes: &'a [u8]) -> Result<CoreDumpStack<'a>, DecodeError> {
        read_value_to_end::<CoreDumpStack<'a>, true>(alloc, bytes)
    }

    fn check_all(alloc: Global, bytes: &[u8]) -> Result<(), DecodeError>
        ensures checks { ChecksAll (minimal_only core_stack).Encodes (IsNothingOr (minimal_only core_stack)) bytes.now (as_read result) }
        ensures place { IfErr result (LiesIn (length bytes.now)) }
        ensures counts { IfMalformed result (λ _. ⊤) }
    {
        match read_value_to_end::<CoreDumpStack<'_>, true>(alloc, bytes) {
            Ok(_) => Ok(()),
            Err(error) => Err(error),
        }
    }

    fn rewrite_all(bytes: &mut [u8]) -> Result<usize, DecodeError>
        ensures len { IfOk result (λ len. len ≤ length bytes.new) }
        ensures rewrites { RewritesInPlace core_stack (IsNothingOr core_stack) bytes.old bytes.new (as_read result) }
        ensures memory { NeedsNoMemory (as_read result) }
        ensures place { IfErr result (LiesIn (length bytes.old)) }
        ensures counts { IfMalformed result (λ _. ⊤) }
    {
        rewrite_body::<Whole<Item<'static, CoreDumpStack<'static>>>>(bytes)
    }
}
