//! Functions and the code section (Core 3.0, Code Section).
ghost use Rattle.std.specs.Prelude.{◌≡◌, ◌↔◌, ◌⊎◌, ◌+◌, ◌≤◌, ◌∷◌, List, [], IsTrue, IsFalse, ◌++◌, OnOk, OnErr, IfOk, IfErr, drop, length};
ghost use Rattle.std.specs.Borrow.{Lends, follows, sem};
ghost use Rattle.std.specs.Iterator.{size};
ghost use Rattle.wasm_codec.specs.declared.encode.EncodeError.TheVariants.{Memory};
ghost use Rattle.wasm_codec.specs.Encoding.{byte_list_bytes, IsCount, OnlyTooLong, too_long_at_once};
ghost use Rattle.wasm_instructions.specs.Appending.{IsCallsRefusal};
ghost use Rattle.wasm_code.specs.declared.code.CodeBody.{CodeBody};
ghost use Rattle.wasm_code.specs.formats.CodeBodies.{code_section_body};
ghost use Rattle.wasm_code.specs.formats.Sections.{typed_section_of, code_bodies, code_section_id};
ghost use Rattle.wasm_code.specs.Modules.{IsTypedSection};
ghost use Rattle.wasm_sections.specs.formats.ModuleSectionParts.{code};
ghost use Rattle.wasm_lists.specs.Iterators.{OfIterator};
ghost use Rattle.wasm_encoder.specs.EncodedLists.{Adds, AddsAll, EncodesSection, EncodedItems, CountedSection, IsFull, IsMemoryOrTooLong, IsUncounted, Makes, body_bytes};
ghost use Rattle.wasm_encoder.specs.CodeSections.{bytes_row};
ghost use Rattle.wasm_encoder.specs.CodeSections.{AreGroups, GainsBodies, GainsFunction, GoesOnWith, GoesOnWithBytes, HoldsBodies, IsCodeSection, MakesFunction, MakesLocals, Restarts, StandsForBodies, UncountedBody};

use crate::encoded_section::EncodedSection;
use crate::wasm_core::{Section, SectionId};
use std::alloc::{Allocator, Global};
use std::marker::Model;
pub use wasm_code::code::CodeBody;
use wasm_codec::encode::EncodeError;
use wasm_instructions::calls::append_calls;
use wasm_instructions::table::Call;
use wasm_lists::encode::{Encode, append_items, encode_bytes, encode_list};
use wasm_lists::encoded_list::EncodedList;
use wasm_sink::sink::InstructionSink;
use wasm_types::types::ValType;

/// A function body: its locals, and instructions that you append (Core 3.0, Code Section).
///
/// In contracts it is its bytes: the list of locals, and then the instructions.
///
/// # Examples
///
/// ```
/// # use wasm_encoder::{Encode, Function, ValType};
/// let mut function = Function::new(rt.alloc(), [(1, ValType::I64)])?;
/// function.instructions().local_get(0)?.drop()?.end()?;
/// let mut bytes = Vec::new(rt.alloc());
/// function.encode(&mut bytes)?;
/// assert_eq!(rt; bytes.as_slice(), b"\x07\x01\x01\x7e\x20\x00\x1a\x0b".as_slice());
/// ```
#[derive(Debug, Drop)]
pub struct Function {
    bytes: Vec<u8>,
}

impl Model for Function {
    ghost use Rattle.std.specs.Prelude.{ℕ, List};

    ghost Value = { List ℕ };

    ghost view = { λ function. function.bytes.items };
}

impl Function {
    ghost use Rattle.wasm_encoder.specs.contracts.code.Function.{the_row};

    /// Returns a function without instructions. `locals` are groups, each a number of locals and their type: an array,
    /// `vec.into_iter()` or `slice.iter().copied()`.
    ///
    /// Fails with `TooLong` if there are more than 4,294,967,295 groups, before it asks for one, and with `Memory` if
    /// it can't allocate.
    #[tactic(auto, using(crate::proofs::GivenLists::function_not_made))]
    pub fn new<L: IntoIterator<Item = (u32, ValType)>>(
        alloc: Global,
        locals: L,
    ) -> Result<Function, EncodeError>
    where
        L::IntoIter: ExactSizeIterator,
        requires { (groups : L.IntoIter) → L.into_iter_gives locals groups → L.IntoIter.can_next groups }
        ensures makes { OfIterator L.into_iter_gives locals (λ groups. MakesFunction L.IntoIter.next_gives groups (size (L.IntoIter.remaining groups)) result) }
    {
        let mut bytes = Vec::new(alloc);
        append_items(locals.into_iter(), &mut bytes)?;
        Ok(Function { bytes })
    }

    /// Removes the instructions, and gives the function these locals. It keeps its memory, so that one `Function` can
    /// build all bodies of a section. `locals` are groups as for [`Function::new`].
    ///
    /// Fails with `TooLong` if there are more than 4,294,967,295 groups, before it asks for one, and with `Memory` if
    /// the function can't grow. On error the function is unchanged.
    ///
    /// # Examples
    ///
    /// ```
    /// # use wasm_encoder::{CodeSection, Encode, Function, ValType};
    /// let mut code = CodeSection::new(rt.alloc());
    /// let mut function = Function::new(rt.alloc(), [])?;
    /// function.instructions().end()?;
    /// code.function(&function)?;
    /// function.restart([(2, ValType::F64)])?;
    /// function.instructions().nop()?.end()?;
    /// code.function(&function)?;
    /// let mut bytes = Vec::new(rt.alloc());
    /// code.encode(&mut bytes)?;
    /// assert_eq!(rt; bytes.as_slice(), b"\x0a\x02\x02\x00\x0b\x05\x01\x02\x7c\x01\x0b".as_slice());
    /// ```
    pub fn restart<L: IntoIterator<Item = (u32, ValType)>>(
        &mut self,
        locals: L,
    ) -> Result<(), EncodeError>
    where
        L::IntoIter: ExactSizeIterator,
        requires { (groups : L.IntoIter) → L.into_iter_gives locals groups → L.IntoIter.can_next groups }
        ensures restarts { OfIterator L.into_iter_gives locals (λ groups. Restarts L.IntoIter.next_gives groups (size (L.IntoIter.remaining groups)) self.old self.new result) }
    {
        let before = self.bytes.len();
        match append_items(locals.into_iter(), &mut self.bytes) {
            Ok(()) => {
                remove_first(&mut self.bytes, before);
                Ok(())
            }
            Err(error) => {
                self.bytes.truncate(before);
                Err(error)
            }
        }
    }

    /// Returns a function without instructions, whose locals have these types. Equal types that follow each other are a
    /// group.
    ///
    /// Fails with `TooLong` if there are more than 4,294,967,295 locals, and with `Memory` if it can't allocate.
    ///
    /// # Examples
    ///
    /// ```
    /// # use wasm_encoder::{Encode, Function, ValType};
    /// let locals = [ValType::I32, ValType::I32, ValType::F64];
    /// let mut function = Function::new_with_locals_types(rt.alloc(), &locals)?;
    /// function.instructions().end()?;
    /// let mut bytes = Vec::new(rt.alloc());
    /// function.encode(&mut bytes)?;
    /// assert_eq!(rt; bytes.as_slice(), b"\x06\x02\x02\x7f\x01\x7c\x0b".as_slice());
    /// ```
    pub fn new_with_locals_types(alloc: Global, locals: &[ValType]) -> Result<Function, EncodeError>
        ensures makes { MakesLocals locals.now result }
    {
        let groups = group_locals(alloc, locals)?;
        let mut bytes = Vec::new(alloc);
        encode_list(groups.as_slice(), &mut bytes)?;
        Ok(Function { bytes })
    }

    /// Returns a sink that appends to the function. End the body with `end`.
    ///
    /// The caller's contracts don't see what you append through this sink. If they must, call [`Function::calls`], or a
    /// function over the list from [`Function::bytes_mut`].
    pub fn instructions(&mut self) -> InstructionSink<'_, Global>
        ensures* lends { sem 𝓛 (follows the_row bytes_row self.entry.ghost_name result.bytes.ghost_name (λ code. code.items)) }
        ensures value { result.bytes.now.items ≡ self.old }
    {
        InstructionSink::new(&mut self.bytes)
    }

    /// Returns the list that holds the function's bytes. What you leave in it belongs to the function.
    pub fn bytes_mut(&mut self) -> &mut Vec<u8>
        ensures* lends { sem 𝓛 (Lends the_row bytes_row self.entry result (λ code. code.items)) }
        ensures value { result.now.items ≡ self.old }
    {
        &mut self.bytes
    }

    /// Appends the minimal encodings of calls, all of them or none.
    ///
    /// Fails with `TooLong` if a list in a call has more than 4,294,967,295 items, and with `Memory` if the function
    /// can't grow.
    #[tactic(auto, using(crate::proofs::CodeSectionLaws::appends_calls))]
    pub fn calls(&mut self, calls: &[Call]) -> Result<(), EncodeError>
        ensures appends { Adds GoesOnWith self.old calls.now self.new (IsCallsRefusal calls.now) result }
    {
        append_calls(&mut self.bytes, calls)
    }

    /// Appends encoded instructions. Nothing checks them. Fails with `Memory` if the function can't grow, and appends
    /// nothing then.
    ///
    /// # Examples
    ///
    /// ```
    /// # use wasm_encoder::Function;
    /// let mut function = Function::new_with_locals_types(rt.alloc(), &[])?;
    /// function.raw(b"\x41\x2a\x0b")?; // i32.const 42, end
    /// assert_eq!(rt; function.into_raw_body().as_slice(), b"\x00\x41\x2a\x0b".as_slice());
    /// ```
    #[tactic(auto, using(crate::proofs::CodeSectionLaws::appends_bytes))]
    pub fn raw(&mut self, instructions: &[u8]) -> Result<(), EncodeError>
        ensures appends { Adds GoesOnWithBytes self.old instructions.now self.new (λ e. e ≡ Memory) result }
    {
        append_bytes(&mut self.bytes, instructions)
    }

    /// Returns the bytes of the locals and instructions, without their length.
    pub fn into_raw_body(self) -> Vec<u8>
        ensures { result.items ≡ self }
    {
        let Function { bytes } = self;
        bytes
    }

    /// Returns the length of the locals and instructions in bytes.
    pub fn byte_len(&self) -> usize
        ensures { result ≡ length self.now }
    {
        self.bytes.len()
    }

    /// Copies the function. Fails with `Memory` if it can't allocate.
    pub fn try_clone(&self) -> Result<Function, EncodeError>
        ensures makes { Makes self.now result }
    {
        let bytes = Vec::from_slice(*self.bytes.allocator(), self.bytes.as_slice())?;
        Ok(Function { bytes })
    }
}

/// Removes the first `count` bytes.
fn remove_first(bytes: &mut Vec<u8>, count: usize)
    requires { count ≤ length bytes.old.items }
    ensures { bytes.new.items ≡ drop count bytes.old.items }
{
    let len = bytes.len();
    bytes.copy_within(count..len, 0);
    bytes.truncate(len - count);
}

/// Appends bytes. Fails with `Memory` if it can't allocate, and appends nothing then.
fn append_bytes(bytes: &mut Vec<u8>, more: &[u8]) -> Result<(), EncodeError>
    ensures ok { OnOk result (bytes.new.items ≡ bytes.old.items ++ more.now) }
    ensures err { OnErr result (bytes.new.items ≡ bytes.old.items) }
    ensures memory { IfErr result (λ e. e ≡ Memory) }
{
    bytes.extend_from_slice(more)?;
    Ok(())
}

/// Returns groups of equal types that follow each other: how many they are, and their type.
///
/// Fails with `TooLong` if there are more than 4,294,967,295 types, and with `Memory` if it can't allocate.
fn group_locals(alloc: Global, types: &[ValType]) -> Result<Vec<(u32, ValType)>, EncodeError>
    ensures groups { IfOk result (λ groups. AreGroups groups.items types.now) }
    ensures refused { IfErr result (IsMemoryOrTooLong (IsUncounted (length types.now))) }
{
    match types.split_first() {
        None => Ok(Vec::new(alloc)),
        Some((first, others)) => group_from(alloc, *first, others),
    }
}

/// Returns the groups of `first` and the types after it.
fn group_from(
    alloc: Global,
    first: ValType,
    others: &[ValType],
) -> Result<Vec<(u32, ValType)>, EncodeError>
    ensures groups { IfOk result (λ groups. AreGroups groups.items (first ∷ others.now)) }
    ensures refused { IfErr result (IsMemoryOrTooLong (IsUncounted (length others.now + 1))) }
{
    let mut groups = Vec::new(alloc);
    let mut count: u32 = 1;
    let mut last = first;
    for ty in others {
        if is_same(*ty, last) {
            count = count.checked_add(1).ok_or(EncodeError::TooLong)?;
        } else {
            groups.push((count, last))?;
            count = 1;
            last = *ty;
        }
    }
    groups.push((count, last))?;
    Ok(groups)
}

/// Returns whether two types are equal.
fn is_same(ty: ValType, other: ValType) -> bool
    ensures same { IsTrue result → ty ≡ other }
    ensures other { IsFalse result → ty ≡ other → ⊥ }
{
    ty == other
}

/// The function's length in bytes, and its bytes (Core 3.0, Code Section).
///
/// Fails with `TooLong` if the function is longer than 4,294,967,295 bytes.
impl Encode for Function {
    ghost bytes = { byte_list_bytes };

    ghost CanEncode = { λ function. IsCount (length function) };

    ghost refuses = { OnlyTooLong };

    ghost at_once = { λ function. too_long_at_once (length function) };

    fn encode<A: Allocator>(&self, sink: &mut Vec<u8, A>) -> Result<(), EncodeError> {
        encode_bytes(self.bytes.as_slice(), sink)
    }
}

/// A code section: you add function bodies, and it keeps them encoded (Core 3.0, Code Section).
///
/// Methods that add fail with `Memory` if the section can't grow. On error the section is unchanged. In contracts the
/// section is the number of its bodies and their bytes.
///
/// # Examples
///
/// ```
/// # use wasm_encoder::{CodeSection, Encode, Function};
/// let mut function = Function::new(rt.alloc(), [])?; // no locals
/// function.instructions().i32_const(42)?.end()?;
/// let mut code = CodeSection::new(rt.alloc());
/// code.function(&function)?;
/// let mut bytes = Vec::new(rt.alloc());
/// code.encode(&mut bytes)?;
/// assert_eq!(rt; bytes.as_slice(), b"\x06\x01\x04\x00\x41\x2a\x0b".as_slice());
/// ```
#[derive(Debug, Drop)]
pub struct CodeSection {
    bodies: EncodedList,
}

impl Model for CodeSection {
    ghost use Rattle.wasm_encoder.specs.EncodedLists.{EncodedItems};

    ghost Value = { EncodedItems };

    ghost view = { λ section. section.bodies };
}

impl CodeSection {
    /// Returns a section without bodies. Allocates nothing.
    #[tactic(auto, using(crate::proofs::CodeSectionLaws::stands_for_none))]
    pub fn new(alloc: Global) -> CodeSection
        ensures { StandsForBodies result [] }
    {
        CodeSection {
            bodies: EncodedList::new(alloc),
        }
    }

    /// Returns the number of bodies.
    pub fn len(&self) -> u32
        ensures { result ≡ self.now.count }
    {
        self.bodies.len()
    }

    /// Returns whether the section has no bodies.
    pub fn is_empty(&self) -> bool
        ensures { IsTrue result ↔ (self.now.count ≡ 0) }
    {
        self.bodies.len() == 0
    }

    /// Adds the body of a function: its length in bytes, and its bytes.
    ///
    /// Fails with `TooLong` if the section already has 4,294,967,295 bodies or `function` is longer than 4,294,967,295
    /// bytes.
    #[tactic(auto, using(crate::proofs::CodeSectionLaws::adds_function))]
    pub fn function(&mut self, function: &Function) -> Result<(), EncodeError>
        ensures adds { Adds GainsFunction self.old function.now self.new
            (IsMemoryOrTooLong (IsFull self.old ⊎ IsUncounted (length function.now))) result }
    {
        self.bodies.add(function)
    }

    /// Adds an encoded body, as a reader returns it: its length in bytes, and the body. Nothing checks it.
    ///
    /// Fails with `TooLong` if the section already has 4,294,967,295 bodies or `body` is longer than 4,294,967,295
    /// bytes.
    ///
    /// # Examples
    ///
    /// ```
    /// # use wasm_encoder::{CodeSection, Section};
    /// let mut code = CodeSection::new(rt.alloc());
    /// code.raw(b"\x00\x41\x2a\x0b")?; // no locals; i32.const 42, end
    /// let mut bytes = Vec::new(rt.alloc());
    /// code.append_to(&mut bytes)?;
    /// assert_eq!(rt; bytes.as_slice(), b"\x0a\x06\x01\x04\x00\x41\x2a\x0b".as_slice());
    /// ```
    #[tactic(auto, using(crate::proofs::CodeSectionLaws::adds_function))]
    pub fn raw(&mut self, body: &[u8]) -> Result<(), EncodeError>
        ensures adds { Adds GainsFunction self.old body.now self.new
            (IsMemoryOrTooLong (IsFull self.old ⊎ IsUncounted (length body.now))) result }
    {
        self.bodies.add(&EncodedBody { bytes: body })
    }

    /// Adds bodies, all of them or none.
    ///
    /// Fails with `TooLong` if the section would have more than 4,294,967,295 bodies, before it encodes any. It also
    /// fails with `TooLong` if a body is longer than 4,294,967,295 bytes, or if a list in it has more items than that.
    pub fn bodies(&mut self, bodies: &[CodeBody]) -> Result<(), EncodeError>
        ensures adds { AddsAll GainsBodies UncountedBody self.old bodies.now self.new result }
    {
        self.bodies.add_all(bodies)
    }

    /// Copies the section. Fails with `Memory` if it can't allocate.
    pub fn try_clone(&self) -> Result<CodeSection, EncodeError>
        ensures makes { Makes self.now result }
    {
        let bodies = self.bodies.try_clone()?;
        Ok(CodeSection { bodies })
    }
}

/// An encoded function body.
#[derive(Drop)]
struct EncodedBody<'a> {
    bytes: &'a [u8],
}

impl<'a> Encode for EncodedBody<'a> {
    ghost bytes = { λ body. byte_list_bytes body.bytes.now };

    ghost CanEncode = { λ body. IsCount (length body.bytes.now) };

    ghost refuses = { OnlyTooLong };

    fn encode<A: Allocator>(&self, sink: &mut Vec<u8, A>) -> Result<(), EncodeError> {
        encode_bytes(self.bytes, sink)
    }
}

/// The size of the section's body in bytes, the number of code bodies, and the code bodies (Core 3.0, Code Section).
///
/// Fails with `TooLong` if the section's body is longer than 4,294,967,295 bytes.
#[tactic(auto, using(crate::proofs::CodeSectionLaws::one_encoding, crate::proofs::CodeSectionLaws::section_encodes, crate::proofs::CodeSectionLaws::is_decoded))]
impl Encode for CodeSection {
    ghost bytes = { λ section. byte_list_bytes (body_bytes section) };

    ghost IsWritten = { λ section. HoldsBodies section × IsCodeSection section };

    ghost CanEncode = { CountedSection };

    ghost refuses = { OnlyTooLong };

    fn encode<A: Allocator>(&self, sink: &mut Vec<u8, A>) -> Result<(), EncodeError>
        ensures encodes { EncodesSection code_section_body (StandsForBodies self.now) 10 code self.now sink.old.items sink.new.items result }
        // Sections of equal code bodies have equal bytes.
        ensures one_encoding { (other : EncodedItems) (bodies : List CodeBody) →
            StandsForBodies self.now bodies → StandsForBodies other bodies → body_bytes other ≡ body_bytes self.now }
        // The section is in the range of decoded sections, so a reader returns it.
        ensures decoded { (bodies : List CodeBody) → StandsForBodies self.now bodies →
            OnOk result (IsTypedSection (typed_section_of (code_section_id, code_bodies bodies))) }
    {
        self.bodies.encode(sink)
    }
}

impl Section for CodeSection {
    ghost id = { λ _. 10 };

    fn id(&self) -> u8 {
        u8::from(SectionId::Code)
    }

    fn encoded(&self, alloc: Global) -> Result<EncodedSection<'_>, EncodeError> {
        EncodedSection::of_list(alloc, self.id(), self.bodies.len(), self.bodies.as_slice())
    }
}
