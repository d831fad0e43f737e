//! Element sections (Core 3.0, Element Section).
ghost use Rattle.std.specs.Prelude.{◌≡◌, ◌<◌, true, List, [], length, refl, ◌++◌, ◌⊎◌, OnOk, OnErr, IfErr, take};
ghost use Rattle.wasm_codec.specs.Places.{Reads};
ghost use Rattle.wasm_codec.specs.Rewriter.{Rewrites};
ghost use Rattle.wasm_codec.specs.formats.Combinators.{◌⊗◌, made, items};
ghost use Rattle.wasm_sections.specs.declared.elements.Element.{Element};
ghost use Rattle.wasm_sections.specs.ElementForms.{RewritesForm, place_at, mode_at, elements_at};
ghost use Rattle.wasm_sections.specs.formats.Elements.{functions_number, is_funcref, typed_of, typed_part, element_number, element_form, kind_and_functions, element_segment};
ghost use Rattle.wasm_types.specs.formats.Types.{ref_type};
ghost use Rattle.wasm_instructions.specs.formats.Instructions.{Instruction};
ghost use Rattle.wasm_externals.specs.formats.Expressions.{expr};
ghost use Rattle.std.specs.List.{All, Any, flat_map};
ghost use Rattle.wasm_codec.specs.Appending.{Appends, AppendsIfClosed};
ghost use Rattle.wasm_codec.specs.Encoding.{CanEncodeList, IsListRefusal, IsMinimal, OnlyTooLong, Refuses};
ghost use Rattle.wasm_codec.specs.declared.encode.EncodeError.TheVariants.{Memory};
ghost use Rattle.wasm_sections.specs.ClosedEntries.{AreClosed, AreCounted, IsClosedElement, IsClosedMode, IsCountedElement, IsCountedMode};
ghost use Rattle.wasm_externals.specs.ClosedExpressions.{IsClosed, IsCountedExpr, IsWrittenExpr};
ghost use Rattle.wasm_sections.specs.SegmentBytes.{active_element, active_functions, ElementModeFits, ElementsFit, element_mode_bytes, elements_bytes, is_short};
ghost use Rattle.wasm_sections.specs.SectionKinds.{element_section};
ghost use Rattle.wasm_sections.specs.declared.elements.ElementMode.TheVariants as modes;
ghost use Rattle.wasm_sections.specs.declared.elements.Elements.TheVariants as held;
ghost use Rattle.wasm_externals.specs.Making.{Makes};
ghost use Rattle.wasm_sections.specs.ElementSections.{AddsSegment};

use crate::list_section::{ListSection, SectionItem};
use crate::segments::append_table_and_offset;
use std::alloc::{Allocator, Global};
use wasm_codec::encode::leb128::put_u32;
use wasm_codec::encode::{EncodeError, keep_or_undo};
use wasm_codec::reader::cursor::{Cursor, Fault};
use wasm_codec::reader::malformed::{Construct, Malformed};
use wasm_codec::rewriter::{Rewriter, Scanned, are_bytes};
use wasm_externals::const_expr::ConstExpr;
use wasm_externals::expressions::{encode_expr, read_expr, rewrite_expr, scan_expr};
use wasm_instructions::table::Call;
use wasm_lists::encode::{Encode, encode_list, encode_list_after};
use wasm_lists::list::Items;
use wasm_lists::readable::Readable;
use wasm_lists::reading::read_list;
use wasm_lists::rewriting::{Rewritable, rewrite_list};
use wasm_types::types::{AbstractHeapType, HeapType, RefType, put_ref_type, take_ref_type};

/// Mode of an element segment.
#[derive(Debug, PartialEq, Eq, Drop)]
pub enum ElementMode {
    /// Copied by instructions such as `table.init`.
    Passive,
    /// Copied into a table when the module is instantiated.
    Active {
        /// Table index.
        table_index: u32,
        /// Instructions that compute the index of the first element, without the final `end`.
        offset: Items<Call>,
    },
    /// Never copied: declares functions that code refers to.
    Declared,
}

/// Elements of an element segment.
#[derive(Debug, PartialEq, Eq, Drop)]
pub enum Elements {
    /// Function indices.
    Functions(Items<u32>),
    /// Expressions of a reference type, each without its final `end`.
    Expressions(RefType, Items<Items<Call>>),
}

impl Elements {
    /// Makes elements of these function indices. Fails with `Memory` if it can't allocate.
    pub fn functions(alloc: Global, indices: &[u32]) -> Result<Elements, EncodeError>
        ensures makes { Makes (held.Functions indices.now) result }
    {
        Ok(Elements::Functions(Items::from_slice(alloc, indices)?))
    }
}

/// An element segment (Core 3.0, Element Section).
#[derive(Debug, PartialEq, Eq, Drop)]
pub struct Element {
    /// Mode of the segment.
    pub mode: ElementMode,
    /// Elements of the segment.
    pub elements: Elements,
}

/// Returns whether a type is `funcref`, which forms 0 and 4 imply.
fn is_funcref(ty: RefType) -> bool
    ensures { result ≡ is_funcref ty }
{
    match ty.heap_type {
        HeapType::Abstract {
            shared,
            ty: heap_type,
        } => { !shared && ty.nullable && matches!(heap_type, AbstractHeapType::Func) }
        HeapType::Concrete(_) | HeapType::Exact(_) => false,
    }
}

/// Returns the number of the minimal form of a segment.
pub(crate) fn number_of(element: &Element) -> u32
    ensures { result ≡ element_number element.now }
{
    match &element.mode {
        ElementMode::Passive => match &element.elements {
            Elements::Functions(_) => 1,
            Elements::Expressions(_, _) => 5,
        },
        ElementMode::Active {
            table_index,
            offset,
        } => number_of_active(&ActiveElement {
            table_index: *table_index,
            offset: offset.as_slice(),
            elements: &element.elements,
        }),
        ElementMode::Declared => match &element.elements {
            Elements::Functions(_) => 3,
            Elements::Expressions(_, _) => 7,
        },
    }
}

/// Returns the number of the minimal form of an active segment.
fn number_of_active(segment: &ActiveElement<'_>) -> u32
    ensures { result ≡ element_number (active_element segment.now) }
{
    match segment.elements {
        Elements::Functions(_) => number_of_functions(segment.table_index),
        Elements::Expressions(ty, _) => {
            if segment.table_index == 0 && is_funcref(*ty) {
                4
            } else {
                6
            }
        }
    }
}

/// Returns the number of the minimal form of an active segment of function indices.
#[inline(always)]
fn number_of_functions(table_index: u32) -> u32
    ensures { result ≡ functions_number (modes.Active table_index []) }
{
    if table_index == 0 { 0 } else { 2 }
}

/// Reads the element kind 0x00 (functions) and a list of function indices.
fn read_functions(alloc: Global, cursor: &mut Cursor<'_>) -> Result<Items<u32>, Fault>
    ensures reads { Reads kind_and_functions.at cursor.old cursor.new result }
{
    let byte = cursor.byte_of(Construct::ElementKind)?;
    if byte != 0x00 {
        return Err(Fault::Malformed(cursor.invalid(Construct::ElementKind, byte)));
    }
    read_list(alloc, cursor)
}

/// Reads a list of expressions. `Readable` can't be implemented here for a list of instructions, a type of another
/// crate.
fn read_expressions(alloc: Global, cursor: &mut Cursor<'_>) -> Result<Items<Items<Call>>, Fault>
    ensures reads { Reads (items expr).at cursor.old cursor.new result }
{
    let count = cursor.u32()?;
    let mut groups = Vec::new(alloc);
    for _ in 0..count {
        let group = read_expr(alloc, cursor)?;
        groups.push(group)?;
    }
    Ok(Items::from(groups))
}

/// Reads a reference type and a list of expressions.
fn read_typed(alloc: Global, cursor: &mut Cursor<'_>) -> Result<Elements, Fault>
    ensures reads { Reads (made typed_of typed_part (ref_type ⊗ items expr)).at cursor.old cursor.new result }
{
    let ty = take_ref_type(cursor)?;
    let expressions = read_expressions(alloc, cursor)?;
    Ok(Elements::Expressions(ty, expressions))
}

/// Reads the offset of an active segment.
fn read_place(
    alloc: Global,
    cursor: &mut Cursor<'_>,
    table_index: u32,
) -> Result<ElementMode, Fault>
    ensures reads { Reads (place_at table_index) cursor.old cursor.new result }
{
    let offset = read_expr(alloc, cursor)?;
    Ok(ElementMode::Active {
        table_index,
        offset,
    })
}

/// Reads what follows the number of a form, up to the element kind or type.
fn read_mode(
    alloc: Global,
    cursor: &mut Cursor<'_>,
    form: u32,
    start: usize,
) -> Result<ElementMode, Fault>
    ensures reads { Reads (mode_at form) cursor.old cursor.new result }
{
    match form {
        0 | 4 => read_place(alloc, cursor, 0),
        1 | 5 => Ok(ElementMode::Passive),
        2 | 6 => {
            let table_index = cursor.u32()?;
            read_place(alloc, cursor, table_index)
        }
        3 | 7 => Ok(ElementMode::Declared),
        number => Err(Fault::Malformed(Malformed::invalid_number(
            Construct::ElementForm,
            number,
            start,
        ))),
    }
}

/// Reads the element kind or type, if the form has one, and the elements.
fn read_elements(
    alloc: Global,
    cursor: &mut Cursor<'_>,
    form: u32,
    start: usize,
) -> Result<Elements, Fault>
    ensures reads { Reads (elements_at form) cursor.old cursor.new result }
{
    match form {
        0 => Ok(Elements::Functions(read_list(alloc, cursor)?)),
        1 | 2 | 3 => Ok(Elements::Functions(read_functions(alloc, cursor)?)),
        4 => {
            let funcref = RefType::new_abstract(AbstractHeapType::Func, true, false);
            Ok(Elements::Expressions(funcref, read_expressions(alloc, cursor)?))
        }
        5 | 6 | 7 => read_typed(alloc, cursor),
        number => Err(Fault::Malformed(Malformed::invalid_number(
            Construct::ElementForm,
            number,
            start,
        ))),
    }
}

/// Reads what follows the number of a form.
#[tactic(auto, using(crate::proofs::ElementLaws::form_read, crate::proofs::ElementLaws::no_mode, crate::proofs::ElementLaws::no_elements))]
fn read_form(
    alloc: Global,
    cursor: &mut Cursor<'_>,
    form: u32,
    start: usize,
) -> Result<Element, Fault>
    ensures reads { Reads (element_form form).at cursor.old cursor.new result }
{
    let mode = read_mode(alloc, cursor, form, start)?;
    let elements = read_elements(alloc, cursor, form, start)?;
    Ok(Element { mode, elements })
}

/// Reads an element segment. Notes a non-minimal form if the segment has a shorter one.
#[tactic(auto, unfolding(crate::specs::formats::Elements::element_segment))]
fn read_element(alloc: Global, cursor: &mut Cursor<'_>) -> Result<Element, Fault>
    ensures reads { Reads element_segment.at cursor.old cursor.new result }
{
    let start = cursor.to_end();
    let form = cursor.u32()?;
    let element = read_form(alloc, cursor, form, start)?;
    if form != number_of(&element) {
        cursor.note_long_form();
    }
    Ok(element)
}

impl<'a> Readable<'a> for Element {
    ghost Value = { Element };

    ghost view = { λ element. element };

    ghost views = { λ elements. elements };

    ghost views_each = { record { none = refl; more = λ elements element. refl } };

    ghost format = { element_segment };

    #[inline(always)]
    #[tactic(auto, using(crate::proofs::ElementLaws::element_is_lawful, crate::proofs::ElementLaws::element_takes))]
    fn is_lawful() {}

    fn read(alloc: Global, cursor: &mut Cursor<'a>) -> Result<Element, Fault> {
        read_element(alloc, cursor)
    }

    fn rewrite(rewriter: &mut Rewriter) -> Result<(), Fault> {
        rewrite_element(rewriter)
    }
}

/// An expression that computes an element.
struct Expression;

impl Rewritable for Expression {
    ghost Value = { List Instruction };

    ghost format = { expr };

    #[inline(always)]
    #[tactic(auto, using(wasm_externals::proofs::ExpressionLaws::expr_is_lawful, crate::proofs::ElementLaws::expr_takes))]
    fn is_lawful() {}

    #[inline(always)]
    fn rewrite(rewriter: &mut Rewriter) -> Result<(), Fault> {
        rewriter.are_bytes();
        if let Some(count) = scan_expr(rewriter.left()) {
            rewriter.rewrite_scanned(Scanned::Minimal(count));
            return Ok(());
        }
        rewrite_expr(rewriter)
    }
}

/// Rewrites an offset and a list of elements to their minimal encodings.
#[tactic(auto, using(std::proofs::Common::append_assoc))]
fn rewrite_active<T: Rewritable>(rewriter: &mut Rewriter) -> Result<(), Fault>
    ensures rewrites { Rewrites (expr ⊗ items T.format) rewriter.old rewriter.new result }
{
    rewrite_expr(rewriter)?;
    rewrite_list::<T>(rewriter)
}

/// Rewrites the element kind 0x00 (functions) and a list of function indices to their minimal encodings.
#[tactic(auto, using(std::proofs::Common::append_assoc))]
fn rewrite_functions(rewriter: &mut Rewriter) -> Result<(), Fault>
    ensures rewrites { Rewrites kind_and_functions rewriter.old rewriter.new result }
{
    let byte = rewriter.byte_of(Construct::ElementKind)?;
    if byte != 0x00 {
        return Err(Fault::Malformed(rewriter.invalid(Construct::ElementKind, byte)));
    }
    rewrite_list::<u32>(rewriter)
}

/// Rewrites a reference type and a list of expressions to their minimal encodings.
#[tactic(auto, using(std::proofs::Common::append_assoc))]
fn rewrite_typed(rewriter: &mut Rewriter) -> Result<(), Fault>
    ensures rewrites { Rewrites (ref_type ⊗ items expr) rewriter.old rewriter.new result }
{
    take_ref_type(rewriter)?;
    rewrite_list::<Expression>(rewriter)
}

/// Rewrites what follows the form number 2 at `mark` to its minimal encoding: a table index, an offset and functions.
/// Form 0 leaves out table index 0 and the element kind.
#[tactic(auto, unfolding(crate::specs::formats::Elements::element_segment))]
fn rewrite_functions_of_table(rewriter: &mut Rewriter, mark: usize) -> Result<(), Fault>
    requires { mark < length rewriter.old.done }
    ensures rewrites { RewritesForm element_segment 2 mark rewriter.old rewriter.new result }
{
    let table = rewriter.u32()?;
    rewrite_expr(rewriter)?;
    let kind_mark = rewriter.written_len();
    rewrite_functions(rewriter)?;
    if table == 0 {
        rewriter.cut_out(kind_mark, 1);
        rewriter.cut_out(mark, 1);
    }
    Ok(())
}

/// Rewrites what follows the form number 6 at `mark` to its minimal encoding: a table index, an offset, a type and
/// expressions. Form 4 leaves out table index 0 and the type `funcref`.
#[tactic(auto, unfolding(crate::specs::formats::Elements::element_segment))]
fn rewrite_expressions_of_table(rewriter: &mut Rewriter, mark: usize) -> Result<(), Fault>
    requires { mark < length rewriter.old.done }
    ensures rewrites { RewritesForm element_segment 6 mark rewriter.old rewriter.new result }
{
    let table = rewriter.u32()?;
    rewrite_expr(rewriter)?;
    let type_mark = rewriter.written_len();
    let ty = take_ref_type(rewriter)?;
    rewrite_list::<Expression>(rewriter)?;
    if table == 0 && is_funcref(ty) {
        rewriter.cut_out(type_mark, 1);
        rewriter.cut_out(mark, 1);
        rewriter.set_byte(mark, 4);
    }
    Ok(())
}

/// Rewrites an element segment to its minimal encoding.
#[tactic(auto, using(crate::proofs::ElementLaws::no_element_form, crate::proofs::ElementLaws::number_written), unfolding(crate::specs::formats::Elements::element_segment))]
fn rewrite_element(rewriter: &mut Rewriter) -> Result<(), Fault>
    ensures rewrites { Rewrites element_segment rewriter.old rewriter.new result }
{
    let (mark, start) = (rewriter.written_len(), rewriter.to_end());
    match rewriter.u32()? {
        0 => rewrite_active::<u32>(rewriter),
        1 => rewrite_functions(rewriter),
        2 => rewrite_functions_of_table(rewriter, mark),
        3 => rewrite_functions(rewriter),
        4 => rewrite_active::<Expression>(rewriter),
        5 => rewrite_typed(rewriter),
        6 => rewrite_expressions_of_table(rewriter, mark),
        7 => rewrite_typed(rewriter),
        number => Err(Fault::Malformed(Malformed::invalid_number(
            Construct::ElementForm,
            number,
            start,
        ))),
    }
}

/// Returns whether a form has neither a table index nor the element kind or type.
fn is_short(form: u32) -> bool
    ensures { result ≡ is_short form }
{
    form == 0 || form == 4
}

/// Appends what precedes the element kind or type of a segment in this form. On error a part of it may remain.
fn append_element_mode<A: Allocator>(
    form: u32,
    mode: &ElementMode,
    sink: &mut Vec<u8, A>,
) -> Result<(), EncodeError>
    ensures { Appends (element_mode_bytes form mode.now) (IsCountedMode mode.now) (IsClosedMode mode.now → ElementModeFits form mode.now) sink.old.items sink.new.items result }
{
    match mode {
        ElementMode::Active {
            table_index,
            offset,
        } => append_active_mode(form, *table_index, offset.as_slice(), sink),
        ElementMode::Passive | ElementMode::Declared => {
            sink.reserve(5)?;
            put_u32(sink, form);
            Ok(())
        }
    }
}

/// Appends what precedes the element kind or type of an active segment in this form. On error a part of it may remain.
#[inline(always)]
fn append_active_mode<A: Allocator>(
    form: u32,
    table_index: u32,
    offset: &[Call],
    sink: &mut Vec<u8, A>,
) -> Result<(), EncodeError>
    ensures { Appends (element_mode_bytes form (modes.Active table_index offset.now)) (IsCountedExpr offset.now)
        (IsClosed offset.now → ElementModeFits form (modes.Active table_index offset.now)) sink.old.items sink.new.items result }
{
    if is_short(form) {
        append_table_and_offset(form, None, offset, sink)
    } else {
        append_table_and_offset(form, Some(table_index), offset, sink)
    }
}

/// Appends expressions. On error a part of them may remain.
fn append_each_expression<A: Allocator>(
    expressions: &[Items<Call>],
    sink: &mut Vec<u8, A>,
) -> Result<(), EncodeError>
    ensures ok { OnOk result (sink.new.items ≡ sink.old.items ++ flat_map expr.bytes expressions.now) }
    ensures can { OnOk result (All IsCountedExpr expressions.now) }
    ensures written { OnOk result (All IsWrittenExpr expressions.now) }
    ensures refused { IfErr result (λ e. (e ≡ Memory) ⊎ Any (λ x. Refuses IsCountedExpr OnlyTooLong x e) expressions.now) }
    ensures kept { take (length sink.old.items) sink.new.items ≡ sink.old.items }
{
    for expression in expressions {
        encode_expr(expression.as_slice(), sink)?;
    }
    Ok(())
}

/// Appends the number of expressions and the expressions. Appends nothing if it fails.
fn encode_expressions<A: Allocator>(
    expressions: &[Items<Call>],
    sink: &mut Vec<u8, A>,
) -> Result<(), EncodeError>
    ensures ok { OnOk result (sink.new.items ≡ sink.old.items ++ (items expr).bytes expressions.now) }
    ensures can { OnOk result (CanEncodeList IsCountedExpr expressions.now) }
    ensures written { OnOk result (All IsWrittenExpr expressions.now) }
    ensures refused { IfErr result (IsListRefusal IsCountedExpr OnlyTooLong expressions.now) }
    ensures err { OnErr result (sink.new.items ≡ sink.old.items) }
{
    let start = sink.len();
    let result = append_expressions(expressions, sink);
    keep_or_undo(sink, start, result)
}

/// Appends the number of expressions and the expressions. On error a part of them may remain.
fn append_expressions<A: Allocator>(
    expressions: &[Items<Call>],
    sink: &mut Vec<u8, A>,
) -> Result<(), EncodeError>
    ensures ok { OnOk result (sink.new.items ≡ sink.old.items ++ (items expr).bytes expressions.now) }
    ensures can { OnOk result (CanEncodeList IsCountedExpr expressions.now) }
    ensures written { OnOk result (All IsWrittenExpr expressions.now) }
    ensures refused { IfErr result (IsListRefusal IsCountedExpr OnlyTooLong expressions.now) }
    ensures kept { take (length sink.old.items) sink.new.items ≡ sink.old.items }
{
    expressions.len().encode(sink)?;
    append_each_expression(expressions, sink)
}

/// Appends function indices, after their kind unless the form is short. On error a part of them may remain.
fn append_functions<A: Allocator>(
    short: bool,
    functions: &[u32],
    sink: &mut Vec<u8, A>,
) -> Result<(), EncodeError>
    ensures { Appends (elements_bytes short (held.Functions functions.now)) (AreCounted (held.Functions functions.now)) (AreClosed (held.Functions functions.now) → ElementsFit short (held.Functions functions.now)) sink.old.items sink.new.items result }
{
    if short {
        encode_list(functions, sink)
    } else {
        encode_list_after(0x00, functions, sink)
    }
}

/// Appends the elements of a segment, after their kind or type unless the form is short. On error a part of them may
/// remain.
fn append_elements<A: Allocator>(
    short: bool,
    elements: &Elements,
    sink: &mut Vec<u8, A>,
) -> Result<(), EncodeError>
    ensures { Appends (elements_bytes short elements.now) (AreCounted elements.now) (AreClosed elements.now → ElementsFit short elements.now) sink.old.items sink.new.items result }
{
    match elements {
        Elements::Functions(functions) => append_functions(short, functions.as_slice(), sink),
        Elements::Expressions(ty, expressions) => {
            if short {
                return encode_expressions(expressions.as_slice(), sink);
            }
            sink.reserve(7)?;
            put_ref_type(sink, *ty);
            encode_expressions(expressions.as_slice(), sink)
        }
    }
}

/// Appends an element segment. On error a part of it may remain.
fn append_element<A: Allocator>(element: &Element, sink: &mut Vec<u8, A>) -> Result<(), EncodeError>
    ensures { AppendsIfClosed element_segment element.now (IsCountedElement element.now) (IsClosedElement element.now) sink.old.items sink.new.items result }
{
    let form = number_of(element);
    append_element_mode(form, &element.mode, sink)?;
    append_elements(is_short(form), &element.elements, sink)
}

/// The number of the form, the table index and offset, the element kind or type, and the elements (Core 3.0, Element
/// Section). Form 0 and form 4 (both for table 0) omit the table index and the kind or type.
///
/// Fails with `TooLong` if there are more than 4,294,967,295 elements, or a list in an instruction has more items than
/// that.
impl Encode for Element {
    ghost bytes = { element_segment.bytes };

    ghost IsWritten = { λ element. IsClosedElement element → IsMinimal element_segment.Encodes element_segment.bytes element };

    ghost CanEncode = { IsCountedElement };

    ghost refuses = { OnlyTooLong };

    fn encode<A: Allocator>(&self, sink: &mut Vec<u8, A>) -> Result<(), EncodeError> {
        let start = sink.len();
        let result = append_element(self, sink);
        keep_or_undo(sink, start, result)
    }
}

/// An active element segment that borrows its offset and elements, so that adding it needs no list.
#[derive(Drop)]
struct ActiveElement<'a> {
    table_index: u32,
    offset: &'a [Call],
    elements: &'a Elements,
}

impl Encode for ActiveElement<'_> {
    ghost bytes = { λ segment. element_segment.bytes (active_element segment) };

    ghost IsWritten = { λ segment. IsClosedElement (active_element segment) →
        IsMinimal element_segment.Encodes element_segment.bytes (active_element segment) };

    ghost CanEncode = { λ segment. IsCountedElement (active_element segment) };

    ghost refuses = { OnlyTooLong };

    #[inline(always)]
    fn encode<A: Allocator>(&self, sink: &mut Vec<u8, A>) -> Result<(), EncodeError> {
        let start = sink.len();
        let result = append_active(self, sink);
        keep_or_undo(sink, start, result)
    }
}

/// Appends an active element segment. On error a part of it may remain.
#[inline(always)]
fn append_active<A: Allocator>(
    segment: &ActiveElement<'_>,
    sink: &mut Vec<u8, A>,
) -> Result<(), EncodeError>
    ensures { AppendsIfClosed element_segment (active_element segment.now) (IsCountedElement (active_element segment.now)) (IsClosedElement (active_element segment.now)) sink.old.items sink.new.items result }
{
    let form = number_of_active(segment);
    append_active_mode(form, segment.table_index, segment.offset, sink)?;
    append_elements(is_short(form), segment.elements, sink)
}

/// An active element segment that borrows its offset and function indices, so that adding it needs no list.
#[derive(Drop)]
struct ActiveFunctions<'a> {
    table_index: u32,
    offset: &'a [Call],
    functions: &'a [u32],
}

impl Encode for ActiveFunctions<'_> {
    ghost bytes = { λ segment. element_segment.bytes (active_functions segment) };

    ghost IsWritten = { λ segment. IsClosedElement (active_functions segment) →
        IsMinimal element_segment.Encodes element_segment.bytes (active_functions segment) };

    ghost CanEncode = { λ segment. IsCountedElement (active_functions segment) };

    ghost refuses = { OnlyTooLong };

    #[inline(always)]
    fn encode<A: Allocator>(&self, sink: &mut Vec<u8, A>) -> Result<(), EncodeError> {
        let start = sink.len();
        let result = append_active_functions(self, sink);
        keep_or_undo(sink, start, result)
    }
}

/// Appends an active element segment of function indices. On error a part of it may remain.
#[inline(always)]
fn append_active_functions<A: Allocator>(
    segment: &ActiveFunctions<'_>,
    sink: &mut Vec<u8, A>,
) -> Result<(), EncodeError>
    ensures { AppendsIfClosed element_segment (active_functions segment.now) (IsCountedElement (active_functions segment.now)) (IsClosedElement (active_functions segment.now)) sink.old.items sink.new.items result }
{
    let form = number_of_functions(segment.table_index);
    append_active_mode(form, segment.table_index, segment.offset, sink)?;
    append_functions(is_short(form), segment.functions, sink)
}

/// An element section (Core 3.0, Element Section).
///
/// # Examples
///
/// ```
/// # use wasm_encoder::{ConstExpr, ElementSection, Elements, Encode};
/// let mut elements = ElementSection::new(rt.alloc());
/// let offset = ConstExpr::i32_const(rt.alloc(), 0)?;
/// elements.active(0, offset, Elements::functions(rt.alloc(), &[5])?)?;
/// elements.passive(Elements::functions(rt.alloc(), &[1, 2])?)?;
/// elements.declared(Elements::functions(rt.alloc(), &[5])?)?;
/// let mut bytes = Vec::new(rt.alloc());
/// elements.encode(&mut bytes)?;
/// let expected = b"\x10\x03\x00\x41\x00\x0b\x01\x05\x01\x00\x02\x01\x02\x03\x00\x01\x05";
/// assert_eq!(rt; bytes.as_slice(), expected.as_slice());
/// ```
pub type ElementSection = ListSection<Element>;

impl SectionItem for Element {
    ghost view = { λ item. item };

    ghost section = { element_section };

    ghost Fits = { IsClosedElement };

    fn section_id() -> u8 {
        9
    }

    #[inline(always)]
    #[tactic(auto, using(crate::proofs::ItemLaws::elements_lawful))]
    fn is_lawful() {}
}

/// Each method fails with `TooLong` if the section already has 4,294,967,295 segments, the segment has more than
/// 4,294,967,295 elements, or a list in an instruction has more items than that.
///
/// The segment has an encoding only if every expression among `elements` closes its blocks.
#[tactic(auto, using(crate::proofs::ItemLaws::adds_closed))]
impl ListSection<Element> {
    /// Adds an active segment: instantiating the module copies `elements` into the table `table_index`, from index
    /// `offset` on. The encoding omits table 0 if that is shorter.
    #[inline(always)]
    pub fn active(
        &mut self,
        table_index: u32,
        offset: ConstExpr,
        elements: Elements,
    ) -> Result<(), EncodeError>
        ensures adds { AddsSegment (modes.Active table_index offset) elements self.old self.new result }
    {
        let calls = offset.as_slice();
        self.items.add(&ActiveElement {
            table_index,
            offset: calls,
            elements: &elements,
        })
    }

    /// Adds an active segment of these function indices, as `active` with
    /// [`Elements::functions`] does. Allocates no list for them.
    ///
    /// # Examples
    ///
    /// ```
    /// # use wasm_encoder::{ConstExpr, ElementSection};
    /// let mut elements = ElementSection::new(rt.alloc());
    /// elements.active_functions(0, ConstExpr::i32_const(rt.alloc(), 0)?, &[5])?;
    /// assert_eq!(rt; elements.as_slice(), b"\x00\x41\x00\x0b\x01\x05".as_slice());
    /// ```
    #[inline(always)]
    pub fn active_functions(
        &mut self,
        table_index: u32,
        offset: ConstExpr,
        functions: &[u32],
    ) -> Result<(), EncodeError>
        ensures adds { AddsSegment (modes.Active table_index offset) (held.Functions functions.now) self.old self.new result }
    {
        let instructions = offset.as_slice();
        self.items.add(&ActiveFunctions {
            table_index,
            offset: instructions,
            functions,
        })
    }

    /// Adds a passive segment, which `table.init` copies.
    pub fn passive(&mut self, elements: Elements) -> Result<(), EncodeError>
        ensures adds { AddsSegment modes.Passive elements self.old self.new result }
    {
        let mode = ElementMode::Passive;
        self.push(&Element { mode, elements })
    }

    /// Adds a declarative segment: it only declares functions that `ref.func` refers to.
    pub fn declared(&mut self, elements: Elements) -> Result<(), EncodeError>
        ensures adds { AddsSegment modes.Declared elements self.old self.new result }
    {
        let mode = ElementMode::Declared;
        self.push(&Element { mode, elements })
    }
}
