//! The parts in which two modules differ.
use crate::diff::common_len;
use crate::listing::{
    IndexSpaces, Instruction, ItemNames, ItemText, Listed, LocalsText, Part, PartReader,
    SectionHead, Segment, Silent, Stop, Types, list_section,
};
use crate::sections::{LocatedSection, SectionWalk, rank};
use std::alloc::Global;
use std::fmt;
use wasm_code::section::RawSection;
use wasm_externals::limits::MemoryType;
use wasm_externals::types::TagType;
use wasm_modules::selection::custom_name;
use wasm_sections::custom::read_custom;
use wasm_sections::data::DataSegment;
use wasm_sections::exports::Export;
use wasm_sections::globals::Global as GlobalEntry;
use wasm_sections::imports::Import;
use wasm_sections::tables::Table;

/// A part that differs in two modules.
#[derive(Clone, Copy)]
pub struct DifferentPart<'a> {
    /// The section.
    pub section: RawSection<'a>,
    /// Number of sections before it in the first module. `None` means that the module has no such section.
    pub first_number: Option<usize>,
    /// The same number in the second module.
    pub second_number: Option<usize>,
    /// Number of items before the part in the section. `None` means that the part is the section.
    pub item: Option<u32>,
    /// Whether the first module has the part.
    pub in_first: bool,
    /// Whether the second module has it.
    pub in_second: bool,
}

/// One of two modules that are compared.
#[derive(Clone, Copy, PartialEq, Eq)]
pub enum Side {
    /// The first module.
    First,
    /// The second module.
    Second,
}

/// What is done with the parts that differ, piece by piece.
///
/// Between the start and the end of a part come the first module's calls and then the second's: `nothing` alone, or
/// `section` or `item`, the first detail that differs if there is one, and `side_end`.
pub trait Differences {
    /// Begins a part.
    fn part(&mut self, part: &DifferentPart<'_>) -> Result<(), Stop>;

    /// Begins the section that a module has.
    fn section(&mut self, side: Side, head: &SectionHead<'_>) -> Result<(), Stop>;

    /// Begins the item that a module has.
    fn item(&mut self, side: Side, part: &Part<'_>, text: &ItemText<'_>) -> Result<(), Stop>;

    /// Lists a group of locals or an instruction of a function.
    fn code<T: fmt::Display>(&mut self, side: Side, part: &Part<'_>, text: &T) -> Result<(), Stop>;

    /// Lists bytes of data.
    fn row(&mut self, side: Side, part: &Part<'_>) -> Result<(), Stop>;

    /// Ends what a module has.
    fn side_end(&mut self) -> Result<(), Stop>;

    /// Lists that a module has nothing.
    fn nothing(&mut self, side: Side) -> Result<(), Stop>;

    /// Ends a part.
    fn part_end(&mut self) -> Result<(), Stop>;
}

/// Number of bytes of a detail.
const ROW_BYTES: usize = 16;

/// One of two modules that are compared.
#[derive(Drop)]
struct Walk<'a> {
    module: &'a [u8],
    /// The sections after the next.
    sections: SectionWalk<'a>,
    /// The next section.
    next: Option<LocatedSection<'a>>,
    /// Number of sections that are done.
    done: usize,
}

impl<'a> Walk<'a> {
    fn new(alloc: Global, module: &'a [u8]) -> Walk<'a> {
        let mut sections = SectionWalk::new(alloc, module);
        let next = sections.next();
        Walk {
            module,
            sections,
            next,
            done: 0,
        }
    }

    /// Returns the next section.
    fn next(&self) -> Option<SectionHead<'a>> {
        let located = self.next?;
        Some(SectionHead::new(self.done, located, self.module))
    }

    /// Goes on to the next section.
    fn go_on(&mut self) {
        self.next = self.sections.next();
        self.done = self.done.saturating_add(1);
    }
}

/// Lists the parts in which two modules differ. They are well-formed.
pub fn list_differences<'a, D: Differences>(
    alloc: Global,
    first: &'a [u8],
    second: &'a [u8],
    out: &mut D,
) -> Result<(), Stop> {
    let first_names = ItemNames::find(alloc, first)?;
    let second_names = ItemNames::find(alloc, second)?;
    let mut here = IndexSpaces::new(&first_names);
    let mut there = IndexSpaces::new(&second_names);
    let (mut one, mut other) = (Walk::new(alloc, first), Walk::new(alloc, second));
    for _ in 0..first.len().saturating_add(second.len()) {
        match next_sections(&mut one, &mut other) {
            Sections::None => break,
            Sections::Both(head, next) => {
                compare_sections(alloc, &head, &next, &mut here, &mut there, out)?;
            }
            Sections::First(head) => {
                list_only(&head, Side::First, out)?;
                list_section(alloc, &head, &mut here, &mut Silent)?;
            }
            Sections::Second(head) => {
                list_only(&head, Side::Second, out)?;
                list_section(alloc, &head, &mut there, &mut Silent)?;
            }
        }
    }
    Ok(())
}

/// The sections that come next in two modules.
#[derive(Clone, Copy)]
enum Sections<'a> {
    /// No sections are left.
    None,
    /// Sections of one kind. Custom sections have one name.
    Both(SectionHead<'a>, SectionHead<'a>),
    /// A section that only the first module has.
    First(SectionHead<'a>),
    /// A section that only the second module has.
    Second(SectionHead<'a>),
}

/// Returns the sections that come next in two modules, and goes on after them.
fn next_sections<'a>(one: &mut Walk<'a>, other: &mut Walk<'a>) -> Sections<'a> {
    let next = choose(one.next(), other.next());
    if matches!(next, Sections::Both(..) | Sections::First(_)) {
        one.go_on();
    }
    if matches!(next, Sections::Both(..) | Sections::Second(_)) {
        other.go_on();
    }
    next
}

/// Returns what comes next, where these are the next sections of two modules.
fn choose<'a>(one: Option<SectionHead<'a>>, other: Option<SectionHead<'a>>) -> Sections<'a> {
    match (one, other) {
        (None, None) => Sections::None,
        (Some(head), None) => Sections::First(head),
        (None, Some(head)) => Sections::Second(head),
        (Some(head), Some(next)) => choose_one(head, next),
    }
}

/// Returns what comes next, where both modules have sections left.
fn choose_one<'a>(head: SectionHead<'a>, next: SectionHead<'a>) -> Sections<'a> {
    let (one, other) = (head.located.section, next.located.section);
    if one.id == other.id && custom_name(one) == custom_name(other) {
        return Sections::Both(head, next);
    }
    if one.id != 0 && (other.id == 0 || rank(&other) < rank(&one)) {
        return Sections::Second(next);
    }
    Sections::First(head)
}

/// Lists a section that only one module has.
fn list_only<D: Differences>(head: &SectionHead<'_>, side: Side, out: &mut D) -> Result<(), Stop> {
    let number = Some(head.number);
    let in_first = side == Side::First;
    out.part(&DifferentPart {
        section: head.located.section,
        first_number: if in_first { number } else { None },
        second_number: if in_first { None } else { number },
        item: None,
        in_first,
        in_second: !in_first,
    })?;
    list_head(head, Side::First, in_first, out)?;
    list_head(head, Side::Second, !in_first, out)?;
    out.part_end()
}

/// Lists a section, if the module has it.
fn list_head<D: Differences>(
    head: &SectionHead<'_>,
    side: Side,
    has_it: bool,
    out: &mut D,
) -> Result<(), Stop> {
    if !has_it {
        return out.nothing(side);
    }
    out.section(side, head)?;
    out.side_end()
}

/// Lists the items in which two sections of one kind differ.
fn compare_sections<'a, D: Differences>(
    alloc: Global,
    one: &SectionHead<'a>,
    other: &SectionHead<'a>,
    here: &mut IndexSpaces<'_>,
    there: &mut IndexSpaces<'_>,
    out: &mut D,
) -> Result<(), Stop> {
    let mut pair = Pair {
        section: one.located.section,
        first_number: one.number,
        second_number: other.number,
        one: PartReader::new(alloc, one.located),
        other: PartReader::new(alloc, other.located),
    };
    match one.located.section.id {
        0 => compare_custom(one, other, out),
        1 => compare_items::<Types<'_>, D>(&mut pair, here, there, out),
        2 => compare_items::<Import<'_>, D>(&mut pair, here, there, out),
        3 => compare_items::<u32, D>(&mut pair, here, there, out),
        4 => compare_items::<Table, D>(&mut pair, here, there, out),
        5 => compare_items::<MemoryType, D>(&mut pair, here, there, out),
        6 => compare_items::<GlobalEntry, D>(&mut pair, here, there, out),
        7 => compare_items::<Export<'_>, D>(&mut pair, here, there, out),
        8 | 12 => compare_numbers(&mut pair, out),
        9 => compare_items::<Segment<'_>, D>(&mut pair, here, there, out),
        10 => compare_functions(&mut pair, here, there, out),
        11 => compare_items::<DataSegment<'_>, D>(&mut pair, here, there, out),
        13 => compare_items::<TagType, D>(&mut pair, here, there, out),
        _ => Err(Stop::Malformed),
    }
}

/// Two sections of one kind.
#[derive(Drop)]
struct Pair<'a, 'b> {
    section: RawSection<'a>,
    first_number: usize,
    second_number: usize,
    one: PartReader<'a>,
    other: PartReader<'b>,
}

impl<'a> Pair<'a, '_> {
    /// Returns the part that differs.
    fn part(&self, item: Option<u32>, in_first: bool, in_second: bool) -> DifferentPart<'a> {
        DifferentPart {
            section: self.section,
            first_number: Some(self.first_number),
            second_number: Some(self.second_number),
            item,
            in_first,
            in_second,
        }
    }
}

/// Lists the items in which two lists differ.
fn compare_items<'a, T: Listed<'a>, D: Differences>(
    pair: &mut Pair<'a, 'a>,
    here: &mut IndexSpaces<'_>,
    there: &mut IndexSpaces<'_>,
    out: &mut D,
) -> Result<(), Stop> {
    let (count, other_count) = (pair.one.number()?, pair.other.number()?);
    for number in 0..count.max(other_count) {
        let one = next_item::<T>(&mut pair.one, number, count)?;
        let other = next_item::<T>(&mut pair.other, number, other_count)?;
        if !are_same(&one, &other)? {
            list_items(pair, number, (&one, here), (&other, there), out)?;
        }
        count_item(&one, here);
        count_item(&other, there);
    }
    Ok(())
}

/// Lists the different items with this number in two lists, each with the index spaces before it.
fn list_items<'a, T: Listed<'a>, D: Differences>(
    pair: &Pair<'a, 'a>,
    number: u32,
    (one, here): (&Option<(Part<'a>, T)>, &IndexSpaces<'_>),
    (other, there): (&Option<(Part<'a>, T)>, &IndexSpaces<'_>),
    out: &mut D,
) -> Result<(), Stop> {
    let row = differ_at(contents_in(one, here), contents_in(other, there));
    out.part(&pair.part(Some(number), one.is_some(), other.is_some()))?;
    list_item(Side::First, one, here, row, out)?;
    list_item(Side::Second, other, there, row, out)?;
    out.part_end()
}

/// Counts an item, if there is one.
fn count_item<'a, T: Listed<'a>>(item: &Option<(Part<'a>, T)>, spaces: &mut IndexSpaces<'_>) {
    if let Some((_, item)) = item {
        item.count(spaces);
    }
}

/// Reads the item with this number, if the list has that many.
fn next_item<'a, T: Listed<'a>>(
    parts: &mut PartReader<'a>,
    number: u32,
    count: u32,
) -> Result<Option<(Part<'a>, T)>, Stop> {
    if number < count {
        return Ok(Some(T::read(parts, number)?));
    }
    Ok(None)
}

/// Checks whether two lists have the same item.
fn are_same<'a, T: Listed<'a>>(
    one: &Option<(Part<'a>, T)>,
    other: &Option<(Part<'a>, T)>,
) -> Result<bool, Stop> {
    let (Some((part, item)), Some((other_part, other))) = (one, other) else {
        return Ok(false);
    };
    if part.bytes == other_part.bytes {
        return Ok(true);
    }
    item.is_same(other)
}

/// Returns the bytes of a data segment. `None` means that there is no item.
fn contents_in<'a: 's, 's, T: Listed<'a>>(
    item: &'s Option<(Part<'a>, T)>,
    spaces: &IndexSpaces<'s>,
) -> Option<&'s [u8]> {
    let (_, item) = item.as_ref()?;
    Some(item.text(spaces).contents())
}

/// Returns the number of bytes that two data segments have in common at their starts. `None` means that they don't
/// differ, or that there aren't two.
fn differ_at(one: Option<&[u8]>, other: Option<&[u8]>) -> Option<usize> {
    let (one, other) = (one?, other?);
    if one == other {
        return None;
    }
    Some(common_len(one, other))
}

/// Lists what a module has in place of an item, with its bytes from `row` on.
fn list_item<'a, T: Listed<'a>, D: Differences>(
    side: Side,
    item: &Option<(Part<'a>, T)>,
    spaces: &IndexSpaces<'_>,
    row: Option<usize>,
    out: &mut D,
) -> Result<(), Stop> {
    let Some((part, item)) = item else {
        return out.nothing(side);
    };
    let text = item.text(spaces);
    out.item(side, part, &text)?;
    if let Some(common) = row {
        let start = part.bytes.len().saturating_sub(text.contents().len());
        out.row(side, &row_at(part, start.saturating_add(common)))?;
    }
    out.side_end()
}

/// Returns up to 16 bytes of a part, from this offset in it on.
fn row_at<'a>(part: &Part<'a>, start: usize) -> Part<'a> {
    let bytes = part.bytes.get(start..).unwrap_or(&[]);
    let (row, _rest) = bytes.split_at(bytes.len().min(ROW_BYTES));
    Part {
        number: 0,
        at: part.at.saturating_add(start),
        bytes: row,
        minimal: None,
    }
}

/// Lists the number in a start section or a data count section, if it differs.
fn compare_numbers<'a, D: Differences>(pair: &mut Pair<'a, 'a>, out: &mut D) -> Result<(), Stop> {
    let one = pair.one.item::<u32>(0)?;
    let other = pair.other.item::<u32>(0)?;
    if one.1 == other.1 {
        return Ok(());
    }
    out.part(&pair.part(None, true, true))?;
    list_number(Side::First, pair.section.id, &one, out)?;
    list_number(Side::Second, pair.section.id, &other, out)?;
    out.part_end()
}

/// Lists the number in a start section or a data count section.
fn list_number<D: Differences>(
    side: Side,
    id: u8,
    (part, number): &(Part<'_>, u32),
    out: &mut D,
) -> Result<(), Stop> {
    let text = if id == 8 {
        ItemText::Start(*number, None)
    } else {
        ItemText::DataCount(*number)
    };
    out.item(side, part, &text)?;
    out.side_end()
}

/// Lists two custom sections of one name, if their contents differ.
fn compare_custom<D: Differences>(
    one: &SectionHead<'_>,
    other: &SectionHead<'_>,
    out: &mut D,
) -> Result<(), Stop> {
    let (here, there) = (contents_of(one), contents_of(other));
    if here.bytes == there.bytes {
        return Ok(());
    }
    let common = common_len(here.bytes, there.bytes);
    out.part(&DifferentPart {
        section: one.located.section,
        first_number: Some(one.number),
        second_number: Some(other.number),
        item: None,
        in_first: true,
        in_second: true,
    })?;
    list_custom(Side::First, one, &row_at(&here, common), out)?;
    list_custom(Side::Second, other, &row_at(&there, common), out)?;
    out.part_end()
}

/// Lists a custom section, with bytes of its contents.
fn list_custom<D: Differences>(
    side: Side,
    head: &SectionHead<'_>,
    row: &Part<'_>,
    out: &mut D,
) -> Result<(), Stop> {
    out.section(side, head)?;
    out.row(side, row)?;
    out.side_end()
}

/// Returns the contents of a custom section after its name.
fn contents_of<'a>(head: &SectionHead<'a>) -> Part<'a> {
    let body = head.located.section.body;
    let bytes = match read_custom(body) {
        Ok(custom) => custom.bytes,
        Err(_) => &[],
    };
    Part {
        number: 0,
        at: head
            .located
            .offset_of(body.len().saturating_sub(bytes.len())),
        bytes,
        minimal: None,
    }
}

/// Lists the functions in which two code sections differ.
fn compare_functions<'a, D: Differences>(
    pair: &mut Pair<'a, 'a>,
    here: &mut IndexSpaces<'_>,
    there: &mut IndexSpaces<'_>,
    out: &mut D,
) -> Result<(), Stop> {
    let (count, other_count) = (pair.one.number()?, pair.other.number()?);
    for number in 0..count.max(other_count) {
        let one = next_function(&mut pair.one, number, count)?;
        let other = next_function(&mut pair.other, number, other_count)?;
        match first_details(&one, &other)? {
            None => {
                here.next_body();
                there.next_body();
            }
            Some((detail, other_detail)) => {
                out.part(&pair.part(Some(number), one.is_some(), other.is_some()))?;
                list_function(Side::First, &one, here, detail, out)?;
                list_function(Side::Second, &other, there, other_detail, out)?;
                out.part_end()?;
            }
        }
    }
    Ok(())
}

/// Reads the function with this number, if the section has that many.
fn next_function<'a>(
    parts: &mut PartReader<'a>,
    number: u32,
    count: u32,
) -> Result<Option<(Part<'a>, PartReader<'a>)>, Stop> {
    if number < count {
        return Ok(Some(parts.body(number)?));
    }
    Ok(None)
}

/// The first detail of a function that differs.
#[derive(Clone, Copy)]
enum Detail {
    /// No detail, since the other function is longer or the only one.
    None,
    /// The group of locals with this number, at this position in the section's body.
    Locals(u32, usize),
    /// The instruction at this position.
    Call(usize),
}

/// Lists what a module has in place of a function, and counts it.
fn list_function<D: Differences>(
    side: Side,
    function: &Option<(Part<'_>, PartReader<'_>)>,
    spaces: &mut IndexSpaces<'_>,
    detail: Detail,
    out: &mut D,
) -> Result<(), Stop> {
    let Some((part, code)) = function else {
        return out.nothing(side);
    };
    let index = spaces.next_body();
    out.item(
        side,
        part,
        &ItemText::Body(index, spaces.function_name(index)),
    )?;
    list_detail(side, code, detail, out)?;
    out.side_end()
}

/// Lists a detail of a function.
fn list_detail<D: Differences>(
    side: Side,
    code: &PartReader<'_>,
    detail: Detail,
    out: &mut D,
) -> Result<(), Stop> {
    match detail {
        Detail::None => Ok(()),
        Detail::Locals(number, position) => {
            let (part, (count, ty)) = code.skip_to(position)?.local_group(number)?;
            out.code(side, &part, &LocalsText(count, ty))
        }
        Detail::Call(position) => {
            let (part, instruction) = Instruction::read(&mut code.skip_to(position)?)?;
            out.code(side, &part, &instruction)
        }
    }
}

/// Returns the first details in which the functions of two modules differ. `None` means that both have the same one.
fn first_details(
    one: &Option<(Part<'_>, PartReader<'_>)>,
    other: &Option<(Part<'_>, PartReader<'_>)>,
) -> Result<Option<(Detail, Detail)>, Stop> {
    let (Some((part, code)), Some((other_part, other_code))) = (one, other) else {
        return Ok(Some((Detail::None, Detail::None)));
    };
    if part.bytes == other_part.bytes {
        return Ok(None);
    }
    let (mut code, mut other_code) = (code.again(), other_code.again());
    match first_locals(&mut code, &mut other_code)? {
        None => first_calls(&mut code, &mut other_code),
        different => Ok(different),
    }
}

/// Returns the first groups of locals in which two functions differ, and passes those before.
fn first_locals(
    one: &mut PartReader<'_>,
    other: &mut PartReader<'_>,
) -> Result<Option<(Detail, Detail)>, Stop> {
    let (groups, other_groups) = (one.number()?, other.number()?);
    for number in 0..groups.max(other_groups) {
        let first = locals_at(one, number, groups);
        let second = locals_at(other, number, other_groups);
        if next_group(one, number, groups)? != next_group(other, number, other_groups)? {
            return Ok(Some((first, second)));
        }
    }
    Ok(None)
}

/// Returns the group of locals with this number, which comes next if the function has that many.
fn locals_at(code: &PartReader<'_>, number: u32, count: u32) -> Detail {
    if number < count {
        return Detail::Locals(number, code.position());
    }
    Detail::None
}

/// Reads the group of locals with this number, if the function has that many.
fn next_group(
    code: &mut PartReader<'_>,
    number: u32,
    count: u32,
) -> Result<Option<LocalsText>, Stop> {
    if number >= count {
        return Ok(None);
    }
    let (_, (locals, ty)) = code.local_group(number)?;
    Ok(Some(LocalsText(locals, ty)))
}

/// Returns the first instructions in which two functions differ whose locals are the same.
fn first_calls(
    one: &mut PartReader<'_>,
    other: &mut PartReader<'_>,
) -> Result<Option<(Detail, Detail)>, Stop> {
    for _ in 0..one.len().saturating_add(other.len()) {
        let (first, second) = (call_at(one), call_at(other));
        if !are_same_calls(&next_call(one)?, &next_call(other)?)? {
            return Ok(Some((first, second)));
        }
    }
    Ok(None)
}

/// Returns the next instruction of a function, if there is one.
fn call_at(code: &PartReader<'_>) -> Detail {
    if code.len() == 0 {
        return Detail::None;
    }
    Detail::Call(code.position())
}

/// Reads the next instruction of a function, if there is one.
fn next_call<'a>(code: &mut PartReader<'a>) -> Result<Option<Instruction<'a>>, Stop> {
    if code.len() == 0 {
        return Ok(None);
    }
    let (_, instruction) = Instruction::read(code)?;
    Ok(Some(instruction))
}

/// Checks whether two functions have the same instruction.
fn are_same_calls(
    one: &Option<Instruction<'_>>,
    other: &Option<Instruction<'_>>,
) -> Result<bool, Stop> {
    match (one, other) {
        (Some(one), Some(other)) => one.is_same(other),
        (None, None) => Ok(true),
        _ => Ok(false),
    }
}
