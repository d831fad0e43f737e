//! Vectors of inputs that are cut at each place: what is read, its bytes, where its parts end, and what the strict reader
//! answers to all of it.

use crate::calls::{Count, count};
use crate::columns::columns;
use crate::mismatch::Mismatch;
use crate::one_by_one::all_items;
use crate::readers::{normalise, refusal};
use crate::strict::parse_refusal;
use std::alloc::Global;
use wasm_encoder::reader::Reason;
use wasm_encoder::{
    Call, CodeBody, ItemReader, RawSection, ReadError, TypeEntry, read_code_section,
    read_code_section_strict, read_instructions, read_instructions_strict, read_module,
    read_module_strict, read_sections, read_sections_strict, read_type_section,
    read_type_section_strict,
};

/// The answers of readers to the same bytes: the number of items, or the offset at which they refuse the bytes.
#[derive(Clone, Copy)]
struct Answers {
    wide: Count,
    strict: Count,
}

/// Holds the readers and the normaliser to the vector of a line, at each place where its bytes may be cut.
pub fn check(alloc: Global, line: &str) -> Result<(), Mismatch> {
    let (what, input, answer) = columns(line)?;
    let (ends, strict) = answer.split_once('\t').ok_or(Mismatch::NotUnderstood)?;
    let input = hex::decode(alloc, input)?;
    let ends = parse_ends(alloc, ends)?;
    let longer = parse_refusal(strict)?;
    check_cuts(alloc, what, input.as_slice(), ends.as_slice(), longer)
}

/// Reads the ends of the parts of the bytes: each call, the count of a list and each of its items, the header of a
/// module and each section. The column is `-` if they have none.
fn parse_ends(alloc: Global, column: &str) -> Result<Vec<usize>, Mismatch> {
    let mut ends = Vec::new(alloc);
    if column == "-" {
        return Ok(ends);
    }
    for word in column.split(' ') {
        let Ok(end) = word.parse() else {
            return Err(Mismatch::NotUnderstood);
        };
        ends.push(end)?;
    }
    Ok(ends)
}

fn check_cuts(
    alloc: Global,
    what: &str,
    input: &[u8],
    ends: &[usize],
    longer: Option<usize>,
) -> Result<(), Mismatch> {
    for size in 0..=input.len() {
        let cut = input.get(..size).ok_or(Mismatch::NotUnderstood)?;
        let expected = expected_answers(what, ends, size, longer);
        check_readers(alloc, what, cut, expected)?;
        check_one_by_one(alloc, what, cut, ends, expected)?;
        check_normaliser(alloc, what, cut, expected.wide)?;
        check_reason(alloc, what, cut, ends)?;
    }
    Ok(())
}

/// Checks that bytes cut before the last end are refused because they end.
fn check_reason(alloc: Global, what: &str, cut: &[u8], ends: &[usize]) -> Result<(), Mismatch> {
    match ends.last() {
        Some(end) if cut.len() < *end => {}
        _ => return Ok(()),
    }
    match refusal(alloc, what, cut)? {
        Some(refusal) if refusal.offset < refusal.at => Err(Mismatch::Place),
        Some(refusal) => check_end(refusal.reason, refusal.offset, cut.len()),
        None => Ok(()),
    }
}

/// The reason at this offset is that the bytes end after so many: in a part, in a body after its size, or in the header.
fn check_end(reason: Reason, offset: usize, len: usize) -> Result<(), Mismatch> {
    match reason {
        Reason::UnexpectedEnd { .. } if offset == len => Ok(()),
        Reason::SizeTooLarge { .. } if offset < len => Ok(()),
        Reason::NotAModule { .. } if len < 8 => Ok(()),
        _ => Err(Mismatch::Reason),
    }
}

/// Returns the expected answers to the first `size` bytes. The strict reader refuses a longer part at its start, once
/// the part is complete.
fn expected_answers(what: &str, ends: &[usize], size: usize, longer: Option<usize>) -> Answers {
    let (parts, last) = whole_parts(ends, size);
    let wide = if last == size && is_list(what, parts, ends.len()) {
        Ok(items(what, parts))
    } else {
        Err(last)
    };
    let strict = match longer {
        Some(at) if at < last => Err(at),
        _ => wide,
    };
    Answers { wide, strict }
}

/// How many parts are whole in so many bytes, and where the last of them ends.
fn whole_parts(ends: &[usize], size: usize) -> (usize, usize) {
    let mut parts: usize = 0;
    let mut last = 0;
    for end in ends {
        if *end <= size {
            parts = parts.saturating_add(1);
            last = *end;
        }
    }
    (parts, last)
}

/// Whether so many of all parts are a list: any calls; a header and any sections; a count and as many items.
fn is_list(what: &str, parts: usize, all: usize) -> bool {
    match what {
        "calls" => true,
        "module" | "sections" => parts > 0,
        _ => parts == all,
    }
}

/// How many of the parts are items: not the count or the header before them.
fn items(what: &str, parts: usize) -> usize {
    if what == "calls" {
        parts
    } else {
        parts.saturating_sub(1)
    }
}

fn check_readers(alloc: Global, what: &str, cut: &[u8], expected: Answers) -> Result<(), Mismatch> {
    match what {
        "calls" => {
            let strict = read_instructions_strict(alloc, cut);
            check_lists(read_instructions(alloc, cut), strict, expected)
        }
        "types" => {
            let strict = read_type_section_strict(alloc, cut);
            check_lists(read_type_section(alloc, cut), strict, expected)
        }
        "code" => {
            let strict = read_code_section_strict(alloc, cut);
            check_lists(read_code_section(alloc, cut), strict, expected)
        }
        _ => check_sections(
            read_module(alloc, cut),
            read_module_strict(alloc, cut),
            expected,
        ),
    }
}

/// Checks that iterators give items at the ends of the parts before, and refuse the bytes as readers of a list do.
fn check_one_by_one(
    alloc: Global,
    what: &str,
    cut: &[u8],
    ends: &[usize],
    expected: Answers,
) -> Result<(), Mismatch> {
    match what {
        "calls" => {
            let mut offsets = vec![in alloc; 0usize]?;
            offsets.extend_from_slice(ends)?;
            let wide = all_items(alloc, Ok(ItemReader::<Call>::to_end(alloc, cut)), &offsets)?;
            let strict = ItemReader::<Call>::to_end_strict(alloc, cut);
            let strict = all_items(alloc, Ok(strict), &offsets)?;
            check_lists(wide, strict, expected)
        }
        "types" => {
            let wide = all_items(alloc, ItemReader::<TypeEntry>::list(alloc, cut), ends)?;
            let strict = all_items(
                alloc,
                ItemReader::<TypeEntry>::list_strict(alloc, cut),
                ends,
            )?;
            check_lists(wide, strict, expected)
        }
        "code" => {
            let wide = all_items(alloc, ItemReader::<CodeBody>::list(alloc, cut), ends)?;
            let strict = all_items(alloc, ItemReader::<CodeBody>::list_strict(alloc, cut), ends)?;
            check_lists(wide, strict, expected)
        }
        _ => {
            let wide = all_items(alloc, read_sections(alloc, cut), ends)?;
            let strict = all_items(alloc, read_sections_strict(alloc, cut), ends)?;
            check_sections(wide, strict, expected)
        }
    }
}

/// The answers are the expected ones, and both lists are the same.
fn check_lists<T: PartialEq + Drop>(
    wide: Result<Vec<T>, ReadError>,
    strict: Result<Vec<T>, ReadError>,
    expected: Answers,
) -> Result<(), Mismatch> {
    let are_same = match (&wide, &strict) {
        (Ok(wide), Ok(strict)) => wide == strict,
        _ => true,
    };
    check_answers(are_same, count(wide)?, count(strict)?, expected)
}

/// The same of lists of sections.
fn check_sections(
    wide: Result<Vec<RawSection<'_>>, ReadError>,
    strict: Result<Vec<RawSection<'_>>, ReadError>,
    expected: Answers,
) -> Result<(), Mismatch> {
    let are_same = match (&wide, &strict) {
        (Ok(wide), Ok(strict)) => are_same_sections(wide.as_slice(), strict.as_slice()),
        _ => true,
    };
    check_answers(are_same, count(wide)?, count(strict)?, expected)
}

fn are_same_sections(sections: &[RawSection<'_>], others: &[RawSection<'_>]) -> bool {
    for (section, other) in sections.iter().zip(others) {
        if section.id != other.id || section.body != other.body {
            return false;
        }
    }
    true
}

fn check_answers(
    are_same: bool,
    wide: Count,
    strict: Count,
    expected: Answers,
) -> Result<(), Mismatch> {
    if are_same && wide == expected.wide && strict == expected.strict {
        Ok(())
    } else {
        Err(Mismatch::Read)
    }
}

/// Checks that the normaliser takes or refuses the bytes as the reader does. Sections alone have no normal form.
fn check_normaliser(
    alloc: Global,
    what: &str,
    cut: &[u8],
    expected: Count,
) -> Result<(), Mismatch> {
    if what == "sections" {
        return Ok(());
    }
    match (normalise(alloc, what, cut)?, expected) {
        (Ok(_), Ok(_)) => Ok(()),
        (Err(at), Err(place)) if at == place => Ok(()),
        _ => Err(Mismatch::Normalised),
    }
}
