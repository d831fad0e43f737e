//! The listing of a module: its sections, their items, and the instructions of its functions, one at a time.
mod choice;
mod custom;
mod custom_text;
mod differences;
mod different_lines;
mod different_values;
mod index_spaces;
mod instructions;
mod item_names;
mod items;
mod lines;
mod parts;
mod pieces;
mod silent;
mod types;
mod values;

use crate::sections::{LocatedSection, SectionWalk, has_list};
use choice::{list_chosen, list_heads};
pub use choice::{Choice, Unmatched};
use custom::list_custom;
pub use custom_text::{CustomText, SubsectionText};
pub use differences::{Differences, DifferentPart, Side, list_differences};
pub use different_lines::DifferentLines;
pub use different_values::{DifferentValues, FirstItem};
pub use index_spaces::{IndexSpaces, Listed};
pub use instructions::{Nesting, item_of};
pub use item_names::{ItemName, ItemNames, NameText};
pub use items::{ItemText, LocalsText, Unnamed};
pub use lines::{HeadText, Lines};
use parts::encoded_len;
pub use parts::{Longer, Part, PartReader, longer_number};
use pieces::read_data;
pub use pieces::{Instruction, Segment, Types};
pub use silent::Silent;
use std::alloc::{AllocError, Global};
use std::io;
pub use values::Values;
use wasm_code::raw::after_header;
use wasm_codec::reader::cursor::{Cursor, Fault};
use wasm_externals::limits::MemoryType;
use wasm_externals::types::TagType;
use wasm_sections::data::DataSegment;
use wasm_sections::exports::Export;
use wasm_sections::globals::Global as GlobalEntry;
use wasm_sections::imports::Import;
use wasm_sections::tables::Table;
use wasm_types::types::ValType;

/// Why a listing ends before the end of the module.
#[derive(Drop)]
pub enum Stop {
    /// The module is malformed here.
    Malformed,
    /// Memory ran out.
    Memory,
    /// A write failed.
    Write(io::Error),
    /// Enough is listed.
    Enough,
}

impl From<AllocError> for Stop {
    fn from(_error: AllocError) -> Stop {
        Stop::Memory
    }
}

impl From<io::Error> for Stop {
    fn from(error: io::Error) -> Stop {
        if error.kind() == io::ErrorKind::OutOfMemory {
            Stop::Memory
        } else {
            Stop::Write(error)
        }
    }
}

impl From<Fault> for Stop {
    fn from(fault: Fault) -> Stop {
        match fault {
            Fault::Memory => Stop::Memory,
            Fault::Malformed(_) => Stop::Malformed,
        }
    }
}

/// A section in a listing.
#[derive(Clone, Copy)]
pub struct SectionHead<'a> {
    /// Number of sections before it.
    pub number: usize,
    /// The section.
    pub located: LocatedSection<'a>,
    /// Number of items. `None` means that the section isn't a list, or that the number is malformed.
    pub count: Option<u32>,
    /// The size, if it isn't minimally encoded.
    pub size: Option<Longer>,
    /// The number at the start of the body, which is the count of a list or the length of a name, if it isn't minimally
    /// encoded.
    pub first: Option<Longer>,
}

impl<'a> SectionHead<'a> {
    /// Returns the section with this number, of these bytes.
    pub fn new(number: usize, located: LocatedSection<'a>, module: &[u8]) -> SectionHead<'a> {
        let (id, body) = (located.section.id, located.section.body);
        let is_list = has_list(id);
        let size_at = located.at.saturating_add(1);
        SectionHead {
            number,
            located,
            count: if is_list {
                Cursor::new(body).u32().ok()
            } else {
                None
            },
            size: longer_number(module.get(size_at..).unwrap_or(&[])),
            first: if is_list || id == 0 {
                longer_number(body)
            } else {
                None
            },
        }
    }
}

/// A function in a listing.
#[derive(Clone, Copy)]
pub struct FunctionHead<'a> {
    /// The function's size and code.
    pub part: Part<'a>,
    /// Index of the function in the module.
    pub index: u32,
    /// Name of the function.
    pub name: Option<ItemName<'a>>,
    /// The size, if it isn't minimally encoded.
    pub size: Option<Longer>,
    /// The number of groups of locals, if it isn't minimally encoded.
    pub groups: Option<Longer>,
}

/// What is done with the parts of a module, in the order in which they come.
pub trait Listing {
    /// Begins a section.
    fn section(&mut self, head: &SectionHead<'_>) -> Result<(), Stop>;

    /// Lists an item of a section.
    fn item(&mut self, part: &Part<'_>, text: &ItemText<'_>) -> Result<(), Stop>;

    /// Lists the contents of a data segment, which begin at this offset.
    fn contents(&mut self, at: usize, bytes: &[u8]) -> Result<(), Stop>;

    /// Lists an item of the contents of a custom section.
    fn custom_item(&mut self, part: &Part<'_>, text: &CustomText<'_>) -> Result<(), Stop>;

    /// Begins a function.
    fn function(&mut self, head: &FunctionHead<'_>) -> Result<(), Stop>;

    /// Lists a group of locals.
    fn locals(&mut self, part: &Part<'_>, count: u32, ty: ValType) -> Result<(), Stop>;

    /// Lists an instruction, with the name of the item that it refers to.
    fn call(
        &mut self,
        part: &Part<'_>,
        instruction: &Instruction<'_>,
        name: Option<ItemName<'_>>,
    ) -> Result<(), Stop>;

    /// Ends a function.
    fn function_end(&mut self) -> Result<(), Stop>;

    /// Ends a section.
    fn section_end(&mut self) -> Result<(), Stop>;
}

/// Lists the sections of a module that are shown, up to the first malformed part.
pub fn list_module<L: Listing>(
    alloc: Global,
    module: &[u8],
    choice: &mut Choice<'_>,
    listing: &mut L,
) -> Result<(), Stop> {
    if choice.headers {
        return list_heads(alloc, module, choice, listing);
    }
    let names = ItemNames::find(alloc, module)?;
    let Some(rest) = after_header(module) else {
        return Err(Stop::Malformed);
    };
    let mut left = rest.len();
    let mut spaces = IndexSpaces::new(&names);
    for (number, located) in SectionWalk::new(alloc, module).enumerate() {
        left = left.saturating_sub(located.len);
        let head = SectionHead::new(number, located, module);
        list_chosen(alloc, &head, choice, &mut spaces, listing)?;
    }
    if left > 0 {
        return Err(Stop::Malformed);
    }
    Ok(())
}

/// Lists a section.
pub fn list_section<L: Listing>(
    alloc: Global,
    head: &SectionHead<'_>,
    spaces: &mut IndexSpaces<'_>,
    listing: &mut L,
) -> Result<(), Stop> {
    listing.section(head)?;
    list_contents(alloc, head, spaces, listing)?;
    listing.section_end()
}

/// Lists what a section holds.
fn list_contents<L: Listing>(
    alloc: Global,
    head: &SectionHead<'_>,
    spaces: &mut IndexSpaces<'_>,
    listing: &mut L,
) -> Result<(), Stop> {
    let section = head.located.section;
    let mut parts = PartReader::new(alloc, head.located);
    match section.id {
        0 => list_custom(&head.located, &mut parts, listing),
        1 => list_items::<Types<'_>, L>(&mut parts, spaces, listing),
        2 => list_items::<Import<'_>, L>(&mut parts, spaces, listing),
        3 => list_items::<u32, L>(&mut parts, spaces, listing),
        4 => list_items::<Table, L>(&mut parts, spaces, listing),
        5 => list_items::<MemoryType, L>(&mut parts, spaces, listing),
        6 => list_items::<GlobalEntry, L>(&mut parts, spaces, listing),
        7 => list_items::<Export<'_>, L>(&mut parts, spaces, listing),
        8 => list_start(&mut parts, spaces, listing),
        9 => list_items::<Segment<'_>, L>(&mut parts, spaces, listing),
        10 => list_functions(&mut parts, spaces, listing),
        11 => list_items::<DataSegment<'_>, L>(&mut parts, spaces, listing),
        12 => list_data_count(&mut parts, listing),
        13 => list_items::<TagType, L>(&mut parts, spaces, listing),
        _ => Err(Stop::Malformed),
    }
}

/// Lists the items of a list.
fn list_items<'a, T: Listed<'a>, L: Listing>(
    parts: &mut PartReader<'a>,
    spaces: &mut IndexSpaces<'_>,
    listing: &mut L,
) -> Result<(), Stop> {
    let count = parts.number()?;
    for number in 0..count {
        let (part, item) = T::read(parts, number)?;
        let text = item.text(spaces);
        listing.item(&part, &text)?;
        let contents = text.contents();
        if !contents.is_empty() {
            listing.contents(part.end().saturating_sub(contents.len()), contents)?;
        }
        item.count(spaces);
    }
    parts.end()
}

/// Lists the function index of a start section.
fn list_start<L: Listing>(
    parts: &mut PartReader<'_>,
    spaces: &IndexSpaces<'_>,
    listing: &mut L,
) -> Result<(), Stop> {
    let (part, index) = parts.item::<u32>(0)?;
    listing.item(&part, &ItemText::Start(index, spaces.function_name(index)))?;
    parts.end()
}

/// Lists the number of a data count section.
fn list_data_count<L: Listing>(parts: &mut PartReader<'_>, listing: &mut L) -> Result<(), Stop> {
    let (part, count) = parts.item::<u32>(0)?;
    listing.item(&part, &ItemText::DataCount(count))?;
    parts.end()
}

/// Lists the functions of a code section.
fn list_functions<L: Listing>(
    parts: &mut PartReader<'_>,
    spaces: &mut IndexSpaces<'_>,
    listing: &mut L,
) -> Result<(), Stop> {
    let count = parts.number()?;
    for number in 0..count {
        let (part, mut code) = parts.body(number)?;
        let index = spaces.next_body();
        let head = FunctionHead {
            part,
            index,
            name: spaces.function_name(index),
            size: longer_number(part.bytes),
            groups: longer_number(code.left()),
        };
        listing.function(&head)?;
        list_locals(&mut code, listing)?;
        list_calls(&mut code, spaces, listing)?;
        listing.function_end()?;
    }
    parts.end()
}

/// Lists the locals of a function.
fn list_locals<L: Listing>(code: &mut PartReader<'_>, listing: &mut L) -> Result<(), Stop> {
    let groups = code.number()?;
    for number in 0..groups {
        let (part, (count, ty)) = code.local_group(number)?;
        listing.locals(&part, count, ty)?;
    }
    Ok(())
}

/// Lists the instructions of a function.
fn list_calls<L: Listing>(
    code: &mut PartReader<'_>,
    spaces: &IndexSpaces<'_>,
    listing: &mut L,
) -> Result<(), Stop> {
    for _ in 0..code.len() {
        if code.len() == 0 {
            break;
        }
        let (part, instruction) = Instruction::read(code)?;
        let name = item_of(&instruction).and_then(|(space, index)| spaces.name(space, index));
        listing.call(&part, &instruction, name)?;
    }
    Ok(())
}
