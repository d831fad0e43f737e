//! Items that can be long, and are read piece by piece while they are listed.
use crate::listing::instructions::ExprText;
use crate::listing::{Part, PartReader, Stop, encoded_len};
use std::fmt;
use wasm_codec::encode::leb128::u32_len;
use wasm_instructions::table::{Call, Opcode};
use wasm_lists::list::Items;
use wasm_sections::data::DataSegment;
use wasm_sections::elements::{Element, ElementMode, Elements};
use wasm_types::types::{RefType, SubType};

/// The byte that begins a recursion group.
const GROUP: u8 = 0x4E;

/// The opcode of `br_table`.
const BR_TABLE: u8 = 0x0E;

/// An entry of a type section.
#[derive(Drop)]
pub struct Types<'a> {
    /// Whether it is a recursion group. Otherwise it is one type.
    pub is_group: bool,
    /// Number of types.
    pub count: u32,
    first: PartReader<'a>,
}

impl<'a> Types<'a> {
    /// Reads the entry with this number.
    pub fn read(parts: &mut PartReader<'a>, number: u32) -> Result<(Part<'a>, Types<'a>), Stop> {
        let start = parts.position();
        let is_group = parts.next_is(GROUP);
        let (count, head) = if is_group {
            read_group_count(parts)?
        } else {
            (1, 0)
        };
        let first = parts.again();
        let types = parts.pass::<SubType>(count)?;
        let part = parts.part_from(number, start, types.saturating_add(head));
        let entry = Types {
            is_group,
            count,
            first,
        };
        Ok((part, entry))
    }

    /// Returns a reader of the types.
    pub fn types(&self) -> PartReader<'a> {
        self.first.again()
    }

    /// Checks whether two entries are the same.
    pub fn is_same(&self, other: &Types<'_>) -> Result<bool, Stop> {
        if self.is_group != other.is_group || self.count != other.count {
            return Ok(false);
        }
        let (mut one, mut other) = (self.types(), other.types());
        for _ in 0..self.count {
            if one.piece::<SubType>()?.0 != other.piece::<SubType>()?.0 {
                return Ok(false);
            }
        }
        Ok(true)
    }
}

/// Reads the byte and the count of a recursion group. Returns the count, and the length of the minimal encoding of both.
fn read_group_count(parts: &mut PartReader<'_>) -> Result<(u32, usize), Stop> {
    parts.byte()?;
    let count = parts.number()?;
    Ok((count, u32_len(count).saturating_add(1)))
}

/// An element segment.
#[derive(Drop)]
pub struct Segment<'a> {
    /// The segment without its elements.
    pub head: Element,
    count: u32,
    first: PartReader<'a>,
}

impl<'a> Segment<'a> {
    /// Reads the segment with this number.
    pub fn read(parts: &mut PartReader<'a>, number: u32) -> Result<(Part<'a>, Segment<'a>), Stop> {
        let start = parts.position();
        let head = read_head(parts)?;
        let count = parts.number()?;
        let first = parts.again();
        let elements = match head.elements {
            Elements::Functions(_) => parts.pass::<u32>(count)?,
            Elements::Expressions(..) => parts.pass_expressions(count)?,
        };
        let without_count = encoded_len(parts.alloc(), &head)?.saturating_sub(1);
        let minimal = without_count
            .saturating_add(u32_len(count))
            .saturating_add(elements);
        let part = parts.part_from(number, start, minimal);
        Ok((part, Segment { head, count, first }))
    }

    /// Checks whether two segments are the same.
    pub fn is_same(&self, other: &Segment<'_>) -> Result<bool, Stop> {
        if self.head != other.head || self.count != other.count {
            return Ok(false);
        }
        let (mut one, mut other) = (self.first.again(), other.first.again());
        for _ in 0..self.count {
            let is_same = match self.head.elements {
                Elements::Functions(_) => one.number()? == other.number()?,
                Elements::Expressions(..) => one.expression()?.0 == other.expression()?.0,
            };
            if !is_same {
                return Ok(false);
            }
        }
        Ok(true)
    }

    /// Writes the elements, with a space in front of each.
    pub fn write_elements<W: fmt::Write>(&self, f: &mut fmt::Formatter<W>) -> fmt::Result {
        let mut elements = self.first.again();
        for _ in 0..self.count {
            match self.head.elements {
                Elements::Functions(_) => write_index(f, &mut elements)?,
                Elements::Expressions(..) => write_expression(f, &mut elements)?,
            }
        }
        Ok(())
    }
}

/// Reads an element segment up to its count.
fn read_head(parts: &mut PartReader<'_>) -> Result<Element, Stop> {
    let form = parts.number()?;
    let mode = match form {
        0 | 4 => read_active(parts, 0)?,
        1 | 5 => ElementMode::Passive,
        2 | 6 => {
            let table_index = parts.number()?;
            read_active(parts, table_index)?
        }
        3 | 7 => ElementMode::Declared,
        _ => return Err(Stop::Malformed),
    };
    let elements = read_kind(parts, form)?;
    Ok(Element { mode, elements })
}

/// Reads the offset of an active segment.
fn read_active(parts: &mut PartReader<'_>, table_index: u32) -> Result<ElementMode, Stop> {
    let (offset, _) = parts.expression()?;
    Ok(ElementMode::Active {
        table_index,
        offset,
    })
}

/// Reads the kind or the type of elements, if the form has one. Returns no elements of it.
fn read_kind(parts: &mut PartReader<'_>, form: u32) -> Result<Elements, Stop> {
    match form {
        0 => {}
        1 | 2 | 3 => {
            if parts.byte()? != 0 {
                return Err(Stop::Malformed);
            }
        }
        4 => return Ok(no_expressions(parts, RefType::FUNCREF)),
        _ => {
            let ty = parts.ref_type()?;
            return Ok(no_expressions(parts, ty));
        }
    }
    Ok(Elements::Functions(Items::new(parts.alloc())))
}

/// Returns no elements of a reference type.
fn no_expressions(parts: &PartReader<'_>, ty: RefType) -> Elements {
    Elements::Expressions(ty, Items::new(parts.alloc()))
}

/// Reads an index, and writes it after a space. Only memory can be missing, since the parts were read before.
fn write_index<W: fmt::Write>(
    f: &mut fmt::Formatter<W>,
    parts: &mut PartReader<'_>,
) -> fmt::Result {
    match parts.number() {
        Ok(index) => write!(f, " {index}"),
        Err(_) => Err(fmt::Error),
    }
}

/// Reads an expression, and writes it in brackets after a space.
fn write_expression<W: fmt::Write>(
    f: &mut fmt::Formatter<W>,
    parts: &mut PartReader<'_>,
) -> fmt::Result {
    match parts.expression() {
        Ok((calls, _)) => write!(f, " [{}]", ExprText(calls.as_slice())),
        Err(_) => Err(fmt::Error),
    }
}

/// Reads the data segment with this number. Copies none of its bytes.
pub fn read_data<'a>(
    parts: &mut PartReader<'a>,
    number: u32,
) -> Result<(Part<'a>, DataSegment<'a>), Stop> {
    let start = parts.position();
    let DataSegment { mode, bytes } = parts.value::<DataSegment<'a>>()?;
    let head = DataSegment { mode, bytes: &[] };
    let without_count = encoded_len(parts.alloc(), &head)?.saturating_sub(1);
    let minimal = without_count
        .saturating_add(u32_len(u32::try_from(bytes.len()).unwrap_or(u32::MAX)))
        .saturating_add(bytes.len());
    let part = parts.part_from(number, start, minimal);
    let DataSegment { mode, bytes: _ } = head;
    Ok((part, DataSegment { mode, bytes }))
}

/// An instruction.
#[derive(Drop)]
pub enum Instruction<'a> {
    /// An instruction that is read.
    Read(Call),
    /// A `br_table`: its number of labels without the last, and a reader of them.
    BrTable(u32, PartReader<'a>),
}

impl<'a> Instruction<'a> {
    /// Reads an instruction.
    pub fn read(code: &mut PartReader<'a>) -> Result<(Part<'a>, Instruction<'a>), Stop> {
        if !code.next_is(BR_TABLE) {
            let (part, call) = code.item::<Call>(0)?;
            return Ok((part, Instruction::Read(call)));
        }
        let start = code.position();
        code.byte()?;
        let count = code.number()?;
        let labels = code.again();
        let passed = code.pass::<u32>(count)?;
        let last = code.pass::<u32>(1)?;
        let minimal = u32_len(count)
            .saturating_add(1)
            .saturating_add(passed)
            .saturating_add(last);
        let part = code.part_from(0, start, minimal);
        Ok((part, Instruction::BrTable(count, labels)))
    }

    /// Returns the opcode.
    pub fn op(&self) -> Opcode {
        match self {
            Instruction::Read(call) => call.op(),
            Instruction::BrTable(..) => Opcode::without_prefix(BR_TABLE),
        }
    }

    /// Checks whether two instructions are the same.
    pub fn is_same(&self, other: &Instruction<'_>) -> Result<bool, Stop> {
        match (self, other) {
            (Instruction::Read(one), Instruction::Read(other)) => Ok(one == other),
            (Instruction::BrTable(count, one), Instruction::BrTable(other_count, other)) => {
                have_same_labels(*count, one, *other_count, other)
            }
            _ => Ok(false),
        }
    }
}

/// Checks whether two `br_table` with these numbers of labels have the same labels.
fn have_same_labels(
    count: u32,
    one: &PartReader<'_>,
    other_count: u32,
    other: &PartReader<'_>,
) -> Result<bool, Stop> {
    if count != other_count {
        return Ok(false);
    }
    let (mut one, mut other) = (one.again(), other.again());
    for _ in 0..count {
        if one.number()? != other.number()? {
            return Ok(false);
        }
    }
    Ok(one.number()? == other.number()?)
}

impl fmt::Display for Instruction<'_> {
    fn fmt<W: fmt::Write>(&self, f: &mut fmt::Formatter<W>) -> fmt::Result {
        match self {
            Instruction::Read(call) => write!(f, "{call}"),
            Instruction::BrTable(count, labels) => {
                let mut labels = labels.again();
                f.write_str("br_table")?;
                for _ in 0..*count {
                    write_index(f, &mut labels)?;
                }
                write_index(f, &mut labels)
            }
        }
    }
}
