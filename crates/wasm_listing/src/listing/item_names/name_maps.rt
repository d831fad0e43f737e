//! The name maps of a module's `name` section (Core 3.0, Name Section).
use crate::sections::LocatedSection;
use std::alloc::{AllocError, Global};
use wasm_codec::reader::cursor::Cursor;
use wasm_codec::reader::malformed::Construct;
use wasm_externals::names::read_name;
use wasm_modules::indices::IndexSpace;

/// Number of entries of a name map of which the offset of the first is kept.
const GROUP: u32 = 32;

/// Fewest bytes of an entry.
const FEWEST_BYTES: usize = 2;

/// The name maps of a module, at most one for each index space.
#[derive(Drop)]
pub struct NameMaps<'a> {
    module: &'a [u8],
    maps: Vec<NameMap>,
}

/// The place of a name map, whose indexes increase.
#[derive(Drop)]
struct NameMap {
    space: IndexSpace,
    /// Offset of the first entry in the module.
    start: usize,
    /// Length of the entries.
    len: usize,
    /// Offsets in the entries of each entry whose number is a multiple of 32.
    marks: Vec<u32>,
}

impl<'a> NameMaps<'a> {
    /// Returns no name maps.
    pub fn new(alloc: Global, module: &'a [u8]) -> NameMaps<'a> {
        NameMaps {
            module,
            maps: Vec::new(alloc),
        }
    }

    /// Adds the name maps of a `name` section, up to the first malformed part. Leaves out those of index spaces that
    /// have one already.
    ///
    /// Fails if memory runs out.
    pub fn add(&mut self, alloc: Global, located: &LocatedSection<'_>) -> Result<(), AllocError> {
        let body = located.section.body;
        let mut cursor = Cursor::new(body);
        if read_name(&mut cursor).is_err() {
            return Ok(());
        }
        for _ in 0..body.len() {
            let Some((id, entries)) = read_subsection(&mut cursor) else {
                break;
            };
            match space_of(id) {
                Some(space) if self.map(space).is_none() => {
                    let end = located.offset_of(body.len().saturating_sub(cursor.len()));
                    self.maps.push(NameMap::new(alloc, space, entries, end)?)?;
                }
                _ => {}
            }
        }
        Ok(())
    }

    /// Returns the name of the item with this index.
    pub fn get(&self, space: IndexSpace, index: u32) -> Option<&'a str> {
        let map = self.map(space)?;
        let end = map.start.saturating_add(map.len);
        map.find(self.module.get(map.start..end)?, index)
    }

    /// Returns the name map of an index space.
    fn map(&self, space: IndexSpace) -> Option<&NameMap> {
        self.maps.iter().find(|map| map.space == space)
    }
}

/// Reads the id and the body of a subsection.
fn read_subsection<'a>(cursor: &mut Cursor<'a>) -> Option<(u8, &'a [u8])> {
    let id = cursor.byte().ok()?;
    let start = cursor.to_end();
    let size = cursor.u32().ok()?;
    let body = cursor.take_sized(size, start).ok()?;
    Some((id, body))
}

/// Returns the index space that the subsection with this id has names for. `None` means none, or names inside items.
fn space_of(id: u8) -> Option<IndexSpace> {
    match id {
        1 => Some(IndexSpace::Functions),
        4 => Some(IndexSpace::Types),
        5 => Some(IndexSpace::Tables),
        6 => Some(IndexSpace::Memories),
        7 => Some(IndexSpace::Globals),
        8 => Some(IndexSpace::Elements),
        9 => Some(IndexSpace::Data),
        11 => Some(IndexSpace::Tags),
        _ => None,
    }
}

impl NameMap {
    /// Returns the place of the name map in a subsection's body, which ends at this offset in the module. It goes up to
    /// the first entry that is malformed or whose index doesn't increase.
    ///
    /// Fails if memory runs out.
    fn new(
        alloc: Global,
        space: IndexSpace,
        body: &[u8],
        end: usize,
    ) -> Result<NameMap, AllocError> {
        let mut cursor = Cursor::new(body);
        let count = cursor.u32().unwrap_or(0);
        let left = cursor.len();
        let (marks, len) = find_marks(alloc, &mut cursor, count)?;
        Ok(NameMap {
            space,
            start: end.saturating_sub(left),
            len,
            marks,
        })
    }

    /// Returns the name of the item with this index, in these entries of the map.
    fn find<'a>(&self, entries: &'a [u8], index: u32) -> Option<&'a str> {
        let following = self
            .marks
            .partition_point(|mark| is_at_most(entries, *mark, index));
        let mark = *self.marks.get(following.checked_sub(1)?)?;
        let mut cursor = Cursor::new(entries.get(mark as usize..)?);
        for _ in 0..GROUP {
            let found = cursor.u32().ok()?;
            if found == index {
                return read_name(&mut cursor).ok();
            }
            skip_name(&mut cursor)?;
        }
        None
    }
}

/// Checks whether the entry at this offset has at most this index.
fn is_at_most(entries: &[u8], mark: u32, index: u32) -> bool {
    match entries.get(mark as usize..) {
        Some(entries) => matches!(Cursor::new(entries).u32(), Ok(found) if found <= index),
        None => false,
    }
}

/// Returns the offsets of each entry whose number is a multiple of 32, and the length of the entries up to the first
/// that is malformed or whose index doesn't increase.
///
/// Fails if memory runs out.
fn find_marks(
    alloc: Global,
    cursor: &mut Cursor<'_>,
    count: u32,
) -> Result<(Vec<u32>, usize), AllocError> {
    let mut marks = Vec::new(alloc);
    let len = cursor.len();
    let room = (count as usize).min(len / FEWEST_BYTES) / GROUP as usize;
    marks.reserve(room.saturating_add(1))?;
    let (mut end, mut last) = (0usize, None);
    for number in 0..count {
        let Some(index) = next_index(cursor, last) else {
            break;
        };
        if number % GROUP == 0 {
            marks.push(u32::try_from(end).unwrap_or(u32::MAX))?;
        }
        last = Some(index);
        end = len.saturating_sub(cursor.len());
    }
    Ok((marks, end))
}

/// Reads an entry, and returns its index. `None` means that it is malformed, or that its index is at most `last`.
fn next_index(cursor: &mut Cursor<'_>, last: Option<u32>) -> Option<u32> {
    let index = cursor.u32().ok()?;
    let _name = read_name(cursor).ok()?;
    match last {
        Some(last) if index <= last => None,
        _ => Some(index),
    }
}

/// Moves a cursor over a name. `None` means that it is malformed.
pub fn skip_name(cursor: &mut Cursor<'_>) -> Option<()> {
    let len = cursor.u32().ok()?;
    let _name = cursor.take(len as usize, Construct::Name).ok()?;
    Some(())
}
