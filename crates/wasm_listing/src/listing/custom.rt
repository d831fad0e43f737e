//! The contents of custom sections of known names, one item at a time (Core 3.0, Name Section; tool conventions, object
//! file linking, dynamic linking, `producers` and `target_features`; proposal of branch hints).
use crate::listing::{CustomText, Listing, Part, PartReader, Stop, SubsectionText};
use crate::sections::LocatedSection;
use wasm_codec::encode::leb128::u32_len;
use wasm_custom_sections::branch_hints::BranchHint;
use wasm_custom_sections::name_maps::Naming;
use wasm_custom_sections::producers::Producer;
use wasm_custom_sections::symbols::Symbol;
use wasm_custom_sections::target_features::TargetFeature;
use wasm_lists::readable::Readable;

/// The version of `linking` sections.
const LINKING_VERSION: u32 = 2;

/// Lists the contents of a custom section if its name is known. Malformed contents end with a note.
pub fn list_custom<L: Listing>(
    located: &LocatedSection<'_>,
    parts: &mut PartReader<'_>,
    listing: &mut L,
) -> Result<(), Stop> {
    let name = parts.name()?;
    let mut out = Contents {
        listing,
        number: 0,
        at: parts.at(),
    };
    let listed = match name {
        "name" => list_names(parts, &mut out),
        "producers" => list_producers(parts, &mut out),
        "target_features" => list_features(parts, &mut out),
        "linking" => list_linking(parts, &mut out),
        "metadata.code.branch_hint" => list_hints(parts, &mut out),
        "dylink.0" => list_dylink(parts, &mut out),
        _ => Ok(()),
    };
    match listed {
        Err(Stop::Malformed) => out.note_malformed(located),
        listed => listed,
    }
}

/// The contents of a custom section as far as they are listed.
#[derive(Drop)]
struct Contents<'l, L> {
    listing: &'l mut L,
    /// Number of items that are listed.
    number: u32,
    /// Offset of the next item in the module.
    at: usize,
}

/// A subsection: its id, where it begins in the body, its bytes after the size, and their number.
#[derive(Drop)]
struct Subsection<'a> {
    id: u8,
    start: usize,
    len: usize,
    body: PartReader<'a>,
}

impl<L: Listing> Contents<'_, L> {
    /// Lists an item.
    fn add(&mut self, part: &Part<'_>, text: &CustomText<'_>) -> Result<(), Stop> {
        self.number = self.number.saturating_add(1);
        self.listing.custom_item(part, text)
    }

    /// Notes that the contents are malformed from the next item on.
    fn note_malformed(&mut self, located: &LocatedSection<'_>) -> Result<(), Stop> {
        let body = located.section.body;
        let start = self.at.saturating_sub(located.offset_of(0));
        let part = Part {
            number: self.number,
            at: self.at,
            bytes: body.get(start..).unwrap_or(&[]),
            minimal: None,
        };
        self.add(&part, &CustomText::Malformed(self.at))
    }

    /// Reads an item.
    fn item<'a, T: Readable<'a>>(
        &mut self,
        parts: &mut PartReader<'a>,
    ) -> Result<(Part<'a>, T), Stop> {
        self.at = parts.at();
        parts.item::<T>(self.number)
    }

    /// Lists the number of entries of a list, and returns it.
    fn count(&mut self, parts: &mut PartReader<'_>) -> Result<u32, Stop> {
        let (part, count) = self.item::<u32>(parts)?;
        self.add(&part, &CustomText::Count(count))?;
        Ok(count)
    }

    /// Lists an item to which entries belong. Returns its index and their number.
    fn group(
        &mut self,
        parts: &mut PartReader<'_>,
        kind: &'static str,
    ) -> Result<(u32, u32), Stop> {
        self.at = parts.at();
        let start = parts.position();
        let index = parts.number()?;
        let count = parts.number()?;
        let minimal = u32_len(index).saturating_add(u32_len(count));
        let part = parts.part_from(self.number, start, minimal);
        self.add(&part, &CustomText::Group(kind, index, count))?;
        Ok((index, count))
    }

    /// Lists a name, after this word.
    fn name(&mut self, parts: &mut PartReader<'_>, word: &'static str) -> Result<(), Stop> {
        self.at = parts.at();
        let start = parts.position();
        let name = parts.name()?;
        let part = parts.part_from(self.number, start, name_len(name));
        self.add(&part, &CustomText::Name(word, name))
    }

    /// Reads the id and the size of a subsection.
    fn subsection<'a>(&mut self, parts: &mut PartReader<'a>) -> Result<Subsection<'a>, Stop> {
        self.at = parts.at();
        let start = parts.position();
        let id = parts.byte()?;
        let body = parts.sized()?;
        Ok(Subsection {
            id,
            start,
            len: body.len(),
            body,
        })
    }

    /// Lists the head of a subsection: its id and its size.
    fn head(&mut self, subsection: &Subsection<'_>, title: &'static str) -> Result<(), Stop> {
        let minimal = 1usize.saturating_add(size_len(subsection.len));
        let (body, start) = (&subsection.body, subsection.start);
        let part = body.part_from(self.number, start, minimal);
        self.add(&part, &text_of(subsection, title, None))
    }

    /// Lists the head of a subsection: its id, its size, and the number of its entries, which it returns.
    fn counted(
        &mut self,
        subsection: &mut Subsection<'_>,
        title: &'static str,
    ) -> Result<u32, Stop> {
        let count = subsection.body.number()?;
        let minimal = 1usize
            .saturating_add(size_len(subsection.len))
            .saturating_add(u32_len(count));
        let (body, start) = (&subsection.body, subsection.start);
        let part = body.part_from(self.number, start, minimal);
        self.add(&part, &text_of(subsection, title, Some(count)))?;
        Ok(count)
    }

    /// Lists a subsection whose entries aren't listed. `parts` is after it.
    fn whole(
        &mut self,
        parts: &PartReader<'_>,
        subsection: &Subsection<'_>,
        title: &'static str,
    ) -> Result<(), Stop> {
        let len = subsection.len;
        let minimal = 1usize.saturating_add(size_len(len)).saturating_add(len);
        let part = parts.part_from(self.number, subsection.start, minimal);
        self.add(&part, &text_of(subsection, title, None))
    }

    /// Fails with `Malformed` if bytes are left.
    fn end(&mut self, parts: &PartReader<'_>) -> Result<(), Stop> {
        self.at = parts.at();
        parts.end()
    }
}

/// Returns the length of a size in its minimal encoding.
fn size_len(len: usize) -> usize {
    u32_len(u32::try_from(len).unwrap_or(u32::MAX))
}

/// Returns the length of a name in its minimal encoding.
fn name_len(name: &str) -> usize {
    size_len(name.len()).saturating_add(name.len())
}

/// Returns the text of the head of a subsection.
fn text_of(
    subsection: &Subsection<'_>,
    title: &'static str,
    count: Option<u32>,
) -> CustomText<'static> {
    CustomText::Subsection(SubsectionText {
        title,
        id: subsection.id,
        len: subsection.len,
        count,
    })
}

/// What a subsection of a `name` section holds.
#[derive(Clone, Copy)]
enum NameKind {
    /// The name of the module.
    Module,
    /// Names of items: the title, and the kind of an item.
    Items(&'static str, &'static str),
    /// Names inside items: the title, the kind of what has a name, and the kind of an item.
    Inner(&'static str, &'static str, &'static str),
    /// Something unknown.
    Unknown,
}

/// Returns what the subsection of a `name` section with this id holds.
fn name_kind(id: u8) -> NameKind {
    match id {
        0 => NameKind::Module,
        1 => NameKind::Items("function names", "func"),
        2 => NameKind::Inner("local names", "local", "func"),
        3 => NameKind::Inner("label names", "label", "func"),
        4 => NameKind::Items("type names", "type"),
        5 => NameKind::Items("table names", "table"),
        6 => NameKind::Items("memory names", "memory"),
        7 => NameKind::Items("global names", "global"),
        8 => NameKind::Items("element segment names", "elem"),
        9 => NameKind::Items("data segment names", "data"),
        10 => NameKind::Inner("field names", "field", "type"),
        11 => NameKind::Items("tag names", "tag"),
        _ => NameKind::Unknown,
    }
}

/// Lists the subsections of a `name` section.
fn list_names<L: Listing>(
    parts: &mut PartReader<'_>,
    out: &mut Contents<'_, L>,
) -> Result<(), Stop> {
    for _ in 0..parts.len() {
        if parts.len() == 0 {
            break;
        }
        list_name_subsection(parts, out)?;
    }
    Ok(())
}

/// Lists a subsection of a `name` section.
fn list_name_subsection<L: Listing>(
    parts: &mut PartReader<'_>,
    out: &mut Contents<'_, L>,
) -> Result<(), Stop> {
    let mut subsection = out.subsection(parts)?;
    match name_kind(subsection.id) {
        NameKind::Module => list_module_name(&mut subsection, out),
        NameKind::Items(title, kind) => list_namings(&mut subsection, title, kind, out),
        NameKind::Inner(title, kind, outer) => {
            list_groups(&mut subsection, title, kind, outer, out)
        }
        NameKind::Unknown => out.whole(parts, &subsection, ""),
    }
}

/// Lists the name of the module.
fn list_module_name<L: Listing>(
    subsection: &mut Subsection<'_>,
    out: &mut Contents<'_, L>,
) -> Result<(), Stop> {
    out.head(subsection, "module name")?;
    out.name(&mut subsection.body, "module")?;
    out.end(&subsection.body)
}

/// Lists names of items.
fn list_namings<'a, L: Listing>(
    subsection: &mut Subsection<'a>,
    title: &'static str,
    kind: &'static str,
    out: &mut Contents<'_, L>,
) -> Result<(), Stop> {
    let count = out.counted(subsection, title)?;
    for _ in 0..count {
        let (part, naming) = out.item::<Naming<'a>>(&mut subsection.body)?;
        out.add(&part, &CustomText::Naming(kind, naming))?;
    }
    out.end(&subsection.body)
}

/// Lists names inside items.
fn list_groups<L: Listing>(
    subsection: &mut Subsection<'_>,
    title: &'static str,
    kind: &'static str,
    outer: &'static str,
    out: &mut Contents<'_, L>,
) -> Result<(), Stop> {
    let count = out.counted(subsection, title)?;
    for _ in 0..count {
        let (index, names) = out.group(&mut subsection.body, outer)?;
        list_inner(&mut subsection.body, names, kind, index, out)?;
    }
    out.end(&subsection.body)
}

/// Lists names inside the item with this index.
fn list_inner<'a, L: Listing>(
    parts: &mut PartReader<'a>,
    count: u32,
    kind: &'static str,
    outer: u32,
    out: &mut Contents<'_, L>,
) -> Result<(), Stop> {
    for _ in 0..count {
        let (part, naming) = out.item::<Naming<'a>>(parts)?;
        out.add(&part, &CustomText::Inner(kind, outer, naming))?;
    }
    Ok(())
}

/// Lists the fields of a `producers` section.
fn list_producers<L: Listing>(
    parts: &mut PartReader<'_>,
    out: &mut Contents<'_, L>,
) -> Result<(), Stop> {
    let count = out.count(parts)?;
    for _ in 0..count {
        let values = list_field(parts, out)?;
        list_values(parts, values, out)?;
    }
    out.end(parts)
}

/// Lists the name of a field and the number of its values, which it returns.
fn list_field<L: Listing>(
    parts: &mut PartReader<'_>,
    out: &mut Contents<'_, L>,
) -> Result<u32, Stop> {
    out.at = parts.at();
    let start = parts.position();
    let name = parts.name()?;
    let count = parts.number()?;
    let minimal = name_len(name).saturating_add(u32_len(count));
    let part = parts.part_from(out.number, start, minimal);
    out.add(&part, &CustomText::Field(name, count))?;
    Ok(count)
}

/// Lists the values of a field.
fn list_values<'a, L: Listing>(
    parts: &mut PartReader<'a>,
    count: u32,
    out: &mut Contents<'_, L>,
) -> Result<(), Stop> {
    for _ in 0..count {
        let (part, producer) = out.item::<Producer<'a>>(parts)?;
        out.add(&part, &CustomText::Producer(producer))?;
    }
    Ok(())
}

/// Lists the features of a `target_features` section.
fn list_features<'a, L: Listing>(
    parts: &mut PartReader<'a>,
    out: &mut Contents<'_, L>,
) -> Result<(), Stop> {
    let count = out.count(parts)?;
    for _ in 0..count {
        let (part, feature) = out.item::<TargetFeature<'a>>(parts)?;
        out.add(&part, &CustomText::Feature(feature))?;
    }
    out.end(parts)
}

/// Lists the version and the subsections of a `linking` section.
fn list_linking<L: Listing>(
    parts: &mut PartReader<'_>,
    out: &mut Contents<'_, L>,
) -> Result<(), Stop> {
    let (part, version) = out.item::<u32>(parts)?;
    if version != LINKING_VERSION {
        return Err(Stop::Malformed);
    }
    out.add(&part, &CustomText::Version(version))?;
    for _ in 0..parts.len() {
        if parts.len() == 0 {
            break;
        }
        list_linking_subsection(parts, out)?;
    }
    Ok(())
}

/// Lists a subsection of a `linking` section, with the symbols of a symbol table.
fn list_linking_subsection<L: Listing>(
    parts: &mut PartReader<'_>,
    out: &mut Contents<'_, L>,
) -> Result<(), Stop> {
    let mut subsection = out.subsection(parts)?;
    let title = match subsection.id {
        5 => "segment info",
        6 => "init functions",
        7 => "comdat info",
        8 => {
            let count = out.counted(&mut subsection, "symbol table")?;
            list_symbols(&mut subsection.body, count, out)?;
            return out.end(&subsection.body);
        }
        _ => "",
    };
    out.whole(parts, &subsection, title)
}

/// Lists the symbols of a symbol table.
fn list_symbols<'a, L: Listing>(
    parts: &mut PartReader<'a>,
    count: u32,
    out: &mut Contents<'_, L>,
) -> Result<(), Stop> {
    for _ in 0..count {
        let (part, symbol) = out.item::<Symbol<'a>>(parts)?;
        out.add(&part, &CustomText::Symbol(symbol))?;
    }
    Ok(())
}

/// Lists the hints of a `metadata.code.branch_hint` section.
fn list_hints<L: Listing>(
    parts: &mut PartReader<'_>,
    out: &mut Contents<'_, L>,
) -> Result<(), Stop> {
    let count = out.count(parts)?;
    for _ in 0..count {
        let (function, hints) = out.group(parts, "func")?;
        list_function_hints(parts, hints, function, out)?;
    }
    out.end(parts)
}

/// Lists the hints for a function.
fn list_function_hints<L: Listing>(
    parts: &mut PartReader<'_>,
    count: u32,
    function: u32,
    out: &mut Contents<'_, L>,
) -> Result<(), Stop> {
    for _ in 0..count {
        let (part, hint) = out.item::<BranchHint>(parts)?;
        out.add(&part, &CustomText::Hint(function, hint))?;
    }
    Ok(())
}

/// Lists the subsections of a `dylink.0` section.
fn list_dylink<L: Listing>(
    parts: &mut PartReader<'_>,
    out: &mut Contents<'_, L>,
) -> Result<(), Stop> {
    for _ in 0..parts.len() {
        if parts.len() == 0 {
            break;
        }
        list_dylink_subsection(parts, out)?;
    }
    Ok(())
}

/// Lists a subsection of a `dylink.0` section, with the names of needed libraries and of paths.
fn list_dylink_subsection<L: Listing>(
    parts: &mut PartReader<'_>,
    out: &mut Contents<'_, L>,
) -> Result<(), Stop> {
    let mut subsection = out.subsection(parts)?;
    let (title, word) = match subsection.id {
        1 => ("memory info", ""),
        2 => ("needed libraries", "needs"),
        3 => ("export info", ""),
        4 => ("import info", ""),
        5 => ("runtime paths", "path"),
        _ => ("", ""),
    };
    if word.is_empty() {
        return out.whole(parts, &subsection, title);
    }
    let count = out.counted(&mut subsection, title)?;
    for _ in 0..count {
        out.name(&mut subsection.body, word)?;
    }
    out.end(&subsection.body)
}
