//! Text of the contents of custom sections.
use escaped_text::Escaped;
use std::fmt;
use wasm_custom_sections::branch_hints::BranchHint;
use wasm_custom_sections::name_maps::Naming;
use wasm_custom_sections::producers::Producer;
use wasm_custom_sections::symbols::{DataSymbol, ItemSymbol, Symbol};
use wasm_custom_sections::target_features::{FeaturePrefix, TargetFeature};

/// An item of the contents of a custom section.
#[derive(Clone, Copy)]
pub enum CustomText<'i> {
    /// The head of a subsection.
    Subsection(SubsectionText),
    /// The number of entries of a list.
    Count(u32),
    /// A version.
    Version(u32),
    /// The item to which the next entries belong: its kind, its index, and their number.
    Group(&'static str, u32, u32),
    /// The name of an item of this kind.
    Naming(&'static str, Naming<'i>),
    /// The name of something of this kind inside the item with this index.
    Inner(&'static str, u32, Naming<'i>),
    /// A name, after this word.
    Name(&'static str, &'i str),
    /// A field, and the number of its values.
    Field(&'i str, u32),
    /// A language or a tool.
    Producer(Producer<'i>),
    /// A feature.
    Feature(TargetFeature<'i>),
    /// A symbol.
    Symbol(Symbol<'i>),
    /// The index of a function, and a hint for a branch in it.
    Hint(u32, BranchHint),
    /// The offset from which on the contents are malformed.
    Malformed(usize),
}

/// The head of a subsection.
#[derive(Clone, Copy)]
pub struct SubsectionText {
    /// What the subsection holds. Empty means that the id is unknown.
    pub title: &'static str,
    /// Id of the subsection.
    pub id: u8,
    /// Number of bytes after the size.
    pub len: usize,
    /// Number of entries. `None` means that they aren't listed.
    pub count: Option<u32>,
}

impl fmt::Display for CustomText<'_> {
    fn fmt<W: fmt::Write>(&self, f: &mut fmt::Formatter<W>) -> fmt::Result {
        match self {
            CustomText::Subsection(head) => write!(f, "{head}"),
            CustomText::Count(count) => write!(f, "{}", Entries(*count)),
            CustomText::Version(version) => write!(f, "version {version}"),
            CustomText::Group(kind, index, count) => {
                write!(f, "{kind}[{index}], {}", Entries(*count))
            }
            CustomText::Naming(kind, naming) => {
                write!(f, "{kind}[{}] \"{}\"", naming.index, Escaped(naming.name))
            }
            CustomText::Inner(kind, outer, naming) => {
                let (index, name) = (naming.index, Escaped(naming.name));
                write!(f, "{kind}[{outer}][{index}] \"{name}\"")
            }
            CustomText::Name(word, name) => write!(f, "{word} \"{}\"", Escaped(name)),
            CustomText::Field(name, count) => {
                write!(f, "\"{}\", {}", Escaped(name), Entries(*count))
            }
            CustomText::Producer(producer) => write_producer(f, producer),
            CustomText::Feature(feature) => {
                let prefix = match feature.prefix {
                    FeaturePrefix::Used => '+',
                    FeaturePrefix::Disallowed => '-',
                };
                write!(f, "{prefix} \"{}\"", Escaped(feature.name))
            }
            CustomText::Symbol(symbol) => write_symbol(f, symbol),
            CustomText::Hint(function, hint) => {
                let (offset, value) = (hint.branch_func_offset, hint_word(hint.likely));
                write!(f, "func[{function}] offset {offset} {value}")
            }
            CustomText::Malformed(at) => write!(f, "malformed contents at offset {at:#x}"),
        }
    }
}

fn hint_word(likely: bool) -> &'static str {
    if likely { "likely" } else { "unlikely" }
}

/// A number of entries.
#[derive(Clone, Copy)]
struct Entries(u32);

impl fmt::Display for Entries {
    fn fmt<W: fmt::Write>(&self, f: &mut fmt::Formatter<W>) -> fmt::Result {
        let count = self.0;
        let noun = if count == 1 { "entry" } else { "entries" };
        write!(f, "{count} {noun}")
    }
}

impl fmt::Display for SubsectionText {
    fn fmt<W: fmt::Write>(&self, f: &mut fmt::Formatter<W>) -> fmt::Result {
        let (title, id, len) = (self.title, self.id, self.len);
        if title.is_empty() {
            write!(f, "subsection {id}")?;
        } else {
            write!(f, "{title}")?;
        }
        let plural = if len == 1 { "" } else { "s" };
        write!(f, ", {len} byte{plural}")?;
        match self.count {
            Some(count) => write!(f, ", {}", Entries(count)),
            None => Ok(()),
        }
    }
}

fn write_producer<W: fmt::Write>(
    f: &mut fmt::Formatter<W>,
    producer: &Producer<'_>,
) -> fmt::Result {
    write!(f, "\"{}\"", Escaped(producer.name))?;
    if producer.version.is_empty() {
        return Ok(());
    }
    write!(f, " version \"{}\"", Escaped(producer.version))
}

fn write_symbol<W: fmt::Write>(f: &mut fmt::Formatter<W>, symbol: &Symbol<'_>) -> fmt::Result {
    match symbol {
        Symbol::Function(item) => write_item_symbol(f, "func", item),
        Symbol::Data(data) => write_data_symbol(f, data),
        Symbol::Global(item) => write_item_symbol(f, "global", item),
        Symbol::Section(section) => {
            let flags = FlagsText(section.flags);
            write!(f, "section[{}] {flags}", section.section)
        }
        Symbol::Tag(item) => write_item_symbol(f, "tag", item),
        Symbol::Table(item) => write_item_symbol(f, "table", item),
    }
}

fn write_item_symbol<W: fmt::Write>(
    f: &mut fmt::Formatter<W>,
    kind: &str,
    item: &ItemSymbol<'_>,
) -> fmt::Result {
    write!(f, "{kind}[{}]", item.index)?;
    if let Some(name) = item.name {
        write!(f, " \"{}\"", Escaped(name))?;
    }
    write!(f, " {}", FlagsText(item.flags))
}

fn write_data_symbol<W: fmt::Write>(
    f: &mut fmt::Formatter<W>,
    data: &DataSymbol<'_>,
) -> fmt::Result {
    write!(f, "data \"{}\"", Escaped(data.name))?;
    if let Some(place) = data.definition {
        let (index, offset, size) = (place.index, place.offset, place.size);
        write!(f, " segment[{index}] offset {offset} size {size}")?;
    }
    write!(f, " {}", FlagsText(data.flags))
}

/// The flags of a symbol.
#[derive(Clone, Copy)]
struct FlagsText(u32);

/// The flags of symbols with their names (tool conventions, WebAssembly Object File Linking).
const FLAG_NAMES: [(u32, &str); 9] = [
    (0x1, "weak"),
    (0x2, "local"),
    (0x4, "hidden"),
    (0x10, "undefined"),
    (0x20, "exported"),
    (0x40, "explicit-name"),
    (0x80, "no-strip"),
    (0x100, "tls"),
    (0x200, "absolute"),
];

impl fmt::Display for FlagsText {
    fn fmt<W: fmt::Write>(&self, f: &mut fmt::Formatter<W>) -> fmt::Result {
        let flags = self.0;
        write!(f, "flags {flags:#x}")?;
        for (flag, name) in &FLAG_NAMES {
            if flags & *flag != 0 {
                write!(f, " {name}")?;
            }
        }
        Ok(())
    }
}
