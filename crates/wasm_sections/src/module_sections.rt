//! Decoded sections of any kind (Core 3.0, Modules).

mod kinds;
mod reader;
mod rewriter;
mod writer;

use crate::custom::CustomSection;
use crate::data::DataSegment;
use crate::elements::Element;
use crate::exports::Export;
use crate::globals::Global as GlobalEntry;
use crate::imports::Import;
use crate::tables::Table;
pub use kinds::{SectionKind, SectionVisitor, visit_section};
pub use rewriter::AnySection;
use wasm_code::code::CodeBody;
use wasm_externals::limits::MemoryType;
use wasm_externals::types::TagType;
use wasm_lists::list::Items;
use wasm_types::types::TypeEntry;

/// A decoded section (Core 3.0, Modules).
///
/// # Examples
///
/// ```
/// # use wasm_encoder::{ModuleSection, read_whole_module};
/// let bytes = b"\0asm\x01\0\0\0\x03\x03\x02\x00\x01"; // a function section: two functions, of types 0 and 1
/// for section in &read_whole_module(rt.alloc(), bytes)? {
///     if let ModuleSection::Functions(types) = section {
///         assert_eq!(rt; types.as_slice(), [0, 1].as_slice());
///     }
/// }
/// ```
#[derive(Debug, Drop)]
pub enum ModuleSection<'a> {
    /// A custom section (id 0).
    Custom(CustomSection<'a>),
    /// The type section (id 1): recursion groups and single types.
    Types(Items<TypeEntry>),
    /// The import section (id 2).
    Imports(Items<Import<'a>>),
    /// The function section (id 3): the type index of each function.
    Functions(Items<u32>),
    /// The table section (id 4).
    Tables(Items<Table>),
    /// The memory section (id 5).
    Memories(Items<MemoryType>),
    /// The global section (id 6).
    Globals(Items<GlobalEntry>),
    /// The export section (id 7).
    Exports(Items<Export<'a>>),
    /// The start section (id 8): a function index.
    Start(u32),
    /// The element section (id 9).
    Elements(Items<Element>),
    /// The code section (id 10).
    Code(Items<CodeBody>),
    /// The data section (id 11).
    Data(Items<DataSegment<'a>>),
    /// The data count section (id 12): the number of data segments.
    DataCount(u32),
    /// The tag section (id 13).
    Tags(Items<TagType>),
}
