//! Readers, checks and normalisers.
//!
//! `read_…` decodes any encoding, `read_…_strict` only a minimal encoding, and `check_…` does the same without making
//! the value. `normalise_…` writes the minimal encoding into new memory, `rewrite_…` into the memory of its input, and
//! `rewrite_…_in_place` into a slice. All of them treat trailing bytes as malformed.
//!
//! Implement [`Readable`] for a type of your own to read lists of it with [`read_list_to_end`].

pub use wasm_code::code::function_body::FunctionBody;
pub use wasm_code::code::normaliser::{
    normalise_code_section, rewrite_code_section, rewrite_code_section_in_place,
};
pub use wasm_code::code::reader::{
    check_code_section, read_code_section, read_code_section_strict,
};
pub use wasm_code::normaliser::{normalise_module, rewrite_module, rewrite_module_in_place};
pub use wasm_code::raw::{check_module, read_module, read_module_strict};
pub use wasm_code::sections::{read_sections, read_sections_strict};
pub use wasm_codec::reader::cursor::{Cursor, Fault};
pub use wasm_codec::reader::malformed::{Construct, Malformed, Reason};
pub use wasm_codec::reader::refusal::{Refusal, SectionPlace};
pub use wasm_codec::reader::{DecodeError, ReadError, without_reason};
pub use wasm_codec::rewriter::Rewriter;
pub use wasm_instructions::normaliser::{
    normalise_instructions, rewrite_instructions, rewrite_instructions_in_place,
};
pub use wasm_instructions::reader::instructions::{
    check_instructions, read_instructions, read_instructions_strict,
};
pub use wasm_lists::checking::check_list_to_end;
pub use wasm_lists::item_reader::ItemReader;
pub use wasm_lists::readable::{Item, Readable};
pub use wasm_lists::reading::read_list_to_end;
pub use wasm_lists::rewriting::{RewritableBody, rewrite_list_to_end, rewrite_sized};
pub use wasm_types::type_sections::{
    check_type_section, normalise_type_section, read_type_section, read_type_section_strict,
    rewrite_type_section, rewrite_type_section_in_place,
};
