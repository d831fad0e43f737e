//! The lowest layer of a WebAssembly encoder, proved. You call typed methods, and the encoder emits the minimal
//! encoding. Readers accept every encoding that the binary format allows, and normalisers rewrite it to the minimal
//! one.
//!
//! This crate has modules and their sections (Core 3.0, Modules), and re-exports the public API of the crates below it.
//! Name this crate alone in your code.
//!
//! - **Writers.** [`InstructionSink`] has a method for each instruction. [`Module`] takes the builders: [`TypeSection`],
//!   [`CodeSection`] with [`Function`], and one for each other section in [`sections`]. [`ModuleWriter`] writes sections
//!   to a file or stream, and [`Encode`] single values. After an error nothing has changed.
//! - **Readers.** [`read`] decodes the body of what its type parameter builds: `read::<WholeModule>`,
//!   `read::<ExportSection>`, `read::<Instructions>`. It accepts every encoding; [`read_strict`] accepts only the minimal
//!   one, and [`check`] does the same without making the value. [`ItemReader`] hands on one item after another,
//!   [`read_contents`] those of a section. [`Readable`] and [`Decode`] read types of your own.
//! - **Normalisers.** [`normalise`] writes the minimal encoding of its input into new memory, and [`rewrite`] into the
//!   memory of its input. [`rewrite_whole_module`] does that for all sections of a module.
//! - **Editing.** [`MapIndices`] copies values with the new indices of a [`Renumbering`], and [`Module::from_sections`]
//!   writes what was read. [`check_order`] finds sections out of order.
//! - **Errors.** [`Error`] holds those of all calls. A [`DecodeError`] says where its input is malformed, and why.
//!
//! # Examples
//!
//! Instructions go into any list of bytes:
//!
//! ```
//! # use wasm_encoder::InstructionSink;
//! let mut code = Vec::new(rt.alloc());
//! InstructionSink::new(&mut code).local_get(0)?.local_get(1)?.i32_add()?.end()?;
//! assert_eq!(rt; code.as_slice(), b"\x20\x00\x20\x01\x6a\x0b".as_slice());
//! ```
//!
//! A module is a list of sections. This one exports a function that adds its parameters:
//!
//! ```
//! # use wasm_encoder::{
//! #     CodeSection, ExportKind, ExportSection, Function, FunctionSection, Module, TypeSection, ValType,
//! # };
//! let mut types = TypeSection::new(rt.alloc());
//! types.ty().function([ValType::I32, ValType::I32], [ValType::I32])?;
//! let mut functions = FunctionSection::new(rt.alloc());
//! functions.function(0)?;
//! let mut exports = ExportSection::new(rt.alloc());
//! exports.export("f", ExportKind::Func, 0)?;
//! let mut f = Function::new(rt.alloc(), [])?;
//! f.instructions().local_get(0)?.local_get(1)?.i32_add()?.end()?;
//! let mut codes = CodeSection::new(rt.alloc());
//! codes.function(&f)?;
//!
//! let mut module = Module::new(rt.alloc())?;
//! module.section(&types)?;
//! module.section(&functions)?;
//! module.section(&exports)?;
//! module.section(&codes)?;
//! assert_eq!(rt; module.finish().len(), 39);
//! ```
//!
//! A padded index becomes minimal:
//!
//! ```
//! # use wasm_encoder::{Instructions, normalise};
//! let minimal = normalise::<Instructions>(rt.alloc(), b"\x20\xc2\x80\x00")?; // local.get 66
//! assert_eq!(rt; minimal.as_slice(), b"\x20\x42".as_slice());
//! ```
//!
//! # The guarantee
//!
//! Contracts state it for all inputs, and the proof checks it. Bytes decode to at most one value. A reader returns that
//! value unless memory runs out, and refuses exactly malformed bytes. What a writer appends encodes the value, and
//! every other encoding of it is longer. Nothing checks that a module is valid.
//!
//! The repository's `README.md` says how to depend on this crate, `docs/FORMAT.md` gives the binary format, and
//! `docs/PROMISES.md` lists what is proved of each call.
#![tactic(auto)]

pub mod code;
pub mod decode;
pub mod encode;
pub mod encoded_section;
pub mod error;
pub mod module_writer;
pub mod raw;
pub mod reader;
pub mod sections;
mod type_section;
pub mod types;
pub mod wasm_core;

pub use code::CodeBody;
pub use code::CodeSection;
pub use code::Function;
pub use decode::Decode;
pub use decode::Instructions;
pub use decode::check;
pub use decode::normalise;
pub use decode::read;
pub use decode::read_strict;
pub use decode::rewrite;
pub use decode::rewrite_in_place;
pub use encode::Encode;
pub use encode::EncodeError;
pub use encode::encode_bytes;
pub use encode::encode_list;
pub use encode::encode_str;
pub use encode::keep_or_undo;
pub use encoded_section::EncodedSection;
pub use error::Error;
pub use module_writer::ModuleWriter;
pub use module_writer::WriteError;
pub use raw::RawSection;
pub use raw::first_body;
pub use reader::Construct;
pub use reader::Cursor;
pub use reader::DecodeError;
pub use reader::Fault;
pub use reader::FunctionBody;
pub use reader::ItemReader;
pub use reader::ReadError;
pub use reader::Readable;
pub use reader::Reason;
pub use reader::Refusal;
pub use reader::SectionPlace;
pub use reader::check_code_section;
pub use reader::check_instructions;
pub use reader::check_module;
pub use reader::check_type_section;
pub use reader::normalise_code_section;
pub use reader::normalise_instructions;
pub use reader::normalise_module;
pub use reader::normalise_type_section;
pub use reader::read_code_section;
pub use reader::read_code_section_strict;
pub use reader::read_instructions;
pub use reader::read_instructions_strict;
pub use reader::read_list_to_end;
pub use reader::read_module;
pub use reader::read_module_strict;
pub use reader::read_sections;
pub use reader::read_sections_strict;
pub use reader::read_type_section;
pub use reader::read_type_section_strict;
pub use reader::rewrite_code_section;
pub use reader::rewrite_code_section_in_place;
pub use reader::rewrite_instructions;
pub use reader::rewrite_instructions_in_place;
pub use reader::rewrite_module;
pub use reader::rewrite_module_in_place;
pub use reader::rewrite_type_section;
pub use reader::rewrite_type_section_in_place;
pub use sections::BranchHint;
pub use sections::BranchHints;
pub use sections::ConstExpr;
pub use sections::Contents;
pub use sections::CoreDumpInstance;
pub use sections::CoreDumpInstancesSection;
pub use sections::CoreDumpModule;
pub use sections::CoreDumpModulesSection;
pub use sections::CoreDumpSection;
pub use sections::CoreDumpStack;
pub use sections::CoreDumpStackFrame;
pub use sections::CoreDumpStackSection;
pub use sections::CoreDumpValue;
pub use sections::CustomSection;
pub use sections::DataCountSection;
pub use sections::DataSection;
pub use sections::DataSegment;
pub use sections::DataSegmentMode;
pub use sections::DataSymbol;
pub use sections::DataSymbolDefinition;
pub use sections::Element;
pub use sections::ElementMode;
pub use sections::ElementSection;
pub use sections::Elements;
pub use sections::EntityType;
pub use sections::Export;
pub use sections::ExportKind;
pub use sections::ExportSection;
pub use sections::FeaturePrefix;
pub use sections::FunctionHints;
pub use sections::FunctionSection;
pub use sections::GlobalSection;
pub use sections::GlobalType;
pub use sections::HintedCode;
pub use sections::Import;
pub use sections::ImportSection;
pub use sections::IndirectNameMap;
pub use sections::IndirectNaming;
pub use sections::ItemSymbol;
pub use sections::KnownCustomSection;
pub use sections::LinkingSection;
pub use sections::LinkingSubsection;
pub use sections::ListSection;
pub use sections::MemorySection;
pub use sections::MemoryType;
pub use sections::ModuleError;
pub use sections::ModuleSection;
pub use sections::NameError;
pub use sections::NameMap;
pub use sections::NameSection;
pub use sections::NameSubsection;
pub use sections::Naming;
pub use sections::Producer;
pub use sections::Producers;
pub use sections::ProducersField;
pub use sections::ProducersSection;
pub use sections::SectionItem;
pub use sections::SectionSymbol;
pub use sections::StartSection;
pub use sections::Symbol;
pub use sections::SymbolTable;
pub use sections::Table;
pub use sections::TableSection;
pub use sections::TableType;
pub use sections::TagKind;
pub use sections::TagSection;
pub use sections::TagType;
pub use sections::TargetFeature;
pub use sections::TargetFeaturesSection;
pub use sections::WholeModule;
pub use sections::check_order;
pub use sections::check_whole_module;
pub use sections::known_custom_section;
pub use sections::normalise_whole_module;
pub use sections::read_contents;
pub use sections::read_contents_strict;
pub use sections::read_whole_module;
pub use sections::read_whole_module_strict;
pub use sections::rewrite_whole_module;
pub use types::AbstractHeapType;
pub use types::ArrayType;
pub use types::CompositeInnerType;
pub use types::CompositeType;
pub use types::ContType;
pub use types::CoreTypeEncoder;
pub use types::FieldType;
pub use types::FuncType;
pub use types::HeapType;
pub use types::RefType;
pub use types::StorageType;
pub use types::StructType;
pub use types::SubType;
pub use types::TypeEntry;
pub use types::TypeSection;
pub use types::ValType;
pub use wasm_core::Module;
pub use wasm_core::Section;
pub use wasm_core::SectionId;
pub use wasm_instructions::names::opcode_name;
pub use wasm_instructions::names::opcode_named;
pub use wasm_instructions::operands;
pub use wasm_instructions::operands::BlockType;
pub use wasm_instructions::operands::Catch;
pub use wasm_instructions::operands::Handle;
pub use wasm_instructions::operands::Ieee32;
pub use wasm_instructions::operands::Ieee64;
pub use wasm_instructions::operands::Lane;
pub use wasm_instructions::operands::MemArg;
pub use wasm_instructions::operands::Ordering;
pub use wasm_instructions::operands::V128;
pub use wasm_instructions::table;
pub use wasm_instructions::table::Call;
pub use wasm_instructions::table::Kind;
pub use wasm_instructions::table::Opcode;
pub use wasm_instructions::table::Operands;
pub use wasm_instructions::table::Prefix;
pub use wasm_lists::list;
pub use wasm_lists::list::BoxedItems;
pub use wasm_lists::list::Items;
pub use wasm_modules::indices;
pub use wasm_modules::indices::IndexSpace;
pub use wasm_modules::indices::InsertedItems;
pub use wasm_modules::indices::MapIndices;
pub use wasm_modules::indices::Renumbering;
pub use wasm_modules::indices::index_spaces;
pub use wasm_modules::indices::map_all_indices;
pub use wasm_sink::sink;
pub use wasm_sink::sink::InstructionSink;
