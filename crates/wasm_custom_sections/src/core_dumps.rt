//! Core dumps: the process, its modules and their instances (tool conventions, Core Dumps).
ghost use Rattle.std.specs.Prelude.{◌≡◌, ◌⊎◌, ℕ, List, refl, codes, ⊤, IfOk, IfErr, length, ◌≤◌};
ghost use Rattle.std.proofs.lemmas.List.{map_push};
ghost use Rattle.wasm_codec.specs.Decoding.{ChecksAll, TakesMinimal, RewritesInPlace};
ghost use Rattle.wasm_codec.specs.Appending.{AppendsMinimal};
ghost use Rattle.wasm_codec.specs.Encoding.{IsCount, IsCountRefusal, IsMinimal, OnlyTooLong};
ghost use Rattle.wasm_codec.specs.Inputs.{Passes};
ghost use Rattle.wasm_codec.specs.Lawful.{IsLawful, IsLawfulBody};
ghost use Rattle.wasm_codec.specs.Outcomes.{IfMalformed, IsMalformed, LiesIn, NeedsNoMemory, as_read};
ghost use Rattle.wasm_codec.specs.Rewriter.{Rewrites};
ghost use Rattle.wasm_codec.specs.formats.Combinators.{minimal_only};
ghost use Rattle.wasm_codec.specs.formats.Grammar.{TakesBytes};
ghost use Rattle.wasm_lists.specs.EncodedLists.{IsFull, IsMemoryOrTooLong, IsUncounted};
ghost use Rattle.wasm_sections.specs.ListSections.{Adds, GainsItem};
ghost use Rattle.wasm_code.specs.DecodedPrefixes.{ArePrefixes, IsNothingOr};
ghost use Rattle.wasm_custom_sections.specs.CoreDumpSections.{HoldsProcess};
ghost use Rattle.wasm_custom_sections.specs.Gaining.{AddsNamed};
ghost use Rattle.wasm_custom_sections.specs.NamedSections.{CountedNamed, IsNamedSection, named_bytes};
ghost use Rattle.wasm_custom_sections.specs.declared.core_dumps.CoreDumpInstance.{CoreDumpInstance};
ghost use Rattle.wasm_custom_sections.specs.formats.CoreDumps.{all_module_names, core_instance, core_name, instance_of, module_name, process_name};

use crate::custom_list::{CustomItem, CustomList};
use crate::whole_values::{Whole, append_named, read_value_to_end};
use std::alloc::{Allocator, Global};
use wasm_code::decode::Decode;
use wasm_codec::encode::leb128::put_u32;
use wasm_codec::encode::{EncodeError, keep_or_undo};
use wasm_codec::reader::DecodeError;
use wasm_codec::reader::cursor::{Cursor, Fault};
use wasm_codec::reader::malformed::Construct;
use wasm_codec::rewriter::Rewriter;
use wasm_externals::names::{NameInput, append_name};
use wasm_lists::encode::{Encode, encode_list};
use wasm_lists::list::Items;
use wasm_lists::readable::{Item, Readable};
use wasm_lists::reading::read_list;
use wasm_lists::rewriting::rewrite_list;
use wasm_sections::bodies::rewrite_body;

/// A section `core`, which names the process of a core dump (tool conventions, Core Dumps).
///
/// # Examples
///
/// ```
/// # use wasm_encoder::{CoreDumpSection, Encode};
/// let mut bytes = Vec::new(rt.alloc());
/// CoreDumpSection::new("app.wasm").encode(&mut bytes)?; // the size, the name "core", 0x00, the name of the process
/// assert_eq!(rt; bytes.as_slice(), b"\x0f\x04core\x00\x08app.wasm".as_slice());
/// ```
///
/// Reading the contents of such a section, after its name, returns the section:
///
/// ```
/// # use wasm_encoder::{CoreDumpSection, read};
/// let core = read::<CoreDumpSection<'_>>(rt.alloc(), b"\x00\x08app.wasm")?;
/// assert_eq!(rt; core.name, "app.wasm");
/// ```
#[derive(Clone, Copy, Debug)]
pub struct CoreDumpSection<'a> {
    /// Name of the process.
    pub name: &'a str,
}

impl<'a> CoreDumpSection<'a> {
    /// Returns the section of a process of this name.
    pub fn new(name: &'a str) -> CoreDumpSection<'a>
        ensures { result.name.now ≡ name.now }
    {
        CoreDumpSection { name }
    }

    /// Returns the contents of the section after its name.
    ///
    /// Fails with `TooLong` if the name of the process is longer than 4,294,967,295 bytes, and with `Memory` if it can't
    /// allocate.
    pub fn contents(&self, alloc: Global) -> Result<Vec<u8>, EncodeError>
        ensures ok { IfOk result (λ contents. contents.items ≡ core_name.bytes self.now.name.now) }
        ensures refused { IfErr result (IsCountRefusal (length self.now.name.now)) }
    {
        let mut contents = Vec::new(alloc);
        CoreDumpModule { name: self.name }.encode(&mut contents)?;
        Ok(contents)
    }
}

/// A module of a core dump.
///
/// # Examples
///
/// ```
/// # use wasm_encoder::{CoreDumpModule, Encode};
/// let mut bytes = Vec::new(rt.alloc());
/// CoreDumpModule { name: "app" }.encode(&mut bytes)?; // 0x00, the length of the name, the name
/// assert_eq!(rt; bytes.as_slice(), b"\x00\x03app".as_slice());
/// ```
#[derive(Clone, Copy, Debug)]
pub struct CoreDumpModule<'a> {
    /// Name of the module.
    pub name: &'a str,
}

/// An instance of a module in a core dump.
#[derive(Debug, PartialEq, Eq, Drop)]
pub struct CoreDumpInstance {
    /// Index of the module in the section `coremodules`.
    pub module_index: u32,
    /// Indices of the instance's memories in the memory section of the core dump.
    pub memories: Items<u32>,
    /// Indices of the instance's globals in the global section of the core dump.
    pub globals: Items<u32>,
}

/// Takes the name of a process or a module.
#[tactic(auto, unfolding(crate::specs::formats::CoreDumps::core_name))]
fn take_module<'a, I: NameInput<'a>>(input: &mut I) -> Result<CoreDumpModule<'a>, Fault>
    ensures passes { Passes I.writes module_name core_name (I.state input.old) (I.state input.new) result }
    ensures err { IfErr result IsMalformed }
{
    let byte = input.byte_of(Construct::Reserved)?;
    if byte != 0x00 {
        return Err(Fault::Malformed(input.invalid(Construct::Reserved, byte)));
    }
    let name = input.name()?;
    Ok(CoreDumpModule { name })
}

impl<'a> Readable<'a> for CoreDumpModule<'a> {
    ghost Value = { List ℕ };

    ghost view = { module_name };

    ghost views = { all_module_names };

    ghost views_each = { record { none = refl; more = λ items item. map_push module_name items item } };

    ghost format = { core_name };

    #[inline(always)]
    #[tactic(auto, using(crate::proofs::CoreDumpLaws::core_name_is_lawful, crate::proofs::CoreDumpLaws::core_name_takes))]
    fn is_lawful()
        ensures lawful { IsLawful core_name }
        ensures some { TakesBytes core_name.Encodes }
    {}

    fn read(_alloc: Global, cursor: &mut Cursor<'a>) -> Result<CoreDumpModule<'a>, Fault> {
        take_module(cursor)
    }

    fn rewrite(rewriter: &mut Rewriter) -> Result<(), Fault>
        ensures rewrites { Rewrites core_name rewriter.old rewriter.new result }
    {
        take_module(rewriter)?;
        Ok(())
    }
}

impl<'a> Readable<'a> for CoreDumpInstance {
    ghost Value = { CoreDumpInstance };

    ghost view = { λ x. x };

    ghost views = { λ xs. xs };

    ghost views_each = { record { none = refl; more = λ xs x. refl } };

    ghost format = { core_instance };

    #[inline(always)]
    #[tactic(auto, using(crate::proofs::CoreDumpLaws::instance_is_lawful, crate::proofs::CoreDumpLaws::instance_takes))]
    fn is_lawful() {}

    #[tactic(auto, unfolding(crate::specs::formats::CoreDumps::core_instance))]
    fn read(alloc: Global, cursor: &mut Cursor<'a>) -> Result<CoreDumpInstance, Fault> {
        let byte = cursor.byte_of(Construct::Reserved)?;
        if byte != 0x00 {
            return Err(Fault::Malformed(cursor.invalid(Construct::Reserved, byte)));
        }
        let module_index = cursor.u32()?;
        let memories = read_list(alloc, cursor)?;
        let globals = read_list(alloc, cursor)?;
        Ok(CoreDumpInstance {
            module_index,
            memories,
            globals,
        })
    }

    #[tactic(auto, using(std::proofs::Common::append_assoc), unfolding(crate::specs::formats::CoreDumps::core_instance))]
    fn rewrite(rewriter: &mut Rewriter) -> Result<(), Fault>
        ensures rewrites { Rewrites core_instance rewriter.old rewriter.new result }
    {
        let byte = rewriter.byte_of(Construct::Reserved)?;
        if byte != 0x00 {
            return Err(Fault::Malformed(rewriter.invalid(Construct::Reserved, byte)));
        }
        rewriter.u32()?;
        rewrite_list::<u32>(rewriter)?;
        rewrite_list::<u32>(rewriter)
    }
}

impl<'a> CustomItem for CoreDumpModule<'a> {
    ghost Value = { List ℕ };

    ghost format = { core_name };

    ghost named = { codes "coremodules" };

    fn section_name() -> &'static str
        ensures { result.now ≡ codes "coremodules" }
    {
        "coremodules"
    }

    #[inline(always)]
    #[tactic(auto, using(crate::proofs::CoreDumpLaws::core_name_is_lawful))]
    fn is_lawful()
        ensures lawful { IsLawful core_name }
    {}
}

impl CustomItem for CoreDumpInstance {
    ghost Value = { CoreDumpInstance };

    ghost format = { core_instance };

    ghost named = { codes "coreinstances" };

    fn section_name() -> &'static str
        ensures { result.now ≡ codes "coreinstances" }
    {
        "coreinstances"
    }

    #[inline(always)]
    #[tactic(auto, using(crate::proofs::CoreDumpLaws::instance_is_lawful))]
    fn is_lawful()
        ensures lawful { IsLawful core_instance }
    {}
}

/// Appends the name of a process or a module. On error a part of it may remain.
fn append_module<A: Allocator>(
    item: &CoreDumpModule<'_>,
    sink: &mut Vec<u8, A>,
) -> Result<(), EncodeError>
    ensures { AppendsMinimal core_name item.now.name.now (IsCount (length item.now.name.now)) sink.old.items sink.new.items result }
{
    sink.reserve(1)?;
    sink.push_reserved(0x00);
    append_name(item.name, sink)
}

/// The byte 0x00, and the name.
///
/// Fails with `TooLong` if the name is longer than 4,294,967,295 bytes.
impl<'a> Encode for CoreDumpModule<'a> {
    ghost bytes = { λ item. core_name.bytes item.name.now };

    ghost IsWritten = { λ item. IsMinimal core_name.Encodes core_name.bytes item.name.now };

    ghost CanEncode = { λ item. IsCount (length item.name.now) };

    ghost refuses = { OnlyTooLong };

    fn encode<A: Allocator>(&self, sink: &mut Vec<u8, A>) -> Result<(), EncodeError> {
        let start = sink.len();
        let result = append_module(self, sink);
        keep_or_undo(sink, start, result)
    }
}

/// An instance whose indices are in slices.
#[derive(Drop)]
struct InstanceOf<'a> {
    module_index: u32,
    memories: &'a [u32],
    globals: &'a [u32],
}

/// Appends an instance. On error a part of it may remain.
fn append_instance<A: Allocator>(
    item: &InstanceOf<'_>,
    sink: &mut Vec<u8, A>,
) -> Result<(), EncodeError>
    ensures { AppendsMinimal core_instance (instance_of (item.now.module_index, (item.now.memories.now, item.now.globals.now)))
        (IsCount (length item.now.memories.now) × IsCount (length item.now.globals.now)) sink.old.items sink.new.items result }
{
    sink.reserve(6)?;
    sink.push_reserved(0x00);
    put_u32(sink, item.module_index);
    encode_list(item.memories, sink)?;
    encode_list(item.globals, sink)
}

/// The byte 0x00, the index of the module, and the lists of memories and globals.
///
/// Fails with `TooLong` if a list has more than 4,294,967,295 indices.
impl<'a> Encode for InstanceOf<'a> {
    ghost bytes = { λ item. core_instance.bytes (instance_of (item.module_index, (item.memories.now, item.globals.now))) };

    ghost IsWritten = { λ item. IsMinimal core_instance.Encodes core_instance.bytes (instance_of (item.module_index, (item.memories.now, item.globals.now))) };

    ghost CanEncode = { λ item. IsCount (length item.memories.now) × IsCount (length item.globals.now) };

    ghost refuses = { OnlyTooLong };

    fn encode<A: Allocator>(&self, sink: &mut Vec<u8, A>) -> Result<(), EncodeError> {
        let start = sink.len();
        let result = append_instance(self, sink);
        keep_or_undo(sink, start, result)
    }
}

/// The size of the body in bytes, the name `core`, the byte 0x00, and the name of the process.
///
/// Fails with `TooLong` if the body is longer than 4,294,967,295 bytes.
impl<'a> Encode for CoreDumpSection<'a> {
    ghost bytes = { λ section. named_bytes (codes "core") (core_name.bytes section.name.now) };

    ghost IsWritten = { λ section. HoldsProcess section.name.now × IsNamedSection (codes "core") (core_name.bytes section.name.now) };

    ghost CanEncode = { λ section. CountedNamed (codes "core") (core_name.bytes section.name.now) };

    ghost refuses = { OnlyTooLong };

    fn encode<A: Allocator>(&self, sink: &mut Vec<u8, A>) -> Result<(), EncodeError> {
        let start = sink.len();
        let result = append_named("core", &CoreDumpModule { name: self.name }, sink);
        keep_or_undo(sink, start, result)
    }
}

/// The contents after the name, as `read::<CoreDumpSection>` returns them: the byte 0x00, and the name of the process.
impl<'a> Decode<'a> for CoreDumpSection<'a> {
    type Output = CoreDumpSection<'a>;

    ghost Value = { List ℕ };

    ghost view = { process_name };

    ghost format = { core_name };

    ghost Minimal = { (minimal_only core_name).Encodes };

    ghost IsPrefix = { IsNothingOr core_name };

    ghost IsMinimalPrefix = { IsNothingOr (minimal_only core_name) };

    #[inline(always)]
    #[tactic(auto, using(crate::proofs::CoreDumpLaws::core_name_body_is_lawful))]
    fn is_lawful()
        ensures lawful { IsLawfulBody core_name }
        ensures minimal { TakesMinimal core_name (minimal_only core_name).Encodes }
        ensures prefixes { ArePrefixes core_name.Encodes (IsNothingOr core_name) }
        ensures minimal_prefixes { ArePrefixes (minimal_only core_name).Encodes (IsNothingOr (minimal_only core_name)) }
    {}

    fn read_all(alloc: Global, bytes: &'a [u8]) -> Result<CoreDumpSection<'a>, DecodeError> {
        let process = read_value_to_end::<CoreDumpModule<'a>, false>(alloc, bytes)?;
        Ok(CoreDumpSection { name: process.name })
    }

    fn read_all_strict(alloc: Global, bytes: &'a [u8]) -> Result<CoreDumpSection<'a>, DecodeError> {
        let process = read_value_to_end::<CoreDumpModule<'a>, true>(alloc, bytes)?;
        Ok(CoreDumpSection { name: process.name })
    }

    fn check_all(alloc: Global, bytes: &[u8]) -> Result<(), DecodeError>
        ensures checks { ChecksAll (minimal_only core_name).Encodes (IsNothingOr (minimal_only core_name)) bytes.now (as_read result) }
        ensures place { IfErr result (LiesIn (length bytes.now)) }
        ensures counts { IfMalformed result (λ _. ⊤) }
    {
        read_value_to_end::<CoreDumpModule<'_>, true>(alloc, bytes)?;
        Ok(())
    }

    fn rewrite_all(bytes: &mut [u8]) -> Result<usize, DecodeError>
        ensures len { IfOk result (λ len. len ≤ length bytes.new) }
        ensures rewrites { RewritesInPlace core_name (IsNothingOr core_name) bytes.old bytes.new (as_read result) }
        ensures memory { NeedsNoMemory (as_read result) }
        ensures place { IfErr result (LiesIn (length bytes.old)) }
        ensures counts { IfMalformed result (λ _. ⊤) }
    {
        rewrite_body::<Whole<Item<'static, CoreDumpModule<'static>>>>(bytes)
    }
}

/// A section `coremodules`: the modules of a core dump (tool conventions, Core Dumps).
///
/// # Examples
///
/// ```
/// # use wasm_encoder::{CoreDumpModulesSection, Encode};
/// let mut modules = CoreDumpModulesSection::new(rt.alloc());
/// modules.module("app")?;
/// let mut bytes = Vec::new(rt.alloc());
/// modules.encode(&mut bytes)?; // the size, the name "coremodules", one module
/// assert_eq!(rt; bytes.as_slice(), b"\x12\x0bcoremodules\x01\x00\x03app".as_slice());
/// ```
///
/// Reading the contents of such a section, after its name, returns the modules:
///
/// ```
/// # use wasm_encoder::{CoreDumpModulesSection, read};
/// for module in &read::<CoreDumpModulesSection<'_>>(rt.alloc(), b"\x01\x00\x03app")? {
///     assert_eq!(rt; module.name, "app");
/// }
/// ```
pub type CoreDumpModulesSection<'a> = CustomList<CoreDumpModule<'a>>;

impl<'a> CustomList<CoreDumpModule<'a>> {
    /// Adds a module.
    ///
    /// Fails with `TooLong` if the section already has 4,294,967,295 modules or `name` is longer than 4,294,967,295 bytes.
    pub fn module(&mut self, name: &str) -> Result<(), EncodeError>
        ensures adds { AddsNamed core_name (length name.now) self.old name.now self.new result }
    {
        self.items.add(&CoreDumpModule { name })
    }
}

/// A section `coreinstances`: the instances of a core dump's modules (tool conventions, Core Dumps).
///
/// # Examples
///
/// ```
/// # use wasm_encoder::CoreDumpInstancesSection;
/// let mut instances = CoreDumpInstancesSection::new(rt.alloc());
/// instances.instance(0, &[0], &[1, 2])?;
/// let contents = instances.contents()?; // one instance: 0x00, module 0, one memory, two globals
/// assert_eq!(rt; contents.as_slice(), b"\x01\x00\x00\x01\x00\x02\x01\x02".as_slice());
/// ```
///
/// Reading the contents of such a section, after its name, returns the instances:
///
/// ```
/// # use wasm_encoder::{CoreDumpInstancesSection, read};
/// for instance in &read::<CoreDumpInstancesSection>(rt.alloc(), b"\x01\x00\x03\x01\x00\x00")? {
///     assert_eq!(rt; instance.module_index, 3);
///     assert_eq!(rt; instance.memories.as_slice(), [0].as_slice());
///     assert!(rt; instance.globals.is_empty());
/// }
/// ```
pub type CoreDumpInstancesSection = CustomList<CoreDumpInstance>;

impl CustomList<CoreDumpInstance> {
    /// Adds an instance of the module `module_index`, with the indices of its memories and globals.
    ///
    /// Fails with `TooLong` if the section already has 4,294,967,295 instances, or `memories` or `globals` has more than
    /// 4,294,967,295 indices.
    pub fn instance(
        &mut self,
        module_index: u32,
        memories: &[u32],
        globals: &[u32],
    ) -> Result<(), EncodeError>
        ensures adds { Adds (GainsItem core_instance) self.old (instance_of (module_index, (memories.now, globals.now))) self.new
            (IsMemoryOrTooLong (IsFull self.old ⊎ (IsUncounted (length memories.now) ⊎ IsUncounted (length globals.now)))) result }
    {
        self.items.add(&InstanceOf {
            module_index,
            memories,
            globals,
        })
    }
}
