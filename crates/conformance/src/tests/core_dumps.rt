//! Core dumps: their sections in a module, which are decoded by their names.

use super::{is, is_encoded};
use std::alloc::Global;
use std::test::Fail;
use wasm_encoder::{
    CoreDumpInstancesSection, CoreDumpModulesSection, CoreDumpSection, CoreDumpStackSection,
    CoreDumpValue, CustomSection, Encode, EncodeError, Ieee32, Ieee64, KnownCustomSection, Module,
    ModuleSection, ModuleWriter, known_custom_section, read_whole_module,
};

const HEADER: &str = "0061736D01000000";
// the process "MyApp.wasm"
const CORE: &str = "001104636F7265000A4D794170702E7761736D";
// one module, "my_module"
const MODULES: &str = "00180B636F72656D6F64756C65730100096D795F6D6F64756C65";
// one instance of module 0, with memory 1 and global 2
const INSTANCES: &str = "00150D636F7265696E7374616E63657301000001010102";
// the thread "main", one frame of instance 0 and function 42 at 0x1234, with the local 1 and the value 2
const STACK: &str = "001C09636F7265737461636B00046D61696E0100002AB424017F01017F02";

fn modules(alloc: Global) -> Result<CoreDumpModulesSection<'static>, EncodeError> {
    let mut modules = CoreDumpModulesSection::new(alloc);
    modules.module("my_module")?;
    Ok(modules)
}

fn instances(alloc: Global) -> Result<CoreDumpInstancesSection, EncodeError> {
    let mut instances = CoreDumpInstancesSection::new(alloc);
    instances.instance(0, &[1], &[2])?;
    Ok(instances)
}

fn thread(alloc: Global) -> Result<CoreDumpStackSection<'static>, EncodeError> {
    let mut thread = CoreDumpStackSection::new(alloc, "main");
    let locals = [CoreDumpValue::I32(1)];
    let stack = [CoreDumpValue::I32(2)];
    thread.frame(0, 42, 0x1234, &locals, &stack)?;
    Ok(thread)
}

/// The bytes of a module with the four sections.
fn dump(alloc: Global) -> Result<Vec<u8>, Fail> {
    let mut module = Module::new(alloc)?;
    module.section(&CoreDumpSection::new("MyApp.wasm"))?;
    module.section(&modules(alloc)?)?;
    module.section(&instances(alloc)?)?;
    module.section(&thread(alloc)?)?;
    Ok(module.finish())
}

#[test]
fn a_core_dump(rt: HostRuntime) -> Result<(), Fail> {
    let alloc = rt.alloc();
    let expected = format!(in alloc; "{HEADER}{CORE}{MODULES}{INSTANCES}{STACK}")?;
    is(alloc, dump(alloc)?.as_slice(), expected.as_str())
}

#[test]
fn a_core_dump_is_written(rt: HostRuntime) -> Result<(), Fail> {
    let alloc = rt.alloc();
    let mut writer = ModuleWriter::new(alloc, Vec::new(alloc))?;
    writer.section(&CoreDumpSection::new("MyApp.wasm"))?;
    writer.section(&modules(alloc)?)?;
    writer.section(&instances(alloc)?)?;
    writer.section(&thread(alloc)?)?;
    let written = writer.finish()?;
    assert_eq!(rt; written.as_slice(), dump(alloc)?.as_slice());
    Ok(())
}

/// The name of the section that this is decoded from.
fn kind(known: &KnownCustomSection<'_>) -> &'static str {
    match known {
        KnownCustomSection::CoreDump(_) => "core",
        KnownCustomSection::CoreDumpModules(_) => "coremodules",
        KnownCustomSection::CoreDumpInstances(_) => "coreinstances",
        KnownCustomSection::CoreDumpStack(_) => "corestack",
        _ => "another",
    }
}

#[test]
fn a_core_dump_is_read(rt: HostRuntime) -> Result<(), Fail> {
    let alloc = rt.alloc();
    let bytes = dump(alloc)?;
    let sections = read_whole_module(alloc, bytes.as_slice())?;
    assert_eq!(rt; sections.len(), 4);
    for section in sections.as_slice() {
        let ModuleSection::Custom(custom) = section else {
            return Err(Fail::from("not a custom section"));
        };
        assert_eq!(rt; kind(&known_custom_section(alloc, custom)?), custom.name);
    }
    Ok(())
}

/// The contents of a section of this name are malformed.
fn stays_bytes(alloc: Global, name: &str, bytes: &[u8]) -> Result<(), Fail> {
    let section = CustomSection { name, bytes };
    match known_custom_section(alloc, &section)? {
        KnownCustomSection::Other(same) if same == bytes => Ok(()),
        _ => Err(Fail::from("decoded")),
    }
}

#[test]
fn malformed_contents_stay_bytes(rt: HostRuntime) -> Result<(), Fail> {
    let alloc = rt.alloc();
    stays_bytes(alloc, "core", b"\x01\x01a")?; // the first byte isn't 0x00
    stays_bytes(alloc, "coremodules", b"\x01")?; // no module
    stays_bytes(alloc, "coreinstances", b"\x01\x00\x00\x00")?; // no globals
    stays_bytes(alloc, "corestack", b"\x00\x01t")?; // no frames
    stays_bytes(alloc, "cores", b"\x00\x01a")
}

#[test]
fn values_of_each_kind(rt: HostRuntime) -> Result<(), Fail> {
    let alloc = rt.alloc();
    is_encoded(alloc, &CoreDumpValue::Missing, "01")?;
    is_encoded(alloc, &CoreDumpValue::I32(-1), "7F7F")?;
    is_encoded(alloc, &CoreDumpValue::I32(i32::MIN), "7F8080808078")?;
    is_encoded(alloc, &CoreDumpValue::I64(128), "7E8001")?;
    is_encoded(
        alloc,
        &CoreDumpValue::I64(i64::MIN),
        "7E8080808080808080807F",
    )?;
    let one = CoreDumpValue::F32(Ieee32::new(0x3f80_0000));
    is_encoded(alloc, &one, "7D0000803F")?;
    let payload = CoreDumpValue::F64(Ieee64::new(0x7ff8_0000_0000_0001));
    is_encoded(alloc, &payload, "7C010000000000F87F")
}

/// A name of so many bytes.
fn long_name(alloc: Global, len: usize) -> Result<Vec<u8>, Fail> {
    Ok(vec![in alloc; b'n'; len]?)
}

/// The section of a process with a name of so many bytes has the size in front that it should have.
fn is_sized(alloc: Global, len: usize) -> Result<(), Fail> {
    let name = long_name(alloc, len)?;
    let Ok(name) = str::from_utf8(name.as_slice()) else {
        return Err(Fail::from("not a name"));
    };
    let core = CoreDumpSection::new(name);
    let contents = core.contents(alloc)?;
    let mut expected = Vec::new(alloc);
    let custom = CustomSection {
        name: "core",
        bytes: contents.as_slice(),
    };
    custom.encode(&mut expected)?;
    let mut encoded = Vec::new(alloc);
    core.encode(&mut encoded)?;
    if encoded.as_slice() == expected.as_slice() {
        Ok(())
    } else {
        Err(Fail::from("another encoding"))
    }
}

#[test]
fn sizes_of_one_byte_to_three(rt: HostRuntime) -> Result<(), Fail> {
    for len in [0, 120, 121, 127, 128, 16374, 16375, 16383, 16384] {
        is_sized(rt.alloc(), len)?;
    }
    Ok(())
}

#[test]
fn stacks_are_cloned(rt: HostRuntime) -> Result<(), Fail> {
    let alloc = rt.alloc();
    let empty = CoreDumpStackSection::new(alloc, "main");
    assert!(rt; empty.is_empty());
    is(alloc, empty.contents()?.as_slice(), "00046D61696E00")?;
    let main = thread(alloc)?;
    assert_eq!(rt; main.len(), 1);
    let mut same = main.try_clone()?;
    same.frame(0, 0, 0, &[], &[])?;
    assert_eq!(rt; main.len(), 1);
    assert_eq!(rt; same.len(), 2);
    let expected = "00046D61696E0200002AB424017F01017F02000000000000";
    is(alloc, same.contents()?.as_slice(), expected)
}
