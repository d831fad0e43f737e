//! Modules that are written section by section.
ghost use Rattle.std.specs.Io.{WritesAtMost};
ghost use Rattle.std.specs.Io.KnownBytes.{Keeps, WriteAppends};

use super::is;
use super::own::{Long, Memories};
use std::alloc::Global;
use std::io;
use std::io::{ErrorKind, Write};
use std::test::Fail;
use wasm_encoder::{
    CodeSection, CustomSection, EncodeError, ExportKind, ExportSection, Function, Module,
    ModuleWriter, NameSection, RawSection, Section, TypeSection, ValType, WriteError,
};

/// A writer that interrupts every other write, takes at most three bytes at a time, fails if it has no room left, and
/// counts its flushes.
#[derive(Drop)]
struct Slow {
    bytes: Vec<u8>,
    room: usize,
    interrupts: bool,
    flushes: u32,
}

impl Slow {
    fn new(alloc: Global, room: usize) -> Slow {
        Slow {
            bytes: Vec::new(alloc),
            room,
            interrupts: true,
            flushes: 0,
        }
    }
}

impl Write for Slow {
    fn write(&mut self, buf: &[u8]) -> io::Result<usize>
        ensures bound { WritesAtMost result buf.now }
        ensures bytes { WriteAppends None None result buf.now }
    {
        self.interrupts = !self.interrupts;
        if !self.interrupts {
            return Err(io::Error::from(ErrorKind::Interrupted));
        }
        if self.room == 0 {
            return Err(io::Error::from(ErrorKind::StorageFull));
        }
        let count = buf.len().min(3).min(self.room);
        self.bytes.extend_from_slice(&buf[..count])?;
        self.room -= count;
        Ok(count)
    }

    fn flush(&mut self) -> io::Result<()>
        ensures bytes { Keeps None None }
    {
        self.flushes = self.flushes.saturating_add(1);
        Ok(())
    }
}

/// A writer gets the bytes of a module with this section.
fn is_written<S: Section>(alloc: Global, section: &S, hex: &str) -> Result<(), Fail> {
    let mut module = Module::new(alloc)?;
    module.section(section)?;
    is(alloc, module.as_slice(), hex)?;
    let mut writer = ModuleWriter::new(alloc, Vec::new(alloc))?;
    writer.section(section)?;
    is(alloc, &writer.finish()?, hex)
}

#[test]
fn sections_of_each_kind(rt: HostRuntime) -> Result<(), Fail> {
    let alloc = rt.alloc();
    let mut types = TypeSection::new(alloc);
    types.ty().function([ValType::I32], [])?;
    is_written(alloc, &types, "0061736D0100000001050160017F00")?;
    is_written(alloc, &code(alloc)?, "0061736D010000000A06010400412A0B")?;
    let mut exports = ExportSection::new(alloc);
    exports.export("f", ExportKind::Func, 130)?;
    is_written(alloc, &exports, "0061736D010000000706010166008201")?;
    let mut names = NameSection::new(alloc);
    names.module("m")?;
    is_written(alloc, &names, "0061736D010000000009046E616D650002016D")?;
    is_written(alloc, &Memories(42u32), "0061736D01000000052A")
}

#[test]
fn sections_of_bytes(rt: HostRuntime) -> Result<(), Fail> {
    let alloc = rt.alloc();
    let raw = RawSection {
        id: 9,
        body: b"\x00",
    };
    is_written(alloc, &raw, "0061736D01000000090100")?;
    let custom = CustomSection {
        name: "note",
        bytes: b"hi",
    };
    is_written(alloc, &custom, "0061736D010000000007046E6F74656869")
}

/// A code section with one function, which returns 42.
fn code(alloc: Global) -> Result<CodeSection, EncodeError> {
    let mut code = CodeSection::new(alloc);
    let mut function = Function::new(alloc, [])?;
    function.instructions().i32_const(42)?.end()?;
    code.function(&function)?;
    Ok(code)
}

/// The first bytes of a module with that section are written, and then a write fails.
fn is_cut_off(alloc: Global, room: usize) -> Result<(), Fail> {
    let mut slow = Slow::new(alloc, room);
    let result = write_code(alloc, &mut slow);
    let module = b"\0asm\x01\0\0\0\x0a\x06\x01\x04\x00\x41\x2a\x0b";
    let is_full =
        matches!(result, Err(WriteError::Io(error)) if error.kind() == ErrorKind::StorageFull);
    if is_full && slow.bytes.as_slice() == &module[..room.min(16)] {
        Ok(())
    } else {
        Err(Fail::from(room))
    }
}

fn write_code(alloc: Global, slow: &mut Slow) -> Result<(), WriteError> {
    let mut module = ModuleWriter::new(alloc, slow)?;
    module.section(&code(alloc)?)?;
    module.finish()?;
    Ok(())
}

#[test]
fn a_write_that_fails(rt: HostRuntime) -> Result<(), Fail> {
    for room in 0..16 {
        is_cut_off(rt.alloc(), room)?;
    }
    let mut slow = Slow::new(rt.alloc(), 16);
    write_code(rt.alloc(), &mut slow)?;
    assert_eq!(rt; slow.flushes, 1);
    is(rt.alloc(), &slow.bytes, "0061736D010000000A06010400412A0B")
}

#[test]
fn a_section_without_an_encoding(rt: HostRuntime) -> Result<(), Fail> {
    let mut module = ModuleWriter::new(rt.alloc(), Vec::new(rt.alloc()))?;
    let refused = module.section(&Memories(Long));
    assert!(rt; matches!(refused, Err(WriteError::Encode(EncodeError::TooLong))));
    is(rt.alloc(), &module.finish()?, "0061736D01000000")
}
