//! Memory arguments (Core 3.0, Memory Instructions) and the orderings of atomic accesses.
ghost use Rattle.std.specs.Prelude.{◌<◌, IfOk};
ghost use Rattle.wasm_codec.specs.Inputs.{Takes};
ghost use Rattle.wasm_instructions.specs.formats.Operands.{mem_arg, ordering};

use wasm_codec::input::Input;
use wasm_codec::reader::cursor::Fault;
use wasm_codec::reader::malformed::{Construct, Malformed, Reason};

/// The memory argument of an instruction such as a load: its memory, offset and alignment (Core 3.0, Memory
/// Instructions).
///
/// # Examples
///
/// ```
/// # use wasm_encoder::{InstructionSink, MemArg};
/// let mut code = Vec::new(rt.alloc());
/// let arg = MemArg {
///     offset: 8,
///     align: 2, // 4 bytes
///     memory_index: 1,
/// };
/// InstructionSink::new(&mut code).i32_load(arg)?;
/// assert_eq!(rt; code.as_slice(), b"\x28\x42\x01\x08".as_slice());
/// ```
#[derive(Clone, Copy, Debug, PartialEq, Eq)]
pub struct MemArg {
    /// Offset in bytes, which is added to the address.
    pub offset: u64,
    /// Base-2 logarithm of the promised alignment in bytes. The format can't encode 64 or more.
    pub align: u32,
    /// Index of the memory.
    pub memory_index: u32,
}

/// The ordering of an atomic access (shared-everything threads proposal).
#[derive(Clone, Copy, Debug, PartialEq, Eq)]
pub enum Ordering {
    /// Sequentially consistent.
    SeqCst,
    /// Acquire and release.
    AcqRel,
}

/// Takes a memory argument, with or without the index of its memory (Core 3.0, Memory Instructions). Index 0 is left out.
#[inline(always)]
#[tactic(auto, unfolding(crate::specs::formats::Operands::mem_arg))]
pub(crate) fn take_mem_arg<I: Input>(input: &mut I) -> Result<MemArg, Fault>
    ensures takes { Takes I.writes mem_arg (I.state input.old) (I.state input.new) result }
    ensures aligned { IfOk result (λ arg. arg.align < 64) }
{
    let (mark, start) = (input.mark(), input.to_end());
    let first = input.u32()?;
    if first < 64 {
        let offset = input.u64()?;
        return Ok(MemArg {
            offset,
            align: first,
            memory_index: 0,
        });
    }
    if first >= 128 {
        let reason = Reason::InvalidAlignment { flags: first };
        return Err(Fault::Malformed(Malformed::new(reason, start)));
    }
    let memory_index = input.u32()?;
    let offset = input.u64()?;
    let arg = MemArg {
        offset,
        align: first - 64,
        memory_index,
    };
    if memory_index == 0 {
        input.leave_out(mark, 1);
        input.overwrite(mark, (first - 64) as u8);
        return Ok(arg);
    }
    Ok(arg)
}

/// Takes an ordering.
#[tactic(auto, unfolding(crate::specs::formats::Operands::ordering))]
pub(crate) fn take_ordering<I: Input>(input: &mut I) -> Result<Ordering, Fault>
    ensures takes { Takes I.writes ordering (I.state input.old) (I.state input.new) result }
{
    match input.byte_of(Construct::Ordering)? {
        0x00 => Ok(Ordering::SeqCst),
        0x01 => Ok(Ordering::AcqRel),
        byte => Err(Fault::Malformed(input.invalid(Construct::Ordering, byte))),
    }
}
