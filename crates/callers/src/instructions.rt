//! Instructions that are written, alone and as the body of a function.
ghost use Rattle.std.specs.Prelude.{◌≡◌, ◌++◌, ◌∷◌, [], ◌+◌, ◌≤◌, length, IsOk, OnOk, vec_len, vec_capacity};
ghost use Rattle.wasm_encoder.specs.Encoding.{byte_list_bytes};
ghost use Rattle.wasm_encoder.specs.Sink.{IsMinimalCall};
ghost use Rattle.wasm_instructions.specs.formats.Instructions.{call};
ghost use Rattle.wasm_instructions.specs.formats.Opcodes.{without_prefix};
ghost use Rattle.wasm_instructions.specs.declared.table.call.Operands.TheVariants as operands;

use std::alloc::Global;
use wasm_encoder::{CodeSection, Encode, EncodeError, Function, InstructionSink, MemArg};

/// Appends the instructions of a function that adds its two parameters.
#[tactic(auto, unfolding(wasm_encoder::proofs::OnLiterals::wasm_encoder_on_literals))]
pub fn add(code: &mut Vec<u8>) -> Result<(), EncodeError>
    ensures written { OnOk result (code.new.items ≡
        code.old.items ++ 0x20 ∷ 0x00 ∷ 0x20 ∷ 0x01 ∷ 0x6a ∷ 0x0b ∷ []) }
{
    InstructionSink::new(&mut *code)
        .local_get(0)?
        .local_get(1)?
        .i32_add()?
        .end()?;
    Ok(())
}

/// Appends the same instructions after it reserved room for them. Nothing else can fail.
#[tactic(auto, unfolding(wasm_encoder::proofs::OnLiterals::wasm_encoder_on_literals))]
pub fn add_in_room(code: &mut Vec<u8>) -> Result<(), EncodeError>
    ensures written { OnOk result (code.new.items ≡
        code.old.items ++ 0x20 ∷ 0x00 ∷ 0x20 ∷ 0x01 ∷ 0x6a ∷ 0x0b ∷ []) }
    ensures room { vec_len code.old + 96 ≤ vec_capacity code.old → IsOk result }
{
    InstructionSink::new(&mut *code)
        .with_room(4)?
        .local_get(0)?
        .local_get(1)?
        .i32_add()?
        .end()?;
    Ok(())
}

/// Appends an `i32.load`. A method without a list appends 1 to 20 bytes, whatever its operands.
pub fn load(code: &mut Vec<u8>, memarg: MemArg) -> Result<(), EncodeError>
    ensures at_least { OnOk result (length code.old.items + 1 ≤ length code.new.items) }
    ensures at_most { OnOk result (length code.new.items ≤ length code.old.items + 20) }
{
    InstructionSink::new(&mut *code).i32_load(memarg)?;
    Ok(())
}

/// Appends a `local.get` in its minimal encoding. Every other encoding is longer.
pub fn local(code: &mut Vec<u8>, index: u32) -> Result<(), EncodeError>
    ensures { OnOk result (IsMinimalCall (call (without_prefix 0x20) (operands.Index index))) }
{
    InstructionSink::new(&mut *code).local_get(index)?;
    Ok(())
}

/// Appends these instructions to a function, and the function to a section.
pub fn add_function(code: &mut CodeSection, function: &mut Function) -> Result<(), EncodeError>
    ensures bytes { OnOk result (code.new.bytes ≡ code.old.bytes ++
        byte_list_bytes (function.old ++ 0x20 ∷ 0x00 ∷ 0x20 ∷ 0x01 ∷ 0x6a ∷ 0x0b ∷ [])) }
    ensures count { OnOk result (code.new.count ≡ code.old.count + 1) }
{
    add(function.bytes_mut())?;
    code.function(function)
}

/// Appends that function, without locals, to an empty section.
#[tactic(auto, unfolding(wasm_encoder::proofs::OnLiterals::wasm_encoder_on_literals))]
pub fn add_alone(code: &mut CodeSection, function: &mut Function) -> Result<(), EncodeError>
    requires none { (code.old.count ≡ 0) × (code.old.bytes ≡ []) }
    requires no_locals { function.old ≡ 0x00 ∷ [] }
    ensures bytes { OnOk result (code.new.bytes ≡
        0x07 ∷ 0x00 ∷ 0x20 ∷ 0x00 ∷ 0x20 ∷ 0x01 ∷ 0x6a ∷ 0x0b ∷ []) }
    ensures count { OnOk result (code.new.count ≡ 1) }
{
    add_function(code, function)
}

/// Writes the section of that function.
#[tactic(auto, unfolding(wasm_encoder::proofs::OnLiterals::wasm_encoder_on_literals))]
pub fn encoded(code: &CodeSection, sink: &mut Vec<u8>) -> Result<(), EncodeError>
    requires bytes { code.now.bytes ≡ 0x07 ∷ 0x00 ∷ 0x20 ∷ 0x00 ∷ 0x20 ∷ 0x01 ∷ 0x6a ∷ 0x0b ∷ [] }
    requires count { code.now.count ≡ 1 }
    ensures { OnOk result (sink.new.items ≡ sink.old.items ++
        0x09 ∷ 0x01 ∷ 0x07 ∷ 0x00 ∷ 0x20 ∷ 0x00 ∷ 0x20 ∷ 0x01 ∷ 0x6a ∷ 0x0b ∷ []) }
{
    code.encode(sink)
}

/// Writes a new section of that function alone.
pub fn section_of_add(
    alloc: Global,
    function: &mut Function,
    sink: &mut Vec<u8>,
) -> Result<(), EncodeError>
    requires no_locals { function.old ≡ 0x00 ∷ [] }
    ensures { OnOk result (sink.new.items ≡ sink.old.items ++
        0x09 ∷ 0x01 ∷ 0x07 ∷ 0x00 ∷ 0x20 ∷ 0x00 ∷ 0x20 ∷ 0x01 ∷ 0x6a ∷ 0x0b ∷ []) }
{
    let mut code = CodeSection::new(alloc);
    add_alone(&mut code, function)?;
    encoded(&code, sink)
}
