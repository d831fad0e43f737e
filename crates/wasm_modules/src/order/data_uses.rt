//! Instructions that name data segments.
ghost use Rattle.std.specs.Prelude.{◌≡◌, true, false, ℕ, List, IfOk, IfErr, position};
ghost use Rattle.wasm_types.specs.declared.types.value.ValType.{ValType};
ghost use Rattle.wasm_instructions.specs.declared.table.opcode.Opcode.{Opcode};
ghost use Rattle.wasm_instructions.specs.declared.table.opcode.Kind.TheVariants as kinds;
ghost use Rattle.wasm_codec.specs.Reading.{map_ok};
ghost use Rattle.wasm_instructions.specs.formats.Instructions.{Instruction, instruction, operands_format};
ghost use Rattle.wasm_codec.specs.Outcomes.{IsMalformed};
ghost use Rattle.wasm_codec.specs.formats.Combinators.{items};
ghost use Rattle.wasm_code.specs.declared.code.CodeBody.{CodeBody};
ghost use Rattle.wasm_code.specs.formats.CodeBodies.{code_body, function_code, local_group};
ghost use Rattle.wasm_modules.specs.ModuleOrder.{first_data_use, is_data, names_data, op_names_data, NameNoData, TellsDataUse};
ghost use Rattle.wasm_modules.specs.Skipping.{Skips, SkipsPlain};

use crate::indices::{IndexSpace, index_spaces};
use crate::order::opcodes::len_from_data_opcode;
use std::alloc::{AllocError, Global};
use wasm_code::code::CodeBody;
use wasm_code::code::normaliser::read_local_group;
use wasm_codec::reader::cursor::{Cursor, Fault};
use wasm_codec::reader::malformed::Construct;
use wasm_codec::rewriter::Scanned;
use wasm_instructions::operands::{Catch, Handle};
use wasm_instructions::reader::operands::read_operands;
use wasm_instructions::reader::{take_block_type, take_opcode};
use wasm_instructions::table::{Call, Kind, Opcode};
use wasm_lists::readable::Readable;
use wasm_lists::rewriting::Joinable;
use wasm_types::types::ValType;

/// Number of bytes within which an instruction of a frequent kind ends.
const SCANNED: usize = 16;

/// The first byte that is a prefix of opcodes. All after it are prefixes too.
const FIRST_PREFIX: u8 = 0xfb;

/// The place of an instruction in a code section.
#[derive(Clone, Copy)]
pub struct InstructionPlace {
    /// Index of its function in the code section, from 0.
    pub body: usize,
    /// Index in that function, from 0.
    pub instruction: usize,
}

/// Locates the first instruction that names a data segment.
pub fn find_data_use(bodies: &[CodeBody]) -> Option<InstructionPlace>
    ensures { TellsDataUse bodies.now result }
{
    for (body, code) in bodies.iter().enumerate() {
        if let Some(instruction) = first_data_use(code) {
            return Some(InstructionPlace { body, instruction });
        }
    }
    None
}

/// Returns the index of a body's first instruction that names a data segment.
fn first_data_use(body: &CodeBody) -> Option<usize>
    ensures { result ≡ first_data_use body.now }
{
    body.calls.as_slice().iter().position(names_data)
}

/// Checks whether an instruction names a data segment.
fn names_data(call: &Call) -> bool
    ensures { result ≡ names_data call.now }
{
    op_names_data(call.op())
}

/// Checks whether instructions of this opcode name a data segment.
fn op_names_data(op: Opcode) -> bool
    ensures { result ≡ op_names_data op }
{
    let (first, second) = index_spaces(op);
    is_data(first) || is_data(second)
}

/// Checks whether an index space is that of data segments.
fn is_data(space: Option<IndexSpace>) -> bool
    ensures { result ≡ is_data space }
{
    matches!(space, Some(IndexSpace::Data))
}

/// Locates the first instruction that names a data segment in the body of a code section, which may be malformed.
///
/// Code without two bytes that may be such an opcode isn't read. Keeps no lists of operands. Fails if memory runs out.
pub fn find_encoded_data_use(
    alloc: Global,
    section: &[u8],
) -> Result<Option<InstructionPlace>, AllocError>
    ensures { IfOk result (λ place. (bodies : List CodeBody) → (items code_body).Encodes section.now bodies →
        TellsDataUse bodies place) }
{
    let mut cursor = Cursor::new(section);
    let Ok(count) = cursor.u32() else {
        return Ok(None);
    };
    let mut ahead = len_from_data_opcode(section);
    for body in 0..count {
        let Ok(mut code) = cursor.body() else {
            return Ok(None);
        };
        if cursor.len() < ahead {
            if let Some(instruction) = find_in_code(alloc, &mut code)? {
                let body = body as usize;
                return Ok(Some(InstructionPlace { body, instruction }));
            }
            let from = section.len().saturating_sub(cursor.len());
            ahead = len_from_data_opcode(&section[from..]);
        }
    }
    Ok(None)
}

/// Returns the index of the first instruction of a function that names a data segment. The code may be malformed.
///
/// Fails if memory runs out.
fn find_in_code(alloc: Global, code: &mut Cursor<'_>) -> Result<Option<usize>, AllocError>
    ensures { IfOk result (λ index. (locals : List (ℕ × ValType)) (calls : List Instruction) →
        function_code.Encodes code.old.left (locals, calls) → index ≡ position names_data calls) }
{
    let len = code.len();
    let Ok(()) = skip_locals(code) else {
        return Ok(None);
    };
    for index in 0..len {
        if code.len() == 0 {
            return Ok(None);
        }
        if skip_scanned_call(code) {
            continue;
        }
        match skip_call(alloc, code) {
            Ok(op) if op_names_data(op) => return Ok(Some(index)),
            Ok(_) => {}
            Err(Fault::Memory) => return Err(AllocError),
            Err(Fault::Malformed(_)) => return Ok(None),
        }
    }
    Ok(None)
}

/// Moves a cursor over the locals at the start of a function's code.
fn skip_locals(cursor: &mut Cursor<'_>) -> Result<(), Fault>
    ensures skips { Skips (λ _. tt) (items local_group) cursor.old cursor.new result }
    ensures err { IfErr result IsMalformed }
{
    let count = cursor.u32()?;
    for _index in 0..count {
        read_local_group(cursor)?;
    }
    Ok(())
}

/// Moves a cursor over an instruction of a frequent kind, whose opcode has no prefix. Returns `false`, and doesn't move,
/// if the next one isn't such.
fn skip_scanned_call(cursor: &mut Cursor<'_>) -> bool
    ensures skips { result ≡ true → SkipsPlain cursor.old cursor.new }
    ensures stays { result ≡ false → cursor.new ≡ cursor.old }
{
    let Ok(ahead) = cursor.fork().take(SCANNED, Construct::Opcode) else {
        return false;
    };
    if ahead[0] >= FIRST_PREFIX {
        return false;
    }
    let Some(Scanned::Minimal(count)) = <Call as Joinable>::scan(ahead) else {
        return false;
    };
    let Ok(_call) = cursor.take(count, Construct::Opcode) else {
        return false;
    };
    true
}

/// Moves a cursor over an instruction, and returns its opcode.
fn skip_call(alloc: Global, cursor: &mut Cursor<'_>) -> Result<Opcode, Fault>
    ensures { Skips (λ i. i.op) instruction cursor.old cursor.new result }
{
    let op = take_opcode(cursor)?;
    let Some(kind) = op.kind() else {
        return Err(Fault::Malformed(cursor.malformed(op.unknown())));
    };
    skip_operands(alloc, cursor, kind)?;
    Ok(op)
}

/// Moves a cursor over the operands of an instruction.
fn skip_operands(alloc: Global, cursor: &mut Cursor<'_>, kind: Kind) -> Result<(), Fault>
    ensures { Skips (λ _. tt) (operands_format kind) cursor.old cursor.new result }
{
    match kind {
        Kind::BrTable => skip_br_table(alloc, cursor),
        Kind::Types => skip_types(alloc, cursor),
        Kind::TryTable => skip_try_table(alloc, cursor),
        Kind::Resume => skip_resume(alloc, cursor),
        Kind::ResumeThrow => skip_resume_throw(alloc, cursor),
        // Other operands are no lists.
        _ => without_value(read_operands(alloc, cursor, kind)),
    }
}

/// Moves a cursor over labels and a default label.
fn skip_br_table(alloc: Global, cursor: &mut Cursor<'_>) -> Result<(), Fault>
    ensures { Skips (λ _. tt) (operands_format kinds.BrTable) cursor.old cursor.new result }
{
    skip_list::<u32>(alloc, cursor)?;
    without_value(cursor.u32())
}

/// Moves a cursor over the types of a `select`.
fn skip_types(alloc: Global, cursor: &mut Cursor<'_>) -> Result<(), Fault>
    ensures { Skips (λ _. tt) (operands_format kinds.Types) cursor.old cursor.new result }
{
    skip_list::<ValType>(alloc, cursor)
}

/// Moves a cursor over a block type and the clauses of a `try_table`.
fn skip_try_table(alloc: Global, cursor: &mut Cursor<'_>) -> Result<(), Fault>
    ensures { Skips (λ _. tt) (operands_format kinds.TryTable) cursor.old cursor.new result }
{
    take_block_type(cursor)?;
    skip_list::<Catch>(alloc, cursor)
}

/// Moves a cursor over an index and the clauses of a `resume`.
fn skip_resume(alloc: Global, cursor: &mut Cursor<'_>) -> Result<(), Fault>
    ensures { Skips (λ _. tt) (operands_format kinds.Resume) cursor.old cursor.new result }
{
    cursor.u32()?;
    skip_list::<Handle>(alloc, cursor)
}

/// Moves a cursor over two indexes and the clauses of a `resume_throw`.
fn skip_resume_throw(alloc: Global, cursor: &mut Cursor<'_>) -> Result<(), Fault>
    ensures { Skips (λ _. tt) (operands_format kinds.ResumeThrow) cursor.old cursor.new result }
{
    cursor.u32()?;
    cursor.u32()?;
    skip_list::<Handle>(alloc, cursor)
}

/// Returns the same result without its value.
fn without_value<T: Drop>(read: Result<T, Fault>) -> Result<(), Fault>
    ensures { result ≡ map_ok (λ _. tt) read }
{
    match read {
        Ok(_) => Ok(()),
        Err(fault) => Err(fault),
    }
}

/// Moves a cursor over a list.
fn skip_list<'a, T: Readable<'a>>(alloc: Global, cursor: &mut Cursor<'a>) -> Result<(), Fault>
    ensures { Skips (λ _. tt) (items T.format) cursor.old cursor.new result }
{
    T::is_lawful();
    let count = cursor.u32()?;
    for _index in 0..count {
        T::read(alloc, cursor)?;
    }
    Ok(())
}
