//! Expressions: instructions up to the `end` that closes none of their blocks (Core 3.0, Expressions).
ghost use Rattle.std.specs.Prelude.{◌≡◌, ◌+◌, ◌^◌, ◌<◌, IsTrue, IsFalse, ◌++◌, OnOk, OnErr, IfErr, Some, IfSome};
ghost use Rattle.wasm_externals.specs.ClosedExpressions.{IsClosed, IsCountedExpr};
ghost use Rattle.wasm_codec.specs.Scanning.{Scans};
ghost use Rattle.wasm_codec.specs.declared.rewriter.scan.Scanned.TheVariants.{Minimal};
ghost use Rattle.wasm_codec.specs.Outcomes.{IsMalformed};
ghost use Rattle.wasm_codec.specs.Places.{Reads, Sees};
ghost use Rattle.wasm_instructions.specs.formats.Instructions.{instruction};
ghost use Rattle.wasm_codec.specs.Rewriter.{Rewrites};
ghost use Rattle.wasm_externals.specs.formats.Nesting.{as_move};
ghost use Rattle.wasm_externals.specs.formats.Expressions.{nested, nested_by, expr};
ghost use Rattle.wasm_codec.specs.Appending.{AppendsIfClosed};
ghost use Rattle.wasm_codec.specs.Encoding.{IsRefusal, IsMinimal, OnlyTooLong};

use std::alloc::{Allocator, Global};
use wasm_codec::encode::{EncodeError, keep_or_undo};
use wasm_codec::reader::cursor::{Cursor, Fault};
use wasm_codec::reader::malformed::{Construct, Malformed, Reason};
use wasm_codec::rewriter::{Rewriter, Scanned};
use wasm_instructions::calls::append_calls;
use wasm_instructions::reader::instructions::read_call;
use wasm_instructions::reader::lists::read_next_frequent_call;
use wasm_instructions::table::{Call, Opcode, Prefix};
use wasm_lists::list::Items;
use wasm_lists::rewriting::{Joinable, Rewritable};

/// The effect of an instruction on the open blocks.
#[derive(Clone, Copy)]
pub(crate) enum Step {
    /// This many blocks are open afterwards.
    GoesOn(usize),
    /// The instruction ends the expression.
    Ends,
    /// The instruction is malformed here.
    Fails,
}

/// Returns the effect of an instruction when `depth` blocks are open.
fn nested(depth: usize, op: Opcode) -> Step
    requires { depth + 1 < 2 ^ 64 }
    ensures { as_move result ≡ nested depth op }
{
    match op.prefix {
        Prefix::None => nested_by(depth, op.number),
        Prefix::Fb | Prefix::Fc | Prefix::Fd | Prefix::Fe => Step::GoesOn(depth),
    }
}

/// Returns the effect of an instruction whose opcode is, or begins with, `byte`.
fn nested_by(depth: usize, byte: u32) -> Step
    requires { depth + 1 < 2 ^ 64 }
    ensures { as_move result ≡ nested_by depth byte }
{
    match byte {
        0x02 | 0x03 | 0x04 | 0x06 | 0x1f => Step::GoesOn(depth + 1),
        0x0b => {
            if depth == 0 {
                Step::Ends
            } else {
                Step::GoesOn(depth - 1)
            }
        }
        0x18 => {
            if depth == 0 {
                Step::Fails
            } else {
                Step::GoesOn(depth - 1)
            }
        }
        _ => Step::GoesOn(depth),
    }
}

/// Returns whether every block is closed and no `end` is left over, so that the instructions form an expression.
pub fn is_closed(calls: &[Call]) -> bool
    ensures closed { IsTrue result → IsClosed calls.now }
    ensures open { IsFalse result → IsClosed calls.now → ⊥ }
{
    let mut depth = 0;
    for call in calls {
        match nested(depth, call.op()) {
            Step::GoesOn(after) => depth = after,
            Step::Ends | Step::Fails => return false,
        }
    }
    depth == 0
}

/// Reads the instructions of an expression, without the final `end`.
#[tactic(auto, unfolding(crate::specs::formats::Expressions::expr))]
pub fn read_expr(alloc: Global, cursor: &mut Cursor<'_>) -> Result<Items<Call>, Fault>
    ensures reads { Reads expr.at cursor.old cursor.new result }
{
    let mut calls = Vec::new(alloc);
    let mut depth = 0;
    let most = cursor.len();
    for _ in 0..most {
        let start = cursor.to_end();
        let call = read_next_call(alloc, cursor)?;
        match nested(depth, call.op()) {
            Step::GoesOn(after) => depth = after,
            Step::Ends => return Ok(Items::from(calls)),
            Step::Fails => {
                return Err(Fault::Malformed(stray_delimiter(start)));
            }
        }
        calls.push(call)?;
    }
    Err(Fault::Malformed(cursor.malformed(Reason::MissingEnd)))
}

/// Reads the next instruction of an expression, which has no final `end` if no bytes are left.
fn read_next_call(alloc: Global, cursor: &mut Cursor<'_>) -> Result<Call, Fault>
    ensures reads { Reads instruction.at cursor.old cursor.new result }
{
    if let Some(call) = read_next_frequent_call::<false>(cursor) {
        return Ok(call);
    }
    let is_at_end = cursor.len() == 0;
    match read_call(alloc, cursor) {
        Ok(call) => Ok(call),
        Err(Fault::Malformed(malformed)) => Err(Fault::Malformed(if is_at_end {
            cursor.malformed(Reason::MissingEnd)
        } else {
            malformed
        })),
        Err(Fault::Memory) => Err(Fault::Memory),
    }
}

/// Returns the fault that the instruction with `start` bytes up to the end closes a block that isn't open.
#[cold]
fn stray_delimiter(start: usize) -> Malformed {
    Malformed::new(Reason::StrayDelimiter, start).in_instruction(start)
}

/// Returns the first byte of the next instruction of an expression, which has no final `end` if no bytes are left.
fn peek_opcode(rewriter: &Rewriter) -> Result<u8, Fault>
    ensures sees { Sees rewriter.now.place result }
    ensures err { IfErr result IsMalformed }
{
    match rewriter.peek(Construct::Opcode) {
        Ok(byte) => Ok(byte),
        Err(Fault::Malformed(_)) => Err(Fault::Malformed(rewriter.malformed(Reason::MissingEnd))),
        Err(Fault::Memory) => Err(Fault::Memory),
    }
}

/// Returns the length in bytes of the expression that the bytes begin with. Returns `None` unless it is one frequent
/// instruction, minimally encoded, such as `i32.const`, `global.get` or `ref.func`.
#[inline(always)]
pub fn scan_expr(bytes: &[u8]) -> Option<usize>
    ensures { IfSome result (λ count. Scans expr bytes.now (Some (Minimal count))) }
{
    if bytes.len() == 0 {
        return None;
    }
    // No smaller byte is the opcode of an instruction with a value, and none from here on opens or closes a block.
    if bytes[0] < 0x20 {
        return None;
    }
    let Some(Scanned::Minimal(count)) = Call::scan(bytes) else {
        return None;
    };
    if count >= bytes.len() {
        return None;
    }
    if bytes[count] != 0x0b {
        return None;
    }
    Some(count + 1)
}

/// Rewrites an expression to its minimal encoding.
pub fn rewrite_expr(rewriter: &mut Rewriter) -> Result<(), Fault>
    ensures rewrites { Rewrites expr rewriter.old rewriter.new result }
{
    let mut depth = 0;
    let most = rewriter.len();
    for _ in 0..most {
        rewriter.are_bytes();
        let start = rewriter.to_end();
        let first = peek_opcode(rewriter)?;
        Call::rewrite(rewriter)?;
        match nested_by(depth, u32::from(first)) {
            Step::GoesOn(after) => depth = after,
            Step::Ends => return Ok(()),
            Step::Fails => {
                return Err(Fault::Malformed(stray_delimiter(start)));
            }
        }
    }
    Err(Fault::Malformed(rewriter.malformed(Reason::MissingEnd)))
}

/// Appends the instructions of an expression and the final `end`. Appends nothing if it fails.
///
/// Fails with `TooLong` if a list in an instruction has more than 4,294,967,295 items.
#[inline(always)]
pub fn encode_expr<A: Allocator>(calls: &[Call], sink: &mut Vec<u8, A>) -> Result<(), EncodeError>
    ensures ok { OnOk result (sink.new.items ≡ sink.old.items ++ expr.bytes calls.now) }
    ensures can { OnOk result (IsCountedExpr calls.now) }
    // If every block is closed, every other encoding of the expression is longer.
    ensures written { OnOk result (IsClosed calls.now → IsMinimal expr.Encodes expr.bytes calls.now) }
    ensures refused { IfErr result (IsRefusal IsCountedExpr OnlyTooLong calls.now) }
    ensures err { OnErr result (sink.new.items ≡ sink.old.items) }
{
    let start = sink.len();
    let result = append_expr(calls, sink);
    keep_or_undo(sink, start, result)
}

/// Appends the instructions of an expression and the final `end`. On error some of them may remain.
#[inline(always)]
fn append_expr<A: Allocator>(calls: &[Call], sink: &mut Vec<u8, A>) -> Result<(), EncodeError>
    ensures { AppendsIfClosed expr calls.now (IsCountedExpr calls.now) (IsClosed calls.now) sink.old.items sink.new.items result }
{
    append_calls(sink, calls)?;
    sink.reserve(1)?;
    sink.push_reserved(0x0b);
    Ok(())
}
