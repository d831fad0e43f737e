//! Instructions that come one after another, and make the list that a reader returns.
ghost use Rattle.std.specs.Prelude.{IfErr, IfOk};
ghost use Rattle.wasm_encoder.specs.InstructionFormats.{Instructions, instruction};
ghost use Rattle.wasm_encoder.specs.ItemReading.{RefusesItems};
ghost use Rattle.wasm_encoder.specs.Outcomes.{HoldsAtRefusal, read_error_of};

use std::alloc::Global;
use wasm_encoder::{Call, DecodeError, ItemReader};

/// Takes instructions one after another, and keeps them.
pub fn collected(alloc: Global, bytes: &[u8]) -> Result<Vec<Call>, DecodeError>
    ensures given { IfOk result (λ calls. Instructions bytes.now calls.items) }
    ensures refused { IfErr result (λ e. HoldsAtRefusal (read_error_of e) (RefusesItems instruction.Encodes 0 bytes.now)) }
{
    let mut calls = Vec::new(alloc);
    let mut reader = ItemReader::<Call>::to_end(alloc, bytes);
    while let Some(next) = reader.next() {
        match next {
            Ok((_, call)) => calls.push(call)?,
            Err(error) => return Err(error),
        }
    }
    Ok(calls)
}
