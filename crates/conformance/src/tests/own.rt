//! Values and sections of a caller's own.
ghost use Rattle.std.specs.Prelude.{[]};
ghost use Rattle.wasm_encoder.specs.Encoding.{OnlyTooLong, too_long_at_once};
ghost use Rattle.wasm_encoder.specs.Leb128.{unsigned_leb128};

use std::alloc::Allocator;
use wasm_encoder::{Encode, EncodeError, Section};

/// A value that is never written.
#[derive(Drop)]
pub struct Never;

/// Always refused for lack of memory.
impl Encode for Never {
    ghost bytes = { λ _. [] };

    fn encode<A: Allocator>(&self, _sink: &mut Vec<u8, A>) -> Result<(), EncodeError> {
        Err(EncodeError::Memory)
    }
}

/// A value with a length that can't be written.
#[derive(Drop)]
pub struct Long;

/// Always too long.
impl Encode for Long {
    ghost bytes = { λ _. [] };

    ghost CanEncode = { λ _. ⊥ };

    ghost refuses = { OnlyTooLong };

    ghost at_once = { λ _. too_long_at_once 4294967296 };

    fn encode<A: Allocator>(&self, sink: &mut Vec<u8, A>) -> Result<(), EncodeError> {
        4294967296usize.encode(sink)
    }
}

/// A section of id 5 with the bytes of a value.
#[derive(Drop)]
pub struct Memories<T>(pub T);

impl<T: Encode> Encode for Memories<T> {
    ghost bytes = { λ section. T.bytes section.0 };

    ghost CanEncode = { λ section. T.CanEncode section.0 };

    ghost refuses = { λ section. T.refuses section.0 };

    ghost at_once = { λ section. T.at_once section.0 };

    fn encode<A: Allocator>(&self, sink: &mut Vec<u8, A>) -> Result<(), EncodeError> {
        self.0.encode(sink)
    }
}

impl<T: Encode> Section for Memories<T> {
    ghost id = { λ _. 5 };

    fn id(&self) -> u8 {
        5
    }
}

/// A section of id 5 with the bytes of 42, whose `append_to` always answers that there is no memory.
#[derive(Drop)]
pub struct Unappended;

impl Encode for Unappended {
    ghost bytes = { λ _. unsigned_leb128 42 };

    fn encode<A: Allocator>(&self, sink: &mut Vec<u8, A>) -> Result<(), EncodeError> {
        42u32.encode(sink)
    }
}

impl Section for Unappended {
    ghost id = { λ _. 5 };

    fn id(&self) -> u8 {
        5
    }

    fn append_to<A: Allocator>(&self, _dst: &mut Vec<u8, A>) -> Result<(), EncodeError> {
        Err(EncodeError::Memory)
    }
}
