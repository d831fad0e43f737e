//! The writer of pairs.
ghost use Rattle.std.specs.Prelude.{◌++◌, ◌⊎◌};

use crate::encode::Encode;
use std::alloc::Allocator;
use wasm_codec::encode::{EncodeError, keep_or_undo};

/// The encoding of the first value, and then that of the second.
impl<T: Encode, U: Encode> Encode for (T, U) {
    ghost bytes = { λ pair. T.bytes pair.0 ++ U.bytes pair.1 };

    ghost IsWritten = { λ pair. T.IsWritten pair.0 × U.IsWritten pair.1 };

    ghost CanEncode = { λ pair. T.CanEncode pair.0 × U.CanEncode pair.1 };

    ghost refuses = { λ pair e. T.refuses pair.0 e ⊎ U.refuses pair.1 e };

    fn encode<A: Allocator>(&self, sink: &mut Vec<u8, A>) -> Result<(), EncodeError> {
        let start = sink.len();
        self.0.encode(sink)?;
        let result = self.1.encode(sink);
        keep_or_undo(sink, start, result)
    }
}
