//! What data segments and element segments share (Core 3.0, Data Section and Element Section).
ghost use Rattle.std.specs.Prelude.{IfSome};
ghost use Rattle.wasm_codec.specs.Leb128.{unsigned_leb128};
ghost use Rattle.wasm_codec.specs.formats.Numbers.{EncodesU32};
ghost use Rattle.wasm_codec.specs.Appending.{Appends};
ghost use Rattle.wasm_codec.specs.Encoding.{IsMinimal};
ghost use Rattle.wasm_externals.specs.ClosedExpressions.{IsClosed, IsCountedExpr};
ghost use Rattle.wasm_sections.specs.SegmentBytes.{table_and_offset_bytes};
ghost use Rattle.wasm_externals.specs.formats.Expressions.{expr};

use std::alloc::Allocator;
use wasm_codec::encode::EncodeError;
use wasm_codec::encode::leb128::put_u32;
use wasm_externals::expressions::encode_expr;
use wasm_externals::limits::put_u32_if;
use wasm_instructions::table::Call;

/// Appends the number of a form, the memory or table index if the form has one, and the offset. On error a part of them
/// may remain.
#[inline(always)]
pub(crate) fn append_table_and_offset<A: Allocator>(
    form: u32,
    index: Option<u32>,
    offset: &[Call],
    sink: &mut Vec<u8, A>,
) -> Result<(), EncodeError>
    ensures { Appends (table_and_offset_bytes form index offset.now) (IsCountedExpr offset.now)
        (IfSome index (IsMinimal EncodesU32 unsigned_leb128) × (IsClosed offset.now → IsMinimal expr.Encodes expr.bytes offset.now))
        sink.old.items sink.new.items result }
{
    sink.reserve(10)?;
    put_u32(sink, form);
    put_u32_if(sink, index);
    encode_expr(offset, sink)
}
