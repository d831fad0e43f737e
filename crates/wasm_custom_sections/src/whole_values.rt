//! Custom sections whose contents are one value (Core 3.0, Custom Section).
ghost use Rattle.std.specs.Prelude.{◌≡◌, ◌++◌, ◌⊎◌, OnOk, IfErr, length, take};
ghost use Rattle.wasm_codec.specs.Decoding.{ReadsAll};
ghost use Rattle.wasm_codec.specs.Encoding.{IsCount, IsRefusal, IsTooLong};
ghost use Rattle.wasm_codec.specs.Outcomes.{LiesIn, as_read};
ghost use Rattle.wasm_codec.specs.declared.encode.EncodeError.TheVariants.{TooLong};
ghost use Rattle.wasm_codec.specs.formats.Combinators.{minimal_if};
ghost use Rattle.wasm_code.specs.DecodedPrefixes.{IsNothingOr};
ghost use Rattle.wasm_custom_sections.specs.NamedSections.{CountedNamed, IsNamedSection, named_bytes};

use std::alloc::{Allocator, Global};
use std::marker::PhantomData;
use wasm_codec::encode::{EncodeError, put_size_before};
use wasm_codec::reader::DecodeError;
use wasm_codec::reader::cursor::{Cursor, Fault};
use wasm_codec::rewriter::{Rewriter, are_bytes};
use wasm_externals::names::append_name;
use wasm_lists::encode::Encode;
use wasm_lists::readable::Readable;
use wasm_lists::reading::{Number, read_next_item};
use wasm_lists::rewriting::{Rewritable, RewritableBody};
use wasm_sections::bodies::WholeBody;

/// Reads a value that fills the bytes, minimally encoded if `STRICT` is set.
///
/// Refuses at 0 if the value is malformed, or at the offset of trailing bytes. Fails with `Memory` if an allocation
/// fails.
pub(crate) fn read_value_to_end<'a, T: Readable<'a>, const STRICT: bool>(
    alloc: Global,
    bytes: &'a [u8],
) -> Result<T, DecodeError>
    ensures reads { ReadsAll T.view (minimal_if STRICT T.format).Encodes (IsNothingOr (minimal_if STRICT T.format)) bytes.now (as_read result) }
    ensures place { IfErr result (LiesIn (length bytes.now)) }
{
    let mut cursor = Cursor::new(bytes);
    let value = match read_next_item::<T, STRICT>(alloc, &mut cursor, Number::Uncounted) {
        Ok(value) => value,
        Err(fault) => return Err(DecodeError::new(fault, 0, bytes.len())),
    };
    if cursor.len() > 0 {
        let at = bytes.len() - cursor.len();
        return Err(DecodeError::refused(&cursor.trailing(), at, bytes.len()));
    }
    Ok(value)
}

/// A value that fills the contents of a section.
pub(crate) struct Whole<T: Rewritable> {
    _value: PhantomData<T>,
}

impl<T: Rewritable> RewritableBody for Whole<T> {
    ghost Value = { T.Value };

    ghost format = { T.format };

    #[inline(always)]
    #[tactic(auto, using(crate::proofs::WholeValueLaws::value_is_lawful_body))]
    fn is_lawful() {
        T::is_lawful();
    }

    fn rewrite(rewriter: &mut Rewriter) -> Result<(), Fault> {
        T::rewrite(rewriter)
    }
}

impl<T: Rewritable> WholeBody for Whole<T> {
    #[inline(always)]
    #[tactic(auto, using(wasm_sections::proofs::ValueReading::prefixes_lawful))]
    fn prefixes_are_lawful() {
        T::is_lawful();
    }
}

/// Appends the size of a custom section's body in bytes, the section's name, and its contents. On error a part may remain.
///
/// Fails with `TooLong` if the body is longer than 4,294,967,295 bytes, and with any error of the contents.
#[tactic(auto, unfolding(wasm_sections::specs::formats::Sections::custom_body))]
pub(crate) fn append_named<T: Encode, A: Allocator>(
    name: &str,
    contents: &T,
    sink: &mut Vec<u8, A>,
) -> Result<(), EncodeError>
    ensures ok { OnOk result (sink.new.items ≡ sink.old.items ++ named_bytes name.now (T.bytes contents.now)) }
    ensures counted { OnOk result (CountedNamed name.now (T.bytes contents.now)) }
    ensures section { OnOk result (IsNamedSection name.now (T.bytes contents.now)) }
    ensures written { OnOk result (T.IsWritten contents.now) }
    ensures refused { IfErr result (λ e. IsRefusal T.CanEncode T.refuses contents.now e ⊎ ((CountedNamed name.now (T.bytes contents.now) → ⊥) × (e ≡ TooLong))) }
    ensures kept { take (length sink.old.items) sink.new.items ≡ sink.old.items }
{
    let start = sink.len();
    append_name(name, sink)?;
    let named = sink.len();
    contents.encode(sink)?;
    are_bytes(&sink.as_slice()[named..]);
    check_count(sink.len() - start)?;
    put_size_before(sink, start)
}

/// Fails with `TooLong` if there are more than 4,294,967,295 bytes.
fn check_count(count: usize) -> Result<(), EncodeError>
    ensures ok { OnOk result (IsCount count) }
    ensures err { IfErr result (IsTooLong count) }
{
    if u32::try_from(count).is_err() {
        return Err(EncodeError::TooLong);
    }
    Ok(())
}
