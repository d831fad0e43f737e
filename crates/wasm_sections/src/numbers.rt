//! Sections that are a single number (Core 3.0, Start Section and Data Count Section).
ghost use Rattle.std.specs.Prelude.{⊤, ℕ, Ok, ◌≡◌, ◌++◌, OnOk, IfErr, OnErr, length};
ghost use Rattle.wasm_codec.specs.Outcomes.{LiesIn, as_read, NeedsNoMemory};
ghost use Rattle.wasm_codec.specs.formats.Combinators.{minimal_only, u32 as u32_format};
ghost use Rattle.wasm_code.specs.DecodedPrefixes.{IsNothingOr};
ghost use Rattle.wasm_codec.specs.Decoding.{ReadsAll};
ghost use Rattle.wasm_codec.specs.Encoding.{byte_list_bytes};
ghost use Rattle.wasm_codec.specs.Leb128.{unsigned_leb128};
ghost use Rattle.wasm_codec.specs.declared.encode.EncodeError.TheVariants.{Memory};
ghost use Rattle.wasm_sections.specs.formats.ModuleSectionParts.{data_count, start};
ghost use Rattle.wasm_sections.specs.formats.Sections.{start_body, data_count_body};
ghost use Rattle.wasm_sections.specs.NumberSections.{IsWrittenNumber};

use crate::bodies::{WholeBody, rewrite_body};
use std::alloc::{Allocator, Global};
use wasm_code::decode::Decode;
use wasm_codec::encode::EncodeError;
use wasm_codec::encode::leb128::{put_u32, u32_len};
use wasm_codec::reader::DecodeError;
use wasm_codec::reader::cursor::{Cursor, Fault};
use wasm_codec::reader::malformed::{Malformed, Reason};
use wasm_codec::rewriter::{Part, Rewriter};
use wasm_lists::encode::Encode;
use wasm_lists::rewriting::RewritableBody;

/// A start section: the function that instantiating the module calls (Core 3.0, Start Section).
///
/// # Examples
///
/// ```
/// # use wasm_encoder::{Section, StartSection};
/// let mut bytes = Vec::new(rt.alloc());
/// StartSection { function_index: 3 }.append_to(&mut bytes)?;
/// assert_eq!(rt; bytes.as_slice(), b"\x08\x01\x03".as_slice());
/// ```
#[derive(Clone, Copy, Debug, PartialEq, Eq)]
pub struct StartSection {
    /// The index of the function.
    pub function_index: u32,
}

/// A data count section: the number of the module's data segments (Core 3.0, Data Count Section).
///
/// # Examples
///
/// ```
/// # use wasm_encoder::{DataCountSection, Section};
/// let mut bytes = Vec::new(rt.alloc());
/// DataCountSection { count: 2 }.append_to(&mut bytes)?;
/// assert_eq!(rt; bytes.as_slice(), b"\x0c\x01\x02".as_slice());
/// ```
#[derive(Clone, Copy, Debug, PartialEq, Eq)]
pub struct DataCountSection {
    /// The number of data segments.
    pub count: u32,
}

/// Reads a number that fills a section body, in any encoding.
///
/// Fails with `Refused` at 0 if the number is malformed, or at the offset of trailing bytes. Allocates nothing.
pub fn read_number(body: &[u8]) -> Result<u32, DecodeError>
    ensures reads { ReadsAll (λ number. number) u32_format.Encodes (IsNothingOr u32_format) body.now (as_read result) }
    ensures memory { NeedsNoMemory (as_read result) }
    ensures place { IfErr result (LiesIn (length body.now)) }
{
    let mut cursor = Cursor::new(body);
    cursor.are_bytes();
    let number = match cursor.u32() {
        Ok(number) => number,
        Err(fault) => return Err(DecodeError::new(fault, 0, body.len())),
    };
    if cursor.len() > 0 {
        let at = body.len() - cursor.len();
        return Err(DecodeError::refused(&cursor.trailing(), at, body.len()));
    }
    Ok(number)
}

/// Reads a minimally encoded number that fills a section body. Fails as `read_number` does, and at 0 if it isn't minimal.
pub fn read_number_strict(body: &[u8]) -> Result<u32, DecodeError>
    ensures reads { ReadsAll (λ number. number) (minimal_only u32_format).Encodes (IsNothingOr (minimal_only u32_format)) body.now (as_read result) }
    ensures memory { NeedsNoMemory (as_read result) }
    ensures place { IfErr result (LiesIn (length body.now)) }
{
    let mut cursor = Cursor::new(body);
    cursor.are_bytes();
    let number = match cursor.u32() {
        Ok(number) => number,
        Err(fault) => return Err(DecodeError::new(fault, 0, body.len())),
    };
    if !cursor.is_minimal() {
        let long = Malformed::new(Reason::LongForm, body.len());
        return Err(DecodeError::refused(&long, 0, body.len()));
    }
    if cursor.len() > 0 {
        let at = body.len() - cursor.len();
        return Err(DecodeError::refused(&cursor.trailing(), at, body.len()));
    }
    Ok(number)
}

/// A section body that is a single number.
pub struct Number;

impl RewritableBody for Number {
    ghost Value = { ℕ };

    ghost format = { u32_format };

    #[inline(always)]
    #[tactic(auto, using(crate::proofs::ValueReading::number_is_lawful))]
    fn is_lawful() {}

    fn rewrite(rewriter: &mut Rewriter) -> Result<(), Fault> {
        let start = rewriter.start();
        rewriter.u32()?;
        rewriter.end_part(&start, Part::Number);
        Ok(())
    }
}

impl WholeBody for Number {
    #[inline(always)]
    #[tactic(auto, using(crate::proofs::ValueReading::number_prefixes))]
    fn prefixes_are_lawful() {}
}

/// The size of the body in bytes, and the index (Core 3.0, Sections and Start Section).
#[tactic(auto, using(crate::proofs::ItemLaws::number_written, crate::proofs::ItemLaws::start_written), unfolding(crate::specs::formats::Sections::start_body))]
impl Encode for StartSection {
    ghost bytes = { λ section. byte_list_bytes (start_body.bytes section.function_index) };

    ghost IsWritten = { λ section. IsWrittenNumber start_body 8 start section.function_index };

    fn encode<A: Allocator>(&self, sink: &mut Vec<u8, A>) -> Result<(), EncodeError> {
        append_number(self.function_index, sink)
    }
}

/// The size of the body in bytes, and the number (Core 3.0, Sections and Data Count Section).
#[tactic(auto, using(crate::proofs::ItemLaws::number_written, crate::proofs::ItemLaws::data_count_written), unfolding(crate::specs::formats::Sections::data_count_body))]
impl Encode for DataCountSection {
    ghost bytes = { λ section. byte_list_bytes (data_count_body.bytes section.count) };

    ghost IsWritten = { λ section. IsWrittenNumber data_count_body 12 data_count section.count };

    fn encode<A: Allocator>(&self, sink: &mut Vec<u8, A>) -> Result<(), EncodeError> {
        append_number(self.count, sink)
    }
}

/// Appends the size of a number in bytes and the number, or nothing. Fails with `Memory` if `sink` can't grow.
fn append_number<A: Allocator>(number: u32, sink: &mut Vec<u8, A>) -> Result<(), EncodeError>
    ensures ok { OnOk result (sink.new.items ≡ sink.old.items ++ byte_list_bytes (unsigned_leb128 number)) }
    ensures err { OnErr result (sink.new.items ≡ sink.old.items) }
    ensures refused { IfErr result (λ e. e ≡ Memory) }
{
    sink.reserve(10)?;
    put_u32(sink, u32_len(number) as u32);
    put_u32(sink, number);
    Ok(())
}

#[tactic(auto, using(crate::proofs::ValueReading::number_is_lawful), unfolding(crate::specs::formats::Sections::start_body))]
impl<'a> Decode<'a> for StartSection {
    type Output = StartSection;

    ghost Value = { ℕ };

    ghost view = { λ section. section.function_index };

    ghost format = { start_body };

    ghost Minimal = { (minimal_only start_body).Encodes };

    ghost IsPrefix = { IsNothingOr start_body };

    ghost IsMinimalPrefix = { IsNothingOr (minimal_only start_body) };

    ghost ReadsInPlace = { ⊤ };

    #[inline(always)]
    fn is_lawful() {}

    fn read_all(_alloc: Global, bytes: &'a [u8]) -> Result<StartSection, DecodeError> {
        let function_index = read_number(bytes)?;
        Ok(StartSection { function_index })
    }

    fn read_all_strict(_alloc: Global, bytes: &'a [u8]) -> Result<StartSection, DecodeError> {
        let function_index = read_number_strict(bytes)?;
        Ok(StartSection { function_index })
    }

    fn check_all(_alloc: Global, bytes: &[u8]) -> Result<(), DecodeError> {
        read_number_strict(bytes)?;
        Ok(())
    }

    fn rewrite_all(bytes: &mut [u8]) -> Result<usize, DecodeError> {
        rewrite_body::<Number>(bytes)
    }
}

#[tactic(auto, using(crate::proofs::ValueReading::number_is_lawful), unfolding(crate::specs::formats::Sections::data_count_body))]
impl<'a> Decode<'a> for DataCountSection {
    type Output = DataCountSection;

    ghost Value = { ℕ };

    ghost view = { λ section. section.count };

    ghost format = { data_count_body };

    ghost Minimal = { (minimal_only data_count_body).Encodes };

    ghost IsPrefix = { IsNothingOr data_count_body };

    ghost IsMinimalPrefix = { IsNothingOr (minimal_only data_count_body) };

    ghost ReadsInPlace = { ⊤ };

    #[inline(always)]
    fn is_lawful() {}

    fn read_all(_alloc: Global, bytes: &'a [u8]) -> Result<DataCountSection, DecodeError> {
        let count = read_number(bytes)?;
        Ok(DataCountSection { count })
    }

    fn read_all_strict(_alloc: Global, bytes: &'a [u8]) -> Result<DataCountSection, DecodeError> {
        let count = read_number_strict(bytes)?;
        Ok(DataCountSection { count })
    }

    fn check_all(_alloc: Global, bytes: &[u8]) -> Result<(), DecodeError> {
        read_number_strict(bytes)?;
        Ok(())
    }

    fn rewrite_all(bytes: &mut [u8]) -> Result<usize, DecodeError> {
        rewrite_body::<Number>(bytes)
    }
}
