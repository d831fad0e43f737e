//! What is decoded from all of its bytes, and the five calls that read, check and normalise it.
ghost use Rattle.std.specs.Prelude.{◌≡◌, ◌≤◌, ℕ, Bool, true, false, List, ⊤, IfErr, IfOk, IsOk, length};
ghost use Rattle.wasm_codec.specs.Outcomes.{IfMalformed, IsLongestPrefix, LiesIn, NeedsNoMemory, as_decoded, as_read};
ghost use Rattle.wasm_codec.specs.Lawful.{IsLawfulBody};
ghost use Rattle.wasm_codec.specs.declared.reader.DecodeError.TheVariants.{Memory};
ghost use Rattle.wasm_codec.specs.formats.Combinators.{Format};
ghost use Rattle.wasm_code.specs.DecodedPrefixes.{ArePrefixes};
ghost use Rattle.wasm_code.specs.Reasons.{IsTrueOf, TellsLonger};
ghost use Rattle.wasm_codec.specs.Decoding.{TakesMinimal, ReadsAll, ChecksAll, RewritesAll, RewritesInPlace, Decodes, DecodesMinimal, Checks, NormalisesInPlace, NormalisesSlice, Normalises};

use crate::reasons::{compared, explained};
use std::alloc::Global;
use wasm_codec::reader::refusal::Refusal;
use wasm_codec::reader::{DecodeError, without_memory};

/// What is decoded from all of its bytes, such as the body of a section.
///
/// [`read`], [`read_strict`], [`check`], [`normalise`] and [`rewrite`] call its methods, which promise less.
///
/// # Examples
///
/// ```
/// # use wasm_encoder::{Decode, StartSection};
/// let start = StartSection::read_all(rt.alloc(), b"\x83\x00")?; // the index 3 in two bytes
/// assert_eq!(rt; start.function_index, 3);
/// let strict = StartSection::read_all_strict(rt.alloc(), b"\x83\x00");
/// assert_eq!(rt; strict.err().and_then(|error| error.at()), Some(0));
/// ```
pub trait Decode<'a> {
    ghost use Rattle.wasm_codec.specs.declared.reader.refusal.Refusal.{Refusal};

    /// What reading returns.
    type Output: Drop;

    /// The values that bytes encode.
    ghost Value: { Type 0 };

    /// The value that the returned one stands for: itself, unless it borrows from the bytes.
    ghost view: { Self.Output → Value };

    /// Which bytes encode which value.
    ghost format: { Format Value };

    /// Which bytes are the minimal encoding of which value.
    ghost Minimal: { List ℕ → Value → Type 0 };

    /// Which prefixes of the bytes decode. Nothing does, and so does what encodes a value.
    ghost IsPrefix: { List ℕ → Type 0 };

    /// Which prefixes of the bytes are minimally encoded.
    ghost IsMinimalPrefix: { List ℕ → Type 0 };

    /// Whether reading allocates nothing, and so never fails with `Memory`. By default it may.
    ghost ReadsInPlace: { Type 0 } = { ⊥ };

    /// What the numbers in a refusal count: the items or the sections before the part that is refused. If the flag is
    /// set, they are minimally encoded. By default nothing is known.
    ghost Counts: { Bool → List ℕ → Refusal → Type 0 } = { λ strict bytes refusal. ⊤ };

    /// Tells the proof that the format is lawful. The call does nothing.
    fn is_lawful()
        ensures lawful { IsLawfulBody format }
        ensures minimal { TakesMinimal format Minimal }
        ensures prefixes { ArePrefixes format.Encodes IsPrefix }
        ensures minimal_prefixes { ArePrefixes Minimal IsMinimalPrefix };

    /// Reads the value from all of the bytes, in any encoding.
    fn read_all(alloc: Global, bytes: &'a [u8]) -> Result<Self::Output, DecodeError>
        ensures reads { ReadsAll view format.Encodes IsPrefix bytes.now (as_read result) }
        ensures place { IfErr result (LiesIn (length bytes.now)) }
        ensures counts { IfMalformed result (Counts false bytes.now) }
        ensures memory { ReadsInPlace → NeedsNoMemory (as_read result) };

    /// Reads the value from all of the bytes, if they are its minimal encoding.
    fn read_all_strict(alloc: Global, bytes: &'a [u8]) -> Result<Self::Output, DecodeError>
        ensures reads { ReadsAll view Minimal IsMinimalPrefix bytes.now (as_read result) }
        ensures place { IfErr result (LiesIn (length bytes.now)) }
        ensures counts { IfMalformed result (Counts true bytes.now) }
        ensures memory { ReadsInPlace → NeedsNoMemory (as_read result) };

    /// Checks whether the bytes are the minimal encoding of a value.
    fn check_all(alloc: Global, bytes: &[u8]) -> Result<(), DecodeError>
        ensures checks { ChecksAll Minimal IsMinimalPrefix bytes.now (as_read result) }
        ensures place { IfErr result (LiesIn (length bytes.now)) }
        ensures counts { IfMalformed result (Counts true bytes.now) };

    /// Rewrites the bytes in place to the minimal encoding of the value that they encode. Returns the length of it, which
    /// begins the slice. Allocates nothing. If it fails, the bytes are unspecified.
    fn rewrite_all(bytes: &mut [u8]) -> Result<usize, DecodeError>
        ensures len { IfOk result (λ len. len ≤ length bytes.new) }
        ensures rewrites { RewritesInPlace format IsPrefix bytes.old bytes.new (as_read result) }
        ensures place { IfErr result (LiesIn (length bytes.old)) }
        ensures counts { IfMalformed result (Counts false bytes.old) }
        ensures memory { NeedsNoMemory (as_read result) };
}

/// Reads the value that the bytes encode, in any encoding.
///
/// Refuses with `at`, the length in bytes of the longest prefix that decodes, if the bytes are malformed. Fails with
/// `Memory` if memory runs out.
///
/// # Examples
///
/// ```
/// # use wasm_encoder::{ExportSection, read};
/// let body = b"\x01\x83\x00add\x00\x85\x00"; // one export; the length 3 and the index 5 are padded
/// for export in &read::<ExportSection<'_>>(rt.alloc(), body)? {
///     assert_eq!(rt; export.name, "add");
///     assert_eq!(rt; export.index, 5);
/// }
/// ```
pub fn read<'a, T: Decode<'a>>(alloc: Global, bytes: &'a [u8]) -> Result<T::Output, DecodeError>
    ensures decodes { Decodes T.view T.format T.IsPrefix bytes.now (as_read result) }
    ensures place { IfErr result (LiesIn (length bytes.now)) }
    ensures counts { IfMalformed result (T.Counts false bytes.now) }
    ensures memory { T.ReadsInPlace → NeedsNoMemory (as_read result) }
    ensures why { IfErr result (IsTrueOf false bytes.now) }
{
    T::is_lawful();
    explained(T::read_all(alloc, bytes), bytes, false)
}

/// Reads the value that the bytes encode, if they are its minimal encoding.
///
/// Otherwise refuses with `at`, the length in bytes of the longest prefix that is minimally encoded. Fails with
/// `Memory` if memory runs out.
///
/// # Examples
///
/// ```
/// # use wasm_encoder::{FunctionSection, read_strict};
/// let types = read_strict::<FunctionSection>(rt.alloc(), b"\x02\x00\x01")?;
/// assert_eq!(rt; types.as_slice(), [0, 1].as_slice());
/// let padded = read_strict::<FunctionSection>(rt.alloc(), b"\x02\x00\x81\x00"); // the index 1 in two bytes
/// assert_eq!(rt; padded.err().and_then(|error| error.at()), Some(2));
/// ```
#[tactic(auto, using(wasm_codec::proofs::DecodingLaws::decodes_minimal))]
pub fn read_strict<'a, T: Decode<'a>>(
    alloc: Global,
    bytes: &'a [u8],
) -> Result<T::Output, DecodeError>
    ensures decodes { DecodesMinimal T.view T.format T.Minimal T.IsMinimalPrefix bytes.now (as_read result) }
    ensures place { IfErr result (LiesIn (length bytes.now)) }
    ensures counts { IfMalformed result (T.Counts true bytes.now) }
    ensures memory { T.ReadsInPlace → NeedsNoMemory (as_read result) }
    ensures why { IfErr result (IsTrueOf true bytes.now) }
    ensures longer { IfErr result (TellsLonger T.IsPrefix bytes.now) }
{
    T::is_lawful();
    match explained(T::read_all_strict(alloc, bytes), bytes, true) {
        Ok(value) => Ok(value),
        Err(error) => Err(compared(error, readable_len::<T>(alloc, bytes)?)),
    }
}

/// Checks whether the bytes are the minimal encoding of a value.
///
/// Accepts what [`read_strict`] reads, refuses the rest at the same offset, and makes no value. Fails with `Memory` if
/// memory runs out.
///
/// # Examples
///
/// ```
/// # use wasm_encoder::{MemorySection, check};
/// check::<MemorySection>(rt.alloc(), b"\x01\x00\x02")?; // one memory of at least two pages
/// let padded = check::<MemorySection>(rt.alloc(), b"\x01\x00\x82\x00"); // the number of pages in two bytes
/// assert_eq!(rt; padded.err().and_then(|error| error.at()), Some(1));
/// ```
#[tactic(auto, using(wasm_codec::proofs::DecodingLaws::checks))]
pub fn check<'a, T: Decode<'a>>(alloc: Global, bytes: &[u8]) -> Result<(), DecodeError>
    ensures checks { Checks T.format T.Minimal T.IsMinimalPrefix bytes.now (as_read result) }
    ensures place { IfErr result (LiesIn (length bytes.now)) }
    ensures counts { IfMalformed result (T.Counts true bytes.now) }
    ensures why { IfErr result (IsTrueOf true bytes.now) }
    ensures longer { IfErr result (TellsLonger T.IsPrefix bytes.now) }
{
    T::is_lawful();
    match explained(T::check_all(alloc, bytes), bytes, true) {
        Ok(()) => Ok(()),
        Err(error) => Err(compared(error, rewritable_len::<T>(alloc, bytes)?)),
    }
}

/// Returns the length of the longest prefix that decodes in any encoding. Fails with `Memory` if memory runs out, but
/// never if reading allocates nothing.
#[cold]
#[tactic(auto, using(crate::proofs::PrefixLaws::read_is_longest))]
fn readable_len<'a, T: Decode<'a>>(alloc: Global, bytes: &'a [u8]) -> Result<usize, DecodeError>
    ensures len { IfOk result (IsLongestPrefix T.IsPrefix bytes.now) }
    ensures err { IfErr result (λ e. e ≡ Memory) }
    ensures memory { T.ReadsInPlace → IsOk result }
{
    T::is_lawful();
    match T::read_all(alloc, bytes) {
        Ok(_) => Ok(bytes.len()),
        Err(DecodeError::Malformed(refusal)) => Ok(refusal.at),
        Err(DecodeError::Memory) => Err(DecodeError::Memory),
    }
}

/// Returns the length of the longest prefix that decodes in any encoding. Fails with `Memory` if there is no memory for a
/// copy of the bytes.
#[cold]
#[tactic(auto, using(crate::proofs::PrefixLaws::rewritten_is_longest))]
fn rewritable_len<'a, T: Decode<'a>>(alloc: Global, bytes: &[u8]) -> Result<usize, DecodeError>
    ensures len { IfOk result (IsLongestPrefix T.IsPrefix bytes.now) }
    ensures err { IfErr result (λ e. e ≡ Memory) }
{
    T::is_lawful();
    match rewrite_copy::<T>(alloc, bytes) {
        Ok(_) => Ok(bytes.len()),
        Err(DecodeError::Malformed(refusal)) => Ok(refusal.at),
        Err(DecodeError::Memory) => Err(DecodeError::Memory),
    }
}

/// Returns the minimal encoding of the value that the bytes encode.
///
/// Refuses as [`read`] does. Fails with `Memory` if there is no memory for a copy of the bytes.
///
/// # Examples
///
/// ```
/// # use wasm_encoder::{StartSection, normalise};
/// let minimal = normalise::<StartSection>(rt.alloc(), b"\x85\x80\x00")?; // the index 5 in three bytes
/// assert_eq!(rt; minimal.as_slice(), b"\x05".as_slice());
/// ```
pub fn normalise<'a, T: Decode<'a>>(alloc: Global, bytes: &[u8]) -> Result<Vec<u8>, DecodeError>
    ensures normalises { Normalises T.format T.Minimal T.IsPrefix bytes.now (as_read result) }
    ensures place { IfErr result (LiesIn (length bytes.now)) }
    ensures counts { IfMalformed result (T.Counts false bytes.now) }
    ensures why { IfErr result (IsTrueOf false bytes.now) }
{
    T::is_lawful();
    explained(rewrite_copy::<T>(alloc, bytes), bytes, false)
}

/// Copies the bytes and rewrites the copy.
fn rewrite_copy<'a, T: Decode<'a>>(alloc: Global, bytes: &[u8]) -> Result<Vec<u8>, DecodeError>
    ensures rewrites { RewritesAll T.format T.IsPrefix bytes.now (as_read result) }
    ensures place { IfErr result (LiesIn (length bytes.now)) }
    ensures counts { IfMalformed result (T.Counts false bytes.now) }
{
    rewrite::<T>(Vec::from_slice(alloc, bytes)?)
}

/// Rewrites the bytes in place to the minimal encoding of the value that they encode, and returns them.
///
/// Refuses as [`read`] does, and needs no memory.
///
/// # Examples
///
/// ```
/// # use wasm_encoder::{FunctionSection, rewrite};
/// let padded = Vec::from_slice(rt.alloc(), b"\x82\x00\x00\x81\x00")?; // the count 2 and the index 1 are padded
/// let minimal = rewrite::<FunctionSection>(padded)?;
/// assert_eq!(rt; minimal.as_slice(), b"\x02\x00\x01".as_slice());
/// ```
pub fn rewrite<'a, T: Decode<'a>>(bytes: Vec<u8>) -> Result<Vec<u8>, DecodeError>
    ensures normalises { NormalisesInPlace T.format T.IsPrefix bytes.items (as_read result) }
    ensures place { IfErr result (LiesIn (length bytes.items)) }
    ensures counts { IfMalformed result (T.Counts false bytes.items) }
{
    T::is_lawful();
    let mut bytes = bytes;
    match T::rewrite_all(bytes.as_mut_slice()) {
        Ok(len) => {
            bytes.truncate(len);
            Ok(bytes)
        }
        Err(error) => Err(error),
    }
}

/// Rewrites the bytes in place to the minimal encoding of the value that they encode. Returns the length of it, which
/// begins the slice.
///
/// Refuses as [`read`] does, and allocates nothing. After a refusal the bytes are unspecified: to keep them, call
/// [`check`] or [`read`] first.
///
/// # Examples
///
/// ```
/// # use wasm_encoder::{FunctionSection, rewrite_in_place};
/// let mut bytes = *b"\x82\x00\x00\x81\x00"; // the count 2 and the index 1 are padded
/// let len = rewrite_in_place::<FunctionSection>(&mut bytes)?;
/// assert_eq!(rt; &bytes[..len], b"\x02\x00\x01".as_slice());
/// ```
pub fn rewrite_in_place<'a, T: Decode<'a>>(bytes: &mut [u8]) -> Result<usize, Refusal>
    ensures normalises { NormalisesSlice T.format T.IsPrefix bytes.old bytes.new (as_read (as_decoded result)) }
    ensures place { IfErr (as_decoded result) (LiesIn (length bytes.old)) }
    ensures counts { IfMalformed (as_decoded result) (T.Counts false bytes.old) }
{
    T::is_lawful();
    without_memory(T::rewrite_all(bytes))
}
