//! Checks that bytes are minimally encoded.
//!
//! A check accepts what the corresponding strict reader accepts, but returns no values. It works on a copy of the
//! bytes.
ghost use Rattle.std.specs.Prelude.{◌≡◌, ◌<◌, length, is_some, true, false, IfOk, IfSome, IfNone, IfErr};
ghost use Rattle.wasm_codec.specs.Outcomes.{IfMalformed, LiesIn, as_read, IfRefused, IsLongestPrefix, EncodesSome};
ghost use Rattle.wasm_codec.specs.formats.Grammar.{Joined};
ghost use Rattle.wasm_codec.specs.Lists.{CountsItems, ListMinimalIf, IsListPrefixMinimalIf};
ghost use Rattle.wasm_codec.specs.Places.{place};
ghost use Rattle.wasm_codec.specs.formats.Combinators.{minimal_only, u32 as u32_format};
ghost use Rattle.wasm_codec.specs.Decoding.{ChecksAll};
ghost use Rattle.wasm_codec.specs.Rewriter.{CountsPassed, StopsBehind, StopsInItem};

use crate::rewriting::{Joinable, Rewritable, rewrite_joined, rewrite_list_to_end};
use std::alloc::Global;
use std::marker::PhantomData;
use wasm_codec::reader::DecodeError;
use wasm_codec::reader::cursor::{Cursor, Fault};
use wasm_codec::reader::malformed::{Malformed, Reason, Stop};
use wasm_codec::rewriter::{Rewriter, Scanned};

/// Checks that the bytes are a count and as many items, minimally encoded, without trailing bytes.
pub fn check_list_to_end<T: Rewritable>(alloc: Global, bytes: &[u8]) -> Result<(), DecodeError>
    ensures checks { ChecksAll (ListMinimalIf true T.format) (IsListPrefixMinimalIf true T.format) bytes.now (as_read result) }
    ensures place { IfErr result (LiesIn (length bytes.now)) }
    // The item that a refusal names counts the items before it.
    ensures counts { IfMalformed result (CountsItems true T.format bytes.now) }
{
    if let Some(malformed) = fault_in_count(bytes) {
        return Err(DecodeError::refused(&malformed.outside_items(), 0, bytes.len()));
    }
    let mut copy = Vec::from_slice(alloc, bytes)?;
    let _len = rewrite_list_to_end::<MinimalOnly<T>>(copy.as_mut_slice())?;
    Ok(())
}

/// Returns what is wrong with the count that the bytes begin with. `None` means that it is minimally encoded.
fn fault_in_count(bytes: &[u8]) -> Option<Malformed>
    ensures none { IfNone result (is_some ((minimal_only u32_format).at (place true bytes.now)) ≡ true) }
    ensures some { IfSome result (λ _. is_some ((minimal_only u32_format).at (place true bytes.now)) ≡ false) }
{
    let mut cursor = Cursor::new(bytes);
    match cursor.u32() {
        Ok(_) if cursor.is_minimal() => None,
        Ok(_) => Some(Malformed::new(Reason::LongForm, bytes.len())),
        Err(Fault::Malformed(malformed)) => Some(malformed),
        Err(Fault::Memory) => Some(Malformed::new(Reason::LongForm, bytes.len())),
    }
}

/// Checks that the bytes are items one after another, without a count, minimally encoded.
pub fn check_items_to_end<T: Joinable>(alloc: Global, bytes: &[u8]) -> Result<(), DecodeError>
    ensures given { IfOk (as_read result) (λ _. EncodesSome (Joined (minimal_only T.format).Encodes) bytes.now) }
    ensures prefix { IfRefused (as_read result) (IsLongestPrefix (EncodesSome (Joined (minimal_only T.format).Encodes)) bytes.now) }
    ensures within { IfRefused (as_read result) (λ at. at < length bytes.now) }
    ensures place { IfErr result (LiesIn (length bytes.now)) }
{
    match check_joined::<T>(alloc, bytes) {
        Ok(()) => Ok(()),
        Err(stop) => Err(DecodeError::stopped(stop, bytes.len())),
    }
}

/// Checks that the bytes are items one after another, without a count, minimally encoded.
///
/// Fails with the first item that is malformed or not minimal, and the number of items before it.
pub fn check_joined<T: Joinable>(alloc: Global, bytes: &[u8]) -> Result<(), Stop>
    ensures given { IfOk result (λ _. EncodesSome (Joined (minimal_only T.format).Encodes) bytes.now) }
    ensures stops { IfErr result (StopsBehind (minimal_only T.format) bytes.now) }
    ensures passed { T.NeverScans → IfErr result (CountsPassed (minimal_only T.format) bytes.now) }
    ensures names { IfErr result (StopsInItem T.Breaks bytes.now) }
{
    MinimalOnly::<T>::is_lawful();
    let mut copy = Vec::from_slice(alloc, bytes)?;
    let mut rewriter = Rewriter::new(copy.as_mut_slice());
    rewriter.are_bytes();
    rewrite_joined::<MinimalOnly<T>>(&mut rewriter)
}

/// An item that is refused unless it is minimally encoded, so that rewriting keeps it.
struct MinimalOnly<T> {
    item: PhantomData<T>,
}

impl<T: Rewritable> Rewritable for MinimalOnly<T> {
    ghost Value = { T.Value };

    ghost format = { minimal_only T.format };

    ghost Breaks = { T.Breaks };

    #[inline(always)]
    fn is_lawful() {
        T::is_lawful();
    }

    #[inline(always)]
    fn rewrite(rewriter: &mut Rewriter) -> Result<(), Fault> {
        T::is_lawful();
        rewriter.are_bytes();
        let (mark, len, start) = (rewriter.written_len(), rewriter.len(), rewriter.to_end());
        T::rewrite(rewriter)?;
        let (minimal, bytes) = (rewriter.written_len() - mark, len - rewriter.len());
        if minimal < bytes {
            let reason = Reason::NotMinimal { bytes, minimal };
            return Err(Fault::Malformed(Malformed::new(reason, start)));
        }
        Ok(())
    }
}

impl<T: Joinable> Joinable for MinimalOnly<T> {
    ghost NeverScans = { T.NeverScans };

    #[inline(always)]
    fn scan(bytes: &[u8]) -> Option<Scanned> {
        match T::scan(bytes) {
            Some(Scanned::Minimal(count)) => Some(Scanned::Minimal(count)),
            _ => None,
        }
    }

    #[inline(always)]
    fn scan_rare(bytes: &[u8]) -> Option<usize> {
        T::scan_rare(bytes)
    }
}
