//! Items rewritten in place, and the first of them that isn't minimally encoded.
ghost use Rattle.std.specs.Prelude.{◌≡◌, IfErr, IfOk, IfSome};
ghost use Rattle.wasm_codec.specs.Outcomes.{IfInItem};
ghost use Rattle.wasm_codec.specs.Rewriter.{CountsPassed, StopsInItem};
ghost use Rattle.wasm_lists.specs.Longer.{CountsFirst, ChecksItem, ChecksItems, first_of};

use crate::rewriting::Rewritable;
use wasm_codec::reader::cursor::Fault;
use wasm_codec::reader::malformed::Stop;
use wasm_codec::rewriter::Rewriter;

/// The first of several items that isn't minimally encoded.
#[derive(Clone, Copy, Debug, PartialEq, Eq)]
pub struct LongerItem {
    /// Number of bytes left at its start.
    pub left: usize,
    /// Number of items before it.
    pub passed: usize,
}

/// Rewrites items one after another, up to the end. Returns the first that wasn't minimally encoded; `None` means that
/// all were. Fails with the first malformed item.
///
/// `Rewriter::longer` tells which part of the item is the first that wasn't minimally encoded.
pub fn rewrite_and_check_items<T: Rewritable>(
    rewriter: &mut Rewriter,
) -> Result<Option<LongerItem>, Stop>
    ensures checks { ChecksItems T.format rewriter.old rewriter.new result }
    ensures passed { IfErr result (CountsPassed T.format rewriter.old.place.left) }
    ensures names { IfErr result (StopsInItem T.Breaks rewriter.old.place.left) }
    // The first item that wasn't minimally encoded counts the items before it.
    ensures counts { IfOk result (λ first. IfSome first (CountsFirst T.format rewriter.old.place.left)) }
{
    T::is_lawful();
    rewriter.are_bytes();
    let _most = rewriter.len();
    let mut first = None;
    let mut passed = 0usize;
    while rewriter.len() > 0 {
        let left = rewriter.len();
        let is_minimal = match rewrite_and_check_item::<T>(rewriter) {
            Ok(is_minimal) => is_minimal,
            Err(fault) => {
                return Err(Stop {
                    left,
                    passed,
                    fault,
                });
            }
        };
        first = first_of(first, is_minimal, LongerItem { left, passed });
        passed += 1;
    }
    Ok(first)
}

/// Rewrites the next item. Returns whether it was minimally encoded.
fn rewrite_and_check_item<T: Rewritable>(rewriter: &mut Rewriter) -> Result<bool, Fault>
    ensures checks { ChecksItem T.format rewriter.old rewriter.new result }
    ensures names { IfInItem result (T.Breaks rewriter.old.place.left) }
{
    T::is_lawful();
    rewriter.are_bytes();
    let (mark, len) = (rewriter.written_len(), rewriter.len());
    T::rewrite(rewriter)?;
    let (minimal, bytes) = (rewriter.written_len() - mark, len - rewriter.len());
    if minimal < bytes {
        return Ok(false);
    }
    Ok(true)
}

/// Returns the first item that isn't minimally encoded, after this one was found first and `item` was checked.
fn first_of(first: Option<LongerItem>, is_minimal: bool, item: LongerItem) -> Option<LongerItem>
    ensures { result ≡ first_of first is_minimal item }
{
    match first {
        Some(first) => Some(first),
        None if is_minimal => None,
        None => Some(item),
    }
}
