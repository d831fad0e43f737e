//! `Rewriter`, which replaces encodings by minimal ones in place.
ghost use Rattle.std.specs.Prelude.{◌≡◌, Bool, ◌++◌, ◌+◌, ◌-◌, ◌<◌, ◌≤◌, ◌^◌, [], length, take, drop, true, false, Some, None, pos, if◌then◌else◌, IfOk, IfErr};
ghost use lib.Seq.{paste};
ghost use Rattle.wasm_codec.specs.formats.Grammar.{IsBytes};
ghost use Rattle.wasm_codec.specs.Places.{Place, place, Sees};
ghost use Rattle.wasm_codec.specs.Leb128.{digits_of, unsigned_leb128, signed_leb128};
ghost use Rattle.wasm_codec.specs.formats.Bodies.{bytes_to_end};
ghost use Rattle.wasm_codec.specs.formats.Combinators.{a_byte, raw, little_endian, u32 as u32_format, u64 as u64_format, s32 as s32_format, s64 as s64_format, index as index_format};
ghost use Rattle.wasm_codec.specs.Outcomes.{IsMalformed};
ghost use Rattle.wasm_codec.specs.Scanning.{IsWithin, RewritesScanned};
ghost use Rattle.wasm_codec.specs.Rewriter.{rewriting_after, Gives, Rewrites, OpensBody, without, with_byte, limited, widened, resized, rewriting, rest_of, skipped, shortened, done_of};

mod scan;

use crate::encode::leb128::u32_len;
use crate::encode::write_u32;
use crate::reader::cursor::{Cursor, Fault};
use crate::reader::malformed::{Construct, Malformed, Reason};
pub use scan::{
    Scanned, begins_low, kept_digits, scan_s32, scan_s64, scan_short_u32, scan_u32, scan_u64,
};
use std::alloc::Global;
use std::marker::Model;

/// A body that is being rewritten.
#[derive(Clone, Copy)]
pub struct Body {
    /// Number of bytes written before its size.
    mark: usize,
    /// Its old size in bytes.
    size: u32,
    /// Number of bytes left after it.
    behind: usize,
    /// Number of bytes from the size of the body around it up to the end of the input. `None` if there is no such body.
    around: Option<usize>,
}

/// The start of a part that is rewritten.
#[derive(Clone, Copy)]
pub struct Start {
    /// Its offset in the input.
    position: usize,
}

/// What a part is that was rewritten.
#[derive(Clone, Copy)]
pub enum Part {
    /// A size, a count, or the number that a body begins with.
    Number,
    /// The item of a list with this index.
    Item(u32),
    /// An instruction.
    Instruction,
    /// A group of locals.
    LocalGroup,
    /// The list of groups of locals.
    Locals,
    /// A code body.
    Code,
}

/// A slice that was rewritten.
#[derive(Drop)]
pub struct Finished<'a> {
    /// The slice.
    pub bytes: &'a mut [u8],
    /// Number of bytes that were written to its start.
    pub len: usize,
}

/// A slice of bytes, rewritten in place from its start on.
///
/// The list consists of the written bytes, a gap, a run of bytes that stay as they are, and the bytes left. The run
/// moves down to the written bytes only if something after it gets shorter.
#[derive(Drop)]
pub struct Rewriter<'a> {
    bytes: &'a mut [u8],
    written: usize,
    from: usize,
    position: usize,
    end: usize,
    minimal: bool,
    /// Number of bytes from the size of the innermost body up to the end of the input. `None` outside of bodies.
    body: Option<usize>,
    /// One more than the offset of the first bytes that weren't minimally encoded. 0 means that there are none.
    first_longer: usize,
    /// The first part that isn't minimally encoded.
    longer: Option<Malformed>,
    /// Whether this part is one of a code body.
    in_code: bool,
}

impl<'a> Model for Rewriter<'a> {
    ghost use Rattle.std.specs.Prelude.{◌≤◌, length};
    ghost use Rattle.wasm_codec.specs.Rewriter.{Rewriting, seen};

    ghost Value = { Rewriting };

    ghost view = { λ r. seen r.bytes.now r.written r.from r.position r.end r.minimal r.bytes.ghost_name };

    ghost invariant = { λ r. (r.written ≤ r.from) × (r.from ≤ r.position) × (r.position ≤ r.end) × (r.end ≤ length r.bytes.now) };
}

impl<'a> Rewriter<'a> {
    /// Returns a rewriter at the start of the bytes.
    pub fn new(bytes: &'a mut [u8]) -> Rewriter<'a>
        ensures { result ≡ rewriting [] (place true bytes.old) (rest_of [] bytes.entry.ghost_name) }
    {
        let end = bytes.len();
        Rewriter {
            bytes,
            written: 0,
            from: 0,
            position: 0,
            end,
            minimal: true,
            body: None,
            first_longer: 0,
            longer: None,
            in_code: false,
        }
    }

    /// Returns the slice, and the number of bytes that were written to its start.
    pub fn finish(self) -> Finished<'a>
        ensures same_reference { result.bytes.ghost_name ≡ self.entry.rest.name }
        ensures within { result.len ≤ length result.bytes.now }
        ensures done { take result.len result.bytes.now ≡ self.entry.done }
    {
        let Rewriter {
            bytes,
            written,
            from,
            position,
            end: _,
            minimal: _,
            body: _,
            first_longer: _,
            longer: _,
            in_code: _,
        } = self;
        let len = move_run(bytes, written, from, position);
        Finished { bytes, len }
    }

    /// Returns the number of bytes left up to the end.
    #[inline(always)]
    pub fn len(&self) -> usize
        ensures { result ≡ length self.now.place.left }
    {
        self.end - self.position
    }

    /// Returns the number of bytes up to the end of the input: those left and those behind the body.
    pub fn to_end(&self) -> usize {
        self.bytes.len() - self.position
    }

    /// Returns the number of bytes from the size of the innermost body up to the end of the input. `None` outside of bodies.
    pub fn body_start(&self) -> Option<usize> {
        self.body
    }

    /// Returns the fault at the next byte, for this reason.
    #[cold]
    pub fn malformed(&self, reason: Reason) -> Malformed
        ensures item { result.item ≡ None }
    {
        Malformed::new(reason, self.to_end()).in_body(self.body)
    }

    /// Returns the fault that the bytes end before or inside this part.
    #[cold]
    pub fn ends_in(&self, construct: Construct) -> Malformed {
        let reason = Reason::UnexpectedEnd { construct };
        Malformed::new(reason, self.bytes.len() - self.end).in_body(self.body)
    }

    /// Returns the fault that the byte just read isn't this part.
    #[cold]
    pub fn invalid(&self, construct: Construct, byte: u8) -> Malformed {
        let reason = Reason::InvalidByte { construct, byte };
        Malformed::new(reason, self.to_end().wrapping_add(1))
    }

    /// Returns the fault that bytes follow after the last part.
    #[cold]
    pub fn trailing(&self) -> Malformed
        ensures item { result.item ≡ None }
    {
        self.malformed(Reason::TrailingBytes { count: self.len() })
    }

    /// Returns the first part that isn't minimally encoded, and where it begins. `None` means that there is none.
    pub fn longer(&self) -> Option<Malformed> {
        self.longer
    }

    /// Returns the start of the part that comes next.
    #[inline(always)]
    pub fn start(&self) -> Start {
        Start {
            position: self.position,
        }
    }

    /// Ends a part. If it is the first that isn't minimally encoded, its place is kept.
    #[inline(always)]
    pub fn end_part(&mut self, start: &Start, part: Part)
        ensures { self.new ≡ self.old }
    {
        if start.position < self.first_longer {
            self.keep_place(start, part);
        }
    }

    /// Keeps the place of the first part that isn't minimally encoded. An outer part replaces an inner one, except in code.
    #[cold]
    #[inline(never)]
    fn keep_place(&mut self, start: &Start, part: Part)
        ensures { self.new ≡ self.old }
    {
        let longer = self.longer_part(start, part);
        self.longer = Some(longer);
        if let Part::LocalGroup | Part::Code = part {
            self.in_code = true;
        }
    }

    /// Returns the place of a part that isn't minimally encoded, or that of the part of it which is named.
    ///
    /// As much was written before the part as was read, because all of it was minimally encoded.
    fn longer_part(&self, start: &Start, part: Part) -> Malformed {
        let reason = Reason::NotMinimal {
            bytes: self.position.saturating_sub(start.position),
            minimal: self.written_len().saturating_sub(start.position),
        };
        let left = self.bytes.len().saturating_sub(start.position);
        let whole = Malformed::new(reason, left);
        let inner = self.longer.unwrap_or(whole);
        match part {
            Part::Number => whole,
            Part::Item(index) if self.in_code => inner.in_item(index),
            Part::Item(index) => whole.in_item(index),
            Part::Instruction => whole.in_instruction(left),
            Part::LocalGroup if self.longer.is_some() => inner,
            Part::LocalGroup => Malformed::new(Reason::LongForm, left),
            Part::Locals => inner.in_locals(),
            Part::Code => inner,
        }
    }

    /// Tells the proof that each item left is a byte. The call does nothing.
    #[inline(always)]
    pub fn are_bytes(&self)
        ensures { IsBytes self.now.place.left }
    {
        let _place = self.cursor();
    }

    /// Returns the bytes left up to the end.
    #[inline(always)]
    pub fn left(&self) -> &[u8]
        ensures { result.now ≡ self.now.place.left }
    {
        &self.bytes[self.position..self.end]
    }

    /// Returns a cursor over the bytes left.
    #[inline(always)]
    pub fn cursor(&self) -> Cursor<'_>
        ensures place { result ≡ place true self.now.place.left }
        ensures bytes { IsBytes self.now.place.left }
    {
        place_of(&self.bytes[self.position..self.end]).within(
            self.bytes.len() - self.end,
            self.body,
        )
    }

    /// Skips `count` bytes, which stay as they are.
    #[inline(always)]
    pub fn skip(&mut self, count: usize)
        requires { count ≤ length self.old.place.left }
        ensures { self.new ≡ skipped count self.old }
    {
        self.position += count;
    }

    /// Replaces a scanned item by its minimal encoding.
    #[inline(always)]
    pub fn rewrite_scanned(&mut self, scanned: Scanned)
        requires { IsWithin scanned (length self.old.place.left) }
        ensures { RewritesScanned scanned self.old self.new }
    {
        match scanned {
            Scanned::Minimal(count) => self.skip(count),
            Scanned::Padded {
                signed,
                start,
                more,
            } => {
                let kept = kept_digits(&self.left()[start..], signed, more);
                if self.minimal {
                    self.shorten_first(start + kept, start + more + 1);
                } else {
                    self.shorten_more(start + kept, start + more + 1);
                }
            }
        }
    }

    /// Shortens the next `count` bytes to the first `kept` of them, and clears the high bit of the last.
    #[inline(always)]
    fn shorten(&mut self, kept: usize, count: usize)
        requires some { 0 < kept }
        requires shorter { kept ≤ count }
        requires within { count ≤ length self.old.place.left }
        ensures { self.new ≡ shortened kept count self.old }
    {
        self.note_first(self.position);
        self.shorten_more(kept, count);
    }

    /// Shortens the next bytes as `shorten` does, and keeps their place: they are the first instruction, or the first item
    /// of a list, that isn't minimally encoded.
    #[cold]
    #[inline(never)]
    fn shorten_first(&mut self, kept: usize, count: usize)
        requires some { 0 < kept }
        requires shorter { kept ≤ count }
        requires within { count ≤ length self.old.place.left }
        ensures { self.new ≡ shortened kept count self.old }
    {
        let start = self.start();
        self.note_first(start.position);
        self.shorten_more(kept, count);
        self.keep_place(&start, Part::Instruction);
    }

    /// Records that the bytes at this offset aren't minimally encoded, if no others were.
    #[inline(always)]
    fn note_first(&mut self, offset: usize)
        ensures { self.new ≡ self.old }
    {
        if self.first_longer == 0 {
            self.first_longer = offset.saturating_add(1);
        }
    }

    /// Shortens the next bytes as `shorten` does. Keeps no place.
    #[inline(always)]
    fn shorten_more(&mut self, kept: usize, count: usize)
        requires some { 0 < kept }
        requires shorter { kept ≤ count }
        requires within { count ≤ length self.old.place.left }
        ensures { self.new ≡ shortened kept count self.old }
    {
        let next = self.position + count;
        let run_end = self.position + kept;
        self.written = move_run(self.bytes, self.written, self.from, run_end);
        let last = self.written - 1;
        self.bytes[last] %= 128;
        self.from = next;
        self.position = next;
        self.minimal = false;
    }

    /// Returns the number of bytes written.
    #[inline(always)]
    pub fn written_len(&self) -> usize
        ensures { result ≡ length self.now.done }
    {
        self.written + (self.position - self.from)
    }

    /// Removes `count` written bytes at offset `mark`, which a minimal encoding doesn't have.
    pub fn cut_out(&mut self, mark: usize, count: usize)
        requires { mark + count ≤ length self.old.done }
        ensures { self.new ≡ without mark count self.old }
    {
        self.note_first(mark);
        self.remove(mark, count);
    }

    /// Removes written bytes as `cut_out` does. Keeps no place.
    fn remove(&mut self, mark: usize, count: usize)
        requires { mark + count ≤ length self.old.done }
        ensures { self.new ≡ without mark count self.old }
    {
        let end = move_run(self.bytes, self.written, self.from, self.position);
        self.bytes.copy_within(mark + count..end, mark);
        self.written = end - count;
        self.from = self.position;
        self.minimal = false;
    }

    /// Overwrites the byte that was written at offset `mark`.
    pub fn set_byte(&mut self, mark: usize, byte: u8)
        requires { mark < length self.old.done }
        ensures { self.new ≡ with_byte mark byte self.old }
    {
        self.written = move_run(self.bytes, self.written, self.from, self.position);
        self.bytes[mark] = byte;
        self.from = self.position;
    }

    /// Limits the bytes left to the first `size` of them.
    fn limit(&mut self, size: usize)
        requires { size ≤ length self.old.place.left }
        ensures { self.new ≡ limited size self.old }
    {
        self.end = self.position + size;
    }

    /// Continues with the `size` bytes after the end. No byte may be left.
    fn widen(&mut self, size: usize)
        requires none { self.old.place.left ≡ [] }
        requires within { size ≤ length self.old.rest.bytes }
        ensures { self.new ≡ widened size self.old }
    {
        self.end += size;
    }

    /// Replaces the size at offset `mark` by the number of bytes written after it, in at most as many bytes.
    fn put_size(&mut self, mark: usize, digits: usize)
        requires begun { mark + digits ≤ length self.old.done }
        requires size { length self.old.done - (mark + digits) < 2 ^ 32 }
        requires fits { length (unsigned_leb128 (length self.old.done - (mark + digits))) ≤ digits }
        ensures { self.new ≡ resized mark digits self.old }
    {
        let end = move_run(self.bytes, self.written, self.from, self.position);
        self.written = write_size(self.bytes, mark, mark + digits, end);
        self.from = self.position;
    }

    /// Reads the size of a body, and continues within the body. Fails with `Malformed` if the size exceeds the bytes
    /// left.
    #[tactic(auto, using(crate::proofs::BodyRewriting::opened))]
    pub fn open_body(&mut self) -> Result<Body, Fault>
        ensures { OpensBody self.old self.new result }
    {
        let start = self.to_end();
        let mark = self.written_len();
        let size = self.u32()?;
        let len = self.len();
        if len < size as usize {
            let reason = Reason::SizeTooLarge { size, left: len };
            return Err(Fault::Malformed(Malformed::new(reason, start).in_body(self.body)));
        }
        self.limit(size as usize);
        let around = self.body;
        self.body = Some(start);
        Ok(Body {
            mark,
            size,
            behind: len - size as usize,
            around,
        })
    }

    /// Continues after a body that was rewritten, and corrects its size if the body got shorter.
    pub fn close_body(&mut self, body: Body)
        requires none { self.old.place.left ≡ [] }
        requires behind { body.behind ≤ length self.old.rest.bytes }
        requires begun { body.mark + length (unsigned_leb128 body.size) ≤ length self.old.done }
        requires sized { take (length (unsigned_leb128 body.size)) (drop body.mark self.old.done) ≡ unsigned_leb128 body.size }
        requires shorter { length self.old.done - (body.mark + length (unsigned_leb128 body.size)) ≤ body.size }
        ensures { self.new ≡ widened body.behind (resized body.mark (length (unsigned_leb128 body.size)) self.old) }
    {
        let digits = u32_len(body.size);
        if self.written_len() - (body.mark + digits) < body.size as usize {
            self.put_size(body.mark, digits);
        }
        self.widen(body.behind);
        self.leave_body(body.around);
    }

    /// Records the body around the one that was left.
    fn leave_body(&mut self, around: Option<usize>)
        ensures { self.new ≡ self.old }
    {
        self.body = around;
    }

    /// Rewrites a u32 and returns it (Core 3.0, Integers).
    #[inline(always)]
    pub fn u32(&mut self) -> Result<u32, Fault>
        ensures { Gives u32_format self.old self.new result }
    {
        let mut cursor = self.cursor();
        let value = cursor.u32()?;
        let (minimal, left) = (cursor.is_minimal(), cursor.len());
        if minimal {
            self.skip(self.len() - left);
        } else {
            self.shorten(unsigned_digit_count(u64::from(value)), self.len() - left);
        }
        Ok(value)
    }

    /// Rewrites a u64 and returns it (Core 3.0, Integers).
    pub fn u64(&mut self) -> Result<u64, Fault>
        ensures { Gives u64_format self.old self.new result }
    {
        let mut cursor = self.cursor();
        let value = cursor.u64()?;
        let (minimal, left) = (cursor.is_minimal(), cursor.len());
        if minimal {
            self.skip(self.len() - left);
        } else {
            self.shorten(unsigned_digit_count(value), self.len() - left);
        }
        Ok(value)
    }

    /// Rewrites an s32 and returns it (Core 3.0, Integers).
    pub fn s32(&mut self) -> Result<i32, Fault>
        ensures { Gives s32_format self.old self.new result }
    {
        let mut cursor = self.cursor();
        let value = cursor.s32()?;
        let (minimal, left) = (cursor.is_minimal(), cursor.len());
        if minimal {
            self.skip(self.len() - left);
        } else {
            self.shorten(s32_digit_count(value), self.len() - left);
        }
        Ok(value)
    }

    /// Rewrites an s64 and returns it (Core 3.0, Integers).
    pub fn s64(&mut self) -> Result<i64, Fault>
        ensures { Gives s64_format self.old self.new result }
    {
        let mut cursor = self.cursor();
        let value = cursor.s64()?;
        let (minimal, left) = (cursor.is_minimal(), cursor.len());
        if minimal {
            self.skip(self.len() - left);
        } else {
            self.shorten(signed_digit_count(value), self.len() - left);
        }
        Ok(value)
    }

    /// Rewrites a type index, encoded as a non-negative s33, and returns it (Core 3.0, Heap Types).
    pub fn index(&mut self) -> Result<u32, Fault>
        ensures { Gives index_format self.old self.new result }
    {
        let mut cursor = self.cursor();
        let value = cursor.index()?;
        let (minimal, left) = (cursor.is_minimal(), cursor.len());
        if minimal {
            self.skip(self.len() - left);
        } else {
            self.shorten(index_digit_count(value), self.len() - left);
        }
        Ok(value)
    }

    /// Reads one byte, which stays as it is.
    #[inline(always)]
    pub fn byte(&mut self) -> Result<u8, Fault>
        ensures { Gives a_byte self.old self.new result }
    {
        self.byte_of(Construct::Byte)
    }

    /// Reads the first byte of a part, which stays as it is. Fails with `Malformed` at the end of the bytes.
    #[inline(always)]
    pub fn byte_of(&mut self, construct: Construct) -> Result<u8, Fault>
        ensures { Gives a_byte self.old self.new result }
    {
        if self.position == self.end {
            return Err(Fault::Malformed(self.ends_in(construct)));
        }
        let byte = self.bytes[self.position];
        self.position += 1;
        Ok(byte)
    }

    /// Skips `count` bytes, which stay as they are. Fails with `Malformed` if fewer are left.
    #[tactic(auto, unfolding(crate::specs::Places::raw_at))]
    pub fn bytes(&mut self, count: usize) -> Result<(), Fault>
        ensures { Rewrites (raw count) self.old self.new result }
    {
        if self.len() < count {
            return Err(Fault::Malformed(self.ends_in(Construct::Constant)));
        }
        self.skip(count);
        Ok(())
    }

    /// Skips all bytes left, which stay as they are.
    pub fn rest(&mut self)
        ensures { rewriting_after bytes_to_end self.old ≡ Some self.new }
    {
        self.skip(self.len());
    }

    /// Skips a little-endian number of `count` bytes. Fails with `Malformed` if fewer are left.
    #[tactic(auto, using(crate::proofs::RawRewriting::number_stays, crate::proofs::RawRewriting::no_number))]
    pub fn number(&mut self, count: usize) -> Result<(), Fault>
        ensures { Rewrites (little_endian count) self.old self.new result }
    {
        self.are_bytes();
        if self.len() < count {
            return Err(Fault::Malformed(self.ends_in(Construct::Constant)));
        }
        self.skip(count);
        Ok(())
    }

    /// Returns the next byte, the first of this part, and doesn't move. Fails with `Malformed` at the end of the bytes.
    #[inline(always)]
    pub fn peek(&self, construct: Construct) -> Result<u8, Fault>
        ensures sees { Sees self.now.place result }
        ensures err { IfErr result IsMalformed }
    {
        if self.position == self.end {
            return Err(Fault::Malformed(self.ends_in(construct)));
        }
        Ok(self.bytes[self.position])
    }
}

/// Moves the run to the end of the written bytes. Returns the offset of its new end.
#[inline(always)]
fn move_run(bytes: &mut [u8], written: usize, from: usize, position: usize) -> usize
    requires gap { written ≤ from }
    requires run { from ≤ position }
    requires within { position ≤ length bytes.old }
    ensures end { result ≡ written + (position - from) }
    ensures done { take result bytes.new ≡ done_of bytes.old written from position }
    ensures left { drop position bytes.new ≡ drop position bytes.old }
    ensures len { length bytes.new ≡ length bytes.old }
{
    move_down(bytes, from, position, written);
    written + (position - from)
}

/// Moves the bytes from `start` up to `end` down to `dest`, unless they are there already.
#[cold]
#[inline(never)]
#[tactic(auto, using(crate::proofs::Windows::already_there))]
fn move_down(bytes: &mut [u8], start: usize, end: usize, dest: usize)
    requires down { dest ≤ start }
    requires order { start ≤ end }
    requires within { end ≤ length bytes.old }
    ensures items { bytes.new ≡ paste bytes.old dest (drop start bytes.old) (end - start) }
    ensures len { length bytes.new ≡ length bytes.old }
{
    if dest < start {
        bytes.copy_within(start..end, dest);
    }
}

/// Tells the proof that each item of a slice of `u8` is a byte. The call does nothing.
#[inline(always)]
pub fn are_bytes(bytes: &[u8])
    ensures { IsBytes bytes.now }
{
    let _place = place_of(bytes);
}

/// Returns a cursor at the start of the bytes.
#[inline(always)]
fn place_of(bytes: &[u8]) -> Cursor<'_>
    ensures place { result ≡ place true bytes.now }
    ensures bytes { IsBytes bytes.now }
{
    Cursor::at(bytes, 0, true)
}

/// Returns the number of digits in a minimal encoding whose last digit represents a number below `top`.
pub fn digit_count(top: u64, number: u64) -> usize
    requires { 0 < top }
    ensures count { (turn : Bool) → result ≡ length (digits_of turn top 9 number) }
    ensures some { 0 < result }
{
    let mut rest = number;
    for count in 1..10 {
        if rest < top {
            return count;
        }
        rest /= 128;
    }
    10
}

/// Returns the number of digits in the minimal encoding of an unsigned number.
#[tactic(auto, unfolding(crate::specs::Leb128::unsigned_leb128))]
fn unsigned_digit_count(number: u64) -> usize
    ensures count { result ≡ length (unsigned_leb128 number) }
    ensures some { 0 < result }
{
    digit_count(128, number)
}

/// Returns the number of digits in the minimal encoding of a signed number.
#[tactic(auto, unfolding(crate::specs::Leb128::signed_leb128))]
fn signed_digit_count(number: i64) -> usize
    ensures count { result ≡ length (signed_leb128 number) }
    ensures some { 0 < result }
{
    if number < 0 {
        digit_count(64, (-1 - number) as u64)
    } else {
        digit_count(64, number as u64)
    }
}

/// Returns the number of digits in the minimal encoding of an s32.
fn s32_digit_count(number: i32) -> usize
    ensures count { result ≡ length (signed_leb128 number) }
    ensures some { 0 < result }
{
    signed_digit_count(i64::from(number))
}

/// Returns the number of digits in the minimal encoding of a type index.
fn index_digit_count(index: u32) -> usize
    ensures count { result ≡ length (signed_leb128 (pos index)) }
    ensures some { 0 < result }
{
    signed_digit_count(i64::from(index))
}

/// Writes the number of bytes from `begin` up to `end` at `start`, and moves those bytes down to it.
///
/// The number fits before `begin`. Returns the offset of the new end.
fn write_size(bytes: &mut [u8], start: usize, begin: usize, end: usize) -> usize
    requires start { start ≤ begin }
    requires begin { begin ≤ end }
    requires end { end ≤ length bytes.old }
    requires size { end - begin < 2 ^ 32 }
    requires fits { start + length (unsigned_leb128 (end - begin)) ≤ begin }
    ensures end { result ≡ start + (length (unsigned_leb128 (end - begin)) + (end - begin)) }
    ensures done { take result bytes.new ≡ take start bytes.old ++ (unsigned_leb128 (end - begin) ++ take (end - begin) (drop begin bytes.old)) }
    ensures left { drop end bytes.new ≡ drop end bytes.old }
    ensures len { length bytes.new ≡ length bytes.old }
{
    let digits = start + overwrite(bytes, start, (end - begin) as u32);
    move_run(bytes, digits, begin, end)
}

/// Writes the minimal encoding of a number over the bytes at `start`. Returns its length in bytes.
fn overwrite(bytes: &mut [u8], start: usize, number: u32) -> usize
    requires { start + length (unsigned_leb128 number) ≤ length bytes.old }
    ensures digits { result ≡ length (unsigned_leb128 number) }
    ensures items { bytes.new ≡ take start bytes.old ++ (unsigned_leb128 number ++ drop (start + result) bytes.old) }
{
    let digits = u32_len(number);
    write_u32(&mut bytes[start..start + digits], number);
    digits
}
