//! `Cursor`, a position in bytes from which values are read.
ghost use Rattle.std.specs.Prelude.{◌≡◌, ◌^◌, ◌<◌, ◌≤◌, ◌&&◌, ◌-◌, ◌*◌, Some, None, IfSome, IsNone, IfOk, IfErr, length, take, drop, true, false, pos, negsuc};
ghost use Rattle.wasm_codec.specs.formats.Grammar.{IsBytes};
ghost use Rattle.wasm_codec.specs.formats.Numbers.{signed};
ghost use Rattle.wasm_codec.specs.Leb128.{signed_leb128};
ghost use Rattle.wasm_codec.specs.Reading.{map_ok};
ghost use Rattle.wasm_codec.specs.Places.{Place, place, Reads, Sees, byte_at, number_at, u32_at, u64_at, s32_at, s64_at, index_at};
ghost use Rattle.wasm_codec.specs.formats.Bodies.{body_at};
ghost use Rattle.wasm_codec.specs.ReadDigits.{ReadsDigits, ReadsManyDigits, ReadsOne, fewest};
ghost use Rattle.wasm_codec.specs.Outcomes.{IsMalformed, NamesItem};
ghost use Rattle.wasm_codec.specs.declared.reader.cursor.Fault.TheVariants.{Memory};

use crate::reader::malformed::{Construct, Malformed, Reason};
use std::alloc::{AllocError, AllocFailed};
use std::marker::Model;

/// Reason why nothing was read.
#[derive(Clone, Copy, Debug, PartialEq, Eq)]
pub enum Fault {
    /// An allocation failed.
    Memory,
    /// The bytes at the cursor don't encode what was to be read.
    Malformed(Malformed),
}

impl From<AllocError> for Fault {
    ghost from_gives = { λ _ fault. fault ≡ Memory };

    fn from(_error: AllocError) -> Fault {
        Fault::Memory
    }
}

impl<T: Drop> From<AllocFailed<T>> for Fault {
    ghost from_gives = { λ _ fault. fault ≡ Memory };

    fn from(_error: AllocFailed<T>) -> Fault {
        Fault::Memory
    }
}

/// A position in bytes. It also records whether everything read so far was minimally encoded.
///
/// After an error the position is unspecified: `fork` the cursor first if you need it again.
///
/// # Examples
///
/// ```
/// # use wasm_encoder::{Cursor, Fault};
/// let mut cursor = Cursor::new(b"\x7f\xc2\x80\x00");
/// assert_eq!(rt; cursor.s32(), Ok(-1));
/// assert!(rt; cursor.is_minimal());
/// assert_eq!(rt; cursor.u32(), Ok(66)); // padded
/// assert!(rt; !cursor.is_minimal());
/// assert!(rt; matches!(cursor.byte(), Err(Fault::Malformed(_))));
/// ```
#[derive(Drop)]
pub struct Cursor<'a> {
    bytes: &'a [u8],
    position: usize,
    minimal: bool,
    /// Number of bytes after these: those behind the body, if these are one.
    behind: usize,
    /// Number of bytes from the size of the body up to the end of the input, if these are one.
    body: Option<usize>,
}

impl<'a> Model for Cursor<'a> {
    ghost use Rattle.std.specs.Prelude.{◌≤◌, length, drop};
    ghost use Rattle.wasm_codec.specs.Places.{Place, place};

    ghost Value = { Place };

    ghost view = { λ c. place c.minimal (drop c.position c.bytes.now) };

    ghost invariant = { λ c. c.position ≤ length c.bytes.now };
}

/// At most five digits of a number: the sum of their low seven bits, 128 to the power of their number, and the last
/// byte.
#[derive(Clone, Copy)]
struct Digits {
    unsigned: u64,
    unit: u64,
    last: u8,
}

/// At most ten digits of a number, in the same form.
#[derive(Clone, Copy)]
struct ManyDigits {
    unsigned: u128,
    unit: u128,
    last: u8,
}

/// Checks whether a number of at most five digits has no encoding with fewer digits.
fn is_fewest(top: u64, unit: u64, value: u64) -> bool
    requires top { top ≤ 128 }
    requires unit { unit ≤ 128 ^ 5 }
    requires value { value ≤ 128 ^ 5 }
    ensures { result ≡ fewest top unit value }
{
    unit == 128 || top * unit <= value * 16384
}

/// Checks whether a number of at most ten digits has no encoding with fewer digits.
fn is_fewest_of_many(top: u128, unit: u128, value: u128) -> bool
    requires top { top ≤ 128 }
    requires unit { unit ≤ 128 ^ 10 }
    requires value { value ≤ 128 ^ 10 }
    ensures { result ≡ fewest top unit value }
{
    unit == 128 || top * unit <= value * 16384
}

/// Returns the fault that the number with `left` bytes up to the end is out of range.
#[cold]
fn out_of_range(construct: Construct, left: usize) -> Malformed
    ensures item { result.item ≡ None }
{
    Malformed::new(Reason::NumberOutOfRange { construct }, left)
}

impl<'a> Cursor<'a> {
    /// Returns a cursor at the start of the bytes.
    pub fn new(bytes: &'a [u8]) -> Cursor<'a>
        ensures { result ≡ place true bytes.now }
    {
        Cursor {
            bytes,
            position: 0,
            minimal: true,
            behind: 0,
            body: None,
        }
    }

    /// Returns the number of bytes left.
    #[inline(always)]
    pub fn len(&self) -> usize
        ensures { result ≡ length self.now.left }
    {
        self.bytes.len() - self.position
    }

    /// Checks whether everything read since the start was minimally encoded.
    pub fn is_minimal(&self) -> bool
        ensures { result ≡ self.now.minimal }
    {
        self.minimal
    }

    /// Records that a form was read that isn't minimal.
    pub fn note_long_form(&mut self)
        ensures { self.new ≡ place false self.old.left }
    {
        self.minimal = false;
    }

    /// Returns a second cursor at the same position, to come back to.
    pub fn fork(&self) -> Cursor<'a>
        ensures place { result ≡ self.now }
        ensures bytes { IsBytes self.now.left }
    {
        Cursor::at(self.bytes, self.position, self.minimal).within(self.behind, self.body)
    }

    /// Tells the proof that each item left is a byte. The call does nothing.
    #[inline(always)]
    pub fn are_bytes(&self)
        ensures { IsBytes self.now.left }
    {
        let _place = self.fork();
    }

    /// Returns a cursor after the first `position` bytes.
    pub(crate) fn at(bytes: &'a [u8], position: usize, minimal: bool) -> Cursor<'a>
        requires { position ≤ length bytes.now }
        ensures place { result ≡ place minimal (drop position bytes.now) }
        ensures bytes { IsBytes (drop position bytes.now) }
    {
        Cursor {
            bytes,
            position,
            minimal,
            behind: 0,
            body: None,
        }
    }

    /// Returns the same cursor, whose bytes have `behind` more bytes of the input after them, and are the body whose size
    /// begins with `body` bytes up to the end of the input.
    #[inline(always)]
    pub(crate) fn within(self, behind: usize, body: Option<usize>) -> Cursor<'a>
        ensures { result ≡ self.entry }
    {
        Cursor {
            behind,
            body,
            ..self
        }
    }

    /// Returns the number of bytes up to the end of the input: those left and those behind the body.
    pub fn to_end(&self) -> usize {
        self.len().wrapping_add(self.behind)
    }

    /// Returns the fault at the next byte, for this reason.
    #[cold]
    pub fn malformed(&self, reason: Reason) -> Malformed
        ensures item { result.item ≡ None }
    {
        Malformed::new(reason, self.to_end()).in_body(self.body)
    }

    /// Returns the fault that the bytes end before or inside this part.
    #[cold]
    pub fn ends_in(&self, construct: Construct) -> Malformed
        ensures item { result.item ≡ None }
    {
        Malformed::new(Reason::UnexpectedEnd { construct }, self.behind).in_body(self.body)
    }

    /// Returns the fault that the byte just read isn't this part.
    #[cold]
    pub fn invalid(&self, construct: Construct, byte: u8) -> Malformed {
        let reason = Reason::InvalidByte { construct, byte };
        Malformed::new(reason, self.to_end().wrapping_add(1))
    }

    /// Returns the fault that bytes follow after the last part.
    #[cold]
    pub fn trailing(&self) -> Malformed
        ensures item { result.item ≡ None }
    {
        self.malformed(Reason::TrailingBytes { count: self.len() })
    }

    /// Reads one byte. Fails with `Malformed` at the end of the bytes.
    #[inline(always)]
    pub fn byte(&mut self) -> Result<u8, Fault>
        ensures reads { Reads byte_at self.old self.new result }
        ensures err { IfErr result IsMalformed }
    {
        self.byte_of(Construct::Byte)
    }

    /// Reads the first byte of a part. Fails with `Malformed` at the end of the bytes.
    #[inline(always)]
    #[tactic(auto, unfolding(crate::specs::Places::byte_at))]
    pub fn byte_of(&mut self, construct: Construct) -> Result<u8, Fault>
        ensures reads { Reads byte_at self.old self.new result }
        ensures err { IfErr result IsMalformed }
        ensures item { NamesItem None result }
    {
        if self.position == self.bytes.len() {
            return Err(Fault::Malformed(self.ends_in(construct)));
        }
        let byte = self.bytes[self.position];
        self.position += 1;
        Ok(byte)
    }

    /// Returns the next byte, the first of this part, and doesn't move. Fails with `Malformed` at the end of the bytes.
    #[inline(always)]
    #[tactic(auto, unfolding(crate::specs::Places::byte_at))]
    pub fn peek(&self, construct: Construct) -> Result<u8, Fault>
        ensures sees { Sees self.now result }
        ensures err { IfErr result IsMalformed }
    {
        if self.position == self.bytes.len() {
            return Err(Fault::Malformed(self.ends_in(construct)));
        }
        Ok(self.bytes[self.position])
    }

    /// Reads `count` bytes. Fails with `Malformed` if fewer are left: the bytes end in this part.
    pub fn take(&mut self, count: usize, construct: Construct) -> Result<&'a [u8], Fault>
        ensures ok { IfOk result (λ taken. (taken.now ≡ take count self.old.left) × (self.new ≡ place self.old.minimal (drop count self.old.left))) }
        ensures enough { IfOk result (λ _. count ≤ length self.old.left) }
        ensures err { IfErr result (λ e. IsMalformed e × (length self.old.left < count)) }
        ensures item { NamesItem None result }
    {
        if self.bytes.len() - self.position < count {
            return Err(Fault::Malformed(self.ends_in(construct)));
        }
        let end = self.position + count;
        let taken = &self.bytes[self.position..end];
        self.position = end;
        Ok(taken)
    }

    /// Reads the `size` bytes after a size that begins with `start` bytes up to the end. Fails with `Malformed` if fewer
    /// are left.
    pub fn take_sized(&mut self, size: u32, start: usize) -> Result<&'a [u8], Fault>
        ensures ok { IfOk result (λ taken. (taken.now ≡ take size self.old.left) × (self.new ≡ place self.old.minimal (drop size self.old.left))) }
        ensures enough { IfOk result (λ _. size ≤ length self.old.left) }
        ensures err { IfErr result (λ e. IsMalformed e × (length self.old.left < size)) }
        ensures item { NamesItem None result }
    {
        let left = self.len();
        if left < size as usize {
            let reason = Reason::SizeTooLarge { size, left };
            return Err(Fault::Malformed(Malformed::new(reason, start).in_body(self.body)));
        }
        self.take(size as usize, Construct::Body)
    }

    /// Reads a size and returns a cursor over that many bytes, which it skips.
    ///
    /// The new cursor starts with this cursor's record of minimal encodings; hand its record back by `set_minimal`.
    /// Fails with `Malformed` if the size is malformed or exceeds the bytes left.
    pub fn body(&mut self) -> Result<Cursor<'a>, Fault>
        ensures reads { Reads body_at self.old self.new (map_ok (λ body. body.left) result) }
        ensures tells { IfOk result (λ body. body ≡ place self.new.minimal body.left) }
        ensures bytes { IfOk result (λ body. IsBytes body.left) }
        ensures counted { IfOk result (λ body. length body.left < 2 ^ 32) }
        ensures err { IfErr result IsMalformed }
        ensures item { NamesItem None result }
    {
        let start = self.to_end();
        let size = self.u32()?;
        let bytes = self.take_sized(size, start)?;
        Ok(Cursor::at(bytes, 0, self.minimal).within(self.to_end(), Some(start)))
    }

    /// Sets whether everything read so far was minimally encoded: by the cursor of a body, once that body was read.
    pub fn set_minimal(&mut self, minimal: bool)
        ensures { self.new ≡ place minimal self.old.left }
    {
        self.minimal = minimal;
    }

    /// Records whether what was just read was minimally encoded.
    fn keep(&mut self, kept: bool)
        ensures { self.new ≡ place (self.old.minimal && kept) self.old.left }
    {
        self.minimal = self.minimal && kept;
    }

    /// Reads a number of one byte. Returns `None` if the next number has more bytes.
    #[inline(always)]
    fn one_digit(&mut self) -> Option<u8>
        ensures { ReadsOne self.old self.new result }
    {
        if self.position == self.bytes.len() {
            return None;
        }
        let byte = self.bytes[self.position];
        if byte >= 128 {
            return None;
        }
        self.position += 1;
        Some(byte)
    }

    /// Reads one byte. Returns `None` at the end of the bytes.
    #[inline(always)]
    #[tactic(auto, unfolding(crate::specs::Places::byte_at))]
    pub fn next_byte(&mut self) -> Option<u8>
        ensures { IfSome result (λ byte. byte_at self.old ≡ Some (byte, self.new)) }
    {
        if self.position == self.bytes.len() {
            return None;
        }
        let byte = self.bytes[self.position];
        self.position += 1;
        Some(byte)
    }

    /// Reads a u32 of one or two bytes. Returns `None` if the next number is longer or cut off: then the position is
    /// unspecified.
    #[inline(always)]
    pub fn short_u32(&mut self) -> Option<u32>
        ensures { IfSome result (λ number. u32_at self.old ≡ Some (number, self.new)) }
    {
        let first = self.next_byte()?;
        if first < 128 {
            return Some(u32::from(first));
        }
        let last = self.next_byte()?;
        if last >= 128 {
            return None;
        }
        let number = u32::from(first % 128) + u32::from(last) * 128;
        self.keep(is_fewest(128, 16384, u64::from(number)));
        Some(number)
    }

    /// Reads a size of one or two bytes, and that many bytes. Returns `None` if the size is longer or exceeds the bytes
    /// left: then the position is unspecified.
    #[inline(always)]
    pub fn short_sized(&mut self) -> Option<&'a [u8]>
        ensures { IfSome result (λ bytes. body_at self.old ≡ Some (bytes.now, self.new)) }
    {
        let size = self.short_u32()? as usize;
        if self.bytes.len() - self.position < size {
            return None;
        }
        let end = self.position + size;
        let bytes = &self.bytes[self.position..end];
        self.position = end;
        Some(bytes)
    }

    /// Reads a size of one or two bytes and returns a cursor over that many bytes, which it skips, as `body` does. Returns
    /// `None` if the size is longer or exceeds the bytes left: then the position is unspecified.
    #[inline(always)]
    pub fn short_body(&mut self) -> Option<Cursor<'a>>
        ensures reads { IfSome result (λ body. body_at self.old ≡ Some (body.left, self.new)) }
        ensures tells { IfSome result (λ body. body ≡ place self.new.minimal body.left) }
    {
        let start = self.to_end();
        let bytes = self.short_sized()?;
        Some(Cursor::at(bytes, 0, self.minimal).within(self.to_end(), Some(start)))
    }

    /// Reads a u64 of one byte. Returns `None` and doesn't move if the next number is longer or missing.
    #[inline(always)]
    pub fn short_u64(&mut self) -> Option<u64>
        ensures reads { IfSome result (λ number. u64_at self.old ≡ Some (number, self.new)) }
        ensures stays { IsNone result → self.new ≡ self.old }
    {
        match self.one_digit() {
            Some(byte) => Some(u64::from(byte)),
            None => None,
        }
    }

    /// Reads an s32 of one byte. Returns `None` and doesn't move if the next number is longer or missing.
    #[inline(always)]
    fn minimal_s32(&mut self) -> Option<i32>
        ensures reads { IfSome result (λ number. s32_at self.old ≡ Some (number, self.new)) }
        ensures stays { IsNone result → self.new ≡ self.old }
    {
        match self.one_digit() {
            Some(byte) => {
                let value = i32::from(byte);
                Some(if byte < 64 { value } else { value - 128 })
            }
            None => None,
        }
    }

    /// Reads an s32 of one or two bytes. Returns `None` if the next number is longer or cut off: then the position is
    /// unspecified.
    #[inline(always)]
    pub fn short_s32(&mut self) -> Option<i32>
        ensures { IfSome result (λ number. s32_at self.old ≡ Some (number, self.new)) }
    {
        if let Some(number) = self.minimal_s32() {
            return Some(number);
        }
        let first = self.next_byte()?;
        let last = self.next_byte()?;
        if first < 128 || last >= 128 {
            return None;
        }
        let unsigned = u16::from(first % 128) + u16::from(last) * 128;
        if last < 64 {
            self.keep(is_fewest(64, 16384, u64::from(unsigned)));
            return Some(i32::from(unsigned));
        }
        self.keep(is_fewest(64, 16384, 16383 - u64::from(unsigned)));
        Some(i32::from(unsigned) - 16384)
    }

    /// Reads the digits of a number, at most `most` of them.
    #[inline(always)]
    fn digits(&mut self, most: u32) -> Result<Digits, Fault>
        requires { most ≤ 5 }
        ensures reads { ReadsDigits most self.old self.new result }
        ensures few { IfOk result (λ d. d.unit ≤ 128 ^ 5) }
        ensures err { IfErr result IsMalformed }
        ensures item { NamesItem None result }
    {
        let start = self.to_end();
        let mut unsigned: u64 = 0;
        let mut unit: u64 = 1;
        for _ in 0..most {
            let byte = self.byte_of(Construct::Number)?;
            unsigned += u64::from(byte % 128) * unit;
            unit *= 128;
            if byte < 128 {
                return Ok(Digits {
                    unsigned,
                    unit,
                    last: byte,
                });
            }
        }
        let reason = Reason::NumberTooLong { most: most as u8 };
        Err(Fault::Malformed(Malformed::new(reason, start)))
    }

    /// Reads the digits of a number, at most `most` of them.
    fn many_digits(&mut self, most: u32) -> Result<ManyDigits, Fault>
        requires { most ≤ 10 }
        ensures reads { ReadsManyDigits most self.old self.new result }
        ensures few { IfOk result (λ d. d.unit ≤ 128 ^ 10) }
        ensures err { IfErr result IsMalformed }
    {
        let start = self.to_end();
        let mut unsigned: u128 = 0;
        let mut unit: u128 = 1;
        for _ in 0..most {
            let byte = self.byte_of(Construct::Number)?;
            unsigned += u128::from(byte % 128) * unit;
            unit *= 128;
            if byte < 128 {
                return Ok(ManyDigits {
                    unsigned,
                    unit,
                    last: byte,
                });
            }
        }
        let reason = Reason::NumberTooLong { most: most as u8 };
        Err(Fault::Malformed(Malformed::new(reason, start)))
    }

    /// Reads the digits of a signed number, at most five, and returns its value.
    #[tactic(auto, using(crate::proofs::NumberReading::signed_low, crate::proofs::NumberReading::signed_high))]
    fn signed(&mut self) -> Result<i64, Fault>
        ensures reads { Reads (number_at 5 (λ digits. Some (signed digits)) signed_leb128) self.old self.new result }
        ensures err { IfErr result IsMalformed }
    {
        let Digits {
            unsigned,
            unit,
            last,
        } = self.digits(5)?;
        if last < 64 {
            self.keep(is_fewest(64, unit, unsigned));
            Ok(unsigned as i64)
        } else {
            self.keep(is_fewest(64, unit, unit - 1 - unsigned));
            Ok(unsigned as i64 - unit as i64)
        }
    }

    /// Reads the digits of a signed number, at most ten, and returns its value.
    #[tactic(auto, using(crate::proofs::NumberReading::signed_low, crate::proofs::NumberReading::signed_high))]
    fn many_signed(&mut self) -> Result<i128, Fault>
        ensures reads { Reads (number_at 10 (λ digits. Some (signed digits)) signed_leb128) self.old self.new result }
        ensures err { IfErr result IsMalformed }
    {
        let ManyDigits {
            unsigned,
            unit,
            last,
        } = self.many_digits(10)?;
        if last < 64 {
            self.keep(is_fewest_of_many(64, unit, unsigned));
            Ok(unsigned as i128)
        } else {
            self.keep(is_fewest_of_many(64, unit, unit - 1 - unsigned));
            Ok(unsigned as i128 - unit as i128)
        }
    }

    /// Reads a u32 (Core 3.0, Integers). Fails with `Malformed` if it is cut off, has more than 5 bytes or is out of
    /// range.
    #[inline(always)]
    pub fn u32(&mut self) -> Result<u32, Fault>
        ensures reads { Reads u32_at self.old self.new result }
        ensures err { IfErr result IsMalformed }
        ensures item { NamesItem None result }
    {
        if let Some(byte) = self.one_digit() {
            return Ok(u32::from(byte));
        }
        self.long_u32()
    }

    /// Reads a u32 of any length.
    #[inline]
    #[tactic(auto, using(crate::proofs::NumberReading::u32_is, crate::proofs::NumberReading::u32_wide, crate::proofs::NumberReading::u32_none))]
    fn long_u32(&mut self) -> Result<u32, Fault>
        ensures reads { Reads u32_at self.old self.new result }
        ensures err { IfErr result IsMalformed }
        ensures item { NamesItem None result }
    {
        let start = self.to_end();
        let digits = self.digits(5)?;
        let Ok(value) = u32::try_from(digits.unsigned) else {
            return Err(Fault::Malformed(out_of_range(Construct::U32, start)));
        };
        self.keep(is_fewest(128, digits.unit, digits.unsigned));
        Ok(value)
    }

    /// Reads a u64 (Core 3.0, Integers). Fails with `Malformed` if it is cut off, has more than 10 bytes or is out of
    /// range.
    #[inline(always)]
    pub fn u64(&mut self) -> Result<u64, Fault>
        ensures reads { Reads u64_at self.old self.new result }
        ensures err { IfErr result IsMalformed }
    {
        if let Some(number) = self.short_u64() {
            return Ok(number);
        }
        self.long_u64()
    }

    /// Reads a u64 of any length.
    #[inline(never)]
    #[tactic(auto, using(crate::proofs::NumberReading::u64_is, crate::proofs::NumberReading::u64_wide, crate::proofs::NumberReading::u64_none))]
    fn long_u64(&mut self) -> Result<u64, Fault>
        ensures reads { Reads u64_at self.old self.new result }
        ensures err { IfErr result IsMalformed }
    {
        let start = self.to_end();
        let digits = self.many_digits(10)?;
        let Ok(value) = u64::try_from(digits.unsigned) else {
            return Err(Fault::Malformed(out_of_range(Construct::U64, start)));
        };
        self.keep(is_fewest_of_many(128, digits.unit, digits.unsigned));
        Ok(value)
    }

    /// Reads an s32 (Core 3.0, Integers). Fails with `Malformed` if it is cut off, has more than 5 bytes or is out of
    /// range.
    #[inline(always)]
    pub fn s32(&mut self) -> Result<i32, Fault>
        ensures reads { Reads s32_at self.old self.new result }
        ensures err { IfErr result IsMalformed }
    {
        if let Some(number) = self.minimal_s32() {
            return Ok(number);
        }
        self.long_s32()
    }

    /// Reads an s32 of any length.
    #[inline(never)]
    #[tactic(auto, unfolding(crate::specs::Places::s32_at))]
    fn long_s32(&mut self) -> Result<i32, Fault>
        ensures reads { Reads s32_at self.old self.new result }
        ensures err { IfErr result IsMalformed }
    {
        let start = self.to_end();
        let value = self.signed()?;
        i32::try_from(value).map_err(|_| Fault::Malformed(out_of_range(Construct::S32, start)))
    }

    /// Reads an s64 (Core 3.0, Integers). Fails with `Malformed` if it is cut off, has more than 10 bytes or is out of
    /// range.
    #[inline(always)]
    #[tactic(auto, using(crate::proofs::NumberReading::s64_low, crate::proofs::NumberReading::s64_high), unfolding(crate::specs::Places::s64_at))]
    pub fn s64(&mut self) -> Result<i64, Fault>
        ensures reads { Reads s64_at self.old self.new result }
        ensures err { IfErr result IsMalformed }
    {
        if let Some(byte) = self.one_digit() {
            let value = i64::from(byte);
            return Ok(if byte < 64 { value } else { value - 128 });
        }
        self.long_s64()
    }

    /// Reads an s64 of any length.
    #[inline(never)]
    #[tactic(auto, unfolding(crate::specs::Places::s64_at))]
    fn long_s64(&mut self) -> Result<i64, Fault>
        ensures reads { Reads s64_at self.old self.new result }
        ensures err { IfErr result IsMalformed }
    {
        let start = self.to_end();
        let value = self.many_signed()?;
        i64::try_from(value).map_err(|_| Fault::Malformed(out_of_range(Construct::S64, start)))
    }

    /// Reads a type index, encoded as a non-negative s33 (Core 3.0, Heap Types).
    ///
    /// Fails with `Malformed` if it is negative, cut off, has more than 5 bytes or is out of range.
    #[inline(always)]
    #[tactic(auto, using(crate::proofs::NumberReading::index_low, crate::proofs::NumberReading::index_high), unfolding(crate::specs::Places::index_at))]
    pub fn index(&mut self) -> Result<u32, Fault>
        ensures reads { Reads index_at self.old self.new result }
        ensures err { IfErr result IsMalformed }
    {
        if let Some(byte) = self.one_digit() {
            if byte >= 64 {
                let start = self.to_end().wrapping_add(1);
                return Err(Fault::Malformed(out_of_range(Construct::TypeIndex, start)));
            }
            return Ok(u32::from(byte));
        }
        self.long_index()
    }

    /// Reads a type index of any length.
    #[inline(never)]
    #[tactic(auto, unfolding(crate::specs::Places::index_at))]
    fn long_index(&mut self) -> Result<u32, Fault>
        ensures reads { Reads index_at self.old self.new result }
        ensures err { IfErr result IsMalformed }
    {
        let start = self.to_end();
        let value = self.signed()?;
        u32::try_from(value).map_err(|_| Fault::Malformed(out_of_range(
            Construct::TypeIndex,
            start,
        )))
    }
}
