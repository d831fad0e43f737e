//! Text of floating-point numbers, in hexadecimal digits (Core 3.0, Text Format, Values).
use crate::operands::{Ieee32, Ieee64};
use std::fmt;

/// Writes the number in the text format, in hexadecimal digits, as `0x1.8p+1`, `-inf` or `nan:0x200000` (Core 3.0, Text
/// Format, Values).
impl fmt::Display for Ieee32 {
    fn fmt<W: fmt::Write>(&self, f: &mut fmt::Formatter<W>) -> fmt::Result {
        let bits = self.bits();
        let parts = FloatParts {
            is_negative: bits >> 31 == 1,
            exponent: bits >> 23 & 0xff,
            special: 0xff,
            fraction: u64::from(bits & 0x7f_ffff) << 29,
            lacks: 29,
        };
        parts.write(f)
    }
}

/// Writes the number in the text format, in hexadecimal digits, as `0x1.8p+1`, `-inf` or `nan:0x4000000000000` (Core
/// 3.0, Text Format, Values).
impl fmt::Display for Ieee64 {
    fn fmt<W: fmt::Write>(&self, f: &mut fmt::Formatter<W>) -> fmt::Result {
        let bits = self.bits();
        let parts = FloatParts {
            is_negative: bits >> 63 == 1,
            exponent: u32::try_from(bits >> 52 & 0x7ff).unwrap_or(0),
            special: 0x7ff,
            fraction: bits & 0xf_ffff_ffff_ffff,
            lacks: 0,
        };
        parts.write(f)
    }
}

/// The parts of a floating-point number of 32 or 64 bits.
#[derive(Clone, Copy)]
struct FloatParts {
    is_negative: bool,
    /// The exponent's bits.
    exponent: u32,
    /// The exponent's bits if all are set.
    special: u32,
    /// The bits of the significand, moved up so that the first one is bit 51.
    fraction: u64,
    /// Number of bits of the significand that the type lacks.
    lacks: u32,
}

/// Number of bits of the significand of an `f64`.
const FRACTION_BITS: u32 = 52;

impl FloatParts {
    fn write<W: fmt::Write>(&self, f: &mut fmt::Formatter<W>) -> fmt::Result {
        if self.is_negative {
            f.write_str("-")?;
        }
        if self.exponent == self.special {
            return self.write_special(f);
        }
        if self.exponent == 0 && self.fraction == 0 {
            return f.write_str("0x0p+0");
        }
        let (exponent, fraction) = self.scaled();
        f.write_str("0x1")?;
        write_fraction(f, fraction)?;
        let sign = if exponent < 0 { "-" } else { "+" };
        write!(f, "p{sign}{}", exponent.unsigned_abs())
    }

    /// Writes an infinity or a NaN, without its sign.
    fn write_special<W: fmt::Write>(&self, f: &mut fmt::Formatter<W>) -> fmt::Result {
        if self.fraction == 0 {
            return f.write_str("inf");
        }
        if self.fraction == 1 << (FRACTION_BITS - 1) {
            return f.write_str("nan");
        }
        write!(f, "nan:{:#x}", self.fraction.wrapping_shr(self.lacks))
    }

    /// Returns the exponent of a number, and the bits after its first one. The number isn't zero.
    fn scaled(&self) -> (i64, u64) {
        let bias = i64::from(self.special >> 1);
        if self.exponent > 0 {
            return (i64::from(self.exponent).saturating_sub(bias), self.fraction);
        }
        // The first one has a place above the fraction's bits.
        let moved = self
            .fraction
            .leading_zeros()
            .saturating_sub(63 - FRACTION_BITS);
        let fraction = self.fraction.wrapping_shl(moved) & 0xf_ffff_ffff_ffff;
        let exponent = 1i64.saturating_sub(bias).saturating_sub(i64::from(moved));
        (exponent, fraction)
    }
}

/// Writes a point and the hexadecimal digits of a fraction of 52 bits, without zeros at the end.
fn write_fraction<W: fmt::Write>(f: &mut fmt::Formatter<W>, fraction: u64) -> fmt::Result {
    let mut left = fraction;
    for place in 0..13 {
        if left == 0 {
            break;
        }
        if place == 0 {
            f.write_str(".")?;
        }
        write!(f, "{:x}", left >> 48)?;
        left = left << 4 & 0xf_ffff_ffff_ffff;
    }
    Ok(())
}
