//! Constants kept as their bits, and lane indexes (Core 3.0, Floating-Point, Vectors and Instructions).
ghost use Rattle.std.specs.Prelude.{◌≡◌};
ghost use Rattle.wasm_instructions.specs.formats.Operands.{float_bits_32, float_bits_64, ieee32, ieee64, to_bits, v128};

/// Index of a lane of a vector. Every byte is read and written, in range or not.
pub type Lane = u8;

/// A 32-bit floating-point number, kept as its bits. A NaN keeps its payload.
///
/// # Examples
///
/// ```
/// # use wasm_encoder::{Ieee32, InstructionSink};
/// let mut code = Vec::new(rt.alloc());
/// InstructionSink::new(&mut code).f32_const(Ieee32::from(1.5))?;
/// assert_eq!(rt; code.as_slice(), b"\x43\x00\x00\xc0\x3f".as_slice());
/// assert_eq!(rt; Ieee32::from(f32::NAN), Ieee32::new(0x7fc0_0000));
/// assert_eq!(rt; Ieee32::from(1.5).to_string(rt.alloc())?.as_str(), "0x1.8p+0");
/// ```
#[derive(Clone, Copy, Debug, PartialEq, Eq)]
pub struct Ieee32 {
    bits: u32,
}

impl Ieee32 {
    /// Returns the number with these bits.
    pub fn new(bits: u32) -> Ieee32
        ensures { result.bits ≡ bits }
    {
        Ieee32 { bits }
    }

    /// Returns the bits.
    pub fn bits(self) -> u32
        ensures { result ≡ self.bits }
    {
        self.bits
    }
}

/// Takes over the bits of a number. Every NaN gives the canonical NaN, `0x7FC00000` (Core 3.0, Floating-Point).
impl From<f32> for Ieee32 {
    ghost from_gives = { λ value number. number ≡ ieee32 (float_bits_32 value) };

    fn from(value: f32) -> Ieee32 {
        if value.is_nan() {
            return Ieee32::new(0x7fc0_0000);
        }
        Ieee32::new(value.to_bits())
    }
}

/// A 64-bit floating-point number, kept as its bits. A NaN keeps its payload.
///
/// # Examples
///
/// ```
/// # use wasm_encoder::{Ieee64, InstructionSink};
/// let mut code = Vec::new(rt.alloc());
/// InstructionSink::new(&mut code).f64_const(Ieee64::from(-1.5))?;
/// assert_eq!(rt; code.as_slice(), b"\x44\x00\x00\x00\x00\x00\x00\xf8\xbf".as_slice());
/// assert_eq!(rt; Ieee64::from(f64::NAN), Ieee64::new(0x7ff8_0000_0000_0000));
/// assert_eq!(rt; Ieee64::from(-1.5).to_string(rt.alloc())?.as_str(), "-0x1.8p+0");
/// ```
#[derive(Clone, Copy, Debug, PartialEq, Eq)]
pub struct Ieee64 {
    bits: u64,
}

impl Ieee64 {
    /// Returns the number with these bits.
    pub fn new(bits: u64) -> Ieee64
        ensures { result.bits ≡ bits }
    {
        Ieee64 { bits }
    }

    /// Returns the bits.
    pub fn bits(self) -> u64
        ensures { result ≡ self.bits }
    {
        self.bits
    }
}

/// Takes over the bits of a number. Every NaN gives the canonical NaN, `0x7FF8000000000000` (Core 3.0, Floating-Point).
impl From<f64> for Ieee64 {
    ghost from_gives = { λ value number. number ≡ ieee64 (float_bits_64 value) };

    fn from(value: f64) -> Ieee64 {
        if value.is_nan() {
            return Ieee64::new(0x7ff8_0000_0000_0000);
        }
        Ieee64::new(value.to_bits())
    }
}

/// A vector of 128 bits, kept as two halves. With an `i128`, which is aligned to 16 bytes, every `Call` would be larger.
///
/// # Examples
///
/// ```
/// # use wasm_encoder::V128;
/// let vector = V128::new(-2);
/// assert_eq!(rt; vector.low, u64::MAX - 1);
/// assert_eq!(rt; vector.high, u64::MAX);
/// assert_eq!(rt; vector.value(), -2);
/// ```
#[derive(Clone, Copy, Debug, PartialEq, Eq)]
pub struct V128 {
    /// Bits 0 to 63.
    pub low: u64,
    /// Bits 64 to 127.
    pub high: u64,
}

impl V128 {
    /// Returns the vector whose bits are those of `value`, in two's complement.
    pub fn new(value: i128) -> V128
        ensures { result ≡ v128 value }
    {
        let bits = bits_of(value);
        V128 {
            low: (bits % (1 << 64)) as u64,
            high: (bits / (1 << 64)) as u64,
        }
    }

    /// Returns the number whose bits are those of the vector, in two's complement.
    pub fn value(self) -> i128
        ensures { v128 result ≡ self }
    {
        from_bits(u128::from(self.low) + (1 << 64) * u128::from(self.high))
    }
}

/// Returns the 128 bits of a number, in two's complement.
fn bits_of(value: i128) -> u128
    ensures { result ≡ to_bits value }
{
    if value < 0 {
        (value - i128::MIN) as u128 + (1 << 127)
    } else {
        value as u128
    }
}

/// Returns the number with these bits, in two's complement.
fn from_bits(bits: u128) -> i128
    ensures { to_bits result ≡ bits }
{
    if bits < 1 << 127 {
        bits as i128
    } else {
        (bits - (1 << 127)) as i128 + i128::MIN
    }
}
