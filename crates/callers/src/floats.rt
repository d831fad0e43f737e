//! The bits of constants that are made from floating-point numbers (Core 3.0, Floating-Point).
ghost use Rattle.std.specs.Prelude.{◌≡◌, is_nan, to_bits, true};
ghost use Rattle.std.specs.Float.{NotNan, binary32, binary64};

use wasm_encoder::{Ieee32, Ieee64};

/// Returns the bits of a number that isn't a NaN: its own.
pub fn bits_of_f32(value: f32) -> u32
    requires { NotNan value }
    ensures { result ≡ to_bits binary32 value }
{
    Ieee32::from(value).bits()
}

/// Returns the bits of a NaN: those of the canonical NaN.
pub fn bits_of_f32_nan(value: f32) -> u32
    requires { is_nan value ≡ true }
    ensures { result ≡ 0x7fc0_0000 }
{
    Ieee32::from(value).bits()
}

/// Returns the bits of a number that isn't a NaN: its own.
pub fn bits_of_f64(value: f64) -> u64
    requires { NotNan value }
    ensures { result ≡ to_bits binary64 value }
{
    Ieee64::from(value).bits()
}

/// Returns the bits of a NaN: those of the canonical NaN.
pub fn bits_of_f64_nan(value: f64) -> u64
    requires { is_nan value ≡ true }
    ensures { result ≡ 0x7ff8_0000_0000_0000 }
{
    Ieee64::from(value).bits()
}
