//! Numeric instructions (Core 3.0, Numeric Instructions).

mod conversions;
mod floats;
mod integers_32;
mod integers_64;
