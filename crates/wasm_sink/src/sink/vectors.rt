//! Vector instructions (Core 3.0, Vector Instructions). Their opcodes are the byte `0xFD` and a number.

mod bitwise;
mod comparisons;
mod floats;
mod integers_16;
mod integers_32;
mod integers_64;
mod integers_8;
mod lanes;
mod memory;
mod relaxed;
