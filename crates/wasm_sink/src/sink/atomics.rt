//! Atomic instructions (threads and shared-everything-threads proposals). Their opcodes are the byte `0xFE` and a
//! number.

mod memory;
mod read_modify_write;
mod shared;
