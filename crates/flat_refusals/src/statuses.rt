//! The statuses of calls from other languages.

/// The call succeeded. The count is the length of the minimal encoding.
pub const NORMAL: u32 = 0;

/// The input is malformed. The count is the length of the longest prefix that decodes.
///
/// A check also refuses an input that isn't minimally encoded. The count is then the length of the longest prefix that
/// is.
pub const REFUSED: u32 = 1;

/// The input isn't minimally encoded. The count is the length of its minimal encoding.
pub const NOT_NORMAL: u32 = 2;

/// Memory ran out. The caller's memory and the count are unchanged.
pub const NO_MEMORY: u32 = 3;
