//! Exit statuses of a run.

/// Exit status of a run with invalid arguments, or with an output that it may not write.
pub const USAGE_STATUS: u8 = 2;

/// Exit status of a run whose memory ran out.
pub const MEMORY_STATUS: u8 = 3;

/// Exit status of a run whose write failed.
pub const WRITE_STATUS: u8 = 4;

/// Exit status of a run whose answer is no: a module isn't canonical, or two have different canonical forms.
pub const NO_STATUS: u8 = 5;
