//! The words of the lines on a run's own faults. Those on what a file holds stand with the program.

/// A file whose fetch failed, before its name.
pub const READ: &[u8] = b"error: read ";

/// A file that has more bytes than the limit, before its name.
pub const TOO_LONG: &[u8] = b"error: too long: ";

/// Want of memory, with its line feed.
pub const MEMORY: &[u8] = b"error: memory\n";
