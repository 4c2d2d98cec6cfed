//! The limits that several crates share, each named here alone.

/// The most bytes of a network, certificate or vector file.
pub const MOST_FILE_BYTES: usize = 1_048_576;

/// The most bytes of a line of a stream, with the carriage return that may end it.
pub const MOST_STREAM_LINE_BYTES: usize = 2_048;

/// The most bytes of a line of a log, with its line feed.
pub const MOST_LOG_LINE_BYTES: usize = 16_384;

/// The most lines of a stream, and so the most periods of a run.
pub const MOST_LINES: u64 = 1 << 48;
