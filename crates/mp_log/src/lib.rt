//! The lines of a log, and the lines of a stream.
#![tactic(auto)]

mod end;
mod event_line;
mod header;
mod line;
mod logged;
mod period;
mod stream_line;

pub use end::{push_end, put_end};
pub use header::{header_lines, push_header_line, put_header, put_header_line};
pub use line::{push_number, push_spaced, push_text};
pub use logged::read_arrivals;
pub use period::{push_period, put_period, put_period_in};
pub use stream_line::{StreamLine, behind, comma, is_skipped, read_blanked, read_line};
