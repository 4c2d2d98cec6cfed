//! Lines off a source, counts, digits, a sink over a fixed buffer, and texts that go out in pieces.
#![tactic(auto)]

mod bigs;
mod counts;
mod cutter;
mod in_pieces;
mod line_sink;
mod put;
mod small_numbers;

pub use bigs::read_big;
pub use counts::read_count;
pub use cutter::{LineCutter, LineStep, line_feed, without_return};
pub use in_pieces::Pieces;
pub use line_sink::LineSink;
pub use put::{put_number, put_text};
pub use small_numbers::{Numeral, SMALL_NUMBERS, SPACED_SIZE, SmallNumbers};
