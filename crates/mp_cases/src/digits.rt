//! Numbers in a line, beside `itoa`.
ghost use Rattle.std.specs.Mem.{FitsInMemory};

use crate::files::Stop;
use itoa::Buffer;
use mp_log::push_spaced;
use mp_text::{LineSink, Numeral, SmallNumbers};
use std::alloc::Global;

// Says whether a line gives the number as `itoa` does, behind a space.
fn is_written<I: Numeral>(line: &mut LineSink, small: &SmallNumbers, number: I) -> bool
    requires { FitsInMemory I.row }
{
    let mut buffer = Buffer::new();
    let digits = buffer.format(number).as_bytes();
    line.clear();
    push_spaced(line, small, &[number]);
    line.bytes().strip_prefix(b" ") == Some(digits)
}

// The same of the number in each type that a line has.
fn is_written_by_all(line: &mut LineSink, small: &SmallNumbers, number: i128) -> bool {
    let mut same = is_written(line, small, number);
    if let Ok(count) = u64::try_from(number) {
        same = same && is_written(line, small, count);
    }
    if let Ok(stage) = u16::try_from(number) {
        same = same && is_written(line, small, stage);
    }
    same
}

/// The first of so many numbers that a line does not give as `itoa` does, or `yes` where there is none.
pub fn written(alloc: Global, first: i128, count: u64) -> Result<String, Stop> {
    let small = SmallNumbers::new();
    let mut line = LineSink::new();
    for step in 0..count {
        let number = first.checked_add(i128::from(step)).ok_or(Stop::Unwritten)?;
        if !is_written_by_all(&mut line, &small, number) {
            return Ok(format!(in alloc; "{number}\n")?);
        }
    }
    Ok(String::from_str(alloc, "yes\n")?)
}
