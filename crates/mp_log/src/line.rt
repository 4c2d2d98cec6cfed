//! A line in a buffer, which goes out in one piece.
ghost use Rattle.std.specs.Prelude.{◌≡◌, ◌≤◌, ◌<◌, ◌+◌, ◌++◌, ◌∷◌, length};
ghost use Rattle.std.specs.List.{flat_map};
ghost use Rattle.mp_model.specs.declared.limits.TheConstants.{MOST_LOG_LINE_BYTES};
ghost use Rattle.mp_text.specs.declared.small_numbers.TheConstants.{SPACED_SIZE};

use itoa::{Buffer, Integer};
use mp_edge::Sink;
use mp_text::{LineSink, Numeral, SPACED_SIZE, SmallNumbers};

/// Appends a text that fits.
pub fn push_text(line: &mut LineSink, text: &[u8])
    requires { length line.old.held + length text.now ≤ MOST_LOG_LINE_BYTES }
    ensures held { line.new.held ≡ line.old.held ++ text.now }
    ensures len { length line.new.held ≡ length line.old.held + length text.now }
{
    let _ = line.put(text);
}

/// Appends the digits of a number, where there is room for those of any number of 128 bits.
pub fn push_number<I: Integer>(line: &mut LineSink, number: I)
    requires { length line.old.held + 40 ≤ MOST_LOG_LINE_BYTES }
    ensures held { line.new.held ≡ line.old.held ++ I.text number }
    ensures len { length line.new.held ≤ length line.old.held + 40 }
{
    let mut buffer = Buffer::new();
    push_text(line, buffer.format(number).as_bytes());
}

// Appends a space and the digits of a number, where these fit beside the 4 bytes of a copy.
#[inline]
fn push_next<I: Numeral>(line: &mut LineSink, small: &SmallNumbers, number: I)
    requires { length line.old.held + length (I.text number) + SPACED_SIZE < MOST_LOG_LINE_BYTES }
    ensures { line.new.held ≡ line.old.held ++ 32 ∷ I.text number }
{
    if let Some(few) = number.small() {
        line.push_small(small, few);
    } else {
        let mut buffer = Buffer::new();
        push_text(line, b" ");
        push_text(line, buffer.format(number).as_bytes());
    }
}

/// Appends a space and the digits of each number, where they fit beside the 4 bytes of a copy.
pub fn push_spaced<I: Numeral>(line: &mut LineSink, small: &SmallNumbers, numbers: &[I])
    requires { length line.old.held + length (flat_map (λ n. 32 ∷ I.text n) numbers.now) + SPACED_SIZE ≤ MOST_LOG_LINE_BYTES }
    ensures held { line.new.held ≡ line.old.held ++ flat_map (λ n. 32 ∷ I.text n) numbers.now }
    ensures len { length line.new.held ≡ length line.old.held + length (flat_map (λ n. 32 ∷ I.text n) numbers.now) }
{
    for number in numbers {
        push_next(line, small, *number);
    }
}
