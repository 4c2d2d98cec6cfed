//! The lines of the header, one at a time in a buffer.
ghost use Rattle.std.specs.Prelude.{◌≡◌, ◌≤◌, ◌<◌, ◌+◌, ◌*◌, ◌^◌, ◌++◌, ◌∷◌, [], length, All, decimal, slice_index_or};
ghost use Rattle.mp_guard.specs.GuardHeader.{number_line};
ghost use Rattle.mp_guard.specs.GuardText.{green_words, guard_line, guard_lines};
ghost use Rattle.mp_guard_audit.specs.Heading.{header_of, header_line_at, HasNumbers};
ghost use Rattle.mp_model.specs.Guard.{greens_at};
ghost use Rattle.mp_model.specs.Log.{spaced};
ghost use Rattle.mp_model.specs.Network.{movement_at};
ghost use Rattle.mp_model.specs.declared.limits.TheConstants.{MOST_LOG_LINE_BYTES};

use mp_guard_run::GuardSession;
use mp_log::{push_number, push_text};
use mp_net::{JunctionNo, MovementNo, Net};
use mp_text::LineSink;

// How many lines of a guard stand before its greens.
const FIRST_LINES: u32 = 5;

// Appends a space and the digits of a number.
fn push_next(line: &mut LineSink, number: u128)
    requires small { number < 10 ^ 13 }
    requires room { length line.old.held + 60 ≤ MOST_LOG_LINE_BYTES }
    ensures { line.new.held ≡ line.old.held ++ 32 ∷ decimal number }
{
    push_text(line, b" ");
    push_number(line, number);
}

// Appends a space and the digits of each number.
fn push_spaced(line: &mut LineSink, numbers: &[u128])
    requires few { length numbers.now ≤ 512 }
    requires small { All (λ n. n < 10 ^ 13) numbers.now }
    requires room { length line.old.held ≤ 60 }
    ensures held { line.new.held ≡ line.old.held ++ spaced numbers.now }
    ensures len { length line.new.held < MOST_LOG_LINE_BYTES }
{
    for number in numbers {
        push_next(line, *number);
    }
}

// The line of these words and numbers, in an empty buffer.
fn push_line(line: &mut LineSink, words: &[u8], numbers: &[u128])
    requires empty { line.old.held ≡ [] }
    requires words { length words.now ≤ 60 }
    requires few { length numbers.now ≤ 512 }
    requires small { All (λ n. n < 10 ^ 13) numbers.now }
    ensures held { line.new.held ≡ guard_line words.now numbers.now }
    ensures len { length line.new.held < MOST_LOG_LINE_BYTES }
{
    push_text(line, words);
    push_spaced(line, numbers);
}

// Line number i of a guard, from 0, in an empty buffer: its first line, its cycle, its lost periods, its
// denominator or its rates.
fn push_first(line: &mut LineSink, session: &GuardSession, i: u32)
    requires empty { line.old.held ≡ [] }
    requires known { i < FIRST_LINES }
    ensures held { line.new.held ≡ slice_index_or (guard_lines session.now.guard) i [] }
    ensures len { length line.new.held < MOST_LOG_LINE_BYTES }
{
    let _ = session.state();
    let guard = session.guard();
    match i {
        0 => push_line(line, b"guard 1", &[]),
        1 => push_line(line, b"cycle", &[guard.cycle()]),
        2 => push_line(line, b"lost", &[guard.lost()]),
        3 => push_line(line, b"d", &[guard.denominator()]),
        _ => push_line(line, b"h", guard.rates()),
    }
}

// The line of the greens of junction j, in an empty buffer.
fn push_greens(line: &mut LineSink, session: &GuardSession, j: JunctionNo)
    requires empty { line.old.held ≡ [] }
    requires known { (1 ≤ j) × (j ≤ length session.now.net.junctions) }
    ensures held { line.new.held ≡ guard_line (green_words j) (greens_at session.now.guard j) }
    ensures len { length line.new.held < MOST_LOG_LINE_BYTES }
{
    let _ = session.state();
    push_text(line, b"green ");
    push_number(line, j);
    push_spaced(line, session.guard().greens(j));
}

// Appends the name of movement k.
fn push_name(line: &mut LineSink, net: &Net, k: MovementNo)
    requires known { (1 ≤ k) × (k ≤ length net.now.movements) }
    requires room { length line.old.held + 32 ≤ MOST_LOG_LINE_BYTES }
    ensures held { line.new.held ≡ line.old.held ++ (movement_at net.now k).name }
    ensures len { length line.new.held ≤ length line.old.held + 32 }
{
    push_text(line, net.movement(k).name.bytes());
}

// The line of movement k with this word and its number, in an empty buffer.
fn push_movement(line: &mut LineSink, net: &Net, word: &[u8], numbers: &[u128], k: MovementNo)
    requires empty { line.old.held ≡ [] }
    requires word { length word.now ≤ 60 }
    requires known { (1 ≤ k) × (k ≤ length net.now.movements) }
    requires numbers { length numbers.now ≡ length net.now.movements }
    ensures held { line.new.held ≡ number_line word.now net.now numbers.now k }
    ensures len { length line.new.held < MOST_LOG_LINE_BYTES }
{
    push_text(line, word);
    push_number(line, k);
    push_text(line, b" ");
    push_name(line, net, k);
    push_text(line, b" ");
    push_number(line, numbers[usize::from(k) - 1]);
}

/// How many lines the header of the session has: those of its guard, and two per movement.
pub fn header_lines(session: &GuardSession) -> u32
    ensures { result ≡ length (header_of session.now) }
{
    let _ = session.state();
    let net = session.net();
    FIRST_LINES + u32::from(net.junctions()) + 2 * u32::from(net.movements())
}

/// Line number `i` of the header of the session, from 0, without its line feed, in an empty buffer.
pub fn push_header_line(line: &mut LineSink, session: &GuardSession, i: u32)
    requires empty { line.old.held ≡ [] }
    requires numbers { HasNumbers session.now }
    requires known { i < length (header_of session.now) }
    ensures held { line.new.held ≡ header_line_at session.now i }
    ensures len { length line.new.held < MOST_LOG_LINE_BYTES }
{
    let _ = session.state();
    let net = session.net();
    let bounds = FIRST_LINES + u32::from(net.junctions());
    let waits = bounds + u32::from(net.movements());
    if i < FIRST_LINES {
        push_first(line, session, i);
    } else if i < bounds {
        push_greens(line, session, (i - FIRST_LINES) as u16 + 1);
    } else if i < waits {
        push_movement(
            line,
            net,
            b"bound ",
            session.bounds(),
            (i - bounds) as u16 + 1,
        );
    } else {
        push_movement(line, net, b"wait ", session.waits(), (i - waits) as u16 + 1);
    }
}
