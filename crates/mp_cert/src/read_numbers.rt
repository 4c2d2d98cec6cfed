//! The numbers of one line.
ghost use Rattle.std.specs.Prelude.{◌≡◌, ◌==◌, ◌<◌, ◌≤◌, ℕ, length, drop, Some, None, IfOk, IfErr, IfSome, IfNone};
ghost use Rattle.std.specs.List.{position, position_or_len};
ghost use Rattle.mp_cert.specs.TextMeaning.{behind, onto, spaced_numbers, of_count, row_of};
ghost use Rattle.mp_cert.specs.TextFaults.{RefusesLine};

use crate::TextFault;
use mp_text::read_big;
use std::alloc::Global;

// The place of the first space.
fn space(bytes: &[u8]) -> Option<usize>
    ensures { result ≡ position (λ b. b == 32) bytes.now }
{
    bytes.iter().position(|b| *b == b' ')
}

// How many bytes stand before the first space.
fn field_len(bytes: &[u8]) -> usize
    ensures { result ≡ position_or_len (λ b. b == 32) bytes.now }
{
    match space(bytes) {
        Some(at) => at,
        None => bytes.len(),
    }
}

/// The bytes behind the first `len`.
pub(crate) fn drop_front(bytes: &[u8], len: usize) -> &[u8]
    requires { len ≤ length bytes.now }
    ensures { result.now ≡ drop len bytes.now }
{
    &bytes[len..]
}

// A number that was read, and the bytes behind it.
#[derive(Drop)]
struct Read<'a> {
    number: i128,
    rest: &'a [u8],
}

// The number between a space at the front and the next space.
fn first_number(bytes: &[u8]) -> Option<Read<'_>>
    requires { 0 < length bytes.now }
    ensures number { IfSome result (λ read. spaced_numbers bytes.now ≡ onto (Some read.number) (spaced_numbers read.rest.now)) }
    ensures shorter { IfSome result (λ read. length read.rest.now < length bytes.now) }
    ensures none { IfNone result (spaced_numbers bytes.now ≡ None) }
{
    if bytes[0] != b' ' {
        return None;
    }
    let fields = drop_front(bytes, 1);
    let len = field_len(fields);
    let Some(number) = read_big(&fields[..len]) else {
        return None;
    };
    let rest = drop_front(fields, len);
    Some(Read { number, rest })
}

// The numbers of bytes in which each number has one space before it, where there are so many.
fn read_spaced(alloc: Global, bytes: &[u8], count: usize, line: u64) -> Result<Vec<i128>, TextFault>
    ensures ok { IfOk result (λ row. of_count count (spaced_numbers bytes.now) ≡ Some row.items) }
    ensures fault { IfErr result (RefusesLine line (of_count count (spaced_numbers bytes.now))) }
{
    let mut row = Vec::new(alloc);
    let mut rest = bytes;
    while !rest.is_empty() {
        let Some(read) = first_number(rest) else {
            return Err(TextFault::Line(line));
        };
        row.push(read.number)?;
        rest = read.rest;
    }
    if row.len() != count {
        return Err(TextFault::Line(line));
    }
    Ok(row)
}

// The bytes behind the words, where the text begins with them.
fn behind_words<'a>(text: &'a [u8], words: &[u8]) -> Option<&'a [u8]>
    ensures some { IfSome result (λ rest. behind words.now text.now ≡ Some rest.now) }
    ensures none { IfNone result (behind words.now text.now ≡ None) }
{
    text.strip_prefix(words)
}

/// The numbers of a line, where it has these words and then so many numbers.
pub(crate) fn read_numbers(
    alloc: Global,
    text: &[u8],
    words: &[u8],
    count: usize,
    line: u64,
) -> Result<Vec<i128>, TextFault>
    ensures ok { IfOk result (λ row. row_of (record { words = words.now; count = count }) text.now ≡ Some row.items) }
    ensures count { IfOk result (λ row. length row.items ≡ count) }
    ensures fault { IfErr result (RefusesLine line (row_of (record { words = words.now; count = count }) text.now)) }
{
    let Some(rest) = behind_words(text, words) else {
        return Err(TextFault::Line(line));
    };
    read_spaced(alloc, rest, count, line)
}
