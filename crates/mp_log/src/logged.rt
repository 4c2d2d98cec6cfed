//! The arrivals that a line of a log gives.
ghost use Rattle.std.specs.Prelude.{◌≡◌, ◌≢◌, ◌==◌, ◌≤◌, ◌<◌, ◌++◌, ◌∷◌, [], ℕ, List, None, IfSome, OnSome, MatchOption, MatchBool, codes, decimal, drop, length, true, false, Some};
ghost use Rattle.std.specs.List.{position};
ghost use Rattle.arrayvec.specs.ArrayVec.{array_vec_len};
ghost use Rattle.mp_log.specs.Logged.{BeginsPeriod, BeginsCounts, BeginsCount, EndsField};

use arrayvec::ArrayVec;
use itoa::Buffer;
use mp_text::read_count;

// What stands behind this front.
fn behind<'a>(line: &'a [u8], front: &[u8]) -> Option<&'a [u8]>
    ensures { MatchOption result ((rest : List ℕ) → line.now ≢ front.now ++ rest) (λ x. line.now ≡ front.now ++ x.now) }
{
    line.strip_prefix(front)
}

// What stands behind the number of this period and the letter of the arrivals.
fn behind_period(line: &[u8], period: u64) -> Option<&[u8]>
    ensures { MatchOption result ((rest : List ℕ) → line.now ≢ codes "p " ++ decimal period ++ codes " a" ++ rest) (λ x. line.now ≡ codes "p " ++ decimal period ++ codes " a" ++ x.now) }
{
    let Some(number) = behind(line, b"p ") else {
        return None;
    };
    let mut buffer = Buffer::new();
    let Some(letter) = behind(number, buffer.format(period).as_bytes()) else {
        return None;
    };
    behind(letter, b" a")
}

// The place of the first space.
pub(crate) fn space(bytes: &[u8]) -> Option<usize>
    ensures { result ≡ position (λ b. b == 32) bytes.now }
{
    bytes.iter().position(|b| *b == b' ')
}

// The count between a space at the front and the next space, and how many bytes stand before that.
fn next_count(bytes: &[u8]) -> Option<(u64, usize)>
    ensures { MatchOption result ((n : ℕ) (rest : List ℕ) → ¬ BeginsCount bytes.now n rest) (λ found. (found.1 ≤ length bytes.now) × BeginsCount bytes.now found.0 (drop found.1 bytes.now)) }
{
    let Some(digits) = behind(bytes, b" ") else {
        return None;
    };
    let Some(at) = space(digits) else {
        return None;
    };
    let Some(count) = read_count(&digits[..at]) else {
        return None;
    };
    Some((count, at + 1))
}

// The bytes from this place on.
fn from(bytes: &[u8], at: usize) -> &[u8]
    requires { at ≤ length bytes.now }
    ensures { result.now ≡ drop at bytes.now }
{
    &bytes[at..]
}

// Says whether a field ends before these bytes.
fn ends_field(bytes: &[u8]) -> bool
    ensures { MatchBool result (EndsField bytes.now) (¬ EndsField bytes.now) }
{
    match bytes {
        [] => true,
        [first, ..] => *first == b' ',
    }
}

// Appends as many counts as links are fed, where they and the field `s` stand at the front.
fn read_logged(bytes: &[u8], fed: usize, into: &mut ArrayVec<u64, 128>) -> bool
    requires few { fed ≤ 128 }
    requires empty { into.old.items ≡ [] }
    ensures { MatchBool result (BeginsCounts bytes.now fed into.new.items) ((counts : List ℕ) → ¬ BeginsCounts bytes.now fed counts) }
{
    let mut rest = bytes;
    for _ in 0..fed {
        let Some((count, at)) = next_count(rest) else {
            return false;
        };
        into.push(count);
        rest = from(rest, at);
    }
    let Some(after) = behind(rest, b" s") else {
        return false;
    };
    ends_field(after)
}

/// Reads the arrivals of a line that begins as the line of this period: with its number, `fed` counts
/// below 10^9, of which there may be 128 at most, and the field `s` behind them.
///
/// `None` comes exactly where the line does not begin so, and then `into` is empty. What follows that
/// field is not looked at, and no memory is taken.
pub fn read_arrivals(
    line: &[u8],
    period: u64,
    fed: usize,
    into: &mut ArrayVec<u64, 128>,
) -> Option<()>
    requires { fed ≤ 128 }
    ensures some { OnSome result (BeginsPeriod line.now period fed into.new.items) }
    ensures none { result ≡ None → ((counts : List ℕ) → ¬ BeginsPeriod line.now period fed counts) × (into.new.items ≡ []) }
{
    into.clear();
    let Some(counts) = behind_period(line, period) else {
        return None;
    };
    if !read_logged(counts, fed, into) {
        into.clear();
        return None;
    }
    Some(())
}
