//! Lines of a stream.
ghost use Rattle.std.specs.Prelude.{◌≡◌, ◌==◌, ◌≤◌, ◌<◌, ◌⊎◌, ◌+◌, ◌++◌, ◌∷◌, [], ℕ, length, take, drop, true, false, IsTrue, ◌↔◌, Some, None, IfSome, All, ◌^◌, cond, List};
ghost use Rattle.std.specs.List.{list_all, position, slice_split};
ghost use Rattle.arrayvec.specs.ArrayVec.{array_vec_len};
ghost use Rattle.mp_model.specs.Stream.{is_blank, is_skipped, without_blanks_before, without_blanks_behind, count_of, read_counts, plain_kind};
ghost use Rattle.mp_log.specs.Kinds.{kind_read, IsOnNetwork};

use crate::event_line::read_words;
use arrayvec::ArrayVec;
use mp_net::{JunctionNo, LinkNo, Net};
use mp_text::read_count;

/// What a line of a stream is.
#[derive(Clone, Copy, Debug, PartialEq, Eq)]
pub enum StreamLine {
    /// An empty line, one of blanks alone, or a comment.
    Skipped,
    /// One count per fed link.
    Arrivals,
    /// The junction hears the count of the link.
    Hear { junction: JunctionNo, link: LinkNo },
    /// The junction decides.
    Decide { junction: JunctionNo },
    /// Not in the grammar.
    Bad,
}

fn is_blank(byte: u8) -> bool
    ensures { result ≡ is_blank byte }
{
    byte == b' ' || byte == b'\t'
}

fn are_blanks(bytes: &[u8]) -> bool
    ensures { result ≡ list_all is_blank bytes.now }
{
    bytes.iter().all(|b| is_blank(*b))
}

/// Says whether a line is empty, of blanks alone, or a comment.
pub fn is_skipped(line: &[u8]) -> bool
    ensures { result ≡ is_skipped line.now }
{
    match line {
        [] => true,
        [first, ..] => *first == b'#' || are_blanks(line),
    }
}

// The bytes from the first that is no blank on.
fn without_blanks_before(bytes: &[u8]) -> &[u8]
    ensures { result.now ≡ without_blanks_before bytes.now }
{
    let mut rest = bytes;
    while let [first, others @ ..] = rest {
        if !is_blank(*first) {
            return rest;
        }
        rest = others;
    }
    rest
}

// The bytes up to the last that is no blank.
fn without_blanks_behind(bytes: &[u8]) -> &[u8]
    ensures { result.now ≡ without_blanks_behind bytes.now }
{
    let mut end = bytes.len();
    while end > 0 {
        if !is_blank(bytes[end - 1]) {
            return &bytes[..end];
        }
        end -= 1;
    }
    &bytes[..0]
}

/// The place of the first comma.
pub fn comma(bytes: &[u8]) -> Option<usize>
    ensures { result ≡ position (λ b. b == 44) bytes.now }
{
    bytes.iter().position(|b| *b == b',')
}

/// The bytes behind the one at this place.
pub fn behind(bytes: &[u8], at: usize) -> &[u8]
    requires { at < length bytes.now }
    ensures { result.now ≡ drop (at + 1) bytes.now }
{
    &bytes[at + 1..]
}

/// The count of these bytes, with blanks round it, or `None` exactly where they are none.
pub fn read_blanked(bytes: &[u8]) -> Option<u64>
    ensures value { result ≡ count_of (without_blanks_behind (without_blanks_before bytes.now)) }
    ensures few { IfSome result (λ n. n < 10 ^ 9) }
{
    read_count(without_blanks_behind(without_blanks_before(bytes)))
}

// Appends the count with blanks round it, where it is one and fewer than n are there.
fn push_count(part: &[u8], n: usize, into: &mut ArrayVec<u64, 128>) -> bool
    requires few { n ≤ 128 }
    requires so_far { array_vec_len into.old ≤ n }
    ensures pushed { IsTrue result → (array_vec_len into.old < n) × ((x : ℕ) × (count_of (without_blanks_behind (without_blanks_before part.now)) ≡ Some x) × (into.new.items ≡ into.old.items ++ x ∷ []) × (x < 10 ^ 9)) }
    ensures refused { result ≡ false → (array_vec_len into.old ≡ n) ⊎ (count_of (without_blanks_behind (without_blanks_before part.now)) ≡ None) }
{
    if into.len() == n {
        return false;
    }
    match read_blanked(part) {
        Some(count) => {
            into.push(count);
            true
        }
        None => false,
    }
}

// The counts of a line of n counts with a comma between two, and blanks round each.
fn read_counts(line: &[u8], n: usize, into: &mut ArrayVec<u64, 128>) -> bool
    requires few { n ≤ 128 }
    requires empty { into.old.items ≡ [] }
    ensures some { IsTrue result → read_counts n line.now ≡ Some into.new.items }
    ensures digits { IsTrue result → All (λ a. a < 10 ^ 9) into.new.items }
    ensures count { IsTrue result → length into.new.items ≡ n }
    ensures none { result ≡ false → (read_counts n line.now ≡ None) × (into.new.items ≡ []) }
{
    let mut rest = line;
    while let Some(at) = comma(rest) {
        if !push_count(&rest[..at], n, into) {
            into.clear();
            return false;
        }
        rest = behind(rest, at);
    }
    if !push_count(rest, n, into) {
        into.clear();
        return false;
    }
    if into.len() != n {
        into.clear();
        return false;
    }
    true
}

/// Says what a line of a stream is, without its end and of at most 2,048 bytes with its carriage
/// return. With `Arrivals` it makes `into` the counts, one per fed link in link order; with every
/// other answer `into` is empty.
pub fn read_line(net: &Net, line: &[u8], into: &mut ArrayVec<u64, 128>) -> StreamLine
    ensures kind { plain_kind net.now line.now ≡ kind_read result into.new.items }
    ensures network { IsOnNetwork net.now result into.new.items }
    ensures empty { ¬ (result ≡ StreamLine.Arrivals) → into.new.items ≡ [] }
{
    into.clear();
    if is_skipped(line) {
        return StreamLine::Skipped;
    }
    let _ = net.links();
    let fed = net.fed();
    if read_counts(line, fed.len(), into) {
        StreamLine::Arrivals
    } else {
        read_words(net, line)
    }
}
