//! The words of a line of a stream: a hearing, a decision, or neither.
ghost use Rattle.std.specs.Prelude.{◌≡◌, ◌==◌, ◌≤◌, ◌∷◌, [], ℕ, List, length, MatchOption, IfSome, IsTrue, codes};
ghost use Rattle.std.specs.List.{slice_split};
ghost use Rattle.std.specs.Str.{bytes_eq};
ghost use Rattle.mp_model.specs.Stream.{count_of, hear_kind, decide_kind, words_kind};
ghost use Rattle.mp_log.specs.Kinds.{number_to, kind_read, IsOnNetwork};

use crate::logged::space;
use crate::stream_line::{StreamLine, behind};
use mp_net::Net;
use mp_text::read_count;

// The first word and what stands behind the space after it, or `None` where there is no space.
fn first_word(line: &[u8]) -> Option<(&[u8], &[u8])>
    ensures { MatchOption result (slice_split (λ b. b == 32) line.now ≡ line.now ∷ []) (λ cut. slice_split (λ b. b == 32) line.now ≡ cut.0.now ∷ slice_split (λ b. b == 32) cut.1.now) }
{
    match space(line) {
        Some(at) => Some((&line[..at], behind(line, at))),
        None => None,
    }
}

// The number of a count from 1 to the most.
fn number_to(word: &[u8], most: u16) -> Option<u16>
    ensures value { result ≡ number_to most (count_of word.now) }
    ensures within { IfSome result (λ n. (1 ≤ n) × (n ≤ most)) }
{
    let number = read_count(word)?;
    if number == 0 || number > u64::from(most) {
        return None;
    }
    Some(number as u16)
}

fn read_decision(net: &Net, junction: &[u8]) -> StreamLine
    ensures kind { decide_kind net.now (count_of junction.now) ≡ kind_read result [] }
    ensures network { IsOnNetwork net.now result [] }
{
    match number_to(junction, net.junctions()) {
        Some(junction) => StreamLine::Decide { junction },
        None => StreamLine::Bad,
    }
}

fn read_hearing(net: &Net, junction: &[u8], link: &[u8]) -> StreamLine
    ensures kind { hear_kind net.now (count_of junction.now) (count_of link.now) ≡ kind_read result [] }
    ensures network { IsOnNetwork net.now result [] }
{
    let Some(junction) = number_to(junction, net.junctions()) else {
        return StreamLine::Bad;
    };
    match number_to(link, net.links()) {
        Some(link) => StreamLine::Hear { junction, link },
        None => StreamLine::Bad,
    }
}

// Says what the words of a line are, with one space between two.
pub(crate) fn read_words(net: &Net, line: &[u8]) -> StreamLine
    ensures kind { words_kind net.now (slice_split (λ b. b == 32) line.now) ≡ kind_read result [] }
    ensures network { IsOnNetwork net.now result [] }
    ensures plain { ¬ (result ≡ StreamLine.Arrivals) }
{
    let Some((word, rest)) = first_word(line) else {
        return StreamLine::Bad;
    };
    let Some((junction, link)) = first_word(rest) else {
        if word == b"decide".as_slice() {
            return read_decision(net, rest);
        }
        return StreamLine::Bad;
    };
    if let Some(_) = first_word(link) {
        return StreamLine::Bad;
    }
    if word == b"hear".as_slice() {
        read_hearing(net, junction, link)
    } else {
        StreamLine::Bad
    }
}
