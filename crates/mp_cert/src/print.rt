//! The texts of certificates and vectors, which go out in pieces.
ghost use Rattle.std.specs.Prelude.{◌≡◌, ◌+◌, ◌++◌, ◌∷◌, [], ℕ, map, codes, decimal};
ghost use Rattle.std.specs.Fmt.{signed_decimal};
ghost use Rattle.std.specs.List.{flat_map};
ghost use Rattle.mp_edge.specs.Outside.{Tells, Puts, HasCause};
ghost use Rattle.mp_model.specs.Log.{text_of};
ghost use Rattle.mp_text.specs.Appending.{Appends};
ghost use Rattle.mp_cert.specs.Texts.{line_with, mix_words, mix_numbers, mix_lines, cert_text, vector_text};
ghost use Rattle.mp_cert.specs.Views.{mix_of, cert_of};

use crate::{Against, Cert, Mix};
use mp_edge::{Failed, Sink};
use mp_text::Pieces;

// Appends a space and the number.
fn push_next<K: Sink>(text: &mut Pieces, out: &mut K, number: &i128)
    ensures { Appends (32 ∷ signed_decimal number.now) text.old text.new (K.held out.old) (K.held out.new) (K.faults out.old) (K.faults out.new) }
{
    text.push(out, b" ");
    text.push_number(out, *number);
}

// Appends each number with a space before it.
fn push_spaced<K: Sink>(text: &mut Pieces, out: &mut K, numbers: &[i128])
    ensures { Appends (flat_map (λ n. 32 ∷ signed_decimal n) numbers.now) text.old text.new (K.held out.old) (K.held out.new) (K.faults out.old) (K.faults out.new) }
{
    for number in numbers {
        push_next(text, out, number);
    }
}

// Appends the line of these words and these numbers.
fn push_line<K: Sink>(text: &mut Pieces, out: &mut K, words: &[u8], numbers: &[i128])
    ensures { Appends (line_with words.now numbers.now ++ 10 ∷ []) text.old text.new (K.held out.old) (K.held out.new) (K.faults out.old) (K.faults out.new) }
{
    text.push(out, words);
    push_spaced(text, out, numbers);
    text.push(out, b"\n");
}

// Appends the line of these words and one number.
fn push_one<K: Sink>(text: &mut Pieces, out: &mut K, words: &[u8], number: &i128)
    ensures { Appends (line_with words.now (number.now ∷ []) ++ 10 ∷ []) text.old text.new (K.held out.old) (K.held out.new) (K.faults out.old) (K.faults out.new) }
{
    push_line(text, out, words, &[*number]);
}

// Appends the line of the mix of junction j.
fn push_mix<K: Sink>(text: &mut Pieces, out: &mut K, j: u64, mix: &Mix)
    ensures { Appends (line_with (mix_words j) (mix_numbers (mix_of mix.now)) ++ 10 ∷ []) text.old text.new (K.held out.old) (K.held out.new) (K.faults out.old) (K.faults out.new) }
{
    text.push(out, b"mix ");
    text.push_number(out, j);
    push_next(text, out, &mix.whole);
    push_spaced(text, out, mix.parts.as_slice());
    text.push(out, b"\n");
}

// Appends the lines of the mixes of junction 1 and the junctions after it.
fn push_mixes<K: Sink>(text: &mut Pieces, out: &mut K, mixes: &[Mix])
    ensures { Appends (text_of (mix_lines 1 (map mix_of mixes.now))) text.old text.new (K.held out.old) (K.held out.new) (K.faults out.old) (K.faults out.new) }
{
    for (index, mix) in mixes.iter().enumerate() {
        push_mix(text, out, index as u64 + 1, mix);
    }
}

/// Puts the text of the certificate in pieces of at most 16,384 bytes, each number in its digits and
/// behind a minus where it is below 0. `Failed` comes only with a fault of the sink, and then a prefix
/// of the text was appended.
pub fn print_cert<K: Sink>(out: &mut K, cert: &Cert) -> Result<(), Failed>
    ensures bytes { Tells (K.held out.old) (K.held out.new) (Puts result (cert_text (cert_of cert.now))) }
    ensures cause { HasCause (K.faults out.old) (K.faults out.new) result }
{
    let mut text = Pieces::new();
    push_line(&mut text, out, b"certificate 1", &[]);
    push_one(&mut text, out, b"d", &cert.d);
    push_one(&mut text, out, b"e", &cert.e);
    push_line(&mut text, out, b"h", cert.h.as_slice());
    push_mixes(&mut text, out, cert.mix.as_slice());
    text.end(out)
}

/// Puts the text of the vector in pieces of at most 16,384 bytes, each number in its digits and behind
/// a minus where it is below 0. `Failed` comes only with a fault of the sink, and then a prefix of the
/// text was appended.
pub fn print_against<K: Sink>(out: &mut K, against: &Against) -> Result<(), Failed>
    ensures bytes { Tells (K.held out.old) (K.held out.new) (Puts result (vector_text against.now.p)) }
    ensures cause { HasCause (K.faults out.old) (K.faults out.new) result }
{
    let mut text = Pieces::new();
    push_line(&mut text, out, b"vector 1", &[]);
    push_line(&mut text, out, b"p", against.p.as_slice());
    text.end(out)
}
