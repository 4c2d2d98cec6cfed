//! The text of a guard.
ghost use Rattle.std.specs.Prelude.{◌≡◌, ◌+◌, ◌≤◌, ◌++◌, ◌∷◌, [], decimal, map, OnOk, IfOk, IfErr};
ghost use Rattle.std.specs.List.{flat_map};
ghost use Rattle.mp_edge.specs.Outside.{Tells, Puts, Rose};
ghost use Rattle.mp_model.specs.Log.{text_of};
ghost use Rattle.mp_guard.specs.GuardText.{guard_line, green_words, green_lines, guard_text};

use crate::{Guard, PutFault};
use itoa::Buffer;
use mp_edge::Sink;
use mp_net::NoMemory;
use std::alloc::{AllocError, Global};

/// Appends the digits of a number.
pub fn push_digits(text: &mut Vec<u8>, number: u128) -> Result<(), AllocError>
    ensures { OnOk result (text.new.items ≡ text.old.items ++ decimal number) }
{
    let mut buffer = Buffer::new();
    text.extend_from_slice(buffer.format(number).as_bytes())
}

// Appends a space and a number.
fn push_next(text: &mut Vec<u8>, number: u128) -> Result<(), AllocError>
    ensures { OnOk result (text.new.items ≡ text.old.items ++ 32 ∷ decimal number) }
{
    text.extend_from_slice(b" ")?;
    push_digits(text, number)
}

// Appends each number with a space before it.
#[tactic(auto, using(crate::proofs::PrintLemmas::spacings))]
fn push_spaced(text: &mut Vec<u8>, numbers: &[u128]) -> Result<(), AllocError>
    ensures { OnOk result (text.new.items ≡ text.old.items ++ flat_map (λ n. 32 ∷ decimal n) numbers.now) }
{
    for number in numbers {
        push_next(text, *number)?;
    }
    Ok(())
}

// Appends the line of these words and these numbers.
fn push_line(text: &mut Vec<u8>, words: &[u8], numbers: &[u128]) -> Result<(), AllocError>
    ensures { OnOk result (text.new.items ≡ text.old.items ++ (guard_line words.now numbers.now ++ 10 ∷ [])) }
{
    text.extend_from_slice(words)?;
    push_spaced(text, numbers)?;
    text.extend_from_slice(b"\n")
}

// Appends the line of the greens of junction j.
fn push_greens(text: &mut Vec<u8>, j: u128, greens: &[u128]) -> Result<(), AllocError>
    ensures { OnOk result (text.new.items ≡ text.old.items ++ (guard_line (green_words j) greens.now ++ 10 ∷ [])) }
{
    text.extend_from_slice(b"green ")?;
    push_digits(text, j)?;
    push_spaced(text, greens)?;
    text.extend_from_slice(b"\n")
}

// Appends the lines of the greens of junction 1 and the junctions after it.
fn push_all_greens(text: &mut Vec<u8>, greens: &[Vec<u128>]) -> Result<(), AllocError>
    ensures { OnOk result (text.new.items ≡ text.old.items ++ text_of (green_lines 1 (map (λ row. row.items) greens.now))) }
{
    for (index, row) in greens.iter().enumerate() {
        push_greens(text, index as u128 + 1, row.as_slice())?;
    }
    Ok(())
}

/// Appends the text of the guard.
pub fn push_guard(text: &mut Vec<u8>, guard: &Guard) -> Result<(), AllocError>
    ensures { OnOk result (text.new.items ≡ text.old.items ++ guard_text guard.now) }
{
    push_line(text, b"guard 1", &[])?;
    push_line(text, b"cycle", &[guard.cycle()])?;
    push_line(text, b"lost", &[guard.lost()])?;
    push_line(text, b"d", &[guard.denominator()])?;
    push_line(text, b"h", guard.rates())?;
    push_all_greens(text, guard.all_greens())
}

/// The text of the guard. `NoMemory` comes only where memory runs out.
pub fn guard_text(alloc: Global, guard: &Guard) -> Result<Vec<u8>, NoMemory>
    ensures { IfOk result (λ text. text.items ≡ guard_text guard.now) }
{
    let mut text = Vec::new(alloc);
    push_guard(&mut text, guard)?;
    Ok(text)
}

/// Puts the text of the guard in one piece. `PutFault::Failed` comes only with a fault of the sink, and then a prefix of
/// the text was appended; at `PutFault::NoMemory` nothing was put.
pub fn put_guard<K: Sink>(alloc: Global, out: &mut K, guard: &Guard) -> Result<(), PutFault>
    ensures bytes { Tells (K.held out.old) (K.held out.new) (Puts result (guard_text guard.now)) }
    ensures later { K.faults out.old ≤ K.faults out.new }
    ensures nothing { IfErr result (λ fault. fault ≡ PutFault.NoMemory → out.new ≡ out.old) }
    ensures cause { IfErr result (λ fault. fault ≡ PutFault.Failed → Rose (K.faults out.old) (K.faults out.new)) }
{
    let Ok(text) = guard_text(alloc, guard) else {
        return Err(PutFault::NoMemory);
    };
    match out.put(text.as_slice()) {
        Ok(()) => Ok(()),
        Err(_) => Err(PutFault::Failed),
    }
}
