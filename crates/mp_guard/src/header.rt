//! The header of what is written under a guard: its text, and the bounds and the waits of the movements.
ghost use Rattle.std.specs.Prelude.{◌≡◌, ◌≤◌, ◌++◌, ◌∷◌, [], codes, decimal, length, map, OnOk, IfOk, IfErr};
ghost use Rattle.mp_edge.specs.Outside.{Tells, Puts, Rose};
ghost use Rattle.mp_model.specs.Log.{text_of};
ghost use Rattle.mp_model.specs.Network.{movement_numbers, movement_at};
ghost use Rattle.mp_guard.specs.GuardHeader.{guard_header, number_line};

use crate::print::{push_digits, push_guard};
use crate::{Guard, PutFault};
use mp_edge::Sink;
use mp_net::{MovementNo, Net, NoMemory};
use std::alloc::{AllocError, Global};

// Appends the line of movement k with this word and this number.
fn push_number(
    text: &mut Vec<u8>,
    net: &Net,
    word: &[u8],
    k: MovementNo,
    number: u128,
) -> Result<(), AllocError>
    requires { (1 ≤ k) × (k ≤ length net.now.movements) }
    ensures { OnOk result (text.new.items ≡ text.old.items ++ word.now ++ decimal k ++ codes " " ++ (movement_at net.now k).name ++ codes " " ++ decimal number ++ 10 ∷ []) }
{
    text.extend_from_slice(word)?;
    push_digits(text, u128::from(k))?;
    text.extend_from_slice(b" ")?;
    text.extend_from_slice(net.movement(k).name.bytes())?;
    text.extend_from_slice(b" ")?;
    push_digits(text, number)?;
    text.extend_from_slice(b"\n")
}

// Appends a line per movement with this word and its number.
fn push_numbers(
    text: &mut Vec<u8>,
    net: &Net,
    word: &[u8],
    numbers: &[u128],
) -> Result<(), AllocError>
    requires { length numbers.now ≡ length net.now.movements }
    ensures { OnOk result (text.new.items ≡ text.old.items ++ text_of (map (number_line word.now net.now numbers.now) (movement_numbers net.now))) }
{
    for i in 0..net.movements() {
        push_number(text, net, word, i + 1, numbers[usize::from(i)])?;
    }
    Ok(())
}

// Appends the header.
fn push_header(
    text: &mut Vec<u8>,
    net: &Net,
    guard: &Guard,
    bounds: &[u128],
    waits: &[u128],
) -> Result<(), AllocError>
    requires bounds { length bounds.now ≡ length net.now.movements }
    requires waits { length waits.now ≡ length net.now.movements }
    ensures { OnOk result (text.new.items ≡ text.old.items ++ text_of (guard_header net.now guard.now bounds.now waits.now)) }
{
    push_guard(text, guard)?;
    push_numbers(text, net, b"bound ", bounds)?;
    push_numbers(text, net, b"wait ", waits)
}

/// The header of what is written under a guard: its text, and then in movement order the bound of each movement, in
/// vehicles, and the wait of each, in periods. `NoMemory` comes only where memory runs out.
pub fn header_text(
    alloc: Global,
    net: &Net,
    guard: &Guard,
    bounds: &[u128],
    waits: &[u128],
) -> Result<Vec<u8>, NoMemory>
    requires bounds { length bounds.now ≡ length net.now.movements }
    requires waits { length waits.now ≡ length net.now.movements }
    ensures { IfOk result (λ text. text.items ≡ text_of (guard_header net.now guard.now bounds.now waits.now)) }
{
    let mut text = Vec::new(alloc);
    push_header(&mut text, net, guard, bounds, waits)?;
    Ok(text)
}

/// Puts the header in one piece. `PutFault::Failed` comes only with a fault of the sink, and then a prefix of the header
/// was appended; at `PutFault::NoMemory` nothing was put.
pub fn put_guard_header<K: Sink>(
    alloc: Global,
    out: &mut K,
    net: &Net,
    guard: &Guard,
    bounds: &[u128],
    waits: &[u128],
) -> Result<(), PutFault>
    requires bounds { length bounds.now ≡ length net.now.movements }
    requires waits { length waits.now ≡ length net.now.movements }
    ensures bytes { Tells (K.held out.old) (K.held out.new) (Puts result (text_of (guard_header net.now guard.now bounds.now waits.now))) }
    ensures later { K.faults out.old ≤ K.faults out.new }
    ensures nothing { IfErr result (λ fault. fault ≡ PutFault.NoMemory → out.new ≡ out.old) }
    ensures cause { IfErr result (λ fault. fault ≡ PutFault.Failed → Rose (K.faults out.old) (K.faults out.new)) }
{
    let Ok(text) = header_text(alloc, net, guard, bounds, waits) else {
        return Err(PutFault::NoMemory);
    };
    match out.put(text.as_slice()) {
        Ok(()) => Ok(()),
        Err(_) => Err(PutFault::Failed),
    }
}
