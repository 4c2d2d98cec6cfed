//! The texts of small numbers, each made once.
ghost use Rattle.std.specs.Prelude.{◌≡◌, ◌<◌, IfSome, decimal};
ghost use Rattle.mp_text.specs.Spaced.{IsSpaced};

use itoa::{Buffer, Integer};
use std::marker::Model;

/// The numbers below this one are small: they have at most 3 digits.
pub const SMALL_NUMBERS: usize = 1000;

/// The size of the text of a small number with the space before it, and of each copy of one.
pub const SPACED_SIZE: usize = 4;

// A space and the digits of a number, and how many bytes these are.
#[derive(Clone, Copy)]
pub(crate) struct Spaced {
    pub(crate) text: [u8; SPACED_SIZE],
    pub(crate) len: u8,
}

/// A space and the digits of each number below 1,000.
#[derive(Drop)]
pub struct SmallNumbers {
    texts: [Spaced; SMALL_NUMBERS],
}

impl Model for SmallNumbers {
    ghost use Rattle.std.specs.Prelude.{◌≡◌, ℕ, ◌<◌, get_or, length};
    ghost use Rattle.mp_text.specs.Spaced.{IsSpaced};
    ghost use Rattle.mp_text.specs.declared.small_numbers.Spaced.{Spaced};

    ghost Value = { Unit {0} };

    ghost view = { λ _. tt };

    ghost invariant = { λ s. (length s.texts ≡ 1000) × ((n : ℕ) (none : Spaced) → n < 1000 → IsSpaced n (get_or s.texts n none)) };
}

// A space and the digits of a number.
fn spaced_digits(number: usize) -> Spaced
    requires { number < SMALL_NUMBERS }
    ensures { IsSpaced number result }
{
    let mut buffer = Buffer::new();
    let digits = buffer.format(number).as_bytes();
    let len = digits.len() + 1;
    let mut text = [b' '; SPACED_SIZE];
    text[1..len].copy_from_slice(digits);
    Spaced {
        text,
        len: len as u8,
    }
}

impl SmallNumbers {
    /// The texts of all numbers below 1,000.
    pub fn new() -> SmallNumbers {
        let mut texts = [spaced_digits(0); SMALL_NUMBERS];
        for number in 1..SMALL_NUMBERS {
            texts[number] = spaced_digits(number);
        }
        SmallNumbers { texts }
    }

    // The space and the digits of a number.
    #[inline]
    pub(crate) fn get(&self, number: usize) -> Spaced
        requires { number < SMALL_NUMBERS }
        ensures { IsSpaced number result }
    {
        self.texts[number]
    }
}

/// A number that may be small.
pub trait Numeral: Integer {
    /// The number, where it is small.
    fn small(self) -> Option<usize>
        ensures { IfSome result (λ n. (n < SMALL_NUMBERS) × (Self.text self ≡ decimal n)) };
}

impl Numeral for u16 {
    #[inline]
    fn small(self) -> Option<usize> {
        if self < SMALL_NUMBERS as u16 {
            Some(self as usize)
        } else {
            None
        }
    }
}

impl Numeral for u64 {
    #[inline]
    fn small(self) -> Option<usize> {
        if self < SMALL_NUMBERS as u64 {
            Some(self as usize)
        } else {
            None
        }
    }
}

impl Numeral for i128 {
    #[inline]
    fn small(self) -> Option<usize> {
        if self >= 0 && self < SMALL_NUMBERS as i128 {
            Some(self as usize)
        } else {
            None
        }
    }
}
