//! The lines of a certificate, a vector or another text of numbers, one after another.
ghost use Rattle.std.specs.Prelude.{◌≡◌, ◌+◌, ◌<◌, ◌∷◌, [], length, Ok, IfOk, OnOk, IfErr, IfSome, IfNone};
ghost use Rattle.mp_model.specs.Stream.{lines_of};
ghost use Rattle.mp_cert.specs.TextMeaning.{is_passed_over};
ghost use Rattle.mp_cert.specs.TextFaults.{IsFaultOf};
ghost use Rattle.mp_cert.specs.TextReading.{rows_ahead, StandsFirst, NoneStands, ReadsRow, RefusesAhead, HasRoom};

use crate::TextFault;
use crate::read_numbers::{drop_front, read_numbers};
use mp_text::{line_feed, without_return};
use std::alloc::Global;

// An empty line and a comment are passed over.
fn is_passed_over(line: &[u8]) -> bool
    ensures { result ≡ is_passed_over line.now }
{
    match line {
        [] => true,
        [first, ..] => *first == b'#',
    }
}

/// The lines of a text from some line on: the bytes that are left, and the number of their first line.
#[derive(Drop)]
pub struct TextLines<'a> {
    pub rest: &'a [u8],
    pub number: u64,
}

impl<'a> TextLines<'a> {
    /// The lines of a whole text.
    pub fn new(text: &'a [u8]) -> TextLines<'a>
        ensures rest { result.rest.now ≡ text.now }
        ensures number { result.number ≡ 1 }
        ensures room { HasRoom result.number result.rest.now }
    {
        TextLines {
            rest: text,
            number: 1,
        }
    }

    // The next line, without its end.
    fn next(&mut self) -> Option<&'a [u8]>
        requires { HasRoom self.old.number self.old.rest.now }
        ensures some { IfSome result (λ line. lines_of self.old.rest.now ≡ line.now ∷ lines_of self.new.rest.now) }
        ensures number { IfSome result (λ _. self.new.number ≡ self.old.number + 1) }
        ensures shorter { IfSome result (λ _. length self.new.rest.now < length self.old.rest.now) }
        ensures none { IfNone result ((lines_of self.old.rest.now ≡ []) × (self.new.number ≡ self.old.number)) }
        ensures room { HasRoom self.new.number self.new.rest.now }
    {
        let text = self.rest;
        if text.is_empty() {
            return None;
        }
        self.number += 1;
        match line_feed(text) {
            Some(at) => {
                self.rest = drop_front(text, at + 1);
                Some(without_return(&text[..at]))
            }
            None => {
                self.rest = drop_front(text, text.len());
                Some(without_return(text))
            }
        }
    }

    // The next line that is not passed over.
    fn kept(&mut self) -> Option<&'a [u8]>
        requires { HasRoom self.old.number self.old.rest.now }
        ensures some { IfSome result (λ line. StandsFirst line.now self.old.number self.old.rest.now self.new.number self.new.rest.now) }
        ensures none { IfNone result (NoneStands self.old.number self.old.rest.now self.new.number) }
        ensures room { HasRoom self.new.number self.new.rest.now }
    {
        while let Some(line) = self.next() {
            if !is_passed_over(line) {
                return Some(line);
            }
        }
        None
    }

    /// The numbers of the next line, where it has these words and then so many numbers.
    /// `TextFault::Line` names that line where it has not, and the line after the last where none is left.
    pub fn row(&mut self, alloc: Global, words: &[u8], count: usize) -> Result<Vec<i128>, TextFault>
        requires { HasRoom self.old.number self.old.rest.now }
        ensures ok { IfOk result (λ row. ReadsRow (record { words = words.now; count = count }) row.items self.old.number self.old.rest.now self.new.number self.new.rest.now) }
        ensures fault { IfErr result (RefusesAhead (record { words = words.now; count = count }) self.old.number self.old.rest.now) }
        ensures count { IfOk result (λ row. length row.items ≡ count) }
        ensures room { HasRoom self.new.number self.new.rest.now }
    {
        let Some(line) = self.kept() else {
            return Err(TextFault::Line(self.number));
        };
        read_numbers(alloc, line, words, count, self.number - 1)
    }

    /// No line is left. `TextFault::Line` names a further line.
    pub fn end(&mut self) -> Result<(), TextFault>
        requires { HasRoom self.old.number self.old.rest.now }
        ensures ok { OnOk result (rows_ahead self.old.number self.old.rest.now [] ≡ Ok []) }
        ensures fault { IfErr result (IsFaultOf (rows_ahead self.old.number self.old.rest.now [])) }
    {
        match self.kept() {
            Some(_) => Err(TextFault::Line(self.number - 1)),
            None => Ok(()),
        }
    }
}
