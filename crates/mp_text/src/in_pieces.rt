//! A text that goes into a sink in pieces.
ghost use Rattle.std.specs.Prelude.{◌≡◌, ◌≤◌, ◌+◌, ◌++◌, [], length, Some, None, IfSome, MatchResult};
ghost use Rattle.mp_model.specs.declared.limits.TheConstants.{MOST_LOG_LINE_BYTES};
ghost use Rattle.mp_text.specs.Appending.{Appends};

use crate::line_sink::LineSink;
use itoa::{Buffer, Integer};
use mp_edge::{Failed, Sink};
use std::marker::Model;

/// A text on its way into a sink, in pieces of at most 16,384 bytes.
///
/// It holds the bytes that were not put yet. After a put that failed it holds none, and puts nothing more.
#[derive(Drop)]
pub struct Pieces {
    piece: LineSink,
    failed: bool,
}

impl Model for Pieces {
    ghost use Rattle.std.specs.Prelude.{ℕ, List, Option, Some, None, if◌then◌else◌};

    ghost Value = { Option (List ℕ) };

    ghost view = { λ p. if p.failed then None else Some p.piece.held };
}

impl Pieces {
    /// An empty text.
    pub fn new() -> Pieces
        ensures { result ≡ Some [] }
    {
        Pieces {
            piece: LineSink::new(),
            failed: false,
        }
    }

    // Puts what is held.
    fn put_piece<K: Sink>(&mut self, out: &mut K)
        ensures appends { Appends [] self.old self.new (K.held out.old) (K.held out.new) (K.faults out.old) (K.faults out.new) }
        ensures empty { IfSome self.new (λ held. held ≡ []) }
    {
        if !self.failed {
            self.failed = out.put(self.piece.bytes()).is_err();
            self.piece.clear();
        }
    }

    // Appends the bytes where none are held.
    fn push_first<K: Sink>(&mut self, out: &mut K, bytes: &[u8])
        requires { IfSome self.old (λ held. held ≡ []) }
        ensures { Appends bytes.now self.old self.new (K.held out.old) (K.held out.new) (K.faults out.old) (K.faults out.new) }
    {
        if !self.failed && self.piece.put(bytes).is_err() {
            self.failed = out.put(bytes).is_err();
        }
    }

    /// Appends the bytes to the text. Where they have no room behind what is held, that is put first;
    /// and bytes that are more than a piece are put by themselves.
    pub fn push<K: Sink>(&mut self, out: &mut K, bytes: &[u8])
        ensures unput { IfSome self.old (λ held. length held + length bytes.now ≤ MOST_LOG_LINE_BYTES → (out.new ≡ out.old) × (self.new ≡ Some (held ++ bytes.now))) }
        ensures appends { Appends bytes.now self.old self.new (K.held out.old) (K.held out.new) (K.faults out.old) (K.faults out.new) }
    {
        if self.failed || self.piece.put(bytes).is_ok() {
            return;
        }
        self.put_piece(out);
        self.push_first(out, bytes);
    }

    /// Appends the digits of the number, behind a minus where it is below 0.
    pub fn push_number<K: Sink, I: Integer>(&mut self, out: &mut K, number: I)
        ensures { Appends (I.text number) self.old self.new (K.held out.old) (K.held out.new) (K.faults out.old) (K.faults out.new) }
    {
        let mut buffer = Buffer::new();
        self.push(out, buffer.format(number).as_bytes());
    }

    /// Puts what is still held. `Failed` comes where this put or one before it failed.
    pub fn end<K: Sink>(&mut self, out: &mut K) -> Result<(), Failed>
        ensures appends { Appends [] self.old self.new (K.held out.old) (K.held out.new) (K.faults out.old) (K.faults out.new) }
        ensures ends { MatchResult result (λ _. self.new ≡ Some []) (λ _. self.new ≡ None) }
    {
        self.put_piece(out);
        if self.failed { Err(Failed) } else { Ok(()) }
    }
}
