//! A sink over a fixed buffer, for one line.
ghost use Rattle.std.specs.Prelude.{◌≡◌, ◌≤◌, ◌<◌, ◌+◌, ◌++◌, ◌∷◌, ◌↔◌, [], decimal, length, IsErr, OnOk, OnErr, Some};
ghost use Rattle.mp_edge.specs.Outside.{next_count, Tells, Puts, HasCause};
ghost use Rattle.mp_model.specs.declared.limits.TheConstants.{MOST_LOG_LINE_BYTES};
ghost use Rattle.mp_text.specs.Buffered.{Buffered};

use crate::small_numbers::{SMALL_NUMBERS, SPACED_SIZE, SmallNumbers};
use mp_edge::{Failed, Sink};
use mp_model::limits::MOST_LOG_LINE_BYTES;
use std::marker::Model;

/// A sink that holds at most 16,384 bytes, and is emptied by `clear`.
#[derive(Drop)]
pub struct LineSink {
    buf: [u8; MOST_LOG_LINE_BYTES],
    len: usize,
    faults: u64,
}

impl Model for LineSink {
    ghost use Rattle.std.specs.Prelude.{◌≤◌, take};
    ghost use Rattle.mp_model.specs.declared.limits.TheConstants.{MOST_LOG_LINE_BYTES};
    ghost use Rattle.mp_text.specs.Buffered.{Buffered};

    ghost Value = { Buffered };

    ghost view = { λ s. record { held = take s.len s.buf; faults = s.faults } };

    ghost invariant = { λ s. s.len ≤ MOST_LOG_LINE_BYTES };
}

impl LineSink {
    /// An empty sink without faults.
    pub fn new() -> LineSink
        ensures { result ≡ record { held = []; faults = 0 } }
    {
        LineSink {
            buf: [0; MOST_LOG_LINE_BYTES],
            len: 0,
            faults: 0,
        }
    }

    /// What was put since the last `clear`.
    pub fn bytes(&self) -> &[u8]
        ensures value { result.now ≡ self.now.held }
        ensures few { length self.now.held ≤ MOST_LOG_LINE_BYTES }
    {
        &self.buf[..self.len]
    }

    /// Empties the sink; its count of faults stays.
    pub fn clear(&mut self)
        ensures { self.new ≡ record self.old { held = [] } }
    {
        self.len = 0;
    }

    /// Appends a space and the digits of a small number, where the 4 bytes of a copy fit.
    #[inline]
    pub fn push_small(&mut self, small: &SmallNumbers, number: usize)
        requires small { number < SMALL_NUMBERS }
        requires room { length self.old.held + SPACED_SIZE ≤ MOST_LOG_LINE_BYTES }
        ensures { self.new ≡ record self.old { held = self.old.held ++ 32 ∷ decimal number } }
    {
        let spaced = small.get(number);
        let end = self.len + SPACED_SIZE;
        self.buf[self.len..end].copy_from_slice(&spaced.text);
        self.len += usize::from(spaced.len);
    }
}

impl Sink for LineSink {
    ghost held = { λ s. Some s.held };

    ghost faults = { λ s. s.faults };

    /// Fails, and raises the count, exactly where the bytes don't fit; then nothing is appended.
    fn put(&mut self, bytes: &[u8]) -> Result<(), Failed>
        ensures bytes { Tells (Some self.old.held) (Some self.new.held) (Puts result bytes.now) }
        ensures cause { HasCause self.old.faults self.new.faults result }
        ensures full { IsErr result ↔ (MOST_LOG_LINE_BYTES < length self.old.held + length bytes.now) }
        ensures ok { OnOk result (self.new ≡ record self.old { held = self.old.held ++ bytes.now }) }
        ensures err { OnErr result (self.new ≡ record self.old { faults = next_count self.old.faults }) }
    {
        if bytes.len() > MOST_LOG_LINE_BYTES - self.len {
            self.faults = self.faults.saturating_add(1);
            return Err(Failed);
        }
        let end = self.len + bytes.len();
        self.buf[self.len..end].copy_from_slice(bytes);
        self.len = end;
        Ok(())
    }
}
