// A source, a sink and a store, by what they tell and by their counts of faults.
ghost use Rattle.std.specs.Prelude.{◌≡◌, ◌≤◌, ◌<◌, ℕ, List, [], length, vec_len, IfOk, OnOk, OnErr, IsErrOf};
ghost use Rattle.std.specs.declared.option.Option.{Option};
ghost use Rattle.mp_edge.specs.Outside.{Rose, HasCause, Tells, Takes, Puts, OfFile};

use std::alloc::Global;

/// The answer of a source or a sink that met a fault.
#[derive(Clone, Copy, Debug, PartialEq, Eq)]
pub struct Failed;

/// Why a store gave no file: it has more bytes than asked for, a fault was met, or memory ran out.
#[derive(Clone, Copy, Debug, PartialEq, Eq)]
pub enum StoreFault {
    TooLong,
    Failed,
    NoMemory,
}

/// Bytes that come in.
pub trait Source {
    /// The bytes that are left, where the source tells them.
    ghost left: { Self → Option (List ℕ) };

    /// The faults so far, a count that never falls.
    ghost faults: { Self → ℕ };

    /// Puts the next bytes at the front of `buf` and gives their number, 0 at the end of the input.
    /// `Failed` comes only with a fault, and then nothing was taken.
    fn take(&mut self, buf: &mut [u8]) -> Result<usize, Failed>
        requires { 0 < length buf.old }
        ensures bound { IfOk result (λ n. n ≤ length buf.new) }
        ensures bytes { Tells (left self.old) (left self.new) (Takes result buf.new) }
        ensures cause { HasCause (faults self.old) (faults self.new) result };
}

/// Bytes that go out.
pub trait Sink {
    /// The bytes that were put, where the sink tells them.
    ghost held: { Self → Option (List ℕ) };

    /// The faults so far, a count that never falls.
    ghost faults: { Self → ℕ };

    /// Appends the bytes. `Failed` comes only with a fault, and then a prefix of them was appended.
    fn put(&mut self, bytes: &[u8]) -> Result<(), Failed>
        ensures bytes { Tells (held self.old) (held self.new) (Puts result bytes.now) }
        ensures cause { HasCause (faults self.old) (faults self.new) result };
}

/// Files by name.
pub trait Store {
    /// The names and the bytes of the files, where the store tells them.
    ghost files: { Self → Option (List (List ℕ × List ℕ)) };

    /// The faults so far, a count that never falls.
    ghost faults: { Self → ℕ };

    /// Makes `into`, which is empty, the bytes of the file, at most `most` of them.
    /// `TooLong` comes for a longer file, and `Failed` only with a fault, as a missing file is; `into` is then empty again.
    fn read(
        &mut self,
        alloc: Global,
        name: &str,
        into: &mut Vec<u8>,
        most: usize,
    ) -> Result<(), StoreFault>
        requires { into.old.items ≡ [] }
        ensures same { Tells (files self.old) (files self.new) (λ was now. now ≡ was) }
        ensures ok { OnOk result (OfFile (files self.old) name.now (λ bytes. (into.new.items ≡ bytes) × (length bytes ≤ most))) }
        ensures bound { OnOk result (vec_len into.new ≤ most) }
        ensures too_long { IsErrOf result StoreFault.TooLong → OfFile (files self.old) name.now (λ bytes. most < length bytes) }
        ensures failed { IsErrOf result StoreFault.Failed → Rose (faults self.old) (faults self.new) }
        ensures later { faults self.old ≤ faults self.new }
        ensures refused { OnErr result (into.new.items ≡ []) };
}
