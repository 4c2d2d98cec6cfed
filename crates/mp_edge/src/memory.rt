// A source, a sink and a store in memory, whose calls fail where they are told to.
ghost use Rattle.std.specs.Prelude.{◌≡◌, ◌≤◌, ◌<◌, ◌↔◌, ℕ, List, [], ◌+◌, ◌++◌, length, vec_len, min, if◌then◌else◌, IsErr, IsTrue, IfOk, OnOk, OnErr, IsErrOf, IsNone, IsSomeAnd, is_none, Some, option_map};
ghost use Rattle.mp_edge.specs.Outside.{next_count, Rose, HasCause, Tells, Takes, Puts, OfFile};
ghost use Rattle.mp_edge.specs.Memory.{is_listed, kept_by, put_fails, added, names_and_bytes, file_found, next_found};

use crate::{Failed, Sink, Source, Store, StoreFault};
use std::alloc::{AllocError, Global};
use std::marker::Model;

/// That memory ran out for an object in memory.
#[derive(Clone, Copy, Debug, PartialEq, Eq)]
pub struct NoMemory;

impl From<AllocError> for NoMemory {
    fn from(_: AllocError) -> NoMemory {
        NoMemory
    }
}

/// A source of given bytes, in pieces of a greatest size. Its listed calls fail.
#[derive(Drop)]
pub struct MemSource {
    bytes: Vec<u8>,
    at: usize,
    piece: usize,
    fails: Vec<u64>,
    calls: u64,
    faults: u64,
}

impl Model for MemSource {
    ghost use Rattle.std.specs.Prelude.{◌≤◌, ◌<◌, ◌^◌, drop, length};
    ghost use Rattle.mp_edge.specs.Memory.{SourceState};

    ghost Value = { SourceState };

    ghost view = { λ s. record { left = drop s.at s.bytes.items; piece = s.piece; fails = s.fails.items; calls = s.calls; faults = s.faults } };

    ghost invariant = { λ s. (s.at ≤ length s.bytes.items) × (0 < s.piece) };
}

impl MemSource {
    /// A source of these bytes, at most `piece` a call. Calls are numbered from 1, and those whose numbers are listed fail.
    pub fn new(
        alloc: Global,
        bytes: &[u8],
        piece: usize,
        fails: &[u64],
    ) -> Result<MemSource, NoMemory>
        requires { 0 < piece }
        ensures { IfOk result (λ s. s ≡ record { left = bytes.now; piece = piece; fails = fails.now; calls = 0; faults = 0 }) }
    {
        Ok(MemSource {
            bytes: Vec::from_slice(alloc, bytes)?,
            at: 0,
            piece,
            fails: Vec::from_slice(alloc, fails)?,
            calls: 0,
            faults: 0,
        })
    }
}

impl Source for MemSource {
    ghost left = { λ s. Some s.left };

    ghost faults = { λ s. s.faults };

    /// Gives as many bytes as the piece, the buffer and what is left allow. It fails exactly where its number is listed.
    fn take(&mut self, buf: &mut [u8]) -> Result<usize, Failed>
        requires { 0 < length buf.old }
        ensures bound { IfOk result (λ n. n ≤ length buf.new) }
        ensures bytes { Tells (Some self.old.left) (Some self.new.left) (Takes result buf.new) }
        ensures cause { HasCause self.old.faults self.new.faults result }
        ensures exactly { IsErr result ↔ IsTrue (is_listed self.old.fails (next_count self.old.calls)) }
        ensures size { IfOk result (λ n. n ≡ min self.old.piece (min (length buf.old) (length self.old.left))) }
        ensures ok { OnOk result (self.new ≡ record self.old { calls = next_count self.old.calls; left = self.new.left }) }
        ensures err { OnErr result (self.new ≡ record self.old { calls = next_count self.old.calls; faults = next_count self.old.faults }) }
    {
        self.calls = self.calls.saturating_add(1);
        if self.fails.contains(&self.calls) {
            self.faults = self.faults.saturating_add(1);
            return Err(Failed);
        }
        let rest = self.bytes.len() - self.at;
        let n = self.piece.min(buf.len().min(rest));
        buf[..n].copy_from_slice(&self.bytes[self.at..self.at + n]);
        self.at += n;
        Ok(n)
    }
}

/// A sink over memory, with the room that it was made with. Its listed calls fail, and so does one whose bytes do not fit.
#[derive(Drop)]
pub struct MemSink {
    held: Vec<u8>,
    room: usize,
    fails: Vec<(u64, usize)>,
    calls: u64,
    faults: u64,
}

impl Model for MemSink {
    ghost use Rattle.std.specs.Prelude.{◌≤◌, length, vec_capacity};
    ghost use Rattle.mp_edge.specs.Memory.{SinkState};

    ghost Value = { SinkState };

    ghost view = { λ s. record { held = s.held.items; room = s.room; fails = s.fails.items; calls = s.calls; faults = s.faults } };

    ghost invariant = { λ s. (length s.held.items ≤ s.room) × (s.room ≤ vec_capacity s.held) };
}

// What the first entry of this number keeps.
fn kept(fails: &[(u64, usize)], number: u64) -> Option<usize>
    ensures { result ≡ kept_by fails.now number }
{
    for (listed, keeps) in fails {
        if *listed == number {
            return Some(*keeps);
        }
    }
    None
}

impl MemSink {
    /// An empty sink with room for this many bytes, taken at once. Calls are numbered from 1.
    /// A listed call fails and keeps at most the bytes that its entry says; of two entries of one number the first counts.
    pub fn new(alloc: Global, room: usize, fails: &[(u64, usize)]) -> Result<MemSink, NoMemory>
        ensures { IfOk result (λ s. s ≡ record { held = []; room = room; fails = fails.now; calls = 0; faults = 0 }) }
    {
        Ok(MemSink {
            held: Vec::with_capacity(alloc, room)?,
            room,
            fails: Vec::from_slice(alloc, fails)?,
            calls: 0,
            faults: 0,
        })
    }

    /// What the sink holds.
    pub fn bytes(&self) -> &[u8]
        ensures { result.now ≡ self.now.held }
    {
        &self.held
    }
}

impl Sink for MemSink {
    ghost held = { λ s. Some s.held };

    ghost faults = { λ s. s.faults };

    /// Takes no memory. A call that is not listed and does not fit keeps nothing.
    fn put(&mut self, bytes: &[u8]) -> Result<(), Failed>
        ensures bytes { Tells (Some self.old.held) (Some self.new.held) (Puts result bytes.now) }
        ensures cause { HasCause self.old.faults self.new.faults result }
        ensures exactly { IsErr result ↔ IsTrue (put_fails self.old bytes.now) }
        ensures held { self.new.held ≡ self.old.held ++ added self.old bytes.now }
        ensures ok { OnOk result (self.new ≡ record self.old { held = self.new.held; calls = next_count self.old.calls }) }
        ensures err { OnErr result (self.new ≡ record self.old { held = self.new.held; calls = next_count self.old.calls; faults = next_count self.old.faults }) }
    {
        self.calls = self.calls.saturating_add(1);
        let free = self.room - self.held.len();
        let keeps = match kept(&self.fails, self.calls) {
            Some(keeps) => keeps.min(free).min(bytes.len()),
            None if bytes.len() <= free => {
                let _ = self.held.extend_from_slice(bytes);
                return Ok(());
            }
            None => 0,
        };
        let _ = self.held.extend_from_slice(&bytes[..keeps]);
        self.faults = self.faults.saturating_add(1);
        Err(Failed)
    }
}

/// A store of given files. Its listed calls fail, and so does one for a name that it has no file of.
#[derive(Drop)]
pub struct MemStore {
    files: Vec<(String, Vec<u8>)>,
    fails: Vec<u64>,
    calls: u64,
    faults: u64,
}

impl Model for MemStore {
    ghost use Rattle.mp_edge.specs.Memory.{StoreState, names_and_bytes};

    ghost Value = { StoreState };

    ghost view = { λ s. record { files = names_and_bytes s.files.items; fails = s.fails.items; calls = s.calls; faults = s.faults } };
}

// The bytes of the first file of this name, unless the call of this number is listed.
fn found<'a>(
    files: &'a [(String, Vec<u8>)],
    fails: &[u64],
    number: u64,
    name: &str,
) -> Option<&'a [u8]>
    ensures { option_map (λ bytes. bytes.now) result ≡ file_found (names_and_bytes files.now) fails.now number name.now }
{
    if fails.contains(&number) {
        return None;
    }
    for (called, bytes) in files {
        if called.as_str() == name {
            return Some(bytes);
        }
    }
    None
}

impl MemStore {
    /// A store of these files. Calls are numbered from 1, and those whose numbers are listed fail.
    /// Of two files of one name the first counts.
    pub fn new(
        alloc: Global,
        files: Vec<(String, Vec<u8>)>,
        fails: &[u64],
    ) -> Result<MemStore, NoMemory>
        ensures { IfOk result (λ s. s ≡ record { files = names_and_bytes files.items; fails = fails.now; calls = 0; faults = 0 }) }
    {
        Ok(MemStore {
            files,
            fails: Vec::from_slice(alloc, fails)?,
            calls: 0,
            faults: 0,
        })
    }
}

impl Store for MemStore {
    ghost files = { λ s. Some s.files };

    ghost faults = { λ s. s.faults };

    /// It fails exactly where its number is listed or no file has that name, also for a file that is too long.
    fn read(
        &mut self,
        _alloc: Global,
        name: &str,
        into: &mut Vec<u8>,
        most: usize,
    ) -> Result<(), StoreFault>
        requires { into.old.items ≡ [] }
        ensures same { Tells (Some self.old.files) (Some self.new.files) (λ was now. now ≡ was) }
        ensures ok { OnOk result (OfFile (Some self.old.files) name.now (λ bytes. (into.new.items ≡ bytes) × (length bytes ≤ most))) }
        ensures bound { OnOk result (vec_len into.new ≤ most) }
        ensures too_long { IsErrOf result StoreFault.TooLong → OfFile (Some self.old.files) name.now (λ bytes. most < length bytes) }
        ensures failed { IsErrOf result StoreFault.Failed → Rose self.old.faults self.new.faults }
        ensures later { self.old.faults ≤ self.new.faults }
        ensures refused { OnErr result (into.new.items ≡ []) }
        ensures failed_exactly { IsErrOf result StoreFault.Failed ↔ IsNone (next_found self.old name.now) }
        ensures too_long_exactly { IsErrOf result StoreFault.TooLong ↔ IsSomeAnd (next_found self.old name.now) (λ bytes. most < length bytes) }
        ensures after { self.new ≡ record self.old { calls = next_count self.old.calls; faults = (if is_none (next_found self.old name.now) then next_count self.old.faults else self.old.faults) } }
    {
        self.calls = self.calls.saturating_add(1);
        let Some(bytes) = found(&self.files, &self.fails, self.calls, name) else {
            self.faults = self.faults.saturating_add(1);
            return Err(StoreFault::Failed);
        };
        if most < bytes.len() {
            return Err(StoreFault::TooLong);
        }
        if into.extend_from_slice(bytes).is_err() {
            return Err(StoreFault::NoMemory);
        }
        Ok(())
    }
}

#[cfg(test)]
mod tests {
    use super::*;
    use std::test::Fail;

    #[test]
    fn source_gives_pieces_and_fails_where_listed(rt: HostRuntime) -> Result<(), Fail> {
        let mut source = MemSource::new(rt.alloc(), b"abcdefgh", 3, &[2, 5, 5])?;
        let mut buf = [0u8; 8];
        let rows: [(usize, Result<&str, Failed>); 7] = [
            (8, Ok("abc")),
            (8, Err(Failed)),
            (2, Ok("de")),
            (3, Ok("fgh")),
            (3, Err(Failed)),
            (3, Ok("")),
            (8, Ok("")),
        ];
        for (i, (room, want)) in rows.iter().enumerate() {
            let taken = source.take(&mut buf[..*room]);
            assert_eq!(rt; taken, want.map(|bytes| bytes.len()), "in call {i}");
            if let Ok(text) = want {
                assert_eq!(rt; buf[..text.len()], *text.as_bytes(), "in call {i}");
            }
        }
        assert_eq!(rt; source.faults, 2);
        Ok(())
    }

    // The sink answers so, and then holds this.
    fn puts(sink: &mut MemSink, bytes: &str, want: Result<(), Failed>, held: &str) -> bool {
        sink.put(bytes.as_bytes()) == want && sink.bytes() == held.as_bytes()
    }

    #[test]
    fn sink_keeps_what_entries_and_room_allow(rt: HostRuntime) -> Result<(), Fail> {
        let mut sink = MemSink::new(rt.alloc(), 5, &[(2, 2), (2, 9), (4, 9)])?;
        let rows = [
            ("ab", Ok(()), "ab"),
            ("cde", Err(Failed), "abcd"),
            ("xy", Err(Failed), "abcd"),
            ("efg", Err(Failed), "abcde"),
            ("", Ok(()), "abcde"),
            ("h", Err(Failed), "abcde"),
        ];
        for (bytes, want, held) in rows.iter() {
            assert!(rt; puts(&mut sink, bytes, *want, held), "at {bytes}");
        }
        assert!(rt; sink.faults == 4);
        Ok(())
    }

    // The store answers so, and then has handed over this.
    fn reads(
        alloc: Global,
        store: &mut MemStore,
        (name, most): (&str, usize),
        want: Result<(), StoreFault>,
        text: &str,
    ) -> bool {
        let mut into = Vec::new(alloc);
        store.read(alloc, name, &mut into, most) == want && into.as_slice() == text.as_bytes()
    }

    #[test]
    fn store_reads_the_first_file_of_a_name(rt: HostRuntime) -> Result<(), Fail> {
        let alloc = rt.alloc();
        let mut files = Vec::new(alloc);
        for (name, bytes) in [("net", "one"), ("cert", "four"), ("net", "twice")] {
            let name = String::from_str(alloc, name)?;
            files.push((name, Vec::from_slice(alloc, bytes.as_bytes())?))?;
        }
        let mut store = MemStore::new(alloc, files, &[2])?;
        let rows = [
            ("net", 3, Ok(()), "one"),
            ("net", 3, Err(StoreFault::Failed), ""),
            ("net", 3, Ok(()), "one"),
            ("cert", 3, Err(StoreFault::TooLong), ""),
            ("cert", 4, Ok(()), "four"),
            ("vector", 9, Err(StoreFault::Failed), ""),
        ];
        for (name, most, want, text) in rows.iter() {
            assert!(rt;
                reads(alloc, &mut store, (name, *most), *want, text),
                "at {name}"
            );
        }
        assert!(rt; store.faults == 2);
        Ok(())
    }
}
