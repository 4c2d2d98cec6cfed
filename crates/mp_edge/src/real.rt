// The real objects, over what std reads and writes.
ghost use Rattle.std.specs.Prelude.{◌≡◌, ◌≤◌, ◌<◌, ◌↔◌, ℕ, [], None, length, vec_len, is_ok, if◌then◌else◌, IfOk, OnOk, OnErr, IsErrOf};
ghost use Rattle.mp_edge.specs.Outside.{next_count, Rose, HasCause};

use crate::{Failed, Sink, Source, Store, StoreFault};
use std::alloc::Global;
use std::io::{ErrorKind, Read, Write};
use std::marker::Model;
use std::rt::Files;
use std::{fs, io};

/// A source over a reader. It tells nothing of content, and a caller sees it as its count of faults.
#[derive(Drop)]
pub struct StdSource<R: Read + Drop> {
    reader: R,
    faults: u64,
}

impl<R: Read + Drop> Model for StdSource<R> {
    ghost use Rattle.std.specs.Prelude.{ℕ};

    ghost Value = { ℕ };

    ghost view = { λ s. s.faults };
}

impl<R: Read + Drop> StdSource<R> {
    /// A source of what the reader gives, with no fault so far.
    pub fn new(reader: R) -> Self
        ensures { result ≡ 0 }
    {
        StdSource { reader, faults: 0 }
    }
}

impl<R: Read + Drop> Source for StdSource<R> {
    ghost left = { λ _. None };

    ghost faults = { λ s. s };

    /// An error of the reader is a fault.
    fn take(&mut self, buf: &mut [u8]) -> Result<usize, Failed>
        requires { 0 < length buf.old }
        ensures bound { IfOk result (λ n. n ≤ length buf.new) }
        ensures cause { HasCause self.old self.new result }
        ensures after { self.new ≡ (if is_ok result then self.old else next_count self.old) }
    {
        match self.reader.read(buf) {
            Ok(count) => Ok(count),
            Err(_) => {
                self.faults = self.faults.saturating_add(1);
                Err(Failed)
            }
        }
    }
}

/// A sink over a writer. It tells nothing of content, and a caller sees it as its count of faults.
#[derive(Drop)]
pub struct StdSink<W: Write + Drop> {
    writer: W,
    faults: u64,
}

impl<W: Write + Drop> Model for StdSink<W> {
    ghost use Rattle.std.specs.Prelude.{ℕ};

    ghost Value = { ℕ };

    ghost view = { λ s. s.faults };
}

impl<W: Write + Drop> StdSink<W> {
    /// A sink into the writer, with no fault so far.
    pub fn new(writer: W) -> Self
        ensures { result ≡ 0 }
    {
        StdSink { writer, faults: 0 }
    }
}

impl<W: Write + Drop> Sink for StdSink<W> {
    ghost held = { λ _. None };

    ghost faults = { λ s. s };

    /// Writes all bytes and flushes. A write that takes none of its bytes is a fault, and so is a flush that fails.
    fn put(&mut self, bytes: &[u8]) -> Result<(), Failed>
        ensures cause { HasCause self.old self.new result }
        ensures after { self.new ≡ (if is_ok result then self.old else next_count self.old) }
    {
        if self.writer.write_all(bytes).is_ok() && self.writer.flush().is_ok() {
            return Ok(());
        }
        self.faults = self.faults.saturating_add(1);
        Err(Failed)
    }
}

/// A store over the files of a runtime. It tells nothing of content, and a caller sees it as its count of faults.
#[derive(Drop)]
pub struct FileStore<R: Files + Drop> {
    rt: R,
    faults: u64,
}

impl<R: Files + Drop> Model for FileStore<R> {
    ghost use Rattle.std.specs.Prelude.{ℕ};

    ghost Value = { ℕ };

    ghost view = { λ s. s.faults };
}

impl<R: Files + Drop> FileStore<R> {
    /// A store of the files that the runtime opens, with no fault so far.
    pub fn new(rt: R) -> Self
        ensures { result ≡ 0 }
    {
        FileStore { rt, faults: 0 }
    }
}

// Reads no more than a byte above `most`, which shows that the file is longer.
fn read_file<R: Files>(rt: &R, name: &str, into: &mut Vec<u8>, most: usize) -> io::Result<()> {
    let above = (most as u64).saturating_add(1);
    fs::open(rt, name)?.take(above).read_to_end(into)?;
    Ok(())
}

impl<R: Files + Drop> Store for FileStore<R> {
    ghost files = { λ _. None };

    ghost faults = { λ s. s };

    /// A file that is missing or cannot be read is a fault.
    fn read(
        &mut self,
        _alloc: Global,
        name: &str,
        into: &mut Vec<u8>,
        most: usize,
    ) -> Result<(), StoreFault>
        requires { into.old.items ≡ [] }
        ensures bound { OnOk result (vec_len into.new ≤ most) }
        ensures failed { IsErrOf result StoreFault.Failed → Rose self.old self.new }
        ensures later { self.old ≤ self.new }
        ensures refused { OnErr result (into.new.items ≡ []) }
        ensures risen { IsErrOf result StoreFault.Failed → self.new ≡ next_count self.old }
        ensures unchanged { (¬ IsErrOf result StoreFault.Failed) → self.new ≡ self.old }
    {
        let fault = match read_file(&self.rt, name, into, most) {
            Ok(()) if into.len() <= most => return Ok(()),
            Ok(()) => StoreFault::TooLong,
            Err(e) if e.kind() == ErrorKind::OutOfMemory => StoreFault::NoMemory,
            Err(_) => {
                self.faults = self.faults.saturating_add(1);
                StoreFault::Failed
            }
        };
        into.clear();
        Err(fault)
    }
}

#[cfg(test)]
mod tests {
    use super::*;
    use std::test::Fail;
    use std::{env, process};

    // A reader or writer of `left` bytes, at most `piece` a call. Behind them it is closed, or takes and gives nothing.
    #[derive(Drop)]
    struct Pipe {
        left: usize,
        piece: usize,
        closed: bool,
        flush_fails: bool,
        moved: usize,
        flushes: u8,
    }

    impl Pipe {
        fn new(left: usize, piece: usize, closed: bool, flush_fails: bool) -> Pipe {
            Pipe {
                left,
                piece,
                closed,
                flush_fails,
                moved: 0,
                flushes: 0,
            }
        }

        fn pass(&mut self, len: usize) -> io::Result<usize>
            ensures { IfOk result (λ n. n ≤ len) }
        {
            let count = self.piece.min(self.left).min(len);
            if count == 0 && self.closed {
                return Err(ErrorKind::BrokenPipe.into());
            }
            self.left -= count;
            self.moved = self.moved.saturating_add(count);
            Ok(count)
        }
    }

    impl Read for Pipe {
        fn read(&mut self, buf: &mut [u8]) -> io::Result<usize> {
            self.pass(buf.len())
        }
    }

    impl Write for Pipe {
        fn write(&mut self, buf: &[u8]) -> io::Result<usize> {
            self.pass(buf.len())
        }

        fn flush(&mut self) -> io::Result<()> {
            self.flushes = self.flushes.saturating_add(1);
            if self.flush_fails {
                return Err(ErrorKind::BrokenPipe.into());
            }
            Ok(())
        }
    }

    #[test]
    fn source_counts_errors(rt: HostRuntime) {
        let mut source = StdSource::new(Pipe::new(5, 3, true, false));
        for (i, want) in [Ok(3), Ok(2), Err(Failed), Err(Failed)].iter().enumerate() {
            assert!(rt; source.take(&mut [0u8; 4]) == *want, "in call {i}");
        }
        assert!(rt; source.faults == 2);
        let mut ended = StdSource::new(Pipe::new(0, 3, false, false));
        assert!(rt; ended.take(&mut [0u8; 4]) == Ok(0) && ended.faults == 0);
    }

    #[test]
    fn source_hands_out_each_byte(rt: HostRuntime) {
        let mut source = StdSource::new(b"abcdef".as_slice());
        let mut buf = [0u8; 4];
        for want in ["abcd", "ef", ""] {
            assert!(rt; source.take(&mut buf) == Ok(want.len()));
            assert!(rt; &buf[..want.len()] == want.as_bytes());
        }
    }

    // Puts six bytes twice, and compares both answers, the count of faults and what the writer met.
    fn writes(pipe: Pipe, want: [Result<(), Failed>; 2], moved: usize, flushes: u8) -> bool {
        let mut sink = StdSink::new(pipe);
        let first = sink.put(b"abcdef");
        let second = sink.put(b"ghijkl");
        let faults = first.is_err() as u64 + second.is_err() as u64;
        let met = (sink.faults, sink.writer.moved, sink.writer.flushes);
        [first, second] == want && met == (faults, moved, flushes)
    }

    // Each row puts six bytes twice: what the writer has room for, its piece, whether it is closed behind the room,
    // whether its flush fails; then both answers, the bytes written and the flushes.
    #[test]
    fn sink_writes_all_and_flushes(rt: HostRuntime) {
        let rows = [
            (20, 20, true, false, Ok(()), Ok(()), 12, 2),
            (20, 4, true, false, Ok(()), Ok(()), 12, 2),
            (12, 5, false, false, Ok(()), Ok(()), 12, 2),
            (8, 20, false, false, Ok(()), Err(Failed), 8, 1),
            (8, 3, true, false, Ok(()), Err(Failed), 8, 1),
            (0, 20, true, false, Err(Failed), Err(Failed), 0, 0),
            (0, 20, false, false, Err(Failed), Err(Failed), 0, 0),
            (20, 20, true, true, Err(Failed), Err(Failed), 12, 2),
        ];
        for (i, (left, piece, closed, flush_fails, first, second, moved, flushes)) in rows
            .iter()
            .enumerate()
        {
            let pipe = Pipe::new(*left, *piece, *closed, *flush_fails);
            assert!(rt;
                writes(pipe, [*first, *second], *moved, *flushes),
                "in row {i}"
            );
        }
    }

    // A file of 10,000 bytes, above the size of any buffer on the way.
    fn write_sevens(rt: &HostRuntime, name: &str) -> Result<(), Fail> {
        fs::write(rt, name, [7u8; 10_000].as_slice())?;
        Ok(())
    }

    // The store answers so, and then has handed over that many bytes.
    fn reads(
        alloc: Global,
        store: &mut FileStore<HostRuntime>,
        (name, most): (&str, usize),
        want: Result<(), StoreFault>,
        len: usize,
    ) -> bool {
        let mut into = Vec::new(alloc);
        let answer = store.read(alloc, name, &mut into, most);
        answer == want && into.len() == len && into.iter().all(|byte| *byte == 7)
    }

    // A file opened for reading takes no bytes.
    fn is_closed(rt: &HostRuntime, name: &str) -> Result<bool, Fail> {
        let mut sink = StdSink::new(fs::open(rt, name)?);
        Ok(sink.put(b"ab") == Err(Failed) && sink.faults == 1)
    }

    #[test]
    fn store_reads_files_of_the_system(rt: HostRuntime) -> Result<(), Fail> {
        let alloc = rt.alloc();
        let folder = env::temp_dir(&rt)?;
        let number = process::id(rt.process());
        let long = format!(in alloc; "{}/mp_edge_{number}", folder.display())?;
        write_sevens(&rt, long.as_str())?;
        let mut store = FileStore::new(rt);
        let rows = [
            (10_000, Ok(()), 10_000),
            (9_999, Err(StoreFault::TooLong), 0),
            (0, Err(StoreFault::TooLong), 0),
            (usize::MAX, Ok(()), 10_000),
        ];
        for (most, want, len) in rows.iter() {
            let read = reads(alloc, &mut store, (long.as_str(), *most), *want, *len);
            assert!(rt; read, "at {most}");
        }
        assert!(rt; is_closed(&rt, long.as_str())?);
        fs::remove_file(&rt, long.as_str())?;
        let missing = reads(
            alloc,
            &mut store,
            (long.as_str(), 10_000),
            Err(StoreFault::Failed),
            0,
        );
        assert!(rt; missing && store.faults == 1);
        Ok(())
    }
}
