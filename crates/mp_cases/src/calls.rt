//! Calls of the program over objects in memory.
ghost use Rattle.std.specs.Prelude.{None};

use crate::files::{Files, Stop, lines};
use mp_cli::top;
use mp_edge::{MemSink, MemSource, MemStore, Store, StoreFault};
use std::alloc::{AllocError, Global};

/// What a call meets outside: the size of the stream's pieces, the calls of the store, the stream, the output and
/// the error output that fail (0 for none), and how many bytes a failing put keeps.
#[derive(Clone, Copy)]
pub struct Outside {
    pub piece: usize,
    pub store: u64,
    pub read: u64,
    pub write: u64,
    pub error: u64,
    pub keep: usize,
}

/// What the program answers.
#[derive(Drop)]
pub struct Answer {
    pub status: u8,
    pub out: MemSink,
    pub err: MemSink,
}

// A store that has no memory for any file.
#[derive(Drop)]
struct FullStore;

impl Store for FullStore {
    ghost files = { λ _. None };

    ghost faults = { λ _. 0 };

    fn read(
        &mut self,
        _alloc: Global,
        _name: &str,
        _into: &mut Vec<u8>,
        _most: usize,
    ) -> Result<(), StoreFault> {
        Err(StoreFault::NoMemory)
    }
}

/// Nothing fails.
pub fn calm() -> Outside {
    Outside {
        piece: 4096,
        store: 0,
        read: 0,
        write: 0,
        error: 0,
        keep: 0,
    }
}

fn words_of(alloc: Global, words: &str) -> Result<Vec<String>, AllocError> {
    let mut all = Vec::new(alloc);
    for word in words.split(' ') {
        all.push(String::from_str(alloc, word)?)?;
    }
    Ok(all)
}

// The stream behind the words: a text, or `@` with the name of a file.
fn stream_of(files: &Files, stream: &str) -> Result<Vec<u8>, AllocError> {
    match stream.strip_prefix('@') {
        Some(name) => Vec::from_slice(files.alloc(), files.bytes(name)),
        None => Vec::from_slice(files.alloc(), lines(files.alloc(), stream)?.as_bytes()),
    }
}

/// The words of a case, and the stream behind ` < `.
pub fn parts<'a>(files: &Files, case: &'a str) -> Result<(&'a str, Vec<u8>), Stop> {
    let (words, stream) = match case.split_once(" < ") {
        Some(both) => both,
        None => (case, ""),
    };
    Ok((words, stream_of(files, stream)?))
}

/// Calls the program with the words, and the stream behind ` < `.
pub fn call(files: &Files, outside: &Outside, case: &str) -> Result<Answer, Stop> {
    let (words, stream) = parts(files, case)?;
    call_on(files, outside, words, &stream)
}

/// Calls the program with the words and the stream.
pub fn call_on(
    files: &Files,
    outside: &Outside,
    words: &str,
    stream: &[u8],
) -> Result<Answer, Stop> {
    let alloc = files.alloc();
    let words = words_of(alloc, words)?;
    let named = files.named(&words)?;
    let piece = outside.piece.max(1);
    let (Ok(mut store), Ok(mut input), Ok(mut out), Ok(mut err)) = (
        MemStore::new(alloc, named, &[outside.store]),
        MemSource::new(alloc, stream, piece, &[outside.read]),
        MemSink::new(alloc, 65536, &[(outside.write, outside.keep)]),
        MemSink::new(alloc, 4096, &[(outside.error, outside.keep)]),
    ) else {
        return Err(Stop::NoMemory);
    };
    let status = top(alloc, &words, &mut store, &mut input, &mut out, &mut err);
    Ok(Answer { status, out, err })
}

/// Calls the program over a store that has no memory for a file.
pub fn call_without_memory(alloc: Global, case: &str) -> Result<Answer, Stop> {
    let words = words_of(alloc, case)?;
    let (Ok(mut input), Ok(mut out), Ok(mut err)) = (
        MemSource::new(alloc, b"", 1, &[]),
        MemSink::new(alloc, 4096, &[]),
        MemSink::new(alloc, 4096, &[]),
    ) else {
        return Err(Stop::NoMemory);
    };
    let mut store = FullStore;
    let status = top(alloc, &words, &mut store, &mut input, &mut out, &mut err);
    Ok(Answer { status, out, err })
}

/// The text that was put.
pub fn text(sink: &MemSink) -> Result<&str, Stop> {
    match std::str::from_utf8(sink.bytes()) {
        Ok(text) => Ok(text),
        Err(_) => Err(Stop::Unwritten),
    }
}
