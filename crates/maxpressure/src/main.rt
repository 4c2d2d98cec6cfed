//! The program: real files, standard input, output and error, handed to the top call.
#![tactic(auto)]

use mp_cli::top;
use mp_edge::{FileStore, StdSink, StdSource, WordsFault, read_words};
use std::process::ExitCode;

/// The status of bad words.
const BAD_WORDS: u8 = 1;

/// The status where memory ran out.
const NO_MEMORY: u8 = 12;

fn main(rt: HostRuntime) -> ExitCode {
    let words = match read_words(&rt) {
        Ok(words) => words,
        Err(WordsFault::NotText) => {
            let _ = rt.eprintln("words");
            return ExitCode::from(BAD_WORDS);
        }
        Err(WordsFault::NoMemory) => {
            let _ = rt.eprintln("memory");
            return ExitCode::from(NO_MEMORY);
        }
    };
    let mut store = FileStore::new(rt);
    let mut input = StdSource::new(rt.stdin());
    let mut out = StdSink::new(rt.stdout());
    let mut err = StdSink::new(rt.stderr());
    ExitCode::from(top(
        rt.alloc(),
        &words,
        &mut store,
        &mut input,
        &mut out,
        &mut err,
    ))
}
