//! The cases of a suite, one a line.

use crate::asking::asked;
use crate::calls::{Answer, Outside, call, call_without_memory, calm, text};
use crate::failing::{cuts, failing};
use crate::files::{Files, Stop, changed, lines, longer, padded, word};
use std::alloc::Global;

fn number(word: &str) -> Result<u64, Stop> {
    word.parse::<u64>().ok().ok_or(Stop::Unwritten)
}

fn size(word: &str) -> Result<usize, Stop> {
    word.parse::<usize>().ok().ok_or(Stop::Unwritten)
}

fn byte(word: &str) -> Result<u8, Stop> {
    word.parse::<u8>().ok().ok_or(Stop::Unwritten)
}

// PIECE STORE READ WRITE KEEP
fn outside_of(case: &str) -> Result<Outside, Stop> {
    let (piece, case) = word(case)?;
    let (store, case) = word(case)?;
    let (read, case) = word(case)?;
    let (write, keep) = word(case)?;
    Ok(Outside {
        piece: size(piece)?,
        store: number(store)?,
        read: number(read)?,
        write: number(write)?,
        error: 0,
        keep: size(keep)?,
    })
}

// Adds the file that the case makes; none where it makes none.
fn made(files: &mut Files, command: &str, case: &str) -> Result<Option<()>, Stop> {
    let alloc = files.alloc();
    if !matches!(command, "text" | "change" | "pad" | "byte" | "repeat") {
        return Ok(None);
    }
    let (name, case) = word(case)?;
    if command == "text" {
        files.add(name, lines(alloc, case)?.into_bytes())?;
        return Ok(Some(()));
    }
    let (of, case) = word(case)?;
    let bytes = match command {
        "change" => match changed(alloc, files.text(of)?, case)? {
            Some(text) => text.into_bytes(),
            None => return Err(Stop::Unwritten),
        },
        "pad" => padded(alloc, files.bytes(of), b'#', size(case)?)?,
        "byte" => longer(alloc, files.bytes(of), byte(case)?)?,
        _ => lines(alloc, case)?
            .as_str()
            .repeat(alloc, size(of)?)?
            .into_bytes(),
    };
    files.add(name, bytes)?;
    Ok(Some(()))
}

// Says what the program answered.
fn tell(alloc: Global, answer: &Answer, out: &mut String) -> Result<(), Stop> {
    let written = text(&answer.out)?;
    let end = if written.is_empty() || written.ends_with('\n') {
        ""
    } else {
        "\n"
    };
    let told = text(&answer.err)?;
    let mark = if told.is_empty() { "" } else { "! " };
    out.push_str(format!(in alloc; "{}\n{written}{end}{mark}{told}", answer.status)?.as_str())?;
    Ok(())
}

// Calls the program, and keeps what it put as a file.
fn saved(files: &mut Files, case: &str, out: &mut String) -> Result<(), Stop> {
    let alloc = files.alloc();
    let (name, words) = word(case)?;
    let answer = call(files, &calm(), words)?;
    files.add(name, Vec::from_slice(alloc, answer.out.bytes())?)?;
    out.push_str(format!(in alloc; "{}\n", answer.status)?.as_str())?;
    Ok(())
}

fn answered(
    files: &mut Files,
    outside: &Outside,
    command: &str,
    case: &str,
    out: &mut String,
) -> Result<(), Stop> {
    let alloc = files.alloc();
    out.push_str(format!(in alloc; "> {command} {case}\n")?.as_str())?;
    match command {
        "top" => tell(alloc, &call(files, outside, case)?, out),
        "full" => tell(alloc, &call_without_memory(alloc, case)?, out),
        "save" => saved(files, case, out),
        "failing" => failing(files, case, out),
        "cuts" => cuts(files, case, out),
        _ => {
            out.push_str(asked(files, command, case)?.as_str())?;
            Ok(())
        }
    }
}

/// Replays the cases, and writes each with its answer behind the text.
pub fn replay(files: &mut Files, suite: &str, out: &mut String) -> Result<(), Stop> {
    let mut outside = calm();
    for line in suite.lines() {
        let Some((command, case)) = line.split_once(' ') else {
            continue;
        };
        if command == "#" || made(files, command, case)?.is_some() {
            continue;
        }
        if command == "with" {
            outside = outside_of(case)?;
        } else {
            answered(files, &outside, command, case, out)?;
            outside = calm();
        }
    }
    Ok(())
}
