//! One failure at each place: each call of an object fails in turn, or the stream is cut at each byte.

use crate::calls::{Answer, Outside, call, call_on, calm, parts, text};
use crate::files::{Files, Stop, word};
use std::alloc::Global;

// What is meant of a text: how many lines of the whole text it has, and how many bytes behind them.
fn front(alloc: Global, part: &str, whole: &str) -> Result<String, Stop> {
    if part == whole {
        return Ok(String::from_str(alloc, "whole")?);
    }
    if !whole.starts_with(part) {
        return Ok(String::from_str(alloc, "other")?);
    }
    let (lines, behind) = match part.rsplit_once('\n') {
        Some((lines, behind)) => (lines.split('\n').count(), behind.len()),
        None => (0, part.len()),
    };
    Ok(format!(in alloc; "{lines}/{behind}")?)
}

// Nothing fails but call n of the object.
fn outside_at(object: &str, piece: usize, keep: usize, n: u64) -> Result<Outside, Stop> {
    let calm = Outside {
        piece,
        keep,
        ..calm()
    };
    match object {
        "store" => Ok(Outside { store: n, ..calm }),
        "read" => Ok(Outside { read: n, ..calm }),
        "write" => Ok(Outside { write: n, ..calm }),
        "error" => Ok(Outside { error: n, ..calm }),
        _ => Err(Stop::Unwritten),
    }
}

// The status, and what is held of the whole output, or of the whole error output where that one fails.
fn told(alloc: Global, object: &str, answer: &Answer, whole: &Answer) -> Result<String, Stop> {
    let held = if object == "error" {
        front(alloc, text(&answer.err)?, text(&whole.err)?)?
    } else {
        front(alloc, text(&answer.out)?, text(&whole.out)?)?
    };
    Ok(format!(in alloc; "{} {}", answer.status, held.as_str())?)
}

/// OBJECT PIECE KEEP CALLS CASE: says what the program does where each of these calls of the object fails, one after
/// the other, and then the one behind them, which it does not make.
pub fn failing(files: &Files, case: &str, out: &mut String) -> Result<(), Stop> {
    let alloc = files.alloc();
    let (object, case) = word(case)?;
    let (piece, case) = word(case)?;
    let (keep, case) = word(case)?;
    let (calls, case) = word(case)?;
    let (Some(piece), Some(keep), Some(calls)) = (
        piece.parse::<usize>().ok(),
        keep.parse::<usize>().ok(),
        calls.parse::<u8>().ok(),
    ) else {
        return Err(Stop::Unwritten);
    };
    let whole = call(files, &calm(), case)?;
    for n in 0..=calls {
        let outside = outside_at(object, piece, keep, u64::from(n) + 1)?;
        let answer = call(files, &outside, case)?;
        let mark = if n == 0 { "" } else { ", " };
        let told = told(alloc, object, &answer, &whole)?;
        out.push_str(format!(in alloc; "{mark}{}", told.as_str())?.as_str())?;
    }
    out.push_str("\n")?;
    Ok(())
}

// The status, and the line on the error output.
fn ended(alloc: Global, answer: &Answer) -> Result<String, Stop> {
    let line = text(&answer.err)?;
    let line = line.strip_suffix('\n').unwrap_or(line);
    let mark = if line.is_empty() { "" } else { " " };
    Ok(format!(in alloc; "{}{mark}{line}", answer.status)?)
}

/// Says how the program ends on the first bytes of the stream, for each number of them, and from which number on.
pub fn cuts(files: &Files, case: &str, out: &mut String) -> Result<(), Stop> {
    let alloc = files.alloc();
    let (words, stream) = parts(files, case)?;
    let mut last = String::new(alloc);
    for n in 0..=stream.len() {
        let Some(front) = stream.get(..n) else {
            return Err(Stop::Unwritten);
        };
        let now = ended(alloc, &call_on(files, &calm(), words, front)?)?;
        if now != last {
            out.push_str(format!(in alloc; "from {n}: {}\n", now.as_str())?.as_str())?;
        }
        last = now;
    }
    Ok(())
}
