//! The files that the cases name.

use std::alloc::{AllocError, AllocFailed, Global};

/// Why a case has no answer.
#[derive(Debug, Drop)]
pub enum Stop {
    /// It is not written as a case.
    Unwritten,
    NoMemory,
}

impl From<AllocError> for Stop {
    fn from(_error: AllocError) -> Stop {
        Stop::NoMemory
    }
}

impl<T: Drop> From<AllocFailed<T>> for Stop {
    fn from(_error: AllocFailed<T>) -> Stop {
        Stop::NoMemory
    }
}

/// Files by name; the last of a name counts.
#[derive(Drop)]
pub struct Files {
    alloc: Global,
    all: Vec<(String, Vec<u8>)>,
}

impl Files {
    pub fn new(alloc: Global) -> Files {
        Files {
            alloc,
            all: Vec::new(alloc),
        }
    }

    pub fn alloc(&self) -> Global {
        self.alloc
    }

    pub fn add(&mut self, name: &str, bytes: Vec<u8>) -> Result<(), AllocError> {
        let name = String::from_str(self.alloc, name)?;
        self.all.push((name, bytes))?;
        Ok(())
    }

    /// The bytes of the file, or none where there is no such file.
    pub fn bytes(&self, name: &str) -> &[u8] {
        let mut found: &[u8] = &[];
        for (called, bytes) in self.all.iter() {
            if called.as_str() == name {
                found = bytes.as_slice();
            }
        }
        found
    }

    pub fn text(&self, name: &str) -> Result<&str, Stop> {
        match std::str::from_utf8(self.bytes(name)) {
            Ok(text) => Ok(text),
            Err(_) => Err(Stop::Unwritten),
        }
    }

    /// Those of the files that the words name, as a store takes them.
    pub fn named(&self, words: &[String]) -> Result<Vec<(String, Vec<u8>)>, AllocError> {
        let mut named = Vec::new(self.alloc);
        for word in words {
            let bytes = self.bytes(word.as_str());
            if !bytes.is_empty() {
                let name = String::from_str(self.alloc, word.as_str())?;
                named.push((name, Vec::from_slice(self.alloc, bytes)?))?;
            }
        }
        Ok(named)
    }
}

/// The next word, and what is behind it.
pub fn word(case: &str) -> Result<(&str, &str), Stop> {
    case.split_once(' ').ok_or(Stop::Unwritten)
}

/// Counts with a comma between two.
pub fn naturals(alloc: Global, text: &str) -> Result<Vec<u64>, Stop> {
    let mut all = Vec::new(alloc);
    for number in text.split(',') {
        all.push(number.parse::<u64>().ok().ok_or(Stop::Unwritten)?)?;
    }
    Ok(all)
}

/// Whole numbers with a comma between two; none of an empty text.
pub fn integers(alloc: Global, text: &str) -> Result<Vec<i128>, Stop> {
    let mut all = Vec::new(alloc);
    if text.is_empty() {
        return Ok(all);
    }
    for number in text.split(',') {
        all.push(number.parse::<i128>().ok().ok_or(Stop::Unwritten)?)?;
    }
    Ok(all)
}

/// The text, where `~` stands for a line feed and `^` for a return.
pub fn lines(alloc: Global, text: &str) -> Result<String, AllocError> {
    text.replace(alloc, '~', "\n")?
        .as_str()
        .replace(alloc, '^', "\r")
}

/// The text with these changes: `>` stands between old and new, `&` between two changes. None where one finds
/// nothing to change.
pub fn changed(alloc: Global, text: &str, changes: &str) -> Result<Option<String>, Stop> {
    let mut text = String::from_str(alloc, text)?;
    for change in changes.split('&') {
        let Some((old, new)) = change.split_once('>') else {
            return Err(Stop::Unwritten);
        };
        let (old, new) = (lines(alloc, old)?, lines(alloc, new)?);
        if !text.as_str().contains(old.as_str()) {
            return Ok(None);
        }
        text = text.as_str().replace(alloc, old.as_str(), new.as_str())?;
    }
    Ok(Some(text))
}

/// The bytes followed by enough of another to have this length.
pub fn padded(alloc: Global, bytes: &[u8], byte: u8, length: usize) -> Result<Vec<u8>, AllocError> {
    let mut all = Vec::from_slice(alloc, bytes)?;
    for _ in bytes.len()..length {
        all.push(byte)?;
    }
    Ok(all)
}

/// The bytes with one more behind them.
pub fn longer(alloc: Global, bytes: &[u8], byte: u8) -> Result<Vec<u8>, AllocError> {
    padded(alloc, bytes, byte, bytes.len() + 1)
}
