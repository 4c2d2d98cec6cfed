// The words that a program is started with.
use std::io::ErrorKind;
use std::rt::Env;
use std::{env, io};

/// Why the words were not given.
#[derive(Clone, Copy, Debug, PartialEq, Eq)]
pub enum WordsFault {
    /// One of them is no text.
    NotText,
    /// Memory ran out.
    NoMemory,
}

fn words_of(rt: &(impl Env + AllocGlobal)) -> io::Result<Vec<String>> {
    let mut words = Vec::new(rt.alloc());
    for word in env::args(rt)?.skip(1) {
        words.push(word)?;
    }
    Ok(words)
}

/// The words after the program's name.
pub fn read_words(rt: &(impl Env + AllocGlobal)) -> Result<Vec<String>, WordsFault> {
    match words_of(rt) {
        Ok(words) => Ok(words),
        Err(fault) if fault.kind() == ErrorKind::OutOfMemory => Err(WordsFault::NoMemory),
        Err(_) => Err(WordsFault::NotText),
    }
}

#[cfg(test)]
mod tests {
    use super::*;
    use std::env::FillError;
    use std::test::Fail;

    // A program's name of one byte, and a word of this byte.
    #[derive(Drop)]
    struct Given {
        byte: u8,
    }

    impl Env for Given {
        fn arg(&self, i: usize, buf: &mut [u8]) -> Result<usize, FillError> {
            if buf.len() == 0 {
                return Err(FillError::TooLong);
            }
            buf[0] = match i {
                0 => b'm',
                1 => self.byte,
                _ => return Err(FillError::NotPresent),
            };
            Ok(1)
        }

        fn var(&self, _name: &str, _buf: &mut [u8]) -> Result<usize, FillError> {
            Err(FillError::NotPresent)
        }

        fn var_at(&self, _i: usize, _buf: &mut [u8]) -> Result<usize, FillError> {
            Err(FillError::NotPresent)
        }
    }

    #[test]
    fn words_are_text(rt: HostRuntime) -> Result<(), Fail> {
        let alloc = rt.alloc();
        match read_words(&(Given { byte: b'a' }, alloc)) {
            Ok(words) => assert!(rt; words.len() == 1 && words[0].as_str() == "a"),
            Err(_) => assert!(rt; false, "no words"),
        }
        match read_words(&(Given { byte: 0xff }, alloc)) {
            Ok(_) => assert!(rt; false, "words"),
            Err(fault) => assert_eq!(rt; fault, WordsFault::NotText),
        }
        Ok(())
    }
}
