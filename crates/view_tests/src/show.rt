// What is shown of a play, and why one stops.
use pages::Gone;
use std::alloc::AllocError;
use std::{fmt, io};

#[derive(Debug, Drop)]
pub enum Stop {
    Gone,
    Memory,
    Output,
}

impl From<Gone> for Stop {
    fn from(_gone: Gone) -> Stop {
        Stop::Gone
    }
}

impl From<AllocError> for Stop {
    fn from(_none: AllocError) -> Stop {
        Stop::Memory
    }
}

impl From<io::Error> for Stop {
    fn from(_failed: io::Error) -> Stop {
        Stop::Output
    }
}

/// A key and the word at it, as they are shown.
#[derive(Clone, Copy, PartialEq, Eq, Debug)]
pub struct Entry {
    pub key: u64,
    pub word: u64,
}

impl From<(u64, u64)> for Entry {
    fn from(pair: (u64, u64)) -> Entry {
        Entry {
            key: pair.0,
            word: pair.1,
        }
    }
}

impl fmt::Display for Entry {
    fn fmt<W: fmt::Write>(&self, f: &mut fmt::Formatter<W>) -> fmt::Result {
        write!(f, "{} has {}", self.key, self.word)
    }
}

pub fn show<T: fmt::Display + Copy>(
    rt: &HostRuntime,
    what: &str,
    found: Option<T>,
) -> Result<(), Stop> {
    match found {
        Some(seen) => println!(rt; "{what}: {seen}")?,
        None => println!(rt; "{what}: nothing")?,
    }
    Ok(())
}
