// What is done to a store, one after the other.
use store::head::Record;

/// A page is given by its place behind the first data page. `Work` says how many records at the queue's front are worked in by now, and
/// `Restart` takes the power away at once, with a choice of what that leaves, and brings it back.
#[derive(Clone, Copy, Debug)]
pub enum Act {
    Append(Record),
    Seal,
    Image,
    Take,
    Write { page: u8, word: u64 },
    Read { page: u8 },
    Alloc,
    Release { page: u8 },
    Work { records: u16 },
    Root { page: u64, height: u64, pairs: u64 },
    Restart { choice: u64 },
}
