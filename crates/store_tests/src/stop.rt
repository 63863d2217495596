// Why a trial stops.
use memdisk::NoRoom;
use pages::Gone;
use std::alloc::{AllocError, AllocFailed};
use std::io;

/// `NotNow`: an act came where it may not. `Wrong`: the store answered what the book doesn't say.
#[derive(Debug, Drop)]
pub enum Stop {
    Gone,
    NotNow,
    Wrong,
    Memory,
    Output,
}

impl From<Gone> for Stop {
    fn from(_gone: Gone) -> Stop {
        Stop::Gone
    }
}

impl From<AllocError> for Stop {
    fn from(_none: AllocError) -> Stop {
        Stop::Memory
    }
}

impl From<io::Error> for Stop {
    fn from(_failed: io::Error) -> Stop {
        Stop::Output
    }
}

// A list that can't grow gives the item back.
impl<T: Drop> From<AllocFailed<T>> for Stop {
    fn from(_none: AllocFailed<T>) -> Stop {
        Stop::Memory
    }
}

impl From<NoRoom> for Stop {
    fn from(_none: NoRoom) -> Stop {
        Stop::NotNow
    }
}
