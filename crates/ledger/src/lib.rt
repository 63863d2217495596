// The book on the disk: a tree and a queue of writes that it hasn't seen yet.
#![tactic(auto)]

mod batch;
mod commit;
mod looks;
mod open;
mod open_part;
mod part;
mod work;

use lines::ring::Ring;
use lines::tables::TABLES_END;
use store::{PART_WORDS, Store};

/// What is noted beside the room: the store, and the queue's place in the room.
#[derive(Drop)]
pub struct Ledger {
    pub store: Store,
    pub queue: Ring,
}

// Where the store's part of the room begins and ends.
const PART_AT: usize = TABLES_END;

const PART_END: usize = PART_AT + PART_WORDS;
