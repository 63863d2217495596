// Where the clerks' tables stand in the room, one behind the other. The lines of their deals stand at its start (`lines::tables`).
use clerk::CLERKS;

/// What each clerk asks, three words each.
pub const ASKS_AT: usize = 259584;

pub const ASK_WORDS: usize = 3;

/// How many lines each clerk's deal has.
pub const COUNTS_AT: usize = ASKS_AT + ASK_WORDS * CLERKS;

/// Those who have asked, in their order, and how many they are.
pub const ORDER_AT: usize = COUNTS_AT + CLERKS;

pub const WAITING_AT: usize = ORDER_AT + CLERKS;
