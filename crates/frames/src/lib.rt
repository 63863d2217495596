// Pages in the room: a page cache in one lent slice, without any disk.
//
// The slice has 120 frames of 512 words and a table page. The table says which page stands in which frame, which frames are changed (the
// batch, in the order in which they were entered), which are pinned, and which leaves next.
#![tactic(auto)]

mod change;
mod guard;
mod layout;
mod look;
mod slot;
#[cfg(test)]
mod tests;

pub use change::FramesMut;
pub use guard::{Pinned, Writable, enter, pin};
pub use layout::{BATCH, FRAME_COUNT, PART_WORDS, copy_out, frame};
pub use look::Frames;
pub use pages::PAGE_WORDS;
pub use slot::Slot;
