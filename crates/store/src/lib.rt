// The store: the one layer that knows of power cuts, over page frames in memory and over a device.
//
// Whoever calls is lent the device and the part anew each time, so a Store can't hold them: it's what is noted between two calls. A struct
// that is lent all three for one call would be no plainer: each of its methods would have to say of each of the three that it stays lent.
#![tactic(auto)]

mod batch;
mod device;
pub mod head;
pub mod in_slice;
mod lasting;
mod open;
mod part;
mod queue;
mod shown;

pub use device::Device;
use head::Root;
pub use lasting::Lasted;
pub use pages::Gone;
pub use part::{PART_WORDS, Part, next_page, part_of, scratch};
pub use queue::{queue_len, queue_pages};
pub use shown::write_page;

/// fresh: pages of the ring were written since the last sync. imaged: the changed frames stand in the other region,
/// and lasted: a sync came since. root: the tree's, as the frames show it. worked: how many records at the queue's
/// front are worked into the frames and not yet off the queue.
///
/// Three flags and not one of several states: a sync makes the ring's pages and the images last alike, and it sets both flags whether or
/// not images stand.
#[derive(Drop)]
pub struct Store {
    pub fresh: bool,
    pub imaged: bool,
    pub lasted: bool,
    pub root: Root,
    pub worked: u64,
}
