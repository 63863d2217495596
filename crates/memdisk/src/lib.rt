// A disk in memory with power cuts, for trials.
#![tactic(auto)]

ghost use Rattle.std.specs.Prelude.{◌≡◌, ◌≤◌, length};
ghost use Rattle.deals.specs.Disk.{Blank};
ghost use Rattle.pages.specs.Pages.{pages_in};
ghost use Rattle.memdisk.specs.Memory.{cut_room, disk_of, room_of, Fresh};

use lent::Lent;

mod asking;
mod cuts;
mod keeping;
mod lent;
mod mix;
mod serving;

pub use cuts::Due;
pub use keeping::Entry;
pub use lent::NoRoom;

/// What it holds is lent. `shown` has the pages as they are read, one behind the other. `saved` is a table of what pages
/// held before a write since the last sync, the oldest first: what a cut may leave of a page is what it shows, or one of
/// its entries. `due` has the cuts that are set, and `cut` the choice of the one that came: there is none while the power
/// is on.
#[derive(Drop)]
pub struct MemDisk<'a> {
    shown: &'a mut [u64],
    saved: Lent<'a, Entry>,
    due: Lent<'a, Due>,
    cut: Option<u64>,
    left: u64,
}

impl<'a> MemDisk<'a> {
    /// A blank disk.
    pub fn new(shown: &'a mut [u64], saved: &'a mut [Entry], cuts: &'a mut [Due]) -> MemDisk<'a>
        ensures fresh { Fresh shown.old result }
        ensures entries { room_of result ≡ length saved.old }
        ensures room { cut_room result ≡ length cuts.old }
        ensures blank { 1024 ≤ pages_in shown.old → pages_in shown.old ≤ 4294967296 → Blank (disk_of result) }
    {
        shown.fill(0);
        MemDisk {
            shown,
            saved: Lent::new(saved),
            due: Lent::new(cuts),
            cut: None,
            left: 0,
        }
    }

    pub fn is_on(&self) -> bool
        ensures { result ≡ (disk_of self.now).on }
    {
        self.cut.is_none()
    }
}
