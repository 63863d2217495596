// A disk whose power can be cut as a script says.
ghost use Rattle.std.specs.Prelude.{◌≡◌, if◌then◌else◌, nat_eq};
ghost use Rattle.memdisk.specs.Memory.{unlit};

use deals::Pages;
use memdisk::{MemDisk, NoRoom};

pub trait Cuts: Pages {
    // The power goes at the n-th asking from here on, at once for 0. An error where no more cuts can be set.
    // The asking and the choice stay two numbers, as a script's line has them.
    fn set_cut(&mut self, n: u64, choice: u64) -> Result<(), NoRoom>
        ensures { Self.disk self.new ≡ (if nat_eq n 0 then unlit (Self.disk self.old) else Self.disk self.old) };
}

impl Cuts for MemDisk<'_> {
    fn set_cut(&mut self, n: u64, choice: u64) -> Result<(), NoRoom> {
        MemDisk::set_cut(self, n, choice)
    }
}
