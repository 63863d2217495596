// The cuts: how they are set, and what each asking of the disk does first, which is to count.
ghost use Rattle.std.specs.Prelude.{◌≡◌, ◌<◌, ◌||◌, length, if◌then◌else◌, ◌==◌, nat_eq, nat_lt, is_ok};
ghost use Rattle.memdisk.specs.Memory.{cut_room, dues_in, disk_of, with_cut, unlit, Asking};

use crate::MemDisk;
use crate::cuts::Due;
use crate::lent::NoRoom;
use deals::Gone;

/// Why an asking isn't served: a cut comes with it, or the power was off.
#[derive(Clone, Copy, Debug, PartialEq, Eq)]
pub enum Outage {
    Cut,
    Dark,
}

impl From<Outage> for Gone {
    fn from(_outage: Outage) -> Gone {
        Gone
    }
}

impl<'a> MemDisk<'a> {
    /// How many cuts are set.
    pub fn pending(&self) -> usize
        ensures { result ≡ length (dues_in self.now) }
    {
        self.due.len()
    }

    /// The power goes at the n-th asking from here on, and at 0 at once. Where no more cuts can be set nothing changes.
    /// Two numbers and no `Due`, which is a cut that is still to come: at 0 there is none.
    pub fn set_cut(&mut self, n: u64, choice: u64) -> Result<(), NoRoom>
        ensures told { is_ok result ≡ (n == 0 || nat_lt (length (dues_in self.old)) (cut_room self.old)) }
        ensures dues { dues_in self.new ≡ with_cut (cut_room self.old) (record { asks = n; choice = choice }) (dues_in self.old) }
        ensures room { cut_room self.new ≡ cut_room self.old }
        ensures disk { disk_of self.new ≡ (if nat_eq n 0 then unlit (disk_of self.old) else disk_of self.old) }
        ensures cut { self.new.cut ≡ (if nat_eq n 0 then Some choice else self.old.cut) }
    {
        if n == 0 {
            self.cut = Some(choice);
            return Ok(());
        }
        self.due.try_push(Due { asks: n, choice })
    }

    pub(crate) fn ask(&mut self) -> Result<(), Outage>
        requires { 0 < self.old.left }
        ensures { Asking self.old result self.new }
    {
        self.left -= 1;
        if self.cut.is_some() {
            return Err(Outage::Dark);
        }
        self.cut = self.due.count_down();
        match self.cut {
            None => Ok(()),
            Some(_) => Err(Outage::Cut),
        }
    }
}
