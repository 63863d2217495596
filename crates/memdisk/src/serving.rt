// The three askings, and the power that comes back.
ghost use Rattle.std.specs.Prelude.{◌≡◌, ℕ, ◌<◌, false, length, is_ok, slice_index};
ghost use Rattle.deals.specs.Disk.{MayAsk, Reading, Writing, Syncing, Back};
ghost use Rattle.memdisk.specs.Mixing.{mix_of};
ghost use Rattle.memdisk.specs.Memory.{choice_of, disk_of, Counts, Backs};

use crate::MemDisk;
use crate::asking::Outage;
use crate::keeping::{Entry, leave};
use crate::mix::scramble;
use deals::{Gone, Pages, Power};
use pages::{pages_in, put_page};

impl<'a> Pages for MemDisk<'a> {
    ghost disk = { disk_of };

    fn pages(&self) -> u64 {
        pages_in(self.shown) as u64
    }

    fn read(&mut self, p: u64, into: &mut [u64]) -> Result<(), Gone>
        requires { (MayAsk (disk_of self.old) p) × (length into.old ≡ 512) }
        ensures reads { Reading (disk_of self.old) p into.new (is_ok result) (disk_of self.new) }
        ensures counts { Counts self.old (is_ok result) self.new }
    {
        self.ask()?;
        into.copy_from_slice(self.look(p));
        Ok(())
    }

    // What page p shows is kept, since a cut may still leave that; or, where the cut comes with the write, the bytes.
    // A write that a cut meets uses up two askings, and so does a sync that isn't done: that is the trait's rule.
    fn write(&mut self, p: u64, bytes: &[u64]) -> Result<(), Gone>
        requires { (MayAsk (disk_of self.old) p) × (length bytes.now ≡ 512) }
        ensures writes { Writing (disk_of self.old) p bytes.now (is_ok result) (disk_of self.new) }
        ensures counts { Counts self.old (is_ok result) self.new }
    {
        match self.ask() {
            Ok(()) => {
                self.keep_shown(p);
                put_page(self.shown, p as usize, bytes);
                Ok(())
            }
            Err(Outage::Cut) => {
                self.keep(Entry::of(p, bytes));
                self.left = self.left.saturating_sub(1);
                Err(Gone)
            }
            Err(Outage::Dark) => Err(Gone),
        }
    }

    #[tactic(auto, using(crate::proofs::Disks::syncing_done, crate::proofs::Disks::syncing_goes))]
    fn sync(&mut self) -> Result<(), Gone>
        requires { 0 < (disk_of self.old).left }
        ensures syncs { Syncing (disk_of self.old) (is_ok result) (disk_of self.new) }
        ensures counts { Counts self.old (is_ok result) self.new }
    {
        if self.ask().is_err() {
            self.left = self.left.saturating_sub(1);
            return Err(Gone);
        }
        self.saved.clear();
        Ok(())
    }
}

impl<'a> Power for MemDisk<'a> {
    fn allow(&mut self, asks: u64) {
        self.left = asks;
    }

    // Of each page one of what may be left of it is chosen, and lasts. The room is filled, so that nothing comes to rely
    // on what stood there.
    fn back(&mut self, room: &mut [u64])
        requires { (disk_of self.old).on ≡ false }
        ensures back { Back (disk_of self.old) (disk_of self.new) }
        ensures chosen { Backs self.old self.new }
        ensures room { (i : ℕ) → i < length room.new → slice_index room.new i ≡ mix_of (choice_of self.old) i }
    {
        let choice = self.cut.take().unwrap();
        leave(self.shown, self.saved.items(), choice);
        self.saved.clear();
        scramble(room, choice);
    }
}
