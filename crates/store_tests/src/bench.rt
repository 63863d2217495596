// A store on a disk in memory, on which the power may go.
ghost use Rattle.std.specs.Prelude.{◌≡◌, IsTrue, OnOk, IfOk, ◌≤◌};
ghost use Rattle.deals.specs.Disk.{Blank};
ghost use Rattle.deals.specs.Drives.{medium_of};
ghost use Rattle.memdisk.specs.Memory.{disk_of};
ghost use Rattle.frames.specs.Frames.{Sound as Framed};
ghost use Rattle.store.specs.Store.{frames_of};
ghost use Rattle.store_tests.specs.Bench.{Sane, Up, Changeable};

use crate::acts;
use crate::acts::DATA;
use crate::stop::Stop;
use deals::{Pages, Power};
use frames::{BATCH, Frames};
use memdisk::{MemDisk, NoRoom};
use pages::PAGE_WORDS;
use std::alloc::Global;
use store::head::{Record, Root, record_at};
use store::{Gone, Part, Store, queue_pages, scratch, write_page};

const NOWHERE: Root = Root {
    page: 0,
    height: 0,
    pairs: 0,
    free: 0,
    used: 0,
};

/// An act that answers `Gone` may have been done or not; the power is off then, and `come_up` is the next.
#[derive(Drop)]
pub struct Bench<'a> {
    disk: MemDisk<'a>,
    part: &'a mut Part,
    store: Store,
    ghost sane: { Sane (medium_of (disk_of disk)) part.now store },
}

impl<'a> Bench<'a> {
    /// A blank disk, without power.
    pub fn new(mut disk: MemDisk<'a>, part: &'a mut Part) -> Bench<'a>
        requires { Blank (disk_of disk) }
    {
        let _ = disk.set_cut(0, 0);
        let store = Store {
            fresh: false,
            imaged: false,
            lasted: false,
            root: NOWHERE,
            worked: 0,
        };
        Bench { disk, part, store }
    }

    /// The power goes at the n-th asking from here on, or at once at 0.
    pub fn set_cut(&mut self, n: u64, choice: u64) -> Result<(), NoRoom> {
        self.disk.set_cut(n, choice)
    }

    /// The power comes back, and the store comes up. Nothing is left of what was in memory.
    pub fn come_up(&mut self) -> Result<(), Stop> {
        if self.disk.is_on() {
            return Err(Stop::NotNow);
        }
        self.disk.back(self.part.as_mut_slice());
        self.disk.allow(129);
        self.store = acts::open(&mut self.disk, self.part)?;
        Ok(())
    }

    // The power is on, and the disk may be asked that often.
    fn up(&mut self, asks: u64) -> Result<(), Gone>
        ensures up { OnOk result (Up asks (medium_of (disk_of self.new.disk)) self.new.part.now self.new.store) }
    {
        if !self.disk.is_on() {
            return Err(Gone);
        }
        self.disk.allow(asks);
        Ok(())
    }

    fn can_change(&self, p: u64) -> bool
        requires { Framed (frames_of self.now.part.now) }
        ensures { IsTrue result → Changeable (disk_of self.now.disk).pages self.now.part.now self.now.store p }
    {
        let frames = Frames::new(&self.part[..frames::PART_WORDS]);
        frames.batch_len() < BATCH && !self.store.imaged && p >= DATA && p < self.disk.pages()
    }

    /// A record at the queue's end.
    pub fn append(&mut self, item: Record) -> Result<(), Stop> {
        self.up(1)?;
        acts::append(&mut self.disk, self.part, &mut self.store, item)
    }

    /// The appended records last.
    pub fn seal(&mut self) -> Result<(), Stop> {
        self.up(3)?;
        acts::seal(&mut self.disk, self.part, &mut self.store)
    }

    /// The changed pages go to the slots.
    pub fn image(&mut self) -> Result<(), Stop> {
        self.up(64)?;
        acts::image(&mut self.disk, self.part, &mut self.store)
    }

    /// The imaged batch is taken, and the appended records last with it.
    pub fn take(&mut self) -> Result<(), Stop> {
        self.up(67)?;
        acts::take(&mut self.disk, self.part, &mut self.store)
    }

    /// The page has other words in memory.
    pub fn write(&mut self, p: u64, words: &[u64; PAGE_WORDS]) -> Result<(), Stop> {
        self.up(0)?;
        if !self.can_change(p) {
            return Err(Stop::NotNow);
        }
        write_page(self.part, p, words);
        Ok(())
    }

    /// The page is free in memory.
    pub fn release(&mut self, p: u64) -> Result<(), Stop> {
        self.up(0)?;
        if !self.can_change(p) {
            return Err(Stop::NotNow);
        }
        self.store.release(self.part, p);
        Ok(())
    }

    /// What the page holds, in memory or on the disk.
    pub fn read(&mut self, p: u64) -> Result<[u64; PAGE_WORDS], Stop> {
        self.up(1)?;
        acts::read(&mut self.disk, self.part, &self.store, p)
    }

    /// A page to use, in memory.
    pub fn alloc(&mut self) -> Result<u64, Stop> {
        self.up(1)?;
        acts::alloc(&mut self.disk, self.part, &mut self.store)
    }

    /// So many records at the queue's front are worked into the pages.
    pub fn work(&mut self, records: u64) {
        self.store.worked = records;
    }

    /// Another tree: its root page, its height and its pairs.
    pub fn root_at(&mut self, page: u64, height: u64, pairs: u64) {
        let Root { free, used, .. } = self.store.root;
        self.store.root = Root {
            page,
            height,
            pairs,
            free,
            used,
        };
    }

    /// The root as memory has it.
    pub fn root(&self) -> Root {
        self.store.root
    }

    fn pages_of_queue(&mut self) -> Result<u64, Gone> {
        self.up(0)?;
        Ok(queue_pages(self.part))
    }

    /// The queue, read page by page.
    pub fn queue(&mut self, alloc: Global) -> Result<Vec<Record>, Stop> {
        let mut records = Vec::new(alloc);
        for i in 0..self.pages_of_queue()? {
            self.up(1)?;
            let places = acts::load(&mut self.disk, self.part, &self.store, i)?;
            for j in places.start..places.end {
                records.push(record_at(scratch(self.part), j))?;
            }
        }
        Ok(records)
    }
}
