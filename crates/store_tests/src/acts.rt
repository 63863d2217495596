// The acts of the store on a disk of the statements. Each is tested first for what the store needs of its caller, and takes the disk for
// itself while it works: of a disk that is a field it wouldn't be known what it ends as.
ghost use Rattle.std.specs.Prelude.{◌≡◌, ℕ, ◌<◌, ◌≤◌, IsTrue, IfOk, MatchResult};
ghost use Rattle.deals.specs.Drives.{medium_of};
ghost use Rattle.store.specs.State.{Rested};
ghost use Rattle.store_tests.specs.Bench.{Sane, Up, Usable};

use crate::stop::Stop;
use deals::Pages;
use deals::drive::Drive;
use pages::PAGE_WORDS;
use std::ops::Range;
use store::head::{Record, Root};
use store::{Gone, Part, Store, queue_len, queue_pages};

/// Where the data pages begin.
pub const DATA: u64 = 393;

// So many records a queue may have.
const QUEUE: u64 = 32768;

// So many pages a disk may have.
const MOST_PAGES: u64 = 4294967296;

/// After the power came back.
pub fn open<D: Pages>(disk: &mut D, part: &mut Part) -> Result<Store, Gone>
    requires rested { Rested (medium_of (D.disk disk.old)) }
    requires asks { 129 ≤ (D.disk disk.old).left }
    ensures { MatchResult result (λ z. Sane (medium_of (D.disk disk.new)) part.new z) (λ _. (z : Store) → Sane (medium_of (D.disk disk.new)) part.new z) }
{
    let mut drive = Drive { disk };
    Store::open(&mut drive, part)
}

/// A record at the queue's end.
pub fn append<D: Pages>(
    disk: &mut D,
    part: &mut Part,
    store: &mut Store,
    item: Record,
) -> Result<(), Stop>
    requires { Up 1 (medium_of (D.disk disk.old)) part.old store.old }
    ensures { Sane (medium_of (D.disk disk.new)) part.new store.new }
{
    if queue_len(part) >= QUEUE {
        return Err(Stop::NotNow);
    }
    let mut drive = Drive { disk };
    store.append(&mut drive, part, item)?;
    Ok(())
}

/// The appended records last.
pub fn seal<D: Pages>(disk: &mut D, part: &Part, store: &mut Store) -> Result<(), Stop>
    requires { Up 3 (medium_of (D.disk disk.old)) part.now store.old }
    ensures { Sane (medium_of (D.disk disk.new)) part.now store.new }
{
    let mut drive = Drive { disk };
    store.seal(&mut drive, part)?.spend();
    Ok(())
}

/// The changed pages go to the slots.
pub fn image<D: Pages>(disk: &mut D, part: &Part, store: &mut Store) -> Result<(), Stop>
    requires { Up 64 (medium_of (D.disk disk.old)) part.now store.old }
    ensures { Sane (medium_of (D.disk disk.new)) part.now store.new }
{
    let mut drive = Drive { disk };
    store.image(&mut drive, part)?;
    Ok(())
}

/// The imaged batch is taken.
pub fn take<D: Pages>(disk: &mut D, part: &mut Part, store: &mut Store) -> Result<(), Stop>
    requires { Up 67 (medium_of (D.disk disk.old)) part.old store.old }
    ensures { Sane (medium_of (D.disk disk.new)) part.new store.new }
{
    if !store.imaged || store.worked > queue_len(part) {
        return Err(Stop::NotNow);
    }
    let mut drive = Drive { disk };
    store.take_batch(&mut drive, part)?.spend();
    Ok(())
}

/// What a data page holds.
pub fn read<D: Pages>(
    disk: &mut D,
    part: &mut Part,
    store: &Store,
    p: u64,
) -> Result<[u64; PAGE_WORDS], Stop>
    requires { Up 1 (medium_of (D.disk disk.old)) part.old store.now }
    ensures { Sane (medium_of (D.disk disk.new)) part.new store.now }
{
    if p < DATA || p >= disk.pages() {
        return Err(Stop::NotNow);
    }
    let mut words = [0; PAGE_WORDS];
    let mut drive = Drive { disk };
    store.read_page(&mut drive, part, p, words.as_mut_slice())?;
    Ok(words)
}

// The top of the free list, if there is one, and a page that was never used, are pages of the disk.
fn has_pages(pages: u64, store: &Store) -> bool
    ensures { IsTrue result → Usable pages store.now }
{
    let Root { free, used, .. } = store.root;
    let is_listed = free == 0 || free >= DATA && free < pages;
    is_listed && used < pages.saturating_sub(DATA) && pages <= MOST_PAGES
}

/// A page to use.
pub fn alloc<D: Pages>(disk: &mut D, part: &mut Part, store: &mut Store) -> Result<u64, Stop>
    requires { Up 1 (medium_of (D.disk disk.old)) part.old store.old }
    ensures { Sane (medium_of (D.disk disk.new)) part.new store.new }
{
    if !has_pages(disk.pages(), store) {
        return Err(Stop::NotNow);
    }
    let mut drive = Drive { disk };
    Ok(store.alloc(&mut drive, part)?)
}

/// Page i of the queue is read. The range says where its records stand.
pub fn load<D: Pages>(
    disk: &mut D,
    part: &mut Part,
    store: &Store,
    i: u64,
) -> Result<Range<usize>, Stop>
    requires { Up 1 (medium_of (D.disk disk.old)) part.old store.now }
    ensures sane { Sane (medium_of (D.disk disk.new)) part.new store.now }
    ensures near { IfOk result (λ r. r.end ≤ 128) }
{
    if i >= queue_pages(part) {
        return Err(Stop::NotNow);
    }
    let mut drive = Drive { disk };
    Ok(store.load_queue_page(&mut drive, part, i)?)
}
