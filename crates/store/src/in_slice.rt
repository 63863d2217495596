// The store's functions on the slice in which its part stands. What a range of the room ends as is known where it's passed to a call that
// says so, and not where that call only lends it on. So whoever lends the store a range of the room calls one of these: a part that is
// made of the range on the spot wouldn't be known afterwards.
ghost use Rattle.std.specs.Prelude.{◌≡◌, ◌+◌, ◌<◌, ◌≤◌, ◌≢◌, false, not, T, length, replicate, is_ok, MatchResult, slice_set};
ghost use Rattle.frames.specs.Frames.{Sound as Framed, changed, pinned};
ghost use Rattle.store.specs.Medium.{Medium, Reads};
ghost use Rattle.store.specs.Head.{ring_page};
ghost use Rattle.store.specs.State.{queue_by, Rested};
ghost use Rattle.store.specs.Queue.{Loaded};
ghost use Rattle.store.specs.Store.{next, next_of, frames_of, scratch_of, Intact, Opened, Lost, Appends, Seals, Shoots, Takes, Gets, Staged, Given, with_free, cache};

use crate::head::Record;
use crate::{Device, Gone, Lasted, Store, part_of};
use std::ops::Range;

/// As `Store::open`.
pub fn open<D: Device>(d: &mut D, words: &mut [u64]) -> Result<Store, Gone>
    requires long { length words.old ≡ 62976 }
    requires rested { Rested (D.medium d.old) }
    requires asks { 129 ≤ (D.medium d.old).left }
    ensures opens { MatchResult result (λ z. Opened (D.medium d.old) (D.medium d.new) words.new z) (λ _. Lost (D.medium d.old) (D.medium d.new)) }
    ensures tied { D.tie d.new ≡ D.tie d.old }
{
    Store::open(d, part_of(words))
}

/// As `Store::append`.
pub fn append<D: Device>(
    store: &mut Store,
    d: &mut D,
    words: &mut [u64],
    item: Record,
) -> Result<(), Gone>
    requires long { length words.old ≡ 62976 }
    requires intact { Intact (D.medium d.old) words.old store.old }
    requires room { length (queue_by (next words.old) (D.medium d.old).shown) < 32768 }
    requires asks { 0 < (D.medium d.old).left }
    ensures appends { Appends (D.medium d.old) words.old store.old item (is_ok result) (D.medium d.new) words.new store.new }
    ensures tied { D.tie d.new ≡ D.tie d.old }
{
    store.append(d, part_of(words), item)
}

/// As `Store::seal`.
pub fn seal<D: Device>(store: &mut Store, d: &mut D, words: &mut [u64]) -> Result<Lasted, Gone>
    requires long { length words.old ≡ 62976 }
    requires intact { Intact (D.medium d.old) words.old store.old }
    requires asks { 3 ≤ (D.medium d.old).left }
    ensures seals { Seals (D.medium d.old) words.old store.old (is_ok result) (D.medium d.new) store.new }
    ensures words { words.new ≡ words.old }
    ensures tied { D.tie d.new ≡ D.tie d.old }
{
    store.seal(d, part_of(words))
}

/// As `Store::image`.
pub fn image<D: Device>(store: &mut Store, d: &mut D, words: &mut [u64]) -> Result<(), Gone>
    requires long { length words.old ≡ 62976 }
    requires intact { Intact (D.medium d.old) words.old store.old }
    requires asks { (cache words.old).count ≤ (D.medium d.old).left }
    ensures shoots { Shoots (D.medium d.old) words.old store.old (is_ok result) (D.medium d.new) store.new }
    ensures words { words.new ≡ words.old }
    ensures tied { D.tie d.new ≡ D.tie d.old }
{
    store.image(d, part_of(words))
}

/// As `Store::take_batch`.
pub fn take_batch<D: Device>(
    store: &mut Store,
    d: &mut D,
    words: &mut [u64],
) -> Result<Lasted, Gone>
    requires long { length words.old ≡ 62976 }
    requires intact { Intact (D.medium d.old) words.old store.old }
    requires imaged { T store.old.imaged }
    requires worked { store.old.worked ≤ length (queue_by (next words.old) (D.medium d.old).shown) }
    requires asks { (cache words.old).count + 3 ≤ (D.medium d.old).left }
    ensures takes { Takes (D.medium d.old) words.old store.old (is_ok result) (D.medium d.new) words.new store.new }
    ensures tied { D.tie d.new ≡ D.tie d.old }
{
    store.take_batch(d, part_of(words))
}

/// As `Store::load_queue_page`.
pub fn load_queue_page<D: Device>(
    store: &Store,
    d: &mut D,
    words: &mut [u64],
    i: u64,
) -> Result<Range<usize>, Gone>
    requires long { length words.old ≡ 62976 }
    requires intact { Intact (D.medium d.old) words.old store.now }
    requires page { i ≤ (next words.old).full }
    requires asks { 0 < (D.medium d.old).left }
    ensures reads { i < (next words.old).full → Reads (D.medium d.old) (ring_page (next words.old) i) (scratch_of words.new) (is_ok result) (D.medium d.new) }
    ensures loads { MatchResult result (λ r. Loaded (D.medium d.old) words.old store.now i r (D.medium d.new) words.new) (λ _. Lost (D.medium d.old) (D.medium d.new)) }
    ensures intact { Intact (D.medium d.new) words.new store.now }
    ensures head { next_of words.new ≡ next_of words.old }
    ensures frames { frames_of words.new ≡ frames_of words.old }
    ensures tied { D.tie d.new ≡ D.tie d.old }
{
    store.load_queue_page(d, part_of(words), i)
}

/// As `Store::read_page`.
pub fn read_page<D: Device>(
    store: &Store,
    d: &mut D,
    words: &mut [u64],
    p: u64,
    into: &mut [u64],
) -> Result<(), Gone>
    requires long { length words.old ≡ 62976 }
    requires intact { Intact (D.medium d.old) words.old store.now }
    requires near { (393 ≤ p) × ((p < (D.medium d.old).pages) × (length into.old ≡ 512)) }
    requires asks { 0 < (D.medium d.old).left }
    ensures got { Gets (D.medium d.old) words.old store.now p into.new (is_ok result) (D.medium d.new) words.new }
    ensures tied { D.tie d.new ≡ D.tie d.old }
{
    store.read_page(d, part_of(words), p, into)
}

/// As `write_page`, with the page's new words.
pub fn write_page(words: &mut [u64], p: u64, page: &[u64])
    requires long { length words.old ≡ 62976 }
    requires table { Framed (frames_of words.old) }
    requires fits { (0 < p) × (length page.now ≡ 512) }
    requires free { pinned (cache words.old) ≡ 0 }
    requires room { changed (cache words.old) p ≡ false → (cache words.old).count < 64 }
    ensures staged { (m : Medium) (s : Store) → Intact m words.old s → T (not s.imaged) → 393 ≤ p → p < m.pages → Staged m words.old s p page.now words.new }
{
    crate::write_page(part_of(words), p, page);
}

/// As `Store::alloc`.
pub fn alloc<D: Device>(store: &mut Store, d: &mut D, words: &mut [u64]) -> Result<u64, Gone>
    requires long { length words.old ≡ 62976 }
    requires intact { Intact (D.medium d.old) words.old store.old }
    requires old { (store.old.root.free ≢ 0) → (393 ≤ store.old.root.free) × (store.old.root.free < (D.medium d.old).pages) }
    requires new { store.old.root.free ≡ 0 → (393 + store.old.root.used < (D.medium d.old).pages) × ((D.medium d.old).pages ≤ 4294967296) }
    requires asks { 0 < (D.medium d.old).left }
    ensures allocs { MatchResult result (λ x. Given (D.medium d.old) words.old store.old x (D.medium d.new) words.new store.new) (λ _. Lost (D.medium d.old) (D.medium d.new)) }
    ensures tied { D.tie d.new ≡ D.tie d.old }
{
    store.alloc(d, part_of(words))
}

/// As `Store::release`.
pub fn release(store: &mut Store, words: &mut [u64], p: u64)
    requires long { length words.old ≡ 62976 }
    requires table { Framed (frames_of words.old) }
    requires fits { 0 < p }
    requires free { pinned (cache words.old) ≡ 0 }
    requires room { changed (cache words.old) p ≡ false → (cache words.old).count < 64 }
    ensures root { store.new ≡ with_free store.old p }
    ensures staged { (m : Medium) → Intact m words.old store.old → T (not store.old.imaged) → 393 ≤ p → p < m.pages → Staged m words.old store.old p (slice_set (replicate 512 0) 0 store.old.root.free) words.new }
    ensures intact { (m : Medium) → Intact m words.old store.old → T (not store.old.imaged) → 393 ≤ p → p < m.pages → Intact m words.new store.new }
{
    store.release(part_of(words), p);
}
