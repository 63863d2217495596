// Pages as the frames and the disk show them, and the list of those that are free.
ghost use Rattle.std.specs.Prelude.{◌≡◌, ℕ, ◌+◌, ◌<◌, ◌≤◌, ◌≢◌, false, not, T, length, replicate, is_ok, Some, None, MatchResult, slice_set};
ghost use Rattle.frames.specs.Frames.{Sound as Framed, Idle, slot_of, page_in, mark_in, changed, pinned};
ghost use Rattle.store.specs.Medium.{Medium};
ghost use Rattle.store.specs.Store.{frames_of, Intact, Looked, Gets, Staged, Given, Lost, with_free, cache};

use crate::part::{NEXT, Part, look};
use crate::{Device, Gone, Store};
use frames::{FramesMut, Slot};
use pages::PAGE_WORDS;

// That a page can be changed, nothing is pinned and the batch isn't full, is asked of whoever changes one: when the batch is taken is
// the caller's to choose, so neither can stand in a type.

// The first data page of the disk.
const DATA: u64 = 393;

// Brings a page that was read into a frame. This and the two below take one step of the frames each, and promise each another thing.
fn keep_in(part: &mut Part, slot: Slot, p: u64, words: &[u64])
    requires table { Framed (frames_of part.old) }
    requires fits { (0 < p) × (length words.now ≡ 512) }
    requires idle { Idle (cache part.old) slot }
    requires new { slot_of (cache part.old) p ≡ None }
    ensures kept { (m : Medium) (s : Store) → Intact m part.old s → 393 ≤ p → p < m.pages → words.now ≡ m.shown p → Looked m part.old s part.new }
{
    let (held, _rest) = part.split_at_mut(NEXT);
    let mut frames = FramesMut::new(held);
    frames.fill(slot, p, words);
}

// Keeps a page that was read, where a frame is idle.
fn keep(part: &mut Part, p: u64, words: &[u64])
    requires table { Framed (frames_of part.old) }
    requires fits { (0 < p) × (length words.now ≡ 512) }
    requires new { slot_of (cache part.old) p ≡ None }
    ensures kept { (m : Medium) (s : Store) → Intact m part.old s → 393 ≤ p → p < m.pages → words.now ≡ m.shown p → Looked m part.old s part.new }
{
    let idle = look(part).victim();
    if let Some(slot) = idle {
        keep_in(part, slot, p, words);
    }
}

// New words for a page that stands in a frame.
fn change_in(part: &mut Part, slot: Slot, p: u64, words: &[u64])
    requires table { Framed (frames_of part.old) }
    requires fits { length words.now ≡ 512 }
    requires there { (slot_of (cache part.old) p ≡ Some slot) × (0 < page_in (cache part.old) slot) }
    requires room { mark_in (cache part.old) slot ≡ 0 → (cache part.old).count < 64 }
    ensures staged { (m : Medium) (s : Store) → Intact m part.old s → T (not s.imaged) → 393 ≤ p → p < m.pages → Staged m part.old s p words.now part.new }
{
    let (held, _rest) = part.split_at_mut(NEXT);
    let mut frames = FramesMut::new(held);
    frames.change(slot, words);
}

// A page with new words into an idle frame.
fn stage_in(part: &mut Part, slot: Slot, p: u64, words: &[u64])
    requires table { Framed (frames_of part.old) }
    requires fits { (0 < p) × (length words.now ≡ 512) }
    requires idle { Idle (cache part.old) slot }
    requires new { slot_of (cache part.old) p ≡ None }
    requires room { (cache part.old).count < 64 }
    ensures staged { (m : Medium) (s : Store) → Intact m part.old s → T (not s.imaged) → 393 ≤ p → p < m.pages → Staged m part.old s p words.now part.new }
{
    let (held, _rest) = part.split_at_mut(NEXT);
    let mut frames = FramesMut::new(held);
    frames.stage(slot, p, words);
}

/// Page p is changed in the frames; the disk learns of it with the batch. Not while images stand. A page that is changed already takes no
/// place of the batch.
pub fn write_page(part: &mut Part, p: u64, words: &[u64])
    requires table { Framed (frames_of part.old) }
    requires fits { (0 < p) × (length words.now ≡ 512) }
    requires free { pinned (cache part.old) ≡ 0 }
    requires room { changed (cache part.old) p ≡ false → (cache part.old).count < 64 }
    ensures staged { (m : Medium) (s : Store) → Intact m part.old s → T (not s.imaged) → 393 ≤ p → p < m.pages → Staged m part.old s p words.now part.new }
{
    let frames = look(part);
    if let Some(slot) = frames.find(p) {
        change_in(part, slot, p, words);
    } else {
        let slot = frames.victim().unwrap();
        stage_in(part, slot, p, words);
    }
}

impl Store {
    /// Page p as the frames and the disk show it; asked of the disk only where it's in no frame.
    pub fn read_page<D: Device>(
        &self,
        d: &mut D,
        part: &mut Part,
        p: u64,
        into: &mut [u64],
    ) -> Result<(), Gone>
        requires intact { Intact (D.medium d.old) part.old self.now }
        requires near { (393 ≤ p) × ((p < (D.medium d.old).pages) × (length into.old ≡ 512)) }
        requires asks { 0 < (D.medium d.old).left }
        ensures got { Gets (D.medium d.old) part.old self.now p into.new (is_ok result) (D.medium d.new) part.new }
        ensures tied { D.tie d.new ≡ D.tie d.old }
    {
        let frames = look(part);
        if let Some(slot) = frames.find(p) {
            frames.copy_out(slot, into);
            return Ok(());
        }
        d.read(p, into)?;
        keep(part, p, into);
        Ok(())
    }

    /// A page to use: off the free list, or else one that was never used.
    pub fn alloc<D: Device>(&mut self, d: &mut D, part: &mut Part) -> Result<u64, Gone>
        requires intact { Intact (D.medium d.old) part.old self.old }
        requires old { (self.old.root.free ≢ 0) → (393 ≤ self.old.root.free) × (self.old.root.free < (D.medium d.old).pages) }
        requires new { self.old.root.free ≡ 0 → (393 + self.old.root.used < (D.medium d.old).pages) × ((D.medium d.old).pages ≤ 4294967296) }
        requires asks { 0 < (D.medium d.old).left }
        ensures allocs { MatchResult result (λ x. Given (D.medium d.old) part.old self.old x (D.medium d.new) part.new self.new) (λ _. Lost (D.medium d.old) (D.medium d.new)) }
        ensures tied { D.tie d.new ≡ D.tie d.old }
    {
        let free = self.root.free;
        if free == 0 {
            let p = DATA + self.root.used;
            self.root.used += 1;
            return Ok(p);
        }
        let mut page = [0; PAGE_WORDS];
        self.read_page(d, part, free, &mut page)?;
        self.root.free = page[0];
        Ok(free)
    }

    /// The page goes onto the free list: its first word is the one below it.
    pub fn release(&mut self, part: &mut Part, p: u64)
        requires table { Framed (frames_of part.old) }
        requires fits { 0 < p }
        requires free { pinned (cache part.old) ≡ 0 }
        requires room { changed (cache part.old) p ≡ false → (cache part.old).count < 64 }
        ensures root { self.new ≡ with_free self.old p }
        ensures staged { (m : Medium) → Intact m part.old self.old → T (not self.old.imaged) → 393 ≤ p → p < m.pages → Staged m part.old self.old p (slice_set (replicate 512 0) 0 self.old.root.free) part.new }
        ensures intact { (m : Medium) → Intact m part.old self.old → T (not self.old.imaged) → 393 ≤ p → p < m.pages → Intact m part.new self.new }
    {
        let mut page = [0; PAGE_WORDS];
        page[0] = self.root.free;
        write_page(part, p, &page);
        self.root.free = p;
    }
}
