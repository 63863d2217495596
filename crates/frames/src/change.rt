// The frames as they are changed: each call keeps the table in order, and says what becomes of the pages that are shown.
ghost use Rattle.std.specs.Prelude.{◌≡◌, ℕ, ◌+◌, ◌<◌, List, length, Some, None};
ghost use Rattle.frames.specs.Layout.{Sized, cache_of, frame_in, cleared};
ghost use Rattle.frames.specs.Frames.{Sound, Stands, Idle, Clean, InPlace, at, page_in, mark_in, pins_in, slot_of, shown_by, pinned, fill as filled, list as listed, enter as entered, write as written, pin as pinnedAt, unpin, settle as settled};

use crate::guard::{enter, pin};
use crate::layout;
use crate::layout::Column;
use crate::look::Frames;
use crate::slot::Slot;

/// The frames of a lent part, to be changed. Their table is in order between two calls.
#[derive(Drop)]
pub struct FramesMut<'a> {
    part: &'a mut [u64],
    ghost sound: { Sound part.now },
}

// Each method that changes says by `named` that the same words stay lent, or their lender wouldn't know what they end as.
impl<'a> FramesMut<'a> {
    ghost use Rattle.frames.specs.Changes.{cache_in, SameLoan};

    /// The frames of a part that is in order.
    pub fn new(part: &'a mut [u64]) -> FramesMut<'a>
        requires { Sound part.old }
        ensures same { result.part.now ≡ part.old }
        ensures named { result.part.ghost_name ≡ part.entry.ghost_name }
    {
        FramesMut { part }
    }

    /// Every frame free, nothing changed, nothing pinned, whatever stood there.
    pub fn reset(part: &'a mut [u64]) -> FramesMut<'a>
        requires { Sized part.old }
        ensures cache { cache_in result ≡ cleared (cache_of part.old).frames }
        ensures shown { (s : ℕ → List ℕ) → shown_by (cache_in result) s ≡ s }
        ensures clean { (s : ℕ → List ℕ) → Clean (cache_in result) s }
        ensures pins { pinned (cache_in result) ≡ 0 }
        ensures named { result.part.ghost_name ≡ part.entry.ghost_name }
    {
        layout::clear(part);
        FramesMut { part }
    }

    /// The same frames, to be read.
    pub fn look(&self) -> Frames<'_>
        ensures { result ≡ cache_in self.now }
    {
        Frames::new(self.part)
    }

    /// Brings page p into an idle frame; the frame after it is next to leave. What stood there goes, and the disk shows it.
    pub fn fill(&mut self, slot: Slot, p: u64, words: &[u64])
        requires fits { (0 < p) × (length words.now ≡ 512) }
        requires idle { Idle (cache_in self.old) slot }
        requires new { slot_of (cache_in self.old) p ≡ None }
        ensures cache { cache_in self.new ≡ filled (cache_in self.old) slot p words.now }
        ensures stands { Stands (cache_in self.new) p slot }
        ensures slot { slot_of (cache_in self.new) p ≡ Some slot }
        ensures shown { (s : ℕ → List ℕ) → Clean (cache_in self.old) s → shown_by (cache_in self.new) s ≡ at p words.now (shown_by (cache_in self.old) s) }
        ensures same { (s : ℕ → List ℕ) → Clean (cache_in self.old) s → words.now ≡ s p → (shown_by (cache_in self.new) s ≡ shown_by (cache_in self.old) s) × Clean (cache_in self.new) s }
        ensures named { SameLoan self.old self.new }
    {
        let part = &mut *self.part;
        layout::put_frame(part, slot, words);
        layout::put(part, Column::Pages, slot, p);
        layout::put_hand(part, slot.after(1));
    }

    // The frame joins the batch, at its end.
    fn list(&mut self, slot: Slot)
        requires clean { mark_in (cache_in self.old) slot ≡ 0 }
        requires used { 0 < page_in (cache_in self.old) slot }
        requires room { (cache_in self.old).count < 64 }
        ensures cache { cache_in self.new ≡ listed (cache_in self.old) slot }
        ensures named { SameLoan self.old self.new }
    {
        let place = self.look().batch_len();
        let part = &mut *self.part;
        layout::put_entry(part, place, slot);
        layout::put(part, Column::Marks, slot, place as u64 + 1);
        layout::put_count(part, place + 1);
    }

    /// The frame of a page joins the batch, unless it's there already.
    pub(crate) fn join(&mut self, slot: Slot)
        requires used { 0 < page_in (cache_in self.old) slot }
        requires room { mark_in (cache_in self.old) slot ≡ 0 → (cache_in self.old).count < 64 }
        ensures cache { cache_in self.new ≡ entered (cache_in self.old) slot }
        ensures marked { 0 < mark_in (cache_in self.new) slot }
        ensures slots { (p : ℕ) → slot_of (cache_in self.new) p ≡ slot_of (cache_in self.old) p }
        ensures shown { (s : ℕ → List ℕ) → shown_by (cache_in self.new) s ≡ shown_by (cache_in self.old) s }
        ensures clean { (s : ℕ → List ℕ) → Clean (cache_in self.old) s → Clean (cache_in self.new) s }
        ensures named { SameLoan self.old self.new }
    {
        if self.look().place(slot).is_none() {
            self.list(slot);
        }
    }

    /// New words for a changed frame.
    pub(crate) fn rewrite(&mut self, slot: Slot, words: &[u64])
        requires fits { length words.now ≡ 512 }
        requires marked { 0 < mark_in (cache_in self.old) slot }
        ensures cache { cache_in self.new ≡ written (cache_in self.old) slot words.now }
        ensures shown { (s : ℕ → List ℕ) (p : ℕ) → slot_of (cache_in self.old) p ≡ Some slot → shown_by (cache_in self.new) s ≡ at p words.now (shown_by (cache_in self.old) s) }
        ensures clean { (s : ℕ → List ℕ) → Clean (cache_in self.old) s → Clean (cache_in self.new) s }
        ensures named { SameLoan self.old self.new }
    {
        layout::put_frame(self.part, slot, words);
    }

    /// Brings page p into an idle frame with words of its own, as a changed page.
    pub fn stage(&mut self, slot: Slot, p: u64, words: &[u64])
        requires fits { (0 < p) × (length words.now ≡ 512) }
        requires idle { Idle (cache_in self.old) slot }
        requires new { slot_of (cache_in self.old) p ≡ None }
        requires room { (cache_in self.old).count < 64 }
        ensures cache { cache_in self.new ≡ entered (filled (cache_in self.old) slot p words.now) slot }
        ensures stands { Stands (cache_in self.new) p slot }
        ensures shown { (s : ℕ → List ℕ) → Clean (cache_in self.old) s → shown_by (cache_in self.new) s ≡ at p words.now (shown_by (cache_in self.old) s) }
        ensures clean { (s : ℕ → List ℕ) → Clean (cache_in self.old) s → Clean (cache_in self.new) s }
        ensures named { SameLoan self.old self.new }
    {
        self.fill(slot, p, words);
        self.join(slot);
    }

    /// One pin more on a frame.
    pub(crate) fn hold(&mut self, slot: Slot)
        requires { pins_in (cache_in self.old) slot < 4294967296 }
        ensures cache { cache_in self.new ≡ pinnedAt (cache_in self.old) slot }
        ensures back { unpin (cache_in self.new) slot ≡ cache_in self.old }
        ensures named { SameLoan self.old self.new }
    {
        let n = self.look().pins(slot);
        layout::put(self.part, Column::Pins, slot, n + 1);
    }

    /// One pin less.
    pub(crate) fn let_go(&mut self, slot: Slot)
        ensures cache { cache_in self.new ≡ unpin (cache_in self.old) slot }
        ensures named { SameLoan self.old self.new }
    {
        let n = self.look().pins(slot);
        layout::put(self.part, Column::Pins, slot, n.saturating_sub(1));
    }

    /// Changes the page in a frame: enters it in the batch, and writes it.
    pub fn change(&mut self, slot: Slot, words: &[u64])
        requires fits { length words.now ≡ 512 }
        requires used { 0 < page_in (cache_in self.old) slot }
        requires room { mark_in (cache_in self.old) slot ≡ 0 → (cache_in self.old).count < 64 }
        ensures cache { cache_in self.new ≡ written (entered (cache_in self.old) slot) slot words.now }
        ensures shown { (s : ℕ → List ℕ) (p : ℕ) → slot_of (cache_in self.old) p ≡ Some slot → shown_by (cache_in self.new) s ≡ at p words.now (shown_by (cache_in self.old) s) }
        ensures clean { (s : ℕ → List ℕ) → Clean (cache_in self.old) s → Clean (cache_in self.new) s }
        ensures named { SameLoan self.old self.new }
    {
        let part = &mut *self.part;
        let mut frame = enter(part, slot);
        frame.write(words);
    }

    /// Reads a frame while it is held, and leaves the cache as it was.
    pub fn read_held(&mut self, slot: Slot, into: &mut [u64])
        requires pins { pins_in (cache_in self.old) slot < 4294967296 }
        requires fits { length into.old ≡ 512 }
        ensures words { into.new ≡ frame_in (cache_in self.old).frames slot }
        ensures cache { cache_in self.new ≡ cache_in self.old }
        ensures named { SameLoan self.old self.new }
    {
        let part = &mut *self.part;
        let held = pin(part, slot);
        held.read(into);
    }

    /// The batch was taken: its frames are clean again.
    pub fn settle(&mut self)
        ensures cache { cache_in self.new ≡ settled (cache_in self.old) }
        ensures shown { (s t : ℕ → List ℕ) → InPlace (cache_in self.old) s t → shown_by (cache_in self.new) t ≡ shown_by (cache_in self.old) s }
        ensures clean { (s t : ℕ → List ℕ) → InPlace (cache_in self.old) s t → Clean (cache_in self.old) s → Clean (cache_in self.new) t }
        ensures named { SameLoan self.old self.new }
    {
        let part = &mut *self.part;
        layout::clear_marks(part);
        layout::put_count(part, 0);
    }
}
