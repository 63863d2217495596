// Guards over a frame: one that holds it, and one through which alone its words change.
//
// A guard is lent the part's words and not FramesMut: through a loan of what is itself a loan, no proof knows what the guard left.
ghost use Rattle.std.specs.Prelude.{◌≡◌, ℕ, ◌<◌, List, length, Some};
ghost use Rattle.frames.specs.Layout.{cache_of, frame_in};
ghost use Rattle.frames.specs.Frames.{Sound, Clean, at, page_in, mark_in, pins_in, slot_of, shown_by, enter as entered, write as written, pin as pinnedAt, unpin};

use crate::change::FramesMut;
use crate::look::Frames;
use crate::slot::Slot;

/// A frame that can't leave as long as this lives.
pub struct Pinned<'a> {
    part: &'a mut [u64],
    slot: Slot,
    ghost sound: { Sound part.now },
}

impl Drop for Pinned<'_> {
    fn drop(self)
        ensures cache { cache_of self.exit.0.now ≡ unpin (cache_of self.entry.part.now) self.entry.slot }
        ensures sound { Sound self.exit.0.now }
    {
        let Pinned { part, slot } = self;
        let mut frames = FramesMut::new(part);
        frames.let_go(slot);
    }
}

/// Pins a frame. Once the pin is given back, the cache is what it was.
pub fn pin(part: &mut [u64], slot: Slot) -> Pinned<'_>
    requires sound { Sound part.old }
    requires pins { pins_in (cache_of part.old) slot < 4294967296 }
    ensures cache { cache_of result.part.now ≡ pinnedAt (cache_of part.old) slot }
    ensures back { unpin (cache_of result.part.now) slot ≡ cache_of part.old }
    ensures slot { result.slot ≡ slot }
    ensures named { result.part.ghost_name ≡ part.entry.ghost_name }
{
    FramesMut::new(part).hold(slot);
    Pinned { part, slot }
}

impl Pinned<'_> {
    /// Copies the frame's words.
    pub fn read(&self, into: &mut [u64])
        requires { length into.old ≡ 512 }
        ensures { into.new ≡ frame_in (cache_of self.now.part.now).frames self.now.slot }
    {
        Frames::new(self.part).copy_out(self.slot, into);
    }
}

/// A changed frame, which stands in the batch. It looks like a pin, and promises another thing in each clause.
#[derive(Drop)]
pub struct Writable<'a> {
    part: &'a mut [u64],
    slot: Slot,
    ghost sound: { Sound part.now },
    ghost marked: { 0 < mark_in (cache_of part.now) slot },
}

/// Enters a frame in the batch, where it isn't there yet.
pub fn enter(part: &mut [u64], slot: Slot) -> Writable<'_>
    requires sound { Sound part.old }
    requires used { 0 < page_in (cache_of part.old) slot }
    requires room { mark_in (cache_of part.old) slot ≡ 0 → (cache_of part.old).count < 64 }
    ensures cache { cache_of result.part.now ≡ entered (cache_of part.old) slot }
    ensures slots { (p : ℕ) → slot_of (cache_of result.part.now) p ≡ slot_of (cache_of part.old) p }
    ensures shown { (s : ℕ → List ℕ) → shown_by (cache_of result.part.now) s ≡ shown_by (cache_of part.old) s }
    ensures clean { (s : ℕ → List ℕ) → Clean (cache_of part.old) s → Clean (cache_of result.part.now) s }
    ensures slot { result.slot ≡ slot }
    ensures named { result.part.ghost_name ≡ part.entry.ghost_name }
{
    FramesMut::new(part).join(slot);
    Writable { part, slot }
}

impl Writable<'_> {
    /// New words for the frame.
    pub fn write(&mut self, from: &[u64])
        requires { length from.now ≡ 512 }
        ensures cache { cache_of self.new.part.now ≡ written (cache_of self.old.part.now) self.old.slot from.now }
        ensures shown { (s : ℕ → List ℕ) (p : ℕ) → slot_of (cache_of self.old.part.now) p ≡ Some self.old.slot → shown_by (cache_of self.new.part.now) s ≡ at p from.now (shown_by (cache_of self.old.part.now) s) }
        ensures clean { (s : ℕ → List ℕ) → Clean (cache_of self.old.part.now) s → Clean (cache_of self.new.part.now) s }
        ensures slot { self.new.slot ≡ self.old.slot }
        ensures named { self.new.part.ghost_name ≡ self.old.part.ghost_name }
    {
        let part = &mut *self.part;
        let mut frames = FramesMut::new(part);
        frames.rewrite(self.slot, from);
    }
}
