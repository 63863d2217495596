// The frames as they are read: where a page stands, which frame leaves next, and what the batch is.
ghost use Rattle.std.specs.List.{range_with_len};
ghost use Rattle.std.specs.Prelude.{◌≡◌, ◌+◌, ◌%◌, ◌<◌, ◌≤◌, ◌↔◌, find, map, true, length, is_some, IfSome, IsTrue, position, slice_index, ◌==◌};
ghost use Rattle.frames.specs.Layout.{cache_of, frame_in};
ghost use Rattle.frames.specs.Frames.{Sound, Stands, Idle, Chosen, mark_in, pins_in, entry_in, batch_page, batch_pages, slot_of, pinned};
ghost use Rattle.frames.specs.Columns.{place_of, is_idle};

use crate::layout;
use crate::layout::{Column, FRAME_COUNT};
use crate::slot::Slot;
use std::marker::Model;

// In the table, of a frame that is free. No page has that number.
const FREE: u64 = 0;

/// The frames of a part whose table is in order. Clauses see what the part holds.
#[derive(Drop)]
pub struct Frames<'a> {
    part: &'a [u64],
}

impl<'a> Model for Frames<'a> {
    ghost use Rattle.frames.specs.Layout.{Cache, cache_of};
    ghost use Rattle.frames.specs.Frames.{Sound};

    ghost Value = { Cache };

    ghost view = { λ f. cache_of f.part.now };

    ghost invariant = { λ f. Sound f.part.now };
}

impl<'a> Frames<'a> {
    /// The frames of a part that is in order.
    pub fn new(part: &'a [u64]) -> Frames<'a>
        requires { Sound part.now }
        ensures { result ≡ cache_of part.now }
    {
        Frames { part }
    }

    /// The frame of page p, if it stands in one.
    pub fn find(&self, p: u64) -> Option<Slot>
        ensures slot { result ≡ slot_of self.now p }
        ensures stands { IfSome result (Stands self.now p) }
    {
        if p == FREE {
            return None;
        }
        let number = first_of(layout::pages(self.part), p)?;
        Some(Slot::new(number))
    }

    /// The frame that leaves next: first in, first out, but for those that are changed or pinned.
    pub fn victim(&self) -> Option<Slot>
        ensures chosen { Chosen self.now result }
        ensures some { self.now.count + pinned self.now < 120 → is_some result ≡ true }
    {
        self.first_idle(Slot::new(layout::hand(self.part)))
    }

    /// Copies the words of a frame.
    pub fn copy_out(&self, slot: Slot, into: &mut [u64])
        requires { length into.old ≡ 512 }
        ensures { into.new ≡ frame_in self.now.frames slot }
    {
        layout::copy_out(self.part, slot, into);
    }

    /// How many frames are changed.
    pub fn batch_len(&self) -> usize
        ensures count { result ≡ self.now.count }
        ensures few { result ≤ 64 }
        ensures pages { result ≡ length (batch_pages self.now) }
    {
        layout::count(self.part)
    }

    /// The frame at a place of the batch.
    pub fn batch_slot(&self, place: usize) -> Slot
        requires { place < self.now.count }
        ensures { result ≡ entry_in self.now place }
    {
        Slot::new(layout::entry(self.part, place) as usize)
    }

    /// The page at a place of the batch.
    pub fn batch_page(&self, place: usize) -> u64
        requires { place < self.now.count }
        ensures page { result ≡ batch_page self.now place }
        ensures listed { result ≡ slice_index (batch_pages self.now) place }
    {
        layout::word(self.part, Column::Pages, self.batch_slot(place))
    }

    // The place of a frame in the batch, if it is changed. That the frame is low is told again, as in `layout::put`.
    pub(crate) fn place(&self, slot: Slot) -> Option<usize>
        ensures place { result ≡ place_of (mark_in self.now slot) }
        ensures low { slot < 120 }
    {
        let mark = layout::word(self.part, Column::Marks, slot) as usize;
        mark.checked_sub(1)
    }

    // How often a frame is pinned.
    pub(crate) fn pins(&self, slot: Slot) -> u64
        ensures { result ≡ pins_in self.now slot }
    {
        layout::word(self.part, Column::Pins, slot)
    }

    // Whether a frame is neither changed nor pinned.
    fn is_idle(&self, slot: Slot) -> bool
        ensures test { result ≡ is_idle self.now slot }
        ensures idle { IsTrue result ↔ Idle self.now slot }
    {
        self.place(slot).is_none() && self.pins(slot) == 0
    }

    // The first idle frame, going round from one.
    fn first_idle(&self, from: Slot) -> Option<Slot>
        ensures { result ≡ find (is_idle self.now) (map (λ s. (from + s) % 120) (range_with_len 0 120)) }
    {
        (0..FRAME_COUNT)
            .map(|step| from.after(step))
            .find(|&slot| self.is_idle(slot))
    }
}

// The first frame of which the table says page p.
fn first_of(pages: &[u64], p: u64) -> Option<usize>
    ensures { result ≡ position (λ q. q == p) pages.now }
{
    pages.iter().position(|&q| q == p)
}
