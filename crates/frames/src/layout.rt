// Where each word of a part stands. Nothing else knows these numbers.
//
// A step writes several of these words, and the table is in order only after the last of them. So the functions that write take the
// words as they are, and FramesMut, whose table is always in order, calls them.
//
// That a page has 512 words is asked in a clause, here and in all of the crate, and isn't in its type: callers pass on the slices that a
// device and a page store are lent.
ghost use Rattle.std.specs.Prelude.{◌≡◌, ◌*◌, ◌<◌, length, replicate, slice_index, slice_set};
ghost use Rattle.frames.specs.Layout.{Sized, cache_of, frame_in, placed, with_frames, with_marks, with_entries, with_count, with_hand, cleared};
ghost use Rattle.frames.specs.Columns.{start_of, column_in, with_column};

use crate::slot::Slot;
use pages::PAGE_WORDS;

/// How many pages fit in the frames.
pub const FRAME_COUNT: usize = 120;

/// How many frames can be changed at a time.
pub const BATCH: usize = 64;

/// How long a part is: the frames, and a page for the table.
pub const PART_WORDS: usize = TABLE + PAGE_WORDS;

const TABLE: usize = FRAME_COUNT * PAGE_WORDS;

const PAGES: usize = TABLE;

const MARKS: usize = PAGES + FRAME_COUNT;

const PINS: usize = MARKS + FRAME_COUNT;

const ENTRIES: usize = PINS + FRAME_COUNT;

const COUNT: usize = ENTRIES + BATCH;

const HAND: usize = COUNT + 1;

/// What is noted of each frame: the page that stands in it, 0 where it is free; whether it is changed, 0 or its place in the batch and
/// one; and how often it is pinned.
#[derive(Clone, Copy, Debug, PartialEq, Eq)]
pub enum Column {
    Pages,
    Marks,
    Pins,
}

impl Column {
    fn start(self) -> usize
        ensures { result ≡ start_of self }
    {
        match self {
            Column::Pages => PAGES,
            Column::Marks => MARKS,
            Column::Pins => PINS,
        }
    }
}

/// What a column has for a frame.
pub fn word(part: &[u64], column: Column, slot: Slot) -> u64
    requires { Sized part.now }
    ensures { result ≡ slice_index (column_in column (cache_of part.now)) slot }
{
    part[column.start() + slot.number()]
}

/// Writes what a column has for a frame. Like `put_frame` below, it says again that the frame is low, for callers that don't look into
/// a slot.
pub fn put(part: &mut [u64], column: Column, slot: Slot, word: u64)
    requires { Sized part.old }
    ensures cache { cache_of part.new ≡ with_column column (cache_of part.old) (slice_set (column_in column (cache_of part.old)) slot word) }
    ensures low { slot < 120 }
{
    part[column.start() + slot.number()] = word;
}

/// The page of each frame.
pub fn pages(part: &[u64]) -> &[u64]
    requires { Sized part.now }
    ensures { result.now ≡ (cache_of part.now).pages }
{
    &part[PAGES..MARKS]
}

/// The frame at a place of the batch.
pub fn entry(part: &[u64], place: usize) -> u64
    requires { (Sized part.now) × (place < 64) }
    ensures { result ≡ slice_index (cache_of part.now).entries place }
{
    part[ENTRIES + place]
}

/// Sets the frame at a place of the batch.
pub fn put_entry(part: &mut [u64], place: usize, slot: Slot)
    requires { (Sized part.old) × (place < 64) }
    ensures { cache_of part.new ≡ with_entries (cache_of part.old) (slice_set (cache_of part.old).entries place slot) }
{
    part[ENTRIES + place] = slot.number() as u64;
}

/// How many frames the batch has.
pub fn count(part: &[u64]) -> usize
    requires { Sized part.now }
    ensures { result ≡ (cache_of part.now).count }
{
    part[COUNT] as usize
}

/// Sets how many frames the batch has.
pub fn put_count(part: &mut [u64], n: usize)
    requires { Sized part.old }
    ensures { cache_of part.new ≡ with_count (cache_of part.old) n }
{
    part[COUNT] = n as u64;
}

/// The frame that is next to leave.
pub fn hand(part: &[u64]) -> usize
    requires { Sized part.now }
    ensures { result ≡ (cache_of part.now).hand }
{
    part[HAND] as usize
}

/// Sets the frame that is next to leave.
pub fn put_hand(part: &mut [u64], slot: Slot)
    requires { Sized part.old }
    ensures { cache_of part.new ≡ with_hand (cache_of part.old) slot }
{
    part[HAND] = slot.number() as u64;
}

/// The words of a frame, where they stand; they do, whether or not the table is in order.
pub fn frame(part: &[u64], slot: Slot) -> &[u64]
    requires { Sized part.now }
    ensures words { result.now ≡ frame_in (cache_of part.now).frames slot }
    ensures long { length result.now ≡ 512 }
{
    pages::page(part, slot.number())
}

/// Copies the words of a frame, whether or not the table is in order.
pub fn copy_out(part: &[u64], slot: Slot, into: &mut [u64])
    requires { (Sized part.now) × (length into.old ≡ 512) }
    ensures { into.new ≡ frame_in (cache_of part.now).frames slot }
{
    into.copy_from_slice(frame(part, slot));
}

/// Writes the words of a frame.
pub fn put_frame(part: &mut [u64], slot: Slot, words: &[u64])
    requires { (Sized part.old) × (length words.now ≡ 512) }
    ensures cache { cache_of part.new ≡ with_frames (cache_of part.old) (placed (cache_of part.old).frames slot words.now) }
    ensures low { slot < 120 }
{
    pages::put_page(part, slot.number(), words);
}

/// Noughts in the whole table page. This and the next are one call of `fill` each, and say another thing of the table.
pub fn clear(part: &mut [u64])
    requires { Sized part.old }
    ensures { cache_of part.new ≡ cleared (cache_of part.old).frames }
{
    part[TABLE..PART_WORDS].fill(0);
}

/// Marks every frame as clean.
pub fn clear_marks(part: &mut [u64])
    requires { Sized part.old }
    ensures { cache_of part.new ≡ with_marks (cache_of part.old) (replicate 120 0) }
{
    part[MARKS..PINS].fill(0);
}
