// What the lent part is made of: the frames, the next head, a page to read into.
//
// Until it's opened a part is any words. So that its frames are in order is asked for where it's needed, and isn't a part of its type.
// Afterwards `Intact` says it, with what holds between the part, the device and the Store; a type for the part alone would say less.
ghost use Rattle.std.specs.Prelude.{◌≡◌, ◌<◌, ◌≤◌, length};
ghost use Rattle.frames.specs.Frames.{Sound as Framed};
ghost use Rattle.std.specs.Borrow.{sem};
ghost use Rattle.store.specs.Head.{joined, turned, stamped};
ghost use Rattle.store.specs.Lent.{LendsPart};
ghost use Rattle.store.specs.Store.{frames_of, next_of, scratch_of, next, cache};

use crate::head::{HeadPage, HeadPageMut, Record};
use frames::Frames;
use pages::PAGE_WORDS;

/// The words that the store works on.
pub type Part = [u64; PART_WORDS];

/// How many words the store works on.
pub const PART_WORDS: usize = SCRATCH + PAGE_WORDS;

// Where the next head stands: behind the frames.
pub(crate) const NEXT: usize = frames::PART_WORDS;

// And behind that a page to read into.
pub(crate) const SCRATCH: usize = NEXT + PAGE_WORDS;

/// The part that stands in a lent slice of that length.
pub fn part_of(words: &mut [u64]) -> &mut Part
    requires { length words.old ≡ 62976 }
    ensures* lends { sem 𝓛 (LendsPart words.entry result) }
    ensures same { result.now ≡ words.old }
{
    words.as_mut_array().unwrap()
}

/// The frames, to be read.
pub fn look(part: &Part) -> Frames<'_>
    requires { Framed (frames_of part.now) }
    ensures { result ≡ cache part.now }
{
    Frames::new(&part[..NEXT])
}

/// The page of the next head.
pub fn next_page(part: &Part) -> &[u64]
    ensures words { result.now ≡ next_of part.now }
    ensures long { length result.now ≡ 512 }
{
    &part[NEXT..SCRATCH]
}

/// The next head, to be read.
pub fn next_head(part: &Part) -> HeadPage<'_>
    ensures { result ≡ next part.now }
{
    HeadPage::new(next_page(part))
}

/// The page that was read last.
pub fn scratch(part: &Part) -> &[u64]
    ensures words { result.now ≡ scratch_of part.now }
    ensures long { length result.now ≡ 512 }
{
    &part[SCRATCH..]
}

// Each of the next three says what one step makes of the next head; a closure for the step would hide just that. And each asks that the
// head's targets are few, since the words of a part that was never opened may name too many.

// A record joins the next head.
pub(crate) fn join_next(part: &mut Part, item: Record)
    requires few { length (next part.old).targets ≤ 64 }
    requires room { length (next part.old).own < 128 }
    ensures head { next part.new ≡ joined item (next part.old) }
    ensures frames { frames_of part.new ≡ frames_of part.old }
{
    let (_held, rest) = part.split_at_mut(NEXT);
    let (page, _scratch) = rest.split_at_mut(PAGE_WORDS);
    let mut head = HeadPageMut::new(page);
    head.join(item);
}

// The next head's own records stand in a page of the ring.
pub(crate) fn turn_next(part: &mut Part)
    requires few { length (next part.old).targets ≤ 64 }
    requires room { (next part.old).full < 264 }
    ensures head { next part.new ≡ turned (next part.old) }
    ensures frames { frames_of part.new ≡ frames_of part.old }
{
    let (_held, rest) = part.split_at_mut(NEXT);
    let (page, _scratch) = rest.split_at_mut(PAGE_WORDS);
    let mut head = HeadPageMut::new(page);
    head.turn();
}

// The next head has the format number of this layout.
pub(crate) fn stamp_next(part: &mut Part)
    requires few { length (next part.old).targets ≤ 64 }
    ensures head { next part.new ≡ stamped (next part.old) }
    ensures frames { frames_of part.new ≡ frames_of part.old }
{
    let (_held, rest) = part.split_at_mut(NEXT);
    let (page, _scratch) = rest.split_at_mut(PAGE_WORDS);
    let mut head = HeadPageMut::new(page);
    head.stamp();
}
