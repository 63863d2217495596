// Batches: the changed frames are imaged, and taken as a whole.
ghost use Rattle.std.specs.Prelude.{◌≡◌, ℕ, ◌+◌, ◌-◌, ◌<◌, ◌≤◌, T, List, length, is_ok};
ghost use Rattle.frames.specs.Layout.{frame_in};
ghost use Rattle.frames.specs.Frames.{Sound as Framed, Clean, InPlace, batch_page, batch_words, batch_pages, shown_by, settle as settled};
ghost use Rattle.store.specs.Medium.{MayAsk, Wrote, WroteAll};
ghost use Rattle.store.specs.Head.{slot_in, taken, batched};
ghost use Rattle.store.specs.HeadPages.{head_in, SameHeadLoan};
ghost use Rattle.store.specs.State.{queue_by};
ghost use Rattle.store.specs.Store.{next, next_of, frames_of, Intact, Shoots, Takes, cache};

use crate::head::{HeadPageMut, Root, slot_in};
use crate::lasting::write_head;
use crate::part::{NEXT, Part, look, next_head};
use crate::{Device, Gone, Lasted, Store};
use frames::{Frames, FramesMut, Slot};
use pages::PAGE_WORDS;

// A frame to a page of the disk.
fn write_frame<D: Device>(d: &mut D, p: u64, part: &Part, slot: Slot) -> Result<(), Gone>
    requires ask { MayAsk (D.medium d.old) p }
    ensures wrote { Wrote 1 (D.medium d.old) p (frame_in (cache part.now).frames slot) (is_ok result) (D.medium d.new) }
    ensures tied { D.tie d.new ≡ D.tie d.old }
{
    d.write(p, frames::frame(&part[..NEXT], slot))
}

// The changed frames, one after the other, each to the page that `to` says for its place in the batch.
fn write_batch<D: Device, F: Fn(usize) -> u64>(d: &mut D, part: &Part, to: F) -> Result<(), Gone>
    requires table { Framed (frames_of part.now) }
    requires asks { (cache part.now).count ≤ (D.medium d.old).left }
    requires can { (k : ℕ) → k < (cache part.now).count → F.pre to k }
    requires near { (k p : ℕ) → k < (cache part.now).count → F.post to k p → p < (D.medium d.old).pages }
    ensures row { (t : ℕ → ℕ) → ((k p : ℕ) → k < (cache part.now).count → F.post to k p → p ≡ t k) → WroteAll (cache part.now).count (cache part.now).count t (batch_words (cache part.now)) (D.medium d.old) (is_ok result) (D.medium d.new) }
    ensures tied { D.tie d.new ≡ D.tie d.old }
{
    let frames = look(part);
    // By place: an iterator over the batch would be a type, its Model and their proofs more, for this loop and the one in `name_batch`.
    for k in 0..frames.batch_len() {
        write_frame(d, to(k), part, frames.batch_slot(k))?;
    }
    Ok(())
}

// The changed frames go to the slots of the region that the head doesn't name.
fn write_images<D: Device>(d: &mut D, part: &Part) -> Result<(), Gone>
    requires table { Framed (frames_of part.now) }
    requires side { (next part.now).region ≤ 1 }
    requires big { 393 ≤ (D.medium d.old).pages }
    requires asks { (cache part.now).count ≤ (D.medium d.old).left }
    ensures row { WroteAll (cache part.now).count (cache part.now).count (slot_in (1 - (next part.now).region)) (batch_words (cache part.now)) (D.medium d.old) (is_ok result) (D.medium d.new) }
    ensures tied { D.tie d.new ≡ D.tie d.old }
{
    let other = 1 - next_head(part).region();
    write_batch(d, part, |k| slot_in(other, k as u64))
}

// The changed frames go to the pages that they stand for.
fn install<D: Device>(d: &mut D, part: &Part) -> Result<(), Gone>
    requires table { Framed (frames_of part.now) }
    requires near { (k : ℕ) → k < (cache part.now).count → batch_page (cache part.now) k < (D.medium d.old).pages }
    requires asks { (cache part.now).count ≤ (D.medium d.old).left }
    ensures row { WroteAll (cache part.now).count (cache part.now).count (batch_page (cache part.now)) (batch_words (cache part.now)) (D.medium d.old) (is_ok result) (D.medium d.new) }
    ensures tied { D.tie d.new ≡ D.tie d.old }
{
    let frames = look(part);
    write_batch(d, part, |k| frames.batch_page(k))
}

// The head has a batch in the other region: the changed pages, in the order of the batch.
fn name_batch(head: &mut HeadPageMut<'_>, frames: &Frames<'_>)
    requires side { (head_in head.old).region ≤ 1 }
    ensures head { head_in head.new ≡ batched (batch_pages frames.now) (head_in head.old) }
    ensures named { SameHeadLoan head.old head.new }
{
    head.begin_batch();
    // By place, as in `write_batch`.
    for k in 0..frames.batch_len() {
        head.push_target(frames.batch_page(k));
    }
}

// The next head is the one that takes the batch: its pages, the root that goes with them, and what they did off the queue.
fn take_over(part: &mut Part, root: Root, worked: u64)
    requires table { Framed (frames_of part.old) }
    requires head { (length (next part.old).targets ≤ 64) × ((next part.old).region ≤ 1) }
    requires ring { ((next part.old).first < 264) × (((next part.old).full < 264) × ((next part.old).done + worked < 65536)) }
    ensures taken { next part.new ≡ taken (batch_pages (cache part.old)) root worked (next part.old) }
    ensures frames { frames_of part.new ≡ frames_of part.old }
{
    let (held, rest) = part.split_at_mut(NEXT);
    let frames = Frames::new(held);
    let (page, _scratch) = rest.split_at_mut(PAGE_WORDS);
    let mut head = HeadPageMut::new(page);
    name_batch(&mut head, &frames);
    head.put_work(root, worked);
}

// The batch was taken: its frames are clean again.
fn settle(part: &mut Part)
    requires table { Framed (frames_of part.old) }
    ensures head { next_of part.new ≡ next_of part.old }
    ensures table { Framed (frames_of part.new) }
    ensures cache { cache part.new ≡ settled (cache part.old) }
    ensures shown { (s t : ℕ → List ℕ) → InPlace (cache part.old) s t → shown_by (cache part.new) t ≡ shown_by (cache part.old) s }
    ensures clean { (s t : ℕ → List ℕ) → InPlace (cache part.old) s t → Clean (cache part.old) s → Clean (cache part.new) t }
{
    let (held, _rest) = part.split_at_mut(NEXT);
    let mut frames = FramesMut::new(held);
    frames.settle();
}

impl Store {
    /// The changed pages go to the slots of the region that the head doesn't name. Nothing lasts by this.
    pub fn image<D: Device>(&mut self, d: &mut D, part: &Part) -> Result<(), Gone>
        requires intact { Intact (D.medium d.old) part.now self.old }
        requires asks { (cache part.now).count ≤ (D.medium d.old).left }
        ensures shoots { Shoots (D.medium d.old) part.now self.old (is_ok result) (D.medium d.new) self.new }
        ensures tied { D.tie d.new ≡ D.tie d.old }
    {
        write_images(d, part)?;
        self.imaged = true;
        self.lasted = false;
        Ok(())
    }

    /// The imaged batch is taken: its pages, the root that goes with them, and the records that it did come off the queue's front.
    /// The appended records last with it.
    pub fn take_batch<D: Device>(&mut self, d: &mut D, part: &mut Part) -> Result<Lasted, Gone>
        requires intact { Intact (D.medium d.old) part.old self.old }
        requires imaged { T self.old.imaged }
        requires worked { self.old.worked ≤ length (queue_by (next part.old) (D.medium d.old).shown) }
        requires asks { (cache part.old).count + 3 ≤ (D.medium d.old).left }
        ensures takes { Takes (D.medium d.old) part.old self.old (is_ok result) (D.medium d.new) part.new self.new }
        ensures tied { D.tie d.new ≡ D.tie d.old }
    {
        let (root, worked) = (self.root, self.worked);
        self.make_last(d, true)?;
        take_over(part, root, worked);
        write_head(d, part)?;
        install(d, part)?;
        settle(part);
        self.imaged = false;
        self.worked = 0;
        Ok(Lasted { sealed: () })
    }
}
