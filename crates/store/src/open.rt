// Coming up after the power came back.
ghost use Rattle.std.specs.Prelude.{◌≡◌, ℕ, ◌<◌, ◌≤◌, List, length, is_ok, MatchResult};
ghost use Rattle.frames.specs.Layout.{cleared};
ghost use Rattle.frames.specs.Frames.{Sound as Framed, Clean, pinned, shown_by};
ghost use Rattle.store.specs.Medium.{MayAsk, Reads, Wrote, WroteAll};
ghost use Rattle.store.specs.Head.{target, slot};
ghost use Rattle.store.specs.State.{Rested};
ghost use Rattle.store.specs.Store.{next, next_of, frames_of, scratch_of, Opened, Lost, cache};

use crate::head::slot_in;
use crate::part::{NEXT, Part, SCRATCH, next_head, scratch, stamp_next};
use crate::{Device, Gone, Store};
use frames::FramesMut;

// A page into the scratch.
pub(crate) fn load_scratch<D: Device>(d: &mut D, p: u64, part: &mut Part) -> Result<(), Gone>
    requires ask { MayAsk (D.medium d.old) p }
    ensures reads { Reads (D.medium d.old) p (scratch_of part.new) (is_ok result) (D.medium d.new) }
    ensures head { next_of part.new ≡ next_of part.old }
    ensures frames { frames_of part.new ≡ frames_of part.old }
    ensures tied { D.tie d.new ≡ D.tie d.old }
{
    d.read(p, &mut part[SCRATCH..])
}

// The head into the part. Nothing is known of it before, so it may leave alone less than `load_scratch`.
fn load_head<D: Device>(d: &mut D, part: &mut Part) -> Result<(), Gone>
    requires ask { MayAsk (D.medium d.old) 0 }
    ensures reads { Reads (D.medium d.old) 0 (next_of part.new) (is_ok result) (D.medium d.new) }
    ensures tied { D.tie d.new ≡ D.tie d.old }
{
    d.read(0, &mut part[NEXT..SCRATCH])
}

// One page to another, by way of the scratch.
fn copy_page<D: Device>(d: &mut D, from: u64, to: u64, part: &mut Part) -> Result<(), Gone>
    requires asks { 2 ≤ (D.medium d.old).left }
    requires near { (from < (D.medium d.old).pages) × (to < (D.medium d.old).pages) }
    ensures wrote { Wrote 2 (D.medium d.old) to ((D.medium d.old).shown from) (is_ok result) (D.medium d.new) }
    ensures head { next_of part.new ≡ next_of part.old }
    ensures tied { D.tie d.new ≡ D.tie d.old }
{
    load_scratch(d, from, part)?;
    d.write(to, scratch(part))
}

// The last batch of the head is put where it belongs, whatever was done of it before.
fn redo<D: Device>(d: &mut D, part: &mut Part) -> Result<(), Gone>
    requires rested { Rested (D.medium d.old) }
    requires asks { 128 ≤ (D.medium d.old).left }
    requires head { next_of part.old ≡ (D.medium d.old).shown 0 }
    ensures row { WroteAll 128 (length (next part.old).targets) (target (next part.old)) (λ j. (D.medium d.old).shown (slot (next part.old) j)) (D.medium d.old) (is_ok result) (D.medium d.new) }
    ensures head { next_of part.new ≡ next_of part.old }
    ensures tied { D.tie d.new ≡ D.tie d.old }
{
    let n = next_head(part).batch_len();
    // The head is read again for each, since the copy goes by way of the part.
    for k in 0..n {
        let head = next_head(part);
        let from = slot_in(head.region(), k);
        let to = head.target(k);
        copy_page(d, from, to, part)?;
    }
    Ok(())
}

// Nothing is in the frames.
fn clear_frames(part: &mut Part)
    ensures head { next_of part.new ≡ next_of part.old }
    ensures table { Framed (frames_of part.new) }
    ensures cache { cache part.new ≡ cleared (cache part.old).frames }
    ensures shown { (s : ℕ → List ℕ) → shown_by (cache part.new) s ≡ s }
    ensures clean { (s : ℕ → List ℕ) → Clean (cache part.new) s }
    ensures pins { pinned (cache part.new) ≡ 0 }
{
    let (held, _rest) = part.split_at_mut(NEXT);
    let _frames = FramesMut::reset(held);
}

impl Store {
    /// After the power came back: the last batch is put in place again, and nothing is in the frames.
    pub fn open<D: Device>(d: &mut D, part: &mut Part) -> Result<Store, Gone>
        requires rested { Rested (D.medium d.old) }
        requires asks { 129 ≤ (D.medium d.old).left }
        ensures opens { MatchResult result (λ z. Opened (D.medium d.old) (D.medium d.new) part.new z) (λ _. Lost (D.medium d.old) (D.medium d.new)) }
        ensures tied { D.tie d.new ≡ D.tie d.old }
    {
        load_head(d, part)?;
        redo(d, part)?;
        clear_frames(part);
        stamp_next(part);
        let root = next_head(part).root();
        Ok(Store {
            fresh: false,
            imaged: false,
            lasted: false,
            root,
            worked: 0,
        })
    }
}
