// The queue of records: the next head's own, and pages of the ring.
ghost use Rattle.std.specs.Prelude.{◌≡◌, ℕ, ◌+◌, ◌*◌, ◌<◌, ◌≤◌, ◌==◌, nat_lt, cond, List, length, is_ok, MatchResult};
ghost use Rattle.store.specs.Medium.{Reads};
ghost use Rattle.store.specs.Head.{ring_page};
ghost use Rattle.store.specs.State.{queue_by};
ghost use Rattle.store.specs.Store.{next, next_of, frames_of, scratch_of, Ready, Intact, Lost, Spills, Appends};
ghost use Rattle.store.specs.Queue.{Loaded};

use crate::head::{PER_PAGE, Record};
use crate::open::load_scratch;
use crate::part::{NEXT, Part, SCRATCH, join_next, next_head, next_page, turn_next};
use crate::{Device, Gone, Store};
use std::ops::Range;

/// How many records the queue has.
pub fn queue_len(part: &Part) -> u64
    requires ring { ((next part.now).full < 264) × (length (next part.now).own ≤ 128) }
    requires less { (next part.now).done ≤ 128 * (next part.now).full + length (next part.now).own }
    ensures { (s : ℕ → List ℕ) → length (queue_by (next part.now) s) ≡ result }
{
    let next = next_head(part);
    PER_PAGE * next.full() + next.own() - next.done()
}

/// How many pages the queue stands on: those of the ring that are full, and the next head.
pub fn queue_pages(part: &Part) -> u64
    requires { (next part.now).full < 264 }
    ensures { result ≡ (next part.now).full + 1 }
{
    next_head(part).full() + 1
}

// Where on its page i the queue's records stand.
fn places_on(part: &Part, i: u64) -> Range<usize>
    ensures start { result.start ≡ cond (i == 0) (next part.now).done 0 }
    ensures end { result.end ≡ cond (nat_lt i (next part.now).full) 128 (length (next part.now).own) }
{
    let next = next_head(part);
    let start = if i == 0 { next.done() } else { 0 };
    let end = if i < next.full() {
        PER_PAGE
    } else {
        next.own()
    };
    start as usize..end as usize
}

// The next head as the page that was read last.
fn next_to_scratch(part: &mut Part)
    ensures scratch { scratch_of part.new ≡ next_of part.old }
    ensures head { next_of part.new ≡ next_of part.old }
    ensures frames { frames_of part.new ≡ frames_of part.old }
{
    let (held, scratch) = part.split_at_mut(SCRATCH);
    scratch.copy_from_slice(&held[NEXT..]);
}

impl Store {
    // The next head's own records become a page of the ring that no lasting head names.
    fn spill<D: Device>(&mut self, d: &mut D, part: &mut Part) -> Result<(), Gone>
        requires ready { Ready (D.medium d.old) (next part.old) self.old.fresh }
        requires brim { length (next part.old).own ≡ 128 }
        requires room { (next part.old).full < 263 }
        requires asks { 0 < (D.medium d.old).left }
        ensures spills { Spills (D.medium d.old) part.old self.old (is_ok result) (D.medium d.new) part.new self.new }
        ensures tied { D.tie d.new ≡ D.tie d.old }
    {
        let next = next_head(part);
        let p = next.ring_page(next.full());
        d.write(p, next_page(part))?;
        self.fresh = true;
        turn_next(part);
        Ok(())
    }

    // The next head has room for a record more.
    fn make_room<D: Device>(&mut self, d: &mut D, part: &mut Part) -> Result<(), Gone>
        requires ready { Ready (D.medium d.old) (next part.old) self.old.fresh }
        requires room { length (queue_by (next part.old) (D.medium d.old).shown) < 32768 }
        requires asks { 0 < (D.medium d.old).left }
        ensures spills { Spills (D.medium d.old) part.old self.old (is_ok result) (D.medium d.new) part.new self.new }
        ensures tied { D.tie d.new ≡ D.tie d.old }
    {
        let own = next_head(part).own();
        if own < PER_PAGE {
            return Ok(());
        }
        self.spill(d, part)
    }

    /// The record joins the next head. What has lasted stays as it is until a seal.
    pub fn append<D: Device>(
        &mut self,
        d: &mut D,
        part: &mut Part,
        item: Record,
    ) -> Result<(), Gone>
        requires intact { Intact (D.medium d.old) part.old self.old }
        requires room { length (queue_by (next part.old) (D.medium d.old).shown) < 32768 }
        requires asks { 0 < (D.medium d.old).left }
        ensures appends { Appends (D.medium d.old) part.old self.old item (is_ok result) (D.medium d.new) part.new self.new }
        ensures tied { D.tie d.new ≡ D.tie d.old }
    {
        self.make_room(d, part)?;
        join_next(part, item);
        Ok(())
    }

    // Page i of the ring, counted from its first, into the scratch.
    fn load_ring_page<D: Device>(&self, d: &mut D, part: &mut Part, i: u64) -> Result<(), Gone>
        requires intact { Intact (D.medium d.old) part.old self.now }
        requires full { i < (next part.old).full }
        requires asks { 0 < (D.medium d.old).left }
        ensures reads { Reads (D.medium d.old) (ring_page (next part.old) i) (scratch_of part.new) (is_ok result) (D.medium d.new) }
        ensures intact { Intact (D.medium d.new) part.new self.now }
        ensures head { next_of part.new ≡ next_of part.old }
        ensures frames { frames_of part.new ≡ frames_of part.old }
        ensures tied { D.tie d.new ≡ D.tie d.old }
    {
        let p = next_head(part).ring_page(i);
        load_scratch(d, p, part)
    }

    /// Page i of the queue into the scratch: a page of the ring or, behind those that are full, the next head. Gives the places at which
    /// records of the queue stand there, for `head::record_at`. The ring's pages take an asking each.
    pub fn load_queue_page<D: Device>(
        &self,
        d: &mut D,
        part: &mut Part,
        i: u64,
    ) -> Result<Range<usize>, Gone>
        requires intact { Intact (D.medium d.old) part.old self.now }
        requires page { i ≤ (next part.old).full }
        requires asks { 0 < (D.medium d.old).left }
        ensures reads { i < (next part.old).full → Reads (D.medium d.old) (ring_page (next part.old) i) (scratch_of part.new) (is_ok result) (D.medium d.new) }
        ensures loads { MatchResult result (λ r. Loaded (D.medium d.old) part.old self.now i r (D.medium d.new) part.new) (λ _. Lost (D.medium d.old) (D.medium d.new)) }
        ensures intact { Intact (D.medium d.new) part.new self.now }
        ensures head { next_of part.new ≡ next_of part.old }
        ensures frames { frames_of part.new ≡ frames_of part.old }
        ensures tied { D.tie d.new ≡ D.tie d.old }
    {
        if i < next_head(part).full() {
            self.load_ring_page(d, part, i)?;
        } else {
            next_to_scratch(part);
        }
        Ok(places_on(part, i))
    }
}
