// The front of the queue goes into the tree.
ghost use Rattle.std.specs.Prelude.{◌≡◌, ℕ, ◌+◌, ◌<◌, false, [], ◌∷◌, length, is_ok, IfOk, OnOk, slice_index};
ghost use Rattle.view.specs.Asks.{ChangeSpent};
ghost use Rattle.view.specs.Index.{Whole, Passes, MayChange};
ghost use Rattle.lines.specs.Tables.{tables, behind, deal_lines, queue_lines, QueueIn};
ghost use Rattle.view.specs.Room.{Counts, Applied};
ghost use Rattle.view.specs.Upkeep.{SuccOk};
ghost use Rattle.view.specs.Writes.{with_lines, Rising};

use crate::index::Index;
use crate::kept::{change_by, keep_deals, keep_queue};
use lines::line::Line;
use lines::queue::front_of;
use lines::ring::Ring;
use pages::Gone;

// One record.
fn work_in<D: Index>(index: &mut D, room: &mut [u64], line: Line) -> Result<(), Gone>
    requires room { length room.old ≡ 262144 }
    requires asks { MayChange D.budget D.ready index.old room.old }
    requires whole { Whole D.onto index.old room.old }
    ensures done { OnOk result (D.pairs index.new (behind room.new) ≡ with_lines (D.pairs index.old (behind room.old)) (line ∷ [])) }
    ensures asked { OnOk result (ChangeSpent (D.budget index.old) (D.budget index.new)) }
    ensures tables { tables room.new ≡ tables room.old }
    ensures passed { Passes D.onto D.tie (is_ok result) index.old room.old index.new room.new }
{
    match line {
        Line::Wrote(k, x) => index.put(room, k, x),
        Line::Cleared(k, _) => index.remove(room, k),
        _ => Ok(()),
    }
}

/// The front record goes into the tree, and what is kept above dropped keys is put right in the queue and in all deals.
/// Gives the queue without that record: with it the tree makes the same pairs as before.
pub fn apply_front<D: Index>(
    index: &mut D,
    room: &mut [u64],
    counts: &[usize],
    queue: Ring,
) -> Result<Ring, Gone>
    requires stands { (QueueIn room.old queue) × ((0 < queue.count) × (Counts counts.now)) }
    requires up { Rising (D.pairs index.old (behind room.old)) }
    requires succs { SuccOk (D.pairs index.old (behind room.old)) (queue_lines room.old queue) }
    requires asks { MayChange D.budget D.ready index.old room.old }
    requires whole { Whole D.onto index.old room.old }
    ensures applied { IfOk result (λ s. Applied (D.pairs index.old (behind room.old)) (D.pairs index.new (behind room.new)) room.old room.new counts.now queue s) }
    ensures pairs { IfOk result (λ s. with_lines (D.pairs index.new (behind room.new)) (queue_lines room.new s) ≡ with_lines (D.pairs index.old (behind room.old)) (queue_lines room.old queue)) }
    ensures up { OnOk result (Rising (D.pairs index.new (behind room.new))) }
    ensures succs { IfOk result (λ s. SuccOk (D.pairs index.new (behind room.new)) (queue_lines room.new s)) }
    ensures deals { OnOk result ((c : ℕ) → c < 32 → SuccOk (D.pairs index.old (behind room.old)) (deal_lines room.old c (slice_index counts.now c)) → SuccOk (D.pairs index.new (behind room.new)) (deal_lines room.new c (slice_index counts.now c))) }
    ensures queue { IfOk result (λ s. QueueIn room.new s × (s.count + 1 ≡ queue.count)) }
    ensures gone { is_ok result ≡ false → tables room.new ≡ tables room.old }
    ensures asked { OnOk result (ChangeSpent (D.budget index.old) (D.budget index.new)) }
    ensures passed { Passes D.onto D.tie (is_ok result) index.old room.old index.new room.new }
{
    let (line, rest) = front_of(room, queue);
    work_in(index, room, line)?;
    let change = change_by(line);
    keep_queue(room, rest, change);
    keep_deals(room, counts, change);
    Ok(rest)
}
