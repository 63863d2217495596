// The front of the queue goes into the tree in the frames.
ghost use Rattle.std.specs.Prelude.{◌≡◌, ℕ, ◌+◌, ◌<◌, ◌≤◌, is_ok, IfOk, OnOk};
ghost use Rattle.lines.specs.Tables.{behind, queue_lines, QueueIn};
ghost use Rattle.pager.specs.Volume.{Paged, pairs_in};
ghost use Rattle.treeindex.specs.Behind.{Ready, Onto};
ghost use Rattle.view.specs.Room.{Counts};
ghost use Rattle.view.specs.Upkeep.{SuccOk};
ghost use Rattle.ledger.specs.Ledger.{Pairs, part_of, now_pairs, Stands, Stays, Upkept};
ghost use Rattle.ledger.specs.Works.{work_asks, Workable, Worked, Goes};

use crate::Ledger;
use lines::ring::Ring;
use store::{Device, Gone, Store};
use treeindex::TreeIndex;
use view::apply::apply_front;

// As `apply_front`, over the tree at the store's root.
fn apply_in<D: Device>(
    d: &mut D,
    room: &mut [u64],
    store: &mut Store,
    counts: &[usize],
    queue: Ring,
) -> Result<Ring, Gone>
    requires stands { (QueueIn room.old queue) × ((0 < queue.count) × (Counts counts.now)) }
    requires paged { Paged (D.medium d.old) (part_of room.old) store.old }
    requires ready { Ready (D.medium d.old) (behind room.old) store.old }
    requires succs { SuccOk (pairs_in (D.medium d.old) (part_of room.old) store.old) (queue_lines room.old queue) }
    requires asks { work_asks ≤ (D.medium d.old).left }
    ensures goes { IfOk result (λ s. Goes counts.now queue (D.medium d.old) room.old store.old (D.medium d.new) room.new store.new s) }
    ensures onto { Onto (D.medium d.old) (behind room.old) store.old (is_ok result) (D.medium d.new) (behind room.new) store.new }
    ensures tied { D.tie d.new ≡ D.tie d.old }
{
    let mut index = TreeIndex { device: d, store };
    apply_front(&mut index, room, counts, queue)
}

impl Ledger {
    /// The oldest record of the queue goes into the tree in the frames, and what the lines of the queue and of the deals know of the
    /// tree is put right. Nothing lasts by this, and the book stays.
    pub fn work<D: Device>(
        &mut self,
        d: &mut D,
        room: &mut [u64],
        counts: &[usize],
    ) -> Result<(), Gone>
        requires stands { (p : ℕ) × (b : Pairs) × Stands p (D.medium d.old) room.old self.old b }
        requires counts { Counts counts.now }
        requires workable { Workable (D.medium d.old) room.old self.old }
        requires asks { work_asks ≤ (D.medium d.old).left }
        ensures book { (p : ℕ) (b : Pairs) → Stands p (D.medium d.old) room.old self.old b → Stays p b (is_ok result) (D.medium d.new) room.new self.new }
        ensures worked { OnOk result (Worked self.old self.new) }
        ensures upkept { OnOk result (Upkept counts.now (now_pairs (D.medium d.old) room.old self.old) (now_pairs (D.medium d.new) room.new self.new) room.old room.new) }
        ensures asked { OnOk result ((D.medium d.old).left ≤ (D.medium d.new).left + work_asks) }
        ensures tied { D.tie d.new ≡ D.tie d.old }
    {
        self.queue = apply_in(d, room, &mut self.store, counts, self.queue)?;
        self.store.worked += 1;
        Ok(())
    }
}
