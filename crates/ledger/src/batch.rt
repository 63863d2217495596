// Batches: what is worked into the tree goes to the disk, and the book stays.
ghost use Rattle.std.specs.Prelude.{◌≡◌, ℕ, ◌+◌, ◌<◌, ◌≤◌, T, not, is_ok, OnOk};
ghost use Rattle.store.specs.Store.{cache};
ghost use Rattle.ledger.specs.Ledger.{Pairs, part_of, now_pairs, Stands, Stays, OnlyPart};

use crate::{Ledger, PART_AT, PART_END};
use store::{Device, Gone, in_slice};

impl Ledger {
    /// The imaged batch is taken: the tree on the disk has what was worked into it, and that is off the durable queue.
    pub fn take<D: Device>(&mut self, d: &mut D, room: &mut [u64]) -> Result<(), Gone>
        requires stands { (p : ℕ) × (b : Pairs) × Stands p (D.medium d.old) room.old self.old b }
        requires imaged { T self.old.store.imaged }
        requires asks { (cache (part_of room.old)).count + 3 ≤ (D.medium d.old).left }
        ensures book { (p : ℕ) (b : Pairs) → Stands p (D.medium d.old) room.old self.old b → Stays p b (is_ok result) (D.medium d.new) room.new self.new }
        ensures done { OnOk result ((T (not self.new.store.imaged)) × ((self.new.store.worked ≡ 0) × ((cache (part_of room.new)).count ≡ 0))) }
        ensures tree { OnOk result (now_pairs (D.medium d.new) room.new self.new ≡ now_pairs (D.medium d.old) room.old self.old) }
        ensures asked { OnOk result ((D.medium d.old).left ≤ (D.medium d.new).left + ((cache (part_of room.old)).count + 3)) }
        ensures queue { self.new.queue ≡ self.old.queue }
        ensures room { OnlyPart room.old room.new }
        ensures tied { D.tie d.new ≡ D.tie d.old }
    {
        let lasted = in_slice::take_batch(&mut self.store, d, &mut room[PART_AT..PART_END])?;
        lasted.spend();
        Ok(())
    }

    /// The changed pages go to the slots of the region that the head doesn't name. Nothing lasts by this.
    pub fn image<D: Device>(&mut self, d: &mut D, room: &mut [u64]) -> Result<(), Gone>
        requires stands { (p : ℕ) × (b : Pairs) × Stands p (D.medium d.old) room.old self.old b }
        requires begun { 0 < self.old.store.worked }
        requires asks { (cache (part_of room.old)).count ≤ (D.medium d.old).left }
        ensures book { (p : ℕ) (b : Pairs) → Stands p (D.medium d.old) room.old self.old b → Stays p b (is_ok result) (D.medium d.new) room.new self.new }
        ensures imaged { OnOk result ((T self.new.store.imaged) × (self.new.store.worked ≡ self.old.store.worked)) }
        ensures tree { OnOk result (now_pairs (D.medium d.new) room.new self.new ≡ now_pairs (D.medium d.old) room.old self.old) }
        ensures asked { OnOk result ((D.medium d.old).left ≤ (D.medium d.new).left + (cache (part_of room.old)).count) }
        ensures queue { self.new.queue ≡ self.old.queue }
        ensures room { room.new ≡ room.old }
        ensures tied { D.tie d.new ≡ D.tie d.old }
    {
        in_slice::image(&mut self.store, d, &mut room[PART_AT..PART_END])
    }
}
