// A deal is made: what it writes lasts, and joins the queue in the room.
ghost use Rattle.std.specs.Prelude.{◌≡◌, ℕ, ◌+◌, ◌<◌, ◌≤◌, false, [], ◌∷◌, length, is_ok, is_some, OnOk, IfOk};
ghost use Rattle.lines.specs.Tables.{deal_lines, DealIn};
ghost use Rattle.store.specs.State.{queue_by};
ghost use Rattle.store.specs.Store.{next, Intact};
ghost use Rattle.view.specs.Upkeep.{SuccOk};
ghost use Rattle.view.specs.Writes.{with_lines};
ghost use Rattle.ledger.specs.Ledger.{Pairs, part_of, now_pairs, Stands, Becomes, OnlyPart, Aside};
ghost use Rattle.ledger.specs.Commits.{record_by, records_by, writes_any, Allows, AppendsAll, Settles, Joined, settle_asks, commit_asks};

use crate::{Ledger, PART_AT, PART_END, part};
use lines::line::Line;
use lines::own::lines_of;
use store::head::Record;
use store::{Device, Gone, Lasted, Store, in_slice};
use view::commit::take_in;
use view::seen::View;

// A line as a record, where it writes.
fn record_by(line: Line) -> Option<Record>
    ensures { result ≡ record_by line }
{
    match line {
        Line::Wrote(key, word) => Some(Record::Put { key, word }),
        Line::Cleared(key, _) => Some(Record::Drop { key }),
        _ => None,
    }
}

fn writes(line: Line) -> bool
    ensures { result ≡ is_some (record_by line) }
{
    record_by(line).is_some()
}

// Whether the deal writes anything that it hasn't gone back over.
fn writes_any(room: &[u64], deal: usize, count: usize) -> bool
    requires { DealIn room.now deal count }
    ensures { result ≡ writes_any (deal_lines room.now deal count) }
{
    lines_of(room, deal, count).any(|line| writes(line))
}

// What a line writes joins the next head.
fn append_line<D: Device>(
    store: &mut Store,
    d: &mut D,
    room: &mut [u64],
    line: Line,
) -> Result<(), Gone>
    requires size { length room.old ≡ 262144 }
    requires intact { Intact (D.medium d.old) (part_of room.old) store.old }
    requires room { length (queue_by (next (part_of room.old)) (D.medium d.old).shown) + length (records_by (line ∷ [])) ≤ 32768 }
    requires asks { 0 < (D.medium d.old).left }
    ensures appends { AppendsAll (D.medium d.old) (part_of room.old) store.old (records_by (line ∷ [])) (is_ok result) (D.medium d.new) (part_of room.new) store.new }
    ensures only { OnlyPart room.old room.new }
    ensures tied { D.tie d.new ≡ D.tie d.old }
{
    match record_by(line) {
        Some(item) => in_slice::append(store, d, &mut room[PART_AT..PART_END], item),
        None => Ok(()),
    }
}

// All that the deal writes joins the next head, in its order.
fn append_all<D: Device>(
    store: &mut Store,
    d: &mut D,
    room: &mut [u64],
    deal: usize,
    count: usize,
) -> Result<(), Gone>
    requires deal { DealIn room.old deal count }
    requires intact { Intact (D.medium d.old) (part_of room.old) store.old }
    requires room { length (queue_by (next (part_of room.old)) (D.medium d.old).shown) + length (records_by (deal_lines room.old deal count)) ≤ 32768 }
    requires asks { 9 ≤ (D.medium d.old).left }
    ensures appends { AppendsAll (D.medium d.old) (part_of room.old) store.old (records_by (deal_lines room.old deal count)) (is_ok result) (D.medium d.new) (part_of room.new) store.new }
    ensures asked { OnOk result ((D.medium d.old).left ≤ (D.medium d.new).left + 9) }
    ensures only { OnlyPart room.old room.new }
    ensures tied { D.tie d.new ≡ D.tie d.old }
{
    // The store's part of the room is written meanwhile, so no iterator over the lines can hold it.
    for i in 0..count {
        let line = lines_of(room, deal, count).at(i);
        append_line(store, d, room, line)?;
    }
    Ok(())
}

// What has joined the next head lasts.
fn settle<D: Device>(store: &mut Store, d: &mut D, room: &mut [u64]) -> Result<Lasted, Gone>
    requires size { length room.old ≡ 262144 }
    requires intact { Intact (D.medium d.old) (part_of room.old) store.old }
    requires worked { store.old.worked ≤ length (queue_by (next (part_of room.old)) (D.medium d.old).shown) }
    requires asks { settle_asks (part_of room.old) store.old ≤ (D.medium d.old).left }
    ensures settles { Settles (D.medium d.old) (part_of room.old) store.old (is_ok result) (D.medium d.new) (part_of room.new) store.new }
    ensures asked { OnOk result ((D.medium d.old).left ≤ (D.medium d.new).left + settle_asks (part_of room.old) store.old) }
    ensures only { OnlyPart room.old room.new }
    ensures tied { D.tie d.new ≡ D.tie d.old }
{
    part::settle(store, d, &mut room[PART_AT..PART_END])
}

impl Ledger {
    // The deal writes something, so it has to last.
    fn commit_writes<D: Device>(
        &mut self,
        d: &mut D,
        room: &mut [u64],
        deal: usize,
        count: usize,
    ) -> Result<Lasted, Gone>
        requires stands { (p : ℕ) × (b : Pairs) × Stands p (D.medium d.old) room.old self.old b }
        requires deal { DealIn room.old deal count }
        requires allows { Allows (D.medium d.old) room.old self.old (deal_lines room.old deal count) }
        requires succs { SuccOk (now_pairs (D.medium d.old) room.old self.old) (deal_lines room.old deal count) }
        requires asks { commit_asks room.old self.old ≤ (D.medium d.old).left }
        ensures book { (p : ℕ) (b : Pairs) → Stands p (D.medium d.old) room.old self.old b → Becomes p b (with_lines b (deal_lines room.old deal count)) (is_ok result) (D.medium d.new) room.new self.new }
        ensures joined { OnOk result (Joined (D.medium d.old) room.old self.old (deal_lines room.old deal count) (D.medium d.new) room.new self.new) }
        ensures asked { OnOk result ((D.medium d.old).left ≤ (D.medium d.new).left + commit_asks room.old self.old) }
        ensures aside { Aside room.old room.new }
        ensures tied { D.tie d.new ≡ D.tie d.old }
    {
        let view = View {
            deal,
            count,
            queue: self.queue,
        };
        append_all(&mut self.store, d, room, deal, count)?;
        let lasted = settle(&mut self.store, d, room)?;
        self.queue = take_in(room, view);
        Ok(lasted)
    }

    /// What the deal writes lasts, and is at the queue's end. Whoever calls has to spend the token, and does so where the deal is told.
    /// A deal that writes nothing asks the disk for nothing, and has no token.
    pub fn commit<D: Device>(
        &mut self,
        d: &mut D,
        room: &mut [u64],
        deal: usize,
        count: usize,
    ) -> Result<Option<Lasted>, Gone>
        requires stands { (p : ℕ) × (b : Pairs) × Stands p (D.medium d.old) room.old self.old b }
        requires deal { DealIn room.old deal count }
        requires allows { Allows (D.medium d.old) room.old self.old (deal_lines room.old deal count) }
        requires succs { SuccOk (now_pairs (D.medium d.old) room.old self.old) (deal_lines room.old deal count) }
        requires asks { commit_asks room.old self.old ≤ (D.medium d.old).left }
        ensures book { (p : ℕ) (b : Pairs) → Stands p (D.medium d.old) room.old self.old b → Becomes p b (with_lines b (deal_lines room.old deal count)) (is_ok result) (D.medium d.new) room.new self.new }
        ensures token { IfOk result (λ o. is_some o ≡ writes_any (deal_lines room.old deal count)) }
        ensures joined { OnOk result (Joined (D.medium d.old) room.old self.old (deal_lines room.old deal count) (D.medium d.new) room.new self.new) }
        ensures asked { OnOk result ((D.medium d.old).left ≤ (D.medium d.new).left + commit_asks room.old self.old) }
        ensures quiet { writes_any (deal_lines room.old deal count) ≡ false → D.medium d.new ≡ D.medium d.old }
        ensures aside { Aside room.old room.new }
        ensures tied { D.tie d.new ≡ D.tie d.old }
    {
        if !writes_any(room, deal, count) {
            return Ok(None);
        }
        let lasted = self.commit_writes(d, room, deal, count)?;
        Ok(Some(lasted))
    }
}
