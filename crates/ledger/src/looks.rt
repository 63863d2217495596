// What a deal finds in the book.
ghost use Rattle.std.specs.Prelude.{◌≡◌, ℕ, ◌+◌, ◌≤◌, length, is_ok, IfOk, OnOk};
ghost use Rattle.lines.specs.declared.line.Line.TheVariants.{Cleared};
ghost use Rattle.lines.specs.Tables.{tables, behind, deal_lines, DealIn};
ghost use Rattle.node.specs.Pairs.{find, above};
ghost use Rattle.pager.specs.Volume.{Paged, pairs_in};
ghost use Rattle.treeindex.specs.Behind.{Onto};
ghost use Rattle.view.specs.Room.{Stands as Viewed, own_of, queue_of, pairs_seen};
ghost use Rattle.view.specs.Upkeep.{next_key, SuccOk};
ghost use Rattle.view.specs.Writes.{with_lines};
ghost use Rattle.ledger.specs.Ledger.{Pairs, part_of, now_pairs, Stands, Stays};
ghost use Rattle.ledger.specs.Looks.{look_asks, key_asks, pair_asks, Finds, Looked};

use crate::Ledger;
use lines::line::Line;
use store::{Device, Gone, Store};
use treeindex::TreeIndex;
use view::look::{drop_line, look, next_key, next_pair};
use view::seen::View;

// As `look`, over the tree at the store's root.
fn look_in<D: Device>(
    d: &mut D,
    room: &mut [u64],
    store: &mut Store,
    view: View,
    k: u64,
) -> Result<Option<u64>, Gone>
    requires stands { Viewed room.old view }
    requires paged { Paged (D.medium d.old) (part_of room.old) store.old }
    requires asks { look_asks ≤ (D.medium d.old).left }
    ensures told { IfOk result (λ o. o ≡ find k (pairs_seen (pairs_in (D.medium d.old) (part_of room.old) store.old) room.old view)) }
    ensures finds { OnOk result (Finds look_asks (D.medium d.old) room.old store.old (D.medium d.new) room.new store.new) }
    ensures tables { tables room.new ≡ tables room.old }
    ensures onto { Onto (D.medium d.old) (behind room.old) store.old (is_ok result) (D.medium d.new) (behind room.new) store.new }
    ensures tied { D.tie d.new ≡ D.tie d.old }
{
    let mut index = TreeIndex { device: d, store };
    look(&mut index, room, view, k)
}

// As `next_key`, over the tree at the store's root.
fn next_key_in<D: Device>(
    d: &mut D,
    room: &mut [u64],
    store: &mut Store,
    view: View,
    k: u64,
) -> Result<Option<u64>, Gone>
    requires stands { Viewed room.old view }
    requires paged { Paged (D.medium d.old) (part_of room.old) store.old }
    requires succs { (SuccOk (pairs_in (D.medium d.old) (part_of room.old) store.old) (queue_of room.old view)) × (SuccOk (pairs_in (D.medium d.old) (part_of room.old) store.old) (own_of room.old view)) }
    requires asks { key_asks ≤ (D.medium d.old).left }
    ensures told { IfOk result (λ o. o ≡ next_key k (pairs_seen (pairs_in (D.medium d.old) (part_of room.old) store.old) room.old view)) }
    ensures finds { OnOk result (Finds key_asks (D.medium d.old) room.old store.old (D.medium d.new) room.new store.new) }
    ensures tables { tables room.new ≡ tables room.old }
    ensures onto { Onto (D.medium d.old) (behind room.old) store.old (is_ok result) (D.medium d.new) (behind room.new) store.new }
    ensures tied { D.tie d.new ≡ D.tie d.old }
{
    let mut index = TreeIndex { device: d, store };
    next_key(&mut index, room, view, k)
}

// As `next_pair`, over the tree at the store's root.
fn next_pair_in<D: Device>(
    d: &mut D,
    room: &mut [u64],
    store: &mut Store,
    view: View,
    k: u64,
) -> Result<Option<(u64, u64)>, Gone>
    requires stands { Viewed room.old view }
    requires paged { Paged (D.medium d.old) (part_of room.old) store.old }
    requires succs { (SuccOk (pairs_in (D.medium d.old) (part_of room.old) store.old) (queue_of room.old view)) × (SuccOk (pairs_in (D.medium d.old) (part_of room.old) store.old) (own_of room.old view)) }
    requires asks { pair_asks ≤ (D.medium d.old).left }
    ensures told { IfOk result (λ o. o ≡ above k (pairs_seen (pairs_in (D.medium d.old) (part_of room.old) store.old) room.old view)) }
    ensures finds { OnOk result (Finds pair_asks (D.medium d.old) room.old store.old (D.medium d.new) room.new store.new) }
    ensures tables { tables room.new ≡ tables room.old }
    ensures onto { Onto (D.medium d.old) (behind room.old) store.old (is_ok result) (D.medium d.new) (behind room.new) store.new }
    ensures tied { D.tie d.new ≡ D.tie d.old }
{
    let mut index = TreeIndex { device: d, store };
    next_pair(&mut index, room, view, k)
}

// As `drop_line`, over the tree at the store's root.
fn drop_line_in<D: Device>(
    d: &mut D,
    room: &mut [u64],
    store: &mut Store,
    k: u64,
) -> Result<Line, Gone>
    requires size { length room.old ≡ 262144 }
    requires paged { Paged (D.medium d.old) (part_of room.old) store.old }
    requires asks { key_asks ≤ (D.medium d.old).left }
    ensures told { IfOk result (λ l. l ≡ Cleared k (next_key k (pairs_in (D.medium d.old) (part_of room.old) store.old))) }
    ensures finds { OnOk result (Finds key_asks (D.medium d.old) room.old store.old (D.medium d.new) room.new store.new) }
    ensures tables { tables room.new ≡ tables room.old }
    ensures onto { Onto (D.medium d.old) (behind room.old) store.old (is_ok result) (D.medium d.new) (behind room.new) store.new }
    ensures tied { D.tie d.new ≡ D.tie d.old }
{
    let mut index = TreeIndex { device: d, store };
    drop_line(&mut index, room, k)
}

impl Ledger {
    /// The word at k as the deal sees it: in the book, after what its own lines write.
    pub fn look<D: Device>(
        &mut self,
        d: &mut D,
        room: &mut [u64],
        deal: usize,
        count: usize,
        k: u64,
    ) -> Result<Option<u64>, Gone>
        requires stands { (p : ℕ) × (b : Pairs) × Stands p (D.medium d.old) room.old self.old b }
        requires deal { DealIn room.old deal count }
        requires asks { look_asks ≤ (D.medium d.old).left }
        ensures told { IfOk result (λ o. (p : ℕ) (b : Pairs) → Stands p (D.medium d.old) room.old self.old b → o ≡ find k (with_lines b (deal_lines room.old deal count))) }
        ensures book { (p : ℕ) (b : Pairs) → Stands p (D.medium d.old) room.old self.old b → Stays p b (is_ok result) (D.medium d.new) room.new self.new }
        ensures looked { OnOk result (Looked look_asks (D.medium d.old) room.old self.old (D.medium d.new) room.new self.new) }
        ensures tied { D.tie d.new ≡ D.tie d.old }
    {
        let view = View {
            deal,
            count,
            queue: self.queue,
        };
        look_in(d, room, &mut self.store, view, k)
    }

    /// The first key above k as the deal sees it.
    pub fn next_key<D: Device>(
        &mut self,
        d: &mut D,
        room: &mut [u64],
        deal: usize,
        count: usize,
        k: u64,
    ) -> Result<Option<u64>, Gone>
        requires stands { (p : ℕ) × (b : Pairs) × Stands p (D.medium d.old) room.old self.old b }
        requires deal { DealIn room.old deal count }
        requires succs { SuccOk (now_pairs (D.medium d.old) room.old self.old) (deal_lines room.old deal count) }
        requires asks { key_asks ≤ (D.medium d.old).left }
        ensures told { IfOk result (λ o. (p : ℕ) (b : Pairs) → Stands p (D.medium d.old) room.old self.old b → o ≡ next_key k (with_lines b (deal_lines room.old deal count))) }
        ensures book { (p : ℕ) (b : Pairs) → Stands p (D.medium d.old) room.old self.old b → Stays p b (is_ok result) (D.medium d.new) room.new self.new }
        ensures looked { OnOk result (Looked key_asks (D.medium d.old) room.old self.old (D.medium d.new) room.new self.new) }
        ensures tied { D.tie d.new ≡ D.tie d.old }
    {
        let view = View {
            deal,
            count,
            queue: self.queue,
        };
        next_key_in(d, room, &mut self.store, view, k)
    }

    /// The first pair above k as the deal sees it.
    pub fn next_pair<D: Device>(
        &mut self,
        d: &mut D,
        room: &mut [u64],
        deal: usize,
        count: usize,
        k: u64,
    ) -> Result<Option<(u64, u64)>, Gone>
        requires stands { (p : ℕ) × (b : Pairs) × Stands p (D.medium d.old) room.old self.old b }
        requires deal { DealIn room.old deal count }
        requires succs { SuccOk (now_pairs (D.medium d.old) room.old self.old) (deal_lines room.old deal count) }
        requires asks { pair_asks ≤ (D.medium d.old).left }
        ensures told { IfOk result (λ o. (p : ℕ) (b : Pairs) → Stands p (D.medium d.old) room.old self.old b → o ≡ above k (with_lines b (deal_lines room.old deal count))) }
        ensures book { (p : ℕ) (b : Pairs) → Stands p (D.medium d.old) room.old self.old b → Stays p b (is_ok result) (D.medium d.new) room.new self.new }
        ensures looked { OnOk result (Looked pair_asks (D.medium d.old) room.old self.old (D.medium d.new) room.new self.new) }
        ensures tied { D.tie d.new ≡ D.tie d.old }
    {
        let view = View {
            deal,
            count,
            queue: self.queue,
        };
        next_pair_in(d, room, &mut self.store, view, k)
    }

    /// A drop's line: with the first key above k in the tree in the frames.
    pub fn drop_line<D: Device>(
        &mut self,
        d: &mut D,
        room: &mut [u64],
        k: u64,
    ) -> Result<Line, Gone>
        requires stands { (p : ℕ) × (b : Pairs) × Stands p (D.medium d.old) room.old self.old b }
        requires asks { key_asks ≤ (D.medium d.old).left }
        ensures told { IfOk result (λ l. l ≡ Cleared k (next_key k (now_pairs (D.medium d.old) room.old self.old))) }
        ensures book { (p : ℕ) (b : Pairs) → Stands p (D.medium d.old) room.old self.old b → Stays p b (is_ok result) (D.medium d.new) room.new self.new }
        ensures looked { OnOk result (Looked key_asks (D.medium d.old) room.old self.old (D.medium d.new) room.new self.new) }
        ensures tied { D.tie d.new ≡ D.tie d.old }
    {
        drop_line_in(d, room, &mut self.store, k)
    }
}
