// What a deal finds: in its own lines, in the queue, in the tree.
// `stands`, `up` and `succs` are clauses of their own and no one word: `look` asks for the first two alone, and where a
// caller lacks one, the open goal names it.
ghost use Rattle.std.specs.Prelude.{◌≡◌, ◌+◌, ◌≤◌, length, is_ok, IfOk, OnOk};
ghost use Rattle.lines.specs.declared.line.Line.TheVariants.{Cleared};
ghost use Rattle.lines.specs.Tables.{tables, behind};
ghost use Rattle.node.specs.Pairs.{find, above};
ghost use Rattle.view.specs.Index.{Whole, Passes, Asked};
ghost use Rattle.view.specs.Room.{Stands, own_of, queue_of, pairs_seen};
ghost use Rattle.view.specs.Sight.{viewed};
ghost use Rattle.view.specs.Upkeep.{key_of, next_key, SuccOk};
ghost use Rattle.view.specs.Writes.{Rising};

use crate::index::Index;
use crate::seen::View;
use crate::sight::Sight;
use lines::line::Line;
use pages::Gone;

/// The word at k as the deal sees it. One pass over its lines and the queue, and at most one `get`.
pub fn look<D: Index>(
    index: &mut D,
    room: &mut [u64],
    view: View,
    k: u64,
) -> Result<Option<u64>, Gone>
    requires stands { Stands room.old view }
    requires up { Rising (D.pairs index.old (behind room.old)) }
    requires asks { (D.budget index.old).get ≤ (D.budget index.old).left }
    requires whole { Whole D.onto index.old room.old }
    ensures found { IfOk result (λ o. o ≡ viewed (D.pairs index.old (behind room.old)) (queue_of room.old view) (own_of room.old view) k) }
    ensures told { IfOk result (λ o. o ≡ find k (pairs_seen (D.pairs index.old (behind room.old)) room.old view)) }
    ensures asked { OnOk result (Asked D.pairs D.budget (D.budget index.old).get index.old room.old index.new room.new) }
    ensures tables { tables room.new ≡ tables room.old }
    ensures passed { Passes D.onto D.tie (is_ok result) index.old room.old index.new room.new }
{
    match Sight::new(room, view).says(k) {
        Some(seen) => Ok(seen.word()),
        None => index.get(room, k),
    }
}

// The key of a pair.
fn key_of(pair: Option<(u64, u64)>) -> Option<u64>
    ensures { result ≡ key_of pair }
{
    pair.map(|(p, _)| p)
}

/// The first key above k that the deal sees. Exactly one `next`, and no word of the disk for the keys that the room has dropped.
pub fn next_key<D: Index>(
    index: &mut D,
    room: &mut [u64],
    view: View,
    k: u64,
) -> Result<Option<u64>, Gone>
    requires stands { Stands room.old view }
    requires up { Rising (D.pairs index.old (behind room.old)) }
    requires succs { (SuccOk (D.pairs index.old (behind room.old)) (queue_of room.old view)) × (SuccOk (D.pairs index.old (behind room.old)) (own_of room.old view)) }
    requires asks { (D.budget index.old).next ≤ (D.budget index.old).left }
    requires whole { Whole D.onto index.old room.old }
    ensures told { IfOk result (λ o. o ≡ next_key k (pairs_seen (D.pairs index.old (behind room.old)) room.old view)) }
    ensures asked { OnOk result (Asked D.pairs D.budget (D.budget index.old).next index.old room.old index.new room.new) }
    ensures tables { tables room.new ≡ tables room.old }
    ensures passed { Passes D.onto D.tie (is_ok result) index.old room.old index.new room.new }
{
    let first = key_of(index.next(room, k)?);
    Ok(Sight::new(room, view).onward(k, first))
}

/// The first pair above k that the deal sees. One `next`, and at most one `get` for its word.
pub fn next_pair<D: Index>(
    index: &mut D,
    room: &mut [u64],
    view: View,
    k: u64,
) -> Result<Option<(u64, u64)>, Gone>
    requires stands { Stands room.old view }
    requires up { Rising (D.pairs index.old (behind room.old)) }
    requires succs { (SuccOk (D.pairs index.old (behind room.old)) (queue_of room.old view)) × (SuccOk (D.pairs index.old (behind room.old)) (own_of room.old view)) }
    requires asks { (D.budget index.old).next + (D.budget index.old).get ≤ (D.budget index.old).left }
    requires whole { Whole D.onto index.old room.old }
    ensures told { IfOk result (λ o. o ≡ above k (pairs_seen (D.pairs index.old (behind room.old)) room.old view)) }
    ensures asked { OnOk result (Asked D.pairs D.budget ((D.budget index.old).next + (D.budget index.old).get) index.old room.old index.new room.new) }
    ensures tables { tables room.new ≡ tables room.old }
    ensures passed { Passes D.onto D.tie (is_ok result) index.old room.old index.new room.new }
{
    let Some(p) = next_key(index, room, view, k)? else {
        return Ok(None);
    };
    let word = look(index, room, view, p)?;
    Ok(word.map(|x| (p, x)))
}

/// A drop's line, as the tree is now. Exactly one `next`.
pub fn drop_line<D: Index>(index: &mut D, room: &mut [u64], k: u64) -> Result<Line, Gone>
    requires room { length room.old ≡ 262144 }
    requires asks { (D.budget index.old).next ≤ (D.budget index.old).left }
    requires whole { Whole D.onto index.old room.old }
    ensures told { IfOk result (λ l. l ≡ Cleared k (next_key k (D.pairs index.old (behind room.old)))) }
    ensures asked { OnOk result (Asked D.pairs D.budget (D.budget index.old).next index.old room.old index.new room.new) }
    ensures tables { tables room.new ≡ tables room.old }
    ensures passed { Passes D.onto D.tie (is_ok result) index.old room.old index.new room.new }
{
    let above = key_of(index.next(room, k)?);
    Ok(Line::Cleared(k, above))
}
