// The book comes up after the power came back: the store, then the queue in the room, and then what its drops tell of the tree.
ghost use Rattle.std.specs.Prelude.{◌≡◌, ℕ, ◌+◌, ◌-◌, ◌<◌, ◌≤◌, ◌++◌, map, length, not, T, is_ok, IfOk, OnOk, MatchResult, slice_index_or, slice_set};
ghost use Rattle.lines.specs.declared.line.Line.TheVariants.{Idle};
ghost use Rattle.lines.specs.Tables.{queue_lines, QueueIn, OnlyQueue};
ghost use Rattle.store.specs.Store.{scratch_of};
ghost use Rattle.pager.specs.Volume.{pairs_in};
ghost use Rattle.ledger.specs.Ledger.{Pairs, part_of, line_of, Rests, Stands, Cut, Aside};
ghost use Rattle.ledger.specs.Opens.{Raised, Queued, RaisedOr, records_at, told, open_asks};

use crate::open_part::{loaded_record, next_above, queue_pages};
use crate::{Ledger, PART_AT, PART_END};
use lines::line::Line;
use lines::queue::{add_record, records_of, set_record};
use lines::ring::Ring;
use lines::tables::QUEUE_LINES;
use std::ops::Range;
use store::head::Record;
use store::{Device, Gone, Store, in_slice};

// A record as a line that knows nothing of the tree.
fn line_of(item: Record) -> Line
    ensures { result ≡ line_of item }
{
    match item {
        Record::Put { key, word } => Line::Wrote(key, word),
        Record::Drop { key } => Line::Cleared(key, None),
    }
}

// The records at those places of the page that was read last join the room's queue.
fn add_page(room: &mut [u64], mut queue: Ring, places: Range<usize>) -> Ring
    requires queue { QueueIn room.old queue }
    requires within { (places.start ≤ places.end) × (places.end ≤ 128) }
    requires few { queue.count + (places.end - places.start) ≤ 32768 }
    ensures lines { queue_lines room.new result ≡ queue_lines room.old queue ++ map line_of (records_at (scratch_of (part_of room.old)) places) }
    ensures queue { QueueIn room.new result }
    ensures only { OnlyQueue room.old room.new }
{
    for j in places.start..places.end {
        let item = loaded_record(&room[PART_AT..PART_END], j);
        queue = add_record(room, queue, line_of(item));
    }
    queue
}

// The durable queue as the room's queue, page by page.
fn load_queue<D: Device>(store: &Store, d: &mut D, room: &mut [u64]) -> Result<Ring, Gone>
    requires size { length room.old ≡ 262144 }
    requires raised { (p : ℕ) × (b : Pairs) × Raised p (D.medium d.old) (part_of room.old) store.now b }
    requires asks { 264 ≤ (D.medium d.old).left }
    ensures loads { (p : ℕ) (b : Pairs) → Raised p (D.medium d.old) (part_of room.old) store.now b → MatchResult result (λ r. Queued p (D.medium d.new) room.new store.now b r) (λ _. Cut p b (D.medium d.new)) }
    ensures asked { OnOk result ((D.medium d.old).left ≤ (D.medium d.new).left + 264) }
    ensures aside { Aside room.old room.new }
    ensures tied { D.tie d.new ≡ D.tie d.old }
{
    let mut queue = Ring {
        cap: QUEUE_LINES,
        start: 0,
        count: 0,
    };
    for i in 0..queue_pages(&room[PART_AT..PART_END]) {
        let places = in_slice::load_queue_page(store, d, &mut room[PART_AT..PART_END], i)?;
        queue = add_page(room, queue, places);
    }
    Ok(queue)
}

// Where the record i of the queue is a drop, it's told the tree's first key above it.
fn tell_record<D: Device>(
    store: &mut Store,
    d: &mut D,
    room: &mut [u64],
    queue: Ring,
    i: usize,
) -> Result<(), Gone>
    requires queue { (QueueIn room.old queue) × (i < queue.count) }
    requires raised { (p : ℕ) × (b : Pairs) × Raised p (D.medium d.old) (part_of room.old) store.old b }
    requires asks { 11 ≤ (D.medium d.old).left }
    ensures raises { (p : ℕ) (b : Pairs) → Raised p (D.medium d.old) (part_of room.old) store.old b → RaisedOr p b (is_ok result) (D.medium d.new) (part_of room.new) store.new }
    ensures lines { OnOk result (queue_lines room.new queue ≡ slice_set (queue_lines room.old queue) i (told (pairs_in (D.medium d.old) (part_of room.old) store.old) (slice_index_or (queue_lines room.old queue) i Idle))) }
    ensures pairs { OnOk result (pairs_in (D.medium d.new) (part_of room.new) store.new ≡ pairs_in (D.medium d.old) (part_of room.old) store.old) }
    ensures shown { OnOk result ((D.medium d.new).shown ≡ (D.medium d.old).shown) }
    ensures queue { QueueIn room.new queue }
    ensures asked { OnOk result ((D.medium d.old).left ≤ (D.medium d.new).left + 11) }
    ensures aside { Aside room.old room.new }
    ensures tied { D.tie d.new ≡ D.tie d.old }
{
    let line = records_of(room, queue).at(i);
    if let Line::Cleared(key, _) = line {
        let above = next_above(store, d, &mut room[PART_AT..PART_END], key)?;
        set_record(room, queue, i, Line::Cleared(key, above));
    }
    Ok(())
}

// Each drop of the queue is told the tree's first key above it.
fn tell_queue<D: Device>(
    store: &mut Store,
    d: &mut D,
    room: &mut [u64],
    queue: Ring,
) -> Result<(), Gone>
    requires queue { QueueIn room.old queue }
    requires raised { (p : ℕ) × (b : Pairs) × Raised p (D.medium d.old) (part_of room.old) store.old b }
    requires asks { 360448 ≤ (D.medium d.old).left }
    ensures raises { (p : ℕ) (b : Pairs) → Raised p (D.medium d.old) (part_of room.old) store.old b → RaisedOr p b (is_ok result) (D.medium d.new) (part_of room.new) store.new }
    ensures lines { OnOk result (queue_lines room.new queue ≡ map (told (pairs_in (D.medium d.new) (part_of room.new) store.new)) (queue_lines room.old queue)) }
    ensures shown { OnOk result ((D.medium d.new).shown ≡ (D.medium d.old).shown) }
    ensures queue { QueueIn room.new queue }
    ensures asked { OnOk result ((D.medium d.old).left ≤ (D.medium d.new).left + 360448) }
    ensures aside { Aside room.old room.new }
    ensures tied { D.tie d.new ≡ D.tie d.old }
{
    for i in 0..queue.count {
        tell_record(store, d, room, queue, i)?;
    }
    Ok(())
}

impl Ledger {
    /// After the power came back: the book stands, with its queue in the room, and nothing is worked in.
    pub fn open<D: Device>(d: &mut D, room: &mut [u64]) -> Result<Ledger, Gone>
        requires size { length room.old ≡ 262144 }
        requires rests { (p : ℕ) × (b : Pairs) × Rests p (D.medium d.old) b }
        requires asks { open_asks ≤ (D.medium d.old).left }
        ensures opens { (p : ℕ) (b : Pairs) → Rests p (D.medium d.old) b → MatchResult result (λ l. Stands p (D.medium d.new) room.new l b) (λ _. Cut p b (D.medium d.new)) }
        ensures idle { IfOk result (λ l. (l.store.worked ≡ 0) × T (not l.store.imaged)) }
        ensures asked { OnOk result ((D.medium d.old).left ≤ (D.medium d.new).left + open_asks) }
        ensures aside { Aside room.old room.new }
        ensures tied { D.tie d.new ≡ D.tie d.old }
    {
        let mut store = in_slice::open(d, &mut room[PART_AT..PART_END])?;
        let queue = load_queue(&store, d, room)?;
        tell_queue(&mut store, d, room, queue)?;
        Ok(Ledger { store, queue })
    }
}
