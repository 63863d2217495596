// The tree's first key above each dropped one is kept while the tree changes.
ghost use Rattle.std.specs.Prelude.{◌≡◌, ℕ, ◌<◌, map, length, slice_index};
ghost use Rattle.lines.specs.declared.ring.Ring.{Ring as RingOf};
ghost use Rattle.lines.specs.Tables.{deal_lines, queue_lines, behind, DealIn, QueueIn, OnlyDeal, OnlyQueue};
ghost use Rattle.view.specs.Upkeep.{change_by, kept_succ, kept_by};
ghost use Rattle.view.specs.Room.{Counts};

use lines::line::Line;
use lines::own::change_lines;
use lines::queue::change_records;
use lines::ring::Ring;

/// The tree has gained a key; or lost one, with the first that is above it.
#[derive(Clone, Copy, PartialEq, Debug)]
pub enum Change {
    Gained(u64),
    Lost(u64, Option<u64>),
}

/// What the tree gains or loses by a line, if anything.
pub fn change_by(line: Line) -> Option<Change>
    ensures { result ≡ change_by line }
{
    match line {
        Line::Wrote(k, _) => Some(Change::Gained(k)),
        Line::Cleared(k, above) => Some(Change::Lost(k, above)),
        _ => None,
    }
}

fn kept_above(change: Option<Change>, k: u64, above: Option<u64>) -> Option<u64>
    ensures { result ≡ kept_succ change k above }
{
    match change {
        Some(Change::Gained(m)) if k < m && above.is_none_or(|s| m < s) => Some(m),
        Some(Change::Lost(t, n)) if above == Some(t) => n,
        _ => above,
    }
}

fn kept_line(change: Option<Change>, line: Line) -> Line
    ensures { result ≡ kept_by change line }
{
    match line {
        Line::Cleared(k, above) => Line::Cleared(k, kept_above(change, k, above)),
        _ => line,
    }
}

/// The queue's records. As for a deal, but for what else of the room stays, so one function would have to say both.
pub fn keep_queue(room: &mut [u64], queue: Ring, change: Option<Change>)
    requires { QueueIn room.old queue }
    ensures lines { queue_lines room.new queue ≡ map (kept_by change) (queue_lines room.old queue) }
    ensures only { OnlyQueue room.old room.new }
{
    change_records(room, queue, |line| kept_line(change, line));
}

// The lines of one deal.
fn keep_deal(room: &mut [u64], deal: usize, count: usize, change: Option<Change>)
    requires { DealIn room.old deal count }
    ensures lines { deal_lines room.new deal count ≡ map (kept_by change) (deal_lines room.old deal count) }
    ensures only { OnlyDeal room.old room.new deal }
{
    change_lines(room, deal, count, |line| kept_line(change, line));
}

/// The lines of all deals; `counts` says how many each has.
pub fn keep_deals(room: &mut [u64], counts: &[usize], change: Option<Change>)
    requires { (Counts counts.now) × (length room.old ≡ 262144) }
    ensures lines { (c : ℕ) → c < 32 → deal_lines room.new c (slice_index counts.now c) ≡ map (kept_by change) (deal_lines room.old c (slice_index counts.now c)) }
    ensures queue { (r : RingOf) → queue_lines room.new r ≡ queue_lines room.old r }
    ensures behind { behind room.new ≡ behind room.old }
{
    for (deal, count) in counts.iter().enumerate() {
        keep_deal(room, deal, *count, change);
    }
}
