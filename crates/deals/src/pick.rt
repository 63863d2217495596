// Whom to serve: the first in the order of asking who counts.
ghost use Rattle.std.specs.Prelude.{◌≡◌, ℕ, ◌+◌, ◌<◌, true, false, not, ◌&&◌, ◌||◌, length, None, Option, MatchOption, ◌==◌, nat_lt, slice_index, slice_index_or};
ghost use Rattle.locks.specs.Bars.{some_bars};
ghost use Rattle.locks.specs.Sets.{is_in};
ghost use Rattle.deals.specs.Deals.{State, waits, ends};
ghost use Rattle.deals.specs.Promise.{can};
ghost use Rattle.deals.specs.Rows.{want_of};
ghost use Rattle.deals.specs.Tables.{Desk, Asks, is_under, lines_in, op_at, waiting_in, order_of};
ghost use Rattle.deals.specs.LineUps.{TablesHold, FindsFor, GraphTo, Picked, Quick};

use super::Op;
use super::tables::Tables;
use clerk::Clerk;
use lines::tables::DEAL_LINES;
use locks::graph::{Pick, WaitGraph};
use locks::set::ClerkSet;
use locks::way::{Want, in_way};

impl Op {
    /// Is it built. This is the one place that says so.
    #[tactic(auto, unfolding(crate::specs::Deals::core))]
    pub fn is_built(self) -> bool
        ensures { result ≡ can self }
    {
        !matches!(self, Op::Next(_) | Op::Mark | Op::Back(_))
    }

    /// Does it end the deal.
    #[tactic(auto, unfolding(crate::specs::Deals::ends))]
    pub fn is_end(self) -> bool
        ensures { result ≡ ends self }
    {
        matches!(self, Op::Commit | Op::Undo)
    }

    // What is turned away, in a deal of n lines, waits for nobody.
    pub(crate) fn comes_to(self, n: usize) -> bool
        ensures { result ≡ (can self && (ends self || nat_lt n 1024)) }
    {
        self.is_built() && (self.is_end() || n < DEAL_LINES)
    }

    // What it touches. `found`: the key that a Next would find.
    fn wants(self, found: Option<u64>) -> Want
        ensures { result ≡ want_of self found }
    {
        match self {
            Op::Get(k) => Want::Look(k),
            Op::Put(k, _) | Op::Drop(k) => Want::Write(k),
            Op::Next(k) => Want::Scan(k, found),
            _ => Want::Nothing,
        }
    }
}

impl<'a> Tables<'a> {
    // All but c whose deals are in the way of what c wants.
    fn in_ways(&self, c: Clerk, want: Want) -> ClerkSet
        ensures { (k : ℕ) → is_in result k ≡ (nat_lt k 32 && (not (c == k) && some_bars want (lines_in self.now.room.now k))) }
    {
        ClerkSet::those(|e| e != c && in_way(self.lines(e), want))
    }

    /// The key from which the clerk's Next would look, if it asks one that isn't turned away: only then must the key that it would find be known.
    pub fn scan_from(&self, c: Clerk) -> Option<u64>
        ensures { MatchOption result ((s : State) (f : Option ℕ) → Desk self.now.room.now s → FindsFor can self.now.room.now s c f) (λ k. op_at self.now.room.now c ≡ Op.Next k) }
    {
        let o = self.read_op(c);
        match o {
            Op::Next(k) => o.comes_to(self.count(c)).then_some(k),
            _ => None,
        }
    }

    /// For whom the clerk waits.
    pub fn waits_for(&self, c: Clerk, found: Option<u64>) -> ClerkSet
        ensures { (s : State) → Desk self.now.room.now s → Asks self.now.room.now s → is_under (s.clerk c).now' ≡ true → FindsFor can self.now.room.now s c found → (k : ℕ) → is_in result k ≡ (nat_lt k 32 && waits can s c k) }
    {
        let o = self.read_op(c);
        if o.comes_to(self.count(c)) {
            self.in_ways(c, o.wants(found))
        } else {
            ClerkSet::none()
        }
    }

    /// Into the graph, which has the first i of the order, goes for whom the next of them waits. `found`: the key that it would find, if `scan_from` asks for it.
    pub fn note_waits(&self, graph: &mut WaitGraph, i: usize, found: Option<u64>)
        requires { i < waiting_in self.now.room.now }
        ensures { (s : State) → TablesHold can true self.now.room.now s → FindsFor can self.now.room.now s (slice_index (order_of self.now.room.now) i) found → GraphTo can graph.old s (order_of self.now.room.now) i → GraphTo can graph.new s (order_of self.now.room.now) (i + 1) }
    {
        let who = self.who_at(i);
        graph.put(who, self.waits_for(who, found));
    }

    /// The first who counts, by the graph of all who have asked; by a clash, if it is on a ring.
    pub fn choose(&self, graph: &WaitGraph) -> Option<Pick>
        ensures { (s : State) → TablesHold can true self.now.room.now s → GraphTo can graph.now s (order_of self.now.room.now) (length (order_of self.now.room.now)) → Picked can s (order_of self.now.room.now) result }
    {
        graph.choose(self.order())
    }

    /// The quick way: the first of all, if it waits for nobody. No other is looked at.
    pub fn first_free(&self, found: Option<u64>) -> Option<Pick>
        ensures { (s : State) → TablesHold can true self.now.room.now s → FindsFor can self.now.room.now s (slice_index (order_of self.now.room.now) 0) found → Quick can s (order_of self.now.room.now) result }
    {
        if self.waiting() == 0 {
            return None;
        }
        let who = self.who_at(0);
        let pick = Pick {
            place: 0,
            who,
            clash: false,
        };
        self.waits_for(who, found).is_empty().then_some(pick)
    }

    /// Whom to serve, where the keys that would be found are known: `found` has one for each clerk.
    pub fn decide(&self, found: &[Option<u64>]) -> Option<Pick>
        requires { length found.now ≡ 32 }
        ensures { (s : State) → TablesHold can true self.now.room.now s → ((c : ℕ) → c < 32 → FindsFor can self.now.room.now s c (slice_index_or found.now c None)) → Picked can s (order_of self.now.room.now) result }
    {
        let mut graph = WaitGraph::none();
        for (place, number) in self.order().iter().enumerate() {
            self.note_waits(&mut graph, place, found[*number as usize]);
        }
        self.choose(&graph)
    }
}
