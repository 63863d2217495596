// A play: deals put, drop, look and are made; records go into the tree.
ghost use Rattle.std.specs.Prelude.{◌≡◌, ℕ, ◌<◌, List, [], length, IfOk};
ghost use Rattle.lines.specs.declared.ring.Ring.{Ring as RingOf};
ghost use Rattle.lines.specs.Tables.{queue_lines};
ghost use Rattle.view.specs.Room.{Counts};
ghost use Rattle.view.specs.Upkeep.{LineOk};
ghost use Rattle.view_tests.specs.Play.{Sane};

use crate::pairs::PairList;
use crate::show::{Entry, Stop, show};
use clerk::Clerk;
use lines::line::Line;
use lines::own::add_line;
use lines::ring::Ring;
use lines::tables::{DEAL_LINES, DEALS, QUEUE_LINES, ROOM_WORDS};
use pages::Gone;
use std::alloc::{AllocError, Global};
use std::marker::Model;
use view::apply::apply_front;
use view::commit::take_in;
use view::look::{drop_line, look, next_pair};
use view::seen::View;

/// Clauses see the pairs that are found by the queue and the tree, and the queue's ring. Each step takes the play and gives it back:
/// where the power goes, the play is over.
#[derive(Drop)]
pub struct Play {
    index: PairList,
    room: Vec<u64>,
    counts: [usize; DEALS],
    queue: Ring,
}

impl Model for Play {
    ghost use Rattle.lines.specs.Tables.{queue_lines};
    ghost use Rattle.view.specs.Writes.{with_lines};
    ghost use Rattle.view_tests.specs.Play.{Found, Sane};

    ghost Value = { Found };

    ghost view = { λ p. record { pairs = with_lines p.index.items.items (queue_lines p.room.items p.queue); ring = p.queue } };

    ghost invariant = { λ p. Sane p.index.items.items p.room.items p.counts p.queue };
}

// One line more, if there is room for it.
fn say(room: &mut [u64], counts: &mut [usize], deal: usize, line: Line)
    requires { (Counts counts.old) × ((length room.old ≡ 262144) × (deal < 32)) }
    ensures sane { (t : List (ℕ × ℕ)) (q : RingOf) → Sane t room.old counts.old q → LineOk t line → Sane t room.new counts.new q }
    ensures queue { (q : RingOf) → queue_lines room.new q ≡ queue_lines room.old q }
{
    let count = counts[deal];
    if count < DEAL_LINES {
        add_line(room, deal, count, line);
        counts[deal] = count + 1;
    }
}

impl Play {
    /// Nothing is there yet.
    pub fn new(alloc: Global) -> Result<Play, AllocError>
        ensures { IfOk result (λ p. p.pairs ≡ []) }
    {
        Ok(Play {
            index: PairList {
                items: Vec::new(alloc),
            },
            room: vec![in alloc; 0; ROOM_WORDS]?,
            counts: [0; DEALS],
            queue: Ring {
                cap: QUEUE_LINES,
                start: 0,
                count: 0,
            },
        })
    }

    /// A clerk's deal puts x at k. Others don't see it yet.
    pub fn put(mut self, clerk: Clerk, k: u64, x: u64) -> Play
        ensures { result ≡ self }
    {
        say(
            self.room.as_mut_slice(),
            &mut self.counts,
            clerk.index(),
            Line::Wrote(k, x),
        );
        self
    }

    /// It drops k. Others don't see it yet.
    pub fn drop_key(mut self, clerk: Clerk, k: u64) -> Result<Play, Gone>
        ensures { IfOk result (λ p. p ≡ self) }
    {
        let line = drop_line(&mut self.index, self.room.as_mut_slice(), k)?;
        say(
            self.room.as_mut_slice(),
            &mut self.counts,
            clerk.index(),
            line,
        );
        Ok(self)
    }

    /// The deal is made: all that it wrote goes to the queue, if there is room; it has no lines then.
    pub fn commit(mut self, clerk: Clerk) -> Play {
        let deal = clerk.index();
        let count = self.counts[deal];
        if self.queue.count + count <= QUEUE_LINES {
            // Clauses see a play as its pairs and its ring, so no method could say which view it gives: each that needs one makes it.
            let view = View {
                deal,
                count,
                queue: self.queue,
            };
            self.queue = take_in(self.room.as_mut_slice(), view);
            self.counts[deal] = 0;
        }
        self
    }

    // The front record goes into the tree, if there is one. Nobody sees another thing for it.
    fn work(mut self) -> Result<Play, Gone>
        ensures { IfOk result (λ p. p.pairs ≡ self.pairs) }
    {
        if self.queue.count > 0 {
            self.queue = apply_front(
                &mut self.index,
                self.room.as_mut_slice(),
                &self.counts,
                self.queue,
            )?;
        }
        Ok(self)
    }

    /// All records go into the tree.
    pub fn work_all(self) -> Result<Play, Gone>
        ensures { IfOk result (λ p. p.pairs ≡ self.pairs) }
    {
        let records = self.queue.count;
        (0..records).try_fold(self, |play, _| play.work())
    }

    /// Shows what the deal sees at k.
    pub fn show_at(
        mut self,
        rt: &HostRuntime,
        what: &str,
        clerk: Clerk,
        k: u64,
    ) -> Result<Play, Stop>
        ensures { IfOk result (λ p. p ≡ self) }
    {
        let deal = clerk.index();
        let view = View {
            deal,
            count: self.counts[deal],
            queue: self.queue,
        };
        let word = look(&mut self.index, self.room.as_mut_slice(), view, k)?;
        show(rt, what, word)?;
        Ok(self)
    }

    /// Shows what the deal sees above k. One function for both questions would have to repeat of a closure all that
    /// `look` and `next_pair` say.
    pub fn show_above(
        mut self,
        rt: &HostRuntime,
        what: &str,
        clerk: Clerk,
        k: u64,
    ) -> Result<Play, Stop>
        ensures { IfOk result (λ p. p ≡ self) }
    {
        let deal = clerk.index();
        let view = View {
            deal,
            count: self.counts[deal],
            queue: self.queue,
        };
        let pair = next_pair(&mut self.index, self.room.as_mut_slice(), view, k)?;
        show(rt, what, pair.map(Entry::from))?;
        Ok(self)
    }

    /// The deal puts the keys 1 to n, each with itself, and is made.
    pub fn put_row(self, clerk: Clerk, n: u64) -> Play {
        (1..=n)
            .fold(self, |play, k| play.put(clerk, k, k))
            .commit(clerk)
    }

    /// The deal drops the keys 1 to n.
    pub fn drop_row(self, clerk: Clerk, n: u64) -> Result<Play, Gone>
        ensures { IfOk result (λ p. p ≡ self) }
    {
        (1..=n).try_fold(self, |play, k| play.drop_key(clerk, k))
    }
}
