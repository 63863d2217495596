// The clerks' deals, as lines in the room.
ghost use Rattle.std.specs.Prelude.{◌≡◌, ◌+◌, ◌*◌, ◌<◌, [], ◌∷◌, ◌++◌, length};
ghost use Rattle.lines.specs.Rings.{lines_of};
ghost use Rattle.lines.specs.Tables.{deal_ring};
ghost use Rattle.deals.specs.Deals.{State, Now, Book, set_clerk};
ghost use Rattle.deals.specs.Rows.{line_for, with_above, gone_by};
ghost use Rattle.deals.specs.Tables.{Desk, OnlyDeals, OnlyLines, count_at, lines_in};
ghost use Rattle.deals.specs.Loans.{SameRoom};

use super::layout::COUNTS_AT;
use super::tables::TablesMut;
use super::{Answer, Op};
use clerk::Clerk;
use lines::line::Line;
use lines::marks::go_back;
use lines::tables::{DEAL_WORDS, deal_ring};

/// What was asked in a deal, and told. `Op` and `Answer` are the statements' own, which cannot be compared or printed, so neither can this.
#[derive(Clone, Copy)]
pub struct Telling {
    pub op: Op,
    pub answer: Answer,
    // Of a drop, the tree's first key above its own.
    pub above: Option<u64>,
}

// The line that it leaves.
impl From<Telling> for Line {
    ghost from_gives = { λ said line. line ≡ with_above said.above (line_for said.op said.answer) };

    fn from(said: Telling) -> Line {
        match (said.op, said.answer) {
            (Op::Get(k), _) => Line::Read(k),
            (Op::Put(k, x), _) => Line::Wrote(k, x),
            (Op::Drop(k), _) => Line::Cleared(k, said.above),
            (Op::Next(k), Answer::Missing) => Line::Scanned(k, None),
            (Op::Next(k), Answer::Pair(found, _)) => Line::Scanned(k, Some(found)),
            (Op::Mark, _) => Line::Marked,
            _ => Line::Idle,
        }
    }
}

// One more is told in a deal whose n lines stand in these words. It's their part of the room and not all of it, as in `lines::own`: what is promised of the other words is that they stay, and not only which lines they are.
fn note(words: &mut [u64], n: usize, said: Telling)
    requires { (length words.old ≡ 3072) × (n < 1024) }
    ensures { lines_of words.new (deal_ring (n + 1)) ≡ gone_by said.op (lines_of words.old (deal_ring n)) ++ with_above said.above (line_for said.op said.answer) ∷ [] }
{
    let ring = deal_ring(n);
    if let Op::Back(j) = said.op {
        go_back(words, ring, j as usize + 1);
    }
    ring.push(words, said.into());
}

impl<'a> TablesMut<'a> {
    /// The clerk, whose deal has fewer than 1,024 lines, is told this.
    pub fn tell(&mut self, c: Clerk, said: Telling)
        requires { count_at self.old.room.now c < 1024 }
        ensures lent { SameRoom self.old self.new }
        ensures deals { (s : State) (n : Now) → Desk self.old.room.now s → Desk self.new.room.now (set_clerk c ((s.clerk c).deal ++ record { op = said.op; told = said.answer } ∷ []) n s) }
        ensures lines { OnlyLines c (gone_by said.op (lines_in self.old.room.now c) ++ with_above said.above (line_for said.op said.answer) ∷ []) self.old.room.now self.new.room.now }
        ensures others { OnlyDeals self.old.room.now self.new.room.now }
    {
        let room = &mut *self.room;
        let deal = c.index();
        let n = room[COUNTS_AT + deal];
        let at = DEAL_WORDS * deal;
        note(&mut room[at..at + DEAL_WORDS], n as usize, said);
        room[COUNTS_AT + deal] = n + 1;
    }

    // The clerk's deal is over.
    pub(crate) fn forget(&mut self, c: Clerk)
        ensures lent { SameRoom self.old self.new }
        ensures deals { (s : State) (b : Book) (n : Now) → Desk self.old.room.now s → Desk self.new.room.now (set_clerk c [] n (record { book = b; clerk = s.clerk })) }
        ensures lines { OnlyLines c [] self.old.room.now self.new.room.now }
        ensures others { OnlyDeals self.old.room.now self.new.room.now }
    {
        self.room[COUNTS_AT + c.index()] = 0;
    }
}
