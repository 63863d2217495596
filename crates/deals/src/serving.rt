// The clerks' tables as a whole: one asks, and one is served.
ghost use Rattle.std.specs.Prelude.{◌≡◌, ℕ, ◌<◌, true, [], ◌∷◌, ◌++◌, length};
ghost use Rattle.deals.specs.Deals.{State, Book, Quiet, Under, set_clerk};
ghost use Rattle.deals.specs.Promise.{can};
ghost use Rattle.deals.specs.Rows.{line_for, with_above, gone_by};
ghost use Rattle.deals.specs.Tables.{SameLines, OnlyLines, count_at, lines_in, waiting_in, rest_of};
ghost use Rattle.deals.specs.LineUps.{TablesHold, Serves};
ghost use Rattle.deals.specs.Loans.{OnlyTables};
ghost use Rattle.deals.specs.Ages.{IdleTurn, TurnGoes, OneTold, StaysYoung};

use super::desk::Telling;
use super::layout::{COUNTS_AT, ORDER_AT, WAITING_AT};
use super::tables::TablesMut;
use super::{Answer, Op};
use clerk::Clerk;
use locks::graph::Pick;

/// What shows that a deal's writes have lasted. A deal that is made must spend one.
pub trait Receipt {
    fn spend(self);
}

// That the one picked stands in the order is asked by each function that serves it, as the bound of an index is: the order is another after each call.
impl<'a> TablesMut<'a> {
    /// The tables of a room in which no clerk has a deal, or asks anything.
    pub fn clear(room: &'a mut [u64]) -> TablesMut<'a>
        requires { length room.old ≡ 262144 }
        ensures lent { result.room.ghost_name ≡ room.entry.ghost_name }
        ensures holds { (s : State) → ((c : ℕ) → (s.clerk c).deal ≡ []) → ((c : ℕ) → (s.clerk c).now' ≡ Quiet) → TablesHold can true result.room.now s }
        ensures rest { rest_of result.room.now ≡ rest_of room.old }
    {
        room[COUNTS_AT..ORDER_AT].fill(0);
        room[WAITING_AT] = 0;
        TablesMut { room }
    }

    /// A clerk asks, who has nothing under way.
    pub fn take_in(&mut self, who: Clerk, o: Op)
        requires { waiting_in self.old.room.now < 32 }
        ensures only { OnlyTables self.old self.new }
        ensures lines { SameLines self.old.room.now self.new.room.now }
        ensures holds { (s : State) → TablesHold can true self.old.room.now s → (s.clerk who).now' ≡ Quiet → TablesHold can true self.new.room.now (set_clerk who (s.clerk who).deal (Under o 0) s) }
    {
        self.write_op(who, o);
        self.join(who);
    }

    /// The one picked is told this, within its deal.
    pub fn answer(&mut self, pick: Pick, said: Telling)
        requires picked { pick.place < waiting_in self.old.room.now }
        requires short { count_at self.old.room.now pick.who < 1024 }
        ensures only { OnlyTables self.old self.new }
        ensures lines { OnlyLines pick.who (gone_by said.op (lines_in self.old.room.now pick.who) ++ with_above said.above (line_for said.op said.answer) ∷ []) self.old.room.now self.new.room.now }
        ensures holds { (s : State) → Serves can self.old.room.now self.new.room.now s pick s.book ((s.clerk pick.who).deal ++ record { op = said.op; told = said.answer } ∷ []) said.op said.answer }
    {
        self.tell(pick.who, said);
        self.leave(pick.place);
    }

    /// The one picked is turned away: its deal goes on as it was.
    pub fn turn_away(&mut self, pick: Pick)
        requires { pick.place < waiting_in self.old.room.now }
        ensures only { OnlyTables self.old self.new }
        ensures lines { SameLines self.old.room.now self.new.room.now }
        ensures holds { (s : State) (o : Op) (a : Answer) → Serves can self.old.room.now self.new.room.now s pick s.book (s.clerk pick.who).deal o a }
    {
        self.leave(pick.place);
    }

    // The deal of the one picked is over, whatever the book is then: nothing of it is left.
    fn end(&mut self, pick: Pick)
        requires { pick.place < waiting_in self.old.room.now }
        ensures only { OnlyTables self.old self.new }
        ensures lines { OnlyLines pick.who [] self.old.room.now self.new.room.now }
        ensures holds { (s : State) (b : Book) (o : Op) (a : Answer) → Serves can self.old.room.now self.new.room.now s pick b [] o a }
    {
        self.forget(pick.who);
        self.leave(pick.place);
    }

    /// The deal of the one picked is taken apart, by an undo or a clash.
    pub fn take_apart(&mut self, pick: Pick)
        requires { pick.place < waiting_in self.old.room.now }
        ensures only { OnlyTables self.old self.new }
        ensures lines { OnlyLines pick.who [] self.old.room.now self.new.room.now }
        ensures holds { (s : State) (o : Op) (a : Answer) → Serves can self.old.room.now self.new.room.now s pick s.book [] o a }
    {
        self.end(pick);
    }

    /// The deal of the one picked is made: its writes have lasted, and its lines are forgotten. The book may be any then.
    pub fn finish<R: Receipt>(&mut self, pick: Pick, receipt: R)
        requires { pick.place < waiting_in self.old.room.now }
        ensures only { OnlyTables self.old self.new }
        ensures lines { OnlyLines pick.who [] self.old.room.now self.new.room.now }
        ensures holds { (s : State) (b : Book) (o : Op) (a : Answer) → Serves can self.old.room.now self.new.room.now s pick b [] o a }
    {
        receipt.spend();
        self.end(pick);
    }
}

/// The tables hold through a turn and a telling, and nobody's asking gets older than 32 turns that count.
pub fn ages_stay_low() -> u8
    ensures idle { IdleTurn }
    ensures turn { TurnGoes }
    ensures told { OneTold }
    ensures young { StaysYoung }
{
    0
}
