// Why something is turned away, and the numbers by which clerks are told it.
ghost use Rattle.std.specs.Prelude.{◌≡◌, nat_lt};
ghost use Rattle.lines.specs.Marks.{marks_in};
ghost use Rattle.deals.specs.declared.Answer.TheVariants.{No};
ghost use Rattle.deals.specs.Deals.{State};
ghost use Rattle.deals.specs.Promise.{can};
ghost use Rattle.deals.specs.Tables.{Desk, lines_in, op_at};
ghost use Rattle.deals.specs.Refusals.{number_of, Refuses};

use super::tables::Tables;
use super::{Answer, Op};
use clerk::Clerk;
use lines::marks::marks_in;

#[derive(Clone, Copy, Debug, PartialEq, Eq)]
pub enum Refusal {
    // The deal has no such mark to go back to.
    NoMark = 4,
    // As much was told in the deal as one may have.
    TooLong = 5,
    NotBuilt = 9,
}

impl From<Refusal> for Answer {
    ghost from_gives = { λ why a. a ≡ No (number_of why) };

    fn from(why: Refusal) -> Answer {
        Answer::No(why as u32)
    }
}

impl<'a> Tables<'a> {
    // Has the clerk's deal a mark of this number.
    fn has_mark(&self, c: Clerk, j: u32) -> bool
        ensures { result ≡ nat_lt j (marks_in (lines_in self.now.room.now c)) }
    {
        (j as usize) < marks_in(self.lines(c))
    }

    /// Why what the clerk asks is turned away, if it is: it isn't built, the deal is too long, there is no such mark; in this order.
    pub fn refused(&self, c: Clerk) -> Option<Refusal>
        ensures { (s : State) → Desk self.now.room.now s → Refuses can (op_at self.now.room.now c) (s.clerk c).deal result }
    {
        let o = self.read_op(c);
        if !o.is_built() {
            return Some(Refusal::NotBuilt);
        }
        if !o.comes_to(self.count(c)) {
            return Some(Refusal::TooLong);
        }
        match o {
            Op::Back(j) => (!self.has_mark(c, j)).then_some(Refusal::NoMark),
            _ => None,
        }
    }
}
