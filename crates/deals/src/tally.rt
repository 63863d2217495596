// How many writes of a deal are in effect.
ghost use Rattle.std.specs.Prelude.{◌≡◌, List, length};
ghost use Rattle.view.specs.Adds.{is_write};
ghost use Rattle.std.specs.Prelude.{filter};
ghost use Rattle.deals.specs.Deals.{Said};
ghost use Rattle.deals.specs.Writes.{effect};
ghost use Rattle.deals.specs.Tables.{Keeps};
ghost use Rattle.deals.specs.Sits.{is_put_line, puts_in};

use super::tables::Tables;
use clerk::Clerk;
use lines::line::Line;
use lines::ring::Lines;

/// The writes that are in effect, and the puts among them.
#[derive(Clone, Copy, Debug, PartialEq, Eq)]
pub struct Tally {
    pub writes: usize,
    pub puts: usize,
}

fn writes_among(lines: Lines) -> usize
    ensures { result ≡ length (filter is_write lines.entry) }
{
    // Names the length for the check: no ring has more lines than a number can count.
    let _most = lines.len();
    lines
        .filter(|line| matches!(line, Line::Wrote(..) | Line::Cleared(..)))
        .count()
}

fn puts_among(lines: Lines) -> usize
    ensures { result ≡ length (filter is_put_line lines.entry) }
{
    let _most = lines.len();
    lines.filter(|line| matches!(line, Line::Wrote(..))).count()
}

impl<'a> Tables<'a> {
    /// Those of the clerk's deal.
    pub fn tally(&self, c: Clerk) -> Tally
        ensures writes { (ss : List Said) → Keeps self.now.room.now c ss → result.writes ≡ length (effect ss) }
        ensures puts { (ss : List Said) → Keeps self.now.room.now c ss → result.puts ≡ puts_in (effect ss) }
    {
        Tally {
            writes: writes_among(self.lines(c)),
            puts: puts_among(self.lines(c)),
        }
    }
}
