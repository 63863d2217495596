// The lines of one deal, in the room. A deal is named by its clerk's place in the tables.
// The place and the count come as two plain numbers, since that is how the clauses on a deal's view name them.
ghost use Rattle.std.specs.Prelude.{◌≡◌, ◌+◌, ◌<◌, min, [], ◌∷◌, ◌++◌};
ghost use Rattle.lines.specs.Changes.{ChangesTo};
ghost use Rattle.lines.specs.Marks.{marks_in, backed};
ghost use Rattle.lines.specs.Tables.{deal_lines, DealIn, OnlyDeal};

use crate::line::Line;
use crate::marks::go_back;
use crate::ring::Lines;
use crate::tables::{DEAL_WORDS, deal_ring};

/// The lines of a deal that has so many.
pub fn lines_of<'a>(room: &'a [u64], deal: usize, count: usize) -> Lines<'a>
    requires { DealIn room.now deal count }
    ensures { result ≡ deal_lines room.now deal count }
{
    let at = DEAL_WORDS * deal;
    deal_ring(count).lines(&room[at..at + DEAL_WORDS])
}

/// One more line; the deal has `count + 1` then.
pub fn add_line(room: &mut [u64], deal: usize, count: usize, line: Line)
    requires { (DealIn room.old deal count) × (count < 1024) }
    ensures lines { deal_lines room.new deal (count + 1) ≡ deal_lines room.old deal count ++ line ∷ [] }
    ensures only { OnlyDeal room.old room.new deal }
{
    let at = DEAL_WORDS * deal;
    deal_ring(count).push(&mut room[at..at + DEAL_WORDS], line);
}

/// Each line of the deal becomes what `change` makes of it, from the first on.
pub fn change_lines<F: FnMut(Line) -> Line>(room: &mut [u64], deal: usize, count: usize, change: F)
    requires room { DealIn room.old deal count }
    requires callable { F.IsAlwaysCallable change }
    ensures lines { ChangesTo F.step change (deal_lines room.old deal count) (deal_lines room.new deal count) }
    ensures only { OnlyDeal room.old room.new deal }
{
    let at = DEAL_WORDS * deal;
    deal_ring(count).change_all(&mut room[at..at + DEAL_WORDS], change);
}

/// The deal goes back: its first `stay` marks stay, and what stands before the last of them.
pub fn back_to(room: &mut [u64], deal: usize, count: usize, stay: usize)
    requires { DealIn room.old deal count }
    ensures lines { deal_lines room.new deal count ≡ backed stay (deal_lines room.old deal count) }
    ensures marks { marks_in (deal_lines room.new deal count) ≡ min stay (marks_in (deal_lines room.old deal count)) }
    ensures only { OnlyDeal room.old room.new deal }
{
    let at = DEAL_WORDS * deal;
    go_back(&mut room[at..at + DEAL_WORDS], deal_ring(count), stay);
}
