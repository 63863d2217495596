// The lines in the room as one deal sees them: its own, then the queue's.
ghost use Rattle.std.specs.Prelude.{◌≡◌};
ghost use Rattle.view.specs.Room.{Stands, said_in, says_of};
ghost use Rattle.view.specs.Sight.{is_there};
ghost use Rattle.view.specs.Nexts.{Walked, Rises, Onward, under, least_line, least_in};

use crate::seen::{Seen, View, last_of};
use lines::line::Line;
use lines::own::lines_of;
use lines::queue::records_of;
use lines::ring::Lines;
use std::marker::Model;

/// Clauses see the queue's lines and the deal's own.
#[derive(Drop)]
pub struct Sight<'a> {
    room: &'a [u64],
    view: View,
}

impl<'a> Model for Sight<'a> {
    ghost use Rattle.view.specs.Room.{Said, Stands, said_in};

    ghost Value = { Said };

    ghost view = { λ s. said_in s.room.now s.view };

    ghost invariant = { λ s. Stands s.room.now s.view };
}

fn is_under(key: u64, best: Option<u64>) -> bool
    ensures { result ≡ under key best }
{
    best.is_none_or(|p| key < p)
}

impl<'a> Sight<'a> {
    /// Copies nothing: each question reads the lines in the room.
    pub fn new(room: &'a [u64], view: View) -> Sight<'a>
        requires { Stands room.now view }
        ensures { result ≡ said_in room.now view }
    {
        Sight { room, view }
    }

    fn own(&self) -> Lines<'a>
        ensures { result ≡ self.now.own }
    {
        lines_of(self.room, self.view.deal, self.view.count)
    }

    fn queue(&self) -> Lines<'a>
        ensures { result ≡ self.now.queue }
    {
        records_of(self.room, self.view.queue)
    }

    /// The deal's own lines have the say; where they are silent, the queue.
    #[tactic(auto, using(crate::proofs::Looks::says_silent, crate::proofs::Looks::says_spoken))]
    pub fn says(&self, key: u64) -> Option<Seen>
        ensures { result ≡ says_of self.now key }
    {
        // `or_else` would ask a closure over the room, of which no caller learns what it gives.
        match last_of(self.own(), key) {
            None => last_of(self.queue(), key),
            said => said,
        }
    }

    fn is_there(&self, key: u64) -> bool
        ensures { result ≡ is_there (says_of self.now key) }
    {
        matches!(self.says(key), Some(Seen::There(_)))
    }

    // From a key of the tree to the first that isn't dropped in the room: one pass over the lines for each key on the way.
    fn walk(&self, first: Option<u64>) -> Option<u64>
        requires { Rises (says_of self.now) }
        ensures { Walked (says_of self.now) first result }
    {
        let mut t = first;
        while let Some(p) = t {
            match self.says(p) {
                Some(Seen::Away(above)) => t = above,
                _ => return Some(p),
            }
        }
        None
    }

    fn least_of(&self, line: Line, k: u64, best: Option<u64>) -> Option<u64>
        ensures { result ≡ least_line (says_of self.now) k line best }
    {
        let Line::Wrote(key, _) = line else {
            return best;
        };
        if k < key && is_under(key, best) && self.is_there(key) {
            Some(key)
        } else {
            best
        }
    }

    // The least key above k, and below `best`, that one of the lines puts and that is there for the deal.
    fn least_put(&self, lines: Lines, k: u64, best: Option<u64>) -> Option<u64>
        ensures { result ≡ least_in (says_of self.now) k lines.entry best }
    {
        lines.fold(best, |least, line| self.least_of(line, k, least))
    }

    /// The first key above k that the deal sees; `first` is the tree's.
    pub fn onward(&self, k: u64, first: Option<u64>) -> Option<u64>
        requires { Rises (says_of self.now) }
        ensures { Onward self.now.queue self.now.own k first result }
    {
        let standing = self.walk(first);
        let queued = self.least_put(self.queue(), k, standing);
        self.least_put(self.own(), k, queued)
    }
}
