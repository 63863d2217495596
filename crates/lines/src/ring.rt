// A ring of lines in a table: the queue, or the lines of one deal.
ghost use Rattle.std.specs.Prelude.{◌≡◌, ◌+◌, ◌<◌, ◌≤◌, [], ◌∷◌, ◌++◌, length, slice_index_or, slice_set};
ghost use Rattle.std.specs.Iterator.{YieldsFirst, YieldsLast, item_count};
ghost use Rattle.lines.specs.declared.line.Line.TheVariants.{Idle};
ghost use Rattle.lines.specs.Changes.{ChangesTo};

use crate::line::{Line, read_line, write_line};
use std::marker::Model;

/// `cap`: how many lines the table can hold; `start`: where the first of them stands; `count`: how many there are.
/// They go on at the table's start where they come to its end.
#[derive(Clone, Copy, PartialEq, Eq, Debug)]
pub struct Ring {
    pub cap: usize,
    pub start: usize,
    pub count: usize,
}

/// The lines of a ring that are left to be read, from either end.
#[derive(Drop)]
pub struct Lines<'a> {
    words: &'a [u64],
    ring: Ring,
}

impl<'a> Model for Lines<'a> {
    ghost use Rattle.std.specs.Prelude.{List};
    ghost use Rattle.lines.specs.declared.line.Line.{Line as LineOf};
    ghost use Rattle.lines.specs.Rings.{Holds, lines_of};

    ghost Value = { List LineOf };

    ghost view = { λ a. lines_of a.words.now a.ring };

    ghost invariant = { λ a. Holds a.words.now a.ring };
}

impl Ring {
    ghost use Rattle.lines.specs.Rings.{Holds, place, lines_of};

    // Where the line i of the ring stands.
    #[tactic(auto, unfolding(crate::specs::Rings::place), using(crate::proofs::Circle::place_low, crate::proofs::Circle::place_high))]
    fn spot(self, i: usize) -> usize
        requires { (i < self.cap) × ((self.start < self.cap) × (self.cap ≤ 65536)) }
        ensures is { result ≡ place self i }
        ensures within { result < self.cap }
    {
        let p = self.start + i;
        if p < self.cap { p } else { p - self.cap }
    }

    /// Its lines, to be read one after the other.
    pub fn lines<'a>(self, words: &'a [u64]) -> Lines<'a>
        requires { Holds words.now self }
        ensures { result ≡ lines_of words.now self }
    {
        Lines { words, ring: self }
    }

    // A ring can be made of any numbers, so each call that is lent the words asks that they hold it.

    /// One more line at the end of a ring that has room for it.
    pub fn push(self, words: &mut [u64], line: Line) -> Ring
        requires { (Holds words.old self) × (self.count < self.cap) }
        ensures lines { lines_of words.new result ≡ lines_of words.old self ++ line ∷ [] }
        ensures holds { Holds words.new result }
        ensures grown { (result.cap ≡ self.cap) × ((result.start ≡ self.start) × (result.count ≡ self.count + 1)) }
    {
        write_line(words, self.spot(self.count), line);
        Ring {
            count: self.count + 1,
            ..self
        }
    }

    /// The first line of a ring that has one, and the ring of the others.
    pub fn pop_front(self, words: &[u64]) -> (Line, Ring)
        requires { (Holds words.now self) × (0 < self.count) }
        ensures lines { lines_of words.now self ≡ result.0 ∷ lines_of words.now result.1 }
        ensures holds { Holds words.now result.1 }
        ensures shrunk { (result.1.cap ≡ self.cap) × (result.1.count + 1 ≡ self.count) }
    {
        let line = read_line(words, self.start);
        let start = if self.start + 1 < self.cap {
            self.start + 1
        } else {
            0
        };
        let rest = Ring {
            start,
            count: self.count - 1,
            ..self
        };
        (line, rest)
    }

    /// The last line of a ring that has one, and the ring of the others.
    pub fn pop_back(self, words: &[u64]) -> (Line, Ring)
        requires { (Holds words.now self) × (0 < self.count) }
        ensures lines { lines_of words.now self ≡ lines_of words.now result.1 ++ result.0 ∷ [] }
        ensures holds { Holds words.now result.1 }
        ensures shrunk { (result.1.cap ≡ self.cap) × ((result.1.start ≡ self.start) × (result.1.count + 1 ≡ self.count)) }
    {
        let last = self.count - 1;
        let rest = Ring {
            count: last,
            ..self
        };
        (read_line(words, self.spot(last)), rest)
    }

    /// Writes the line i of the ring, and no other.
    pub fn set(self, words: &mut [u64], i: usize, line: Line)
        requires { (Holds words.old self) × (i < self.count) }
        ensures { lines_of words.new self ≡ slice_set (lines_of words.old self) i line }
    {
        write_line(words, self.spot(i), line);
    }

    /// Each line becomes what `change` makes of it, from the first on.
    pub fn change_all<F: FnMut(Line) -> Line>(self, words: &mut [u64], mut change: F)
        requires holds { Holds words.old self }
        requires callable { F.IsAlwaysCallable change }
        ensures { ChangesTo F.step change (lines_of words.old self) (lines_of words.new self) }
    {
        // By number, since each line is written back to where it was read.
        for i in 0..self.count {
            let line = change(read_line(words, self.spot(i)));
            self.set(words, i, line);
        }
    }
}

impl<'a> Lines<'a> {
    /// How many are left.
    pub fn len(&self) -> usize
        ensures is { result ≡ length self.now }
        ensures few { result ≤ 65536 }
    {
        self.ring.count
    }

    /// The line i of those that are left.
    pub fn at(&self, i: usize) -> Line
        requires { i < length self.now }
        ensures { result ≡ slice_index_or self.now i Idle }
    {
        read_line(self.words, self.ring.spot(i))
    }
}

impl<'a> Iterator for Lines<'a> {
    type Item = Line;

    ghost next_gives = { YieldsFirst (λ rest. rest) };

    ghost remaining = { item_count (λ rest. rest) };

    fn next(&mut self) -> Option<Line> {
        if self.ring.count == 0 {
            return None;
        }
        let (line, rest) = self.ring.pop_front(self.words);
        self.ring = rest;
        Some(line)
    }

    fn size_hint(&self) -> (usize, Option<usize>) {
        let len = self.len();
        (len, Some(len))
    }
}

impl<'a> DoubleEndedIterator for Lines<'a> {
    ghost next_back_gives = { YieldsLast (λ rest. rest) };

    fn next_back(&mut self) -> Option<Line> {
        if self.ring.count == 0 {
            return None;
        }
        let (line, rest) = self.ring.pop_back(self.words);
        self.ring = rest;
        Some(line)
    }
}
