// Entries that go from one node to another: splits, joins and loans.
ghost use Rattle.std.specs.Prelude.{◌≡◌, ℕ, ◌+◌, ◌-◌, ◌<◌, ◌≤◌, ◌++◌, length, take, drop, is_some, nat_lt};
ghost use Rattle.std.specs.List.{insert};
ghost use Rattle.node.specs.Layout.{capacity, join_most};
ghost use Rattle.node.specs.Node.{Shares, Neighbours, Joins, amended};

use crate::shift::copy_row;
use crate::{COUNT, Entry, HALF, JOIN_MOST, KEYS, LEAST, LEVEL, Node, WORDS};
use pages::PAGE_WORDS;

impl Node {
    // Moves the entries from place h on to another node, which loses its own.
    fn split_off(&mut self, h: usize, later: &mut Node)
        requires { h ≤ length self.old.pairs }
        ensures first { self.new ≡ record self.old { pairs = take h self.old.pairs } }
        ensures later { later.new ≡ record self.old { pairs = drop h self.old.pairs } }
    {
        let n = self.len();
        later.words[LEVEL] = self.words[LEVEL];
        copy_row(
            &self.words[KEYS..WORDS][h..n],
            &mut later.words[KEYS..WORDS],
            0,
        );
        copy_row(
            &self.words[WORDS..PAGE_WORDS][h..n],
            &mut later.words[WORDS..PAGE_WORDS],
            0,
        );
        later.words[COUNT] = (n - h) as u64;
        self.words[COUNT] = h as u64;
    }

    /// Puts the entry at place i of a full node, whose later half goes to another one. That one is lent: a node that is handed out is a page more on the stack.
    pub fn split_in(&mut self, later: &mut Node, i: usize, entry: Entry)
        requires full { length self.old.pairs ≡ capacity }
        requires place { i ≤ capacity }
        ensures { Shares self.new later.new self.old.level (insert self.old.pairs i entry) }
    {
        if i < HALF {
            self.split_off(HALF - 1, later);
            self.insert_at(i, entry);
        } else {
            self.split_off(HALF, later);
            later.insert_at(i - HALF, entry);
        }
    }

    // Puts the entries of the right node behind those of this one.
    fn append(&mut self, right: &Node)
        requires { length self.old.pairs + length right.now.pairs ≤ capacity }
        ensures { self.new ≡ record self.old { pairs = self.old.pairs ++ right.now.pairs } }
    {
        let n = self.len();
        let m = right.len();
        copy_row(
            &right.words[KEYS..WORDS][..m],
            &mut self.words[KEYS..WORDS],
            n,
        );
        copy_row(
            &right.words[WORDS..PAGE_WORDS][..m],
            &mut self.words[WORDS..PAGE_WORDS],
            n,
        );
        self.words[COUNT] = (n + m) as u64;
    }

    /// Makes one node of two where that leaves room; else gives a thin one of them an entry of the other, and tells the first key of the right.
    pub fn join(&mut self, right: &mut Node) -> Option<u64>
        requires { Neighbours self.old right.old }
        ensures joined { Joins self.new right.new self.old.level (self.old.pairs ++ right.old.pairs) result }
        ensures slack { is_some result ≡ nat_lt join_most (length self.old.pairs + length right.old.pairs) }
    {
        let n = self.len();
        let m = right.len();
        if n + m <= JOIN_MOST {
            self.append(right);
            return None;
        }
        if n < LEAST {
            self.insert_at(n, right.remove_at(0));
        } else if m < LEAST {
            right.insert_at(0, self.remove_at(n - 1));
        }
        Some(right.entry(0).0)
    }

    /// Makes the entries at j and the next of an inner node those of the joined children.
    pub fn amend(&mut self, j: usize, more: Option<u64>)
        requires { j + 1 < length self.old.pairs }
        ensures { self.new ≡ record self.old { pairs = amended self.old.pairs j more } }
    {
        // Names the words for the check, which knows by them that a node has few entries.
        let _ = &self.words;
        if let Some(key) = more {
            let (_, child) = self.entry(j + 1);
            self.set(j + 1, (key, child));
        } else {
            self.remove_at(j + 1);
        }
    }
}
