// Changes of one entry of a node.
ghost use Rattle.std.specs.Prelude.{◌≡◌, ℕ, ◌+◌, ◌-◌, ◌<◌, ◌≤◌, length, slice_index_or, slice_set};
ghost use Rattle.std.specs.List.{insert, remove};
ghost use Rattle.node.specs.Layout.{capacity};

use crate::shift::{shift_in, shift_out};
use crate::{COUNT, Entry, KEYS, Node, WORDS};
use pages::PAGE_WORDS;

impl Node {
    /// Puts the entry at place i.
    pub fn insert_at(&mut self, i: usize, entry: Entry)
        requires room { length self.old.pairs < capacity }
        requires place { i ≤ length self.old.pairs }
        ensures { self.new ≡ record self.old { pairs = insert self.old.pairs i entry } }
    {
        let n = self.len();
        shift_in(&mut self.words[KEYS..WORDS], n, i, entry.0);
        shift_in(&mut self.words[WORDS..PAGE_WORDS], n, i, entry.1);
        self.words[COUNT] = n as u64 + 1;
    }

    /// Takes out the entry at place i.
    pub fn remove_at(&mut self, i: usize) -> Entry
        requires { i < length self.old.pairs }
        ensures entry { result ≡ slice_index_or self.old.pairs i (0, 0) }
        ensures pairs { self.new ≡ record self.old { pairs = remove self.old.pairs i } }
    {
        let n = self.len();
        let entry = self.entry(i);
        shift_out(&mut self.words[KEYS..WORDS], n, i);
        shift_out(&mut self.words[WORDS..PAGE_WORDS], n, i);
        self.words[COUNT] = n as u64 - 1;
        entry
    }

    /// Puts the entry in the stead of the one at place i.
    pub fn set(&mut self, i: usize, entry: Entry)
        requires { i < length self.old.pairs }
        ensures { self.new ≡ record self.old { pairs = slice_set self.old.pairs i entry } }
    {
        let words = &mut self.words;
        words[KEYS + i] = entry.0;
        words[WORDS + i] = entry.1;
    }
}
