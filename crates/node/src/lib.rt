// A node of the tree as a page of words: the number of entries, the level (0 for a leaf), the keys, the words.
// Keys rise. An entry of a leaf is a pair of the map; one of an inner node is a child's lower fence and the child's page.
#![tactic(auto, using(crate::proofs::Words::sized))]

mod balance;
mod edit;
mod search;
mod shift;

ghost use Rattle.std.specs.Prelude.{◌≡◌, ℕ, ◌+◌, ◌<◌, ◌≤◌, List, [], length, map, slice_index_or, slice_get};
ghost use Rattle.node.specs.Layout.{capacity};
ghost use Rattle.node.specs.Node.{Contents, contents_of, IsNode, Page};

use pages::PAGE_WORDS;
pub use search::Way;
use std::marker::Model;

/// The most entries of a node.
pub const CAPACITY: usize = 255;
/// The fewest entries of a node that isn't the root: a third, so that a join or a loan always reaches it.
pub const LEAST: usize = 85;
/// Two nodes become one only up to so many entries, so that the next put doesn't split it again.
pub const JOIN_MOST: usize = 240;

const COUNT: usize = 0;

const LEVEL: usize = 1;

const KEYS: usize = 2;

const WORDS: usize = KEYS + CAPACITY;
// A full node and one more entry are shared in two equal halves.
const HALF: usize = 128;

/// An entry: a key and its word.
pub type Entry = (u64, u64);

/// A node, in the words of its page. A clause sees its level and its entries. It owns its words, since a page is copied out of its store in any case, and nothing of a store is lent while a node is changed; whoever has a lent page makes a node of it by a copy.
#[derive(Drop)]
pub struct Node {
    words: [u64; PAGE_WORDS],
}

impl Model for Node {
    ghost Value = { Contents };

    ghost view = { λ n. contents_of n.words };

    ghost invariant = { λ n. IsNode n.words };
}

impl Node {
    /// A node without entries.
    pub fn new(level: u64) -> Node
        ensures { result ≡ record { level = level; pairs = [] } }
    {
        let mut words = [0; PAGE_WORDS];
        words[LEVEL] = level;
        Node { words }
    }

    /// The node that a page holds.
    pub fn from_words(words: [u64; PAGE_WORDS]) -> Node
        requires { IsNode words }
        ensures { result ≡ contents_of words }
    {
        Node { words }
    }

    /// The page that holds the node.
    pub fn words(&self) -> &[u64]
        ensures { Page result.now self.now.level self.now.pairs }
    {
        &self.words
    }

    /// How many entries the node has.
    pub fn len(&self) -> usize
        ensures is { result ≡ length self.now.pairs }
        ensures few { result ≤ capacity }
    {
        self.words[COUNT] as usize
    }

    // The keys of the entries.
    fn keys(&self) -> &[u64]
        ensures { result.now ≡ map (λ e. e.0) self.now.pairs }
    {
        &self.words[KEYS..WORDS][..self.len()]
    }

    /// The entry at place i. That there is one stands with each function that takes a place, as with the index of a slice.
    pub fn entry(&self, i: usize) -> Entry
        requires { i < length self.now.pairs }
        ensures { result ≡ slice_index_or self.now.pairs i (0, 0) }
    {
        let words = &self.words;
        (words[KEYS + i], words[WORDS + i])
    }

    /// The entry at place i, if there are so many.
    pub fn nth(&self, i: usize) -> Option<Entry>
        ensures { result ≡ slice_get self.now.pairs i }
    {
        if i < self.len() {
            Some(self.entry(i))
        } else {
            None
        }
    }
}
