// Where a key is or would be in a node.
ghost use Rattle.std.specs.Prelude.{◌≡◌, ℕ, ◌+◌, ◌-◌, ◌<◌, ◌≤◌, length};
ghost use Rattle.node.specs.Pairs.{find, above};
ghost use Rattle.node.specs.Node.{Rising, Lower, Upper, Reaches, Leads, Spot, place_of};

use crate::{Entry, Node};

/// A way down from an inner node: the place of an entry, its child, and the child to the right of that.
#[derive(Clone, Copy, Debug, PartialEq, Eq)]
pub struct Way {
    pub at: usize,
    pub down: u64,
    pub right: Option<u64>,
}

// That the keys rise stands with each question: it is so in a leaf and in an inner node that is whole, and no node that is being changed has to keep it.
impl Node {
    /// Where k is in a leaf, or where it would be.
    pub fn find(&self, k: u64) -> Result<usize, usize>
        requires { Rising self.now.pairs }
        ensures spot { Spot self.now.pairs k result }
        ensures place { Lower self.now.pairs k (place_of result) }
    {
        self.keys().binary_search(&k)
    }

    /// How many keys are at most k.
    pub fn upper(&self, k: u64) -> usize
        requires { Rising self.now.pairs }
        ensures { Upper self.now.pairs k result }
    {
        self.keys().partition_point(|key| *key <= k)
    }

    /// The word at k in a leaf.
    pub fn get(&self, k: u64) -> Option<u64>
        requires { Rising self.now.pairs }
        ensures { result ≡ find k self.now.pairs }
    {
        let i = self.find(k).ok()?;
        Some(self.entry(i).1)
    }

    /// The first pair of a leaf with a key above k.
    pub fn after(&self, k: u64) -> Option<Entry>
        requires { Rising self.now.pairs }
        ensures { result ≡ above k self.now.pairs }
    {
        self.nth(self.upper(k))
    }

    /// The way from an inner node to the child that has k.
    pub fn way_to(&self, k: u64) -> Way
        requires { Reaches self.now.pairs k }
        ensures { Leads self.now.pairs k result.at result.down result.right }
    {
        let i = self.upper(k);
        Way {
            at: i - 1,
            down: self.entry(i - 1).1,
            right: self.nth(i).map(|entry| entry.1),
        }
    }
}
