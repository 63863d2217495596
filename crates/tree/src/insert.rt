// Putting a pair into the tree: a full node is split, and the root's halves get a new root.
ghost use Rattle.std.specs.Prelude.{◌≡◌, ℕ, ◌+◌, ◌-◌, ◌*◌, ◌<◌, ◌≤◌, Bool, true, List, [], ◌∷◌, ◌++◌, length, is_ok, IfOk, Some, None, OnOk, OnErr, slice_set};
ghost use Rattle.std.specs.List.{insert};
ghost use Rattle.node.specs.Pairs.{put_in};
ghost use Rattle.node.specs.Node.{count_of, level_of, pairs_of, IsNode, Rising, rows};
ghost use Rattle.tree.specs.State.{PageState, Still, Whole, Passes};
ghost use Rattle.tree.specs.Tree.{pairs_at, Mine, Asks, Sound, Once, pairs_of_tree};
ghost use Rattle.tree.specs.Grow.{Entered, Grew, New, Built, Grown};
ghost use Rattle.tree.specs.Done.{more_of, is_new};

use crate::TreeRoot;
use crate::page_store::{PageStore, find_way, look_at, read_node};
use node::{CAPACITY, Entry, Node};
use pages::Gone;

// Puts the entry at place i of the node p. A full node shares its entries with a new page, which is told with its first key.
fn enter<S: PageStore>(s: &mut S, p: u64, i: usize, entry: Entry) -> Result<Option<Entry>, Gone>
    requires asks { (1 ≤ (S.state s.old).taken p) × ((IsNode ((S.state s.old).page p)) × ((i ≤ count_of ((S.state s.old).page p)) × ((2 ≤ (S.state s.old).left) × (1 ≤ (S.state s.old).room)))) }
    requires budget { 2 ≤ (S.state s.old).spare }
    requires whole { Whole S.onto s.old }
    ensures got { IfOk result (λ o. Entered 2 (S.state s.old) (S.state s.new) (level_of ((S.state s.old).page p)) p (insert (pairs_of ((S.state s.old).page p)) i entry) o) }
    ensures passed { Passes S.onto S.tie (is_ok result) s.old s.new }
{
    let mut node = read_node(s, p)?;
    if node.len() < CAPACITY {
        node.insert_at(i, entry);
        s.write(p, node.words())?;
        return Ok(None);
    }
    let q = s.alloc()?;
    let mut later = Node::new(0);
    node.split_in(&mut later, i, entry);
    s.write(p, node.words())?;
    s.write(q, later.words())?;
    Ok(Some((later.entry(0).0, q)))
}

// Puts the entry in the stead of the one at place i of the node p.
fn change<S: PageStore>(s: &mut S, p: u64, i: usize, entry: Entry) -> Result<(), Gone>
    requires asks { (1 ≤ (S.state s.old).taken p) × ((IsNode ((S.state s.old).page p)) × ((i < count_of ((S.state s.old).page p)) × (1 ≤ (S.state s.old).left))) }
    requires budget { 1 ≤ (S.state s.old).spare }
    requires whole { Whole S.onto s.old }
    ensures got { OnOk result (Entered 1 (S.state s.old) (S.state s.new) (level_of ((S.state s.old).page p)) p (slice_set (pairs_of ((S.state s.old).page p)) i entry) None) }
    ensures passed { Passes S.onto S.tie (is_ok result) s.old s.new }
{
    let mut node = read_node(s, p)?;
    node.set(i, entry);
    s.write(p, node.words())
}

// What a put did to a part of the tree: the key stood there and its word is changed, or the key is new, and then the part may share its entries with a page more.
#[derive(Clone, Copy, Debug, PartialEq, Eq)]
enum Stored {
    Changed,
    Added(Option<Entry>),
}

// Puts the pair into the leaf p.
fn leaf_put<S: PageStore>(s: &mut S, p: u64, pair: Entry) -> Result<Stored, Gone>
    requires asks { (1 ≤ (S.state s.old).taken p) × ((IsNode ((S.state s.old).page p)) × ((Rising (pairs_of ((S.state s.old).page p))) × ((level_of ((S.state s.old).page p) ≡ 0) × ((3 ≤ (S.state s.old).left) × (1 ≤ (S.state s.old).room))))) }
    requires budget { 2 ≤ (S.state s.old).spare }
    requires whole { Whole S.onto s.old }
    ensures got { IfOk result (λ t. Entered 3 (S.state s.old) (S.state s.new) 0 p (put_in pair.0 pair.1 (pairs_of ((S.state s.old).page p))) (more_of t) × New pair.0 (pairs_of ((S.state s.old).page p)) (is_new t)) }
    ensures passed { Passes S.onto S.tie (is_ok result) s.old s.new }
{
    let k = pair.0;
    match look_at(s, p, |leaf| leaf.find(k))? {
        Ok(i) => {
            change(s, p, i, pair)?;
            Ok(Stored::Changed)
        }
        Err(i) => {
            let more = enter(s, p, i, pair)?;
            Ok(Stored::Added(more))
        }
    }
}

// Puts the pair into the tree at p, at level l.
fn put_at<S: PageStore>(s: &mut S, p: u64, l: u64, pair: Entry) -> Result<Stored, Gone>
    requires asks { (Asks (S.state s.old) l p pair.0) × ((Mine (S.state s.old) l p) × ((Once (S.state s.old)) × ((3 * l + 3 ≤ (S.state s.old).left) × (l + 1 ≤ (S.state s.old).room)))) }
    requires budget { 2 * l + 2 ≤ (S.state s.old).spare }
    requires whole { Whole S.onto s.old }
    ensures got { IfOk result (λ t. Grew (3 * l + 3) (S.state s.old) (S.state s.new) l p pair.0 pair.1 (more_of t) × New pair.0 (pairs_at (S.state s.old).page l p) (is_new t)) }
    ensures passed { Passes S.onto S.tie (is_ok result) s.old s.new }
{
    if l == 0 {
        return leaf_put(s, p, pair);
    }
    let w = find_way(s, p, pair.0)?;
    let stored = put_at(s, w.down, l - 1, pair)?;
    match stored {
        Stored::Changed => Ok(Stored::Changed),
        Stored::Added(None) => Ok(Stored::Added(None)),
        Stored::Added(Some(child)) => {
            let more = enter(s, p, w.at + 1, child)?;
            Ok(Stored::Added(more))
        }
    }
}

// A new page with a node of one entry or two, at level l.
fn build<S: PageStore>(s: &mut S, l: u64, entry: Entry, more: Option<Entry>) -> Result<u64, Gone>
    requires asks { (0 < (S.state s.old).left) × (0 < (S.state s.old).room) }
    requires budget { 1 ≤ (S.state s.old).spare }
    requires whole { Whole S.onto s.old }
    ensures got { IfOk result (λ p. Built (S.state s.old) (S.state s.new) p l (rows entry.0 entry.1 more)) }
    ensures passed { Passes S.onto S.tie (is_ok result) s.old s.new }
{
    let p = s.alloc()?;
    let mut node = Node::new(l);
    node.insert_at(0, entry);
    if let Some(second) = more {
        node.insert_at(1, second);
    }
    s.write(p, node.words())?;
    Ok(p)
}

impl TreeRoot {
    /// Puts the pair (k, x) into the tree; whether the key is new.
    pub fn put<S: PageStore>(&mut self, s: &mut S, k: u64, x: u64) -> Result<bool, Gone>
        requires asks { (Sound (S.state s.old) self.old.height self.old.page) × ((Once (S.state s.old)) × ((self.old.height ≤ 6) × ((3 * self.old.height + 1 ≤ (S.state s.old).left) × (self.old.height + 1 ≤ (S.state s.old).room)))) }
        requires budget { 2 * self.old.height + 1 ≤ (S.state s.old).spare }
        requires whole { Whole S.onto s.old }
        ensures got { IfOk result (λ new. Grown (S.state s.old) (S.state s.new) self.old.height self.old.page k x self.new.height self.new.page × New k (pairs_of_tree (S.state s.old).page self.old.height self.old.page) new) }
        ensures err { OnErr result (self.new ≡ self.old) }
        ensures passed { Passes S.onto S.tie (is_ok result) s.old s.new }
    {
        if self.height == 0 {
            let page = build(s, 0, (k, x), None)?;
            *self = TreeRoot { page, height: 1 };
            return Ok(true);
        }
        let stored = put_at(s, self.page, self.height - 1, (k, x))?;
        match stored {
            Stored::Changed => Ok(false),
            Stored::Added(None) => Ok(true),
            Stored::Added(Some(child)) => {
                let page = build(s, self.height, (0, self.page), Some(child))?;
                *self = TreeRoot {
                    page,
                    height: self.height + 1,
                };
                Ok(true)
            }
        }
    }
}
