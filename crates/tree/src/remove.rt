// Dropping a pair: a thin node is joined with a neighbour, or takes an entry from it.
ghost use Rattle.std.specs.Prelude.{◌≡◌, ℕ, ◌+◌, ◌-◌, ◌*◌, ◌<◌, ◌≤◌, Bool, true, List, [], ◌∷◌, ◌++◌, length, is_ok, IfOk, OnOk, OnErr};
ghost use Rattle.node.specs.Pairs.{drop_in};
ghost use Rattle.node.specs.Node.{count_of, level_of, pairs_of, IsNode, Rising};
ghost use Rattle.tree.specs.State.{PageState, Whole, Passes};
ghost use Rattle.tree.specs.Tree.{pairs_at, Mine, Asks, Sound, Once, pairs_of_tree};
ghost use Rattle.tree.specs.Shrink.{Near, Paired, Mends, Mended, Cut, Shrunk, Wide, Was, Worn, Crowned, Dropped};
ghost use Rattle.tree.specs.Done.{is_thin, was_there};

use crate::TreeRoot;
use crate::page_store::{PageStore, find_way, read_node};
use node::LEAST;
use pages::Gone;

// Joins the nodes a and c, or lends between them; then the first key of c, or nothing if c was given back.
fn join_pages<S: PageStore>(s: &mut S, a: u64, c: u64, l: u64) -> Result<Option<u64>, Gone>
    requires asks { (Near (S.state s.old) l a c) × (2 ≤ (S.state s.old).left) }
    requires budget { 1 ≤ (S.state s.old).spare }
    requires whole { Whole S.onto s.old }
    ensures got { IfOk result (λ o. Paired 2 (S.state s.old) (S.state s.new) l a c o) }
    ensures passed { Passes S.onto S.tie (is_ok result) s.old s.new }
{
    let mut left = read_node(s, a)?;
    let mut right = read_node(s, c)?;
    let more = left.join(&mut right);
    s.write(a, left.words())?;
    if let Some(key) = more {
        s.write(c, right.words())?;
        return Ok(Some(key));
    }
    s.release(c)?;
    Ok(None)
}

// Joins the children of p at j and the next; whether p is thin then.
fn mend<S: PageStore>(s: &mut S, p: u64, j: usize, l: u64) -> Result<bool, Gone>
    requires asks { (Mends (S.state s.old) l p j) × (3 ≤ (S.state s.old).left) }
    requires budget { 2 ≤ (S.state s.old).spare }
    requires whole { Whole S.onto s.old }
    ensures got { IfOk result (λ t. Mended 3 (S.state s.old) (S.state s.new) l p j (level_of ((S.state s.old).page p)) (pairs_of ((S.state s.old).page p)) t) }
    ensures passed { Passes S.onto S.tie (is_ok result) s.old s.new }
{
    let mut node = read_node(s, p)?;
    let (_, a) = node.entry(j);
    let (_, c) = node.entry(j + 1);
    let more = join_pages(s, a, c, l)?;
    node.amend(j, more);
    s.write(p, node.words())?;
    Ok(node.len() < LEAST)
}

// What a drop did to a part of the tree: the key was absent, or its pair is taken out, and then the part's root may be thin.
#[derive(Clone, Copy, Debug, PartialEq, Eq)]
enum Lost {
    Absent,
    Taken { thin: bool },
}

// Takes the pair at k out of the leaf p.
fn leaf_drop<S: PageStore>(s: &mut S, p: u64, k: u64) -> Result<Lost, Gone>
    requires asks { (0 < (S.state s.old).left) × ((1 ≤ (S.state s.old).taken p) × ((IsNode ((S.state s.old).page p)) × ((Rising (pairs_of ((S.state s.old).page p))) × (level_of ((S.state s.old).page p) ≡ 0)))) }
    requires budget { 1 ≤ (S.state s.old).spare }
    requires whole { Whole S.onto s.old }
    ensures got { IfOk result (λ t. Cut 1 (S.state s.old) (S.state s.new) p (pairs_of ((S.state s.old).page p)) (drop_in k (pairs_of ((S.state s.old).page p))) (is_thin t) × Was k (pairs_of ((S.state s.old).page p)) (was_there t)) }
    ensures passed { Passes S.onto S.tie (is_ok result) s.old s.new }
{
    let mut leaf = read_node(s, p)?;
    match leaf.find(k) {
        Ok(i) => {
            leaf.remove_at(i);
            s.write(p, leaf.words())?;
            let low = leaf.len() < LEAST;
            Ok(Lost::Taken { thin: low })
        }
        Err(_) => Ok(Lost::Absent),
    }
}

// Takes the pair at k out of the tree at p, at level l.
fn drop_at<S: PageStore>(s: &mut S, p: u64, l: u64, k: u64) -> Result<Lost, Gone>
    requires asks { (Asks (S.state s.old) l p k) × ((Mine (S.state s.old) l p) × ((Once (S.state s.old)) × ((Wide (S.state s.old) l p) × (4 * l + 1 ≤ (S.state s.old).left)))) }
    requires budget { 2 * l + 1 ≤ (S.state s.old).spare }
    requires whole { Whole S.onto s.old }
    ensures got { IfOk result (λ t. Shrunk (4 * l + 1) (S.state s.old) (S.state s.new) l p k (is_thin t) × Was k (pairs_at (S.state s.old).page l p) (was_there t)) }
    ensures passed { Passes S.onto S.tie (is_ok result) s.old s.new }
{
    if l == 0 {
        return leaf_drop(s, p, k);
    }
    let w = find_way(s, p, k)?;
    let lost = drop_at(s, w.down, l - 1, k)?;
    match lost {
        Lost::Absent => Ok(Lost::Absent),
        Lost::Taken { thin: false } => Ok(Lost::Taken { thin: false }),
        Lost::Taken { thin: true } => {
            let thin = mend(s, p, w.at.saturating_sub(1), l - 1)?;
            Ok(Lost::Taken { thin })
        }
    }
}

impl TreeRoot {
    // Gives back a root that has no pair, or one child only.
    fn crown<S: PageStore>(&mut self, s: &mut S) -> Result<(), Gone>
        requires asks { (Worn (S.state s.old) self.old.height self.old.page) × ((Once (S.state s.old)) × (0 < (S.state s.old).left)) }
        requires budget { 1 ≤ (S.state s.old).spare }
        requires whole { Whole S.onto s.old }
        ensures got { OnOk result (Crowned (S.state s.old) (S.state s.new) self.old.height self.old.page self.new.height self.new.page) }
        ensures err { OnErr result (self.new ≡ self.old) }
        ensures passed { Passes S.onto S.tie (is_ok result) s.old s.new }
    {
        let root = read_node(s, self.page)?;
        let n = root.len();
        if self.height == 1 {
            if n == 0 {
                s.release(self.page)?;
                self.height = 0;
            }
            return Ok(());
        }
        if n == 1 {
            let (_, child) = root.entry(0);
            s.release(self.page)?;
            *self = TreeRoot {
                page: child,
                height: self.height - 1,
            };
        }
        Ok(())
    }

    /// Takes the pair at k out of the tree; whether it was there.
    pub fn drop<S: PageStore>(&mut self, s: &mut S, k: u64) -> Result<bool, Gone>
        requires asks { (Sound (S.state s.old) self.old.height self.old.page) × ((Once (S.state s.old)) × (4 * self.old.height ≤ (S.state s.old).left)) }
        requires budget { 2 * self.old.height ≤ (S.state s.old).spare }
        requires whole { Whole S.onto s.old }
        ensures got { IfOk result (λ was. Dropped (S.state s.old) (S.state s.new) self.old.height self.old.page k self.new.height self.new.page × Was k (pairs_of_tree (S.state s.old).page self.old.height self.old.page) was) }
        ensures err { OnErr result (self.new ≡ self.old) }
        ensures passed { Passes S.onto S.tie (is_ok result) s.old s.new }
    {
        if self.height == 0 {
            return Ok(false);
        }
        let lost = drop_at(s, self.page, self.height - 1, k)?;
        match lost {
            Lost::Absent => Ok(false),
            Lost::Taken { thin: false } => Ok(true),
            Lost::Taken { thin: true } => {
                self.crown(s)?;
                Ok(true)
            }
        }
    }
}
