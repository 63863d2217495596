// The store of pages that a tree stands on.
ghost use Rattle.std.specs.Prelude.{◌≡◌, ℕ, ◌+◌, ◌<◌, ◌≤◌, Bool, true, List, length, is_ok, IfOk, OnOk};
ghost use Rattle.std.specs.Borrow.{GName};
ghost use Rattle.std.specs.Fn.{FnOnceTakesAt, FnOnceReturnsAt};
ghost use Rattle.pages.specs.Pages.{page_words};
ghost use Rattle.node.specs.Node.{IsNode, contents_of, pairs_of, Reaches, Leads};
ghost use Rattle.tree.specs.State.{PageState, Still, Given, Wrote, Freed, Whole, Passes};

use node::{Node, Way};
use pages::{Gone, PAGE_WORDS};

/// Pages by their numbers. A store fails only by the power going.
pub trait PageStore {
    ghost state: { Self → PageState };
    // onto a ok b: b may have come from a, where ok says whether the power is still there. The tree passes it through.
    ghost onto: { Self → Bool → Self → Type 0 };
    // What the store is lent: the tree gives it back.
    ghost tie: { Self → List GName };

    // Reads page p.
    fn read(&mut self, p: u64, into: &mut [u64]) -> Result<(), Gone>
        requires asks { (0 < (state self.old).left) × ((1 ≤ (state self.old).taken p) × (length into.old ≡ page_words)) }
        requires whole { Whole onto self.old }
        ensures got { OnOk result ((into.new ≡ (state self.old).page p) × Still 1 (state self.old) (state self.new)) }
        ensures passed { Passes onto tie (is_ok result) self.old self.new };

    // Makes page p what from is. A page that is not dirty costs one of the spare ones.
    fn write(&mut self, p: u64, from: &[u64]) -> Result<(), Gone>
        requires asks { (1 ≤ (state self.old).taken p) × ((1 ≤ (state self.old).spare + (state self.old).dirty p) × (length from.now ≡ page_words)) }
        requires whole { Whole onto self.old }
        ensures got { OnOk result (Wrote p from.now (state self.old) (state self.new)) }
        ensures passed { Passes onto tie (is_ok result) self.old self.new };

    // Hands out a page that is not taken.
    fn alloc(&mut self) -> Result<u64, Gone>
        requires asks { (0 < (state self.old).left) × (0 < (state self.old).room) }
        requires whole { Whole onto self.old }
        ensures got { IfOk result (λ p. Given p (state self.old) (state self.new)) }
        ensures passed { Passes onto tie (is_ok result) self.old self.new };

    // Takes page p back. A page that is not dirty costs one of the spare ones.
    fn release(&mut self, p: u64) -> Result<(), Gone>
        requires asks { ((state self.old).taken p ≡ 1) × (1 ≤ (state self.old).spare + (state self.old).dirty p) }
        requires whole { Whole onto self.old }
        ensures got { OnOk result (Freed p (state self.old) (state self.new)) }
        ensures passed { Passes onto tie (is_ok result) self.old self.new };
}

// What a store passes on, Whole and Passes, stands with each function: it speaks of a store before and after a call, which no type of a value can keep.
// So does what is asked of a page, that it is taken and holds a node: a page here is a number, and says nothing without its store.
// The bounds on what may still be asked and changed differ from function to function.

/// The node of page p.
pub fn read_node<S: PageStore>(s: &mut S, p: u64) -> Result<Node, Gone>
    requires asks { (0 < (S.state s.old).left) × ((1 ≤ (S.state s.old).taken p) × (IsNode ((S.state s.old).page p))) }
    requires whole { Whole S.onto s.old }
    ensures got { IfOk result (λ n. (n ≡ contents_of ((S.state s.old).page p)) × Still 1 (S.state s.old) (S.state s.new)) }
    ensures passed { Passes S.onto S.tie (is_ok result) s.old s.new }
{
    let mut words = [0; PAGE_WORDS];
    s.read(p, &mut words)?;
    Ok(Node::from_words(words))
}

/// What look tells of the node of page p, which is not held when it returns.
pub fn look_at<S: PageStore, T, F: FnOnce(&Node) -> T>(
    s: &mut S,
    p: u64,
    look: F,
) -> Result<T, Gone>
    requires asks { (0 < (S.state s.old).left) × ((1 ≤ (S.state s.old).taken p) × (IsNode ((S.state s.old).page p))) }
    requires looks { FnOnceTakesAt F.FnOnce look (contents_of ((S.state s.old).page p)) }
    requires whole { Whole S.onto s.old }
    ensures got { IfOk result (λ t. FnOnceReturnsAt F.FnOnce look (contents_of ((S.state s.old).page p)) t × Still 1 (S.state s.old) (S.state s.new)) }
    ensures passed { Passes S.onto S.tie (is_ok result) s.old s.new }
{
    let node = read_node(s, p)?;
    Ok(look(&node))
}

/// The way from the inner node p to the child that has k.
pub fn find_way<S: PageStore>(s: &mut S, p: u64, k: u64) -> Result<Way, Gone>
    requires asks { (0 < (S.state s.old).left) × ((1 ≤ (S.state s.old).taken p) × ((IsNode ((S.state s.old).page p)) × (Reaches (pairs_of ((S.state s.old).page p)) k))) }
    requires whole { Whole S.onto s.old }
    ensures got { IfOk result (λ w. Leads (pairs_of ((S.state s.old).page p)) k w.at w.down w.right × Still 1 (S.state s.old) (S.state s.new)) }
    ensures passed { Passes S.onto S.tie (is_ok result) s.old s.new }
{
    look_at(s, p, |node| node.way_to(k))
}
