// Looking a key up, and the pair after a key.
ghost use Rattle.std.specs.Prelude.{◌≡◌, ℕ, ◌+◌, ◌-◌, ◌*◌, ◌<◌, ◌≤◌, Bool, true, List, [], ◌∷◌, ◌++◌, length, is_ok, IfOk, Some, None};
ghost use Rattle.node.specs.Pairs.{find, first, above};
ghost use Rattle.tree.specs.State.{PageState, Still, Whole, Passes};
ghost use Rattle.tree.specs.Tree.{pairs_at, Mine, Asks, Sound, pairs_of_tree};

use crate::TreeRoot;
use crate::page_store::{PageStore, find_way, look_at};
use node::Entry;
use pages::Gone;

// The word at k in the tree at p, at level l.
fn get_at<S: PageStore>(s: &mut S, p: u64, l: u64, k: u64) -> Result<Option<u64>, Gone>
    requires asks { (Asks (S.state s.old) l p k) × ((Mine (S.state s.old) l p) × (l < (S.state s.old).left)) }
    requires whole { Whole S.onto s.old }
    ensures got { IfOk result (λ o. (o ≡ find k (pairs_at (S.state s.old).page l p)) × Still (l + 1) (S.state s.old) (S.state s.new)) }
    ensures passed { Passes S.onto S.tie (is_ok result) s.old s.new }
{
    if l == 0 {
        return look_at(s, p, |leaf| leaf.get(k));
    }
    let w = find_way(s, p, k)?;
    get_at(s, w.down, l - 1, k)
}

// The first pair of the tree at p, at level l.
fn first_at<S: PageStore>(s: &mut S, p: u64, l: u64) -> Result<Entry, Gone>
    requires asks { (((k : ℕ) × Asks (S.state s.old) l p k)) × ((Mine (S.state s.old) l p) × (l < (S.state s.old).left)) }
    requires whole { Whole S.onto s.old }
    ensures got { IfOk result (λ e. (Some e ≡ first (pairs_at (S.state s.old).page l p)) × Still (l + 1) (S.state s.old) (S.state s.new)) }
    ensures passed { Passes S.onto S.tie (is_ok result) s.old s.new }
{
    let e = look_at(s, p, |node| node.entry(0))?;
    if l == 0 {
        return Ok(e);
    }
    first_at(s, e.1, l - 1)
}

// The first pair above k in the tree at p, at level l.
fn next_at<S: PageStore>(s: &mut S, p: u64, l: u64, k: u64) -> Result<Option<Entry>, Gone>
    requires asks { (Asks (S.state s.old) l p k) × ((Mine (S.state s.old) l p) × ((2 * l < (S.state s.old).left) × (l < 64))) }
    requires whole { Whole S.onto s.old }
    ensures got { IfOk result (λ o. (o ≡ above k (pairs_at (S.state s.old).page l p)) × Still (2 * l + 1) (S.state s.old) (S.state s.new) × (o ≡ None → Still (l + 1) (S.state s.old) (S.state s.new))) }
    ensures passed { Passes S.onto S.tie (is_ok result) s.old s.new }
{
    if l == 0 {
        return look_at(s, p, |leaf| leaf.after(k));
    }
    let w = find_way(s, p, k)?;
    let below = next_at(s, w.down, l - 1, k)?;
    if let Some(e) = below {
        return Ok(Some(e));
    }
    if let Some(q) = w.right {
        let e = first_at(s, q, l - 1)?;
        return Ok(Some(e));
    }
    Ok(None)
}

// Two questions that read alike: they differ in what they find and in how many askings that takes.
impl TreeRoot {
    /// The word at k.
    pub fn get<S: PageStore>(self, s: &mut S, k: u64) -> Result<Option<u64>, Gone>
        requires asks { (Sound (S.state s.old) self.height self.page) × (self.height ≤ (S.state s.old).left) }
        requires whole { Whole S.onto s.old }
        ensures got { IfOk result (λ o. (o ≡ find k (pairs_of_tree (S.state s.old).page self.height self.page)) × Still self.height (S.state s.old) (S.state s.new)) }
        ensures passed { Passes S.onto S.tie (is_ok result) s.old s.new }
    {
        if self.height == 0 {
            return Ok(None);
        }
        get_at(s, self.page, self.height - 1, k)
    }

    /// The first pair with a key above k.
    pub fn next<S: PageStore>(self, s: &mut S, k: u64) -> Result<Option<Entry>, Gone>
        requires asks { (Sound (S.state s.old) self.height self.page) × ((2 * self.height ≤ (S.state s.old).left + 1) × (self.height ≤ 6)) }
        requires whole { Whole S.onto s.old }
        ensures got { IfOk result (λ o. (o ≡ above k (pairs_of_tree (S.state s.old).page self.height self.page)) × Still (2 * self.height - 1) (S.state s.old) (S.state s.new)) }
        ensures passed { Passes S.onto S.tie (is_ok result) s.old s.new }
    {
        if self.height == 0 {
            return Ok(None);
        }
        next_at(s, self.page, self.height - 1, k)
    }
}
