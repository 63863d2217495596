// The tree in memory for other languages: a slice crosses as a pointer and then its length.
// The caller asks for nothing before tree_set_up, and leaves what it lends alone between the calls.
// What travels together, the marks, the words and the root, comes as C lends it, so each function says anew that a tree stands there.
#![tactic(auto)]

ghost use Rattle.std.specs.Prelude.{◌≡◌, ℕ, ◌-◌, ◌*◌, ◌<◌, ◌≤◌, length};
ghost use Rattle.node.specs.Pairs.{find};
ghost use Rattle.pages.specs.Pages.{page_words};
ghost use Rattle.pagemem.specs.Memory.{Good, pairs_in};
ghost use Rattle.treebench.specs.Bench.{word_or};

use pagemem::{MemTree, TreeRoot, set_up};

// What tree_put answers where too few pages are free. C has no Option: a number tells it.
const REFUSED: u64 = 2;

/// An empty tree in the lent memory.
#[unsafe(no_mangle)]
pub extern "C" fn tree_set_up(marks: &mut [u64], words: &mut [u64], root: &mut TreeRoot)
    requires { (0 < length marks.old) × ((length marks.old ≤ 4294967297) × (page_words * (length marks.old - 1) ≤ length words.old)) }
    ensures { Good marks.new words.new root.new }
{
    *root = set_up(marks, words);
}

/// The word at k, or the largest word if there is none.
#[unsafe(no_mangle)]
pub extern "C" fn tree_get(marks: &mut [u64], words: &mut [u64], root: &TreeRoot, k: u64) -> u64
    requires { Good marks.old words.old root.now }
    ensures got { result ≡ word_or (find k (pairs_in words.old root.now)) }
    ensures good { Good marks.new words.new root.now }
{
    let mut tree = MemTree::open(marks, words, *root);
    tree.get(k).unwrap_or(u64::MAX)
}

/// Puts the pair (k, x): 1 if the key is new, 0 if it is not, 2 if too few pages are free.
#[unsafe(no_mangle)]
pub extern "C" fn tree_put(
    marks: &mut [u64],
    words: &mut [u64],
    root: &mut TreeRoot,
    k: u64,
    x: u64,
) -> u64
    requires { Good marks.old words.old root.old }
    ensures { Good marks.new words.new root.new }
{
    let mut tree = MemTree::open(marks, words, *root);
    let new = tree.put(k, x);
    *root = tree.root();
    new.map_or(REFUSED, u64::from)
}

/// Drops the pair at k: 1 if it was there, else 0.
#[unsafe(no_mangle)]
pub extern "C" fn tree_drop(
    marks: &mut [u64],
    words: &mut [u64],
    root: &mut TreeRoot,
    k: u64,
) -> u64
    requires { Good marks.old words.old root.old }
    ensures { Good marks.new words.new root.new }
{
    let mut tree = MemTree::open(marks, words, *root);
    let was = tree.drop(k);
    *root = tree.root();
    u64::from(was)
}
