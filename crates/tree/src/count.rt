// What the shape of a tree says of its size. Each function's contract is a theorem.
ghost use Rattle.std.specs.Prelude.{◌≡◌, ℕ, ◌+◌, ◌*◌, ◌<◌, ◌≤◌, length, ◌≢◌};
ghost use Rattle.tree.specs.State.{PageState};
ghost use Rattle.tree.specs.Tree.{Sound, Once, occ, pairs_of_tree, pages_of_tree, Within, UpTree, Occupied};

/// A tree of n pairs has at most n / 84 + 1 nodes.
pub fn few_pages() -> u8
    ensures { (d : PageState) (height root : ℕ) → Sound d height root → 84 * length (pages_of_tree d.page height root) ≤ length (pairs_of_tree d.page height root) + 83 }
{
    0
}

/// A tree has at most as many nodes as there are pages.
pub fn few_nodes() -> u8
    ensures { (d : PageState) (height root n : ℕ) → Sound d height root → Once d → Within d n → length (pages_of_tree d.page height root) ≤ n }
{
    0
}

/// On at most 2^32 pages a tree has at most six levels.
pub fn low_trees() -> u8
    ensures { (d : PageState) (height root n : ℕ) → Sound d height root → Once d → Within d n → n ≤ 4294967296 → height ≤ 6 }
{
    0
}

/// The pages of a tree are distinct, and none of them is free.
pub fn own_pages() -> u8
    ensures { (d : PageState) (height root : ℕ) → Sound d height root → Once d → (q : ℕ) → (occ q (pages_of_tree d.page height root) ≤ 1) × (d.taken q ≡ 0 → occ q (pages_of_tree d.page height root) ≡ 0) }
{
    0
}

/// The keys of a tree rise, and are keys of 64 bits.
pub fn rising_keys() -> u8
    ensures { (d : PageState) (height root : ℕ) → Sound d height root → UpTree (pairs_of_tree d.page height root) }
{
    0
}

/// Every node but the root has 85 to 255 entries.
pub fn full_nodes() -> u8
    ensures { (d : PageState) (height root : ℕ) → Sound d height root → (q : ℕ) → 1 ≤ occ q (pages_of_tree d.page height root) → (q ≢ root) → Occupied (d.page q) }
{
    0
}
