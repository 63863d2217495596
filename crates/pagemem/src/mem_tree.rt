// A tree in lent memory.
ghost use Rattle.std.specs.Prelude.{◌≡◌, ℕ, ◌+◌, ◌-◌, ◌*◌, ◌<◌, ◌≤◌, [], not, length, is_some, MatchOption, slice_index};
ghost use Rattle.node.specs.Pairs.{find, above, put_in, drop_in};
ghost use Rattle.pages.specs.Pages.{page_words};
ghost use Rattle.pagemem.specs.Memory.{Good, pairs_in};
ghost use Rattle.pagemem.specs.MemTree.{IsUsable, pairs, free_pages, StandsIn};

use crate::{FIRST, FREE, PageMem};
use node::Entry;
use tree::TreeRoot;

/// Marks every page free: a store of as many pages as there are marks but the first, with an empty tree.
pub fn set_up(marks: &mut [u64], words: &[u64]) -> TreeRoot
    requires { (0 < length marks.old) × ((length marks.old ≤ 4294967297) × (page_words * (length marks.old - 1) ≤ length words.now)) }
    ensures good { Good marks.new words.now result }
    ensures empty { pairs_in words.now result ≡ [] }
    ensures room { slice_index marks.new 0 ≡ length marks.old - 1 }
{
    marks.fill(0);
    marks[FREE] = (marks.len() - FIRST) as u64;
    TreeRoot { page: 0, height: 0 }
}

/// A tree with the marks and the words that it stands in. That it is usable stands in the clauses: a ghost field for it owes its proof where the store of pages made of both parts ends,
/// and there the check doesn't know what the parts hold then (the goal that stayed open is `invariant_of-self`, in all four calls).
#[derive(Drop)]
pub struct MemTree<'a, 'b> {
    marks: &'a mut [u64],
    words: &'b mut [u64],
    root: TreeRoot,
}

impl<'a, 'b> MemTree<'a, 'b> {
    /// The tree that stands in the slices at the root.
    pub fn open(marks: &'a mut [u64], words: &'b mut [u64], root: TreeRoot) -> MemTree<'a, 'b>
        requires { Good marks.old words.old root }
        ensures is { StandsIn result marks.old words.old root }
        ensures lends_marks { result.marks.ghost_name ≡ marks.entry.ghost_name }
        ensures lends_words { result.words.ghost_name ≡ words.entry.ghost_name }
    {
        MemTree { marks, words, root }
    }

    /// Where the tree stands.
    pub fn root(&self) -> TreeRoot
        ensures { result ≡ self.now.root }
    {
        self.root
    }

    /// How many pages are free.
    pub fn free_pages(&self) -> u64
        requires { IsUsable self.now }
        ensures { result ≡ free_pages self.now }
    {
        self.marks[FREE]
    }

    // Each call below makes the store of pages anew: a function that lent both parts out of `&mut self` would not be known to give them back.

    /// The word at k.
    pub fn get(&mut self, k: u64) -> Option<u64>
        requires { IsUsable self.old }
        ensures got { result ≡ find k (pairs self.old) }
        ensures usable { IsUsable self.new }
        ensures same { (pairs self.new ≡ pairs self.old) × (self.new.root ≡ self.old.root) }
        ensures lends_marks { self.new.marks.ghost_name ≡ self.old.marks.ghost_name }
        ensures lends_words { self.new.words.ghost_name ≡ self.old.words.ghost_name }
    {
        let mut mem = PageMem {
            marks: &mut *self.marks,
            words: &mut *self.words,
        };
        self.root.get(&mut mem, k).unwrap()
    }

    /// The first pair with a key above k.
    pub fn next(&mut self, k: u64) -> Option<Entry>
        requires { IsUsable self.old }
        ensures got { result ≡ above k (pairs self.old) }
        ensures usable { IsUsable self.new }
        ensures same { (pairs self.new ≡ pairs self.old) × (self.new.root ≡ self.old.root) }
        ensures lends_marks { self.new.marks.ghost_name ≡ self.old.marks.ghost_name }
        ensures lends_words { self.new.words.ghost_name ≡ self.old.words.ghost_name }
    {
        let mut mem = PageMem {
            marks: &mut *self.marks,
            words: &mut *self.words,
        };
        self.root.next(&mut mem, k).unwrap()
    }

    /// Puts the pair (k, x), unless fewer pages are free than the put could take; whether the key is new.
    pub fn put(&mut self, k: u64, x: u64) -> Option<bool>
        requires { IsUsable self.old }
        ensures usable { IsUsable self.new }
        ensures done { MatchOption result ((free_pages self.old ≤ self.old.root.height) × (self.new.root ≡ self.old.root) × (pairs self.new ≡ pairs self.old)) (λ new. (pairs self.new ≡ put_in k x (pairs self.old)) × (new ≡ not (is_some (find k (pairs self.old))))) }
        ensures lends_marks { self.new.marks.ghost_name ≡ self.old.marks.ghost_name }
        ensures lends_words { self.new.words.ghost_name ≡ self.old.words.ghost_name }
    {
        if self.free_pages() <= self.root.height {
            return None;
        }
        let mut mem = PageMem {
            marks: &mut *self.marks,
            words: &mut *self.words,
        };
        Some(self.root.put(&mut mem, k, x).unwrap())
    }

    /// Drops the pair at k; whether it was there.
    pub fn drop(&mut self, k: u64) -> bool
        requires { IsUsable self.old }
        ensures usable { IsUsable self.new }
        ensures pairs { pairs self.new ≡ drop_in k (pairs self.old) }
        ensures was { result ≡ is_some (find k (pairs self.old)) }
        ensures lends_marks { self.new.marks.ghost_name ≡ self.old.marks.ghost_name }
        ensures lends_words { self.new.words.ghost_name ≡ self.old.words.ghost_name }
    {
        let mut mem = PageMem {
            marks: &mut *self.marks,
            words: &mut *self.words,
        };
        self.root.drop(&mut mem, k).unwrap()
    }
}
