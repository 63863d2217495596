// A store of pages in memory over two lent slices, and a tree in it. It never fails.
#![tactic(auto)]

ghost use Rattle.std.specs.Prelude.{◌≡◌, ◌≢◌, ℕ, ◌+◌, ◌-◌, ◌*◌, ◌<◌, ◌≤◌, List, [], ◌∷◌, length, drop, slice_index, slice_set, MatchOption, EachIndex};
ghost use Rattle.pagemem.specs.Memory.{mark_of, free, state_of, Kept};

use pages::{Gone, page, put_page};
use tree::PageStore;

mod mem_tree;

pub use mem_tree::{MemTree, set_up};
pub use tree::TreeRoot;

// The marks: how many pages are free, then a mark for each page, 1 where it is taken. They are a lent part, which has no types of its own.
const FREE: usize = 0;

const FIRST: usize = 1;

// The first mark that is 0.
fn first_free(marks: &[u64]) -> Option<usize>
    ensures { MatchOption result (EachIndex marks.now (λ k. slice_index marks.now k ≢ 0)) (λ p. (p < length marks.now) × (slice_index marks.now p ≡ 0)) }
{
    marks.iter().position(|mark| *mark == 0)
}

// Takes a free page.
fn take_free(marks: &mut [u64]) -> u64
    requires { (0 < slice_index marks.old 0) × (slice_index marks.old 0 ≡ free (drop 1 marks.old)) }
    ensures near { result + 1 < length marks.old }
    ensures was { mark_of marks.old result ≡ 0 }
    ensures is { marks.new ≡ slice_set (slice_set marks.old (1 + result) 1) 0 (slice_index marks.old 0 - 1) }
{
    let p = first_free(&marks[FIRST..]).unwrap();
    let n = marks[FREE];
    marks[FIRST + p] = 1;
    marks[FREE] = n - 1;
    p as u64
}

// Gives page p back.
fn give_back(marks: &mut [u64], p: u64)
    requires { (p + 1 < length marks.old) × (slice_index marks.old 0 < length marks.old) }
    ensures { marks.new ≡ slice_set (slice_set marks.old (1 + p) 0) 0 (slice_index marks.old 0 + 1) }
{
    let n = marks[FREE];
    marks[FIRST + p as usize] = 0;
    marks[FREE] = n + 1;
}

/// Pages in two lent slices.
#[derive(Drop)]
pub struct PageMem<'a> {
    marks: &'a mut [u64],
    words: &'a mut [u64],
}

impl<'a> PageStore for PageMem<'a> {
    ghost state = { λ m. state_of m.marks.now m.words.now };

    ghost onto = { λ a ok b. Kept ok b.marks.now b.words.now };

    ghost tie = { λ m. m.marks.ghost_name ∷ m.words.ghost_name ∷ [] };

    fn read(&mut self, p: u64, into: &mut [u64]) -> Result<(), Gone> {
        // A part of a lent struct can be lent on only to be changed.
        let words = &mut *self.words;
        into.copy_from_slice(page(words, p as usize));
        Ok(())
    }

    fn write(&mut self, p: u64, from: &[u64]) -> Result<(), Gone> {
        put_page(self.words, p as usize, from);
        Ok(())
    }

    fn alloc(&mut self) -> Result<u64, Gone> {
        Ok(take_free(self.marks))
    }

    fn release(&mut self, p: u64) -> Result<(), Gone> {
        give_back(self.marks, p);
        Ok(())
    }
}
