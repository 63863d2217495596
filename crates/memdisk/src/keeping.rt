// What pages held before, and what a cut leaves of them.
ghost use Rattle.std.specs.Prelude.{◌≡◌, ℕ, ◌+◌, ◌%◌, ◌^◌, ◌<◌, ◌==◌, if◌then◌else◌, length, slice_index};
ghost use Rattle.pages.specs.Pages.{page_at, page_words, pages_in};
ghost use Rattle.memdisk.specs.Entries.{page_of};
ghost use Rattle.memdisk.specs.Mixing.{mix_of};
ghost use Rattle.memdisk.specs.Counts.{at_once, Counted};
ghost use Rattle.memdisk.specs.Memory.{chosen, Keeping};

use crate::MemDisk;
use crate::mix::mix;
use pages::{PAGE_WORDS, page, pages_in, put_page};

/// What a page held once.
#[derive(Clone, Copy, Debug, PartialEq, Eq)]
pub struct Entry {
    page: u64,
    words: [u64; PAGE_WORDS],
}

impl Entry {
    /// What to lend before anything is kept.
    pub const BLANK: Entry = Entry {
        page: 0,
        words: [0; PAGE_WORDS],
    };

    pub(crate) fn of(page: u64, held: &[u64]) -> Entry
        requires { length held.now ≡ page_words }
        ensures { result ≡ record { page = page; words = held.now } }
    {
        let mut words = [0; PAGE_WORDS];
        words.copy_from_slice(held);
        Entry { page, words }
    }
}

// For how many entries a pass over the table counts. Entries stand far apart, so that a look at one is dear, and is to
// serve many counts.
const AT_ONCE: usize = 128;

// For each of so many entries how many older ones are of its page, and how many of all.
#[derive(Clone, Copy)]
struct Counts {
    older: [u64; AT_ONCE],
    all: [u64; AT_ONCE],
}

// The pages that the entries from a place on are of. Past the last entry it is any page.
fn pages_from(entries: &[Entry], start: usize) -> [u64; AT_ONCE]
    ensures { (k : ℕ) → k < at_once → start + k < length entries.now → slice_index result k ≡ page_of entries.now (start + k) }
{
    let mut pages = [0; AT_ONCE];
    for k in 0..AT_ONCE {
        if k < entries.len().saturating_sub(start) {
            pages[k] = entries[start + k].page;
        }
    }
    pages
}

// One entry more, of page p. With no branch, so that many are counted by one step.
fn count(counts: &mut [u64; AT_ONCE], pages: &[u64; AT_ONCE], p: u64)
    requires { (k : ℕ) → k < at_once → slice_index counts.old k + 1 < 2 ^ 64 }
    ensures { (k : ℕ) → k < at_once → slice_index counts.new k ≡ slice_index counts.old k + (if p == slice_index pages.now k then 1 else 0) }
{
    for k in 0..AT_ONCE {
        counts[k] += u64::from(p == pages[k]);
    }
}

// The counts for the entries from a place on.
fn counts_from(entries: &[Entry], start: usize) -> Counts
    ensures { Counted entries.now start result }
{
    let pages = pages_from(entries, start);
    let mut older = [0; AT_ONCE];
    let mut all = [0; AT_ONCE];
    for (i, entry) in entries.iter().enumerate() {
        if start <= i && i - start < AT_ONCE {
            older[i - start] = all[i - start];
        }
        count(&mut all, &pages, entry.page);
    }
    Counts { older, all }
}

// Which of what may be left of page p is taken: 0 is what it shows, and its oldest entry is 1.
fn pick(choice: u64, p: u64, entries: u64) -> u64
    requires { entries + 1 < 2 ^ 64 }
    ensures { result ≡ mix_of choice p % (entries + 1) }
{
    mix(choice, p) % (entries + 1)
}

/// Makes of each page what the choice leaves of it. Only pages with entries can change.
pub fn leave(shown: &mut [u64], entries: &[Entry], choice: u64)
    ensures { (p : ℕ) → p < pages_in shown.old → page_at shown.new p ≡ chosen choice shown.old entries.now p }
{
    let mut counts = Counts {
        older: [0; AT_ONCE],
        all: [0; AT_ONCE],
    };
    for (i, entry) in entries.iter().enumerate() {
        if i % AT_ONCE == 0 {
            counts = counts_from(entries, i);
        }
        let p = entry.page as usize;
        let place = counts.older[i % AT_ONCE] + 1;
        if p < pages_in(shown) && place == pick(choice, entry.page, counts.all[i % AT_ONCE]) {
            put_page(shown, p, &entry.words);
        }
    }
}

impl<'a> MemDisk<'a> {
    // A full table is emptied first: all that is shown lasts then. Where there is no room at all nothing is kept.
    pub(crate) fn keep(&mut self, entry: Entry)
        ensures { Keeping self.old entry self.new }
    {
        if self.saved.is_full() {
            self.saved.clear();
        }
        let _ = self.saved.try_push(entry);
    }

    // What page p shows.
    pub(crate) fn look(&self, p: u64) -> &[u64]
        requires { p < pages_in self.now.shown.now }
        ensures words { result.now ≡ page_at self.now.shown.now p }
        ensures long { length result.now ≡ page_words }
    {
        page(self.shown, p as usize)
    }

    // Before a write to page p: what it shows now may still be left of it.
    pub(crate) fn keep_shown(&mut self, p: u64)
        requires { p < pages_in self.old.shown.now }
        ensures { Keeping self.old (record { page = p; words = page_at self.old.shown.now p }) self.new }
    {
        let entry = Entry::of(p, self.look(p));
        self.keep(entry);
    }
}
