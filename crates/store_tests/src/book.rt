// What a store means, kept plainly in memory, and what each act does to it.
use crate::act::Act;
use crate::acts::DATA;
use crate::stop::Stop;
use pages::PAGE_WORDS;
use std::alloc::{AllocError, Global};
use store::head::{Record, Root};

/// So many data pages are looked at.
pub const SHEETS: u8 = 6;

/// A page whose words are all the same, but perhaps for the first.
#[derive(Clone, Copy, Debug, PartialEq, Eq)]
pub struct Sheet {
    pub first: u64,
    pub rest: u64,
}

impl Sheet {
    const BLANK: Sheet = Sheet { first: 0, rest: 0 };

    fn filled(word: u64) -> Sheet {
        Sheet {
            first: word,
            rest: word,
        }
    }

    /// None where the page isn't of this kind.
    pub fn of(words: &[u64; PAGE_WORDS]) -> Option<Sheet> {
        let (first, rest) = (words[0], words[1]);
        let is_sheet = words[1..].iter().all(|word| *word == rest);
        is_sheet.then_some(Sheet { first, rest })
    }
}

/// The root, the queue, and the first data pages.
#[derive(Debug, PartialEq, Drop)]
pub struct Book {
    pub root: Root,
    pub queue: Vec<Record>,
    pub sheets: Vec<Sheet>,
}

impl Book {
    /// Of a blank disk.
    pub fn new(alloc: Global) -> Result<Book, AllocError> {
        Ok(Book {
            root: Root {
                page: 0,
                height: 0,
                pairs: 0,
                free: 0,
                used: 0,
            },
            queue: Vec::new(alloc),
            sheets: vec![in alloc; Sheet::BLANK; SHEETS as usize]?,
        })
    }

    /// The same once more.
    pub fn copy(&self) -> Result<Book, AllocError> {
        Ok(Book {
            root: self.root,
            queue: self.queue.clone()?,
            sheets: self.sheets.clone()?,
        })
    }

    /// What a page of the disk holds, if it's looked at.
    pub fn sheet(&self, page: u64) -> Option<Sheet> {
        let place = page.checked_sub(DATA)?;
        self.sheets.get(place as usize).copied()
    }

    fn put(&mut self, page: u8, sheet: Sheet) {
        if let Some(place) = self.sheets.get_mut(page as usize) {
            *place = sheet;
        }
    }

    /// The page that is given next: the top of the free list, or the first that was never used.
    pub fn next_page(&self) -> u64 {
        match self.root.free {
            0 => DATA.saturating_add(self.root.used),
            top => top,
        }
    }

    fn root_at(&mut self, page: u64, height: u64, pairs: u64) {
        let Root { free, used, .. } = self.root;
        self.root = Root {
            page,
            height,
            pairs,
            free,
            used,
        };
    }

    fn give(&mut self) {
        match self.root.free {
            0 => self.root.used = self.root.used.saturating_add(1),
            top => self.root.free = self.sheet(top).map_or(0, |sheet| sheet.first),
        }
    }

    fn release(&mut self, page: u8) {
        let first = self.root.free;
        self.put(page, Sheet { first, rest: 0 });
        self.root.free = DATA + u64::from(page);
    }

    fn drop_front(&mut self, records: usize) {
        let records = records.min(self.queue.len());
        self.queue.drain(..records);
    }
}

/// What the disk means, what memory has beyond that, and how many records at the queue's front are worked in.
#[derive(Drop)]
pub struct Model {
    pub lasting: Book,
    pub now: Book,
    worked: usize,
}

impl Model {
    /// Of a store that has come up.
    pub fn of(book: Book) -> Result<Model, AllocError> {
        Ok(Model {
            now: book.copy()?,
            lasting: book,
            worked: 0,
        })
    }

    /// What the act does, where it is done.
    pub fn act(&mut self, act: Act) -> Result<(), Stop> {
        match act {
            Act::Append(item) => self.now.queue.push(item)?,
            Act::Seal => self.lasting.queue = self.now.queue.clone()?,
            Act::Take => {
                self.now.drop_front(self.worked);
                self.worked = 0;
                self.lasting = self.now.copy()?;
            }
            Act::Write { page, word } => self.now.put(page, Sheet::filled(word)),
            Act::Alloc => self.now.give(),
            Act::Release { page } => self.now.release(page),
            Act::Work { records } => self.worked = usize::from(records),
            Act::Root {
                page,
                height,
                pairs,
            } => self.now.root_at(page, height, pairs),
            Act::Restart { .. } => {
                self.now = self.lasting.copy()?;
                self.worked = 0;
            }
            Act::Image | Act::Read { .. } => {}
        }
        Ok(())
    }
}
