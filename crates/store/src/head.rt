// The layout of the head and of its records: the one place that knows where a word stands.
ghost use Rattle.std.specs.Prelude.{◌≡◌, ◌+◌, ◌-◌, ◌*◌, ◌%◌, ◌<◌, ◌≤◌, length, slice_index, [], ◌∷◌};
ghost use Rattle.store.specs.Head.{record_of, words_of, record_at, put_record, head_of, joined, turned, stamped, ring_page, begun, aimed, rooted, freed, slot_in, target as target_of};

use std::marker::Model;

/// The tree's root page, its height and number of pairs, the top of the free list, and how many data pages were ever used. An empty free
/// list has 0 for its top, as the last page of one has for the page below it.
#[derive(Clone, Copy, Debug, PartialEq, Eq)]
pub struct Root {
    pub page: u64,
    pub height: u64,
    pub pairs: u64,
    pub free: u64,
    pub used: u64,
}

/// What a queue has to be done: a word put under a key, or a key dropped.
#[derive(Clone, Copy, Debug, PartialEq, Eq)]
pub enum Record {
    Put { key: u64, word: u64 },
    Drop { key: u64 },
}

const FORMAT: usize = 0;

const REGION: usize = 1;

const COUNT: usize = 2;

const TARGETS: usize = 3;

const ROOT_PAGE: usize = 67;

const ROOT_HEIGHT: usize = 68;

const ROOT_PAIRS: usize = 69;

const ROOT_FREE: usize = 70;

const ROOT_USED: usize = 71;

const FIRST: usize = 72;

const FULL: usize = 73;

const DONE: usize = 74;

const OWN: usize = 75;

// Where a page's records begin. That this is as many as `PER_PAGE` is chance.
const RECORDS: usize = 128;

// The tags of records, which a page's words have in place of a type. Only the two conversions below know them.
const TAG_PUT: u64 = 1;

const TAG_DROP: u64 = 2;

const THIS_FORMAT: u64 = 1;

// Where the regions of slots begin, and how many slots each has.
const SLOTS: u64 = 1;

const BATCH: u64 = frames::BATCH as u64;

// Where the ring begins, and how many pages it has.
const RING: u64 = 129;

const RING_PAGES: u64 = 264;

/// As many records stand on a page.
pub const PER_PAGE: u64 = 128;

impl From<[u64; 3]> for Record {
    ghost from_gives = { λ w r. r ≡ record_of (slice_index w 0) (slice_index w 1) (slice_index w 2) };

    fn from([tag, key, word]: [u64; 3]) -> Record {
        match tag {
            TAG_DROP => Record::Drop { key },
            _ => Record::Put { key, word },
        }
    }
}

impl From<Record> for [u64; 3] {
    ghost from_gives = { λ r w. w ≡ words_of r };

    fn from(item: Record) -> [u64; 3] {
        match item {
            Record::Put { key, word } => [TAG_PUT, key, word],
            Record::Drop { key } => [TAG_DROP, key, 0],
        }
    }
}

/// Record j of a page, the head or one of the ring.
pub fn record_at(page: &[u64], j: usize) -> Record
    requires { (length page.now ≡ 512) × (j < 128) }
    ensures { result ≡ record_at page.now j }
{
    let at = RECORDS + 3 * j;
    Record::from([page[at], page[at + 1], page[at + 2]])
}

fn put_record(page: &mut [u64], j: usize, item: Record)
    requires { (length page.old ≡ 512) × (j < 128) }
    ensures { page.new ≡ put_record page.old j item }
{
    let at = RECORDS + 3 * j;
    // Word by word, as the specs have it: of a copy of all three it would first have to be shown that it's the same.
    let [tag, key, word] = <[u64; 3]>::from(item);
    page[at] = tag;
    page[at + 1] = key;
    page[at + 2] = word;
}

/// The page of slot k of a region.
pub fn slot_in(region: u64, k: u64) -> u64
    requires { (region ≤ 1) × (k < 64) }
    ensures { result ≡ slot_in region k }
{
    SLOTS + BATCH * region + k
}

/// A page that is read as a head. Clauses see what it says.
#[derive(Drop)]
pub struct HeadPage<'a> {
    words: &'a [u64],
}

impl<'a> Model for HeadPage<'a> {
    ghost use Rattle.std.specs.Prelude.{◌≡◌, length};
    ghost use Rattle.store.specs.Head.{Head, head_of};

    ghost Value = { Head };

    ghost view = { λ h. head_of h.words.now };

    ghost invariant = { λ h. length h.words.now ≡ 512 };
}

impl<'a> HeadPage<'a> {
    /// Any page can be read as a head.
    pub fn new(words: &'a [u64]) -> HeadPage<'a>
        requires { length words.now ≡ 512 }
        ensures { result ≡ head_of words.now }
    {
        HeadPage { words }
    }

    /// The region of the last batch.
    pub fn region(&self) -> u64
        ensures { result ≡ self.now.region }
    {
        self.words[REGION]
    }

    // Words that were never a head may name more targets than there is room for, so these two ask that they don't, and `new` doesn't.

    /// How many pages the last batch has.
    pub fn batch_len(&self) -> u64
        requires { length self.now.targets ≤ 64 }
        ensures { result ≡ length self.now.targets }
    {
        self.words[COUNT]
    }

    /// Where page k of the last batch belongs.
    pub fn target(&self, k: u64) -> u64
        requires few { length self.now.targets ≤ 64 }
        requires named { k < length self.now.targets }
        ensures { result ≡ target_of self.now k }
    {
        self.words[TARGETS + k as usize]
    }

    /// The root that goes with the last batch.
    pub fn root(&self) -> Root
        ensures { result ≡ self.now.root }
    {
        Root {
            page: self.words[ROOT_PAGE],
            height: self.words[ROOT_HEIGHT],
            pairs: self.words[ROOT_PAIRS],
            free: self.words[ROOT_FREE],
            used: self.words[ROOT_USED],
        }
    }

    /// How many records stand in the head itself.
    pub fn own(&self) -> u64
        ensures { result ≡ length self.now.own }
    {
        self.words[OWN]
    }

    /// How many full pages of the ring there are.
    pub fn full(&self) -> u64
        ensures { result ≡ self.now.full }
    {
        self.words[FULL]
    }

    /// How many records at the queue's front are done.
    pub fn done(&self) -> u64
        ensures { result ≡ self.now.done }
    {
        self.words[DONE]
    }

    /// Page i of the ring, from the first full one on.
    pub fn ring_page(&self, i: u64) -> u64
        requires { (self.now.first < 264) × (i < 264) }
        ensures { result ≡ ring_page self.now i }
    {
        RING + (self.words[FIRST] + i) % RING_PAGES
    }
}

/// A head that is changed. Its batch has no more pages than there are slots in a region.
#[derive(Drop)]
pub struct HeadPageMut<'a> {
    words: &'a mut [u64],
    ghost long: { length words.now ≡ 512 },
    ghost few: { length (head_of words.now).targets ≤ 64 },
}

// Each method that changes says by `named` that the same words stay lent, or their lender wouldn't know what they end as.
impl<'a> HeadPageMut<'a> {
    ghost use Rattle.store.specs.HeadPages.{head_in, SameHeadLoan};

    /// A page that is changed as a head.
    pub fn new(words: &'a mut [u64]) -> HeadPageMut<'a>
        requires long { length words.old ≡ 512 }
        requires few { length (head_of words.old).targets ≤ 64 }
        ensures same { result.words.now ≡ words.old }
        ensures named { result.words.ghost_name ≡ words.entry.ghost_name }
    {
        HeadPageMut { words }
    }

    /// The record joins the head's own.
    pub fn join(&mut self, item: Record)
        requires room { length (head_in self.old).own < 128 }
        ensures head { head_in self.new ≡ joined item (head_in self.old) }
        ensures named { SameHeadLoan self.old self.new }
    {
        let head = &mut *self.words;
        let n = head[OWN];
        put_record(head, n as usize, item);
        head[OWN] = n + 1;
    }

    /// The head's own records now stand in a page of the ring.
    pub fn turn(&mut self)
        requires room { (head_in self.old).full < 264 }
        ensures head { head_in self.new ≡ turned (head_in self.old) }
        ensures named { SameHeadLoan self.old self.new }
    {
        let head = &mut *self.words;
        head[FULL] += 1;
        head[OWN] = 0;
    }

    /// The head has the format number of this layout.
    pub fn stamp(&mut self)
        ensures head { head_in self.new ≡ stamped (head_in self.old) }
        ensures named { SameHeadLoan self.old self.new }
    {
        self.words[FORMAT] = THIS_FORMAT;
    }

    /// A batch begins, in the other region.
    pub fn begin_batch(&mut self)
        requires side { (head_in self.old).region ≤ 1 }
        ensures head { head_in self.new ≡ begun (head_in self.old) }
        ensures named { SameHeadLoan self.old self.new }
    {
        let head = &mut *self.words;
        head[REGION] = 1 - head[REGION];
        head[COUNT] = 0;
    }

    /// The batch has a target more.
    pub fn push_target(&mut self, page: u64)
        requires room { length (head_in self.old).targets < 64 }
        ensures head { head_in self.new ≡ aimed page (head_in self.old) }
        ensures named { SameHeadLoan self.old self.new }
    {
        let head = &mut *self.words;
        let n = head[COUNT];
        head[TARGETS + n as usize] = page;
        head[COUNT] = n + 1;
    }

    // Word by word, since each has a name in the layout; an array of five would hide which is which.
    fn put_root(&mut self, root: Root)
        ensures head { head_in self.new ≡ rooted root (head_in self.old) }
        ensures named { SameHeadLoan self.old self.new }
    {
        let head = &mut *self.words;
        head[ROOT_PAGE] = root.page;
        head[ROOT_HEIGHT] = root.height;
        head[ROOT_PAIRS] = root.pairs;
        head[ROOT_FREE] = root.free;
        head[ROOT_USED] = root.used;
    }

    // So many records more are done, and the pages of the ring that are wholly done are free.
    fn free_done(&mut self, worked: u64)
        requires ring { ((head_in self.old).first < 264) × (((head_in self.old).full < 264) × ((head_in self.old).done + worked < 65536)) }
        ensures head { head_in self.new ≡ freed worked (head_in self.old) }
        ensures named { SameHeadLoan self.old self.new }
    {
        let head = &mut *self.words;
        let first = head[FIRST];
        let full = head[FULL];
        let done = head[DONE] + worked;
        let whole = (done / PER_PAGE).min(full);
        head[FIRST] = (first + whole) % RING_PAGES;
        head[FULL] = full - whole;
        head[DONE] = done - whole * PER_PAGE;
    }

    /// The root that a batch makes, and the records that it did.
    pub fn put_work(&mut self, root: Root, worked: u64)
        requires ring { ((head_in self.old).first < 264) × (((head_in self.old).full < 264) × ((head_in self.old).done + worked < 65536)) }
        ensures head { head_in self.new ≡ freed worked (rooted root (head_in self.old)) }
        ensures named { SameHeadLoan self.old self.new }
    {
        self.put_root(root);
        self.free_done(worked);
    }
}
