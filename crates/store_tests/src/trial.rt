// One trial: a row of acts until a cut, and what comes back.
use crate::act::Act;
use crate::bench::Bench;
use crate::book::{Book, Model};
use crate::play::{book_of, play};
use crate::stop::Stop;
use memdisk::{Due, Entry, MemDisk};
use pages::{PAGE_WORDS, pages_in};
use std::alloc::{AllocError, Global};
use store::PART_WORDS;
use store::head::Record;

const PAGES: usize = 1024;

// More pages than are written between two syncs, so that no entry is lost.
const ENTRIES: usize = 256;

/// What is lent to the disks of the trials, one after the other.
#[derive(Drop)]
pub struct Ground {
    shown: Vec<u64>,
    saved: Vec<Entry>,
    cuts: Vec<Due>,
}

impl Ground {
    /// For disks of so many pages and entries, on which two cuts can be set.
    pub fn new(alloc: Global) -> Result<Ground, AllocError> {
        Ok(Ground {
            shown: vec![in alloc; 0; PAGES * PAGE_WORDS]?,
            saved: vec![in alloc; Entry::BLANK; ENTRIES]?,
            cuts: vec![in alloc; Due::BLANK; 2]?,
        })
    }
}

/// The power goes at this asking, with a choice of what that leaves, and perhaps once more while the store comes up.
#[derive(Clone, Copy, Debug)]
pub struct Plan {
    pub cut: u64,
    pub choice: u64,
    pub again: Option<u64>,
}

/// `Done`: the row came to its end first. `Missed`: the store came up before the second cut. `Same`: the act that was cut makes nothing last.
#[derive(Clone, Copy, Debug, PartialEq, Eq)]
pub enum Outcome {
    Done,
    Missed,
    Same,
    Before,
    After,
}

fn judge(before: &Book, after: &Book, seen: &Book) -> Result<Outcome, Stop> {
    match (seen == before, seen == after) {
        (true, true) => Ok(Outcome::Same),
        (true, false) => Ok(Outcome::Before),
        (false, true) => Ok(Outcome::After),
        (false, false) => Err(Stop::Wrong),
    }
}

// Whether the store has come up, after the second cut if there is to be one.
fn come_back(bench: &mut Bench<'_>, plan: Plan) -> Result<bool, Stop> {
    if let Some(again) = plan.again {
        bench.set_cut(again, plan.choice.wrapping_add(1))?;
        match bench.come_up() {
            Ok(()) => return Ok(false),
            Err(Stop::Gone) => {}
            Err(stop) => return Err(stop),
        }
    }
    bench.come_up()?;
    Ok(true)
}

// The store that came up comes up once more and means the same, and what it seals lasts.
fn go_on(bench: &mut Bench<'_>, seen: Book, choice: u64, alloc: Global) -> Result<(), Stop> {
    let mut model = Model::of(seen)?;
    let acts = [
        Act::Restart { choice },
        Act::Append(Record::Drop { key: choice }),
        Act::Seal,
        Act::Restart { choice },
    ];
    match play(bench, &acts, &mut model)? {
        None if book_of(bench, alloc)? == model.lasting => Ok(()),
        _ => Err(Stop::Wrong),
    }
}

/// A row of acts on a blank disk, with the cuts of the plan.
pub fn trial(
    ground: &mut Ground,
    alloc: Global,
    acts: &[Act],
    plan: Plan,
) -> Result<Outcome, Stop> {
    let Ground { shown, saved, cuts } = ground;
    let shown = shown.as_mut_slice();
    if pages_in(shown) != PAGES {
        return Err(Stop::NotNow);
    }
    let disk = MemDisk::new(shown, saved.as_mut_slice(), cuts.as_mut_slice());
    let mut part = [0; PART_WORDS];
    let mut bench = Bench::new(disk, &mut part);
    bench.set_cut(plan.cut, plan.choice)?;
    let mut model = Model::of(Book::new(alloc)?)?;
    let Some(before) = play(&mut bench, acts, &mut model)? else {
        return Ok(Outcome::Done);
    };
    if !come_back(&mut bench, plan)? {
        return Ok(Outcome::Missed);
    }
    let seen = book_of(&mut bench, alloc)?;
    let outcome = judge(&before, &model.lasting, &seen)?;
    go_on(&mut bench, seen, plan.choice, alloc)?;
    Ok(outcome)
}
