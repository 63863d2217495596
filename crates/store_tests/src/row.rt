// The row of acts that is tried.
use crate::act::Act;
use std::alloc::{AllocFailed, Global};
use store::head::Record;

type Acts = Vec<Act>;

fn append(acts: &mut Acts, first: u64, end: u64) -> Result<(), AllocFailed<Act>> {
    // A key is a number, and no index.
    for key in first..end {
        acts.push(Act::Append(Record::Put { key, word: 1000 }))?;
    }
    Ok(())
}

fn add(acts: &mut Acts, more: &[Act]) -> Result<(), AllocFailed<Act>> {
    for act in more {
        acts.push(*act)?;
    }
    Ok(())
}

// Two pages and a root, imaged, and taken with the next seal's sync.
fn begin(acts: &mut Acts) -> Result<(), AllocFailed<Act>> {
    add(
        acts,
        &[
            Act::Restart { choice: 1 },
            Act::Alloc,
            Act::Alloc,
            Act::Write { page: 0, word: 11 },
            Act::Write { page: 1, word: 12 },
            Act::Root {
                page: 393,
                height: 1,
                pairs: 2,
            },
            Act::Append(Record::Put { key: 1, word: 2 }),
            Act::Append(Record::Drop { key: 1 }),
            Act::Seal,
            Act::Image,
            Act::Append(Record::Put { key: 3, word: 4 }),
            Act::Seal,
            Act::Take,
            Act::Read { page: 0 },
        ],
    )
}

// Records that fill pages of the ring.
fn fill(acts: &mut Acts) -> Result<(), AllocFailed<Act>> {
    append(acts, 10, 140)?;
    add(acts, &[Act::Seal, Act::Restart { choice: 2 }])?;
    append(acts, 140, 400)?;
    add(acts, &[Act::Seal])
}

// A batch that is taken right after it was imaged, with pages of the ring that haven't lasted, and records that are done.
fn take(acts: &mut Acts) -> Result<(), AllocFailed<Act>> {
    add(
        acts,
        &[
            Act::Write { page: 0, word: 21 },
            Act::Alloc,
            Act::Write { page: 2, word: 23 },
            Act::Root {
                page: 395,
                height: 2,
                pairs: 9,
            },
            Act::Work { records: 5 },
        ],
    )?;
    append(acts, 400, 530)?;
    add(acts, &[Act::Image, Act::Take, Act::Read { page: 2 }])
}

// Pages of the ring that are wholly done, and a page that is given back.
fn give_back(acts: &mut Acts) -> Result<(), AllocFailed<Act>> {
    add(
        acts,
        &[
            Act::Write { page: 1, word: 31 },
            Act::Release { page: 2 },
            Act::Release { page: 0 },
            Act::Work { records: 300 },
            Act::Image,
            Act::Append(Record::Drop { key: 7 }),
            Act::Seal,
            Act::Take,
            Act::Restart { choice: 3 },
            Act::Alloc,
            Act::Write { page: 0, word: 41 },
            Act::Work { records: 60 },
            Act::Image,
            Act::Take,
            Act::Alloc,
            Act::Alloc,
            Act::Write { page: 3, word: 51 },
            Act::Image,
            Act::Take,
            Act::Append(Record::Put { key: 8, word: 9 }),
            Act::Seal,
        ],
    )
}

/// All of it.
pub fn row(alloc: Global) -> Result<Acts, AllocFailed<Act>> {
    let mut acts = Vec::new(alloc);
    begin(&mut acts)?;
    fill(&mut acts)?;
    take(&mut acts)?;
    give_back(&mut acts)?;
    Ok(acts)
}
