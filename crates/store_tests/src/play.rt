// A row of acts is played on a bench and in a model.
use crate::act::Act;
use crate::acts::DATA;
use crate::bench::Bench;
use crate::book::{Book, Model, SHEETS, Sheet};
use crate::stop::Stop;
use pages::PAGE_WORDS;
use std::alloc::Global;

fn page_at(place: u8) -> u64 {
    DATA + u64::from(place)
}

fn same<T: PartialEq + Drop>(seen: T, said: T) -> Result<(), Stop> {
    if seen == said {
        Ok(())
    } else {
        Err(Stop::Wrong)
    }
}

// What an act tells is what the model says.
fn done(bench: &mut Bench<'_>, act: Act, model: &Model) -> Result<(), Stop> {
    match act {
        Act::Append(item) => bench.append(item),
        Act::Seal => bench.seal(),
        Act::Image => bench.image(),
        Act::Take => bench.take(),
        Act::Write { page, word } => bench.write(page_at(page), &[word; PAGE_WORDS]),
        Act::Read { page } => {
            let words = bench.read(page_at(page))?;
            same(Sheet::of(&words), model.now.sheet(page_at(page)))
        }
        Act::Alloc => same(bench.alloc()?, model.now.next_page()),
        Act::Release { page } => bench.release(page_at(page)),
        Act::Work { records } => {
            bench.work(u64::from(records));
            Ok(())
        }
        Act::Root {
            page,
            height,
            pairs,
        } => {
            bench.root_at(page, height, pairs);
            Ok(())
        }
        Act::Restart { choice } => {
            bench.set_cut(0, choice)?;
            bench.come_up()
        }
    }
}

/// Plays the row as far as the power lasts. Where it goes in an act, gives what the disk meant before that act; the model has done it then.
pub fn play(bench: &mut Bench<'_>, acts: &[Act], model: &mut Model) -> Result<Option<Book>, Stop> {
    for act in acts {
        match done(bench, *act, model) {
            Err(Stop::Gone) => {
                let before = model.lasting.copy()?;
                model.act(*act)?;
                return Ok(Some(before));
            }
            other => other?,
        }
        model.act(*act)?;
    }
    Ok(None)
}

/// What a store that has just come up means.
pub fn book_of(bench: &mut Bench<'_>, alloc: Global) -> Result<Book, Stop> {
    let root = bench.root();
    let queue = bench.queue(alloc)?;
    let mut sheets = Vec::new(alloc);
    for place in 0..SHEETS {
        let words = bench.read(page_at(place))?;
        sheets.push(Sheet::of(&words).ok_or(Stop::Wrong)?)?;
    }
    Ok(Book {
        root,
        queue,
        sheets,
    })
}
