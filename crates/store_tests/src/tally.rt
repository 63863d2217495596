// All trials of a row, counted.
use crate::act::Act;
use crate::stop::Stop;
use crate::trial::{Ground, Outcome, Plan, trial};
use std::alloc::Global;

// So many choices are tried for each cut.
const CHOICES: u64 = 4;

// More askings than a row takes.
const ASKINGS: u64 = 10000;

/// How many askings the row has, how many trials had a second cut, and what was left, by kind of the act that was cut.
#[derive(Clone, Copy, Debug)]
pub struct Tally {
    pub askings: u64,
    pub twice: u64,
    pub same: u64,
    pub before: u64,
    pub after: u64,
}

impl Tally {
    const NONE: Tally = Tally {
        askings: 0,
        twice: 0,
        same: 0,
        before: 0,
        after: 0,
    };

    fn count(&mut self, outcome: Outcome) {
        let counted = match outcome {
            Outcome::Done | Outcome::Missed => return,
            Outcome::Same => &mut self.same,
            Outcome::Before => &mut self.before,
            Outcome::After => &mut self.after,
        };
        *counted = counted.saturating_add(1);
    }
}

/// A row, and what its trials need.
#[derive(Drop)]
pub struct Trials<'a> {
    pub ground: &'a mut Ground,
    pub acts: &'a [Act],
    pub alloc: Global,
}

// Each second cut, until the store comes up before it.
fn cut_twice(trials: &mut Trials<'_>, tally: &mut Tally, plan: Plan) -> Result<(), Stop> {
    for again in 1..ASKINGS {
        let plan = Plan {
            again: Some(again),
            ..plan
        };
        let outcome = trial(trials.ground, trials.alloc, trials.acts, plan)?;
        if outcome == Outcome::Missed {
            return Ok(());
        }
        tally.twice = tally.twice.saturating_add(1);
        tally.count(outcome);
    }
    Err(Stop::NotNow)
}

// Whether the row has so many askings.
fn cut_at(trials: &mut Trials<'_>, tally: &mut Tally, cut: u64) -> Result<bool, Stop> {
    for choice in 0..CHOICES {
        let plan = Plan {
            cut,
            choice,
            again: None,
        };
        let outcome = trial(trials.ground, trials.alloc, trials.acts, plan)?;
        if outcome == Outcome::Done {
            return Ok(false);
        }
        tally.count(outcome);
        cut_twice(trials, tally, plan)?;
    }
    Ok(true)
}

/// A cut at each asking of the row.
pub fn try_all(trials: &mut Trials<'_>) -> Result<Tally, Stop> {
    let mut tally = Tally::NONE;
    for cut in 1..ASKINGS {
        if !cut_at(trials, &mut tally, cut)? {
            return Ok(tally);
        }
        tally.askings = cut;
    }
    Err(Stop::NotNow)
}
