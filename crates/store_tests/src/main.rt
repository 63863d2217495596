// The store on a disk in memory, with a power cut at each asking of a row of acts.
#![tactic(auto)]

mod act;
mod acts;
mod bench;
mod book;
mod play;
mod row;
mod stop;
mod tally;
mod trial;

use row::row;
use std::io;
use stop::Stop;
use tally::{Trials, try_all};
use trial::Ground;

fn run(rt: &HostRuntime) -> Result<(), Stop> {
    let alloc = rt.alloc();
    let acts = row(alloc)?;
    let mut ground = Ground::new(alloc)?;
    let mut trials = Trials {
        ground: &mut ground,
        acts: acts.as_slice(),
        alloc,
    };
    let tally = try_all(&mut trials)?;
    println!(rt; "askings of the row: {}", tally.askings)?;
    println!(rt; "cuts twice, the second while coming up: {}", tally.twice)?;
    println!(rt; "in acts that make nothing last: {}", tally.same)?;
    println!(rt;
        "in others, and the state before was left: {}",
        tally.before
    )?;
    println!(rt; "in others, and the state after was left: {}", tally.after)?;
    Ok(())
}

fn main(rt: HostRuntime) -> io::Result<()> {
    match run(&rt) {
        Ok(()) => Ok(()),
        Err(stop) => println!(rt; "stopped: {stop:?}"),
    }
}
