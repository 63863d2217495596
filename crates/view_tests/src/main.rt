// Deals that see their own lines, the queue and the tree: played on an index in memory.
#![tactic(auto)]

mod pairs;
mod places;
mod play;
mod scenes;
mod show;

use play::Play;
use show::Stop;
use std::io;

fn play_all(rt: &HostRuntime) -> Result<(), Stop> {
    let play = Play::new(rt.alloc())?;
    let play = scenes::ends(rt, play)?;
    let play = scenes::ends_go(rt, play)?;
    let play = scenes::turns(rt, play)?;
    let play = scenes::turns_made(rt, play)?;
    scenes::row(rt, play)?;
    Ok(())
}

fn main(rt: HostRuntime) -> io::Result<()> {
    match play_all(&rt) {
        Ok(()) => Ok(()),
        Err(_) => println!(rt; "stopped"),
    }
}
