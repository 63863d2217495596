// What deals see, scene by scene.
use crate::play::Play;
use crate::show::Stop;
use clerk::Clerk;

// Each clerk has one deal.
fn clerks() -> (Clerk, Clerk, Clerk) {
    (Clerk::new(0), Clerk::new(1), Clerk::new(2))
}

/// Key 0 and the last key are keys as any other: in own lines, in the queue, in the tree.
pub fn ends(rt: &HostRuntime, play: Play) -> Result<Play, Stop> {
    let (first, second, _) = clerks();
    play.put(first, 0, 7)
        .put(first, u64::MAX, 8)
        .show_at(rt, "own at 0", first, 0)?
        .show_above(rt, "own above 0", first, 0)?
        .commit(first)
        .show_at(rt, "queued at 0", second, 0)?
        .show_above(rt, "queued above 0", second, 0)?
        .work_all()?
        .show_above(rt, "in the tree above 0", second, 0)?
        .show_above(rt, "above the last key", second, u64::MAX)
}

/// The last key and then key 0 are dropped, and taken out.
pub fn ends_go(rt: &HostRuntime, play: Play) -> Result<Play, Stop> {
    let (_, second, third) = clerks();
    play.drop_key(second, u64::MAX)?
        .show_above(rt, "above 0, the last key dropped", second, 0)?
        .show_above(rt, "above 0 for another deal", third, 0)?
        .drop_key(second, 0)?
        .show_at(rt, "at 0, dropped", second, 0)?
        .commit(second)
        .work_all()?
        .show_at(rt, "at 0, taken out", third, 0)
}

/// One key, put and dropped by turns in the tree, the queue and own lines.
pub fn turns(rt: &HostRuntime, play: Play) -> Result<Play, Stop> {
    let (first, second, third) = clerks();
    play.put(first, 5, 1)
        .commit(first)
        .work_all()?
        .drop_key(first, 5)?
        .commit(first)
        .show_at(rt, "at 5, dropped in the queue", second, 5)?
        .put(second, 5, 2)
        .show_at(rt, "at 5, put again", second, 5)?
        .drop_key(second, 5)?
        .show_at(rt, "at 5, dropped again", second, 5)?
        .put(second, 5, 3)
        .show_above(rt, "above 4, put once more", second, 4)?
        .show_at(rt, "at 5 for another deal", third, 5)
}

/// That deal is made; the key is as it left it, in the queue and in the tree.
pub fn turns_made(rt: &HostRuntime, play: Play) -> Result<Play, Stop> {
    let (_, second, third) = clerks();
    play.commit(second)
        .show_at(rt, "at 5, made", third, 5)?
        .work_all()?
        .show_at(rt, "at 5, in the tree", third, 5)
}

/// A thousand keys in a row are dropped; the next key lies behind them.
pub fn row(rt: &HostRuntime, play: Play) -> Result<Play, Stop> {
    let (first, second, third) = clerks();
    play.put_row(first, 1000)
        .work_all()?
        .put(first, 2000, 9)
        .commit(first)
        .drop_row(second, 1000)?
        .show_above(rt, "behind a thousand own drops", second, 0)?
        .show_above(rt, "for another deal", third, 0)?
        .commit(second)
        .show_above(rt, "behind a thousand queued drops", third, 0)?
        .work_all()?
        .show_above(rt, "taken out of the tree", third, 0)
}
