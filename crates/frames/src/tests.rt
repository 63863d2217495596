// Which frames leave, and which stay.
ghost use Rattle.std.specs.Prelude.{◌≡◌, ◌<◌, IfSome};
ghost use Rattle.frames.specs.Frames.{Sound, Stands, pins_in};
ghost use Rattle.frames.specs.Layout.{cache_of};
ghost use Rattle.frames.specs.Changes.{cache_in, SameLoan};

use super::*;
use std::test::Fail;

// Brings page p in, where it isn't there yet.
fn fetch(frames: &mut FramesMut<'_>, p: u64) -> Option<Slot>
    requires { 0 < p }
    ensures stands { IfSome result (Stands (cache_in frames.new) p) }
    ensures named { SameLoan frames.old frames.new }
{
    let there = frames.look().find(p);
    if there.is_some() {
        return there;
    }
    let slot = frames.look().victim()?;
    frames.fill(slot, p, &[p; PAGE_WORDS]);
    Some(slot)
}

// Brings pages first..last in, one after the other.
fn fetch_all(frames: &mut FramesMut<'_>, first: u64, last: u64)
    requires { 0 < first }
{
    // The number is a page that is asked for, and no index.
    for p in first..last {
        let _ = fetch(frames, p);
    }
}

// Brings page p in and changes its words, where the batch has room.
fn fetch_changed(frames: &mut FramesMut<'_>, p: u64) -> Option<Slot>
    requires { 0 < p }
{
    let slot = fetch(frames, p)?;
    if frames.look().batch_len() < BATCH {
        frames.change(slot, &[9; PAGE_WORDS]);
    }
    Some(slot)
}

// Leaves early while a frame is held, or not: the pin is given back, and the cache is what it was. No test calls it: it's here to be proved.
fn peek(part: &mut [u64], slot: Slot, wanted: u64) -> Result<u64, Fail>
    requires { (Sound part.old) × (pins_in (cache_of part.old) slot ≡ 0) }
    ensures { cache_of part.new ≡ cache_of part.old }
{
    let mut words = [0; PAGE_WORDS];
    let held = pin(part, slot);
    held.read(&mut words);
    same(words[0], wanted)?;
    Ok(words[1])
}

fn same(found: u64, wanted: u64) -> Result<(), Fail> {
    if found == wanted {
        Ok(())
    } else {
        Err(Fail::new("another page's words"))
    }
}

#[test]
fn first_in_first_out(rt: HostRuntime) {
    let mut part = [7; PART_WORDS];
    let mut frames = FramesMut::reset(part.as_mut_slice());
    fetch_all(&mut frames, 1, 121);
    assert!(rt; frames.look().find(1).is_some(), "120 pages fit");
    fetch_all(&mut frames, 121, 123);
    assert!(rt; frames.look().find(1).is_none(), "the first leaves first");
    assert!(rt; frames.look().find(2).is_none(), "then the second");
    assert!(rt; frames.look().find(3).is_some(), "the third is next");
}

#[test]
fn changed_and_pinned_stay(rt: HostRuntime) {
    let mut part = [7; PART_WORDS];
    let mut frames = FramesMut::reset(part.as_mut_slice());
    let _ = fetch_changed(&mut frames, 5);
    if let Some(slot) = fetch(&mut frames, 6) {
        if frames.look().pins(slot) == 0 {
            frames.hold(slot);
        }
    }
    fetch_all(&mut frames, 7, 400);
    assert!(rt; frames.look().find(5).is_some(), "a changed page stays");
    assert!(rt; frames.look().find(6).is_some(), "a pinned page stays");
    assert!(rt; frames.look().find(7).is_none(), "others leave");
    frames.settle();
    assert!(rt;
        frames.look().batch_len() == 0,
        "nothing is changed any more"
    );
    fetch_all(&mut frames, 400, 600);
    assert!(rt; frames.look().find(5).is_none(), "so it leaves too");
}

#[test]
fn a_full_batch(rt: HostRuntime) -> Result<(), Fail> {
    let mut part = [7; PART_WORDS];
    let mut frames = FramesMut::reset(part.as_mut_slice());
    // The number is a page that is asked for, and no index.
    for p in 1..70 {
        let _ = fetch_changed(&mut frames, p);
    }
    let changed = frames.look().batch_len();
    assert!(rt; changed == BATCH);
    assert_eq!(rt; frames.look().batch_page(0), 1);
    assert_eq!(rt; frames.look().batch_page(63), 64);
    assert!(rt; frames.look().victim().is_some(), "a frame can leave");
    Ok(())
}
