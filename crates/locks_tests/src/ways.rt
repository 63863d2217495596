// Each kind of line beside each kind of asking.
use lines::line::Line;
use lines::marks::go_back;
use lines::ring::Ring;
use locks::way::{Want, in_way, is_in_way};
use std::process::Abort;

// Is the line in the way of a look at 5, of a write at 5, and of a Next from 3 that finds 5.
fn bars(rt: &impl Abort, line: Line, look: bool, write: bool, scan: bool) {
    assert_eq!(rt; is_in_way(line, Want::Nothing), false);
    assert_eq!(rt; is_in_way(line, Want::Look(5)), look);
    assert_eq!(rt; is_in_way(line, Want::Write(5)), write);
    assert_eq!(rt; is_in_way(line, Want::Scan(3, Some(5))), scan);
}

#[test]
fn writes_bar_all(rt: HostRuntime) {
    bars(&rt, Line::Wrote(5, 1), true, true, true);
    bars(&rt, Line::Cleared(5, None), true, true, true);
    bars(&rt, Line::Stale(5), true, true, true);
}

#[test]
fn looks_bar_writes(rt: HostRuntime) {
    bars(&rt, Line::Read(5), false, true, false);
    bars(&rt, Line::Scanned(2, Some(7)), false, true, false);
    bars(&rt, Line::Scanned(2, None), false, true, false);
}

#[test]
fn the_rest_bars_nothing(rt: HostRuntime) {
    bars(&rt, Line::Idle, false, false, false);
    bars(&rt, Line::Marked, false, false, false);
    bars(&rt, Line::Wrote(6, 1), false, false, false);
    bars(&rt, Line::Read(6), false, false, false);
}

// A stretch begins above the key that was asked, and ends with the key that was found.
#[test]
fn ends_of_a_stretch(rt: HostRuntime) {
    bars(&rt, Line::Scanned(5, Some(7)), false, false, false);
    bars(&rt, Line::Scanned(4, Some(5)), false, true, false);
    assert_eq!(rt; is_in_way(Line::Wrote(3, 1), Want::Scan(3, Some(5))), false);
    assert_eq!(rt; is_in_way(Line::Wrote(4, 1), Want::Scan(3, Some(5))), true);
    assert_eq!(rt; is_in_way(Line::Wrote(6, 1), Want::Scan(3, Some(5))), false);
    assert_eq!(rt; is_in_way(Line::Wrote(6, 1), Want::Scan(3, None)), true);
}

// What is gone back over still locks.
#[test]
fn gone_back_still_locks(rt: HostRuntime) {
    let mut words = [0u64; 9];
    let none = Ring {
        cap: 3,
        start: 0,
        count: 0,
    };
    let marked = none.push(&mut words, Line::Marked);
    let written = marked.push(&mut words, Line::Wrote(5, 1));
    go_back(&mut words, written, 1);
    assert_eq!(rt; in_way(written.lines(&words), Want::Look(5)), true);
    assert_eq!(rt; in_way(written.lines(&words), Want::Look(6)), false);
}

// Two lines that stand at the table's end and at its start: read from both ends; then the first is changed.
#[test]
fn a_ring_from_both_ends(rt: HostRuntime) {
    let mut words = [0u64; 9];
    let none = Ring {
        cap: 3,
        start: 2,
        count: 0,
    };
    let read = none.push(&mut words, Line::Read(5));
    let ring = read.push(&mut words, Line::Scanned(6, None));
    let mut lines = ring.lines(&words);
    assert_eq!(rt; lines.next_back(), Some(Line::Scanned(6, None)));
    assert_eq!(rt; lines.next(), Some(Line::Read(5)));
    assert_eq!(rt; lines.next(), None);
    let mut first = true;
    ring.change_all(&mut words, |line: Line| -> Line {
        let changed = if first { Line::Marked } else { line };
        first = false;
        changed
    });
    let mut changed = ring.lines(&words);
    assert_eq!(rt; changed.next(), Some(Line::Marked));
    assert_eq!(rt; changed.next(), Some(Line::Scanned(6, None)));
}
