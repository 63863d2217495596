// What an asking touches, and whether the lines of a deal are in its way.
ghost use Rattle.std.specs.Prelude.{◌≡◌};
ghost use Rattle.locks.specs.Bars.{within, written, looks_key, bars, some_bars};

use lines::line::Line;
use lines::ring::Lines;

/// What an asking touches: nothing, a key that it looks at, a key that it writes,
/// or all keys above one, up to the key that it would find, if any.
/// Nothing is one of the four beside the others, since each is matched with the lines in its way.
#[derive(Clone, Copy, PartialEq, Eq, Debug)]
pub enum Want {
    Nothing,
    Look(u64),
    Write(u64),
    Scan(u64, Option<u64>),
}

// Is the key above `from`, and not above the one that is found.
fn is_within(key: u64, from: u64, found: Option<u64>) -> bool
    ensures { result ≡ within key from found }
{
    from < key && found.is_none_or(|last| key <= last)
}

// The key that a line writes, if it does. A write that was gone back over still counts as one.
fn written(line: Line) -> Option<u64>
    ensures { result ≡ written line }
{
    match line {
        Line::Wrote(k, _) => Some(k),
        Line::Cleared(k, _) => Some(k),
        Line::Stale(k) => Some(k),
        _ => None,
    }
}

// Does a line look at the key.
fn looks_at(line: Line, key: u64) -> bool
    ensures { result ≡ looks_key key line }
{
    match line {
        Line::Read(k) => key == k,
        Line::Scanned(from, found) => is_within(key, from, found),
        _ => false,
    }
}

/// Is a line in the way of what is wanted: do they touch one key, and one of the two writes there.
pub fn is_in_way(line: Line, want: Want) -> bool
    ensures { result ≡ bars want line }
{
    match want {
        Want::Nothing => false,
        Want::Look(k) => written(line) == Some(k),
        Want::Write(k) => written(line) == Some(k) || looks_at(line, k),
        Want::Scan(from, found) => written(line).is_some_and(|k| is_within(k, from, found)),
    }
}

/// Is one of the lines in the way.
pub fn in_way(mut lines: Lines, want: Want) -> bool
    ensures { result ≡ some_bars want lines.entry }
{
    lines.any(|line| is_in_way(line, want))
}
