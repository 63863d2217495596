// One line, as three words of a table: a tag and two words.
ghost use Rattle.std.specs.Prelude.{◌≡◌, ℕ, ◌+◌, ◌*◌, ◌≤◌, [], ◌∷◌, length, ◌≢◌, slice_index};
ghost use Rattle.lines.specs.Tags.{tag_by};
ghost use Rattle.lines.specs.Lines.{line_at, line_of, tag_of, first_of, second_of};

/// A line of a deal, or a record of the queue (only `Wrote` and `Cleared` are records).
/// The kept key of `Cleared` is an `Option`, told by the tag, so that key 0 is a key as any other.
#[derive(Clone, Copy, PartialEq, Eq, Debug)]
pub enum Line {
    // Says nothing and locks nothing. Zero words are such a line, so it is a kind of line and not the lack of one.
    Idle,
    // The word is put at the key.
    Wrote(u64, u64),
    // The key is dropped; with it the first key above it that the tree has.
    Cleared(u64, Option<u64>),
    // A write of the key that was gone back over: it has no effect, but still locks.
    Stale(u64),
    // The key was looked up.
    Read(u64),
    // The next key above this one was asked for; with it the key that was told, if any.
    Scanned(u64, Option<u64>),
    // A mark to go back to.
    Marked,
}

const WORDS: usize = 3;

// The kinds of lines, in the order of their numbers in the room.
#[derive(Clone, Copy, PartialEq, Eq, Debug)]
enum Tag {
    Idle,
    Wrote,
    ClearedLast,
    Cleared,
    Stale,
    Read,
    ScannedLast,
    Scanned,
    Marked,
}

// A number that no line has is read as idle.
impl From<u64> for Tag {
    ghost from_gives = { λ number tag. tag ≡ tag_by number };

    fn from(number: u64) -> Tag {
        match number {
            1 => Tag::Wrote,
            2 => Tag::ClearedLast,
            3 => Tag::Cleared,
            4 => Tag::Stale,
            5 => Tag::Read,
            6 => Tag::ScannedLast,
            7 => Tag::Scanned,
            8 => Tag::Marked,
            _ => Tag::Idle,
        }
    }
}

impl From<[u64; WORDS]> for Line {
    ghost from_gives = { λ w l. l ≡ line_of (slice_index w 0) (slice_index w 1) (slice_index w 2) };

    fn from([tag, a, b]: [u64; WORDS]) -> Line {
        match Tag::from(tag) {
            Tag::Wrote => Line::Wrote(a, b),
            Tag::ClearedLast => Line::Cleared(a, None),
            Tag::Cleared => Line::Cleared(a, Some(b)),
            Tag::Stale => Line::Stale(a),
            Tag::Read => Line::Read(a),
            Tag::ScannedLast => Line::Scanned(a, None),
            Tag::Scanned => Line::Scanned(a, Some(b)),
            Tag::Marked => Line::Marked,
            Tag::Idle => Line::Idle,
        }
    }
}

impl From<Line> for [u64; WORDS] {
    ghost from_gives = { λ l w. w ≡ tag_of l ∷ first_of l ∷ second_of l ∷ [] };

    fn from(line: Line) -> [u64; WORDS] {
        let (tag, a, b) = match line {
            Line::Idle => (Tag::Idle, 0, 0),
            Line::Wrote(k, x) => (Tag::Wrote, k, x),
            Line::Cleared(k, None) => (Tag::ClearedLast, k, 0),
            Line::Cleared(k, Some(s)) => (Tag::Cleared, k, s),
            Line::Stale(k) => (Tag::Stale, k, 0),
            Line::Read(k) => (Tag::Read, k, 0),
            Line::Scanned(k, None) => (Tag::ScannedLast, k, 0),
            Line::Scanned(k, Some(q)) => (Tag::Scanned, k, q),
            Line::Marked => (Tag::Marked, 0, 0),
        };
        [tag as u64, a, b]
    }
}

/// The line p of a table.
pub fn read_line(words: &[u64], p: usize) -> Line
    requires { 3 * p + 3 ≤ length words.now }
    ensures { result ≡ line_at words.now p }
{
    let at = WORDS * p;
    Line::from([words[at], words[at + 1], words[at + 2]])
}

/// Reading the line p gives then what was written, and the other lines are as they were.
pub fn write_line(words: &mut [u64], p: usize, line: Line)
    requires { 3 * p + 3 ≤ length words.old }
    ensures written { line_at words.new p ≡ line }
    ensures others { (q : ℕ) → (q ≢ p) → line_at words.new q ≡ line_at words.old q }
{
    let at = WORDS * p;
    words[at..at + WORDS].copy_from_slice(&<[u64; WORDS]>::from(line));
}
