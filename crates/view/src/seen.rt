// What lines say of a key.
ghost use Rattle.std.specs.Prelude.{◌≡◌, None};
ghost use Rattle.view.specs.Sight.{seen_line, seen_in, word_of};

use lines::line::Line;
use lines::ring::{Lines, Ring};

/// Whose eyes: a deal, how many lines it has, and the queue.
#[derive(Clone, Copy, PartialEq, Eq, Debug)]
pub struct View {
    pub deal: usize,
    pub count: usize,
    pub queue: Ring,
}

/// Put with this word; or dropped, with the tree's first key above.
#[derive(Clone, Copy, PartialEq, Eq, Debug)]
pub enum Seen {
    There(u64),
    Away(Option<u64>),
}

impl Seen {
    /// The word, where there is one.
    pub fn word(self) -> Option<u64>
        ensures { result ≡ word_of self }
    {
        match self {
            Seen::There(x) => Some(x),
            Seen::Away(_) => None,
        }
    }
}

fn seen_line(line: Line, key: u64) -> Option<Seen>
    ensures { result ≡ seen_line key line None }
{
    match line {
        Line::Wrote(k, x) if key == k => Some(Seen::There(x)),
        Line::Cleared(k, s) if key == k => Some(Seen::Away(s)),
        _ => None,
    }
}

/// What the last line says that writes the key. One pass, from the end.
pub fn last_of(lines: Lines, key: u64) -> Option<Seen>
    ensures { result ≡ seen_in key lines.entry None }
{
    lines.rev().find_map(|line| seen_line(line, key))
}
