// The marks of a deal: how many stand, and the way back to one of them.
ghost use Rattle.std.specs.Prelude.{◌≡◌, ◌≤◌, min, length};
ghost use Rattle.lines.specs.Rings.{Holds, lines_of};
ghost use Rattle.lines.specs.Marks.{marks_in, stale, backed, line_back, left_back};

use crate::line::Line;
use crate::ring::{Lines, Ring};

/// How many marks stand.
pub fn marks_in(lines: Lines) -> usize
    ensures is { result ≡ marks_in lines.entry }
    ensures few { result ≤ length lines.entry }
{
    // Names the length for the check: no ring has more lines than a number can count.
    let _most = lines.len();
    lines.filter(|line| matches!(line, Line::Marked)).count()
}

// What was gone back over has no effect and still locks; its marks are gone.
fn stale_line(line: Line) -> Line
    ensures { result ≡ stale line }
{
    match line {
        Line::Wrote(k, _) => Line::Stale(k),
        Line::Cleared(k, _) => Line::Stale(k),
        Line::Marked => Line::Idle,
        _ => line,
    }
}

/// The first `stay` marks stay, and what stands before the last of them.
pub fn go_back(words: &mut [u64], ring: Ring, stay: usize)
    requires { Holds words.old ring }
    ensures lines { lines_of words.new ring ≡ backed stay (lines_of words.old ring) }
    ensures marks { marks_in (lines_of words.new ring) ≡ min stay (marks_in (lines_of words.old ring)) }
{
    let mut left = stay;
    ring.change_all(
        words,
        move |line: Line| -> Line
            ensures line { result ≡ line_back left.entry line }
            ensures left { left.exit ≡ left_back left.entry line }
        {
            if left == 0 {
                return stale_line(line);
            }
            if matches!(line, Line::Marked) {
                left -= 1;
            }
            line
        },
    );
}
