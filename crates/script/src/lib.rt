// The script language: what a line asks for, and what is printed.
#![tactic(auto)]

pub mod buffer;
pub mod line;
pub mod show;

pub use buffer::LineBuffer;
use clerk::Clerk;
use deals::{Answer, Op};
pub use line::ParseError;

/// What one line of a script asks for. It derives no more than the statements' `Op` does.
#[derive(Clone, Copy)]
pub enum Command {
    // a clerk asks
    Ask { who: Clerk, op: Op },
    // so many turns
    Turn(u64),
    // the power goes at that asking of the disk, and what is left is chosen by a number
    Cut { after: u64, choice: u64 },
    // all pairs of the book
    Book,
}

/// One line of what a script prints. It derives no more than the statements' `Answer` does.
#[derive(Clone, Copy)]
pub enum Output {
    // a clerk is told
    Told { who: u32, answer: Answer },
    // a clerk asked while something was under way
    Busy(u32),
    // a line that says nothing, by its number from 1
    BadLine(u64),
    // the power went
    Cut,
    // a pair of the book
    Entry(u64, u64),
    // the book's end
    End,
}
