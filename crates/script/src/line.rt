// Reading a line. A line has one command, its words with one space between them.
ghost use Rattle.std.specs.Prelude.{◌≡◌, ℕ, ◌+◌, ◌^◌, ◌<◌, ◌≤◌, List, length, decimal};
ghost use Rattle.std.specs.Result.{result_ok};
ghost use Rattle.script.specs.Text.{Reads, Fits, text_of};
ghost use Rattle.script.specs.Words.{WordEnd};
ghost use Rattle.script.specs.Order.{verb_text, numbers_text, NumbersFit, OrderFits, order_text, op_of, own_command};

use super::Command;
use clerk::{Clerk, NoSuchClerk};
use deals::Op;
use std::num::{ParseIntError, TryFromIntError};
use std::str::Utf8Error;
use thiserror::Error;

/// A life has fewer turns than this.
pub const TURNS: u64 = 16_777_216;

/// Why a text isn't what it is read as.
#[derive(Debug, Drop, Error)]
pub enum ParseError {
    #[error("not a verb")]
    Verb,
    #[error("not what the verb takes")]
    Order,
    #[error("a number with no figures, a sign or a leading nought")]
    Figures,
    #[error(transparent)]
    Text(#[from] Utf8Error),
    #[error(transparent)]
    Number(#[from] ParseIntError),
    #[error(transparent)]
    Range(#[from] TryFromIntError),
    #[error(transparent)]
    Clerk(#[from] NoSuchClerk),
}

#[derive(Clone, Copy, Debug, PartialEq, Eq)]
pub enum Verb {
    Get,
    Put,
    Drop,
    Next,
    Mark,
    Back,
    Commit,
    Undo,
    Turn,
    Cut,
    Book,
}

/// The numbers after a verb. How many they are belongs to the type and isn't a case of none: each verb takes exactly so
/// many.
#[derive(Clone, Copy, Debug, PartialEq, Eq)]
pub enum Numbers {
    Zero,
    One(u64),
    Two(u64, u64),
}

/// A line without its clerk.
#[derive(Clone, Copy, Debug, PartialEq, Eq)]
pub struct Order {
    pub verb: Verb,
    pub numbers: Numbers,
}

// Where the first word ends: at a space, or where the text does.
fn word_end(text: &[u8]) -> usize
    ensures { WordEnd text.now result }
{
    text.iter().position(|b| *b == b' ').unwrap_or(text.len())
}

// A number, with no sign and no leading nought.
#[tactic(auto, using(crate::proofs::Figures::unbegun, crate::proofs::Figures::nought))]
fn read_number(word: &[u8]) -> Result<u64, ParseError>
    ensures { Reads (λ n. n < 2 ^ 64) decimal word.now (result_ok result) }
{
    match word.first() {
        Some(b'1'..=b'9') => Ok(std::str::from_utf8(word)?.parse::<u64>()?),
        Some(b'0') if word.len() == 1 => Ok(0),
        _ => Err(ParseError::Figures),
    }
}

impl TryFrom<&[u8]> for Verb {
    type Error = ParseError;

    ghost try_from_gives = { λ word r. Reads (λ _. Unit {0}) verb_text word.now (result_ok r) };

    fn try_from(word: &[u8]) -> Result<Verb, ParseError> {
        match word {
            b"get" => Ok(Verb::Get),
            b"put" => Ok(Verb::Put),
            b"drop" => Ok(Verb::Drop),
            b"next" => Ok(Verb::Next),
            b"mark" => Ok(Verb::Mark),
            b"back" => Ok(Verb::Back),
            b"commit" => Ok(Verb::Commit),
            b"undo" => Ok(Verb::Undo),
            b"turn" => Ok(Verb::Turn),
            b"cut" => Ok(Verb::Cut),
            b"book" => Ok(Verb::Book),
            _ => Err(ParseError::Verb),
        }
    }
}

impl TryFrom<&[u8]> for Numbers {
    type Error = ParseError;

    ghost try_from_gives = { λ text r. Reads NumbersFit numbers_text text.now (result_ok r) };

    // Each number stands after a space.
    fn try_from(text: &[u8]) -> Result<Numbers, ParseError> {
        match text {
            [] => Ok(Numbers::Zero),
            [b' ', rest @ ..] => {
                let (first, more) = rest.split_at(word_end(rest));
                let first = read_number(first)?;
                match more {
                    [] => Ok(Numbers::One(first)),
                    [_, second @ ..] => Ok(Numbers::Two(first, read_number(second)?)),
                }
            }
            _ => Err(ParseError::Order),
        }
    }
}

impl TryFrom<&[u8]> for Order {
    type Error = ParseError;

    ghost try_from_gives = { λ text r. Reads OrderFits order_text text.now (result_ok r) };

    fn try_from(text: &[u8]) -> Result<Order, ParseError> {
        let (verb, numbers) = text.split_at(word_end(text));
        Ok(Order {
            verb: verb.try_into()?,
            numbers: numbers.try_into()?,
        })
    }
}

// What an order asks of the office.
impl TryFrom<Order> for Op {
    type Error = ParseError;

    ghost try_from_gives = { λ order r. result_ok r ≡ op_of order.verb order.numbers };

    fn try_from(order: Order) -> Result<Op, ParseError> {
        match (order.verb, order.numbers) {
            (Verb::Get, Numbers::One(k)) => Ok(Op::Get(k)),
            (Verb::Put, Numbers::Two(k, x)) => Ok(Op::Put(k, x)),
            (Verb::Drop, Numbers::One(k)) => Ok(Op::Drop(k)),
            (Verb::Next, Numbers::One(k)) => Ok(Op::Next(k)),
            (Verb::Mark, Numbers::Zero) => Ok(Op::Mark),
            (Verb::Back, Numbers::One(mark)) => Ok(Op::Back(mark.try_into()?)),
            (Verb::Commit, Numbers::Zero) => Ok(Op::Commit),
            (Verb::Undo, Numbers::Zero) => Ok(Op::Undo),
            _ => Err(ParseError::Order),
        }
    }
}

// What an order asks that no clerk asks.
fn own_command(order: Order) -> Result<Command, ParseError>
    ensures { result_ok result ≡ own_command order.verb order.numbers }
{
    match (order.verb, order.numbers) {
        (Verb::Turn, Numbers::One(n)) if n < TURNS => Ok(Command::Turn(n)),
        (Verb::Cut, Numbers::Two(after, choice)) => Ok(Command::Cut { after, choice }),
        (Verb::Book, Numbers::Zero) => Ok(Command::Book),
        _ => Err(ParseError::Order),
    }
}

// The command of a line, without its line's end.
impl TryFrom<&[u8]> for Command {
    type Error = ParseError;

    ghost try_from_gives = { λ line r. Reads Fits text_of line.now (result_ok r) };

    fn try_from(line: &[u8]) -> Result<Command, ParseError> {
        let (word, rest) = line.split_at(word_end(line));
        match read_number(word) {
            Ok(number) => {
                let who = Clerk::try_from(u32::try_from(number)?)?;
                let [_, rest @ ..] = rest else {
                    return Err(ParseError::Verb);
                };
                let order = Order::try_from(rest)?;
                Ok(Command::Ask {
                    who,
                    op: order.try_into()?,
                })
            }
            Err(_) => own_command(line.try_into()?),
        }
    }
}

#[cfg(test)]
mod tests {
    use super::*;

    #[test]
    fn good_lines(rt: HostRuntime) {
        for line in [
            "0 put 0 18446744073709551615",
            "31 mark",
            "6 back 4294967295",
            "turn 16777215",
            "cut 0 18446744073709551615",
            "book",
        ] {
            assert!(rt; Command::try_from(line.as_bytes()).is_ok(), "{}", line);
        }
    }

    #[test]
    fn bad_lines(rt: HostRuntime) {
        for line in [
            "",
            "3 get",
            "3  get 10",
            "3 get 10 ",
            "3 get 010",
            "3 get +1",
            "3 get 18446744073709551616",
            "32 get 1",
            "3 back 4294967296",
            "3 Get 1",
            "turn 16777216",
            "3 book",
        ] {
            assert!(rt; Command::try_from(line.as_bytes()).is_err(), "{}", line);
        }
    }
}
