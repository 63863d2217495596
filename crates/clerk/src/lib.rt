// The clerks: thirty-two, told apart by their numbers.
#![tactic(auto)]

ghost use Rattle.std.specs.Prelude.{◌≡◌, ℕ, ◌<◌, ◌≤◌, MatchResult};

use std::error::Error;
use std::fmt;
use std::marker::Model;

/// How many clerks there are.
pub const CLERKS: usize = 32;

/// One of the clerks. Clauses see the number.
#[derive(Clone, Copy, Debug, PartialEq, Eq, PartialOrd, Ord, Hash)]
pub struct Clerk {
    // A number of its own type, as the statements have it in 32 bits.
    number: u32,
}

impl Model for Clerk {
    ghost Value = { ℕ };

    ghost view = { λ c. c.number };

    ghost invariant = { λ c. c.number < 32 };

    ghost inverse = { λ n. record { number = n } };
}

impl Clerk {
    /// The clerk with this number.
    pub fn new(number: u32) -> Clerk
        requires { number < 32 }
        ensures { result ≡ number }
    {
        Clerk { number }
    }

    /// The clerk's number.
    pub fn number(self) -> u32
        ensures is { result ≡ self }
        ensures low { result < 32 }
    {
        self.number
    }

    /// The clerk's place in a table that has one for each.
    pub fn index(self) -> usize
        ensures is { result ≡ self }
        ensures low { result < 32 }
    {
        self.number as usize
    }
}

/// A number that no clerk has.
#[derive(Clone, Copy, Debug, PartialEq, Eq)]
pub struct NoSuchClerk(pub u32);

impl TryFrom<u32> for Clerk {
    type Error = NoSuchClerk;

    ghost try_from_gives = { λ n r. MatchResult r (λ c. (c ≡ n) × (n < 32)) (λ e. (e.0 ≡ n) × (32 ≤ n)) };

    fn try_from(number: u32) -> Result<Clerk, NoSuchClerk> {
        if number < CLERKS as u32 {
            Ok(Clerk { number })
        } else {
            Err(NoSuchClerk(number))
        }
    }
}

impl fmt::Display for Clerk {
    fn fmt<W: fmt::Write>(&self, f: &mut fmt::Formatter<W>) -> fmt::Result {
        write!(f, "{}", self.number)
    }
}

impl fmt::Display for NoSuchClerk {
    fn fmt<W: fmt::Write>(&self, f: &mut fmt::Formatter<W>) -> fmt::Result {
        write!(f, "no clerk has number {}", self.0)
    }
}

impl Error for NoSuchClerk {}
