// A frame by its number.
ghost use Rattle.std.specs.Prelude.{◌≡◌, ◌+◌, ◌%◌, ◌^◌, ◌<◌};

use crate::layout::FRAME_COUNT;
use std::marker::Model;

/// One of the frames. Clauses see its number. It is built as `Clerk` is, and kept beside it: what is counted differs, and so do the kinds
/// of number that they are made of.
#[derive(Clone, Copy, Debug, PartialEq, Eq)]
pub struct Slot {
    number: usize,
}

impl Model for Slot {
    ghost use Rattle.std.specs.Prelude.{ℕ, ◌<◌};

    ghost Value = { ℕ };

    ghost view = { λ s. s.number };

    ghost invariant = { λ s. s.number < 120 };

    ghost inverse = { λ n. record { number = n } };
}

impl Slot {
    /// The frame with this number.
    pub fn new(number: usize) -> Slot
        requires { number < 120 }
        ensures { result ≡ number }
    {
        Slot { number }
    }

    /// Its number, to index by.
    pub fn number(self) -> usize
        ensures is { result ≡ self }
        ensures low { result < 120 }
    {
        self.number
    }

    /// The frame so many steps on, going round.
    pub fn after(self, steps: usize) -> Slot
        requires { steps < 2 ^ 32 }
        ensures { result ≡ (self + steps) % 120 }
    {
        Slot {
            number: (self.number + steps) % FRAME_COUNT,
        }
    }
}
