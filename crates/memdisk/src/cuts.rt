// The cuts that are set, in the order in which they were set.
ghost use Rattle.std.specs.Prelude.{◌≡◌, nat_le};
ghost use Rattle.memdisk.specs.Dues.{later, coming};

use crate::lent::Lent;

/// A cut that is set: with which asking from here on it comes, and the choice of what it leaves.
#[derive(Clone, Copy, Debug, PartialEq, Eq)]
pub struct Due {
    pub(crate) asks: u64,
    pub(crate) choice: u64,
}

impl Due {
    /// What to lend before anything is set.
    pub const BLANK: Due = Due { asks: 0, choice: 0 };

    // Whether the cut comes with the next asking.
    fn comes(&self) -> bool
        ensures { result ≡ nat_le self.now.asks 1 }
    {
        self.asks <= 1
    }
}

impl<'a> Lent<'a, Due> {
    /// One asking: a cut that comes with it is no longer set, and the others are one asking nearer. Gives the choice of
    /// the last that came.
    pub fn count_down(&mut self) -> Option<u64>
        ensures left { self.new.items ≡ later self.old.items }
        ensures room { self.new.room ≡ self.old.room }
        ensures came { result ≡ coming self.old.items }
    {
        let came = self
            .items()
            .iter()
            .filter(|due| due.comes())
            .map(|due| due.choice)
            .last();
        // Mostly none comes. Then no item needs a look at whether it stays.
        if came.is_none() {
            self.retain_mut(|due| {
                due.asks = due.asks.saturating_sub(1);
                true
            });
            return None;
        }
        self.retain_mut(|due| {
            let comes = due.comes();
            due.asks = due.asks.saturating_sub(1);
            !comes
        });
        came
    }
}
