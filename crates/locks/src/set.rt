// A set of the clerks, as the bits of a word.
ghost use Rattle.std.specs.Prelude.{◌≡◌, ℕ, ◌<◌, ◌≤◌, false, not, ◌||◌, ◌==◌};
ghost use Rattle.locks.specs.Sets.{is_in, some_of};

use clerk::{CLERKS, Clerk};

#[derive(Clone, Copy, PartialEq, Eq, Debug)]
pub struct ClerkSet {
    bits: u32,
}

impl ClerkSet {
    pub fn none() -> ClerkSet
        ensures { result.bits ≡ 0 }
    {
        ClerkSet { bits: 0 }
    }

    /// The clerks whom `choose` takes in.
    pub fn those<F: Fn(Clerk) -> bool>(choose: F) -> ClerkSet
        requires { F.IsAlwaysCallable choose }
        ensures each { (k : ℕ) → k < 32 → F.post choose k (is_in result k) }
        ensures past { (k : ℕ) → 32 ≤ k → is_in result k ≡ false }
    {
        let mut set = ClerkSet::none();
        // By number: the clerks stand in no list.
        for number in 0..CLERKS as u32 {
            let clerk = Clerk::new(number);
            if choose(clerk) {
                set = set.with(clerk);
            }
        }
        set
    }

    pub fn contains(self, clerk: Clerk) -> bool
        ensures { result ≡ is_in self clerk }
    {
        (self.bits >> clerk.number()) & 1 == 1
    }

    pub fn with(self, clerk: Clerk) -> ClerkSet
        ensures { (k : ℕ) → is_in result k ≡ (is_in self k || k == clerk) }
    {
        let bits = self.bits | (1u32 << clerk.number());
        ClerkSet { bits }
    }

    pub fn joined(self, other: ClerkSet) -> ClerkSet
        ensures { (k : ℕ) → is_in result k ≡ (is_in self k || is_in other k) }
    {
        let bits = self.bits | other.bits;
        ClerkSet { bits }
    }

    pub fn is_empty(self) -> bool
        ensures { result ≡ not (some_of 32 (is_in self)) }
    {
        self.bits == 0
    }
}
