// The wait graph: for each clerk, the set of those for whom it waits.
ghost use Rattle.std.specs.Prelude.{◌≡◌, ℕ, ◌<◌, false, not, length, ◌≢◌, slice_index};
ghost use Rattle.locks.specs.Sets.{is_in, some_of};
ghost use Rattle.locks.specs.Graphs.{waits_in, spread, reached, ring_by, counts_by};
ghost use Rattle.locks.specs.Chosen.{Chosen};

use crate::set::ClerkSet;
use clerk::{CLERKS, Clerk};

#[derive(Drop)]
pub struct WaitGraph {
    sets: [ClerkSet; CLERKS],
}

/// Who gets on, at which place of the order; by a clash, if it is on a ring.
/// Either way there are a place and a clerk, so the clash is a fact of its own beside them.
#[derive(Clone, Copy, PartialEq, Eq, Debug)]
pub struct Pick {
    pub place: usize,
    pub who: Clerk,
    pub clash: bool,
}

impl WaitGraph {
    /// Nobody waits.
    pub fn none() -> WaitGraph
        ensures { (d e : ℕ) → waits_in result d e ≡ false }
    {
        WaitGraph {
            sets: [ClerkSet::none(); CLERKS],
        }
    }

    pub fn waits_of(&self, clerk: Clerk) -> ClerkSet
        ensures { (e : ℕ) → is_in result e ≡ waits_in self.now clerk e }
    {
        self.sets[clerk.index()]
    }

    /// From now on the clerk waits for these.
    pub fn put(&mut self, clerk: Clerk, set: ClerkSet)
        ensures put { (e : ℕ) → waits_in self.new clerk e ≡ is_in set e }
        ensures others { (d e : ℕ) → (d ≢ clerk) → waits_in self.new d e ≡ waits_in self.old d e }
    {
        self.sets[clerk.index()] = set;
    }

    // The set, and all for whom one of it waits.
    fn further(&self, set: ClerkSet) -> ClerkSet
        ensures { (e : ℕ) → is_in result e ≡ spread (waits_in self.now) (is_in set) e }
    {
        let mut all = set;
        for (d, waits) in self.sets.iter().enumerate() {
            if set.contains(Clerk::new(d as u32)) {
                all = all.joined(*waits);
            }
        }
        all
    }

    // All whom one can come to from the set: in 32 steps there is nobody else to come to.
    fn reach(&self, set: ClerkSet) -> ClerkSet
        ensures { is_in result ≡ reached 32 (waits_in self.now) (is_in set) }
    {
        let mut all = set;
        for _ in 0..CLERKS {
            all = self.further(all);
        }
        all
    }

    /// Does the clerk wait, by way of any others, for itself.
    pub fn on_ring(&self, clerk: Clerk) -> bool
        ensures { result ≡ ring_by (waits_in self.now) clerk }
    {
        self.reach(self.waits_of(clerk)).contains(clerk)
    }

    /// Does the clerk wait for nobody.
    pub fn is_free(&self, clerk: Clerk) -> bool
        ensures { result ≡ not (some_of 32 (waits_in self.now clerk)) }
    {
        self.waits_of(clerk).is_empty()
    }

    /// Does it get on: is it free, or on a ring.
    pub fn counts(&self, clerk: Clerk) -> bool
        ensures { result ≡ counts_by (waits_in self.now) clerk }
    {
        self.is_free(clerk) || self.on_ring(clerk)
    }

    /// The first in the order who counts. The order has the clerks by their numbers, as the room keeps it.
    pub fn choose(&self, order: &[u64]) -> Option<Pick>
        requires { (k : ℕ) → k < length order.now → slice_index order.now k < 32 }
        ensures { Chosen (waits_in self.now) order.now result }
    {
        for (place, number) in order.iter().enumerate() {
            let who = Clerk::new(*number as u32);
            if self.counts(who) {
                return Some(Pick {
                    place,
                    who,
                    clash: !self.is_free(who),
                });
            }
        }
        None
    }
}
