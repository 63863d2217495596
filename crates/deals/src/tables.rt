// The clerks' tables in the room, lent for as long as they are read or changed.
ghost use Rattle.std.specs.Prelude.{◌≡◌, ℕ, ◌<◌, ◌≤◌, slice_index};
ghost use Rattle.deals.specs.Tables.{Sound, count_at, lines_in};

use super::layout::COUNTS_AT;
use clerk::{CLERKS, Clerk};
use lines::own::lines_of;
use lines::ring::Lines;

/// Lent to be read.
#[derive(Clone, Copy, Debug, PartialEq, Eq)]
pub struct Tables<'a> {
    pub room: &'a [u64],
    ghost sound: { Sound room.now },
}

/// Lent to be changed. It is no `Tables`, which are lent to many at a time. Each change says that the room is still the one that was lent (`SameRoom`), as whoever lends it must know.
#[derive(Drop)]
pub struct TablesMut<'a> {
    pub room: &'a mut [u64],
    ghost sound: { Sound room.now },
}

impl<'a> Tables<'a> {
    pub fn new(room: &'a [u64]) -> Tables<'a>
        requires { Sound room.now }
        ensures { result.room.now ≡ room.now }
    {
        Tables { room }
    }

    // How many lines the clerk's deal has.
    pub(crate) fn count(&self, c: Clerk) -> usize
        ensures is { result ≡ count_at self.now.room.now c }
        ensures few { result ≤ 1024 }
    {
        self.room[COUNTS_AT + c.index()] as usize
    }

    /// How many lines each deal has.
    pub fn counts(&self) -> [usize; CLERKS]
        ensures { (c : ℕ) → c < 32 → slice_index result c ≡ count_at self.now.room.now c }
    {
        let mut counts = [0; CLERKS];
        for c in 0..CLERKS {
            counts[c] = self.room[COUNTS_AT + c] as usize;
        }
        counts
    }

    // The lines of the clerk's deal.
    #[tactic(auto, unfolding(crate::specs::Tables::lines_in))]
    pub(crate) fn lines(&self, c: Clerk) -> Lines<'_>
        ensures { result ≡ lines_in self.now.room.now c }
    {
        lines_of(self.room, c.index(), self.count(c))
    }
}

impl<'a> TablesMut<'a> {
    pub fn new(room: &'a mut [u64]) -> TablesMut<'a>
        requires { Sound room.old }
        ensures same { result.room.now ≡ room.old }
        ensures lent { result.room.ghost_name ≡ room.entry.ghost_name }
    {
        TablesMut { room }
    }

    /// As they stand, to be read.
    pub fn read(&self) -> Tables<'_>
        ensures { result.room.now ≡ self.now.room.now }
    {
        Tables { room: &*self.room }
    }
}
