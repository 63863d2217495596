// Those who have asked, in the order in which they did.
ghost use Rattle.std.specs.Prelude.{◌≡◌, ℕ, ◌+◌, ◌-◌, ◌<◌, ◌≤◌, [], ◌∷◌, ◌++◌, length, take, slice_index};
ghost use Rattle.std.specs.List.{remove};
ghost use Rattle.deals.specs.Tables.{SameLines, OnlyOrder, waiting_in, order_of};
ghost use Rattle.deals.specs.Loans.{SameRoom};

use super::layout::{ORDER_AT, WAITING_AT};
use super::tables::{Tables, TablesMut};
use clerk::Clerk;

impl<'a> Tables<'a> {
    /// How many have asked.
    #[tactic(auto, using(crate::proofs::Orders::order_long))]
    pub fn waiting(&self) -> usize
        ensures long { result ≡ length (order_of self.now.room.now) }
        ensures is { result ≡ waiting_in self.now.room.now }
    {
        self.room[WAITING_AT] as usize
    }

    // Their numbers.
    #[tactic(auto, using(crate::proofs::Graphing::order_part, crate::proofs::Orders::order_long, crate::proofs::Orders::order_few))]
    pub(crate) fn order(&self) -> &[u64]
        ensures is { result.now ≡ order_of self.now.room.now }
        ensures long { length result.now ≡ waiting_in self.now.room.now }
        ensures few { (k : ℕ) → k < length result.now → slice_index result.now k < 32 }
    {
        let n = self.waiting();
        &self.room[ORDER_AT..ORDER_AT + n]
    }

    /// Who stands at place i.
    #[tactic(auto, using(crate::proofs::Orders::order_at))]
    pub fn who_at(&self, i: usize) -> Clerk
        requires { i < waiting_in self.now.room.now }
        ensures is { result ≡ slice_index (order_of self.now.room.now) i }
        ensures low { result < 32 }
    {
        Clerk::new(self.room[ORDER_AT + i] as u32)
    }
}

// The one at this place is gone, and a word is left over at the end.
fn close_up(order: &mut [u64], place: usize)
    requires { place < length order.old }
    ensures { take (length order.old - 1) order.new ≡ remove order.old place }
{
    order[place..].rotate_left(1);
}

impl<'a> TablesMut<'a> {
    /// One has asked, and stands last.
    pub fn join(&mut self, who: Clerk)
        requires { waiting_in self.old.room.now < 32 }
        ensures lent { SameRoom self.old self.new }
        ensures order { order_of self.new.room.now ≡ order_of self.old.room.now ++ who ∷ [] }
        ensures lines { SameLines self.old.room.now self.new.room.now }
        ensures others { OnlyOrder self.old.room.now self.new.room.now }
    {
        let room = &mut *self.room;
        let n = room[WAITING_AT];
        room[ORDER_AT + n as usize] = u64::from(who.number());
        room[WAITING_AT] = n + 1;
    }

    /// The one at this place is served, and the others close up.
    pub fn leave(&mut self, place: usize)
        requires { place < waiting_in self.old.room.now }
        ensures lent { SameRoom self.old self.new }
        ensures order { order_of self.new.room.now ≡ remove (order_of self.old.room.now) place }
        ensures lines { SameLines self.old.room.now self.new.room.now }
        ensures others { OnlyOrder self.old.room.now self.new.room.now }
    {
        let room = &mut *self.room;
        let n = room[WAITING_AT];
        close_up(&mut room[ORDER_AT..ORDER_AT + n as usize], place);
        room[WAITING_AT] = n - 1;
    }
}
