// A list in a lent slice: there is no heap that it could grow on.
ghost use Rattle.std.specs.Prelude.{◌≡◌, ◌<◌, ◌≤◌, ◌↔◌, [], ◌∷◌, ◌++◌, length, take, IsOk, IsTrue, OnOk, OnErr};
ghost use Rattle.std.specs.Fn.{CalledAtMut};
ghost use Rattle.std.specs.List.Retain.{RetainsInTurn};
ghost use Rattle.memdisk.specs.Bounded.{Bounded};

use std::marker::Model;

/// There is no room for one more.
#[derive(Clone, Copy, Debug, PartialEq, Eq)]
pub struct NoRoom;

/// The items are the first so many of the slots. Clauses see them, and how many there is room for.
#[derive(Drop)]
pub struct Lent<'a, T> {
    slots: &'a mut [T],
    len: usize,
}

impl<'a, T> Model for Lent<'a, T> {
    ghost use Rattle.std.specs.Prelude.{◌≤◌, length, take};
    ghost use Rattle.memdisk.specs.Bounded.{Bounded};

    ghost Value = { Bounded T };

    ghost view = { λ l. record { items = take l.len l.slots.now; room = length l.slots.now } };

    ghost invariant = { λ l. l.len ≤ length l.slots.now };
}

impl<'a, T: Copy> Lent<'a, T> {
    /// Nothing yet, whatever the slots hold.
    pub fn new(slots: &'a mut [T]) -> Lent<'a, T>
        ensures { result ≡ record { items = []; room = length slots.old } }
    {
        Lent { slots, len: 0 }
    }

    /// In the order in which they came.
    pub fn items(&self) -> &[T]
        ensures { result.now ≡ self.now.items }
    {
        &self.slots[..self.len]
    }

    /// How many items there are, not how many slots.
    pub fn len(&self) -> usize
        ensures { result ≡ length self.now.items }
    {
        self.len
    }

    /// Whether there is no room for one more. With no slots it is always so.
    pub fn is_full(&self) -> bool
        ensures full { IsTrue result ↔ (length self.now.items ≡ self.now.room) }
        ensures within { length self.now.items ≤ self.now.room }
    {
        self.len == self.slots.len()
    }

    /// The slots keep what they hold, but none of it is an item.
    pub fn clear(&mut self)
        ensures { self.new ≡ record { items = []; room = self.old.room } }
    {
        self.len = 0;
    }

    /// Behind the others. A full list stays as it is.
    pub fn try_push(&mut self, item: T) -> Result<(), NoRoom>
        ensures room { IsOk result ↔ (length self.old.items < self.old.room) }
        ensures pushed { OnOk result (self.new ≡ record { items = self.old.items ++ item ∷ []; room = self.old.room }) }
        ensures refused { OnErr result (self.new ≡ self.old) }
    {
        if self.is_full() {
            return Err(NoRoom);
        }
        self.slots[self.len] = item;
        self.len += 1;
        Ok(())
    }

    /// What the closure says `true` of stays, as it left it.
    pub fn retain_mut<F: FnMut(&mut T) -> bool>(&mut self, keep: F)
        requires { F.IsAlwaysCallable keep }
        ensures kept { RetainsInTurn (CalledAtMut F.FnMut) keep self.old.items self.new.items }
        ensures room { self.new.room ≡ self.old.room }
    {
        self.len = retain_in_front(&mut self.slots[..self.len], keep);
    }
}

// Moves what stays to the front, in its order, and counts it.
fn retain_in_front<T, F: FnMut(&mut T) -> bool>(items: &mut [T], mut keep: F) -> usize
    requires { F.IsAlwaysCallable keep }
    ensures kept { RetainsInTurn (CalledAtMut F.FnMut) keep items.old (take result items.new) }
    ensures bound { result ≤ length items.old }
{
    let mut kept = 0;
    // By its place, since each item may change places with one before it. Mostly nothing goes, and then none does.
    for i in 0..items.len() {
        if keep(&mut items[i]) {
            if kept < i {
                items.swap(kept, i);
            }
            kept += 1;
        }
    }
    kept
}
