// The tree, as far as deals see it, with what it keeps in the room behind the tables of lines.
ghost use Rattle.std.specs.Prelude.{◌≡◌, ℕ, ◌≤◌, Bool, List, length, is_ok, IfOk, OnOk};
ghost use Rattle.std.specs.Borrow.{GName};
ghost use Rattle.lines.specs.Tables.{tables, behind};
ghost use Rattle.node.specs.Pairs.{find, above, put_in, drop_in};
ghost use Rattle.view.specs.Asks.{Asks, ChangeSpent};
ghost use Rattle.view.specs.Index.{Whole, Passes, Asked, MayChange};

use pages::Gone;

/// The room comes beside the index and is not a part of it: between two calls others read and write the lines in it.
/// That the tables stay is no field of `Passes`: `apply_front` gives `Passes` too, and changes them. And a slice's type has
/// no length, so each method that is given no view or queue has to ask for the room's.
pub trait Index {
    // The pairs that it holds.
    ghost pairs: { Self → List ℕ → List (ℕ × ℕ) };
    // The askings that are left, and what each method takes of them at most.
    ghost budget: { Self → Asks };
    // What a put or a remove wants beside askings, as pages that it may take and change.
    ghost ready: { Self → List ℕ → Type 0 };
    // onto a w ok b v: b with v may have come from a with w; ok says whether the power is still there. Passed through.
    ghost onto: { Self → List ℕ → Bool → Self → List ℕ → Type 0 };
    // What the index is lent: given back.
    ghost tie: { Self → List GName };

    // The word at k.
    fn get(&mut self, room: &mut [u64], k: u64) -> Result<Option<u64>, Gone>
        requires room { length room.old ≡ 262144 }
        requires asks { (budget self.old).get ≤ (budget self.old).left }
        requires whole { Whole onto self.old room.old }
        ensures told { IfOk result (λ o. o ≡ find k (pairs self.old (behind room.old))) }
        ensures asked { OnOk result (Asked pairs budget (budget self.old).get self.old room.old self.new room.new) }
        ensures tables { tables room.new ≡ tables room.old }
        ensures passed { Passes onto tie (is_ok result) self.old room.old self.new room.new };

    // The first pair with a key above k.
    fn next(&mut self, room: &mut [u64], k: u64) -> Result<Option<(u64, u64)>, Gone>
        requires room { length room.old ≡ 262144 }
        requires asks { (budget self.old).next ≤ (budget self.old).left }
        requires whole { Whole onto self.old room.old }
        ensures told { IfOk result (λ o. o ≡ above k (pairs self.old (behind room.old))) }
        ensures asked { OnOk result (Asked pairs budget (budget self.old).next self.old room.old self.new room.new) }
        ensures tables { tables room.new ≡ tables room.old }
        ensures passed { Passes onto tie (is_ok result) self.old room.old self.new room.new };

    // Puts the word x at k.
    fn put(&mut self, room: &mut [u64], k: u64, x: u64) -> Result<(), Gone>
        requires room { length room.old ≡ 262144 }
        requires asks { MayChange budget ready self.old room.old }
        requires whole { Whole onto self.old room.old }
        ensures done { OnOk result (pairs self.new (behind room.new) ≡ put_in k x (pairs self.old (behind room.old))) }
        ensures asked { OnOk result (ChangeSpent (budget self.old) (budget self.new)) }
        ensures tables { tables room.new ≡ tables room.old }
        ensures passed { Passes onto tie (is_ok result) self.old room.old self.new room.new };

    // Takes the pair at k out, if there is one.
    fn remove(&mut self, room: &mut [u64], k: u64) -> Result<(), Gone>
        requires room { length room.old ≡ 262144 }
        requires asks { MayChange budget ready self.old room.old }
        requires whole { Whole onto self.old room.old }
        ensures done { OnOk result (pairs self.new (behind room.new) ≡ drop_in k (pairs self.old (behind room.old))) }
        ensures asked { OnOk result (ChangeSpent (budget self.old) (budget self.new)) }
        ensures tables { tables room.new ≡ tables room.old }
        ensures passed { Passes onto tie (is_ok result) self.old room.old self.new room.new };
}
