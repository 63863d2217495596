// What the player plays on. A trait of its own, so that a clause can name what each call gave, whatever the office is.
ghost use Rattle.std.specs.Prelude.{◌≡◌, ℕ, ◌≤◌, false, is_ok, IfOk, Ok, Option, Result};
ghost use Rattle.deals.specs.declared.Op.{Op as Asks};
ghost use Rattle.deals.specs.declared.Answer.{Answer as Tells};
ghost use Rattle.deals.specs.declared.Gone.{Gone as Lost};
ghost use Rattle.deals.specs.Stub.{joined, first_told, others};

use deals::{Answer, Gone, Office, Op, Pages};

/// An office: opened once in a life, then asked and given turns.
pub trait Engine: Drop {
    // what an opening gives
    ghost opened: { Self → Type 0 };

    // how an asking takes the office from what it was to what it is
    ghost asked: { Self → ℕ → Asks → Self → Type 0 };

    // how a turn does, and what it gave
    ghost turned: { Self → Result (Option (ℕ × Tells)) Lost → Self → Type 0 };

    fn open<D: Pages>(d: &mut D, room: &mut [u64]) -> Result<Self, Gone>
        requires { 4194304 ≤ (D.disk d.old).left }
        ensures opens { IfOk result opened }
        ensures gone { is_ok result ≡ false → (D.disk d.new).on ≡ false };

    fn ask(&mut self, room: &mut [u64], who: u32, o: Op)
        ensures { asked self.old who o self.new };

    fn turn<D: Pages>(&mut self, d: &mut D, room: &mut [u64]) -> Result<Option<(u32, Answer)>, Gone>
        requires { 512 ≤ (D.disk d.old).left }
        ensures turns { turned self.old result self.new }
        ensures gone { is_ok result ≡ false → (D.disk d.new).on ≡ false };
}

impl Engine for Office {
    ghost opened = { λ office. office.waiting ≡ 0 };

    ghost asked = { λ old who _ new. new.waiting ≡ joined old.waiting who };

    ghost turned = { λ old r new. (r ≡ Ok (first_told old.waiting)) × (new.waiting ≡ others old.waiting) };

    fn open<D: Pages>(d: &mut D, room: &mut [u64]) -> Result<Office, Gone> {
        deals::open(d, room)
    }

    fn ask(&mut self, room: &mut [u64], who: u32, o: Op) {
        Office::ask(self, room, who, o);
    }

    fn turn<D: Pages>(
        &mut self,
        d: &mut D,
        room: &mut [u64],
    ) -> Result<Option<(u32, Answer)>, Gone> {
        Office::turn(self, d, room)
    }
}
