// The office's lives: each begins when the power comes, and lasts as long as it stays.
ghost use Rattle.std.specs.Prelude.{◌≡◌, ℕ, ◌<◌, ◌≤◌, false, List, [], length};
ghost use Rattle.deals.specs.Disk.{Disk, Back, Blank};
ghost use Rattle.deals.specs.Deals.{State};
ghost use Rattle.deals.specs.Holds.{Holds, IfDark};
ghost use Rattle.deals.specs.Sits.{Lasting, Sits};

use super::engine::{Acts, Office, open};
use super::{Clerks, Gone, Pages, Power};

pub enum Stop {
    Dark,
    Over,
}

/// As long as the power stays, and turns are left.
pub fn serve<A: Acts, D: Pages + Power, C: Clerks>(
    d: &mut D,
    c: &mut C,
    f: &mut Office,
    room: &mut [u64],
    turns: u64,
) -> Stop
    requires stands { (p : ℕ) × Holds p (C.seen c.old) (Sits p f.old room.old (D.Pages.disk d.old)) }
    ensures dark { IfDark result ((D.Pages.disk d.new).on ≡ false) }
    ensures space { IfDark result (0 < C.space c.new) }
    ensures falls { IfDark result ((p : ℕ) → Holds p (C.seen c.old) (Sits p f.old room.old (D.Pages.disk d.old)) → (e : Disk) → Back (D.Pages.disk d.new) e → Holds p (C.seen c.new) (λ s. Lasting p e s.book)) }
{
    let pages = d.pages();
    let mut t: u64 = 0;
    while t < turns && c.more() {
        t += 1;
        if let Some((who, o)) = c.next() {
            f.ask(room, who, o);
        }
        d.allow(512);
        match f.turn::<A, D>(d, room) {
            Err(Gone) => {
                return Stop::Dark;
            }
            Ok(x) => {
                c.turned(pages);
                if let Some((who, a)) = x {
                    c.told(who, a, pages);
                }
            }
        }
    }
    Stop::Over
}

/// THE MAIN PROMISE. Whatever clerks ask, and wherever the power goes.
pub fn days<A: Acts, D: Pages + Power, C: Clerks>(
    d: &mut D,
    c: &mut C,
    room: &mut [u64],
    lives: u64,
    turns: u64,
)
    requires blank { Blank (D.Pages.disk d.old) }
    requires unseen { C.seen c.old ≡ [] }
    requires lent { length room.old ≡ 262144 }
    requires few { (lives < 16777216) × (turns < 16777216) }
{
    let mut n: u64 = 0;
    while n < lives && c.more() {
        n += 1;
        d.allow(4194304);
        if let Ok(mut f) = open::<A, D>(d, room) {
            match serve::<A, D, C>(d, c, &mut f, room, turns) {
                Stop::Dark => {}
                Stop::Over => {
                    return;
                }
            }
        }
        c.cut();
        d.back(room);
    }
}
