// The office's lives: each begins with an opening and ends with a cut.
ghost use Rattle.std.specs.Prelude.{◌≡◌, ℕ, ◌+◌, ◌<◌, ◌≤◌, List, false, IfOk, IfSome, None, is_ok, nat_le};
ghost use Rattle.std.specs.Option.{option_map, option_map_or};
ghost use Rattle.player.specs.Loans.{SameLoans};
ghost use Rattle.player.specs.Seating.{nobody};
ghost use Rattle.player.specs.Playing.{Opens};

use crate::engine::Engine;
use crate::sink::Sink;
use crate::stage::Stage;
use clerk::Clerk;
use deals::{Answer, Gone, Op, Power};
use script::line::TURNS;

// There are fewer lives than 2^24. That turns have the same bound is chance.
const LAST_LIFE: u64 = 16_777_215;

// The most turns that a life has: a line can ask for so many, and for no more.
const LAST_TURN: u64 = TURNS - 1;

// How often an opening may ask the disk.
const ASKS_TO_OPEN: u64 = 4_194_304;

// How often a turn may ask the disk.
const ASKS_IN_A_TURN: u64 = 512;

/// The office in one of its lives, the first being 1, and the turns that it had in it.
#[derive(Drop)]
pub struct Life<O> {
    office: O,
    number: u64,
    turns: u64,
    ghost few: { (number ≤ 16777215) × (turns ≤ 16777215) },
}

impl<D: Power, S> Stage<'_, D, S> {
    fn open_office<O: Engine>(&mut self) -> Result<O, Gone>
        ensures opens { IfOk result O.opened }
        ensures out { self.new.out.now ≡ self.old.out.now }
        ensures gone { is_ok result ≡ false → (D.disk self.new.disk.now).on ≡ false }
        ensures lent { SameLoans self.old self.new }
    {
        self.disk.allow(ASKS_TO_OPEN);
        O::open(self.disk, self.room)
    }
}

impl<D: Power, S: Sink> Stage<'_, D, S> {
    /// The life after so many; a later one where the power goes while it opens. None where it was the last.
    pub fn next_life<O: Engine>(&mut self, past: u64) -> Option<Life<O>>
        ensures played { Opens O.Engine S.Sink past (option_map_or (λ life. life.number) result 16777215) (option_map (λ life. life.office) result) self.old.out.now self.new.out.now }
        ensures later { IfSome result (λ life. (past < life.number) × (life.turns ≡ 0)) }
        ensures lent { SameLoans self.old self.new }
    {
        // It counts lives and reads no list; each opening changes the stage.
        for before in past..LAST_LIFE {
            match self.open_office() {
                Ok(office) => {
                    return Some(Life {
                        office,
                        number: before + 1,
                        turns: 0,
                    });
                }
                Err(_) => self.come_back(),
            }
        }
        None
    }
}

impl<O: Engine> Life<O> {
    pub fn number(&self) -> u64
        ensures { result ≡ self.now.number }
    {
        self.number
    }

    /// Are there as many turns left.
    pub fn has_turns(&self, n: u64) -> bool
        ensures { result ≡ nat_le (self.now.turns + n) 16777215 }
    {
        n <= LAST_TURN - self.turns
    }

    /// Who asks and what stay apart, as the office takes them.
    pub fn ask(&mut self, room: &mut [u64], who: Clerk, op: Op)
        ensures asked { O.asked self.old.office who op self.new.office }
        ensures number { self.new.number ≡ self.old.number }
        ensures turns { self.new.turns ≡ self.old.turns }
    {
        self.office.ask(room, who.number(), op);
    }

    /// One turn of the office. Gives who is told, and what.
    pub fn turn<D: Power>(
        &mut self,
        d: &mut D,
        room: &mut [u64],
    ) -> Result<Option<(u32, Answer)>, Gone>
        requires { self.old.turns < 16777215 }
        ensures turned { O.turned self.old.office result self.new.office }
        ensures number { self.new.number ≡ self.old.number }
        ensures turns { self.new.turns ≡ self.old.turns + 1 }
        ensures gone { is_ok result ≡ false → (D.disk d.new).on ≡ false }
    {
        self.turns += 1;
        d.allow(ASKS_IN_A_TURN);
        self.office.turn(d, room)
    }
}
