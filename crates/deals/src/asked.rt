// What each clerk asks, in three words.
ghost use Rattle.std.specs.Prelude.{◌≡◌};
ghost use Rattle.deals.specs.Tables.{op_of, op_at, SameLines, OnlyAsk};
ghost use Rattle.deals.specs.Kinds.{kind_of};
ghost use Rattle.deals.specs.Loans.{SameRoom};

use super::Op;
use super::layout::{ASK_WORDS, ASKS_AT};
use super::tables::{Tables, TablesMut};
use clerk::Clerk;

// The kinds of askings, in the order of their numbers in the room.
#[derive(Clone, Copy, Debug, PartialEq, Eq)]
enum Kind {
    Get,
    Put,
    Drop,
    Next,
    Mark,
    Back,
    Commit,
    Undo,
}

// A number that no kind has is read as an undo.
impl From<u64> for Kind {
    ghost from_gives = { λ number kind. kind ≡ kind_of number };

    fn from(number: u64) -> Kind {
        match number {
            0 => Kind::Get,
            1 => Kind::Put,
            2 => Kind::Drop,
            3 => Kind::Next,
            4 => Kind::Mark,
            5 => Kind::Back,
            6 => Kind::Commit,
            _ => Kind::Undo,
        }
    }
}

// Marks have numbers of 32 bits.
const MARKS: u64 = 1 << 32;

impl From<[u64; ASK_WORDS]> for Op {
    ghost from_gives = { λ words o. o ≡ op_of words };

    fn from([kind, a, b]: [u64; ASK_WORDS]) -> Op {
        match Kind::from(kind) {
            Kind::Get => Op::Get(a),
            Kind::Put => Op::Put(a, b),
            Kind::Drop => Op::Drop(a),
            Kind::Next => Op::Next(a),
            Kind::Mark => Op::Mark,
            Kind::Back => Op::Back((a % MARKS) as u32),
            Kind::Commit => Op::Commit,
            Kind::Undo => Op::Undo,
        }
    }
}

impl From<Op> for [u64; ASK_WORDS] {
    ghost from_gives = { λ o words. op_of words ≡ o };

    fn from(o: Op) -> [u64; ASK_WORDS] {
        let (kind, a, b) = match o {
            Op::Get(k) => (Kind::Get, k, 0),
            Op::Put(k, x) => (Kind::Put, k, x),
            Op::Drop(k) => (Kind::Drop, k, 0),
            Op::Next(k) => (Kind::Next, k, 0),
            Op::Mark => (Kind::Mark, 0, 0),
            Op::Back(j) => (Kind::Back, u64::from(j), 0),
            Op::Commit => (Kind::Commit, 0, 0),
            Op::Undo => (Kind::Undo, 0, 0),
        };
        [kind as u64, a, b]
    }
}

impl<'a> Tables<'a> {
    /// What the clerk asks.
    #[tactic(auto, unfolding(crate::specs::Tables::op_at))]
    pub fn read_op(&self, c: Clerk) -> Op
        ensures { result ≡ op_at self.now.room.now c }
    {
        let at = ASKS_AT + ASK_WORDS * c.index();
        Op::from([self.room[at], self.room[at + 1], self.room[at + 2]])
    }
}

impl<'a> TablesMut<'a> {
    /// The clerk asks this from now on.
    pub fn write_op(&mut self, c: Clerk, o: Op)
        ensures lent { SameRoom self.old self.new }
        ensures written { op_at self.new.room.now c ≡ o }
        ensures lines { SameLines self.old.room.now self.new.room.now }
        ensures others { OnlyAsk c self.old.room.now self.new.room.now }
    {
        let words: [u64; ASK_WORDS] = o.into();
        let at = ASKS_AT + ASK_WORDS * c.index();
        self.room[at..at + ASK_WORDS].copy_from_slice(&words);
    }
}
