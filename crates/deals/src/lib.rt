// The disk below, the clerks above, and the office between them.
#![tactic(auto)]

pub mod asked;
pub mod desk;
pub mod drive;
pub mod engine;
pub mod layout;
pub mod lives;
pub mod office;
pub mod order;
pub mod paired;
pub mod pick;
pub mod refusals;
pub mod serving;
pub mod tables;
pub mod tally;

ghost use Rattle.std.specs.Prelude.{◌≡◌, ℕ, ◌+◌, ◌*◌, ◌<◌, ◌≤◌, Bool, true, false, T, List, [], ◌∷◌, length, is_ok};
ghost use Rattle.deals.specs.Disk.{Disk, MayAsk, Reading, Writing, Syncing, Back, Blank, allowed};
ghost use Rattle.deals.specs.Deals.{Event, Asked, Told, Turned, Cut, Explained, Comes};
ghost use Rattle.deals.specs.Promise.{can, KeysRise, OneAfterTheOther, KeepsOthers, CoreBuilt};
ghost use Rattle.deals.specs.Examples.{ExamplesHold};

pub use office::{Office, open};

/// What is asked and told stands as the statements fix it, without further derives.
#[derive(Clone, Copy)]
pub enum Op {
    Get(u64),
    Put(u64, u64),
    Drop(u64),
    Next(u64),
    Mark,
    Back(u32),
    Commit,
    Undo,
}

#[derive(Clone, Copy)]
pub enum Answer {
    Done,
    Missing,
    Word(u64),
    Pair(u64, u64),
    Point(u32),
    No(u32),
    Full,
    Clash,
}

/// The power has gone. As the statements fix it; below `deals` it is `pages::Gone`.
#[derive(Clone, Copy)]
pub struct Gone;

pub trait Pages {
    ghost disk: { Self → Disk };

    fn pages(&self) -> u64
        ensures { result ≡ (disk self.now).pages };

    fn read(&mut self, p: u64, into: &mut [u64]) -> Result<(), Gone>
        requires { (MayAsk (disk self.old) p) × (length into.old ≡ 512) }
        ensures { Reading (disk self.old) p into.new (is_ok result) (disk self.new) };

    fn write(&mut self, p: u64, bytes: &[u64]) -> Result<(), Gone>
        requires { (MayAsk (disk self.old) p) × (length bytes.now ≡ 512) }
        ensures { Writing (disk self.old) p bytes.now (is_ok result) (disk self.new) };

    fn sync(&mut self) -> Result<(), Gone>
        requires { 0 < (disk self.old).left }
        ensures { Syncing (disk self.old) (is_ok result) (disk self.new) };
}

/// What the office doesn't see.
pub trait Power: Pages {
    fn allow(&mut self, asks: u64)
        ensures { Self.disk self.new ≡ allowed asks (Self.disk self.old) };
    // It comes back; nothing is known of what memory holds.
    fn back(&mut self, room: &mut [u64])
        requires { (Self.disk self.old).on ≡ false }
        ensures { Back (Self.disk self.old) (Self.disk self.new) };
}

/// Clerks, 0 to 31. What they are told they may be told: that is the promise.
pub trait Clerks {
    ghost seen: { Self → List Event };

    ghost space: { Self → ℕ };

    // is there room to note more
    fn more(&self) -> bool
        ensures { T result → 8 ≤ space self.now };
    // does one ask, who has nothing under way
    fn next(&mut self) -> Option<(u32, Op)>
        requires { 0 < space self.old }
        ensures { (Comes result (seen self.old) (seen self.new)) × (space self.old ≤ space self.new + 1) };

    fn told(&mut self, who: u32, a: Answer, pages: u64)
        requires { (0 < space self.old) × (Explained can pages (Told who a ∷ seen self.old)) }
        ensures { (seen self.new ≡ Told who a ∷ seen self.old) × (space self.old ≤ space self.new + 1) };

    fn turned(&mut self, pages: u64)
        requires { (0 < space self.old) × (Explained can pages (Turned ∷ seen self.old)) }
        ensures { (seen self.new ≡ Turned ∷ seen self.old) × (space self.old ≤ space self.new + 1) };

    fn cut(&mut self)
        requires { 0 < space self.old }
        ensures { (seen self.new ≡ Cut ∷ seen self.old) × (space self.old ≤ space self.new + 1) };
}

/// What the first landings build is never taken back.
pub fn core_built() -> u8
    ensures { CoreBuilt }
{
    0
}

/// What is promised beside, each a theorem that a contract names.
pub fn keys_rise() -> u8
    ensures { KeysRise }
{
    0
}

pub fn one_after_the_other() -> u8
    ensures { OneAfterTheOther }
{
    0
}

pub fn keeps_others() -> u8
    ensures { KeepsOthers }
{
    0
}

/// What is large is in the room.
pub fn office_is_small() -> bool
    ensures { T result }
{
    std::mem::size_of::<Office>() <= 4096
}

/// The worked examples of the rules.
pub fn examples_hold() -> u8
    ensures { ExamplesHold }
{
    0
}
