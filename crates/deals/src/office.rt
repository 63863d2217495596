// A stand-in for the engine: nothing is built yet, so whatever is asked is told `No(9)`.
ghost use Rattle.std.specs.Prelude.{◌≡◌, ◌≤◌, false, is_ok, Ok};
ghost use Rattle.deals.specs.Stub.{joined, first_told, others};

use super::refusals::Refusal;
use super::{Answer, Gone, Op, Pages};
use clerk::Clerk;

/// Who has asked and hasn't been told, a bit for each clerk. A `ClerkSet` would not do: it has no lowest, and lets nobody out.
#[derive(Drop)]
pub struct Office {
    waiting: u32,
}

/// Nobody has asked yet, and the disk isn't needed.
pub fn open<D: Pages>(d: &mut D, room: &mut [u64]) -> Result<Office, Gone>
    requires soon { 4194304 ≤ (D.disk d.old).left }
    ensures only { is_ok result ≡ false → (D.disk d.new).on ≡ false }
    ensures idle { result ≡ Ok (record { waiting = 0 }) }
    ensures disk { D.disk d.new ≡ D.disk d.old }
    ensures room { room.new ≡ room.old }
{
    Ok(Office { waiting: 0 })
}

impl Office {
    /// It's asked. Nobody but the clerks 0 to 31 can ask.
    pub fn ask(&mut self, room: &mut [u64], who: u32, o: Op)
        ensures waits { self.new.waiting ≡ joined self.old.waiting who }
        ensures room { room.new ≡ room.old }
    {
        let _o = o;
        if let Ok(clerk) = Clerk::try_from(who) {
            self.waiting |= 1 << clerk.number();
        }
    }

    /// A turn, in which the lowest clerk who waits is told.
    pub fn turn<D: Pages>(
        &mut self,
        d: &mut D,
        room: &mut [u64],
    ) -> Result<Option<(u32, Answer)>, Gone>
        requires soon { 512 ≤ (D.disk d.old).left }
        ensures only { is_ok result ≡ false → (D.disk d.new).on ≡ false }
        ensures told { result ≡ Ok (first_told self.old.waiting) }
        ensures rest { self.new.waiting ≡ others self.old.waiting }
        ensures disk { D.disk d.new ≡ D.disk d.old }
        ensures room { room.new ≡ room.old }
    {
        if self.waiting == 0 {
            return Ok(None);
        }
        let first = self.waiting.trailing_zeros();
        self.waiting &= self.waiting - 1;
        Ok(Some((first, Refusal::NotBuilt.into())))
    }
}
