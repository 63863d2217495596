// A device of pages, and what a power cut may leave of them.
//
// `tie` names what a device is itself lent. Each function of the store that is lent a device says by `tied` that this stays, or whoever
// lent it wouldn't know what it ends as. And pages are slices here, so that they have 512 words is asked wherever one is passed on.
ghost use Rattle.std.specs.Borrow.{GName};
ghost use Rattle.std.specs.Prelude.{◌≡◌, ◌<◌, List, length, is_ok};
ghost use Rattle.store.specs.Medium.{Medium, MayAsk, Reads, Wrote, Synced};

use crate::Gone;

/// Pages that a power cut may tear. Each clause holds whichever way the call ends.
pub trait Device {
    ghost medium: { Self → Medium };

    ghost tie: { Self → List GName };

    fn pages(&self) -> u64
        ensures { result ≡ (medium self.now).pages };

    fn read(&mut self, p: u64, into: &mut [u64]) -> Result<(), Gone>
        requires { (MayAsk (medium self.old) p) × (length into.old ≡ 512) }
        ensures reads { Reads (medium self.old) p into.new (is_ok result) (medium self.new) }
        ensures tied { tie self.new ≡ tie self.old };

    fn write(&mut self, p: u64, words: &[u64]) -> Result<(), Gone>
        requires { (MayAsk (medium self.old) p) × (length words.now ≡ 512) }
        ensures wrote { Wrote 1 (medium self.old) p words.now (is_ok result) (medium self.new) }
        ensures tied { tie self.new ≡ tie self.old };

    fn sync(&mut self) -> Result<(), Gone>
        requires { 0 < (medium self.old).left }
        ensures synced { Synced (medium self.old) (is_ok result) (medium self.new) }
        ensures tied { tie self.new ≡ tie self.old };
}
