// The disk of the statements as the device that the store works on.
ghost use Rattle.std.specs.Prelude.{◌≡◌, [], ◌∷◌, is_ok};
ghost use Rattle.deals.specs.Drives.{medium_of};

use super::{Gone, Pages};
use store::Device;

/// Lent for as long as the store works on it.
#[derive(Drop)]
pub struct Drive<'a, D> {
    pub disk: &'a mut D,
}

// The same end in the store's words.
impl From<Gone> for store::Gone {
    fn from(_gone: Gone) -> store::Gone {
        store::Gone
    }
}

impl<'a, D: Pages> Device for Drive<'a, D> {
    ghost medium = { λ w. medium_of (D.Pages.disk w.disk.now) };

    ghost tie = { λ w. w.disk.ghost_name ∷ [] };

    fn pages(&self) -> u64 {
        self.disk.pages()
    }

    #[tactic(auto, using(crate::proofs::Drives::reads))]
    fn read(&mut self, p: u64, into: &mut [u64]) -> Result<(), store::Gone> {
        Ok(self.disk.read(p, into)?)
    }

    #[tactic(auto, using(crate::proofs::Drives::wrote))]
    fn write(&mut self, p: u64, words: &[u64]) -> Result<(), store::Gone> {
        Ok(self.disk.write(p, words)?)
    }

    #[tactic(auto, using(crate::proofs::Drives::synced))]
    fn sync(&mut self) -> Result<(), store::Gone> {
        Ok(self.disk.sync()?)
    }
}
