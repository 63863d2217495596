// The tree's pages on the store: free ones come off the free list, and a changed one joins the batch.
#![tactic(auto)]

ghost use Rattle.std.specs.Prelude.{◌≡◌, ◌∷◌};
ghost use Rattle.pager.specs.Volume.{pages_of, Onto};

mod by_key;

pub use by_key::{get, next, put, remove};
use store::{Device, Gone, Part, Store};
use tree::PageStore;

/// The pages of a device and of the frames in a part, lent for one call of the tree's.
#[derive(Drop)]
pub struct Pager<'a, D> {
    pub device: &'a mut D,
    pub part: &'a mut Part,
    pub store: &'a mut Store,
}

impl<'a, D: Device> PageStore for Pager<'a, D> {
    ghost state = { λ w. pages_of (D.Device.medium w.device.now) w.part.now w.store.now };

    ghost onto = { λ a ok b. Onto (D.Device.medium a.device.now) a.part.now a.store.now ok (D.Device.medium b.device.now) b.part.now b.store.now };

    // The parts' names first, then what the device is itself lent.
    ghost tie = { λ w. w.device.ghost_name ∷ w.part.ghost_name ∷ w.store.ghost_name ∷ D.Device.tie w.device.now };

    fn read(&mut self, p: u64, into: &mut [u64]) -> Result<(), Gone> {
        self.store.read_page(self.device, self.part, p, into)
    }

    fn write(&mut self, p: u64, from: &[u64]) -> Result<(), Gone> {
        store::write_page(self.part, p, from);
        Ok(())
    }

    fn alloc(&mut self) -> Result<u64, Gone> {
        self.store.alloc(self.device, self.part)
    }

    fn release(&mut self, p: u64) -> Result<(), Gone> {
        self.store.release(self.part, p);
        Ok(())
    }
}
