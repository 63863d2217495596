// The tree on the store, as deals see it.
#![tactic(auto)]

ghost use Rattle.std.specs.Prelude.{◌≡◌, ◌∷◌};
ghost use Rattle.pager.specs.Volume.{pairs_in};
ghost use Rattle.treeindex.specs.Behind.{part_in, budget_of, Ready, Onto};

mod in_part;

use lines::tables::TABLES_END;
use pages::Gone;
use store::{Device, PART_WORDS, Store};
use view::index::Index;

/// The tree at the store's root, with the device and what is noted of the store, both lent. The frames come with the room.
#[derive(Drop)]
pub struct TreeIndex<'a, D> {
    pub device: &'a mut D,
    pub store: &'a mut Store,
}

impl<'a, D: Device> Index for TreeIndex<'a, D> {
    ghost pairs = { λ w v. pairs_in (D.Device.medium w.device.now) (part_in v) w.store.now };

    ghost budget = { λ w. budget_of (D.Device.medium w.device.now) };

    ghost ready = { λ w v. Ready (D.Device.medium w.device.now) v w.store.now };

    ghost onto = { λ a w ok b v. Onto (D.Device.medium a.device.now) w a.store.now ok (D.Device.medium b.device.now) v b.store.now };

    ghost tie = { λ w. w.device.ghost_name ∷ w.store.ghost_name ∷ D.Device.tie w.device.now };

    fn get(&mut self, room: &mut [u64], k: u64) -> Result<Option<u64>, Gone> {
        let words = &mut room[TABLES_END..TABLES_END + PART_WORDS];
        in_part::get(self.device, words, self.store, k)
    }

    fn next(&mut self, room: &mut [u64], k: u64) -> Result<Option<(u64, u64)>, Gone> {
        let words = &mut room[TABLES_END..TABLES_END + PART_WORDS];
        in_part::next(self.device, words, self.store, k)
    }

    fn put(&mut self, room: &mut [u64], k: u64, x: u64) -> Result<(), Gone> {
        let words = &mut room[TABLES_END..TABLES_END + PART_WORDS];
        in_part::put(self.device, words, self.store, k, x)?;
        Ok(())
    }

    fn remove(&mut self, room: &mut [u64], k: u64) -> Result<(), Gone> {
        let words = &mut room[TABLES_END..TABLES_END + PART_WORDS];
        in_part::remove(self.device, words, self.store, k)?;
        Ok(())
    }
}
