// An index that keeps its pairs in a list. It asks no disk and keeps nothing in the room.
ghost use Rattle.std.specs.Prelude.{◌≡◌, ◌≤◌, [], vec_len, OnOk};
ghost use Rattle.std.specs.List.{insert};
ghost use Rattle.view_tests.specs.Play.{free};

use crate::places::{pair_above, place_from, place_of, word_at};
use pages::Gone;
use view::index::Index;

#[derive(Drop)]
pub struct PairList {
    pub items: Vec<(u64, u64)>,
}

// A list that can't grow is told as the power that goes.
fn insert(items: &mut Vec<(u64, u64)>, i: usize, pair: (u64, u64)) -> Result<(), Gone>
    requires { i ≤ vec_len items.old }
    ensures { OnOk result (items.new.items ≡ insert items.old.items i pair) }
{
    items.insert(i, pair).map_err(|_| Gone)
}

impl Index for PairList {
    ghost pairs = { λ s _. s.items.items };

    ghost budget = { λ _. free };

    ghost ready = { λ _ _. Unit {0} };

    ghost onto = { λ _ _ _ _ _. Unit {0} };

    ghost tie = { λ _. [] };

    fn get(&mut self, room: &mut [u64], k: u64) -> Result<Option<u64>, Gone> {
        Ok(word_at(&self.items, k))
    }

    fn next(&mut self, room: &mut [u64], k: u64) -> Result<Option<(u64, u64)>, Gone> {
        Ok(pair_above(&self.items, k))
    }

    fn put(&mut self, room: &mut [u64], k: u64, x: u64) -> Result<(), Gone> {
        match place_from(&self.items, k) {
            Some(i) if self.items[i].0 == k => self.items[i] = (k, x),
            Some(i) => insert(&mut self.items, i, (k, x))?,
            None => {
                let end = self.items.len();
                insert(&mut self.items, end, (k, x))?;
            }
        }
        Ok(())
    }

    fn remove(&mut self, room: &mut [u64], k: u64) -> Result<(), Gone> {
        if let Some(i) = place_of(&self.items, k) {
            self.items.remove(i);
        }
        Ok(())
    }
}
