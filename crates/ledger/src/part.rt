// How a commit is made to last, on the slice in which the store's part stands, for the reason that `store::in_slice` gives.
ghost use Rattle.std.specs.Prelude.{◌≡◌, ◌+◌, ◌≤◌, length, is_ok, OnOk};
ghost use Rattle.store.specs.State.{queue_by};
ghost use Rattle.store.specs.Store.{next, Intact};
ghost use Rattle.ledger.specs.Commits.{takes_along, Settles, settle_asks};

use store::in_slice::{seal, take_batch};
use store::{Device, Gone, Lasted, Store};

fn takes_along(store: &Store) -> bool
    ensures { result ≡ takes_along store.now }
{
    store.imaged && store.lasted
}

// What has joined the next head lasts. A batch whose images have lasted is taken with it: that costs no sync of its own.
pub fn settle<D: Device>(store: &mut Store, d: &mut D, words: &mut [u64]) -> Result<Lasted, Gone>
    requires long { length words.old ≡ 62976 }
    requires intact { Intact (D.medium d.old) words.old store.old }
    requires worked { store.old.worked ≤ length (queue_by (next words.old) (D.medium d.old).shown) }
    requires asks { settle_asks words.old store.old ≤ (D.medium d.old).left }
    ensures settles { Settles (D.medium d.old) words.old store.old (is_ok result) (D.medium d.new) words.new store.new }
    ensures asked { OnOk result ((D.medium d.old).left ≤ (D.medium d.new).left + settle_asks words.old store.old) }
    ensures tied { D.tie d.new ≡ D.tie d.old }
{
    if takes_along(store) {
        return take_batch(store, d, words);
    }
    seal(store, d, words)
}
