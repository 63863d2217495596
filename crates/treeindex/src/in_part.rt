// The tree in the store's part as a slice of the room. A part that is made of a slice which is cut out on the spot wouldn't be known to
// be given back, so each call has a function of its own between the room and the pager.
ghost use Rattle.std.specs.Prelude.{◌≡◌, ◌+◌, ◌-◌, ◌*◌, ◌<◌, ◌≤◌, ◌^◌, length, is_ok, IfOk};
ghost use Rattle.node.specs.Pairs.{find, above, put_in, drop_in};
ghost use Rattle.tree.specs.Grow.{New};
ghost use Rattle.tree.specs.Shrink.{Was};
ghost use Rattle.pager.specs.Ground.{room_by};
ghost use Rattle.pager.specs.Volume.{Paged, Ready, Ends, pairs_in, view_of};

use pages::Gone;
use store::{Device, Store, part_of};

// The word at k.
pub(crate) fn get<D: Device>(
    d: &mut D,
    words: &mut [u64],
    store: &mut Store,
    k: u64,
) -> Result<Option<u64>, Gone>
    requires long { length words.old ≡ 62976 }
    requires paged { Paged (D.medium d.old) words.old store.old }
    requires asks { store.old.root.height ≤ (D.medium d.old).left }
    ensures got { IfOk result (λ o. o ≡ find k (pairs_in (D.medium d.old) words.old store.old)) }
    ensures ends { Ends (pairs_in (D.medium d.old) words.old store.old) store.old.root.height 0 (D.medium d.old) words.old store.old (is_ok result) (D.medium d.new) words.new store.new }
    ensures tied { D.tie d.new ≡ D.tie d.old }
{
    pager::get(d, part_of(words), store, k)
}

// The first pair with a key above k.
pub(crate) fn next<D: Device>(
    d: &mut D,
    words: &mut [u64],
    store: &mut Store,
    k: u64,
) -> Result<Option<(u64, u64)>, Gone>
    requires long { length words.old ≡ 62976 }
    requires paged { Paged (D.medium d.old) words.old store.old }
    requires asks { 2 * store.old.root.height ≤ (D.medium d.old).left + 1 }
    ensures got { IfOk result (λ o. o ≡ above k (pairs_in (D.medium d.old) words.old store.old)) }
    ensures ends { Ends (pairs_in (D.medium d.old) words.old store.old) (2 * store.old.root.height - 1) 0 (D.medium d.old) words.old store.old (is_ok result) (D.medium d.new) words.new store.new }
    ensures tied { D.tie d.new ≡ D.tie d.old }
{
    pager::next(d, part_of(words), store, k)
}

// Puts the pair (k, x); whether the key is new.
pub(crate) fn put<D: Device>(
    d: &mut D,
    words: &mut [u64],
    store: &mut Store,
    k: u64,
    x: u64,
) -> Result<bool, Gone>
    requires long { length words.old ≡ 62976 }
    requires paged { Paged (D.medium d.old) words.old store.old }
    requires ready { Ready (2 * store.old.root.height + 1) words.old store.old }
    requires room { store.old.root.height + 1 ≤ room_by (D.medium d.old).pages store.old.root (view_of (D.medium d.old) words.old) }
    requires few { store.old.root.pairs < 2 ^ 63 }
    requires asks { 3 * store.old.root.height + 1 ≤ (D.medium d.old).left }
    ensures got { IfOk result (New k (pairs_in (D.medium d.old) words.old store.old)) }
    ensures ends { Ends (put_in k x (pairs_in (D.medium d.old) words.old store.old)) (3 * store.old.root.height + 1) (2 * store.old.root.height + 1) (D.medium d.old) words.old store.old (is_ok result) (D.medium d.new) words.new store.new }
    ensures tied { D.tie d.new ≡ D.tie d.old }
{
    pager::put(d, part_of(words), store, k, x)
}

// Takes the pair at k out; whether it was there.
pub(crate) fn remove<D: Device>(
    d: &mut D,
    words: &mut [u64],
    store: &mut Store,
    k: u64,
) -> Result<bool, Gone>
    requires long { length words.old ≡ 62976 }
    requires paged { Paged (D.medium d.old) words.old store.old }
    requires ready { Ready (2 * store.old.root.height) words.old store.old }
    requires asks { 4 * store.old.root.height ≤ (D.medium d.old).left }
    ensures got { IfOk result (Was k (pairs_in (D.medium d.old) words.old store.old)) }
    ensures ends { Ends (drop_in k (pairs_in (D.medium d.old) words.old store.old)) (4 * store.old.root.height) (2 * store.old.root.height) (D.medium d.old) words.old store.old (is_ok result) (D.medium d.new) words.new store.new }
    ensures tied { D.tie d.new ≡ D.tie d.old }
{
    pager::remove(d, part_of(words), store, k)
}
