// What coming up reads of the store's part, on the slice in which it stands, for the reason that `store::in_slice` gives.
ghost use Rattle.std.specs.Prelude.{◌≡◌, ◌+◌, ◌<◌, ◌≤◌, length, is_ok, IfOk};
ghost use Rattle.store.specs.Head.{record_at};
ghost use Rattle.store.specs.Store.{next, scratch_of};
ghost use Rattle.view.specs.Upkeep.{key_of, next_key};
ghost use Rattle.pager.specs.Volume.{Paged, Ends, pairs_in};

use store::head::{Record, record_at};
use store::{Device, Gone, Part, Store, part_of, scratch};

// The part, to be read.
fn part_in(words: &[u64]) -> &Part
    requires { length words.now ≡ 62976 }
    ensures { result.now ≡ words.now }
{
    words.as_array().unwrap()
}

// As `store::queue_pages`.
pub fn queue_pages(words: &[u64]) -> u64
    requires long { length words.now ≡ 62976 }
    requires full { (next words.now).full < 264 }
    ensures { result ≡ (next words.now).full + 1 }
{
    store::queue_pages(part_in(words))
}

// Record j of the page that was read last.
pub fn loaded_record(words: &[u64], j: usize) -> Record
    requires { (length words.now ≡ 62976) × (j < 128) }
    ensures { result ≡ record_at (scratch_of words.now) j }
{
    record_at(scratch(part_in(words)), j)
}

// The key of a pair, where there's one.
fn key_of(found: Option<(u64, u64)>) -> Option<u64>
    ensures { result ≡ key_of found }
{
    found.map(|(key, _)| key)
}

// The tree's first key above k. A tree on so few pages is at most 6 high.
fn next_in<D: Device>(
    store: &mut Store,
    d: &mut D,
    part: &mut Part,
    k: u64,
) -> Result<Option<u64>, Gone>
    requires paged { Paged (D.medium d.old) part.old store.old }
    requires asks { 11 ≤ (D.medium d.old).left }
    ensures got { IfOk result (λ o. o ≡ next_key k (pairs_in (D.medium d.old) part.old store.old)) }
    ensures ends { Ends (pairs_in (D.medium d.old) part.old store.old) 11 0 (D.medium d.old) part.old store.old (is_ok result) (D.medium d.new) part.new store.new }
    ensures tied { D.tie d.new ≡ D.tie d.old }
{
    let found = pager::next(d, part, store, k)?;
    Ok(key_of(found))
}

// And that in the slice.
pub fn next_above<D: Device>(
    store: &mut Store,
    d: &mut D,
    words: &mut [u64],
    k: u64,
) -> Result<Option<u64>, Gone>
    requires long { length words.old ≡ 62976 }
    requires paged { Paged (D.medium d.old) words.old store.old }
    requires asks { 11 ≤ (D.medium d.old).left }
    ensures got { IfOk result (λ o. o ≡ next_key k (pairs_in (D.medium d.old) words.old store.old)) }
    ensures ends { Ends (pairs_in (D.medium d.old) words.old store.old) 11 0 (D.medium d.old) words.old store.old (is_ok result) (D.medium d.new) words.new store.new }
    ensures tied { D.tie d.new ≡ D.tie d.old }
{
    next_in(store, d, part_of(words), k)
}
