// The tree at the store's root, asked and changed by key.
ghost use Rattle.std.specs.Prelude.{◌≡◌, ◌+◌, ◌-◌, ◌*◌, ◌<◌, ◌≤◌, ◌^◌, is_ok, IfOk};
ghost use Rattle.node.specs.Pairs.{find, above, put_in, drop_in};
ghost use Rattle.tree.specs.Grow.{New};
ghost use Rattle.tree.specs.Shrink.{Was};
ghost use Rattle.pager.specs.Ground.{room_by};
ghost use Rattle.pager.specs.Volume.{Paged, Ready, Ends, pairs_in, view_of, standing};

use crate::Pager;
use store::head::Root;
use store::{Device, Gone, Part, Store};
use tree::TreeRoot;

// Where the tree stands.
fn tree_of(root: &Root) -> TreeRoot
    ensures page { result.page ≡ root.now.page }
    ensures height { result.height ≡ root.now.height }
{
    TreeRoot {
        page: root.page,
        height: root.height,
    }
}

// The tree stands elsewhere now, with so many pairs.
#[tactic(auto, unfolding(crate::specs::Volume::standing))]
fn stand(store: &mut Store, tree: TreeRoot, pairs: u64)
    ensures { store.new ≡ standing store.old tree pairs }
{
    store.root.page = tree.page;
    store.root.height = tree.height;
    store.root.pairs = pairs;
}

/// The word at k.
pub fn get<D: Device>(
    d: &mut D,
    part: &mut Part,
    store: &mut Store,
    k: u64,
) -> Result<Option<u64>, Gone>
    requires paged { Paged (D.medium d.old) part.old store.old }
    requires asks { store.old.root.height ≤ (D.medium d.old).left }
    ensures got { IfOk result (λ o. o ≡ find k (pairs_in (D.medium d.old) part.old store.old)) }
    ensures ends { Ends (pairs_in (D.medium d.old) part.old store.old) store.old.root.height 0 (D.medium d.old) part.old store.old (is_ok result) (D.medium d.new) part.new store.new }
    ensures tied { D.tie d.new ≡ D.tie d.old }
{
    let tree = tree_of(&store.root);
    let mut pager = Pager {
        device: d,
        part,
        store,
    };
    tree.get(&mut pager, k)
}

/// The first pair with a key above k.
pub fn next<D: Device>(
    d: &mut D,
    part: &mut Part,
    store: &mut Store,
    k: u64,
) -> Result<Option<(u64, u64)>, Gone>
    requires paged { Paged (D.medium d.old) part.old store.old }
    requires asks { 2 * store.old.root.height ≤ (D.medium d.old).left + 1 }
    ensures got { IfOk result (λ o. o ≡ above k (pairs_in (D.medium d.old) part.old store.old)) }
    ensures ends { Ends (pairs_in (D.medium d.old) part.old store.old) (2 * store.old.root.height - 1) 0 (D.medium d.old) part.old store.old (is_ok result) (D.medium d.new) part.new store.new }
    ensures tied { D.tie d.new ≡ D.tie d.old }
{
    let tree = tree_of(&store.root);
    let mut pager = Pager {
        device: d,
        part,
        store,
    };
    tree.next(&mut pager, k)
}

/// Puts the pair (k, x); whether the key is new.
pub fn put<D: Device>(
    d: &mut D,
    part: &mut Part,
    store: &mut Store,
    k: u64,
    x: u64,
) -> Result<bool, Gone>
    requires paged { Paged (D.medium d.old) part.old store.old }
    requires ready { Ready (2 * store.old.root.height + 1) part.old store.old }
    requires room { store.old.root.height + 1 ≤ room_by (D.medium d.old).pages store.old.root (view_of (D.medium d.old) part.old) }
    requires few { store.old.root.pairs < 2 ^ 63 }
    requires asks { 3 * store.old.root.height + 1 ≤ (D.medium d.old).left }
    ensures got { IfOk result (New k (pairs_in (D.medium d.old) part.old store.old)) }
    ensures ends { Ends (put_in k x (pairs_in (D.medium d.old) part.old store.old)) (3 * store.old.root.height + 1) (2 * store.old.root.height + 1) (D.medium d.old) part.old store.old (is_ok result) (D.medium d.new) part.new store.new }
    ensures tied { D.tie d.new ≡ D.tie d.old }
{
    let mut tree = tree_of(&store.root);
    let pairs = store.root.pairs;
    let mut pager = Pager {
        device: d,
        part,
        store: &mut *store,
    };
    let new = tree.put(&mut pager, k, x)?;
    stand(store, tree, pairs + u64::from(new));
    Ok(new)
}

/// Takes the pair at k out; whether it was there.
pub fn remove<D: Device>(
    d: &mut D,
    part: &mut Part,
    store: &mut Store,
    k: u64,
) -> Result<bool, Gone>
    requires paged { Paged (D.medium d.old) part.old store.old }
    requires ready { Ready (2 * store.old.root.height) part.old store.old }
    requires asks { 4 * store.old.root.height ≤ (D.medium d.old).left }
    ensures got { IfOk result (Was k (pairs_in (D.medium d.old) part.old store.old)) }
    ensures ends { Ends (drop_in k (pairs_in (D.medium d.old) part.old store.old)) (4 * store.old.root.height) (2 * store.old.root.height) (D.medium d.old) part.old store.old (is_ok result) (D.medium d.new) part.new store.new }
    ensures tied { D.tie d.new ≡ D.tie d.old }
{
    let mut tree = tree_of(&store.root);
    let pairs = store.root.pairs;
    let mut pager = Pager {
        device: d,
        part,
        store: &mut *store,
    };
    let was = tree.drop(&mut pager, k)?;
    stand(store, tree, pairs - u64::from(was));
    Ok(was)
}
