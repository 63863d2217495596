// Where a key stands in a list of pairs.
ghost use Rattle.std.specs.Prelude.{◌≡◌, ◌==◌, position, find as find_first, nat_lt, nat_le};
ghost use Rattle.node.specs.Pairs.{find, above};

// The two that follow are one call of the library each, with another test.

/// The first pair with this key.
pub fn place_of(items: &[(u64, u64)], k: u64) -> Option<usize>
    ensures { result ≡ position (λ e. e.0 == k) items.now }
{
    items.iter().position(|pair| pair.0 == k)
}

/// The first pair with a key that is not below this one.
pub fn place_from(items: &[(u64, u64)], k: u64) -> Option<usize>
    ensures { result ≡ position (λ e. nat_le k e.0) items.now }
{
    items.iter().position(|pair| pair.0 >= k)
}

pub fn word_at(items: &[(u64, u64)], k: u64) -> Option<u64>
    ensures { result ≡ find k items.now }
{
    items.iter().find(|pair| pair.0 == k).map(|pair| pair.1)
}

pub fn pair_above(items: &[(u64, u64)], k: u64) -> Option<(u64, u64)>
    ensures { result ≡ above k items.now }
{
    items.iter().copied().find(|pair| pair.0 > k)
}
