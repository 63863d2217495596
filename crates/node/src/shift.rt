// Rows of words, of which the first n count: parts of a page, in which no list of the library's can stand.
ghost use Rattle.std.specs.Prelude.{◌≡◌, ℕ, ◌+◌, ◌-◌, ◌<◌, ◌≤◌, ◌++◌, length, take, drop};
ghost use Rattle.std.specs.List.{insert, remove};
/// Puts x at i among the first n words of the row, moving the later ones up by one.
pub fn shift_in(row: &mut [u64], n: usize, i: usize, x: u64)
    requires { (n < length row.old) × (i ≤ n) }
    ensures { take (n + 1) row.new ≡ insert (take n row.old) i x }
{
    let part = &mut row[i..n + 1];
    part.rotate_right(1);
    row[i] = x;
}

/// Takes the word at i out of the first n words of the row, moving the later ones down by one.
pub fn shift_out(row: &mut [u64], n: usize, i: usize)
    requires { (n ≤ length row.old) × (i < n) }
    ensures { take (n - 1) row.new ≡ remove (take n row.old) i }
{
    let part = &mut row[i..n];
    part.rotate_left(1);
}

/// Copies the words to the row, behind its first n.
pub fn copy_row(words: &[u64], row: &mut [u64], n: usize)
    requires { n + length words.now ≤ length row.old }
    ensures { take (n + length words.now) row.new ≡ take n row.old ++ words.now }
{
    let part = &mut row[n..n + words.len()];
    part.copy_from_slice(words);
}
