// Pages of 512 words, which stand one behind the other in a slice; and the one way in which asking for pages fails.
#![tactic(auto)]

ghost use Rattle.std.specs.Prelude.{◌≡◌, ◌+◌, ◌*◌, ◌≤◌, length};
ghost use Rattle.pages.specs.Pages.{page_words, pages_in, page_at, with_page};

/// Words of a page.
pub const PAGE_WORDS: usize = 512;

/// The power has gone.
#[derive(Clone, Copy, Debug, PartialEq, Eq)]
pub struct Gone;

/// How many whole pages the words are.
pub fn pages_in(words: &[u64]) -> usize
    ensures { result ≡ pages_in words.now }
{
    words.len() / PAGE_WORDS
}

/// Page p, where it stands.
#[tactic(auto, using(crate::proofs::Cuts::cut_len))]
pub fn page(words: &[u64], p: usize) -> &[u64]
    requires { page_words * (p + 1) ≤ length words.now }
    ensures words { result.now ≡ page_at words.now p }
    ensures long { length result.now ≡ page_words }
{
    let start = PAGE_WORDS * p;
    &words[start..start + PAGE_WORDS]
}

/// Makes page p what another page is. All other words stay.
pub fn put_page(words: &mut [u64], p: usize, page: &[u64])
    requires { (page_words * (p + 1) ≤ length words.old) × (length page.now ≡ page_words) }
    ensures { words.new ≡ with_page words.old p page.now }
{
    let start = PAGE_WORDS * p;
    words[start..start + PAGE_WORDS].copy_from_slice(page);
}
