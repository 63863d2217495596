// A B+tree of pages, over any store of pages: it answers as a list of pairs with rising keys does.
#![tactic(auto)]

pub mod count;
mod insert;
mod page_store;
mod remove;
mod search;

pub use page_store::PageStore;
pub use pages::Gone;

/// Where a tree stands: its root's page and its height.
#[derive(Clone, Copy, Debug, PartialEq, Eq)]
#[repr(C)]
pub struct TreeRoot {
    pub page: u64,
    pub height: u64,
}
