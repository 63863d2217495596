// What a deal sees: its own lines, the queue of committed writes, and the tree under them.
#![tactic(auto)]

pub mod apply;
pub mod commit;
pub mod index;
pub mod kept;
pub mod laws;
pub mod look;
pub mod seen;
pub mod sight;
