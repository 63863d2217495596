// Who is in whose way, who waits for whom, and who gets on first.
#![tactic(auto)]

pub mod graph;
pub mod set;
pub mod way;
