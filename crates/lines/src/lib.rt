// Lines: what a deal said, and what the queue holds, three words each, in rings of such lines.
#![tactic(auto)]

pub mod line;
pub mod marks;
pub mod own;
pub mod queue;
pub mod ring;
pub mod tables;
