#![tactic(auto)]

// Cases of locks and rings that are small enough to see by eye.
#[cfg(test)]
mod rings;
#[cfg(test)]
mod ways;
