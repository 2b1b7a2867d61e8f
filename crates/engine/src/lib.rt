// Filtering to the largest consistent set.
#![tactic(auto)]

pub mod rest; // the rest of a pair's tuples sought together
pub mod visit; // a visit of one pair of combination and member
pub mod blank; // the numbers of dead tuples
pub mod filter; // visits until no pair waits
