// A network's faults, and where its tuples clash.
#![tactic(auto)]

pub mod faults; // the faults of a network, in checking order
pub mod agreement; // where tuples clash, and which agree
pub mod comparison; // the call that compares two tuples by id
