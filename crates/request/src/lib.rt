// What the calls do before and after the filter: check the request, remove what the change removes, count and answer.
#![tactic(auto)]

pub mod checks; // the faults of a request, in checking order
pub mod counts; // the live counts
pub mod removal; // the tuples that a change removes
pub mod choices; // several choices at once
pub mod plan; // both, for each change call
pub mod answer; // what a change call answers
