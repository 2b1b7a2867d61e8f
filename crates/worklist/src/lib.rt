// What the filter works with: the queue of pairs, and the support list.
// A pair of combination and member is numbered by the member's place in the list of all combinations' members.
#![tactic(auto)]

pub mod queue; // which pairs wait
pub mod list; // the numbers of the supports
