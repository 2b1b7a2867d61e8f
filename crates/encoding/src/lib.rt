// The parts of the calls from C: what they read from bytes where it lies, and what they give.
#![tactic(auto)]

pub mod lengths; // whole numbers of entries
pub mod sheets; // relation records as bytes
pub mod ids; // ids as bytes
pub mod choices; // pairs of variables and values as bytes
pub mod packing; // answers as one number
