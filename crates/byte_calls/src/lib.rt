// The calls on lists of bytes: decode what is needed, make the call, and encode what it gives and leaves.
#![tactic(auto)]

pub mod change; // the change calls
pub mod reading; // test and compare

// So many values a call on a small book has room for, and so less to clear.
pub const FEW_VALUES: usize = 4096;

// .. and a call on any other, for one more than any accepted list has.
const MANY_VALUES: usize = 32769;

// The answer where a list is not a whole number of entries: refused, number 1.
pub const NOT_WHOLE: u64 = 258;
