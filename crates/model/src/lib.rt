// The types of the interface, and the papers' numbers.
#![tactic(auto)]

pub mod refusal; // the refusal numbers

// Document 01's numbers. specs/Limits.antt names the same ones; code that used another would not be proved.
pub const MAX_RELATIONS: usize = 64;

pub const MAX_WIDTH: usize = 8;

pub const MAX_TUPLES: usize = 4096;

pub const VARIABLES: usize = 64;

// stands for every value (card 4)
pub const ANY_VALUE: Value = 4294967295;

// in place of a variable where two tuples agree (card 3)
pub const NO_VARIABLE: u16 = 64;

pub const MIN_MEMBERS: usize = 2;

pub const MAX_MEMBERS: usize = 4;

pub const MAX_COMBINATIONS: usize = 256;

pub const MAX_PAIRS: u16 = 1024;

pub const MAX_SUPPORT_NUMBERS: usize = 32768;

pub const NO_SUPPORT: u16 = 65535;

pub const WORD_BITS: usize = 64;

// A relation: how many variables its scope has, and how many tuples it holds.
#[derive(Clone, Copy)]
pub struct Relation {
    pub width: u16,
    pub tuples: u16,
}

// A relation record as it is lent (document 01: sheet record): how many variables its scope has, how many tuples it holds, and how
// many of its tuples live (card 6). A C program may lend a list of them.
#[repr(C)]
#[derive(Clone, Copy)]
pub struct Record {
    pub width: u16,
    pub tuples: u16,
    pub live: u16,
}

// How many tuples are left, were withdrawn by the call, and were deleted by the filter.
#[derive(Clone, Copy)]
pub struct Counts {
    pub left: u16,
    pub withdrawn: u16,
    pub deleted: u16,
}

// What the change calls answer: Emptied names the lowest relation that has no live tuple.
#[derive(Clone, Copy)]
pub enum Answer {
    Settled(Counts),
    Emptied(u16, Counts),
    Refused(u8),
}

// What test answers.
#[derive(Clone, Copy)]
pub enum Verdict {
    Yes,
    No,
    Refused(u8),
}

// What compare answers: Differ names the lowest variable under which the tuples clash.
#[derive(Clone, Copy)]
pub enum Comparison {
    Agree,
    Differ(u16),
    Refused(u8),
}

// What the listing of connected combinations answers (card 1): how many are listed.
#[derive(Clone, Copy)]
pub enum Enumeration {
    Listed(u16),
    Refused(u8),
}

// What a move answers (card 9).
#[derive(Clone, Copy)]
pub enum Moved {
    Done,
    Refused(u8),
}

// A value (document 01: code).
pub type Value = u32;
