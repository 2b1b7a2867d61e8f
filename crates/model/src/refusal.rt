// The papers' refusal numbers, in checking order.

// The text, or a list of bytes, is not in its form.
pub const FORM: u8 = 1;

// The relations are not 1 to 64.
pub const RELATIONS: u8 = 2;

// A width is not 1 to 8.
pub const WIDTH: u8 = 3;

// The tuples of all relations exceed 4,096.
pub const TUPLES: u8 = 4;

// The variable list or the value list is not as long as the records call for.
pub const LENGTHS: u8 = 5;

// A variable is above 63 or stands twice in a scope.
pub const SCOPE: u8 = 6;

// m is not 2, 3 or 4.
pub const MEMBER_COUNT: u8 = 7;

// Over 256 connected combinations exist (card 1, straight after 7).
pub const TOO_MANY: u8 = 15;

// The list lent is too short for them (card 1).
pub const ROOM: u8 = 16;

// The member list is not a multiple of m long, or holds over 256 combinations.
pub const COMBINATIONS: u8 = 8;

// A combination names a missing relation or does not rise.
pub const MEMBERS: u8 = 9;

// A combination is not connected.
pub const UNCONNECTED: u8 = 10;

// The live words are too few.
pub const WORDS: u8 = 11;

// The supports need over 32,768 numbers or more than those lent.
pub const SUPPORTS: u8 = 12;

// A relation's count differs from its live tuples (card 6).
pub const COUNT: u8 = 18;

// An id given is not below the number of tuples.
pub const ID: u8 = 13;

// The variables and the values chosen together are not as many (card 7).
pub const PAIRS: u8 = 19;

// A variable chosen is above 63.
pub const VARIABLE: u8 = 14;

// A value has no place in the old form (card 9).
pub const TOO_WIDE: u8 = 23;

// The second list is too short (card 9).
pub const TARGET: u8 = 24;
