// Reads the desk's text into the lists of a network and its combinations.
#![tactic(auto)]

ghost use Rattle.std.specs.Prelude.{◌≡◌, MatchOption, IfSome, ◌≤◌, ◌<◌, drop};
ghost use Rattle.std.proofs.Math.Option.{none, some};
ghost use Rattle.model.specs.Limits.{max_relations, max_members, max_combinations};
ghost use Rattle.reading.specs.Parts.{read_heading, numbers_of};
ghost use Rattle.reading.specs.Book.{book_of, Stands};

use fields::{MAX_FIELD, line, lines, number, within};
use layout::Shape;
use model::{
    MAX_COMBINATIONS, MAX_MEMBERS, MAX_RELATIONS, MAX_TUPLES, MAX_WIDTH, MIN_MEMBERS, Value,
};
use relations::{blank, relations_at};

pub mod fields; // a field, a line of fields, and lines
pub mod relations; // a relation, and all relations

// "at most 32,768 bytes of text"
const MAX_TEXT: usize = 32768;

// How long the lists of a text may be.
pub const MAX_VARIABLES: usize = MAX_RELATIONS * MAX_WIDTH;

pub const MAX_VALUES: usize = MAX_TUPLES * MAX_WIDTH;

pub const MAX_MEMBER_LIST: usize = MAX_COMBINATIONS * MAX_MEMBERS;

// The numbers of the first line, and the position behind it.
#[derive(Clone, Copy)]
pub struct Heading {
    pub next: usize,
    pub relations: usize,
    pub m: usize,
    pub combinations: usize,
}

// What was read of a text: the records, m, and how many entries of each list were filled; not ok if the text is not in the form.
#[derive(Clone, Copy)]
pub struct Book {
    pub ok: bool,
    pub shape: Shape,
    pub m: u16,
    pub variables: usize,
    pub values: usize,
    pub members: usize,
}

// The text's first line, if it is in the form.
fn heading_of(text: &[u8]) -> Option<Heading>
    ensures read { MatchOption result (read_heading text.now ≡ none) (λ h. read_heading text.now ≡ some (numbers_of h, drop h.next text.now)) }
    ensures small { IfSome result (λ h. (0 < h.next) × (h.relations ≤ max_relations) × (h.m ≤ max_members) × (h.combinations ≤ max_combinations)) }
{
    let mut numbers = [0u32; 3];
    let next = line(text, 0, MAX_FIELD, 3, &mut numbers, 0);
    if next == 0 {
        return None;
    }
    let relations = number(numbers[0]);
    let m = number(numbers[1]);
    let combinations = number(numbers[2]);
    if !within(1, MAX_RELATIONS, relations) {
        return None;
    }
    if !within(MIN_MEMBERS, MAX_MEMBERS, m) {
        return None;
    }
    if MAX_COMBINATIONS < combinations {
        return None;
    }
    Some(Heading {
        next,
        relations,
        m,
        combinations,
    })
}

// Nothing was read.
fn nothing() -> Book
    ensures { result ≡ book_of none }
{
    Book {
        ok: false,
        shape: blank(0),
        m: 0,
        variables: 0,
        values: 0,
        members: 0,
    }
}

// Reads a text: the network's lists and the combinations' members go into the lists, from the front on, each number as wide as a code.
// Behind them the lists stay as lent; where the text is not in the form they may hold anything.
pub fn read(
    text: &[u8],
    variables: &mut [u32; MAX_VARIABLES],
    values: &mut [Value; MAX_VALUES],
    members: &mut [u32; MAX_MEMBER_LIST],
) -> Book
    ensures { Stands text.now result variables.old variables.new values.old values.new members.old members.new }
{
    if MAX_TEXT < text.len() {
        return nothing();
    }
    let Some(heading) = heading_of(text) else {
        return nothing();
    };
    let listed = relations_at(text, heading.next, heading.relations, variables, values);
    if listed.next == 0 {
        return nothing();
    }
    let m = heading.m;
    let combinations = heading.combinations;
    let end = lines(text, listed.next, MAX_FIELD, combinations, m, members, 0);
    if end == 0 {
        return nothing();
    }
    if end < text.len() {
        return nothing();
    }
    let shape = listed.shape;
    Book {
        ok: true,
        shape,
        m: m as u16,
        variables: listed.variables,
        values: listed.values,
        members: combinations * m,
    }
}
