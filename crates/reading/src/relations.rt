// A relation of the text, and all relations.
ghost use Rattle.std.specs.Prelude.{◌≡◌, MatchOption, IfSome, ◌+◌, ◌*◌, ◌≤◌, ◌<◌, length, drop};
ghost use Rattle.std.proofs.Math.Option.{none, some};
ghost use Rattle.model.specs.Limits.{max_relations, max_width, max_tuples};
ghost use Rattle.model.specs.Reading.{read_relations};
ghost use Rattle.model.specs.Edges.{max_variables, max_values};
ghost use Rattle.reading.specs.Parts.{found_at, KeptFrom, read_record, record_of, RelationRead, blank_shape, listed, RestKept};

use super::fields::{MAX_CODE, MAX_FIELD, line, lines, number, within};
use layout::Shape;
use model::{MAX_RELATIONS, MAX_TUPLES, MAX_WIDTH, Value};

// How many variables and tuples a relation has, and the position behind what was read; 0 if it is not in the form.
#[derive(Clone, Copy)]
pub struct Record {
    pub next: usize,
    pub width: usize,
    pub tuples: usize,
}

// The relation record at a position, if it is in the form and has at most `room` tuples.
fn record_at(text: &[u8], at: usize, room: usize) -> Option<Record>
    ensures read { MatchOption result (read_record room (drop at text.now) ≡ none) (λ r. read_record room (drop at text.now) ≡ some (record_of r, drop r.next text.now)) }
    ensures small { IfSome result (λ r. (0 < r.next) × (r.width ≤ max_width) × (r.tuples ≤ room)) }
{
    let mut numbers = [0u32; 2];
    let next = line(text, at, MAX_FIELD, 2, &mut numbers, 0);
    if next == 0 {
        return None;
    }
    let width = number(numbers[0]);
    let tuples = number(numbers[1]);
    if !within(1, MAX_WIDTH, width) {
        return None;
    }
    if room < tuples {
        return None;
    }
    Some(Record {
        next,
        width,
        tuples,
    })
}

// Reads a relation of at most `room` tuples: its scope and its values go into the lists, from entry `variable` and `value` on.
fn relation_at(
    text: &[u8],
    at: usize,
    room: usize,
    variables: &mut [u32],
    variable: usize,
    values: &mut [Value],
    value: usize,
) -> Record
    requires { (variable + max_width ≤ length variables.old) × (value + max_width * room ≤ length values.old) }
    ensures read { RelationRead text.now at room variables.old variables.new variable values.old values.new value result }
    ensures rest { (result.width ≤ max_width) × (result.tuples ≤ room) × KeptFrom (variable + result.width) variables.old variables.new × KeptFrom (value + result.tuples * result.width) values.old values.new }
{
    let Some(r) = record_at(text, at, room) else {
        return Record {
            next: 0,
            width: 0,
            tuples: 0,
        };
    };
    let scope_end = line(text, r.next, MAX_FIELD, r.width, variables, variable);
    if scope_end == 0 {
        return Record {
            next: 0,
            width: r.width,
            tuples: r.tuples,
        };
    }
    let next = lines(text, scope_end, MAX_CODE, r.tuples, r.width, values, value);
    Record {
        next,
        width: r.width,
        tuples: r.tuples,
    }
}

// The relations' records, how many entries of each list were filled, and the position behind what was read; 0 if it is not in the
// form.
#[derive(Clone, Copy)]
pub struct Listed {
    pub next: usize,
    pub shape: Shape,
    pub variables: usize,
    pub values: usize,
}

// So many relation records, with nothing in them yet.
pub fn blank(count: usize) -> Shape
    ensures { result ≡ blank_shape count }
{
    let none = [0u16; MAX_RELATIONS];
    Shape {
        count,
        widths: none,
        tuples: none,
    }
}

// Reads so many relations: their scopes and their values go into the lists, from the front on.
pub fn relations_at(
    text: &[u8],
    at: usize,
    count: usize,
    variables: &mut [u32],
    values: &mut [Value],
) -> Listed
    requires { (0 < at) × (count ≤ max_relations) × (max_variables ≤ length variables.old) × (max_values ≤ length values.old) }
    ensures read { found_at result.next (listed result variables.new values.new) text.now ≡ read_relations count max_tuples (drop at text.now) }
    ensures rest { (result.variables ≤ max_variables) × (result.values ≤ max_values) × RestKept result variables.old variables.new values.old values.new }
{
    let mut shape = blank(count);
    let mut room = MAX_TUPLES;
    let mut from = at;
    let mut variable = 0;
    let mut value = 0;
    for r in 0..count {
        let found = relation_at(text, from, room, variables, variable, values, value);
        from = found.next;
        if from == 0 {
            break;
        }
        shape.widths[r] = found.width as u16;
        shape.tuples[r] = found.tuples as u16;
        room -= found.tuples;
        variable += found.width;
        value += found.tuples * found.width;
    }
    Listed {
        next: from,
        shape,
        variables: variable,
        values: value,
    }
}
