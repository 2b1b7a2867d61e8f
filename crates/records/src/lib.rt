// The calls over a list of relation records, exported for C programs with typed arrays. include/wakhvosi.h says what each
// means there. A change call takes the records apart, works on their parts, and writes the live counts back.
#![tactic(auto)]

ghost use Rattle.std.specs.Prelude.{◌≡◌, min, ◌<◌};
ghost use Rattle.model.specs.Limits.{max_relations};
ghost use Rattle.model.specs.Request.{filter, withdraw, choose, choose_several};
ghost use Rattle.model.specs.Reply.{Tested, Compared};
ghost use Rattle.model.specs.Enumeration.{Enumerates};
ghost use Rattle.encoding.specs.Packed.{pair_in, enumerated_in};
ghost use Rattle.records.specs.Records.{record_instance, entry_network, entry_instance, lesser, unread, with_record, parts_of};
ghost use Rattle.records.specs.Packed.{RepliesIn, WritesBack};

use layout::Shape;
use model::{MAX_RELATIONS, Record, Value};

pub mod packed; // the calls on the records' parts, their answers packed

// Relation records taken apart: their shape, and the live counts of the first 64.
#[derive(Clone, Copy)]
pub struct Parts {
    pub shape: Shape,
    pub live: [u16; 64],
}

// What a change call on parts gives: its answer, packed, and of how many relations the live counts are to be written.
#[derive(Clone, Copy)]
pub struct Done {
    pub answer: u64,
    pub written: usize,
    pub live: [u16; 64],
}

// n, or 64 where n is more.
fn at_most_64(n: usize) -> usize
    ensures { result ≡ lesser n }
{
    if n < MAX_RELATIONS { n } else { MAX_RELATIONS }
}

// So many records, none of them taken apart.
fn blank(count: usize) -> Parts
    ensures { result ≡ unread count }
{
    let shape = Shape {
        count,
        widths: [0; 64],
        tuples: [0; 64],
    };
    Parts {
        shape,
        live: [0; 64],
    }
}

// The parts with record i taken apart.
fn with_record(parts: Parts, i: usize, relation: Record) -> Parts
    requires { i < max_relations }
    ensures { result ≡ with_record parts i relation }
{
    let mut shape = parts.shape;
    shape.widths[i] = relation.width;
    shape.tuples[i] = relation.tuples;
    let mut live = parts.live;
    live[i] = relation.live;
    Parts { shape, live }
}

// The records taken apart.
pub fn parts_of(relations: &[Record]) -> Parts
    ensures { result ≡ parts_of relations.now }
{
    let n = at_most_64(relations.len());
    let mut parts = blank(relations.len());
    for (i, relation) in relations[..n].iter().enumerate() {
        parts = with_record(parts, i, *relation);
    }
    parts
}

// How many of so many records get a live count.
fn to_write(records: usize, done: Done) -> usize
    ensures { result ≡ min records (lesser done.written) }
{
    let n = at_most_64(done.written);
    if records < n { records } else { n }
}

// The live counts that are to be written go into the records; gives back the answer.
fn write_back(relations: &mut [Record], done: Done) -> u64
    ensures { WritesBack result relations done }
{
    let n = to_write(relations.len(), done);
    for (i, relation) in relations[..n].iter_mut().enumerate() {
        relation.live = done.live[i];
    }
    done.answer
}

// Filters what lives.
#[unsafe(no_mangle)]
pub extern "C" fn wakhvosi_filter_records(
    relations: &mut [Record],
    variables: &[u16],
    values: &[Value],
    m: u16,
    members: &[u16],
    words: &mut [u64],
    supports: &mut [u16],
) -> u64
    ensures { RepliesIn result (record_instance relations.old variables.now values.now m members.now) relations words supports filter }
{
    let parts = parts_of(relations);
    let done = packed::filter(parts, variables, values, m, members, words, supports);
    write_back(relations, done)
}

// Withdraws the tuples listed, live or dead, and filters what then lives.
#[unsafe(no_mangle)]
pub extern "C" fn wakhvosi_withdraw_records(
    relations: &mut [Record],
    variables: &[u16],
    values: &[Value],
    m: u16,
    members: &[u16],
    words: &mut [u64],
    supports: &mut [u16],
    ids: &[u16],
) -> u64
    ensures { RepliesIn result (record_instance relations.old variables.now values.now m members.now) relations words supports (withdraw ids.now) }
{
    let parts = parts_of(relations);
    let done = packed::withdraw(parts, variables, values, m, members, words, supports, ids);
    write_back(relations, done)
}

// Withdraws every tuple that has another value than v under variable x, and filters what then lives.
#[unsafe(no_mangle)]
pub extern "C" fn wakhvosi_choose_records(
    relations: &mut [Record],
    variables: &[u16],
    values: &[Value],
    m: u16,
    members: &[u16],
    words: &mut [u64],
    supports: &mut [u16],
    x: u16,
    v: Value,
) -> u64
    ensures { RepliesIn result (record_instance relations.old variables.now values.now m members.now) relations words supports (choose x v) }
{
    let parts = parts_of(relations);
    let done = packed::choose(parts, variables, values, m, members, words, supports, x, v);
    write_back(relations, done)
}

// Withdraws every tuple that has, under a variable of xs, another value than vs has in the same place, and filters what then lives.
#[unsafe(no_mangle)]
pub extern "C" fn wakhvosi_choose_several_records(
    relations: &mut [Record],
    variables: &[u16],
    values: &[Value],
    m: u16,
    members: &[u16],
    words: &mut [u64],
    supports: &mut [u16],
    xs: &[u16],
    vs: &[Value],
) -> u64
    ensures { RepliesIn result (record_instance relations.old variables.now values.now m members.now) relations words supports (choose_several xs.now vs.now) }
{
    let parts = parts_of(relations);
    let done = packed::choose_several(
        parts, variables, values, m, members, words, supports, xs, vs,
    );
    write_back(relations, done)
}

// Whether the live tuples are consistent: each has a support in every combination that holds its relation.
#[unsafe(no_mangle)]
pub extern "C" fn wakhvosi_test_records(
    relations: &[Record],
    variables: &[u16],
    values: &[Value],
    m: u16,
    members: &[u16],
    words: &[u64],
) -> u64
    ensures { Tested (entry_instance relations variables values m members) words.now (pair_in result) }
{
    let parts = parts_of(relations);
    packed::test(parts, variables, values, m, members, words)
}

// Compares the tuples with ids g and h.
#[unsafe(no_mangle)]
pub extern "C" fn wakhvosi_compare_records(
    relations: &[Record],
    variables: &[u16],
    values: &[Value],
    g: u16,
    h: u16,
) -> u64
    ensures { Compared (entry_network relations variables values) g h (pair_in result) }
{
    let parts = parts_of(relations);
    packed::compare(parts, variables, values, g, h)
}

// Lists every connected combination of m members in front of the list.
#[unsafe(no_mangle)]
pub extern "C" fn wakhvosi_combinations_records(
    relations: &[Record],
    variables: &[u16],
    values: &[Value],
    m: u16,
    list: &mut [u16],
) -> u64
    ensures { Enumerates (entry_network relations variables values) m list.old (enumerated_in result list.new) }
{
    let parts = parts_of(relations);
    packed::combinations(parts, variables, values, m, list)
}
