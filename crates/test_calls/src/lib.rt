// The calls on plain lists, exported for the test driver of tests/c.
#![tactic(auto)]

use changes::{choose, choose_several, filter, withdraw};
use enumeration::combinations;
use layout::Shape;
use model::{Answer, Comparison, Enumeration, MAX_RELATIONS, NO_VARIABLE, Value, Verdict};

// The records of a list that holds each relation's width and tuple count.
fn shape_of(records: &[u16]) -> Shape {
    let mut shape = Shape {
        count: records.len() / 2,
        widths: [0; 64],
        tuples: [0; 64],
    };
    for r in 0..(records.len() / 2).min(MAX_RELATIONS) {
        shape.widths[r] = records[2 * r];
        shape.tuples[r] = records[2 * r + 1];
    }
    shape
}

// The numbers of an answer: kind, subject, left, withdrawn, deleted.
fn put(answer: Answer, out: &mut [u16; 5]) {
    *out = match answer {
        Answer::Settled(k) => [0, 64, k.left, k.withdrawn, k.deleted],
        Answer::Emptied(r, k) => [1, r, k.left, k.withdrawn, k.deleted],
        Answer::Refused(f) => [2, f as u16, 0, 0, 0],
    };
}

#[unsafe(no_mangle)]
pub extern "C" fn plain_filter(
    records: &[u16],
    variables: &[u16],
    values: &[Value],
    m: u16,
    members: &[u16],
    words: &mut [u64],
    supports: &mut [u16],
    counts: &mut [u16],
    out: &mut [u16; 5],
) {
    let answer = filter(
        shape_of(records),
        variables,
        values,
        m,
        members,
        words,
        supports,
        counts,
    );
    put(answer, out);
}

#[unsafe(no_mangle)]
pub extern "C" fn plain_withdraw(
    records: &[u16],
    variables: &[u16],
    values: &[Value],
    m: u16,
    members: &[u16],
    words: &mut [u64],
    supports: &mut [u16],
    counts: &mut [u16],
    ids: &[u16],
    out: &mut [u16; 5],
) {
    let answer = withdraw(
        shape_of(records),
        variables,
        values,
        m,
        members,
        words,
        supports,
        counts,
        ids,
    );
    put(answer, out);
}

// Value v is chosen under variable x.
#[unsafe(no_mangle)]
pub extern "C" fn plain_choose(
    records: &[u16],
    variables: &[u16],
    values: &[Value],
    m: u16,
    members: &[u16],
    words: &mut [u64],
    supports: &mut [u16],
    counts: &mut [u16],
    x: u16,
    v: Value,
    out: &mut [u16; 5],
) {
    let answer = choose(
        shape_of(records),
        variables,
        values,
        m,
        members,
        words,
        supports,
        counts,
        x,
        v,
    );
    put(answer, out);
}

// The choices are variables and their values.
#[unsafe(no_mangle)]
pub extern "C" fn plain_choose_several(
    records: &[u16],
    variables: &[u16],
    values: &[Value],
    m: u16,
    members: &[u16],
    words: &mut [u64],
    supports: &mut [u16],
    counts: &mut [u16],
    xs: &[u16],
    vs: &[Value],
    out: &mut [u16; 5],
) {
    let answer = choose_several(
        shape_of(records),
        variables,
        values,
        m,
        members,
        words,
        supports,
        counts,
        xs,
        vs,
    );
    put(answer, out);
}

// 0 or 1, or 256 times the refusal number and 2.
#[unsafe(no_mangle)]
pub extern "C" fn plain_test(
    records: &[u16],
    variables: &[u16],
    values: &[Value],
    m: u16,
    members: &[u16],
    words: &[u64],
) -> u32 {
    let answer = consistency::test(shape_of(records), variables, values, m, members, words);
    match answer {
        Verdict::No => 0,
        Verdict::Yes => 1,
        Verdict::Refused(f) => f as u32 * 256 + 2,
    }
}

// 256 times the variable named, 64 where the tuples agree, or the refusal number; and 0, 1 or 2.
#[unsafe(no_mangle)]
pub extern "C" fn plain_compare(
    records: &[u16],
    variables: &[u16],
    values: &[Value],
    g: u16,
    h: u16,
) -> u32 {
    let answer = network::comparison::compare(shape_of(records), variables, values, g, h);
    match answer {
        Comparison::Differ(x) => x as u32 * 256,
        Comparison::Agree => NO_VARIABLE as u32 * 256 + 1,
        Comparison::Refused(f) => f as u32 * 256 + 2,
    }
}

// 65,536 times the number of combinations listed; or 256 times the refusal number, and 2.
#[unsafe(no_mangle)]
pub extern "C" fn plain_combinations(
    records: &[u16],
    variables: &[u16],
    values: &[Value],
    m: u16,
    list: &mut [u16],
) -> u32 {
    match combinations(shape_of(records), variables, values, m, list) {
        Enumeration::Listed(n) => n as u32 * 65536,
        Enumeration::Refused(f) => f as u32 * 256 + 2,
    }
}
