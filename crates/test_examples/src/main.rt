// Document 01's examples P1 to P9, and S1 of card 7, test and compare beside them, through the calls on plain lists.
#![tactic(auto)]

use changes::{choose, choose_several, filter, withdraw};
use consistency::test;
use layout::Shape;
use model::{Answer, Comparison, Counts, Value, Verdict};
use network::comparison::compare;
use std::io;

// Three relations of two variables, with these tuple counts.
fn triangle(first: u16, second: u16, third: u16) -> Shape {
    let mut tuples = [0u16; 64];
    tuples[0] = first;
    tuples[1] = second;
    tuples[2] = third;
    Shape {
        count: 3,
        widths: [2; 64],
        tuples,
    }
}

fn put_counts(rt: &impl Print, kind: u8, subject: u16, k: Counts) -> io::Result<()> {
    let left = k.left;
    let withdrawn = k.withdrawn;
    let deleted = k.deleted;
    print!(rt; "{kind},{subject},{left},{withdrawn},{deleted}; marks ")
}

// A line's beginning: the answer's numbers and the first word of the marks; the counts are to follow.
fn say_answer(rt: &impl Print, what: &str, answer: Answer, word: u64) -> io::Result<()> {
    print!(rt; "{what}")?;
    match answer {
        Answer::Settled(k) => put_counts(rt, 0, 64, k)?,
        Answer::Emptied(r, k) => put_counts(rt, 1, r, k)?,
        Answer::Refused(f) => print!(rt; "{f} refused; marks ")?,
    }
    print!(rt; "{word}; counts ")
}

// The rest of it, with the counts of three relations.
fn say_counts(rt: &impl Print, first: u16, second: u16, third: u16) -> io::Result<()> {
    println!(rt; "{first},{second},{third}")
}

fn say_verdict(rt: &impl Print, what: &str, verdict: Verdict) -> io::Result<()> {
    match verdict {
        Verdict::No => println!(rt; "{what}0"),
        Verdict::Yes => println!(rt; "{what}1"),
        Verdict::Refused(f) => println!(rt; "{what}{f} refused"),
    }
}

fn say_comparison(rt: &impl Print, what: &str, comparison: Comparison) -> io::Result<()> {
    match comparison {
        Comparison::Differ(x) => println!(rt; "{what}{x} differs"),
        Comparison::Agree => println!(rt; "{what}agree"),
        Comparison::Refused(f) => println!(rt; "{what}{f} refused"),
    }
}

fn say_numbers(rt: &impl Print, what: &str, first: u16, second: u16) -> io::Result<()> {
    println!(rt; "{what}{first},{second}")
}

// P1 and P2: book A filtered, and tested before and after.
fn filtered(
    rt: &impl Print,
    variables: &[u16],
    values: &[Value],
    words: &mut [u64; 1],
    supports: &mut [u16; 40],
    counts: &mut [u16; 3],
) -> io::Result<()> {
    let shape = triangle(3, 2, 2);
    let pairs = [0u16, 1, 0, 2, 1, 2];
    say_verdict(
        rt,
        "fresh A settled: ",
        test(shape, variables, values, 2, &pairs, words),
    )?;
    let p1 = filter(shape, variables, values, 2, &pairs, words, supports, counts);
    say_answer(rt, "P1: ", p1, words[0])?;
    say_counts(rt, counts[0], counts[1], counts[2])?;
    say_numbers(rt, "P2: ", supports[8], supports[9])?;
    say_verdict(
        rt,
        "filtered A settled: ",
        test(shape, variables, values, 2, &pairs, words),
    )
}

// Book A with one tuple withdrawn.
fn withdrawn(
    rt: &impl Print,
    what: &str,
    variables: &[u16],
    values: &[Value],
    words: &mut [u64; 1],
    supports: &mut [u16; 40],
    counts: &mut [u16; 3],
    id: u16,
) -> io::Result<()> {
    let pairs = [0u16, 1, 0, 2, 1, 2];
    let ids = [id; 1];
    let answer = withdraw(
        triangle(3, 2, 2),
        variables,
        values,
        2,
        &pairs,
        words,
        supports,
        counts,
        &ids,
    );
    say_answer(rt, what, answer, words[0])?;
    say_counts(rt, counts[0], counts[1], counts[2])
}

// P9: fresh A with value 6 chosen under variable 2; and three comparisons.
fn chosen(
    rt: &impl Print,
    variables: &[u16],
    values: &[Value],
    words: &mut [u64; 1],
    supports: &mut [u16; 40],
    counts: &mut [u16; 3],
) -> io::Result<()> {
    let shape = triangle(3, 2, 2);
    let pairs = [0u16, 1, 0, 2, 1, 2];
    let p9 = choose(
        shape, variables, values, 2, &pairs, words, supports, counts, 2, 6,
    );
    say_answer(rt, "P9: ", p9, words[0])?;
    say_counts(rt, counts[0], counts[1], counts[2])?;
    say_comparison(
        rt,
        "rows 0 and 3: ",
        compare(shape, variables, values, 0, 3),
    )?;
    say_comparison(
        rt,
        "rows 2 and 3: ",
        compare(shape, variables, values, 2, 3),
    )?;
    say_comparison(
        rt,
        "rows 0 and 2: ",
        compare(shape, variables, values, 0, 2),
    )
}

// P1 to P5 and P9, on book A; and its withdrawal with a count that is untrue.
fn book_a(rt: &impl Print) -> io::Result<()> {
    let variables = [0u16, 1, 1, 2, 2, 0];
    let values = [1u32, 1, 1, 2, 2, 2, 1, 5, 2, 6, 5, 1, 6, 1];
    let mut words = [127u64; 1];
    let mut supports = [7u16; 40];
    let mut counts = [3u16, 2, 2];
    filtered(
        rt,
        &variables,
        &values,
        &mut words,
        &mut supports,
        &mut counts,
    )?;
    withdrawn(
        rt,
        "P3: ",
        &variables,
        &values,
        &mut words,
        &mut supports,
        &mut counts,
        5,
    )?;
    withdrawn(
        rt,
        "P4: ",
        &variables,
        &values,
        &mut words,
        &mut supports,
        &mut counts,
        6,
    )?;
    words[0] = 127;
    withdrawn(
        rt,
        "an old count: ",
        &variables,
        &values,
        &mut words,
        &mut supports,
        &mut counts,
        5,
    )?;
    counts = [3u16, 2, 2];
    withdrawn(
        rt,
        "P5: ",
        &variables,
        &values,
        &mut words,
        &mut supports,
        &mut counts,
        5,
    )?;
    words[0] = 127;
    counts = [3u16, 2, 2];
    chosen(
        rt,
        &variables,
        &values,
        &mut words,
        &mut supports,
        &mut counts,
    )
}

// S1: fresh A with value 2 chosen under variable 1 and 6 under variable 2.
fn chosen_together(rt: &impl Print) -> io::Result<()> {
    let mut words = [127u64; 1];
    let mut supports = [7u16; 40];
    let mut counts = [3u16, 2, 2];
    let s1 = choose_several(
        triangle(3, 2, 2),
        &[0u16, 1, 1, 2, 2, 0],
        &[1u32, 1, 1, 2, 2, 2, 1, 5, 2, 6, 5, 1, 6, 1],
        2,
        &[0u16, 1, 0, 2, 1, 2],
        &mut words,
        &mut supports,
        &mut counts,
        &[1u16, 2],
        &[2u32, 6],
    );
    say_answer(rt, "S1: ", s1, words[0])?;
    say_counts(rt, counts[0], counts[1], counts[2])
}

// P6 and P7.
fn triples(rt: &impl Print) -> io::Result<()> {
    let shape = triangle(2, 2, 2);
    let variables = [0u16, 1, 1, 2, 2, 0];
    let values = [0u32, 1, 1, 0, 0, 1, 1, 0, 0, 1, 1, 0];
    let mut words = [63u64; 1];
    let mut supports = [7u16; 40];
    let mut counts = [2u16; 3];
    let p6 = filter(
        shape,
        &variables,
        &values,
        2,
        &[0u16, 1, 0, 2, 1, 2],
        &mut words,
        &mut supports,
        &mut counts,
    );
    say_answer(rt, "P6: ", p6, words[0])?;
    say_counts(rt, counts[0], counts[1], counts[2])?;
    let p7 = filter(
        shape,
        &variables,
        &values,
        3,
        &[0u16, 1, 2],
        &mut words,
        &mut supports,
        &mut counts,
    );
    say_answer(rt, "P7: ", p7, words[0])?;
    say_counts(rt, counts[0], counts[1], counts[2])
}

// P8.
fn empty_sheet(rt: &impl Print) -> io::Result<()> {
    let mut tuples = [0u16; 64];
    tuples[0] = 1;
    let shape = Shape {
        count: 2,
        widths: [1; 64],
        tuples,
    };
    let none = [0u16; 0];
    let mut words = [1u64; 1];
    let mut supports = [7u16; 1];
    let mut counts = [1u16, 0];
    let p8 = filter(
        shape,
        &[0u16, 0],
        &[4u32],
        2,
        &none,
        &mut words,
        &mut supports,
        &mut counts,
    );
    say_answer(rt, "P8: ", p8, words[0])?;
    say_numbers(rt, "", counts[0], counts[1])
}

fn main(rt: HostRuntime) -> io::Result<()> {
    book_a(&rt)?;
    chosen_together(&rt)?;
    triples(&rt)?;
    empty_sheet(&rt)
}
