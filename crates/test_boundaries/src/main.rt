// Document 01's boundaries: the last request that passes each limit, and the first that does not.
#![tactic(auto)]

use layout::Shape;
use model::Value;
use request::checks::checked;
use request::counts::opened;
use std::io;

// So many relations, all with this width and tuple count.
fn uniform(count: usize, width: u16, tuples: u16) -> Shape {
    Shape {
        count,
        widths: [width; 64],
        tuples: [tuples; 64],
    }
}

// Relations of one variable each, without tuples.
fn sheets(variables: &[u16]) -> u8 {
    let values = [0u32; 0];
    let members = [0u16; 0];
    checked(
        uniform(variables.len(), 1, 0),
        variables,
        &values,
        2,
        &members,
        0,
        0,
    )
    .fault
}

// One relation with these tuples of one value, on so many live words.
fn rows(count: u16, values: &[Value], words: usize) -> u8 {
    let variables = [0u16; 1];
    let members = [0u16; 0];
    checked(
        uniform(1, 1, count),
        &variables,
        values,
        2,
        &members,
        words,
        0,
    )
    .fault
}

// One combination of m of five relations that share a variable.
fn combination(m: u16, members: &[u16]) -> u8 {
    let variables = [0u16; 5];
    let values = [0u32; 5];
    checked(uniform(5, 1, 1), &variables, &values, m, members, 1, 25).fault
}

// Two relations of two tuples each, of which three live; these counts.
fn counts(counts: &[u16]) -> u8 {
    let variables = [0u16; 2];
    let values = [0u32; 4];
    let members = [0u16; 0];
    let words = [11u64; 1];
    opened(
        uniform(2, 1, 2),
        &variables,
        &values,
        2,
        &members,
        &words,
        0,
        counts,
    )
    .fault
}

// A line with the refusal number, 0 where there is none.
fn say(rt: &impl Print, what: &str, fault: u8) -> io::Result<()> {
    println!(rt; "{what}{fault}")
}

fn main(rt: HostRuntime) -> io::Result<()> {
    say(&rt, "no sheet: ", sheets(&[0u16; 0]))?;
    say(&rt, "64 sheets: ", sheets(&[0u16; 64]))?;
    say(&rt, "65 sheets: ", sheets(&[0u16; 65]))?;
    say(&rt, "question 63: ", sheets(&[63u16]))?;
    say(&rt, "question 64: ", sheets(&[64u16]))?;
    say(&rt, "4,096 rows: ", rows(4096, &[0u32; 4096], 64))?;
    say(&rt, "4,097 rows: ", rows(4097, &[0u32; 4097], 65))?;
    say(&rt, "4,096 rows, 63 words: ", rows(4096, &[0u32; 4096], 63))?;
    say(&rt, "m = 1: ", combination(1, &[0u16]))?;
    say(&rt, "m = 4: ", combination(4, &[0u16, 1, 2, 3]))?;
    say(&rt, "m = 5: ", combination(5, &[0u16, 1, 2, 3, 4]))?;
    say(&rt, "2 and 1 living, counted 2 and 1: ", counts(&[2u16, 1]))?;
    say(&rt, "2 and 1 living, counted 2 and 0: ", counts(&[2u16, 0]))?;
    say(&rt, "2 and 1 living, counted 2 and 2: ", counts(&[2u16, 2]))?;
    say(&rt, "2 and 1 living, counted 1 and 2: ", counts(&[1u16, 2]))?;
    say(&rt, "2 and 1 living, one count: ", counts(&[2u16]))?;
    say(&rt, "2 and 1 living, three counts: ", counts(&[2u16, 1, 0]))
}
