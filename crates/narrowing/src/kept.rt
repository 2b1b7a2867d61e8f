// Live words narrowed to the ids that are in all of some rows, in one pass. A word of what is left of them is answered: 0 only where none
// is live any more.
ghost use Rattle.std.specs.Prelude.{◌+◌, ◌*◌, ◌≤◌, ◌<◌};
ghost use Rattle.model.specs.Limits.{word_bits};
ghost use Rattle.narrowing.specs.Narrows.{Long, Keeps, HasBits, first_in, end_in};
ghost use Rattle.narrowing.specs.TupleRows.{Within, Spans, four, in_rows};

use super::between;
use super::rows::{Rows, four_of, in_rows};
use layout::wide;
use live::Words;
use value_index::Index;

// Of the ids from start on and below end, those of word i that are not in all of the first n rows are dead, and every other bit stays.
fn keep_edge(
    index: &Index,
    rows: &Rows,
    n: usize,
    words: &mut Words,
    i: usize,
    start: u16,
    end: u16,
) -> u64
    requires { Long words.old × (Within index.now n rows.now × Spans index.now (i + 1)) }
    ensures { Keeps (in_rows index.now rows.now n) (first_in i start) (end_in i end) words.old words.new result }
{
    let mask = between(i, start, end);
    let w = in_rows(index, rows, n, words[i] & mask, i);
    words[i] = (words[i] & !mask) | w;
    w
}

// All ids of the words from `from` on and below `to` that are not in all four rows are dead.
fn keep_four(
    index: &Index,
    a: usize,
    b: usize,
    c: usize,
    d: usize,
    words: &mut Words,
    from: usize,
    to: usize,
) -> u64
    requires { Long words.old × (Within index.now 4 (four a b c d) × (Spans index.now to × (from ≤ to))) }
    ensures { Keeps (in_rows index.now (four a b c d) 4) (word_bits * from) (word_bits * to) words.old words.new result }
{
    let mut any = 0;
    for i in from..to {
        let w = words[i] & index[a + i] & index[b + i] & index[c + i] & index[d + i];
        any |= w;
        words[i] = w;
    }
    any
}

// .. that are not in all of the first n rows.
fn keep_all(index: &Index, rows: &Rows, n: usize, words: &mut Words, from: usize, to: usize) -> u64
    requires { Long words.old × (Within index.now n rows.now × (Spans index.now to × (from ≤ to))) }
    ensures { Keeps (in_rows index.now rows.now n) (word_bits * from) (word_bits * to) words.old words.new result }
{
    let mut any = 0;
    for i in from..to {
        let w = in_rows(index, rows, n, words[i], i);
        any |= w;
        words[i] = w;
    }
    any
}

// The same, by the one or the other: one to four rows as four, where the last stands for those that are missing. Of two no third is read.
fn keep_middle(
    index: &Index,
    rows: &Rows,
    n: usize,
    words: &mut Words,
    from: usize,
    to: usize,
) -> u64
    requires { Long words.old × (Within index.now n rows.now × (Spans index.now to × (from ≤ to))) }
    ensures { Keeps (in_rows index.now rows.now n) (word_bits * from) (word_bits * to) words.old words.new result }
{
    if n == 0 || 4 < n {
        return keep_all(index, rows, n, words, from, to);
    }
    let f = four_of(rows, n);
    if n <= 2 {
        return keep_four(index, f.a, f.b, f.b, f.b, words, from, to);
    }
    keep_four(index, f.a, f.b, f.c, f.d, words, from, to)
}

// Of the ids from start on and below end, those that are not in all of the first n rows are dead, and every other bit stays.
pub fn keep_rows(
    index: &Index,
    rows: &Rows,
    n: usize,
    words: &mut Words,
    start: u16,
    end: u16,
) -> u64
    requires { Long words.old × (Within index.now n rows.now × HasBits index.now end) }
    ensures { Keeps (in_rows index.now rows.now n) start end words.old words.new result }
{
    if end <= start {
        return 0;
    }
    let i = wide(start / 64);
    let last = wide((end - 1) / 64);
    let left = keep_edge(index, rows, n, words, i, start, end);
    if i == last {
        return left;
    }
    let middle = keep_middle(index, rows, n, words, i + 1, last);
    let right = keep_edge(index, rows, n, words, last, start, end);
    left | middle | right
}
