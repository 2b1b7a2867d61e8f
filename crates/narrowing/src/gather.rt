// Live ids gathered in other words: of a relation's, those that may agree with a tuple.
ghost use Rattle.std.specs.Prelude.{◌*◌, ◌<◌};
ghost use Rattle.model.specs.Limits.{max_relations, word_bits};
ghost use Rattle.layout.specs.Loan.{entry};
ghost use Rattle.layout.specs.Setting.{lists, network_in};
ghost use Rattle.narrowing.specs.Narrows.{Long, HasBits, Seeks};
ghost use Rattle.narrowing.specs.TupleRows.{Within, Spans, four, in_rows};
ghost use Rattle.narrowing.specs.Gathers.{Joins, Gathers};

use super::rows::{Rows, TUPLE_ROWS, four_of, in_rows, rows_for};
use layout::{Starts, tuple_start, wide};
use live::{Words, words_for};
use model::Value;
use value_index::Index;

// All ids of the words from `first` on and below `last` that are in all four rows.
fn gather_four(
    index: &Index,
    a: usize,
    b: usize,
    c: usize,
    d: usize,
    from: &Words,
    to: &mut Words,
    first: usize,
    last: usize,
)
    requires { (Long from.now × Long to.old) × (Within index.now 4 (four a b c d) × Spans index.now last) }
    ensures { Joins (in_rows index.now (four a b c d) 4) (word_bits * first) (word_bits * last) from.now to.old to.new }
{
    for i in first..last {
        to[i] |= from[i] & index[a + i] & index[b + i] & index[c + i] & index[d + i];
    }
}

// .. that are in all of the first n rows.
fn gather_all(
    index: &Index,
    rows: &Rows,
    n: usize,
    from: &Words,
    to: &mut Words,
    first: usize,
    last: usize,
)
    requires { (Long from.now × Long to.old) × (Within index.now n rows.now × Spans index.now last) }
    ensures { Joins (in_rows index.now rows.now n) (word_bits * first) (word_bits * last) from.now to.old to.new }
{
    for i in first..last {
        to[i] |= in_rows(index, rows, n, from[i], i);
    }
}

// The same, by the one or the other: one to four rows as four, where the last stands for those that are missing. Of two no third is read.
fn gather_words(
    index: &Index,
    rows: &Rows,
    n: usize,
    from: &Words,
    to: &mut Words,
    first: usize,
    last: usize,
)
    requires { (Long from.now × Long to.old) × (Within index.now n rows.now × Spans index.now last) }
    ensures { Joins (in_rows index.now rows.now n) (word_bits * first) (word_bits * last) from.now to.old to.new }
{
    if n == 0 || 4 < n {
        gather_all(index, rows, n, from, to, first, last);
        return;
    }
    let f = four_of(rows, n);
    if n <= 2 {
        gather_four(index, f.a, f.b, f.b, f.b, from, to, first, last);
        return;
    }
    gather_four(index, f.a, f.b, f.c, f.d, from, to, first, last);
}

// All ids from start on and below end that are in all of the first n rows, and whichever others have a bit in the same words.
fn gather_rows(
    index: &Index,
    rows: &Rows,
    n: usize,
    from: &Words,
    to: &mut Words,
    start: u16,
    end: u16,
)
    requires { (Long from.now × Long to.old) × (Within index.now n rows.now × HasBits index.now end) }
    ensures { Joins (in_rows index.now rows.now n) start end from.now to.old to.new }
{
    gather_words(index, rows, n, from, to, wide(start / 64), words_for(end));
}

// The live tuples of relation s that may agree with tuple x of relation r are live in `to` too.
pub fn gather(
    variables: &[u16],
    values: &[Value],
    starts: &Starts,
    index: &Index,
    from: &Words,
    to: &mut Words,
    r: u16,
    x: u16,
    s: u16,
)
    requires long { Long from.now × Long to.old }
    requires seeks { Seeks (lists (λ x. x.now) variables values starts) index.now r x × (s < max_relations) }
    ensures { Long to.new × Gathers (network_in (lists entry variables values starts)) r x s from.now to.old to.new }
{
    let start = tuple_start(starts, s);
    let end = tuple_start(starts, s + 1);
    let mut rows = [0u16; TUPLE_ROWS];
    let n = rows_for(variables, values, starts, index, r, x, s, &mut rows);
    gather_rows(index, &rows, n, from, to, start, end);
}
