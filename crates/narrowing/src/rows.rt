// The rows of a tuple's values in the columns that another relation shares, found once for the tuple, and the ids that are in all of them.
ghost use Rattle.std.specs.Prelude.{◌≡◌, false, ◌+◌, ◌≤◌, ◌<◌, length};
ghost use Rattle.model.specs.Limits.{max_relations, max_width, max_tuples};
ghost use Rattle.layout.specs.Loan.{entry};
ghost use Rattle.layout.specs.Setting.{lists, network_in};
ghost use Rattle.value_index.specs.Plan.{max_digits, row_words, ColumnRows, SoundPlan};
ghost use Rattle.narrowing.specs.Narrows.{Long, HasBits, Seeks};
ghost use Rattle.narrowing.specs.TupleRows.{tuple_rows, HasRows, ValueRow, Adds, FirstRows, RowOf, ColumnRow, SharedRow, RowFor, row_or_last, FourOf, Within, Spans, both, BitsInRows, Apart, NextInRows, LiveBetween};

use super::between;
use super::columns::Columns;
use layout::{Starts, column_of, is_any, place_of, wide};
use live::{WORDS, Words, words_for};
use model::{MAX_WIDTH, Value};
use value_index::{
    Index, MAX_DIGITS, column_start, digit_count, hash_behind, hash_of, row_of, scope_bits,
};

// As many rows as a tuple's values can have.
pub const TUPLE_ROWS: usize = MAX_WIDTH * MAX_DIGITS;

// The words of the index at which rows begin.
pub type Rows = [u16; TUPLE_ROWS];

// Where four rows begin.
#[derive(Clone, Copy)]
pub struct Four {
    pub a: usize,
    pub b: usize,
    pub c: usize,
    pub d: usize,
}

// Behind the first n rows those of the value are put, among the rows that begin at `start`, which is 0 if there are none. Any has none: it
// narrows nothing. How many there are then.
fn add_value(index: &Index, rows: &mut Rows, n: usize, start: usize, value: Value) -> usize
    requires { (length rows.old ≡ tuple_rows) × (SoundPlan index.now × ((n + max_digits ≤ tuple_rows) × ((start ≡ 0 → ⊥) → ColumnRows index.now start))) }
    ensures { Adds (ValueRow index.now start value) n result rows.old rows.new }
{
    if start == 0 {
        return n;
    }
    if is_any(value) {
        return n;
    }
    let mut hash = hash_of(index, value);
    let mut k = n;
    for i in 0..digit_count(index) {
        rows[k] = row_of(index, start, hash, i) as u16;
        hash = hash_behind(index, hash);
        k += 1;
    }
    k
}

// The rows of a tuple's values in the columns that another relation shares. How many there are.
pub fn rows_of(index: &Index, columns: &Columns, tuple: &[Value], rows: &mut Rows) -> usize
    requires { (length rows.old ≡ tuple_rows) × (SoundPlan index.now × ((length tuple.now ≤ max_width) × HasRows index.now columns.now (length tuple.now))) }
    ensures { FirstRows (RowOf index.now columns.now tuple.now) result rows.new }
{
    let mut n = 0;
    for (c, value) in tuple.iter().enumerate() {
        n = add_value(index, rows, n, columns[c], *value);
    }
    n
}

// Behind the first n rows those of the value are put that tuple a has under variable v, in relation s's column. None where scope a has no
// such variable, or its bit is 0. How many there are then.
fn add_column(
    bits: u64,
    scope_a: &[u16],
    a: &[Value],
    v: u16,
    index: &Index,
    s: u16,
    column: u16,
    rows: &mut Rows,
    n: usize,
) -> usize
    requires rows_len { (length rows.old ≡ tuple_rows) × ((n + max_digits ≤ tuple_rows) × (length scope_a.now ≡ length a.now)) }
    requires sound_plan { SoundPlan index.now × ((s < max_relations) × (column < max_width)) }
    ensures { Adds (ColumnRow scope_a.now a.now index.now s column v) n result rows.old rows.new }
{
    if (bits >> (v % 64)) % 2 == 0 {
        return n;
    }
    let i = column_of(scope_a, v);
    if scope_a.len() <= i {
        return n;
    }
    add_value(index, rows, n, column_start(index, s, column), a[i])
}

// The rows of tuple a's values in the columns of relation s, whose scope is b: those whose variable scope a has too. A variable whose bit
// is 0 is passed over. How many there are.
fn rows_between(
    bits: u64,
    scope_a: &[u16],
    a: &[Value],
    scope_b: &[u16],
    index: &Index,
    s: u16,
    rows: &mut Rows,
) -> usize
    requires rows_len { (length rows.old ≡ tuple_rows) × ((length scope_a.now ≡ length a.now) × (length scope_b.now ≤ max_width)) }
    requires sound_plan { SoundPlan index.now × (s < max_relations) }
    ensures { FirstRows (SharedRow scope_a.now a.now scope_b.now index.now s) result rows.new }
{
    let mut n = 0;
    for (j, v) in scope_b.iter().enumerate() {
        n = add_column(bits, scope_a, a, *v, index, s, j as u16, rows, n);
    }
    n
}

// The rows that tuple x of relation r has in the columns of relation s. How many there are.
pub fn rows_for(
    variables: &[u16],
    values: &[Value],
    starts: &Starts,
    index: &Index,
    r: u16,
    x: u16,
    s: u16,
    rows: &mut Rows,
) -> usize
    requires { (length rows.old ≡ tuple_rows) × (Seeks (lists (λ x. x.now) variables values starts) index.now r x × (s < max_relations)) }
    ensures { FirstRows (RowFor (network_in (lists entry variables values starts)) index.now r x s) result rows.new }
{
    let p = place_of(starts, r, x);
    let q = place_of(starts, s, 0);
    let scope_a = p.scope;
    let scope_a_end = p.scope_end;
    let a = p.tuple;
    let a_end = p.tuple_end;
    let scope_b = q.scope;
    let scope_b_end = q.scope_end;
    rows_between(
        scope_bits(index, r),
        &variables[scope_a..scope_a_end],
        &values[a..a_end],
        &variables[scope_b..scope_b_end],
        index,
        s,
        rows,
    )
}

// Where row k begins, or the last of the first n rows where they are fewer.
fn row_or_last(rows: &Rows, n: usize, k: usize) -> usize
    requires { (0 < n) × (n ≤ tuple_rows) }
    ensures { result ≡ row_or_last rows.now n k }
{
    if k < n {
        return wide(rows[k]);
    }
    wide(rows[n - 1])
}

// One to four rows as four.
pub fn four_of(rows: &Rows, n: usize) -> Four
    requires { (0 < n) × (n ≤ tuple_rows) }
    ensures { FourOf rows.now n result }
{
    let a = row_or_last(rows, n, 0);
    let b = row_or_last(rows, n, 1);
    let c = row_or_last(rows, n, 2);
    let d = row_or_last(rows, n, 3);
    Four { a, b, c, d }
}

// Of word i, the ids that are in all of the first n rows.
pub fn in_rows(index: &Index, rows: &Rows, n: usize, word: u64, i: usize) -> u64
    requires { Within index.now n rows.now × (i < row_words index.now) }
    ensures { BitsInRows index.now n rows.now i word result }
{
    let mut w = word;
    for row in &rows[..n] {
        w &= index[wide(*row) + i];
    }
    w
}

// Whether some id of the words from `from` on and below `to` is live and in both rows. All words are looked at: they are few, and a way out
// before the end would cost more.
fn meet_both(index: &Index, a: usize, b: usize, words: &Words, from: usize, to: usize) -> bool
    requires { Within index.now 2 (both a b) × Spans index.now to }
    ensures { result ≡ false → Apart index.now 2 (both a b) from to words.now }
{
    let mut any = 0;
    for i in from..to {
        any |= words[i] & index[a + i] & index[b + i];
    }
    any != 0
}

// Whether some id of word i is set and in all of the first n rows, of which there are two at least: most words have none in these.
fn in_all(index: &Index, rows: &Rows, n: usize, word: u64, i: usize) -> bool
    requires { Within index.now n rows.now × ((2 ≤ n) × (i < row_words index.now)) }
    ensures { result ≡ false → BitsInRows index.now n rows.now i word 0 }
{
    let w = in_rows(index, rows, 2, word, i);
    if w == 0 {
        return false;
    }
    in_rows(index, rows, n, w, i) != 0
}

// Whether some id of the words from `from` on and below `to` is live and in all of the first n rows. It ends at the first such word.
fn meet_all(index: &Index, rows: &Rows, n: usize, words: &Words, from: usize, to: usize) -> bool
    requires { Within index.now n rows.now × ((2 ≤ n) × Spans index.now to) }
    ensures { result ≡ false → Apart index.now n rows.now from to words.now }
{
    (from..to).any(|i| in_all(index, rows, n, words[i], i))
}

// The same, by the one or the other. True where there are no rows.
pub fn meet(index: &Index, rows: &Rows, n: usize, words: &Words, from: usize, to: usize) -> bool
    requires { Within index.now n rows.now × Spans index.now to }
    ensures { result ≡ false → Apart index.now n rows.now from to words.now }
{
    if n == 0 {
        return true;
    }
    let a = wide(rows[0]);
    if n == 1 {
        return meet_both(index, a, a, words, from, to);
    }
    if n == 2 {
        return meet_both(index, a, wide(rows[1]), words, from, to);
    }
    meet_all(index, rows, n, words, from, to)
}

// The first id from start on and below end that is live and in all of the first n rows; end if there is none.
pub fn next_in_rows(
    index: &Index,
    rows: &Rows,
    n: usize,
    words: &Words,
    start: u16,
    end: u16,
) -> u16
    requires { (Long words.now × Within index.now n rows.now) × (HasBits index.now end × (start ≤ end)) }
    ensures { NextInRows index.now n rows.now words.now start end result }
{
    let mut at = start;
    // stays a while: it goes on by whole words
    while at < end {
        let i = wide(at / 64);
        let w = in_rows(index, rows, n, words[i], i) >> (at % 64);
        if w != 0 {
            let g = at + u64::trailing_zeros(w) as u16;
            return if g < end { g } else { end };
        }
        at = (at / 64 + 1) * 64;
    }
    end
}

// The live ids from start on and below end, and no others.
pub fn live_between(words: &Words, start: u16, end: u16) -> Words
    requires { Long words.now × (end ≤ max_tuples) }
    ensures { LiveBetween start end words.now result }
{
    let last = words_for(end);
    let mut alive = [0u64; WORDS];
    for i in wide(start / 64)..last {
        alive[i] = words[i] & between(i, start, end);
    }
    alive
}
