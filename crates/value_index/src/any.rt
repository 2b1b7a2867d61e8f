// The row of any: a column has one more row, behind those of the digits. A tuple whose value there is any is entered in it, and it is then
// spread over the column's other rows, a word at a time.
ghost use Rattle.std.specs.Prelude.{◌≡◌, false, ◌+◌, ◌*◌, ◌≤◌, ◌<◌};
ghost use Rattle.model.specs.Limits.{max_relations, max_width, word_bits};
ghost use Rattle.value_index.specs.Plan.{plan_words, index_words, row_words, any_row, ColumnRows, SoundPlan};
ghost use Rattle.value_index.specs.Index.{Full, Laid, Grows, NoneIn, JoinsRow, SpreadsAny, SpreadsColumns};

use super::{DIGIT_ROWS, DIGITS, Index, ROW_WORDS, column_start};
use layout::wide;
use live::words_for;

// The word at which it begins, among the rows that begin at `start`.
pub fn any_row(index: &Index, start: usize) -> usize
    requires { SoundPlan index.now × ColumnRows index.now start }
    ensures { result ≡ any_row index.now start }
{
    start + (index[DIGITS] * index[DIGIT_ROWS] * index[ROW_WORDS]) as usize
}

// Whether some id of the words from `from` on and below `to` is in the row that begins at word `row`.
fn has_some(index: &Index, row: usize, from: usize, to: usize) -> bool
    requires { row + to ≤ index_words }
    ensures { result ≡ false → NoneIn index.now row (word_bits * from) (word_bits * to) }
{
    let mut some = 0;
    for i in from..to {
        some |= index[row + i];
    }
    some != 0
}

// The ids of these words that are in the row at word `row` are in the one at word `other` too; no bit is lost.
fn join_row(index: &mut Index, row: usize, other: usize, from: usize, to: usize)
    requires { Full index.old × ((plan_words ≤ other) × ((row + to ≤ index_words) × (other + to ≤ index_words))) }
    ensures { Full index.new × (Grows index.old index.new × JoinsRow row other (word_bits * from) (word_bits * to) index.old index.new) }
{
    for i in from..to {
        index[other + i] |= index[row + i];
    }
}

// The ids of these words that are in the row of any are in every row of every value, among the rows that begin at `start`, which is 0 if
// there are none; no bit is lost.
fn spread_any(index: &mut Index, start: usize, from: usize, to: usize)
    requires { (Full index.old × SoundPlan index.old) × (((start ≡ 0 → ⊥) → ColumnRows index.old start) × (to ≤ row_words index.old)) }
    ensures { Full index.new × (Grows index.old index.new × ((start ≡ 0 → ⊥) → SpreadsAny start (word_bits * from) (word_bits * to) index.old index.new)) }
{
    if start == 0 {
        return;
    }
    let any = any_row(index, start);
    if !has_some(index, any, from, to) {
        return;
    }
    let rows = index[DIGITS] * index[DIGIT_ROWS];
    let words = index[ROW_WORDS];
    for k in 0..rows {
        join_row(index, any, start + (k * words) as usize, from, to);
    }
}

// The same of the ids from start on and below end, in each of relation r's columns.
pub fn spread_columns(index: &mut Index, r: u16, width: u16, start: u16, end: u16)
    requires { Laid index.old end × ((r < max_relations) × (width ≤ max_width)) }
    ensures { Full index.new × (Grows index.old index.new × SpreadsColumns r width start end index.old index.new) }
{
    let from = wide(start / 64);
    let to = words_for(end);
    for c in 0..width {
        spread_any(index, column_start(index, r, c), from, to);
    }
}
