// The value index: rows of bits by tuple, for each column whose variable another relation has too. A value has a few digits, each of which
// names a row; a tuple is in the rows of its values, and in every row of a column where its value is any. So the tuples whose value in a
// column fits a value are in all of its rows, and where the digits tell all values apart, no other tuple is.
#![tactic(auto)]

ghost use Rattle.std.specs.Prelude.{◌≡◌, true, ◌+◌, ◌-◌, ◌*◌, ◌≤◌, ◌<◌, length};
ghost use Rattle.model.specs.Limits.{max_relations, max_width, word_bits};
ghost use Rattle.layout.specs.Loan.{entry};
ghost use Rattle.layout.specs.Setting.{lists, network_in, SoundLists};
ghost use Rattle.value_index.specs.Plan.{plan_words, index_words, hashes, column_start, digit_count, row_plan, hash_at, hash_behind, row_of, ColumnRows, SoundPlan, SamePlan};
ghost use Rattle.value_index.specs.Index.{Full, Laid, Raises, Grows, is_indexed, Indexed, Entered, EntersColumn, EntersTuples, IndexesTuples};

use any::{any_row, spread_columns};
use digits::{RowPlan, row_plan};
use layout::{Starts, is_any, relation_count, tuple_start, value_start, variable_start, wide};
use model::{MAX_WIDTH, Value};
use plan::lay_out;

pub mod plan; // how values are told apart
pub mod digits; // the rows of a value's digits, by a plan that is read once
pub mod any; // the row of any

// The plan's words: where each column's rows begin, how many words a row has, how many digits a value has, how many rows a digit has,
// what a value is multiplied by, whether the product is mixed, and each relation's variables, a bit for each.
pub const ROW_WORDS: usize = 512;

pub const DIGITS: usize = 513;

pub const DIGIT_ROWS: usize = 514;

pub const FACTOR: usize = 515;

pub const MIXES: usize = 516;

pub const SCOPES: usize = 517;

pub const PLAN: usize = 581;

// The words of all rows.
pub const ROWS: usize = 9216;

pub const INDEX: usize = PLAN + ROWS;

pub type Index = [u64; INDEX];

pub const MAX_DIGITS: usize = 4;

// Hashes lie below.
pub const HASHES: u64 = 4294967296;

// The variables of relation r, a bit for each: a hint, by which work that changes nothing is left out.
pub fn scope_bits(index: &Index, r: u16) -> u64
    requires { r < max_relations }
{
    index[SCOPES + wide(r)]
}

// Where the rows of column c of relation r begin; 0 if it has none.
pub fn column_start(index: &Index, r: u16, c: u16) -> usize
    requires { (r < max_relations) × (c < max_width) }
    ensures { result ≡ column_start index.now r c }
{
    index[wide(r) * MAX_WIDTH + wide(c)] as usize
}

// How many digits a value has.
pub fn digit_count(index: &Index) -> u64
    ensures { result ≡ digit_count index.now }
{
    index[DIGITS]
}

// The hash of a value, of which its first digit is made.
pub fn hash_of(index: &Index, value: Value) -> u64
    requires { SoundPlan index.now }
    ensures { result ≡ hash_at index.now value 0 }
{
    digits::hash_of(index, row_plan(index), value)
}

// The hash of which the digit behind is made.
pub fn hash_behind(index: &Index, hash: u64) -> u64
    requires { SoundPlan index.now × (hash < hashes) }
    ensures { result ≡ hash_behind index.now hash }
{
    digits::hash_behind(index, row_plan(index), hash)
}

// The word at which the row of digit i begins, which is made of a hash, among the rows that begin at `start`.
pub fn row_of(index: &Index, start: usize, hash: u64, i: u64) -> usize
    requires { SoundPlan index.now × (ColumnRows index.now start × ((hash < hashes) × (i < digit_count index.now))) }
    ensures { result ≡ row_of index.now start hash i }
{
    digits::row_of(index, row_plan(index), start, hash, i)
}

// The bit of id g in the row that begins at word `row` is 1, and every other bit stays.
fn enter(index: &mut Index, row: usize, g: u16)
    requires { Full index.old × ((plan_words ≤ row) × (word_bits * row + g < word_bits * index_words)) }
    ensures { Full index.new × (SamePlan index.old index.new × Raises index.old index.new (word_bits * row + g)) }
{
    let i = row + wide(g / 64);
    index[i] |= 1u64 << (g % 64);
}

// The tuple with id g is in every row of the value, among the rows that begin at `start`; no bit is lost.
fn enter_value(index: &mut Index, plan: RowPlan, start: usize, value: Value, g: u16)
    requires { (Laid index.old (g + 1) × ColumnRows index.old start) × (plan ≡ row_plan index.old) }
    ensures { Full index.new × (Grows index.old index.new × (is_indexed index.new start value g ≡ true)) }
{
    let mut hash = digits::hash_of(index, plan, value);
    for i in 0..plan.digits {
        enter(index, digits::row_of(index, plan, start, hash, i), g);
        hash = digits::hash_behind(index, plan, hash);
    }
}

// The tuple with id g is entered by its value among the rows that begin at `start`: in the row of any, or in those of the value; no bit is
// lost.
fn enter_cell(index: &mut Index, plan: RowPlan, start: usize, value: Value, g: u16)
    requires { (Laid index.old (g + 1) × ColumnRows index.old start) × (plan ≡ row_plan index.old) }
    ensures { Full index.new × (Grows index.old index.new × Entered index.new start value g) }
{
    if is_any(value) {
        enter(index, any_row(index, start), g);
        return;
    }
    enter_value(index, plan, start, value, g);
}

// The tuples from id first on and below id end, whose values begin at `at`, are entered by those in column c among the rows that begin at
// `start`, which is 0 if there are none; no bit is lost.
fn enter_column(
    values: &[Value],
    at: usize,
    width: u16,
    c: u16,
    start: usize,
    first: u16,
    end: u16,
    index: &mut Index,
)
    requires laid { Laid index.old end × ((start ≡ 0 → ⊥) → ColumnRows index.old start) }
    requires first_le_end { (first ≤ end) × ((c < width) × ((width ≤ max_width) × (at + (end - first) * width ≤ length values.now))) }
    ensures { Full index.new × (Grows index.old index.new × ((start ≡ 0 → ⊥) → EntersColumn values.now at width c start first end index.new)) }
{
    if start == 0 {
        return;
    }
    let plan = row_plan(index);
    let mut p = at + wide(c);
    for g in first..end {
        enter_cell(index, plan, start, values[p], g);
        p += wide(width);
    }
}

// The tuples of relation r from id start on and below id end, whose values begin at `at`, are entered; no bit is lost.
fn enter_tuples(
    values: &[Value],
    at: usize,
    r: u16,
    width: u16,
    start: u16,
    end: u16,
    index: &mut Index,
)
    requires laid { Laid index.old end × ((r < max_relations) × (width ≤ max_width)) }
    requires start_le_end { (start ≤ end) × (at + (end - start) * width ≤ length values.now) }
    ensures { Full index.new × (Grows index.old index.new × EntersTuples values.now at r width start end index.new) }
{
    for c in 0..width {
        let rows = column_start(index, r, c);
        enter_column(values, at, width, c, rows, start, end, index);
    }
}

// The tuples of relation r from id start on and below id end, whose values begin at `at`, are indexed; no bit is lost.
fn index_tuples(
    values: &[Value],
    at: usize,
    r: u16,
    width: u16,
    start: u16,
    end: u16,
    index: &mut Index,
)
    requires laid { Laid index.old end × ((r < max_relations) × (width ≤ max_width)) }
    requires start_le_end { (start ≤ end) × (at + (end - start) * width ≤ length values.now) }
    ensures { Full index.new × (Grows index.old index.new × IndexesTuples values.now at r width start end index.new) }
{
    enter_tuples(values, at, r, width, start, end, index);
    spread_columns(index, r, width, start, end);
}

// Every tuple is indexed. A caller lends noughts: a bit that is there already stays.
pub fn index_all(variables: &[u16], values: &[Value], starts: &Starts, index: &mut Index)
    requires { Full index.old × SoundLists (lists (λ x. x.now) variables values starts) }
    ensures { Full index.new × Indexed (network_in (lists entry variables values starts)) index.new }
{
    lay_out(variables, values, starts, index);
    for r in 0..relation_count(starts) {
        let width = (variable_start(starts, r + 1) - variable_start(starts, r)) as u16;
        index_tuples(
            values,
            value_start(starts, r),
            r,
            width,
            tuple_start(starts, r),
            tuple_start(starts, r + 1),
            index,
        );
    }
}
