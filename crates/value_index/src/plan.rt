// How values are told apart: which columns have rows, how many, and by which digits. Whatever these functions choose, a tuple is in all rows
// of its values; the better they choose, the fewer others are.
ghost use Rattle.std.specs.Prelude.{◌*◌, ◌≤◌, ◌<◌, length};
ghost use Rattle.model.specs.Limits.{max_relations, max_width, max_tuples, word_bits};
ghost use Rattle.model.specs.Network.{total};
ghost use Rattle.layout.specs.Loan.{entry};
ghost use Rattle.layout.specs.Starts.{tuple_start};
ghost use Rattle.layout.specs.Setting.{lists, network_in, SoundLists};
ghost use Rattle.value_index.specs.Plan.{index_words, max_digits, hashes, most_rows, plan_words};
ghost use Rattle.value_index.specs.Index.{Full, Laid};
ghost use Rattle.value_index.specs.Planning.{ScopesWithin, Digital, Begins, LaysRelation, LaysRelations};

use super::{
    DIGIT_ROWS, DIGITS, FACTOR, HASHES, INDEX, Index, MAX_DIGITS, MIXES, PLAN, ROW_WORDS, ROWS,
    SCOPES,
};
use layout::{Starts, tuple_count, variable_start, wide};
use live::words_for;
use model::{ANY_VALUE, MAX_RELATIONS, MAX_WIDTH, Value};

// No column has more rows than this; more would tell no more values apart.
const MOST_ROWS: u64 = 1024;

// So many classes of hashes are enough for values that cannot all be told apart: few tuples are then taken for others.
const ENOUGH: u64 = 65536;

// A factor that spreads such values, before the product is mixed.
const SPREAD: u64 = 2654435769;

// How many digits a value has, how many rows each, what a value is multiplied by, and whether the product is mixed.
#[derive(Clone, Copy)]
struct Digits {
    count: u64,
    rows: u64,
    factor: u64,
    mixes: u64,
}

// The variables that stand more than once in the list, a bit for each: those that two relations have.
fn shared_variables(variables: &[u16]) -> u64 {
    let mut once: u64 = 0;
    let mut shared: u64 = 0;
    for variable in variables {
        let bit = 1u64 << (*variable % 64);
        shared |= once & bit;
        once |= bit;
    }
    shared
}

// Whether the variable is one of these.
fn is_shared(shared: u64, variable: u16) -> bool {
    (shared >> (variable % 64)) % 2 == 1
}

// How many variables of the scope are shared.
fn shared_columns(scope: &[u16], shared: u64) -> u64
    ensures { result ≤ length scope.now }
{
    scope
        .iter()
        .filter(|variable| is_shared(shared, **variable))
        .count() as u64
}

// The most shared variables of any relation, and at least 1.
fn most_columns(variables: &[u16], starts: &Starts, shared: u64) -> u64
    requires { ScopesWithin starts.now variables.now }
    ensures { 0 < result }
{
    let mut most: u64 = 1;
    for r in 0..MAX_RELATIONS as u16 {
        let scope = variable_start(starts, r);
        let scope_end = variable_start(starts, r + 1);
        most = most.max(shared_columns(&variables[scope..scope_end], shared));
    }
    most
}

// One more than a value, and 0 for any, which is the last of its width.
fn above(value: Value) -> Value {
    value.wrapping_add(1)
}

// How many numbers there are from the least value to the largest other than any, and at least 1.
fn value_range(values: &[Value]) -> u64
    ensures { (0 < result) × (result ≤ hashes) }
{
    let mut least: Value = ANY_VALUE;
    let mut most: Value = 0;
    for value in values {
        least = least.min(*value);
        most = most.max(above(*value));
    }
    if most <= least {
        return 1;
    }
    (most - least) as u64
}

// Whether so many digits, of so many rows each, make at least `classes` classes of hashes.
fn tells(rows: u64, digits: u64, classes: u64) -> bool
    requires { (rows ≤ most_rows) × (classes ≤ hashes) }
{
    let mut reached: u64 = 1;
    for _ in 0..digits {
        reached *= rows;
        if classes <= reached {
            return true;
        }
    }
    false
}

// At most so many rows, halved while so many digits still make at least `classes` classes: the row of any is spread over all of them.
fn fewer_rows(rows: u64, digits: u64, classes: u64) -> u64
    requires { (0 < rows) × ((rows ≤ most_rows) × (classes ≤ hashes)) }
    ensures { (0 < result) × (result ≤ rows) }
{
    let mut fewer = rows;
    // stays a while: it goes by halves
    while 2 <= fewer && tells(fewer / 2, digits, classes) {
        fewer /= 2;
    }
    fewer
}

// As few digits as tell all values of the range apart, with so many rows, wherever it begins: their hashes lie so far from each other.
// Where fewer make enough classes, or where four do not tell them apart, they are digits of a product which spreads the values, mixed.
fn digits_for(rows: u64, range: u64) -> Digits
    requires { (max_digits ≤ rows) × (rows ≤ most_rows) × (0 < range) × (range ≤ hashes) }
    ensures { Digital result }
{
    let factor = HASHES / range;
    let classes = (HASHES - 1) / factor + 1;
    for count in 1..=MAX_DIGITS as u64 {
        let each = rows / count;
        if tells(each, count, classes) {
            let fewer = fewer_rows(each, count, classes);
            return Digits {
                count,
                rows: fewer,
                factor,
                mixes: 0,
            };
        }
        if tells(each, count, ENOUGH) {
            return Digits {
                count,
                rows: each,
                factor: SPREAD,
                mixes: 1,
            };
        }
    }
    Digits {
        count: MAX_DIGITS as u64,
        rows: rows / MAX_DIGITS as u64,
        factor: SPREAD,
        mixes: 1,
    }
}

// How many rows the digits of each of so many columns may have, of so many words each, beside the row of any.
fn rows_for(columns: u64, words: u64) -> u64
    requires { (0 < columns) × (0 < words) }
    ensures { (max_digits ≤ result) × (result ≤ most_rows) }
{
    let rows = ROWS as u64 / columns / words;
    if rows <= MAX_DIGITS as u64 {
        return MAX_DIGITS as u64;
    }
    if MOST_ROWS < rows {
        return MOST_ROWS;
    }
    rows - 1
}

// Where the rows of column c of a scope begin: at `start` if its variable is shared and so many words have room there, and otherwise
// nowhere, which is 0.
fn column_at(scope: &[u16], c: usize, shared: u64, start: usize, size: usize) -> usize
    requires { (plan_words ≤ start) × (start ≤ index_words) }
    ensures { Begins start size result }
{
    if c < scope.len() && size <= INDEX - start && is_shared(shared, scope[c]) {
        return start;
    }
    0
}

// Where the next column's rows may begin.
fn behind(start: usize, size: usize, begin: usize) -> usize
    requires { (plan_words ≤ start) × (start ≤ index_words) × Begins start size begin }
    ensures { (plan_words ≤ result) × (result ≤ index_words) }
{
    if begin == 0 {
        return start;
    }
    start + size
}

// Says in the index where the rows of relation r's columns begin, one column's behind the other's, of so many words each.
fn lay_relation(scope: &[u16], shared: u64, r: u16, size: usize, index: &mut Index)
    requires { Full index.old × (r < max_relations) }
    ensures { Full index.new × LaysRelation size r max_width index.old index.new }
{
    let own = wide(r) * MAX_WIDTH;
    let mut start = PLAN;
    for c in 0..MAX_WIDTH {
        let begin = column_at(scope, c, shared, start, size);
        index[own + c] = begin as u64;
        start = behind(start, size, begin);
    }
}

// The same of all relations.
fn lay_relations(variables: &[u16], starts: &Starts, shared: u64, size: usize, index: &mut Index)
    requires { Full index.old × ScopesWithin starts.now variables.now }
    ensures { Full index.new × LaysRelations size max_relations index.old index.new }
{
    for r in 0..MAX_RELATIONS as u16 {
        let scope = variable_start(starts, r);
        let scope_end = variable_start(starts, r + 1);
        lay_relation(&variables[scope..scope_end], shared, r, size, index);
    }
}

// The variables of a scope, a bit for each.
fn bits_of(scope: &[u16]) -> u64 {
    let mut bits: u64 = 0;
    for variable in scope {
        bits |= 1u64 << (*variable % 64);
    }
    bits
}

// Says in the index which variables each relation has.
fn lay_scopes(variables: &[u16], starts: &Starts, index: &mut Index)
    requires { Full index.old × ScopesWithin starts.now variables.now }
    ensures { Full index.new }
{
    for r in 0..MAX_RELATIONS as u16 {
        let scope = variable_start(starts, r);
        let scope_end = variable_start(starts, r + 1);
        index[SCOPES + wide(r)] = bits_of(&variables[scope..scope_end]);
    }
}

// How many words a row has: a bit for each tuple, and at least one word.
fn words_of_row(starts: &Starts) -> usize
    requires { tuple_start starts.now max_relations ≤ max_tuples }
    ensures { (0 < result) × (result ≤ 64) × (tuple_start starts.now max_relations ≤ word_bits * result) }
{
    words_for(tuple_count(starts)).max(1)
}

// The index gets its plan.
pub fn lay_out(variables: &[u16], values: &[Value], starts: &Starts, index: &mut Index)
    requires { Full index.old × SoundLists (lists (λ x. x.now) variables values starts) }
    ensures { Laid index.new (total (network_in (lists entry variables values starts))) }
{
    lay_scopes(variables, starts, index);
    let words = words_of_row(starts);
    let shared = shared_variables(variables);
    let rows = rows_for(most_columns(variables, starts, shared), words as u64);
    let digits = digits_for(rows, value_range(values));
    index[ROW_WORDS] = words as u64;
    index[DIGITS] = digits.count;
    index[DIGIT_ROWS] = digits.rows;
    index[FACTOR] = digits.factor;
    index[MIXES] = digits.mixes;
    let size = (digits.count * digits.rows + 1) as usize * words;
    lay_relations(variables, starts, shared, size, index);
}
