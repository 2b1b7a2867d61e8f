// Sweeps before the visits: tuples fall that no live tuple of a relation beside theirs, another member of a combination, agrees with.
#![tactic(auto)]

ghost use Rattle.std.specs.Prelude.{◌≡◌, false, ◌*◌, ◌≤◌, ◌<◌, length};
ghost use Rattle.model.specs.Limits.{max_relations, max_tuples};
ghost use Rattle.model.specs.Combination.{combinations};
ghost use Rattle.live.specs.Words.{WordArray};
ghost use Rattle.layout.specs.Loan.{entry};
ghost use Rattle.layout.specs.Setting.{lists, network_in, setting, Whole, Sound};
ghost use Rattle.value_index.specs.Index.{Indexed};
ghost use Rattle.narrowing.specs.Narrows.{Long, Searchable};
ghost use Rattle.narrowing.specs.TupleRows.{tuple_rows};
ghost use Rattle.sweeping.specs.Shrunk.{Shrunk};
ghost use Rattle.sweeping.specs.Sweep.{Besides, Few, PutAsks, Put, Prepared, Testable, Misses, Falls, Covers, Revises, Sweeps, AtMost};

use layout::{Starts, relation_count, tuple_start, value_start, variable_start, wide};
use live::ids::live_ids;
use live::{WORDS, Words, clear, next, set, words_for};
use model::Value;
use narrowing::columns::{Columns, shared_columns};
use narrowing::rows::{Rows, TUPLE_ROWS, live_between, meet, rows_of};
use value_index::{Index, scope_bits};

// The fewest and the most tuples of a relation that are tested before it is asked whether too few fall.
const LEAST: u32 = 8;

const MOST: u32 = 32;

// How many tuples were tested, and how many of them fell.
#[derive(Clone, Copy)]
pub struct Swept {
    pub tested: u32,
    pub fell: u32,
}

// Whether an id of the words from `from` on and below `to` is live in `alive`, and in every row of the tuple's values. What is in `rows`
// does not matter.
fn meets(
    index: &Index,
    columns: &Columns,
    tuple: &[Value],
    alive: &Words,
    rows: &mut Rows,
    from: usize,
    to: usize,
) -> bool
    requires { (length rows.old ≡ tuple_rows) × Testable index.now columns.now tuple.now to }
    ensures { (length rows.new ≡ tuple_rows) × (result ≡ false → Misses index.now columns.now tuple.now alive.now from to) }
{
    let n = rows_of(index, columns, tuple, rows);
    meet(index, rows, n, alive, from, to)
}

// Id g falls if there is none such. How many fell: 1 or 0.
fn clear_unmet(
    index: &Index,
    columns: &Columns,
    tuple: &[Value],
    alive: &Words,
    rows: &mut Rows,
    words: &mut Words,
    g: u16,
    from: usize,
    to: usize,
) -> u32
    requires rows_len { (length rows.old ≡ tuple_rows) × Testable index.now columns.now tuple.now to }
    requires long { Long words.old × (g < max_tuples) }
    ensures { (length rows.new ≡ tuple_rows) × Falls index.now columns.now tuple.now alive.now from to g words.old words.new result }
{
    if meets(index, columns, tuple, alive, rows, from, to) {
        return 0;
    }
    clear(words, g);
    1
}

// Whether so few of the tuples tested fell that it does not pay to test more: less than a sixteenth.
fn few_fell(tested: u32, fell: u32) -> bool
    requires { fell ≤ max_relations * max_relations * max_tuples }
{
    fell * 16 < tested
}

// How many of a relation's tuples are tested to know: a quarter, within these bounds; and the fewest where few fell of others before.
fn sample_of(tuples: u16, few: bool) -> u32 {
    if few {
        return LEAST;
    }
    u32::from(tuples / 4).clamp(LEAST, MOST)
}

// Whether as many were tested, and few fell.
fn stops(tested: u32, fell: u32, sample: u32) -> bool
    requires { fell ≤ max_tuples }
{
    sample <= tested && few_fell(tested, fell)
}

// Live tuples of relation r fall, and only such ones as no live tuple of relation s agrees with; these are live in `alive` too. Not all
// are tested where too few fall, or where few fell of others before.
fn clear_tuples(
    variables: &[u16],
    values: &[Value],
    starts: &Starts,
    index: &Index,
    columns: &Columns,
    alive: &Words,
    words: &mut Words,
    r: u16,
    s: u16,
    from: usize,
    to: usize,
    few: bool,
) -> Swept
    requires prepared { Prepared (lists (λ x. x.now) variables values starts) index.now columns.now r s from to }
    requires word_array { WordArray words.old × Covers (network_in (lists (λ x. x.now) variables values starts)) s words.old alive.now }
    ensures { AtMost 1 result × Revises (lists entry variables values starts) r s words.old words.new }
{
    let first = tuple_start(starts, r);
    let end = tuple_start(starts, r + 1);
    let base = value_start(starts, r);
    let width = variable_start(starts, r + 1) - variable_start(starts, r);
    let sample = sample_of(end - first, few);
    let mut rows = [0u16; TUPLE_ROWS];
    let mut tested = 0;
    let mut fell = 0;
    let mut g = next(words, first, end);
    // stays a while: the loop writes the words that it goes over
    while g < end {
        if stops(tested, fell, sample) {
            return Swept { tested, fell };
        }
        let a = base + wide(g - first) * width;
        let a_end = a + width;
        let tuple = &values[a..a_end];
        let n = clear_unmet(index, columns, tuple, alive, &mut rows, words, g, from, to);
        fell += n;
        tested += 1;
        g = next(words, g + 1, end);
    }
    Swept { tested, fell }
}

// The same where the two relations share a variable; tuples of relations that share none agree, and are not tested.
fn revise(
    variables: &[u16],
    values: &[Value],
    starts: &Starts,
    index: &Index,
    words: &mut Words,
    r: u16,
    s: u16,
    few: bool,
) -> Swept
    requires { WordArray words.old × (Searchable (lists (λ x. x.now) variables values starts) index.now × ((r < max_relations) × (s < max_relations))) }
    ensures { AtMost 1 result × Revises (lists entry variables values starts) r s words.old words.new }
{
    if scope_bits(index, r) & scope_bits(index, s) == 0 {
        return Swept { tested: 0, fell: 0 };
    }
    let a = variable_start(starts, r);
    let a_end = variable_start(starts, r + 1);
    let b = variable_start(starts, s);
    let b_end = variable_start(starts, s + 1);
    let columns = shared_columns(index, &variables[a..a_end], &variables[b..b_end], s);
    let start = tuple_start(starts, s);
    let end = tuple_start(starts, s + 1);
    let alive = live_between(words, start, end);
    clear_tuples(
        variables,
        values,
        starts,
        index,
        &columns,
        &alive,
        words,
        r,
        s,
        wide(start / 64),
        words_for(end),
        few,
    )
}

// The same for relation r and each relation beside it.
fn sweep_relation(
    variables: &[u16],
    values: &[Value],
    starts: &Starts,
    index: &Index,
    beside: &Words,
    words: &mut Words,
    r: u16,
    few: bool,
) -> Swept
    requires { WordArray words.old × (Long beside.now × (Searchable (lists (λ x. x.now) variables values starts) index.now × (r < max_relations))) }
    ensures { AtMost max_relations result × Sweeps (lists entry variables values starts) beside.now words.old words.new }
{
    let base = r * 64;
    let end = base + 64;
    let mut tested = 0;
    let mut fell = 0;
    for k in live_ids(beside, base, end) {
        let swept = revise(variables, values, starts, index, words, r, k - base, few);
        tested += swept.tested;
        fell += swept.fell;
    }
    Swept { tested, fell }
}

// A sweep over all relations. It is false where too few fell for another one.
fn sweep(
    variables: &[u16],
    values: &[Value],
    starts: &Starts,
    index: &Index,
    beside: &Words,
    words: &mut Words,
) -> bool
    requires { WordArray words.old × (Long beside.now × Searchable (lists (λ x. x.now) variables values starts) index.now) }
    ensures { Sweeps (lists entry variables values starts) beside.now words.old words.new }
{
    let mut tested = 0;
    let mut fell = 0;
    for r in 0..relation_count(starts) {
        let few = few_fell(tested, fell);
        let swept = sweep_relation(variables, values, starts, index, beside, words, r, few);
        tested += swept.tested;
        fell += swept.fell;
    }
    !few_fell(tested, fell)
}

// Relation r is beside each other member from `base` on and below `end`.
fn put_beside(beside: &mut Words, members: &[u16], base: usize, end: usize, r: u16)
    requires { PutAsks beside.old members.now base end r }
    ensures { Put members.now base end r beside.old beside.new }
{
    for s in &members[base..end] {
        if *s != r {
            set(beside, r * 64 + *s);
        }
    }
}

// Of each relation, as a word, those beside it: bit s of word r.
fn all_beside(members: &[u16], m: u16) -> Words
    requires { Whole m members.now × Few members.now }
    ensures { Besides (combinations m members.now) result }
{
    let each = wide(m);
    let mut beside = [0u64; WORDS];
    for (p, r) in members.iter().enumerate() {
        let base = p / each * each;
        put_beside(&mut beside, members, base, base + each, *r);
    }
    beside
}

// Two sweeps at most, the second where enough fell in the first.
pub fn sweeps(
    variables: &[u16],
    values: &[Value],
    starts: &Starts,
    members: &[u16],
    m: u16,
    index: &Index,
    words: &mut Words,
)
    requires word_array { WordArray words.old × Sound (setting (λ x. x.now) variables values starts members m) }
    requires indexed { Indexed (network_in (lists (λ x. x.now) variables values starts)) index.now }
    ensures { Shrunk (setting entry variables values starts members m) words.old words.new }
{
    let beside = all_beside(members, m);
    if sweep(variables, values, starts, index, &beside, words) {
        sweep(variables, values, starts, index, &beside, words);
    }
}
