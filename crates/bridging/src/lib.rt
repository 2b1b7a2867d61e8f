// A relation's candidates narrowed through two others at once: a tuple stays only if a candidate of the one and a candidate of the other, each of
// which may agree with it, may agree with each other. For each of the two a table has, by the class of a value that it shares with the first,
// the classes of the values that it shares with the other.
#![tactic(auto)]

ghost use Rattle.std.specs.Prelude.{◌≡◌, true, ◌≤◌, ◌<◌, length};
ghost use Rattle.model.specs.Limits.{max_relations};
ghost use Rattle.layout.specs.Loan.{entry};
ghost use Rattle.layout.specs.Setting.{lists, network_in, SoundLists};
ghost use Rattle.narrowing.specs.Narrows.{Long};
ghost use Rattle.narrowing.specs.Sieve.{TupleIn};
ghost use Rattle.bridging.specs.Bridge.{of_any, of_all, cells, ColumnOr, class_of, class_at, sought_row, raised, Adds, Reaches, Meets, Passes, PassesAt, Narrows, Three, Bridged};

use layout::{Starts, is_any, tuple_start};
use live::ids::live_ids;
use live::{Words, clear, next};
use model::{MAX_WIDTH, Value};
use narrowing::sieve::{Shared, shared_of, value_at};
use value_index::digits::mix;

// The class of any, behind those of all other values; and the row of a table that has the classes of all its tuples.
const OF_ANY: usize = 256;

const OF_ALL: usize = 257;

// Words of a row, and of all rows.
const ROW: usize = 4;

const CELLS: usize = 1032;

// By the class of one value, the classes of another, a bit for each.
type Reached = [u64; CELLS];

// The class of a value, by a factor that may be chosen to tell the values apart.
fn class_of(factor: u64, value: Value) -> usize
    ensures { (result ≡ class_of factor value) × (result ≤ of_any) }
{
    if is_any(value) {
        return OF_ANY;
    }
    (mix(value as u64 * (factor % 65536) % 4294967296) / 16777216) as usize
}

// The class of the value that tuple x of relation r has in the column; that of any where there is no such column.
pub fn class_at(
    variables: &[u16],
    values: &[Value],
    starts: &Starts,
    r: u16,
    x: u16,
    column: u16,
    factor: u64,
) -> usize
    requires { TupleIn (lists (λ x. x.now) variables values starts) r x × ColumnOr (network_in (lists (λ x. x.now) variables values starts)) r column }
    ensures { (result ≡ class_at (network_in (lists entry variables values starts)) r x column factor) × (result ≤ of_any) }
{
    if column == MAX_WIDTH as u16 {
        return OF_ANY;
    }
    class_of(factor, value_at(variables, values, starts, r, x, column))
}

// More bits in a word.
#[tactic(auto, unfolding(crate::specs::Bridge::raised))]
fn raise(reached: &mut Reached, word: usize, bits: u64)
    requires { (length reached.old ≡ cells) × (word < cells) }
    ensures { reached.new ≡ raised word bits reached.old }
{
    reached[word] |= bits;
}

// A class more in a row; of any all classes.
fn add(reached: &mut Reached, row: usize, class: usize)
    requires { (length reached.old ≡ cells) × ((row ≤ of_all) × (class ≤ of_any)) }
    ensures { Adds row class reached.old reached.new }
{
    let at = ROW * row;
    if class < OF_ANY {
        raise(reached, at + class / 64, 1u64 << (class % 64));
    } else {
        reached[at..at + ROW].fill(!0u64);
    }
}

// Of relation s's live tuples, by the class of the value in column `key`, the classes of those in column `over`.
fn reached_by(
    variables: &[u16],
    values: &[Value],
    starts: &Starts,
    words: &Words,
    s: u16,
    key: u16,
    over: u16,
    factor: u64,
) -> Reached
    requires long { Long words.now × (SoundLists (lists (λ x. x.now) variables values starts) × (s < max_relations)) }
    requires column_or { ColumnOr (network_in (lists (λ x. x.now) variables values starts)) s key × ColumnOr (network_in (lists (λ x. x.now) variables values starts)) s over }
    ensures { Reaches (network_in (lists entry variables values starts)) s key over factor words.now result }
{
    let first = tuple_start(starts, s);
    let end = tuple_start(starts, s + 1);
    let mut reached = [0u64; CELLS];
    for g in live_ids(words, first, end) {
        let row = class_at(variables, values, starts, s, g - first, key, factor);
        let class = class_at(variables, values, starts, s, g - first, over, factor);
        add(&mut reached, row, class);
        add(&mut reached, OF_ALL, class);
    }
    reached
}

// The row in which what fits a value of this class is found, beside that of any: of any all.
fn sought_row(class: usize) -> usize
    requires { class ≤ of_any }
    ensures { (result ≡ sought_row class) × (result ≤ of_all) }
{
    if class == OF_ANY {
        return OF_ALL;
    }
    class
}

// Whether a class is in row a of the one table, or that of any, and in row b of the other.
fn meet(near: &Reached, far: &Reached, a: usize, b: usize) -> bool
    requires { ((length near.now ≡ cells) × (length far.now ≡ cells)) × ((a ≤ of_all) × (b ≤ of_all)) }
    ensures { Meets near.now far.now a b result }
{
    for i in 0..ROW {
        let reached = near[ROW * a + i] | near[ROW * OF_ANY + i];
        if reached & (far[ROW * b + i] | far[ROW * OF_ANY + i]) != 0 {
            return true;
        }
    }
    false
}

// Whether tuple x of relation r passes: the tables have a class in common, by its classes in columns a and b.
fn passes(
    variables: &[u16],
    values: &[Value],
    starts: &Starts,
    near: &Reached,
    far: &Reached,
    r: u16,
    x: u16,
    a: u16,
    b: u16,
    factor: u64,
) -> bool
    requires { TupleIn (lists (λ x. x.now) variables values starts) r x × PassesAt (network_in (lists (λ x. x.now) variables values starts)) r a b near.now far.now }
    ensures { Passes (network_in (lists entry variables values starts)) r a b factor near.now far.now x → result ≡ true }
{
    let first = sought_row(class_at(variables, values, starts, r, x, a, factor));
    let second = sought_row(class_at(variables, values, starts, r, x, b, factor));
    meet(near, far, first, second)
}

// Relation r's live tuples narrowed to those that pass. False where none is left.
fn keep_passing(
    variables: &[u16],
    values: &[Value],
    starts: &Starts,
    near: &Reached,
    far: &Reached,
    words: &mut Words,
    r: u16,
    a: u16,
    b: u16,
    factor: u64,
) -> bool
    requires long { Long words.old × (SoundLists (lists (λ x. x.now) variables values starts) × (r < max_relations)) }
    requires passes_at { PassesAt (network_in (lists (λ x. x.now) variables values starts)) r a b near.now far.now }
    ensures { Narrows (network_in (lists entry variables values starts)) r (Passes (network_in (lists entry variables values starts)) r a b factor near.now far.now) words.old words.new result }
{
    let first = tuple_start(starts, r);
    let end = tuple_start(starts, r + 1);
    let mut g = next(words, first, end);
    // stays a while: the loop writes the words that it goes over
    while g < end {
        if !passes(
            variables,
            values,
            starts,
            near,
            far,
            r,
            g - first,
            a,
            b,
            factor,
        ) {
            clear(words, g);
        }
        g = next(words, g + 1, end);
    }
    next(words, first, end) < end
}

// Relation r's live tuples narrowed through those of s and t at once, by a variable that s and t share, none of `both`, and by what each of them
// shares with r, none of `own`. False where none is left.
pub fn bridge(
    variables: &[u16],
    values: &[Value],
    starts: &Starts,
    words: &mut Words,
    r: u16,
    s: u16,
    t: u16,
    own: u64,
    both: u64,
    factor: u64,
) -> bool
    requires { Long words.old × (SoundLists (lists (λ x. x.now) variables values starts) × Three r s t) }
    ensures { Bridged (network_in (lists entry variables values starts)) r s t words.old words.new result }
{
    let over = shared_of(variables, values, starts, s, t, both);
    if over.own == MAX_WIDTH as u16 {
        return true;
    }
    let a = shared_of(variables, values, starts, r, s, own);
    let b = shared_of(variables, values, starts, r, t, own);
    let near = reached_by(
        variables, values, starts, words, s, a.other, over.own, factor,
    );
    let far = reached_by(
        variables, values, starts, words, t, b.other, over.other, factor,
    );
    keep_passing(
        variables, values, starts, &near, &far, words, r, a.own, b.own, factor,
    )
}
