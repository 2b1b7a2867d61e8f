// A sieve, made once for a walk of relation r's tuples: for one variable that relation s has too, the bits of the values of s's live tuples.
// A value has one bit, and any has all. A tuple of r of whose value's bits none is there agrees with no live tuple of s, and is passed over.
ghost use Rattle.std.specs.Prelude.{◌≡◌, ◌≤◌, ◌<◌, length};
ghost use Rattle.model.specs.Limits.{max_relations, max_width};
ghost use Rattle.model.specs.Network.{width};
ghost use Rattle.layout.specs.Loan.{entry};
ghost use Rattle.layout.specs.Setting.{lists, network_in, SoundLists};
ghost use Rattle.narrowing.specs.Narrows.{Long};
ghost use Rattle.narrowing.specs.Sieve.{bits_of, value_in, bits_at, passes_sieve, Sieves, Shares, CommonColumns, SharedIn, Masks, TupleIn, ColumnIn};

use layout::{Starts, column_of, is_any, place_of, tuple_start, variable_start, wide};
use live::Words;
use live::ids::live_ids;
use model::{MAX_WIDTH, Value};
use value_index::digits::mix;

// A column of the relation that is sieved, and the bits of the values there. Past the relation's columns nothing is sieved.
#[derive(Clone, Copy)]
pub struct Sieve {
    pub column: u16,
    pub bits: u64,
}

// A column of each of two relations.
#[derive(Clone, Copy)]
pub struct Shared {
    pub own: u16,
    pub other: u16,
}

// The bits of a value.
fn bits_of(value: Value) -> u64
    ensures { result ≡ bits_of value }
{
    if is_any(value) {
        return !0u64;
    }
    1u64 << (mix(value as u64) / 67108864)
}

// The value that tuple x of relation r has in the column.
pub fn value_at(
    variables: &[u16],
    values: &[Value],
    starts: &Starts,
    r: u16,
    x: u16,
    column: u16,
) -> Value
    requires { TupleIn (lists (λ x. x.now) variables values starts) r x × (column < width (network_in (lists (λ x. x.now) variables values starts)) r) }
    ensures { result ≡ value_in (network_in (lists entry variables values starts)) r x column }
{
    let p = place_of(starts, r, x);
    values[p.tuple + wide(column)]
}

// The bits of that value.
pub fn bits_at(
    variables: &[u16],
    values: &[Value],
    starts: &Starts,
    r: u16,
    x: u16,
    column: u16,
) -> u64
    requires { TupleIn (lists (λ x. x.now) variables values starts) r x × (column < width (network_in (lists (λ x. x.now) variables values starts)) r) }
    ensures { result ≡ bits_at (network_in (lists entry variables values starts)) r x column }
{
    bits_of(value_at(variables, values, starts, r, x, column))
}

// Whether variable x is in the set.
pub fn is_in(set: u64, x: u16) -> bool {
    (set >> (x % 64)) % 2 == 1
}

// A column of scope a and one of scope b that have the same variable, none of the set; past all columns where they share none.
fn shared_columns(scope_a: &[u16], scope_b: &[u16], without: u64) -> Shared
    requires { (length scope_a.now ≤ max_width) × (length scope_b.now ≤ max_width) }
    ensures shares { Shares scope_a.now scope_b.now result }
    ensures common { CommonColumns scope_a.now scope_b.now result }
{
    for (i, x) in scope_a.iter().enumerate() {
        if !is_in(without, *x) {
            let j = column_of(scope_b, *x);
            if j < scope_b.len() {
                return Shared {
                    own: i as u16,
                    other: j as u16,
                };
            }
        }
    }
    Shared {
        own: MAX_WIDTH as u16,
        other: MAX_WIDTH as u16,
    }
}

// A column of relation r and one of relation s that have the same variable, none of the set; past all columns where they share none.
pub fn shared_of(
    variables: &[u16],
    values: &[Value],
    starts: &Starts,
    r: u16,
    s: u16,
    without: u64,
) -> Shared
    requires { SoundLists (lists (λ x. x.now) variables values starts) × ((r < max_relations) × (s < max_relations)) }
    ensures { SharedIn (network_in (lists entry variables values starts)) r s result }
{
    let a = variable_start(starts, r);
    let a_end = variable_start(starts, r + 1);
    let b = variable_start(starts, s);
    let b_end = variable_start(starts, s + 1);
    shared_columns(&variables[a..a_end], &variables[b..b_end], without)
}

// The bits of the values that live tuples of relation s have in the column.
fn mask_of(
    variables: &[u16],
    values: &[Value],
    starts: &Starts,
    words: &Words,
    s: u16,
    column: u16,
) -> u64
    requires { Long words.now × ColumnIn (lists (λ x. x.now) variables values starts) s column }
    ensures { Masks (network_in (lists entry variables values starts)) s column words.now result }
{
    let first = tuple_start(starts, s);
    let end = tuple_start(starts, s + 1);
    let mut bits: u64 = 0;
    for g in live_ids(words, first, end) {
        bits |= bits_at(variables, values, starts, s, g - first, column);
    }
    bits
}

// The sieve of relation r's tuples by the live tuples of relation s.
pub fn sieve_for(
    variables: &[u16],
    values: &[Value],
    starts: &Starts,
    words: &Words,
    r: u16,
    s: u16,
) -> Sieve
    requires { Long words.now × (SoundLists (lists (λ x. x.now) variables values starts) × ((r < max_relations) × (s < max_relations))) }
    ensures { Sieves (network_in (lists entry variables values starts)) r s words.now result }
{
    let shared = shared_of(variables, values, starts, r, s, 0);
    let column = shared.own;
    if column == MAX_WIDTH as u16 {
        return Sieve { column, bits: 0 };
    }
    let bits = mask_of(variables, values, starts, words, s, shared.other);
    Sieve { column, bits }
}

// Whether tuple x of relation r passes.
pub fn passes(
    variables: &[u16],
    values: &[Value],
    starts: &Starts,
    sieve: Sieve,
    r: u16,
    x: u16,
) -> bool
    requires { TupleIn (lists (λ x. x.now) variables values starts) r x }
    ensures { result ≡ passes_sieve (network_in (lists entry variables values starts)) r sieve x }
{
    let a = variable_start(starts, r);
    let a_end = variable_start(starts, r + 1);
    if a_end - a <= wide(sieve.column) {
        return true;
    }
    sieve.bits & bits_at(variables, values, starts, r, x, sieve.column) != 0
}
