// Doubles: tuples of a relation with the same values under a set of variables. They are found by a table of tuples, at the hash of their values.
#![tactic(auto)]

ghost use Rattle.std.specs.Prelude.{◌≡◌, ◌<◌, length};
ghost use Rattle.layout.specs.Loan.{entry};
ghost use Rattle.layout.specs.Setting.{lists};
ghost use Rattle.doubles.specs.Alike.{TupleAt};
ghost use Rattle.doubles.specs.Doubles.{places, hash_bound, FirstAlike};

use alike::{has_variable, same_values};
use layout::{Starts, place_of};
use model::Value;

pub mod alike; // which tuples have the same values

// The entries of a table.
pub const PLACES: usize = 2048;

// By the hash of its values, the index of the first tuple that was entered, or 65,535.
pub type Table = [u16; PLACES];

// A factor that spreads the multiples of many numbers evenly. Of the golden ratio's factors this is not so: multiples of a Fibonacci number fall
// together.
const SPREAD: u64 = 1410414543;

// The hash of the values so far and of one more: the upper half of a product added to its lower one, so that all bits count.
fn mixed(hash: u64, value: Value) -> u64
    requires { hash < hash_bound }
    ensures { result < hash_bound }
{
    let product = (hash + u64::from(value)) * SPREAD;
    (product / 4294967296 + product % 4294967296) % 4294967296
}

// A place in the table, by the values in every column whose variable is in the set, from a first hash on.
fn hash_in(scope: &[u16], tuple: &[Value], common: u64, seed: u64) -> usize
    requires { (length scope.now ≡ length tuple.now) × (seed < hash_bound) }
    ensures { result < places }
{
    let mut hash = seed;
    for (c, v) in scope.iter().enumerate() {
        if has_variable(common, *v) {
            hash = mixed(hash, tuple[c]);
        }
    }
    (hash / 2097152) as usize
}

// The place of tuple x of relation r.
fn tuple_hash(
    variables: &[u16],
    values: &[Value],
    starts: &Starts,
    r: u16,
    x: u16,
    common: u64,
    seed: u64,
) -> usize
    requires { TupleAt (lists (λ x. x.now) variables values starts) r x × (seed < hash_bound) }
    ensures { result < places }
{
    let p = place_of(starts, r, x);
    let scope = p.scope;
    let scope_end = p.scope_end;
    let tuple = p.tuple;
    let tuple_end = p.tuple_end;
    hash_in(
        &variables[scope..scope_end],
        &values[tuple..tuple_end],
        common,
        seed,
    )
}

// The tuple before x that is entered at a place, if it has x's values under the variables of the set; x otherwise, which is entered if no
// tuple before it is.
fn alike_at(
    variables: &[u16],
    values: &[Value],
    starts: &Starts,
    table: &mut Table,
    r: u16,
    x: u16,
    common: u64,
    place: usize,
) -> u16
    requires { TupleAt (lists (λ x. x.now) variables values starts) r x × (length table.old ≡ places) × (place < places) }
    ensures { FirstAlike (lists entry variables values starts) common r x table.old result table.new }
{
    let y = table[place];
    if x <= y {
        table[place] = x;
        return x;
    }
    if !same_values(variables, values, starts, r, x, y, common) {
        return x;
    }
    y
}

// The same at a place, and if a tuple with other values is there, at the next one.
fn alike_by(
    variables: &[u16],
    values: &[Value],
    starts: &Starts,
    table: &mut Table,
    r: u16,
    x: u16,
    common: u64,
    place: usize,
) -> u16
    requires { TupleAt (lists (λ x. x.now) variables values starts) r x × (length table.old ≡ places) × (place < places) }
    ensures { FirstAlike (lists entry variables values starts) common r x table.old result table.new }
{
    let y = alike_at(variables, values, starts, table, r, x, common, place);
    if y < x {
        return y;
    }
    if table[place] == x {
        return x;
    }
    alike_at(
        variables,
        values,
        starts,
        table,
        r,
        x,
        common,
        (place + 1) % PLACES,
    )
}

// The same by the hash of x's values.
pub fn first_alike(
    variables: &[u16],
    values: &[Value],
    starts: &Starts,
    table: &mut Table,
    r: u16,
    x: u16,
    common: u64,
) -> u16
    requires { TupleAt (lists (λ x. x.now) variables values starts) r x × (length table.old ≡ places) }
    ensures { FirstAlike (lists entry variables values starts) common r x table.old result table.new }
{
    alike_from(variables, values, starts, table, r, x, common, 0)
}

// The same by a hash that begins with the seed.
pub fn alike_from(
    variables: &[u16],
    values: &[Value],
    starts: &Starts,
    table: &mut Table,
    r: u16,
    x: u16,
    common: u64,
    seed: u64,
) -> u16
    requires { TupleAt (lists (λ x. x.now) variables values starts) r x × (length table.old ≡ places) × (seed < hash_bound) }
    ensures { FirstAlike (lists entry variables values starts) common r x table.old result table.new }
{
    let place = tuple_hash(variables, values, starts, r, x, common, seed);
    alike_by(variables, values, starts, table, r, x, common, place)
}

// The same from nought on. Where the first entry has x's values, that is all.
pub fn alike_soon(
    variables: &[u16],
    values: &[Value],
    starts: &Starts,
    table: &mut Table,
    r: u16,
    x: u16,
    common: u64,
) -> u16
    requires { TupleAt (lists (λ x. x.now) variables values starts) r x × (length table.old ≡ places) }
    ensures { FirstAlike (lists entry variables values starts) common r x table.old result table.new }
{
    let place = tuple_hash(variables, values, starts, r, x, common, 0);
    let y = table[place];
    if y < x {
        if same_values(variables, values, starts, r, x, y, common) {
            return y;
        }
    }
    alike_by(variables, values, starts, table, r, x, common, place)
}
