// A network's lists as they are lent: where each relation begins in them, and where its scope and its tuples lie.
#![tactic(auto)]

ghost use Rattle.std.specs.Prelude.{◌≡◌, ◌<◌, set};
ghost use Rattle.model.specs.Limits.{max_relations};
ghost use Rattle.model.specs.Network.{total, relation_of};
ghost use Rattle.model.specs.Agreement.{is_any, fit};
ghost use Rattle.layout.specs.Shape.{relations_of};
ghost use Rattle.layout.specs.Starts.{table, entry_bound, variable_start, tuple_start, value_start, relation_count, starts_of, outline, Bounded, SoundStarts};
ghost use Rattle.layout.specs.Places.{place_at};
ghost use Rattle.layout.specs.Columns.{column_of};

use model::{ANY_VALUE, MAX_MEMBERS, MAX_RELATIONS, Value};

// The relation records taken apart: how many there are, and of the first 64 the widths and the tuple counts.
#[derive(Clone, Copy)]
pub struct Shape {
    pub count: usize,
    pub widths: [u16; 64],
    pub tuples: [u16; 64],
}

// The entries of a table: one for each relation, and the end.
pub const TABLE: usize = 65;

// Three tables end to end, where each relation's variables, tuples and values begin, and behind them how many relations there are.
pub const STARTS: usize = 3 * TABLE + 1;

pub type Starts = [u16; STARTS];

// One number for each member of a combination.
pub type Members = [u16; MAX_MEMBERS];

// Where a relation's scope lies in the variable list, and one of its tuples in the value list.
#[derive(Clone, Copy)]
pub struct Place {
    pub scope: usize,
    pub scope_end: usize,
    pub tuple: usize,
    pub tuple_end: usize,
}

// A 16-bit entry as an index.
pub fn wide(x: u16) -> usize
    ensures { (result ≡ x) × (result < entry_bound) }
{
    x as usize
}

// The numbers with x at place k. No element is written by itself: what is read whole just after would wait for it.
pub fn put(numbers: Members, k: usize, x: u16) -> Members
    ensures { result ≡ set numbers k x }
{
    let mut t = numbers;
    for (j, place) in t.iter_mut().enumerate() {
        if j == k {
            *place = x;
        }
    }
    t
}

// Whether the value stands for every value.
#[tactic(auto, unfolding(model::specs::Agreement::is_any))]
pub fn is_any(value: Value) -> bool
    ensures { result ≡ is_any value }
{
    value == ANY_VALUE
}

// Whether two values fit.
#[tactic(auto, unfolding(model::specs::Agreement::fit))]
pub fn fit(a: Value, b: Value) -> bool
    ensures { result ≡ fit a b }
{
    (a == b) | (is_any(a) | is_any(b))
}

// Where relation r's variables begin; those of the one before it end there.
pub fn variable_start(starts: &Starts, r: u16) -> usize
    requires { r < table }
    ensures { (result ≡ variable_start starts.now r) × (result < entry_bound) }
{
    wide(starts[wide(r)])
}

// The id of relation r's first tuple; the tuples of the one before it end there.
pub fn tuple_start(starts: &Starts, r: u16) -> u16
    requires { r < table }
    ensures { result ≡ tuple_start starts.now r }
{
    starts[TABLE + wide(r)]
}

// Where relation r's values begin; those of the one before it end there.
pub fn value_start(starts: &Starts, r: u16) -> usize
    requires { r < table }
    ensures { (result ≡ value_start starts.now r) × (result < entry_bound) }
{
    wide(starts[2 * TABLE + wide(r)])
}

// How many relations there are.
pub fn relation_count(starts: &Starts) -> u16
    ensures { result ≡ relation_count starts.now }
{
    starts[3 * TABLE]
}

// How many tuples there are.
pub fn tuple_count(starts: &Starts) -> u16
    ensures { result ≡ tuple_start starts.now max_relations }
{
    starts[TABLE + MAX_RELATIONS]
}

// Where each relation begins in each list.
pub fn starts_of(shape: Shape) -> Starts
    requires { Bounded (relations_of shape) }
    ensures { result ≡ starts_of (relations_of shape) }
{
    let mut starts = [0; STARTS];
    let mut variable: u16 = 0;
    let mut tuple: u16 = 0;
    let mut value: u16 = 0;
    for r in 0..TABLE {
        starts[r] = variable;
        starts[TABLE + r] = tuple;
        starts[2 * TABLE + r] = value;
        if r < shape.count {
            let width = shape.widths[r];
            let size = shape.tuples[r];
            variable += width;
            tuple += size;
            value += width * size;
        }
    }
    starts[3 * TABLE] = shape.count as u16;
    starts
}

// The relation of the tuple with id g.
pub fn relation_of(starts: &Starts, g: u16) -> u16
    requires { SoundStarts starts.now × (g < total (outline starts.now)) }
    ensures { result ≡ relation_of (outline starts.now) g }
{
    let mut r: u16 = 0;
    // stays a while: a range would need an end that is never met
    while tuple_start(starts, r + 1) <= g {
        r += 1;
    }
    r
}

// Where the scope of relation r and the values of its tuple x lie.
pub fn place_of(starts: &Starts, r: u16, x: u16) -> Place
    requires { SoundStarts starts.now × (r < max_relations) }
    ensures { result ≡ place_at starts.now r x }
{
    let scope = variable_start(starts, r);
    let scope_end = variable_start(starts, r + 1);
    let width = scope_end - scope;
    let tuple = value_start(starts, r) + wide(x) * width;
    Place {
        scope,
        scope_end,
        tuple,
        tuple_end: tuple + width,
    }
}

// The first column of variable x in a scope; the width if it has none.
pub fn column_of(scope: &[u16], x: u16) -> usize
    ensures { result ≡ column_of x scope.now }
{
    scope.iter().position(|y| *y == x).unwrap_or(scope.len())
}
