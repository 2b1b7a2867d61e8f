// Twins in a visit of a pair: a tuple with the values of an earlier one of its relation, under all variables that the other members of the
// combination have, takes that one's first support with itself put in, or falls where that one fell. Where the other members fall apart
// into two sides, it takes one side's part from one earlier tuple and the other's from another.
#![tactic(auto)]

ghost use Rattle.std.specs.Prelude.{◌≡◌, true, ◌+◌, ◌*◌, ◌≤◌, ◌<◌, length};
ghost use Rattle.model.specs.Limits.{max_members, max_tuples, word_bits};
ghost use Rattle.layout.specs.Loan.{entry};
ghost use Rattle.layout.specs.Setting.{lists, setting};
ghost use Rattle.doubles.specs.Alike.{TupleAt};
ghost use Rattle.doubles.specs.Doubles.{Entered, places};
ghost use Rattle.twins.specs.Sides.{Sided};
ghost use Rattle.twins.specs.Twins.{Beside, AgreesWith, Noted, TwinAt, Twins, LiveTwins, FarTwin, LoadsSides, Outcome};

use doubles::{Table, alike_from, alike_soon};
use layout::{Starts, put, tuple_start, wide};
use live::{Words, is_live};
use model::{MAX_MEMBERS, Value};
use network::agreement::tuples_agree;
use sides::Sides;
use worklist::list::{Indices, load, store};

pub mod sides; // the sides of a combination without one member

// The first hash for the far side, so that it shares the table with the near one.
const FAR: u64 = 1073741824;

// What comes of a twin: its support is taken, or it fell and so does the tuple, or there is none.
#[derive(Clone, Copy)]
pub enum Twin {
    Taken,
    Fallen,
    None,
}

// ---- Its support

// Whether tuple x of pair p's member agrees with each of these tuples, one of each other member.
fn agrees_with(
    variables: &[u16],
    values: &[Value],
    starts: &Starts,
    members: &[u16],
    m: u16,
    p: u16,
    x: u16,
    tuples: Indices,
) -> bool
    requires { Beside (setting (λ x. x.now) variables values starts members m) p x tuples }
    ensures { result ≡ true → AgreesWith (setting entry variables values starts members m) p x tuples }
{
    let each = wide(m);
    let pair = wide(p);
    let base = pair / each * each;
    let place = pair % each;
    let r = members[pair];
    for j in 0..each {
        if j != place
            && !tuples_agree(
                variables,
                values,
                starts,
                r,
                x,
                members[base + j],
                tuples[j],
            )
        {
            return false;
        }
    }
    true
}

// The m numbers from `near` on, but at the places of the set those from `far` on; and noughts behind them. All places are gone through, as
// in `load`.
fn load_sides(numbers: &[u16], near: usize, far: usize, m: usize, places: u64) -> Indices
    requires { (near + m ≤ length numbers.now) × (far + m ≤ length numbers.now) × (m ≤ max_members) }
    ensures { LoadsSides numbers.now near far m places result }
{
    if places == 0 {
        return load(numbers, near, m);
    }
    let mut tuples = [0; MAX_MEMBERS];
    for (j, tuple) in tuples.iter_mut().enumerate() {
        if j < m {
            let start = if (places >> j) % 2 == 1 { far } else { near };
            *tuple = numbers[start + j];
        }
    }
    tuples
}

// ---- Taken

// The near tuples of y's first support and the far ones of z's, with x put in, become the numbers at `at`, if x agrees with them.
fn take(
    variables: &[u16],
    values: &[Value],
    starts: &Starts,
    members: &[u16],
    m: u16,
    words: &Words,
    numbers: &mut [u16],
    p: u16,
    x: u16,
    at: usize,
    sides: Sides,
    y: u16,
    z: u16,
) -> Twin
    requires twin_at { TwinAt (setting (λ x. x.now) variables values starts members m) words.now numbers.old p x at × Sided (setting (λ x. x.now) variables values starts members m) p sides }
    requires twins { Twins (setting (λ x. x.now) variables values starts members m) words.now p x sides y z × LiveTwins (setting (λ x. x.now) variables values starts members m) words.now p x y z }
    ensures { Outcome (setting entry variables values starts members m) p x words.now numbers.old result numbers.new }
{
    let each = wide(m);
    let near = at - wide(x - y) * each;
    let far = at - wide(x - z) * each;
    let tuples = load_sides(numbers, near, far, each, sides.places);
    if !agrees_with(variables, values, starts, members, m, p, x, tuples) {
        return Twin::None;
    }
    let own = put(tuples, wide(p) % each, x);
    store(numbers, at, each, own);
    Twin::Taken
}

// A live tuple before x with x's values under the variables of the far side; x if none is found.
fn far_twin(
    variables: &[u16],
    values: &[Value],
    starts: &Starts,
    words: &Words,
    sought: &mut Table,
    r: u16,
    first: u16,
    x: u16,
    far: u64,
) -> u16
    requires tuple_at { TupleAt (lists (λ x. x.now) variables values starts) r x × (length sought.old ≡ places) }
    requires x_bound { (first + x < max_tuples) × (first + x < word_bits * length words.now) }
    ensures { FarTwin (lists entry variables values starts) words.now far r first x sought.old result sought.new }
{
    let z = alike_from(variables, values, starts, sought, r, x, far, FAR);
    if x <= z {
        return x;
    }
    if !is_live(words, first + z) {
        return x;
    }
    z
}

// What comes of a twin of tuple x of pair p's member. If one is taken, the numbers at `at` are x's first support; if one fell, x has no
// support.
pub fn take_twin(
    variables: &[u16],
    values: &[Value],
    starts: &Starts,
    members: &[u16],
    m: u16,
    words: &Words,
    numbers: &mut [u16],
    sought: &mut Table,
    p: u16,
    x: u16,
    at: usize,
    sides: Sides,
) -> Twin
    requires twin_at { TwinAt (setting (λ x. x.now) variables values starts members m) words.now numbers.old p x at }
    requires noted { Noted (setting (λ x. x.now) variables values starts members m) words.now p x sought.old × Sided (setting (λ x. x.now) variables values starts members m) p sides }
    ensures outcome { Outcome (setting entry variables values starts members m) p x words.now numbers.old result numbers.new }
    ensures entered { Entered x sought.old sought.new }
{
    let r = members[wide(p)];
    let first = tuple_start(starts, r);
    let y = alike_soon(variables, values, starts, sought, r, x, sides.near);
    let z = if sides.places == 0 {
        y
    } else {
        far_twin(
            variables, values, starts, words, sought, r, first, x, sides.far,
        )
    };
    if x <= y || x <= z {
        return Twin::None;
    }
    if !is_live(words, first + y) {
        if sides.places == 0 {
            return Twin::Fallen;
        }
        return Twin::None;
    }
    take(
        variables, values, starts, members, m, words, numbers, p, x, at, sides, y, z,
    )
}
