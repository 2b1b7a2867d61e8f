// The factor by which the values that members of a combination share fall into the most classes, of some that are tried. Whatever it is, no support
// is lost.
ghost use Rattle.std.specs.Prelude.{◌≡◌, ◌≤◌, ◌<◌, length};
ghost use Rattle.model.specs.Limits.{max_relations};
ghost use Rattle.layout.specs.Setting.{lists, SoundLists};
ghost use Rattle.narrowing.specs.Narrows.{Long};
ghost use Rattle.narrowing.specs.Sieve.{ColumnIn};
ghost use Rattle.spreading.specs.Spread.{Numbers};

use bridging::class_at;
use layout::{Starts, tuple_start, variable_start};
use live::{Words, count, next, set};
use model::Value;
use narrowing::sieve::is_in;
use value_index::{Index, scope_bits};

// So many factors are tried, on at most so many tuples of each relation.
const FACTORS: u64 = 16;

const SAMPLE: u16 = 128;

// So far behind g, but not past the end.
fn later(g: u16, step: u16, end: u16) -> u16
    requires { (g < end) × (0 < step) }
    ensures { (g < result) × (result ≤ end) }
{
    if end - g <= step {
        return end;
    }
    g + step
}

// How many classes the values in the column fall into, of some of relation s's live tuples.
fn classes_in(
    variables: &[u16],
    values: &[Value],
    starts: &Starts,
    words: &Words,
    s: u16,
    column: u16,
    factor: u64,
) -> u16
    requires { Long words.now × ColumnIn (lists (λ x. x.now) variables values starts) s column }
{
    let first = tuple_start(starts, s);
    let end = tuple_start(starts, s + 1);
    let step = 1 + (end - first) / SAMPLE;
    let mut seen = [0u64; 5];
    let mut g = next(words, first, end);
    // stays a while: a turn goes several ids on
    while g < end {
        set(
            &mut seen,
            class_at(variables, values, starts, s, g - first, column, factor) as u16,
        );
        g = next(words, later(g, step, end), end);
    }
    count(&seen, 0, 256)
}

// The same of all columns of relation s that have a variable of the set.
fn classes_of(
    variables: &[u16],
    values: &[Value],
    starts: &Starts,
    words: &Words,
    s: u16,
    shared: u64,
    factor: u64,
) -> u64
    requires { Long words.now × (SoundLists (lists (λ x. x.now) variables values starts) × (s < max_relations)) }
    ensures { result ≤ 524288 }
{
    let a = variable_start(starts, s);
    let a_end = variable_start(starts, s + 1);
    let mut n = 0;
    for (column, v) in variables[a..a_end].iter().enumerate() {
        if is_in(shared, *v) {
            n += u64::from(classes_in(variables, values, starts, words, s, column as u16, factor));
        }
    }
    n
}

// The variables that other members have, but the ones at these two places.
fn shared_beside(index: &Index, members: &[u16], place: usize, j: usize) -> u64
    requires { Numbers members.now }
{
    let mut bits = 0;
    for (i, r) in members.iter().enumerate() {
        if i != place && i != j {
            bits |= scope_bits(index, *r);
        }
    }
    bits
}

// The same of all members but the one at `place`, and of the variables that they share with another.
fn classes_by(
    variables: &[u16],
    values: &[Value],
    starts: &Starts,
    index: &Index,
    words: &Words,
    members: &[u16],
    place: usize,
    factor: u64,
) -> u64
    requires { Long words.now × (SoundLists (lists (λ x. x.now) variables values starts) × Numbers members.now) }
{
    let mut n = 0;
    for (j, s) in members.iter().enumerate() {
        if j != place {
            let shared = shared_beside(index, members, place, j);
            n += classes_of(variables, values, starts, words, *s, shared, factor);
        }
    }
    n
}

// The factor for a search by tuples of the member at `place`.
pub fn factor_for(
    variables: &[u16],
    values: &[Value],
    starts: &Starts,
    index: &Index,
    words: &Words,
    members: &[u16],
    place: usize,
) -> u64
    requires { Long words.now × (SoundLists (lists (λ x. x.now) variables values starts) × Numbers members.now) }
{
    let mut best: u64 = 1;
    let mut most: u64 = 0;
    let mut factor: u64 = 1;
    for _ in 0..FACTORS {
        let n = classes_by(
            variables, values, starts, index, words, members, place, factor,
        );
        if most < n {
            most = n;
            best = factor;
        }
        factor = (factor % 65536 * 40503 + 2) % 65536;
    }
    best
}
