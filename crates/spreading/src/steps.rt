// Which members are narrowed through which. Before a search: those that share no variable with the seeking tuple's relation, the nearest
// first. In a hard one: those that have many live tuples, through those that have few. Whatever the steps are, no support is lost.
ghost use Rattle.std.specs.Prelude.{◌<◌, length};
ghost use Rattle.model.specs.Limits.{max_relations};
ghost use Rattle.layout.specs.Starts.{SoundStarts};
ghost use Rattle.layout.specs.Setting.{lists, SoundLists};
ghost use Rattle.narrowing.specs.Narrows.{Long};
ghost use Rattle.spreading.specs.Spread.{Numbers, PairNumbers, Counted};

use super::factor::factor_for;
use layout::{Starts, tuple_start};
use live::{Words, count};
use model::Value;
use value_index::{HASHES, Index, scope_bits};

// The variables of the members at these places, a bit for each.
fn variables_at(index: &Index, members: &[u16], places: u64) -> u64
    requires { Numbers members.now }
{
    let mut bits = 0;
    for (j, r) in members.iter().enumerate() {
        if (places >> j) % 2 == 1 {
            bits |= scope_bits(index, *r);
        }
    }
    bits
}

// The places of the members that have one of these variables.
fn places_with(index: &Index, members: &[u16], bits: u64) -> u64
    requires { Numbers members.now }
{
    let mut places = 0;
    for (j, r) in members.iter().enumerate() {
        if scope_bits(index, *r) & bits != 0 {
            places |= 1u64 << j;
        }
    }
    places
}

// Before these steps, those that narrow member j through each of the places `from` behind it that shares a variable with it: a search chooses
// the members before j before it, and narrows it for them.
fn steps_to(index: &Index, members: &[u16], from: u64, j: usize, steps: u64) -> u64
    requires { Numbers members.now × (j < length members.now) }
{
    let bits = scope_bits(index, members[j]);
    let mut steps = steps;
    for i in j + 1..members.len() {
        if (from >> i) % 2 == 1 && scope_bits(index, members[i]) & bits != 0 {
            steps = steps % 1048576 * 16 + (4 * j + i) as u64;
        }
    }
    steps
}

// The same for each of the places `to`.
fn add_steps(index: &Index, members: &[u16], from: u64, to: u64, steps: u64) -> u64
    requires { Numbers members.now }
{
    let mut steps = steps;
    for j in 0..members.len() {
        if (to >> j) % 2 == 1 {
            steps = steps_to(index, members, from, j, steps);
        }
    }
    steps
}

// The steps for a search by a tuple of the member at `place`.
pub fn steps_for(index: &Index, members: &[u16], place: usize) -> u64
    requires { Numbers members.now × (place < length members.now) }
{
    let own = 1u64 << place;
    let near = own | places_with(index, members, variables_at(index, members, own));
    let middle = near | places_with(index, members, variables_at(index, members, near));
    let far = middle | places_with(index, members, variables_at(index, members, middle));
    let last = add_steps(index, members, middle & !own, far & !middle, 0);
    add_steps(index, members, near & !own, middle & !near, last)
}

// The steps for a search by a tuple of pair p's member.
pub fn steps_of_pair(index: &Index, members: &[u16], m: usize, p: usize) -> u64
    requires { PairNumbers members.now m p }
{
    let base = p / m * m;
    let end = base + m;
    steps_for(index, &members[base..end], p % m)
}

// Once the searches of a visit have tried so many choices, the first of the other members is narrowed through two more at once.
const CHOICES: u16 = 2048;

// The steps, with such a step behind them and its factor, once so many choices were tried.
pub fn steps_once_hard(
    variables: &[u16],
    values: &[Value],
    starts: &Starts,
    index: &Index,
    words: &Words,
    members: &[u16],
    place: usize,
    tried: u16,
    steps: u64,
) -> u64
    requires { Long words.now × (SoundLists (lists (λ x. x.now) variables values starts) × (Numbers members.now × (place < length members.now))) }
{
    if tried < CHOICES || HASHES <= steps {
        return steps;
    }
    let step = if place == 0 { 4 } else { place as u64 };
    let factor = factor_for(variables, values, starts, index, words, members, place);
    steps % 16777216 + 16777216 * (step % 16) + HASHES * (factor % 65536)
}

// How many live tuples relation r has.
pub fn live_count(starts: &Starts, words: &Words, r: u16) -> u16
    requires { Long words.now × (SoundStarts starts.now × (r < max_relations)) }
{
    count(words, tuple_start(starts, r), tuple_start(starts, r + 1))
}

// Whether relation r has not half as many live tuples as relation s, with which it shares a variable, or as are walked over.
fn is_narrower(index: &Index, starts: &Starts, words: &Words, r: u16, s: u16, walked: u16) -> bool
    requires { Long words.now × (SoundStarts starts.now × ((r < max_relations) × (s < max_relations))) }
{
    if scope_bits(index, r) & scope_bits(index, s) == 0 {
        return false;
    }
    let n = live_count(starts, words, r);
    n < walked / 2 || n < live_count(starts, words, s) / 2
}

// Before these steps, those that narrow member j through each other one from `from` on, but the one at `place`, that is narrower than it, or
// than the one whose live tuples are walked over.
fn steps_through(
    index: &Index,
    starts: &Starts,
    words: &Words,
    members: &[u16],
    place: usize,
    from: usize,
    j: usize,
    walked: u16,
    steps: u64,
) -> u64
    requires { Counted starts.now words.now members.now × (j < length members.now) }
{
    let mut steps = steps;
    for i in from..members.len() {
        if i != place
            && i != j
            && is_narrower(index, starts, words, members[i], members[j], walked)
        {
            steps = steps % 1048576 * 16 + (4 * j + i) as u64;
        }
    }
    steps
}

// The steps for a hard search at the turn of the member at `from`, whose seeking tuple is one of the member at `place`.
pub fn steps_between(
    index: &Index,
    starts: &Starts,
    words: &Words,
    members: &[u16],
    place: usize,
    from: usize,
) -> u64
    requires { Counted starts.now words.now members.now × (from < length members.now) }
{
    let walked = live_count(starts, words, members[from]);
    let mut steps = 0;
    for j in from..members.len() {
        if j != place {
            steps = steps_through(index, starts, words, members, place, from, j, walked, steps);
        }
    }
    steps
}
