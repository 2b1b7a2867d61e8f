// Refutation: that a tuple has no support at all may be seen much sooner than by a search for the first one, which takes the members in their
// order. Here the member with the fewest candidates is taken first.
#![tactic(auto)]

ghost use Rattle.std.specs.Prelude.{◌≡◌, true, false, ◌≤◌, ◌<◌, length, MatchOption, ⊤};
ghost use Rattle.model.specs.Limits.{max_relations};
ghost use Rattle.model.specs.Network.{size};
ghost use Rattle.model.specs.LiveWords.{is_set};
ghost use Rattle.layout.specs.Loan.{entry};
ghost use Rattle.layout.specs.Setting.{lists, network_in};
ghost use Rattle.narrowing.specs.Narrows.{Long, Seeks};
ghost use Rattle.spreading.specs.Spread.{Counted};
ghost use Rattle.refuting.specs.Refuted.{Without, Left, OthersLeft, NarrowsLeft, Unmet, Refuted, RefutedWith, Shows, Alone, Refutable, Taken};

use layout::{Starts, tuple_start};
use live::Words;
use live::ids::live_ids;
use model::Value;
use narrowing::narrow_member;
use narrowing::rows::{TUPLE_ROWS, next_in_rows, rows_for};
use network::agreement::tuples_agree;
use spreading::steps::live_count;
use value_index::Index;

// What one candidate costs at most: itself, and a copy of the words.
const COST: u32 = 4;

// The steps for each choice that a search has tried.
const STEPS: u32 = 32;

// Whether place j is in the set.
fn is_in(left: u64, j: usize) -> bool
    requires { j < 64 }
    ensures { result ≡ is_set left j }
{
    (left >> j) % 2 == 1
}

// The set without place j.
fn without(left: u64, j: usize) -> u64
    requires { j < 64 }
    ensures { Without left j result }
{
    left & !(1u64 << j)
}

// Of the members' places in the set, one whose member has the fewest live tuples.
fn fewest(starts: &Starts, words: &Words, members: &[u16], left: u64) -> Option<usize>
    requires { Counted starts.now words.now members.now }
    ensures { MatchOption result ⊤ (λ j. Left members.now left j) }
{
    let mut best = None;
    let mut least = u16::MAX;
    for j in 0..members.len() {
        if is_in(left, j) {
            let n = live_count(starts, words, members[j]);
            if n < least {
                best = Some(j);
                least = n;
            }
        }
    }
    best
}

// Whether some live tuple of relation s may agree with tuple x of relation r, and agrees with tuple y of relation q.
fn meets(
    variables: &[u16],
    values: &[Value],
    starts: &Starts,
    index: &Index,
    words: &Words,
    r: u16,
    x: u16,
    s: u16,
    q: u16,
    y: u16,
) -> bool
    requires long { Long words.now × (Seeks (lists (λ x. x.now) variables values starts) index.now r x × (s < max_relations)) }
    requires y_bound { y < size (network_in (lists (λ x. x.now) variables values starts)) q }
    ensures { result ≡ false → Unmet (network_in (lists entry variables values starts)) r x s q y words.now }
{
    let first = tuple_start(starts, s);
    let end = tuple_start(starts, s + 1);
    let mut rows = [0u16; TUPLE_ROWS];
    let n = rows_for(variables, values, starts, index, r, x, s, &mut rows);
    let mut g = next_in_rows(index, &rows, n, words, first, end);
    // stays a while: the loop goes over the live ids that are in rows of the index too
    while g < end {
        if tuples_agree(variables, values, starts, q, y, s, g - first) {
            return true;
        }
        g = next_in_rows(index, &rows, n, words, g + 1, end);
    }
    false
}

// The members at the places of the set narrowed for tuple x of relation r, which is none of them. False where one of them has no live tuple
// left.
fn narrow_left(
    variables: &[u16],
    values: &[Value],
    starts: &Starts,
    index: &Index,
    words: &mut Words,
    members: &[u16],
    left: u64,
    r: u16,
    x: u16,
) -> bool
    requires { Long words.old × (Seeks (lists (λ x. x.now) variables values starts) index.now r x × (OthersLeft members.now left r × (length members.now ≤ 64))) }
    ensures { NarrowsLeft (lists entry variables values starts) members.now left r x words.old words.new result }
{
    for j in 0..members.len() {
        if is_in(left, j) {
            if !narrow_member(variables, values, starts, index, words, r, x, members[j]) {
                return false;
            }
        }
    }
    true
}

// Whether nothing completes the members left, with tuple x of the member at i. Of so many steps, how many are left if that is shown; 0 if it is
// not, or if they do not suffice.
#[cycle(refuted_refuted_with)]
fn refuted_with(
    variables: &[u16],
    values: &[Value],
    starts: &Starts,
    index: &Index,
    words: &Words,
    members: &[u16],
    place: usize,
    own: u16,
    left: u64,
    i: usize,
    x: u16,
    steps: u32,
) -> u32
    requires long { Long words.now × Refutable (lists (λ x. x.now) variables values starts) index.now members.now place own }
    requires taken { Taken (network_in (lists (λ x. x.now) variables values starts)) members.now place left i x }
    ensures { Shows (RefutedWith (network_in (lists entry variables values starts)) members.now place own words.now left i x) steps result }
{
    if steps <= COST {
        return 0;
    }
    let r = members[i];
    let q = members[place];
    if !tuples_agree(variables, values, starts, q, own, r, x) {
        return steps - 1;
    }
    let last = u64::trailing_zeros(left) as usize;
    if members.len() <= last {
        return 0;
    }
    if left >> last == 1 {
        if meets(
            variables,
            values,
            starts,
            index,
            words,
            r,
            x,
            members[last],
            q,
            own,
        ) {
            return 0;
        }
        return steps - 1;
    }
    let mut fewer = *words;
    if !narrow_left(
        variables, values, starts, index, &mut fewer, members, left, r, x,
    ) {
        return steps - COST;
    }
    refuted(
        variables,
        values,
        starts,
        index,
        &fewer,
        members,
        place,
        own,
        left,
        steps - COST,
    )
}

// Whether nothing completes the members left. Of so many steps, how many are left if that is shown; 0 if it is not, or if they do not suffice.
#[cycle(refuted_refuted_with)]
fn refuted(
    variables: &[u16],
    values: &[Value],
    starts: &Starts,
    index: &Index,
    words: &Words,
    members: &[u16],
    place: usize,
    own: u16,
    left: u64,
    steps: u32,
) -> u32
    requires long { Long words.now × Refutable (lists (λ x. x.now) variables values starts) index.now members.now place own }
    requires place_value { is_set left place ≡ false }
    ensures { Shows (Refuted (network_in (lists entry variables values starts)) members.now place own words.now left) steps result }
{
    let Some(best) = fewest(starts, words, members, left) else {
        return 0;
    };
    let rest = without(left, best);
    let first = tuple_start(starts, members[best]);
    let end = tuple_start(starts, members[best] + 1);
    let mut over = steps;
    for g in live_ids(words, first, end) {
        over = refuted_with(
            variables,
            values,
            starts,
            index,
            words,
            members,
            place,
            own,
            rest,
            best,
            g - first,
            over,
        );
        if over == 0 {
            return 0;
        }
    }
    over
}

// Whether the seeking tuple, `own` of the member at `place`, has no support: nothing completes the members from k on. False also where that is
// not shown in a few steps for each choice that the search has tried.
pub fn hopeless(
    variables: &[u16],
    values: &[Value],
    starts: &Starts,
    index: &Index,
    words: &Words,
    members: &[u16],
    place: usize,
    own: u16,
    k: usize,
    tried: u16,
) -> bool
    requires long { Long words.now × Refutable (lists (λ x. x.now) variables values starts) index.now members.now place own }
    requires k_in_bounds { k < length members.now }
    ensures { result ≡ true → Alone (network_in (lists entry variables values starts)) members.now place own words.now }
{
    let left = without((!0u64 << k) & !(!0u64 << members.len()), place);
    refuted(
        variables,
        values,
        starts,
        index,
        words,
        members,
        place,
        own,
        left,
        STEPS * tried as u32,
    ) != 0
}
