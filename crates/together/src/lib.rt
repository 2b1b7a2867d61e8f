// The first supports of many tuples of one member, sought together: the choices of the other members are gone through in their order, with the
// tuples that still seek narrowed along, and whoever is left when the last member is reached takes the support.
#![tactic(auto)]

ghost use Rattle.std.specs.Prelude.{◌≡◌, true, ℕ, ◌<◌, length};
ghost use Rattle.model.specs.LiveWords.{is_live};
ghost use Rattle.layout.specs.Loan.{entry};
ghost use Rattle.narrowing.specs.Narrows.{Long};
ghost use Rattle.support.specs.Search.{place_behind};
ghost use Rattle.together.specs.Together.{joint, tuple_at, Room, BesideAt, AgreesBefore, SoundJoint, SeekAt, LastAt, TakesOne, ChooseAt, Chooses, Seeks, SeeksWith, Together};

use layout::{Starts, put, tuple_start, wide};
use live::ids::live_ids;
use live::{Words, clear, is_live};
use model::{MAX_MEMBERS, Value};
use narrowing::{keep, narrow_member, narrow_members};
use network::agreement::tuples_agree;
use support::{Indices, first_fitting, place_behind};
use value_index::Index;
use worklist::list::store;

// Whether tuple x of the member at i agrees with the tuples chosen for the members before k, but for the one at `place`.
fn agrees_before(
    variables: &[u16],
    values: &[Value],
    starts: &Starts,
    members: &[u16],
    place: usize,
    k: usize,
    chosen: Indices,
    i: usize,
    x: u16,
) -> bool
    requires { BesideAt (joint (λ x. x.now) variables values starts members place) k chosen i x }
    ensures { AgreesBefore (joint entry variables values starts members place) k chosen i x result }
{
    let r = members[i];
    for j in 0..k {
        if j != place && !tuples_agree(variables, values, starts, members[j], chosen[j], r, x) {
            return false;
        }
    }
    true
}

// Tuple x of the member at `place`, if it still seeks, takes the first support that has the tuples chosen for the members before k, where k is
// the last: the first live tuple of member k that agrees with it and with all chosen.
fn take_one(
    variables: &[u16],
    values: &[Value],
    starts: &Starts,
    index: &Index,
    words: &Words,
    members: &[u16],
    place: usize,
    k: usize,
    chosen: Indices,
    x: u16,
    pending: &mut Words,
    numbers: &mut [u16],
    start: usize,
)
    requires long { (Long words.now × Long pending.old) × LastAt (joint (λ x. x.now) variables values starts members place) index.now k chosen x }
    requires room { Room (joint (λ x. x.now) variables values starts members place) start (length numbers.old) × (is_live words.now (tuple_at (joint (λ x. x.now) variables values starts members place) place x) ≡ true) }
    ensures { TakesOne (joint entry variables values starts members place) start k chosen words.now x pending.old pending.new numbers.old numbers.new }
{
    let id = tuple_start(starts, members[place]) + x;
    if !is_live(pending, id) {
        return;
    }
    let r = members[k];
    let first = tuple_start(starts, r);
    let own = put(chosen, place, x);
    let g = first_fitting(
        variables, values, starts, index, words, members, place, x, k, own, first, place, x,
    );
    if g < tuple_start(starts, r + 1) {
        if agrees_before(
            variables, values, starts, members, place, k, chosen, place, x,
        ) {
            let m = members.len();
            store(numbers, start + wide(x) * m, m, put(own, k, g - first));
            clear(pending, id);
        }
    }
}

// What `seek` is called for, where member k is the last.
fn take_last(
    variables: &[u16],
    values: &[Value],
    starts: &Starts,
    index: &Index,
    words: &Words,
    members: &[u16],
    place: usize,
    k: usize,
    chosen: Indices,
    pending: &mut Words,
    numbers: &mut [u16],
    start: usize,
    steps: u32,
) -> u32
    requires long { (Long words.now × Long pending.old) × SeekAt (joint (λ x. x.now) variables values starts members place) index.now k chosen }
    requires room { Room (joint (λ x. x.now) variables values starts members place) start (length numbers.old) × (place_behind place k ≡ length members.now) }
    ensures { Seeks (joint entry variables values starts members place) start k chosen words.now pending.old pending.new numbers.old numbers.new result }
{
    let r = members[place];
    let first = tuple_start(starts, r);
    let end = tuple_start(starts, r + 1);
    let mut left = steps;
    for g in live_ids(words, first, end) {
        if left == 0 {
            return 0;
        }
        take_one(
            variables,
            values,
            starts,
            index,
            words,
            members,
            place,
            k,
            chosen,
            g - first,
            pending,
            numbers,
            start,
        );
        left -= 1;
    }
    left
}

// The words narrowed for tuple y of member k: of the member at `place` to the tuples that still seek and may agree with y, of the members
// behind k to those that may. False where no tuple that seeks has a support with y and those chosen.
fn choose(
    variables: &[u16],
    values: &[Value],
    starts: &Starts,
    index: &Index,
    words: &mut Words,
    members: &[u16],
    place: usize,
    k: usize,
    chosen: Indices,
    y: u16,
    pending: &Words,
) -> bool
    requires { (Long words.old × Long pending.now) × ChooseAt (joint (λ x. x.now) variables values starts members place) index.now k chosen y }
    ensures { Chooses (joint entry variables values starts members place) k chosen y pending.now words.old words.new result }
{
    if !agrees_before(variables, values, starts, members, place, k, chosen, k, y) {
        return false;
    }
    let r = members[k];
    let s = members[place];
    let first = tuple_start(starts, s);
    let end = tuple_start(starts, s + 1);
    keep(pending, words, 0, first, end);
    if !narrow_member(variables, values, starts, index, words, r, y, s) {
        return false;
    }
    let on = place_behind(place, k);
    narrow_members(
        variables, values, starts, index, words, members, place, on, r, y,
    )
}

// What `seek` is called for, with tuple y of member k, which is not the last.
#[cycle(seek_seek_with)]
fn seek_with(
    variables: &[u16],
    values: &[Value],
    starts: &Starts,
    index: &Index,
    words: &Words,
    members: &[u16],
    place: usize,
    k: usize,
    chosen: Indices,
    y: u16,
    pending: &mut Words,
    numbers: &mut [u16],
    start: usize,
    steps: u32,
) -> u32
    requires long { (Long words.now × Long pending.old) × ChooseAt (joint (λ x. x.now) variables values starts members place) index.now k chosen y }
    requires room { Room (joint (λ x. x.now) variables values starts members place) start (length numbers.old) × (place_behind place k < length members.now) }
    ensures { SeeksWith (joint entry variables values starts members place) start k chosen y words.now pending.old pending.new numbers.old numbers.new result }
{
    let mut fewer = *words;
    if !choose(
        variables, values, starts, index, &mut fewer, members, place, k, chosen, y, pending,
    ) {
        return steps;
    }
    let on = place_behind(place, k);
    seek(
        variables,
        values,
        starts,
        index,
        &fewer,
        members,
        place,
        on,
        put(chosen, k, y),
        pending,
        numbers,
        start,
        steps,
    )
}

// Each tuple of the member at `place` that is live and still seeks takes the first support that has the tuples chosen for the members before k,
// and seeks no more. The answer is how many steps are left; 0 where they ran out, and then some may still have one.
#[cycle(seek_seek_with)]
fn seek(
    variables: &[u16],
    values: &[Value],
    starts: &Starts,
    index: &Index,
    words: &Words,
    members: &[u16],
    place: usize,
    k: usize,
    chosen: Indices,
    pending: &mut Words,
    numbers: &mut [u16],
    start: usize,
    steps: u32,
) -> u32
    requires long { (Long words.now × Long pending.old) × SeekAt (joint (λ x. x.now) variables values starts members place) index.now k chosen }
    requires room { Room (joint (λ x. x.now) variables values starts members place) start (length numbers.old) }
    ensures { Seeks (joint entry variables values starts members place) start k chosen words.now pending.old pending.new numbers.old numbers.new result }
{
    if place_behind(place, k) == members.len() {
        return take_last(
            variables, values, starts, index, words, members, place, k, chosen, pending, numbers,
            start, steps,
        );
    }
    let r = members[k];
    let first = tuple_start(starts, r);
    let end = tuple_start(starts, r + 1);
    let mut left = steps;
    for g in live_ids(words, first, end) {
        if left == 0 {
            return 0;
        }
        left = seek_with(
            variables,
            values,
            starts,
            index,
            words,
            members,
            place,
            k,
            chosen,
            g - first,
            pending,
            numbers,
            start,
            left - 1,
        );
    }
    left
}

// The first place but this one.
fn first_but(place: usize) -> usize
    ensures { (result < 2) × ((result ≡ place → ⊥) × ((j : ℕ) → j < result → j ≡ place)) }
{
    if place == 0 {
        return 1;
    }
    0
}

// Each tuple of the member at `place` that is live and still seeks takes its first support, if it has one, and seeks no more. Its indices are
// the numbers of that tuple; those of tuple 0 begin at `start`. The answer is how many of the steps are left; 0 where they ran out, and then
// some may still have one.
pub fn seek_together(
    variables: &[u16],
    values: &[Value],
    starts: &Starts,
    index: &Index,
    words: &Words,
    members: &[u16],
    place: usize,
    pending: &mut Words,
    numbers: &mut [u16],
    start: usize,
    steps: u32,
) -> u32
    requires long { (Long words.now × Long pending.old) × SoundJoint (joint (λ x. x.now) variables values starts members place) index.now }
    requires room { Room (joint (λ x. x.now) variables values starts members place) start (length numbers.old) × (1 < length members.now) }
    ensures { Together (joint entry variables values starts members place) start words.now pending.old pending.new numbers.old numbers.new result }
{
    let chosen = [0u16; MAX_MEMBERS];
    let k = first_but(place);
    seek(
        variables, values, starts, index, words, members, place, k, chosen, pending, numbers,
        start, steps,
    )
}
