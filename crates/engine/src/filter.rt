// Visits until no pair waits: what lives then is the largest consistent set.
ghost use Rattle.layout.specs.Loan.{entry};
ghost use Rattle.layout.specs.Setting.{setting, Sound};
ghost use Rattle.value_index.specs.Index.{Full};
ghost use Rattle.live.specs.Words.{WordArray};
ghost use Rattle.engine.specs.Work.{Room, Prepared, SoundShort, Filters};

use super::blank::blank_all;
use super::visit::visit;
use layout::{Starts, tuple_count, wide};
use live::{Words, copied, put_back, words_for};
use model::Value;
use sweeping::sweeps;
use value_index::{INDEX, Index, index_all};
use worklist::list::{PairStarts, fill, pair_starts};
use worklist::queue::Queue;

// What is prepared once for a network and its combinations, whatever lives: the value index, written over noughts, and where each
// pair's numbers begin.
pub fn prepare(
    variables: &[u16],
    values: &[Value],
    starts: &Starts,
    members: &[u16],
    m: u16,
    index: &mut Index,
) -> PairStarts
    requires { Full index.old × SoundShort (setting (λ x. x.now) variables values starts members m) }
    ensures { Prepared (setting entry variables values starts members m) index.new result }
{
    index_all(variables, values, starts, index);
    pair_starts(starts, members, m)
}

// What `filter` does, on what is prepared and in an array of 64 words.
pub fn settle(
    variables: &[u16],
    values: &[Value],
    starts: &Starts,
    members: &[u16],
    m: u16,
    index: &Index,
    pair_starts: &PairStarts,
    words: &mut Words,
    numbers: &mut [u16],
)
    requires word_array { WordArray words.old × Prepared (setting (λ x. x.now) variables values starts members m) index.now pair_starts.now }
    requires room { Room (setting (λ x. x.now) variables values starts members m) words.old numbers.old }
    ensures { Filters (setting entry variables values starts members m) words.old words.new numbers.old numbers.new }
{
    fill(numbers, wide(pair_starts[members.len()]));
    let mut waiting = Queue::full(members.len() as u16);
    loop {
        let taken = waiting.take();
        let pair = taken.pair;
        if wide(pair) >= members.len() {
            break;
        }
        let rest = taken.rest;
        waiting = visit(
            rest,
            variables,
            values,
            starts,
            index,
            members,
            m,
            pair_starts,
            words,
            numbers,
            pair,
        );
    }
    blank_all(starts, members, m, pair_starts, words, numbers);
}

// The live tuples are the largest consistent set of those that lived, and the support list holds their first supports; every
// other bit and number stays.
pub fn filter(
    variables: &[u16],
    values: &[Value],
    starts: &Starts,
    members: &[u16],
    m: u16,
    words: &mut [u64],
    numbers: &mut [u16],
)
    requires { Sound (setting (λ x. x.now) variables values starts members m) × Room (setting (λ x. x.now) variables values starts members m) words.old numbers.old }
    ensures { Filters (setting entry variables values starts members m) words.old words.new numbers.old numbers.new }
{
    let mut index = [0u64; INDEX];
    let begins = prepare(variables, values, starts, members, m, &mut index);
    let count = words_for(tuple_count(starts));
    let mut live = copied(words, count);
    sweeps(variables, values, starts, members, m, &index, &mut live);
    settle(
        variables, values, starts, members, m, &index, &begins, &mut live, numbers,
    );
    put_back(&live, words, count);
}
