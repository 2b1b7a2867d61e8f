// Members of a combination narrowed through fresh tuples: every support has one, so a tuple stays only if it is fresh or may agree with a
// fresh one of another member.
ghost use Rattle.std.specs.Prelude.{◌≡◌, true, ◌<◌, length};
ghost use Rattle.model.specs.Limits.{max_tuples};
ghost use Rattle.layout.specs.Loan.{entry};
ghost use Rattle.layout.specs.Setting.{lists, network_in};
ghost use Rattle.narrowing.specs.Narrows.{Long, Seeks, Searchable};
ghost use Rattle.narrowing.specs.Gathers.{Joins, Gathers};
ghost use Rattle.spreading.specs.Spread.{Two, Counted, Spreadable, SpreadsMembers};
ghost use Rattle.spreading.specs.Fresh.{GathersFrom, GathersOthers, Meets};

use super::steps::live_count;
use layout::{Starts, tuple_start};
use live::ids::live_ids;
use live::{WORDS, Words, next};
use model::{MAX_TUPLES, Value};
use narrowing::{keep, narrow_members};
use value_index::Index;

// Whatever is live in the words is live in `sum` too.
fn join(words: &Words, sum: &mut Words)
    requires { Long words.now × Long sum.old }
    ensures { Joins (λ _. true) 0 max_tuples words.now sum.old sum.new }
{
    for (i, word) in words.iter().enumerate() {
        sum[i] |= *word;
    }
}

// The live tuples of relation s that may agree with tuple x of relation r, another one, are live in `sum` too. Tuples of other relations may be.
fn gather_near(
    variables: &[u16],
    values: &[Value],
    starts: &Starts,
    index: &Index,
    words: &Words,
    sum: &mut Words,
    r: u16,
    x: u16,
    s: u16,
)
    requires long { Long words.now × Long sum.old }
    requires seeks { Seeks (lists (λ x. x.now) variables values starts) index.now r x × (Two r s × (s ≡ r → ⊥)) }
    ensures { Long sum.new × Gathers (network_in (lists entry variables values starts)) r x s words.now sum.old sum.new }
{
    let only = [s];
    let mut near = *words;
    narrow_members(
        variables, values, starts, index, &mut near, &only, 1, 0, r, x,
    );
    join(&near, sum);
}

// The live tuples of relation s that may agree with a fresh one of relation r, another one, are live in `sum` too.
fn gather_from(
    variables: &[u16],
    values: &[Value],
    starts: &Starts,
    index: &Index,
    fresh: &Words,
    words: &Words,
    sum: &mut Words,
    r: u16,
    s: u16,
)
    requires long { Long fresh.now × (Long words.now × Long sum.old) }
    requires searchable { Searchable (lists (λ x. x.now) variables values starts) index.now × (Two r s × (s ≡ r → ⊥)) }
    ensures { GathersFrom (network_in (lists entry variables values starts)) r s fresh.now words.now sum.old sum.new }
{
    let first = tuple_start(starts, r);
    let end = tuple_start(starts, r + 1);
    for g in live_ids(fresh, first, end) {
        gather_near(
            variables,
            values,
            starts,
            index,
            words,
            sum,
            r,
            g - first,
            s,
        );
    }
}

// The live tuples of the member at j that may agree with a fresh one of another member, not that at `place`, are live in `sum` too.
fn gather_others(
    variables: &[u16],
    values: &[Value],
    starts: &Starts,
    index: &Index,
    fresh: &Words,
    words: &Words,
    sum: &mut Words,
    members: &[u16],
    place: usize,
    j: usize,
)
    requires long { Long fresh.now × (Long words.now × Long sum.old) }
    requires spreadable { Spreadable (lists (λ x. x.now) variables values starts) index.now members.now place × (j < length members.now) }
    ensures { GathersOthers (network_in (lists entry variables values starts)) members.now place j fresh.now words.now sum.old sum.new }
{
    for (i, r) in members.iter().enumerate() {
        if i != place && i != j {
            gather_from(
                variables, values, starts, index, fresh, words, sum, *r, members[j],
            );
        }
    }
}

// Whether each member but those at `place` and j has at most so many fresh tuples.
fn few_fresh(
    starts: &Starts,
    fresh: &Words,
    members: &[u16],
    place: usize,
    j: usize,
    limit: u16,
) -> bool
    requires { Counted starts.now fresh.now members.now }
{
    for (i, r) in members.iter().enumerate() {
        if i != place && i != j && limit < live_count(starts, fresh, *r) {
            return false;
        }
    }
    true
}

// The member at j narrowed to its fresh tuples and those that may agree with a fresh one of another member, if those are few. False where
// it has no live tuple left.
fn narrow_fresh(
    variables: &[u16],
    values: &[Value],
    starts: &Starts,
    index: &Index,
    fresh: &Words,
    words: &mut Words,
    members: &[u16],
    place: usize,
    j: usize,
    limit: u16,
) -> bool
    requires long { Long fresh.now × (Long words.old × ((j < length members.now) × (j ≡ place → ⊥))) }
    requires spreadable { Spreadable (lists (λ x. x.now) variables values starts) index.now members.now place }
    requires meets { Meets (network_in (lists (λ x. x.now) variables values starts)) members.now place words.old fresh.now }
    ensures { SpreadsMembers (network_in (lists entry variables values starts)) members.now place 0 words.old words.new result }
{
    if !few_fresh(starts, fresh, members, place, j, limit) {
        return true;
    }
    let mut sum = *fresh;
    gather_others(
        variables, values, starts, index, fresh, words, &mut sum, members, place, j,
    );
    let from = tuple_start(starts, members[j]);
    let to = tuple_start(starts, members[j] + 1);
    keep(&sum, words, 0, from, to);
    next(words, from, to) < to
}

// All members but the one at `place` narrowed so. False where one of them has no live tuple left.
pub fn narrow_to_fresh(
    variables: &[u16],
    values: &[Value],
    starts: &Starts,
    index: &Index,
    words: &mut Words,
    members: &[u16],
    place: usize,
    fresh: &Words,
    limit: u16,
) -> bool
    requires long { Long words.old × Long fresh.now }
    requires spreadable { Spreadable (lists (λ x. x.now) variables values starts) index.now members.now place }
    requires meets { Meets (network_in (lists (λ x. x.now) variables values starts)) members.now place words.old fresh.now }
    ensures { SpreadsMembers (network_in (lists entry variables values starts)) members.now place 0 words.old words.new result }
{
    let mut left = *words;
    keep(fresh, &mut left, 0, 0, MAX_TUPLES as u16);
    for j in 0..members.len() {
        if j != place
            && !narrow_fresh(
                variables, values, starts, index, &left, words, members, place, j, limit,
            )
        {
            return false;
        }
    }
    true
}
