// The ids that a change removes, as words, and the live words without them.
ghost use Rattle.std.specs.Prelude.{◌≡◌, ◌<◌, length};
ghost use Rattle.model.specs.Limits.{max_relations};
ghost use Rattle.model.specs.LiveWords.{is_live};
ghost use Rattle.model.specs.Request.{choose};
ghost use Rattle.live.specs.Words.{WordArray};
ghost use Rattle.layout.specs.Loan.{entry};
ghost use Rattle.layout.specs.Setting.{lists, network_in, SoundLists};
ghost use Rattle.request.specs.Removal.{added, above, IdsOf, Holds, removed_by, removed_in, Added, Room, without_ids};

use layout::{
    Starts, column_of, fit, is_any, relation_count, tuple_start, value_start, variable_start, wide,
};
use live::{WORDS, Words, set, words_for};
use model::{MAX_TUPLES, Value};

// The ids of a list: those below 4,096 as words, and the least number above all.
#[derive(Clone, Copy)]
pub struct Ids {
    pub words: Words,
    pub bound: usize,
}

// Id g is set, if the words have a bit for it; the bound with it.
pub fn add(words: &mut [u64], bound: usize, g: u16) -> usize
    requires { length words.old ≡ 64 }
    ensures { (words.new ≡ added g words.old) × (result ≡ above bound g) }
{
    let wide_id = wide(g);
    if wide_id < MAX_TUPLES {
        set(words, g);
    }
    bound.max(wide_id + 1)
}

// The ids of a list.
pub fn listed(ids: &[u16]) -> Ids
    ensures { IdsOf result ids.now }
{
    let mut words = [0u64; WORDS];
    let mut bound = 0;
    for g in ids {
        bound = add(&mut words, bound, *g);
    }
    Ids { words, bound }
}

// The ids of relation r's tuples with another value than v under variable x are set, and every other bit stays.
fn unlike_in(
    variables: &[u16],
    values: &[Value],
    starts: &Starts,
    r: u16,
    x: u16,
    v: Value,
    removed: &mut [u64],
)
    requires { SoundLists (lists (λ x. x.now) variables values starts) × (r < max_relations) × WordArray removed.old }
    ensures { Added removed.old removed.new (removed_in (lists entry variables values starts) r (choose x v)) }
{
    let scope = variable_start(starts, r);
    let scope_end = variable_start(starts, r + 1);
    let width = scope_end - scope;
    let column = column_of(&variables[scope..scope_end], x);
    if width <= column {
        return;
    }
    let mut at = value_start(starts, r) + column;
    for g in tuple_start(starts, r)..tuple_start(starts, r + 1) {
        if !fit(values[at], v) {
            set(removed, g);
        }
        at += width;
    }
}

// The ids of all tuples, live or dead, with another value than v under variable x are set, and every other bit stays.
pub fn add_unlike(
    variables: &[u16],
    values: &[Value],
    starts: &Starts,
    x: u16,
    v: Value,
    removed: &mut [u64],
)
    requires { SoundLists (lists (λ x. x.now) variables values starts) × WordArray removed.old }
    ensures { Added removed.old removed.new (removed_by (network_in (lists entry variables values starts)) (choose x v)) }
{
    if is_any(v) {
        return;
    }
    let count = relation_count(starts);
    for r in 0..count {
        unlike_in(variables, values, starts, r, x, v, removed);
    }
}

// The ids of all tuples, live or dead, with another value than v under variable x.
pub fn unlike(variables: &[u16], values: &[Value], starts: &Starts, x: u16, v: Value) -> Words
    requires { SoundLists (lists (λ x. x.now) variables values starts) }
    ensures { Holds result (removed_by (network_in (lists entry variables values starts)) (choose x v)) }
{
    let mut removed = [0u64; WORDS];
    add_unlike(variables, values, starts, x, v, &mut removed);
    removed
}

// Of the first n ids those removed are dead, and every other bit stays.
pub fn remove(words: &mut [u64], removed: &Words, n: u16)
    requires { Room words.old removed.now n }
    ensures { words.new ≡ without_ids n (is_live removed.now) words.old }
{
    for i in 0..words_for(n) {
        words[i] &= !removed[i];
    }
}
