// The rest of a pair's tuples sought together: those from an id on that live and hold no support that lives.
ghost use Rattle.std.specs.Prelude.{◌+◌, ◌*◌};
ghost use Rattle.narrowing.specs.Narrows.{Long};
ghost use Rattle.layout.specs.Loan.{entry};
ghost use Rattle.layout.specs.Setting.{setting};
ghost use Rattle.engine.specs.Rest.{HeldAt, SeekingAt, Seeking, RestAt, Rested};

use layout::{Starts, tuple_start, wide};
use live::ids::live_ids;
use live::{WORDS, Words, put_back, set};
use model::{NO_SUPPORT, Value};
use support::HARD;
use together::seek_together;
use value_index::Index;
use worklist::list::{all_live, load};

// Whether the list holds a support at `at`, of the members from base on, all of whose tuples live.
fn holds(
    starts: &Starts,
    members: &[u16],
    base: usize,
    each: usize,
    words: &Words,
    numbers: &[u16],
    at: usize,
) -> bool
    requires { HeldAt words.now starts.now members.now numbers.now base each at }
{
    if numbers[at] == NO_SUPPORT {
        return false;
    }
    let held = load(numbers, at, each);
    all_live(words, starts, members, base, each, held)
}

// The live ids from `from` on, of those from first to end, whose tuples hold no support that lives.
fn seeking(
    starts: &Starts,
    members: &[u16],
    base: usize,
    each: usize,
    words: &Words,
    numbers: &[u16],
    start: usize,
    first: u16,
    from: u16,
    end: u16,
) -> Words
    requires { SeekingAt words.now starts.now members.now numbers.now base each start first from end }
    ensures { Seeking words.now from result }
{
    let mut pending = [0u64; WORDS];
    for g in live_ids(words, from, end) {
        let at = start + wide(g - first) * each;
        if !holds(starts, members, base, each, words, numbers, at) {
            set(&mut pending, g);
        }
    }
    pending
}

// The tuples of pair p's member from id `from` on that still seek are sought together, over the lean words: those found have their first
// support in the list. If the steps suffice, the others are doomed, for they have none. Whether they did.
pub fn seek_rest(
    variables: &[u16],
    values: &[Value],
    starts: &Starts,
    index: &Index,
    members: &[u16],
    m: u16,
    start: usize,
    words: &Words,
    lean: &Words,
    numbers: &mut [u16],
    p: u16,
    from: u16,
    steps: u32,
    doomed: &mut Words,
) -> bool
    requires { RestAt (setting (λ x. x.now) variables values starts members m) index.now words.now lean.now numbers.old p start from × Long doomed.old }
    ensures { Rested (setting entry variables values starts members m) p from words.now numbers.old doomed.old numbers.new doomed.new }
{
    if m < 2 {
        return true;
    }
    let each = wide(m);
    let pair = wide(p);
    let base = pair / each * each;
    let stop = base + each;
    let place = pair % each;
    let r = members[pair];
    let first = tuple_start(starts, r);
    let end = tuple_start(starts, r + 1);
    let mut pending = seeking(
        starts, members, base, each, words, numbers, start, first, from, end,
    );
    let left = seek_together(
        variables,
        values,
        starts,
        index,
        lean,
        &members[base..stop],
        place,
        &mut pending,
        numbers,
        start,
        steps,
    );
    if left == 0 {
        return false;
    }
    put_back(&pending, doomed, WORDS);
    true
}

// More choices than this are not counted.
const MOST: u32 = 1073741824;

// The choices that the searches of a visit have tried, and how many make a search together due.
#[derive(Clone, Copy)]
pub struct Effort {
    pub tried: u32,
    pub due: u32,
}

// With one more search, by its kind: twice as many as it tried.
fn counted(kind: u16, effort: Effort) -> Effort {
    if MOST <= effort.tried {
        return effort;
    }
    Effort {
        tried: effort.tried + (kind / 2) as u32,
        due: effort.due,
    }
}

// The rest of pair p's tuples are sought together after a hard search, by its kind, if that is due: in twice as many steps as choices were
// tried. If the steps suffice it is never due again, and otherwise once so many more are tried.
pub fn seek_rest_once_due(
    variables: &[u16],
    values: &[Value],
    starts: &Starts,
    index: &Index,
    members: &[u16],
    m: u16,
    start: usize,
    words: &Words,
    lean: &Words,
    numbers: &mut [u16],
    p: u16,
    from: u16,
    kind: u16,
    effort: Effort,
    doomed: &mut Words,
) -> Effort
    requires { RestAt (setting (λ x. x.now) variables values starts members m) index.now words.now lean.now numbers.old p start from × Long doomed.old }
    ensures { Rested (setting entry variables values starts members m) p from words.now numbers.old doomed.old numbers.new doomed.new }
{
    if kind < HARD {
        return effort;
    }
    let all = counted(kind, effort);
    let tried = all.tried;
    let due = all.due;
    if tried < due {
        return all;
    }
    if MOST <= tried {
        return all;
    }
    let steps = 2 * tried;
    if seek_rest(
        variables, values, starts, index, members, m, start, words, lean, numbers, p, from, steps,
        doomed,
    ) {
        return Effort {
            tried: tried,
            due: MOST,
        };
    }
    Effort {
        tried: tried,
        due: due + steps,
    }
}
