// A visit of one pair of combination and member: each live tuple of the member gets its first support, or is removed.
ghost use Rattle.layout.specs.Loan.{entry};
ghost use Rattle.layout.specs.Setting.{setting};
ghost use Rattle.narrowing.specs.Narrows.{Long};
ghost use Rattle.live.specs.Words.{WordArray};
ghost use Rattle.spreading.specs.Spread.{PairNumbers};
ghost use Rattle.doubles.specs.Doubles.{Entered};
ghost use Rattle.support.specs.Search.{is_found};
ghost use Rattle.doubles.specs.Alike.{PairAt};
ghost use Rattle.engine.specs.Rest.{Doomed};
ghost use Rattle.engine.specs.Work.{SeekAt, RenewAt, LeanIn, LeanOf, Beside, Renewed, VisitAt, Visited};

use super::rest::{Effort, seek_rest_once_due};
use doubles::{PLACES, Table};
use layout::{Starts, put, tuple_start, wide};
use lean::lean_once_hard;
use live::{WORDS, Words, clear, is_live, next};
use model::{MAX_MEMBERS, NO_SUPPORT, Value};
use spreading::steps::{steps_of_pair, steps_once_hard};
use support::{FOUND, HARD, NONE, first_support};
use twins::sides::{Sides, sides_of};
use twins::{Twin, take_twin};
use value_index::Index;
use worklist::list::{PairStarts, all_live, load, store};
use worklist::queue::{Queue, requeue};

// So many choices tried make a search together due.
const MANY: u32 = 16384;

// The steps for a search by a tuple of pair p's member.
fn steps_at(index: &Index, members: &[u16], m: u16, p: u16) -> u64
    requires { PairNumbers members.now m p }
{
    steps_of_pair(index, members, wide(m), wide(p))
}

// What the search of tuple x of pair p's member came to, from the bound that the list holds and over the lean words: its first support is in
// the list, or the tuple is dead. Two rooms are lent for words that are narrowed on the way.
fn seek(
    variables: &[u16],
    values: &[Value],
    starts: &Starts,
    index: &Index,
    members: &[u16],
    m: u16,
    words: &mut Words,
    numbers: &mut [u16],
    p: u16,
    x: u16,
    at: usize,
    steps: u64,
    lean: &Words,
    fresh: &mut Words,
    candidates: &mut Words,
    spare: &mut Words,
) -> u16
    requires long { Long words.old × SeekAt (setting (λ x. x.now) variables values starts members m) index.now words.old numbers.old p x at }
    requires beside { Beside (setting (λ x. x.now) variables values starts members m) p lean.now fresh.old × LeanIn (setting (λ x. x.now) variables values starts members m) p words.old lean.now }
    requires long_2 { Long candidates.old × Long spare.old }
    ensures renewed { Renewed (setting entry variables values starts members m) p x words.old numbers.old (is_found result) words.new numbers.new }
    ensures beside_2 { Beside (setting entry variables values starts members m) p lean.now fresh.new }
    ensures long_3 { Long candidates.new × Long spare.new }
{
    let each = wide(m);
    let pair = wide(p);
    let base = pair / each * each;
    let end = base + each;
    let place = pair % each;
    let mut low = put([0u16; MAX_MEMBERS], place, x);
    if numbers[at] != NO_SUPPORT {
        low = load(numbers, at, each);
    }
    let found = first_support(
        variables,
        values,
        starts,
        index,
        lean,
        &members[base..end],
        place,
        x,
        low,
        steps,
        fresh,
        candidates,
        spare,
    );
    let kind = found.kind;
    if kind % 2 == FOUND {
        let tuples = found.tuples;
        store(numbers, at, each, tuples);
        return kind;
    }
    clear(words, tuple_start(starts, members[pair]) + x);
    kind
}

// The same for a tuple that may have a twin: it takes that one's support with x put in, or falls as that one fell, or seeks its own.
fn replace(
    variables: &[u16],
    values: &[Value],
    starts: &Starts,
    index: &Index,
    members: &[u16],
    m: u16,
    words: &mut Words,
    numbers: &mut [u16],
    sought: &mut Table,
    p: u16,
    x: u16,
    at: usize,
    sides: Sides,
    steps: u64,
    lean: &Words,
    fresh: &mut Words,
    candidates: &mut Words,
    spare: &mut Words,
) -> u16
    requires long { Long words.old × Beside (setting (λ x. x.now) variables values starts members m) p lean.now fresh.old × LeanIn (setting (λ x. x.now) variables values starts members m) p words.old lean.now }
    requires renew_at { RenewAt (setting (λ x. x.now) variables values starts members m) index.now words.old numbers.old sought.old p x at sides }
    requires long_2 { Long candidates.old × Long spare.old }
    ensures renewed { Renewed (setting entry variables values starts members m) p x words.old numbers.old (is_found result) words.new numbers.new }
    ensures entered { Entered x sought.old sought.new }
    ensures beside { Beside (setting entry variables values starts members m) p lean.now fresh.new }
    ensures long_3 { Long candidates.new × Long spare.new }
{
    let twin = take_twin(
        variables, values, starts, members, m, words, numbers, sought, p, x, at, sides,
    );
    match twin {
        Twin::Taken => FOUND,
        Twin::Fallen => {
            clear(words, tuple_start(starts, members[wide(p)]) + x);
            NONE
        }
        Twin::None => seek(
            variables, values, starts, index, members, m, words, numbers, p, x, at, steps, lean,
            fresh, candidates, spare,
        ),
    }
}

// What was found for tuple x of pair p's member: its first support is in the list, or the tuple is dead. It is the one held if that lives.
pub fn renew(
    variables: &[u16],
    values: &[Value],
    starts: &Starts,
    index: &Index,
    members: &[u16],
    m: u16,
    words: &mut Words,
    numbers: &mut [u16],
    sought: &mut Table,
    p: u16,
    x: u16,
    at: usize,
    sides: Sides,
    steps: u64,
    lean: &Words,
    fresh: &mut Words,
    candidates: &mut Words,
    spare: &mut Words,
) -> u16
    requires long { Long words.old × Beside (setting (λ x. x.now) variables values starts members m) p lean.now fresh.old × LeanIn (setting (λ x. x.now) variables values starts members m) p words.old lean.now }
    requires renew_at { RenewAt (setting (λ x. x.now) variables values starts members m) index.now words.old numbers.old sought.old p x at sides }
    requires long_2 { Long candidates.old × Long spare.old }
    ensures renewed { Renewed (setting entry variables values starts members m) p x words.old numbers.old (is_found result) words.new numbers.new }
    ensures entered { Entered x sought.old sought.new }
    ensures beside { Beside (setting entry variables values starts members m) p lean.now fresh.new }
    ensures long_3 { Long candidates.new × Long spare.new }
{
    let each = wide(m);
    if numbers[at] != NO_SUPPORT {
        let held = load(numbers, at, each);
        if all_live(words, starts, members, wide(p) / each * each, each, held) {
            return FOUND;
        }
    }
    replace(
        variables, values, starts, index, members, m, words, numbers, sought, p, x, at, sides,
        steps, lean, fresh, candidates, spare,
    )
}

// The same for a tuple that may be doomed: then it falls.
fn renew_or_fall(
    variables: &[u16],
    values: &[Value],
    starts: &Starts,
    index: &Index,
    members: &[u16],
    m: u16,
    words: &mut Words,
    numbers: &mut [u16],
    sought: &mut Table,
    p: u16,
    x: u16,
    at: usize,
    sides: Sides,
    steps: u64,
    lean: &Words,
    fresh: &mut Words,
    doomed: &Words,
    candidates: &mut Words,
    spare: &mut Words,
) -> u16
    requires long { Long words.old × Beside (setting (λ x. x.now) variables values starts members m) p lean.now fresh.old × LeanIn (setting (λ x. x.now) variables values starts members m) p words.old lean.now }
    requires renew_at { RenewAt (setting (λ x. x.now) variables values starts members m) index.now words.old numbers.old sought.old p x at sides }
    requires long_2 { Long doomed.now × Doomed (setting (λ x. x.now) variables values starts members m) p words.old doomed.now }
    requires long_3 { Long candidates.old × Long spare.old }
    ensures renewed { Renewed (setting entry variables values starts members m) p x words.old numbers.old (is_found result) words.new numbers.new }
    ensures entered { Entered x sought.old sought.new }
    ensures beside { Beside (setting entry variables values starts members m) p lean.now fresh.new }
    ensures long_4 { Long candidates.new × Long spare.new }
{
    let id = tuple_start(starts, members[wide(p)]) + x;
    if is_live(doomed, id) {
        clear(words, id);
        return NONE;
    }
    renew(
        variables, values, starts, index, members, m, words, numbers, sought, p, x, at, sides,
        steps, lean, fresh, candidates, spare,
    )
}

// How many choices the searches of pair p have tried, with one more search by its kind. Once they are many, the words become lean.
fn lean_at(
    variables: &[u16],
    values: &[Value],
    starts: &Starts,
    members: &[u16],
    m: u16,
    p: u16,
    kind: u16,
    tried: u16,
    lean: &mut Words,
) -> u16
    requires { Long lean.old × PairAt (setting (λ x. x.now) variables values starts members m) p }
    ensures { LeanOf (setting entry variables values starts members m) p lean.old lean.new }
{
    if kind < HARD {
        return tried;
    }
    let each = wide(m);
    let base = wide(p) / each * each;
    let end = base + each;
    lean_once_hard(
        variables,
        values,
        starts,
        &members[base..end],
        wide(p) % each,
        kind,
        tried,
        lean,
    )
}

// The steps for the searches of pair p, once so many choices were tried.
fn steps_now(
    variables: &[u16],
    values: &[Value],
    starts: &Starts,
    index: &Index,
    members: &[u16],
    m: u16,
    p: u16,
    words: &Words,
    tried: u16,
    steps: u64,
) -> u64
    requires { Long words.now × PairAt (setting (λ x. x.now) variables values starts members m) p }
{
    if tried == 0 {
        return steps;
    }
    let each = wide(m);
    let base = wide(p) / each * each;
    let end = base + each;
    steps_once_hard(
        variables,
        values,
        starts,
        index,
        words,
        &members[base..end],
        wide(p) % each,
        tried,
        steps,
    )
}

// Each live tuple of pair p's member has its first support in the list, or is dead. The pairs that wait now are given back.
pub fn visit(
    queue: Queue,
    variables: &[u16],
    values: &[Value],
    starts: &Starts,
    index: &Index,
    members: &[u16],
    m: u16,
    pair_starts: &PairStarts,
    words: &mut Words,
    numbers: &mut [u16],
    p: u16,
) -> Queue
    requires { WordArray words.old × VisitAt (setting (λ x. x.now) variables values starts members m) index.now pair_starts.now words.old numbers.old p }
    ensures { Visited (setting entry variables values starts members m) p queue.words words.old numbers.old result.words words.new numbers.new }
{
    let sides = sides_of(variables, values, starts, members, m, p);
    let mut steps = steps_at(index, members, m, p);
    let r = members[wide(p)];
    let first = tuple_start(starts, r);
    let end = tuple_start(starts, r + 1);
    let start = wide(pair_starts[wide(p)]);
    let mut sought = [NO_SUPPORT; PLACES];
    let mut lean = *words;
    let mut tried = 0;
    let mut fresh = [!0u64; WORDS];
    let mut doomed = [0u64; WORDS];
    let mut candidates = [0u64; WORDS];
    let mut spare = [0u64; WORDS];
    let mut effort = Effort {
        tried: 0,
        due: MANY,
    };
    let mut waiting = queue;
    let mut shrunk = false;
    let mut g = next(words, first, end);
    // stays a while: the loop writes the words that it goes over
    while g < end {
        let x = g - first;
        let at = start + wide(x) * wide(m);
        let kind = renew_or_fall(
            variables,
            values,
            starts,
            index,
            members,
            m,
            words,
            numbers,
            &mut sought,
            p,
            x,
            at,
            sides,
            steps,
            &lean,
            &mut fresh,
            &doomed,
            &mut candidates,
            &mut spare,
        );
        if kind % 2 != FOUND {
            if !shrunk {
                waiting = requeue(waiting, members, m, p);
                shrunk = true;
            }
        }
        tried = lean_at(
            variables, values, starts, members, m, p, kind, tried, &mut lean,
        );
        steps = steps_now(
            variables, values, starts, index, members, m, p, &lean, tried, steps,
        );
        effort = seek_rest_once_due(
            variables,
            values,
            starts,
            index,
            members,
            m,
            start,
            words,
            &lean,
            numbers,
            p,
            g + 1,
            kind,
            effort,
            &mut doomed,
        );
        g = next(words, g + 1, end);
    }
    waiting
}
