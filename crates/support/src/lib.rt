// The first support of a tuple, sought member by member with forward checking: after each choice the members still to come are narrowed to
// the tuples that may agree with it, but for the last one, whose tuples are tried at once.
#![tactic(auto)]

ghost use Rattle.std.specs.Prelude.{◌≡◌, true, ◌+◌, ◌≤◌, ◌<◌, length};
ghost use Rattle.model.specs.Limits.{max_relations, max_members};
ghost use Rattle.doubles.specs.Alike.{MembersIn};
ghost use Rattle.doubles.specs.Doubles.{places};
ghost use Rattle.layout.specs.Loan.{entry};
ghost use Rattle.layout.specs.Starts.{tuple_start, SoundStarts};
ghost use Rattle.layout.specs.Setting.{lists, network_in};
ghost use Rattle.narrowing.specs.Narrows.{Long};
ghost use Rattle.support.specs.Spent.{SpendAt, Spent, EndBelow, FreshAt, Spends, NoteAt, Notes, Rooted, MeetsIn, MeetsBeside, FreshFrom};
ghost use Rattle.support.specs.Search.{searching, Seeking, SearchAt, past_own, place_behind, span_at, fits, Trial, FittingAt, FirstFitting, TurnOf, Sifts, MayLead, AttemptAt, Attempts, WalkAt, Walks, is_found, Finds, FindsFirst};

use doubles::alike::variables_from;
use doubles::{PLACES, Table, first_alike};
use layout::{Starts, put, tuple_count, tuple_start};
use live::ids::live_ids;
use live::{WORDS, Words, clear, is_live, next, put_back, words_for};
use model::{MAX_MEMBERS, MAX_WIDTH, NO_SUPPORT, Value};
use narrowing::narrow_members;
use narrowing::rows::{TUPLE_ROWS, next_in_rows, rows_for};
use narrowing::sieve::{Sieve, passes, sieve_for};
use network::agreement::tuples_agree;
use refuting::hopeless;
use spreading::fresh::narrow_to_fresh;
use spreading::spread_members;
use spreading::steps::steps_between;
use value_index::Index;

// Before a search, a member is narrowed through another only where that one has at most so many candidates.
const FEW: u16 = 8;

// .. and in a hard one.
const MANY: u16 = 128;

// .. and through fresh tuples, where there are at most so many.
const FRESH: u16 = 32;

// A search is hard where so many choices of one member have failed.
const FAILURES: u16 = 16;

// .. and long where so many were tried once it was hard: what it has come to is kept in mind.
const LONG: u16 = 256;

// Once so many were tried, it is looked whether a hard search is hopeless; and again each time after sixteen times as many.
const PATIENCE: u16 = 64;

// More choices than this are not counted.
const MOST: u16 = 16384;

// One tuple of each member, by its index.
pub type Indices = [u16; MAX_MEMBERS];

// What a search came to: a support, or none; and from HARD on it was hard.
pub const FOUND: u16 = 1;

pub const NONE: u16 = 0;

pub const HARD: u16 = 2;

// The indices of a support, one for each member, if the kind is odd; half of the kind is how many choices a hard search has tried, if they are
// fewer than MOST. Its fields are of one width and are read back as they are written: a word made of two flags would be waited for.
#[derive(Clone, Copy)]
pub struct Found {
    pub tuples: Indices,
    pub kind: u16,
}

// How a walk over a member's tuples ended: with a support, or at an id before which no tuple leads to one.
#[derive(Clone, Copy)]
struct Walked {
    tuples: Indices,
    kind: u16,
    at: u16,
}

// The id of a relation's first tuple, and the ids that a walk goes over: from start on and below end.
#[derive(Clone, Copy)]
struct Span {
    first: u16,
    start: u16,
    end: u16,
}

// Where a search stands: the member whose turn it is, and the tuples chosen for those before it.
#[derive(Clone, Copy)]
struct Stage {
    k: usize,
    chosen: Indices,
}

// The stage at member k, or past it if that is the seeking tuple's own, for which this tuple is chosen.
fn past_own(place: usize, own: u16, k: usize, chosen: Indices) -> Stage
    requires { place < max_members }
    ensures { result ≡ past_own place own k chosen }
{
    if k == place {
        return Stage {
            k: k + 1,
            chosen: put(chosen, k, own),
        };
    }
    Stage { k, chosen }
}

// The place behind k, past the seeking tuple's.
pub fn place_behind(place: usize, k: usize) -> usize
    requires { k < max_members }
    ensures { result ≡ place_behind place k }
{
    if k + 1 == place {
        return k + 2;
    }
    k + 1
}

// The walk over relation r: its tuples, from index `from` on if the search resumes.
fn span_of(starts: &Starts, r: u16, resumes: bool, from: u16) -> Span
    requires { (r < max_relations) × (tuple_start starts.now r + from < 65535) }
    ensures { result ≡ span_at starts.now r resumes from }
{
    let first = tuple_start(starts, r);
    let end = tuple_start(starts, r + 1);
    if resumes {
        let start = first + from;
        return Span { first, start, end };
    }
    Span {
        first,
        start: first,
        end,
    }
}

// Whether tuple x of member k, not the seeking tuple's own, agrees with the seeking tuple and with all chosen before it.
fn fits(
    variables: &[u16],
    values: &[Value],
    starts: &Starts,
    members: &[u16],
    place: usize,
    own: u16,
    k: usize,
    chosen: Indices,
    x: u16,
) -> bool
    requires { Trial (lists (λ x. x.now) variables values starts) members.now place own k chosen x }
    ensures { result ≡ fits (network_in (lists entry variables values starts)) members.now place own k chosen x }
{
    let r = members[k];
    if !tuples_agree(variables, values, starts, members[place], own, r, x) {
        return false;
    }
    for j in 0..k {
        if j != place && !tuples_agree(variables, values, starts, members[j], chosen[j], r, x) {
            return false;
        }
    }
    true
}

// The id of the first live tuple of member k from id `from` on that fits; the end of its relation's ids if none does. Only tuples are tried that
// may agree with tuple x of the member at `by`, which is the seeking tuple or one chosen.
pub fn first_fitting(
    variables: &[u16],
    values: &[Value],
    starts: &Starts,
    index: &Index,
    words: &Words,
    members: &[u16],
    place: usize,
    own: u16,
    k: usize,
    chosen: Indices,
    from: u16,
    by: usize,
    x: u16,
) -> u16
    requires { Long words.now × FittingAt (lists (λ x. x.now) variables values starts) index.now members.now place own k chosen from by x }
    ensures { FirstFitting (network_in (lists entry variables values starts)) members.now place own k chosen words.now from result }
{
    let r = members[k];
    let first = tuple_start(starts, r);
    let end = tuple_start(starts, r + 1);
    let mut rows = [0u16; TUPLE_ROWS];
    let n = rows_for(
        variables,
        values,
        starts,
        index,
        members[by],
        x,
        r,
        &mut rows,
    );
    let mut g = next_in_rows(index, &rows, n, words, from, end);
    // stays a while: the loop goes over the live ids that are in rows of the index too
    while g < end {
        if fits(
            variables,
            values,
            starts,
            members,
            place,
            own,
            k,
            chosen,
            g - first,
        ) {
            return g;
        }
        g = next_in_rows(index, &rows, n, words, g + 1, end);
    }
    g
}

// What `attempt` is called for, where only one member is left behind k. This one is not narrowed first: its tuples are tried at once.
fn attempt_last(
    variables: &[u16],
    values: &[Value],
    starts: &Starts,
    index: &Index,
    words: &Words,
    members: &[u16],
    place: usize,
    own: u16,
    low: Indices,
    k: usize,
    resumes: bool,
    chosen: Indices,
    x: u16,
) -> Found
    requires long { Long words.now × AttemptAt (searching (λ x. x.now) variables values starts words members place own low) index.now k resumes chosen x }
    requires k_value { place_behind place (place_behind place k) ≡ length members.now }
    ensures { Attempts (searching entry variables values starts words members place own low) k chosen x result }
{
    let stage = past_own(place, own, k + 1, put(chosen, k, x));
    let on = stage.k;
    let tuples = stage.chosen;
    let resuming = resumes && x == low[k];
    let span = span_of(starts, members[on], resuming, low[on]);
    let g = first_fitting(
        variables, values, starts, index, words, members, place, own, on, tuples, span.start, k, x,
    );
    if g < span.end {
        if fits(variables, values, starts, members, place, own, k, chosen, x) {
            let full = past_own(place, own, on + 1, put(tuples, on, g - span.first));
            let tuples = full.chosen;
            return Found {
                tuples,
                kind: FOUND,
            };
        }
    }
    Found { tuples, kind: NONE }
}

// ---- The hard search

// The first support at or after `low` that has the tuples chosen for the members before k, and tuple x for member k, which is not the last.
#[cycle(attempt_comb_comb_all)]
fn attempt(
    variables: &[u16],
    values: &[Value],
    starts: &Starts,
    index: &Index,
    words: &Words,
    members: &[u16],
    place: usize,
    own: u16,
    low: Indices,
    k: usize,
    resumes: bool,
    chosen: Indices,
    x: u16,
) -> Found
    requires { Long words.now × AttemptAt (searching (λ x. x.now) variables values starts words members place own low) index.now k resumes chosen x }
    ensures { Attempts (searching entry variables values starts words members place own low) k chosen x result }
{
    if place_behind(place, place_behind(place, k)) == members.len() {
        return attempt_last(
            variables, values, starts, index, words, members, place, own, low, k, resumes, chosen,
            x,
        );
    }
    let r = members[k];
    let stage = past_own(place, own, k + 1, put(chosen, k, x));
    let on = stage.k;
    let tuples = stage.chosen;
    let mut fewer = *words;
    if narrow_members(
        variables, values, starts, index, &mut fewer, members, place, on, r, x,
    ) {
        if fits(variables, values, starts, members, place, own, k, chosen, x) {
            let resuming = resumes && x == low[k];
            return comb_all(
                variables, values, starts, index, &fewer, members, place, own, low, on, resuming,
                tuples,
            );
        }
    }
    Found { tuples, kind: NONE }
}

// The last of so many places but this one.
fn last_but(places: usize, place: usize) -> usize
    requires { 1 < places }
    ensures { (result < places) × (result ≡ place → ⊥) }
{
    if place == places - 1 {
        return places - 2;
    }
    places - 1
}

// A sieve of member k's tuples, by the live tuples of the last member but the one at `place`; nothing is sieved if k is the last.
fn sieve_behind(
    variables: &[u16],
    values: &[Value],
    starts: &Starts,
    words: &Words,
    members: &[u16],
    place: usize,
    k: usize,
) -> Sieve
    requires { Long words.now × (MembersIn (lists (λ x. x.now) variables values starts) members.now × TurnOf members.now place k) }
    ensures { Sifts (network_in (lists entry variables values starts)) members.now place k words.now result }
{
    let last = last_but(members.len(), place);
    if last <= k {
        return Sieve {
            column: MAX_WIDTH as u16,
            bits: 0,
        };
    }
    sieve_for(variables, values, starts, words, members[k], members[last])
}

// Whether tuple x of member k may lead to a support: it passes the sieve and fits, and no tuple that failed has its values under the variables of
// the set. It is entered in the table, unless it fails these tests or is the one at which a search resumes.
fn may_lead(
    variables: &[u16],
    values: &[Value],
    starts: &Starts,
    members: &[u16],
    place: usize,
    own: u16,
    k: usize,
    chosen: Indices,
    failed: &mut Table,
    x: u16,
    sieve: Sieve,
    common: u64,
    resumed: bool,
) -> bool
    requires { Trial (lists (λ x. x.now) variables values starts) members.now place own k chosen x × (length failed.old ≡ places) }
    ensures { MayLead (lists entry variables values starts) members.now place own k chosen x sieve common resumed failed.old result failed.new }
{
    if !passes(variables, values, starts, sieve, members[k], x) {
        return false;
    }
    if !fits(variables, values, starts, members, place, own, k, chosen, x) {
        return false;
    }
    if resumed {
        return true;
    }
    x <= first_alike(variables, values, starts, failed, members[k], x, common)
}

// One choice more, and those tried behind it; no more once it is MOST.
fn one_more(tried: u16, behind: u16) -> u16 {
    if MOST <= tried {
        return tried;
    }
    if MOST <= behind {
        return behind;
    }
    tried + behind + 1
}

// Sixteen times as many choices, or more than are counted.
fn longer(patience: u16) -> u16 {
    if MOST / 16 < patience {
        return 65535;
    }
    16 * patience
}

// The kind, FOUND or HARD, after so many choices.
fn after(tried: u16, kind: u16) -> u16
    requires { kind < 3 }
    ensures { is_found result ≡ is_found kind }
{
    if MOST <= tried {
        return 2 * MOST + kind;
    }
    2 * tried + kind
}

// What `search` is called for, sought from id `from` on, where it is hard: a tuple is passed over that has the values of one that failed, under
// all variables of the members behind. Once many were tried, it is looked whether there is anything to find.
#[cycle(attempt_comb_comb_all)]
fn comb(
    variables: &[u16],
    values: &[Value],
    starts: &Starts,
    index: &Index,
    words: &Words,
    members: &[u16],
    place: usize,
    own: u16,
    low: Indices,
    k: usize,
    resumes: bool,
    chosen: Indices,
    from: u16,
) -> Found
    requires long { Long words.now × SearchAt (searching (λ x. x.now) variables values starts words members place own low) index.now k resumes chosen }
    requires walk_at { WalkAt (searching (λ x. x.now) variables values starts words members place own low) k resumes chosen from × (place_behind place k < length members.now) }
    ensures { Finds (searching entry variables values starts words members place own low) k chosen result }
{
    let r = members[k];
    let first = tuple_start(starts, r);
    let end = tuple_start(starts, r + 1);
    let lowest = low[k];
    let common = variables_from(variables, values, starts, members, place, k + 1);
    let sieve = sieve_behind(variables, values, starts, words, members, place, k);
    let mut failed = [NO_SUPPORT; PLACES];
    let mut tried: u16 = 0;
    let mut patience = PATIENCE;
    for g in live_ids(words, from, end) {
        let x = g - first;
        let resumed = resumes && x == lowest;
        if may_lead(
            variables,
            values,
            starts,
            members,
            place,
            own,
            k,
            chosen,
            &mut failed,
            x,
            sieve,
            common,
            resumed,
        ) {
            if patience <= tried {
                if hopeless(
                    variables, values, starts, index, words, members, place, own, k, tried,
                ) {
                    return Found {
                        tuples: chosen,
                        kind: after(tried, HARD),
                    };
                }
                patience = longer(patience);
            }
            let found = attempt(
                variables, values, starts, index, words, members, place, own, low, k, resumes,
                chosen, x,
            );
            let kind = found.kind;
            tried = one_more(tried, kind / 2);
            if kind % 2 == FOUND {
                let tuples = found.tuples;
                return Found {
                    tuples,
                    kind: after(tried, FOUND),
                };
            }
        }
    }
    Found {
        tuples: chosen,
        kind: after(tried, HARD),
    }
}

// The same with the tuples chosen for the members before k alone: what `comb` is called for, from the first tuple of member k on, or from where
// the search resumes.
#[cycle(attempt_comb_comb_all)]
fn comb_all(
    variables: &[u16],
    values: &[Value],
    starts: &Starts,
    index: &Index,
    words: &Words,
    members: &[u16],
    place: usize,
    own: u16,
    low: Indices,
    k: usize,
    resumes: bool,
    chosen: Indices,
) -> Found
    requires long { Long words.now × SearchAt (searching (λ x. x.now) variables values starts words members place own low) index.now k resumes chosen }
    requires k_in_bounds { place_behind place k < length members.now }
    ensures { Finds (searching entry variables values starts words members place own low) k chosen result }
{
    let span = span_of(starts, members[k], resumes, low[k]);
    let end = span.end;
    let from = next(words, span.start, end);
    comb(
        variables, values, starts, index, words, members, place, own, low, k, resumes, chosen, from,
    )
}

// What `comb` is called for, where the members from k on are narrowed through each other first.
fn search_hard(
    variables: &[u16],
    values: &[Value],
    starts: &Starts,
    index: &Index,
    words: &Words,
    members: &[u16],
    place: usize,
    own: u16,
    low: Indices,
    k: usize,
    resumes: bool,
    chosen: Indices,
    from: u16,
) -> Found
    requires long { Long words.now × SearchAt (searching (λ x. x.now) variables values starts words members place own low) index.now k resumes chosen }
    requires walk_at { WalkAt (searching (λ x. x.now) variables values starts words members place own low) k resumes chosen from × (place_behind place k < length members.now) }
    ensures { Finds (searching entry variables values starts words members place own low) k chosen result }
{
    let end = tuple_start(starts, members[k] + 1);
    let mut fewer = *words;
    let steps = steps_between(index, starts, words, members, place, k);
    if !spread_members(
        variables, values, starts, index, &mut fewer, members, place, k, steps, MANY,
    ) {
        return Found {
            tuples: chosen,
            kind: HARD,
        };
    }
    let again = next(&fewer, from, end);
    comb(
        variables, values, starts, index, &fewer, members, place, own, low, k, resumes, chosen,
        again,
    )
}

// ---- The search

// The walk over member k's live tuples from id `from` on, at the turn that `search_two` is called for. It stops where the search is hard.
fn walk_last(
    variables: &[u16],
    values: &[Value],
    starts: &Starts,
    index: &Index,
    words: &Words,
    members: &[u16],
    place: usize,
    own: u16,
    low: Indices,
    k: usize,
    resumes: bool,
    chosen: Indices,
    from: u16,
) -> Walked
    requires long { Long words.now × SearchAt (searching (λ x. x.now) variables values starts words members place own low) index.now k resumes chosen }
    requires walk_at { WalkAt (searching (λ x. x.now) variables values starts words members place own low) k resumes chosen from × (place_behind place k < length members.now) }
    requires k_value { place_behind place (place_behind place k) ≡ length members.now }
    ensures { Walks (searching entry variables values starts words members place own low) k resumes chosen result }
{
    let r = members[k];
    let first = tuple_start(starts, r);
    let end = tuple_start(starts, r + 1);
    let mut failures: u16 = 0;
    for g in live_ids(words, from, end) {
        let found = attempt_last(
            variables,
            values,
            starts,
            index,
            words,
            members,
            place,
            own,
            low,
            k,
            resumes,
            chosen,
            g - first,
        );
        let kind = found.kind;
        if kind % 2 == FOUND {
            let tuples = found.tuples;
            return Walked {
                tuples,
                kind,
                at: g,
            };
        }
        failures += 1;
        if failures == FAILURES {
            return Walked {
                tuples: chosen,
                kind: HARD,
                at: next(words, g + 1, end),
            };
        }
    }
    Walked {
        tuples: chosen,
        kind: NONE,
        at: end,
    }
}

// What `search` is called for, where one member is left behind k.
fn search_two(
    variables: &[u16],
    values: &[Value],
    starts: &Starts,
    index: &Index,
    words: &Words,
    members: &[u16],
    place: usize,
    own: u16,
    low: Indices,
    k: usize,
    resumes: bool,
    chosen: Indices,
) -> Found
    requires long { Long words.now × SearchAt (searching (λ x. x.now) variables values starts words members place own low) index.now k resumes chosen }
    requires k_in_bounds { (place_behind place k < length members.now) × (place_behind place (place_behind place k) ≡ length members.now) }
    ensures { Finds (searching entry variables values starts words members place own low) k chosen result }
{
    let span = span_of(starts, members[k], resumes, low[k]);
    let end = span.end;
    let from = next(words, span.start, end);
    let walked = walk_last(
        variables, values, starts, index, words, members, place, own, low, k, resumes, chosen, from,
    );
    let tuples = walked.tuples;
    let kind = walked.kind;
    let at = walked.at;
    if kind % 2 == FOUND || end <= at {
        return Found { tuples, kind };
    }
    search_hard(
        variables, values, starts, index, words, members, place, own, low, k, resumes, chosen, at,
    )
}

// What `attempt` is called for, where two members or more are left behind k and the search is not hard yet. They are narrowed in a room lent
// for it, of which only the words of the network's tuples are written.
fn attempt_first(
    variables: &[u16],
    values: &[Value],
    starts: &Starts,
    index: &Index,
    words: &Words,
    members: &[u16],
    place: usize,
    own: u16,
    low: Indices,
    k: usize,
    resumes: bool,
    chosen: Indices,
    x: u16,
    spare: &mut Words,
) -> Found
    requires long { Long words.now × AttemptAt (searching (λ x. x.now) variables values starts words members place own low) index.now k resumes chosen x }
    requires long_2 { Long spare.old × (place_behind place (place_behind place k) < length members.now) }
    ensures attempts { Attempts (searching entry variables values starts words members place own low) k chosen x result }
    ensures long_3 { Long spare.new }
{
    let r = members[k];
    let stage = past_own(place, own, k + 1, put(chosen, k, x));
    let on = stage.k;
    let tuples = stage.chosen;
    put_back(words, spare, words_for(tuple_count(starts)));
    if narrow_members(
        variables, values, starts, index, spare, members, place, on, r, x,
    ) {
        if fits(variables, values, starts, members, place, own, k, chosen, x) {
            let resuming = resumes && x == low[k];
            if place_behind(place, place_behind(place, on)) == members.len() {
                return search_two(
                    variables, values, starts, index, spare, members, place, own, low, on,
                    resuming, tuples,
                );
            }
            return comb_all(
                variables, values, starts, index, spare, members, place, own, low, on, resuming,
                tuples,
            );
        }
    }
    Found { tuples, kind: NONE }
}

// The walk over member k's live tuples from id `from` on, at the turn that `search` is called for. It stops where the search is hard.
fn walk(
    variables: &[u16],
    values: &[Value],
    starts: &Starts,
    index: &Index,
    words: &Words,
    members: &[u16],
    place: usize,
    own: u16,
    low: Indices,
    k: usize,
    resumes: bool,
    chosen: Indices,
    from: u16,
    spare: &mut Words,
) -> Walked
    requires long { Long words.now × SearchAt (searching (λ x. x.now) variables values starts words members place own low) index.now k resumes chosen }
    requires walk_at { WalkAt (searching (λ x. x.now) variables values starts words members place own low) k resumes chosen from × (place_behind place k < length members.now) }
    requires long_2 { Long spare.old × (place_behind place (place_behind place k) < length members.now) }
    ensures walks { Walks (searching entry variables values starts words members place own low) k resumes chosen result }
    ensures long_3 { Long spare.new }
{
    let r = members[k];
    let first = tuple_start(starts, r);
    let end = tuple_start(starts, r + 1);
    let mut failures: u16 = 0;
    for g in live_ids(words, from, end) {
        let found = attempt_first(
            variables,
            values,
            starts,
            index,
            words,
            members,
            place,
            own,
            low,
            k,
            resumes,
            chosen,
            g - first,
            spare,
        );
        let kind = found.kind;
        if kind % 2 == FOUND {
            let tuples = found.tuples;
            return Walked {
                tuples,
                kind,
                at: g,
            };
        }
        failures += 1;
        if HARD <= kind || failures == FAILURES {
            return Walked {
                tuples: chosen,
                kind: HARD,
                at: next(words, g + 1, end),
            };
        }
    }
    Walked {
        tuples: chosen,
        kind: NONE,
        at: end,
    }
}

// The first support at or after `low` that has the tuples chosen for the members before k, which is not the last. Where it is hard to find, it is
// sought by `comb`.
fn search(
    variables: &[u16],
    values: &[Value],
    starts: &Starts,
    index: &Index,
    words: &Words,
    members: &[u16],
    place: usize,
    own: u16,
    low: Indices,
    k: usize,
    resumes: bool,
    chosen: Indices,
    spare: &mut Words,
) -> Found
    requires long { Long words.now × SearchAt (searching (λ x. x.now) variables values starts words members place own low) index.now k resumes chosen }
    requires long_2 { Long spare.old × (place_behind place k < length members.now) }
    ensures finds { Finds (searching entry variables values starts words members place own low) k chosen result }
    ensures long_3 { Long spare.new }
{
    if place_behind(place, place_behind(place, k)) == members.len() {
        return search_two(
            variables, values, starts, index, words, members, place, own, low, k, resumes, chosen,
        );
    }
    let span = span_of(starts, members[k], resumes, low[k]);
    let end = span.end;
    let from = next(words, span.start, end);
    let walked = walk(
        variables, values, starts, index, words, members, place, own, low, k, resumes, chosen,
        from, spare,
    );
    let tuples = walked.tuples;
    let kind = walked.kind;
    let at = walked.at;
    if kind % 2 == FOUND || end <= at {
        return Found { tuples, kind };
    }
    search_hard(
        variables, values, starts, index, words, members, place, own, low, k, resumes, chosen, at,
    )
}

// What `search` is called for, where only member k is left, and nothing but the seeking tuple is chosen.
fn search_last(
    variables: &[u16],
    values: &[Value],
    starts: &Starts,
    index: &Index,
    words: &Words,
    members: &[u16],
    place: usize,
    own: u16,
    low: Indices,
    k: usize,
    chosen: Indices,
) -> Found
    requires long { Long words.now × SearchAt (searching (λ x. x.now) variables values starts words members place own low) index.now k true chosen }
    requires k_value { place_behind place k ≡ length members.now }
    ensures { Finds (searching entry variables values starts words members place own low) k chosen result }
{
    let span = span_of(starts, members[k], true, low[k]);
    let g = first_fitting(
        variables, values, starts, index, words, members, place, own, k, chosen, span.start, place,
        own,
    );
    if span.end <= g {
        return Found {
            tuples: chosen,
            kind: NONE,
        };
    }
    let full = past_own(place, own, k + 1, put(chosen, k, g - span.first));
    let tuples = full.chosen;
    Found {
        tuples,
        kind: FOUND,
    }
}

// ---- What a long search has come to

// Of relation s, the tuples among these candidates below id `end` that agree with tuple x of relation r are no longer fresh.
fn spend_member(
    variables: &[u16],
    values: &[Value],
    starts: &Starts,
    words: &Words,
    fresh: &mut Words,
    r: u16,
    x: u16,
    s: u16,
    end: u16,
)
    requires long { Long words.now × Long fresh.old }
    requires spend_at { SpendAt (lists (λ x. x.now) variables values starts) r x s end }
    ensures { Spent (network_in (lists entry variables values starts)) r x s end fresh.old fresh.new }
{
    let first = tuple_start(starts, s);
    for g in live_ids(words, first, end) {
        if tuples_agree(variables, values, starts, r, x, s, g - first) {
            clear(fresh, g);
        }
    }
}

// The end of relation s's ids, or the bound if that is below it and j is k.
fn end_below(starts: &Starts, s: u16, j: usize, k: usize, bound: u16) -> u16
    requires { SoundStarts starts.now × (s < max_relations) }
    ensures { EndBelow (tuple_start starts.now (s + 1)) j k bound result }
{
    let end = tuple_start(starts, s + 1);
    if j == k {
        if bound < end {
            return bound;
        }
    }
    end
}

// All tuples but those among these candidates that agree with tuple `own` of the member at `place`; of the member at k only those below the
// bound. Of the member at `place` the first is not fresh: that is how it is known that some others may not be.
fn fresh_after(
    variables: &[u16],
    values: &[Value],
    starts: &Starts,
    words: &Words,
    members: &[u16],
    place: usize,
    own: u16,
    k: usize,
    bound: u16,
) -> Words
    requires { Long words.now × FreshAt (lists (λ x. x.now) variables values starts) words.now members.now place own k bound }
    ensures { Long result × Spends (network_in (lists entry variables values starts)) members.now place own k bound result }
{
    let r = members[place];
    let mut fresh = [!0u64; WORDS];
    for (j, s) in members.iter().enumerate() {
        if j != place {
            let end = end_below(starts, *s, j, k, bound);
            spend_member(
                variables, values, starts, words, &mut fresh, r, own, *s, end,
            );
        }
    }
    clear(&mut fresh, tuple_start(starts, r));
    fresh
}

// After a long search over these candidates which found none, or the support with tuple t of the member at k: the candidates that agree with
// the seeking tuple are no longer fresh, but for those of member k from t on.
fn note(
    variables: &[u16],
    values: &[Value],
    starts: &Starts,
    words: &Words,
    members: &[u16],
    place: usize,
    own: u16,
    k: usize,
    found: bool,
    t: u16,
    fresh: &mut Words,
)
    requires { (Long words.now × Long fresh.old) × NoteAt (lists (λ x. x.now) variables values starts) words.now members.now place own k found t }
    ensures { Notes (network_in (lists entry variables values starts)) members.now place own k found t fresh.new }
{
    let r = members[k];
    let mut bound = tuple_start(starts, r + 1);
    if found {
        bound = tuple_start(starts, r) + t;
    }
    let now = fresh_after(
        variables, values, starts, words, members, place, own, k, bound,
    );
    put_back(&now, fresh, WORDS);
}

// ---- The first support

// What `first_support` is called for, over words narrowed for the seeking tuple, which lives, with two other members or more.
fn search_all(
    variables: &[u16],
    values: &[Value],
    starts: &Starts,
    index: &Index,
    words: &Words,
    members: &[u16],
    place: usize,
    own: u16,
    low: Indices,
    spare: &mut Words,
) -> Found
    requires long { Long words.now × Rooted (searching (λ x. x.now) variables values starts words members place own low) index.now }
    requires long_2 { Long spare.old }
    ensures finds_first { FindsFirst (searching entry variables values starts words members place own low) result }
    ensures long_3 { Long spare.new }
{
    let begun = past_own(place, own, 0, low);
    let tuples = begun.chosen;
    search(
        variables, values, starts, index, words, members, place, own, low, begun.k, true, tuples,
        spare,
    )
}

// The same, where every support has a fresh tuple: members are narrowed through those that are, and through others by these steps.
fn search_fresh(
    variables: &[u16],
    values: &[Value],
    starts: &Starts,
    index: &Index,
    words: &Words,
    members: &[u16],
    place: usize,
    own: u16,
    low: Indices,
    steps: u64,
    fresh: &Words,
    spare: &mut Words,
) -> Found
    requires long { Long words.now × Rooted (searching (λ x. x.now) variables values starts words members place own low) index.now }
    requires long_2 { Long fresh.now × MeetsIn (searching (λ x. x.now) variables values starts words members place own low) fresh.now }
    requires long_3 { Long spare.old }
    ensures finds_first { FindsFirst (searching entry variables values starts words members place own low) result }
    ensures long_4 { Long spare.new }
{
    let none = Found {
        tuples: low,
        kind: NONE,
    };
    let mut fewer = *words;
    if !narrow_to_fresh(
        variables, values, starts, index, &mut fewer, members, place, fresh, FRESH,
    ) {
        return none;
    }
    if !spread_members(
        variables, values, starts, index, &mut fewer, members, place, 0, steps, FEW,
    ) {
        return none;
    }
    search_all(
        variables, values, starts, index, &fewer, members, place, own, low, spare,
    )
}

// These steps, or none where members are narrowed through fresh tuples first.
fn steps_before(all_fresh: bool, steps: u64) -> u64 {
    if all_fresh {
        return steps;
    }
    0
}

// The first support at or after `low` of tuple `own` of the member at `place`, which has none before. Before the search, members are narrowed
// through others by these steps (spreading::steps). Every support of a tuple of that member has a fresh tuple, and has one afterwards.
pub fn first_support(
    variables: &[u16],
    values: &[Value],
    starts: &Starts,
    index: &Index,
    words: &Words,
    members: &[u16],
    place: usize,
    own: u16,
    low: Indices,
    steps: u64,
    fresh: &mut Words,
    candidates: &mut Words,
    spare: &mut Words,
) -> Found
    requires long { Long words.now × Seeking (searching (λ x. x.now) variables values starts words members place own low) index.now }
    requires long_2 { Long fresh.old × FreshFrom (searching (λ x. x.now) variables values starts words members place own low) fresh.old }
    requires long_3 { Long candidates.old × Long spare.old }
    ensures finds_first { FindsFirst (searching entry variables values starts words members place own low) result }
    ensures long_4 { Long fresh.new × MeetsBeside (searching entry variables values starts words members place own low) fresh.new }
    ensures long_5 { Long candidates.new × Long spare.new }
{
    let none = Found {
        tuples: low,
        kind: NONE,
    };
    let r = members[place];
    if !is_live(words, tuple_start(starts, r) + own) {
        return none;
    }
    let stage = past_own(place, own, 0, low);
    let k = stage.k;
    let tuples = stage.chosen;
    if k == members.len() {
        return Found {
            tuples,
            kind: FOUND,
        };
    }
    if place_behind(place, k) == members.len() {
        return search_last(
            variables, values, starts, index, words, members, place, own, low, k, tuples,
        );
    }
    put_back(words, candidates, words_for(tuple_count(starts)));
    if !narrow_members(
        variables, values, starts, index, candidates, members, place, 0, r, own,
    ) {
        return none;
    }
    let all_fresh = is_live(fresh, tuple_start(starts, r));
    if !spread_members(
        variables,
        values,
        starts,
        index,
        candidates,
        members,
        place,
        0,
        steps_before(all_fresh, steps),
        FEW,
    ) {
        return none;
    }
    let found = if all_fresh {
        search(
            variables, values, starts, index, candidates, members, place, own, low, k, true,
            tuples, spare,
        )
    } else {
        search_fresh(
            variables, values, starts, index, candidates, members, place, own, low, steps, fresh,
            spare,
        )
    };
    if 2 * LONG <= found.kind {
        let tuples = found.tuples;
        note(
            variables,
            values,
            starts,
            candidates,
            members,
            place,
            own,
            k,
            found.kind % 2 == FOUND,
            tuples[k],
            fresh,
        );
    }
    found
}
