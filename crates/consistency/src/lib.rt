// The call that tests whether the live tuples are consistent.
#![tactic(auto)]

ghost use Rattle.std.specs.Prelude.{◌≡◌};
ghost use Rattle.model.specs.Reply.{verdict_numbers, Tested};
ghost use Rattle.layout.specs.Loan.{entry};
ghost use Rattle.layout.specs.Shape.{instance_of};
ghost use Rattle.layout.specs.Setting.{setting, Sound};
ghost use Rattle.narrowing.specs.Narrows.{Long};
ghost use Rattle.support.specs.Search.{searching, Seeking, is_found};
ghost use Rattle.support.specs.Spent.{MeetsBeside};
ghost use Rattle.consistency.specs.Consistent.{lowest, has_support, PairAt, pair_consistent, all_consistent};

use layout::{Shape, Starts, tuple_count, tuple_start, wide};
use lean::lean_once_hard;
use live::ids::live_ids;
use live::{WORDS, Words, copied, words_for};
use model::{MAX_MEMBERS, Value, Verdict};
use request::checks::test_checked;
use spreading::steps::{steps_of_pair, steps_once_hard};
use support::{FOUND, first_support};
use value_index::{INDEX, Index, index_all};

// What the search of tuple `own` of the member at `place` came to, in the combination of these members: whether it has a support.
fn has_support(
    variables: &[u16],
    values: &[Value],
    starts: &Starts,
    index: &Index,
    words: &Words,
    members: &[u16],
    place: usize,
    own: u16,
    steps: u64,
    fresh: &mut Words,
    candidates: &mut Words,
    spare: &mut Words,
) -> u16
    requires long { Long words.now × Seeking (searching (λ x. x.now) variables values starts words members place own (lowest place own)) index.now }
    requires long_2 { Long fresh.old × MeetsBeside (searching (λ x. x.now) variables values starts words members place own (lowest place own)) fresh.old }
    requires long_3 { Long candidates.old × Long spare.old }
    ensures result_value { is_found result ≡ has_support (searching entry variables values starts words members place own (lowest place own)) }
    ensures long_4 { Long fresh.new × MeetsBeside (searching entry variables values starts words members place own (lowest place own)) fresh.new }
    ensures long_5 { Long candidates.new × Long spare.new }
{
    let mut low = [0u16; MAX_MEMBERS];
    low[place] = own;
    let found = first_support(
        variables, values, starts, index, words, members, place, own, low, steps, fresh,
        candidates, spare,
    );
    found.kind
}

// Whether every live tuple of pair p's member has a support in the pair's combination.
fn pair_supported(
    variables: &[u16],
    values: &[Value],
    starts: &Starts,
    index: &Index,
    words: &Words,
    members: &[u16],
    m: usize,
    p: usize,
) -> bool
    requires { Long words.now × PairAt (setting (λ x. x.now) variables values starts members m) index.now p }
    ensures { result ≡ pair_consistent (setting entry variables values starts members m) words.now p }
{
    let mut steps = steps_of_pair(index, members, m, p);
    let base = p / m * m;
    let stop = base + m;
    let r = members[p];
    let first = tuple_start(starts, r);
    let end = tuple_start(starts, r + 1);
    let mut lean = *words;
    let mut tried = 0;
    let mut fresh = [!0u64; WORDS];
    let mut candidates = [0u64; WORDS];
    let mut spare = [0u64; WORDS];
    for g in live_ids(words, first, end) {
        let kind = has_support(
            variables,
            values,
            starts,
            index,
            &lean,
            &members[base..stop],
            p % m,
            g - first,
            steps,
            &mut fresh,
            &mut candidates,
            &mut spare,
        );
        if kind % 2 != FOUND {
            return false;
        }
        tried = lean_once_hard(
            variables,
            values,
            starts,
            &members[base..stop],
            p % m,
            kind,
            tried,
            &mut lean,
        );
        steps = steps_once_hard(
            variables,
            values,
            starts,
            index,
            &lean,
            &members[base..stop],
            p % m,
            tried,
            steps,
        );
    }
    true
}

// Whether the live tuples are consistent, of a network and combinations without fault.
pub fn all_supported(
    variables: &[u16],
    values: &[Value],
    starts: &Starts,
    members: &[u16],
    m: usize,
    words: &Words,
) -> bool
    requires { Long words.now × Sound (setting (λ x. x.now) variables values starts members m) }
    ensures { result ≡ all_consistent (setting entry variables values starts members m) words.now }
{
    let mut index = [0u64; INDEX];
    index_all(variables, values, starts, &mut index);
    (0..members.len()).all(|p| pair_supported(
        variables, values, starts, &index, words, members, m, p,
    ))
}

// Whether the live tuples are consistent: each has a support in every combination that holds its relation.
pub fn test(
    shape: Shape,
    variables: &[u16],
    values: &[Value],
    m: u16,
    members: &[u16],
    words: &[u64],
) -> Verdict
    ensures { Tested (instance_of shape variables.now values.now m members.now) words.now (verdict_numbers result) }
{
    let opening = test_checked(shape, variables, values, m, members, words.len());
    if opening.fault != 0 {
        return Verdict::Refused(opening.fault);
    }
    let starts = opening.starts;
    let live = copied(words, words_for(tuple_count(&starts)));
    if all_supported(variables, values, &starts, members, wide(m), &live) {
        return Verdict::Yes;
    }
    Verdict::No
}
