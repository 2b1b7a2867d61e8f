// Before a search: members that share no variable with the seeking tuple's relation are narrowed through the candidates of a member
// between, where those are few. The search would try them one by one.
#![tactic(auto)]

ghost use Rattle.std.specs.Prelude.{◌≡◌, ◌≤◌, ◌<◌, length, IfSome};
ghost use Rattle.layout.specs.Loan.{entry};
ghost use Rattle.layout.specs.Setting.{lists, network_in};
ghost use Rattle.layout.specs.Starts.{SoundStarts};
ghost use Rattle.bridging.specs.Bridge.{Three};
ghost use Rattle.narrowing.specs.Narrows.{Long, Searchable};
ghost use Rattle.spreading.specs.Spread.{Two, Spreads, Spreadable, Free, OtherFrom, SpreadsMembers};

use bridging::bridge;
use layout::{Starts, tuple_start};
use live::ids::live_ids;
use live::{WORDS, Words, count, next};
use model::Value;
use narrowing::gather::gather;
use narrowing::keep;
use steps::live_count;
use value_index::{Index, scope_bits};

// A member is narrowed through two others at once where these have at most so many candidates for each of its own, and so many more.
const SHARE: u32 = 16;

const WORTH: u32 = 64;

pub mod steps; // which members are narrowed through which
pub mod factor; // by which factor values are told apart
pub mod fresh; // members narrowed through tuples of which every support has one

// Relation s's ids narrowed to those that may agree with a live tuple of relation r, if those are not more than the limit. False where none
// of s's is live any more.
pub fn spread(
    variables: &[u16],
    values: &[Value],
    starts: &Starts,
    index: &Index,
    words: &mut Words,
    r: u16,
    s: u16,
    limit: u16,
) -> bool
    requires { Long words.old × (Searchable (lists (λ x. x.now) variables values starts) index.now × Two r s) }
    ensures { Spreads (network_in (lists entry variables values starts)) r s words.old words.new result }
{
    let first = tuple_start(starts, r);
    let end = tuple_start(starts, r + 1);
    if limit < count(words, first, end) {
        return true;
    }
    let mut sum = [0u64; WORDS];
    let given: &Words = words;
    for g in live_ids(given, first, end) {
        gather(
            variables,
            values,
            starts,
            index,
            given,
            &mut sum,
            r,
            g - first,
            s,
        );
    }
    let from = tuple_start(starts, s);
    let to = tuple_start(starts, s + 1);
    keep(&sum, words, 0, from, to);
    next(words, from, to) < to
}

// The first of `count` places from `from` on that is neither `place` nor j, if there is one.
fn other_from(count: usize, place: usize, j: usize, from: usize) -> Option<usize>
    ensures { IfSome result (λ n. (n < count) × OtherFrom count place j from n) }
{
    (from..count).find(|i| *i != place && *i != j)
}

// Whether relation r has so many live tuples that it is worth while to narrow it through those of s and t at once.
fn is_worth(starts: &Starts, words: &Words, r: u16, s: u16, t: u16) -> bool
    requires { Long words.now × (SoundStarts starts.now × Three r s t) }
{
    let through = u32::from(live_count(starts, words, s)) + u32::from(live_count(starts, words, t));
    through <= SHARE * u32::from(live_count(starts, words, r)) + WORTH
}

// Member j narrowed through two others at once, not the one at `place`. False where it has no live tuple left.
fn bridge_step(
    variables: &[u16],
    values: &[Value],
    starts: &Starts,
    index: &Index,
    words: &mut Words,
    members: &[u16],
    place: usize,
    from: usize,
    j: usize,
    factor: u64,
) -> bool
    requires long { Long words.old × Spreadable (lists (λ x. x.now) variables values starts) index.now members.now place }
    requires free { Free members.now place from j }
    ensures { SpreadsMembers (network_in (lists entry variables values starts)) members.now place from words.old words.new result }
{
    let Some(a) = other_from(members.len(), place, j, 0) else {
        return true;
    };
    let Some(b) = other_from(members.len(), place, j, a + 1) else {
        return true;
    };
    if !is_worth(starts, words, members[j], members[a], members[b]) {
        return true;
    }
    let own = scope_bits(index, members[place]);
    let both = own | scope_bits(index, members[j]);
    bridge(
        variables, values, starts, words, members[j], members[a], members[b], own, both, factor,
    )
}

// Member j narrowed through member i, if these are two places, and j is one from `from` on and not the seeking tuple's; through two others
// at once if i is the seeking tuple's. False where it has no live tuple left.
fn spread_step(
    variables: &[u16],
    values: &[Value],
    starts: &Starts,
    index: &Index,
    words: &mut Words,
    members: &[u16],
    place: usize,
    from: usize,
    i: usize,
    j: usize,
    limit: u16,
    factor: u64,
) -> bool
    requires { Long words.old × Spreadable (lists (λ x. x.now) variables values starts) index.now members.now place }
    ensures { SpreadsMembers (network_in (lists entry variables values starts)) members.now place from words.old words.new result }
{
    if members.len() <= i || members.len() <= j || i == j || j < from || j == place {
        return true;
    }
    if i == place {
        return bridge_step(
            variables, values, starts, index, words, members, place, from, j, factor,
        );
    }
    spread(
        variables, values, starts, index, words, members[i], members[j], limit,
    )
}

// Members from `from` on, but the one at `place`, narrowed through others, step by step. Four bits of `steps` are one: the place between, or
// `place` for two others at once, and four times the place that is narrowed. From bit 32 on stands the factor by which classes of values are told
// apart. False where a member has no live tuple left.
pub fn spread_members(
    variables: &[u16],
    values: &[Value],
    starts: &Starts,
    index: &Index,
    words: &mut Words,
    members: &[u16],
    place: usize,
    from: usize,
    steps: u64,
    limit: u16,
) -> bool
    requires { Long words.old × Spreadable (lists (λ x. x.now) variables values starts) index.now members.now place }
    ensures { SpreadsMembers (network_in (lists entry variables values starts)) members.now place from words.old words.new result }
{
    let factor = steps / 4294967296;
    let mut left = steps % 4294967296;
    // stays a while: the steps are taken off one number, from its low end
    while left != 0 {
        let i = (left % 4) as usize;
        let j = (left / 4 % 4) as usize;
        if !spread_step(
            variables, values, starts, index, words, members, place, from, i, j, limit, factor,
        ) {
            return false;
        }
        left /= 16;
    }
    true
}
