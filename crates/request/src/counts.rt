// The live counts of the relations: whether those lent are true, and true ones written.
ghost use Rattle.std.specs.Prelude.{◌≡◌, not, ◌<◌, length};
ghost use Rattle.model.specs.LiveCounts.{live_count, live_counts};
ghost use Rattle.model.specs.Fault.{untrue};
ghost use Rattle.layout.specs.Shape.{network_of};
ghost use Rattle.layout.specs.Starts.{outline, records_in};
ghost use Rattle.request.specs.Answer.{living_in, Covered};
ghost use Rattle.request.specs.Checks.{CountsChecked};
ghost use Rattle.request.specs.Plan.{Opens};

use super::checks::{Opening, checked};
use layout::{Shape, Starts, relation_count, tuple_start, wide};
use live::count;
use model::{Value, refusal};

// How many tuples of relation r are live.
fn live_count(starts: &Starts, words: &[u64], r: u16) -> u16
    requires { Covered starts.now words.now × (r < length (records_in starts.now)) }
    ensures { result ≡ live_count (outline starts.now) (living_in starts.now words.now) r }
{
    count(words, tuple_start(starts, r), tuple_start(starts, r + 1))
}

// Whether the counts are those of the live tuples, one for each relation.
fn counts_true(starts: &Starts, words: &[u64], counts: &[u16]) -> bool
    requires { Covered starts.now words.now }
    ensures { result ≡ not (untrue (outline starts.now) words.now counts.now) }
{
    let relations = relation_count(starts);
    if counts.len() != wide(relations) {
        return false;
    }
    for r in 0..relations {
        if counts[wide(r)] != live_count(starts, words, r) {
            return false;
        }
    }
    true
}

// The counts become those of the live tuples.
pub fn count_all(starts: &Starts, words: &[u64], counts: &mut [u16])
    requires { Covered starts.now words.now × (length counts.old ≡ length (records_in starts.now)) }
    ensures { counts.new ≡ live_counts (outline starts.now) (living_in starts.now words.now) }
{
    for r in 0..relation_count(starts) {
        counts[wide(r)] = live_count(starts, words, r);
    }
}

// The opening with fault 18, if it has none and the counts are untrue.
pub fn counted(opening: Opening, words: &[u64], counts: &[u16]) -> Opening
    requires { opening.fault ≡ 0 → Covered opening.starts words.now }
    ensures { CountsChecked opening words.now counts.now result }
{
    let fault = opening.fault;
    if fault != 0 {
        return opening;
    }
    let starts = opening.starts;
    if counts_true(&starts, words, counts) {
        return Opening { fault, starts };
    }
    Opening {
        fault: refusal::COUNT,
        starts,
    }
}

// The first fault that every change call tests, 2 to 12 or 18, or where the relations begin.
pub fn opened(
    shape: Shape,
    variables: &[u16],
    values: &[Value],
    m: u16,
    members: &[u16],
    words: &[u64],
    numbers: usize,
    counts: &[u16],
) -> Opening
    ensures { Opens result shape variables.now values.now m members.now (length words.now) numbers (untrue (network_of shape variables.now values.now) words.now counts.now) }
{
    let opening = checked(shape, variables, values, m, members, words.len(), numbers);
    counted(opening, words, counts)
}
