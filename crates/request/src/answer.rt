// What a change call answers.
ghost use Rattle.std.specs.Prelude.{◌≡◌, ◌≤◌};
ghost use Rattle.model.specs.TupleSet.{count};
ghost use Rattle.model.specs.Reply.{lowest_empty, answer_for};
ghost use Rattle.layout.specs.Starts.{outline};
ghost use Rattle.request.specs.Answer.{living_in, Covered, counts_of};

use layout::{Starts, relation_count, tuple_count, tuple_start};
use live::{count, next};
use model::{Answer, Counts};

// The lowest relation that has no live tuple; the number of relations if there is none.
fn lowest_empty(starts: &Starts, words: &[u64]) -> u16
    requires { Covered starts.now words.now }
    ensures { result ≡ lowest_empty (outline starts.now) (living_in starts.now words.now) }
{
    let relations = relation_count(starts);
    for r in 0..relations {
        let end = tuple_start(starts, r + 1);
        if next(words, tuple_start(starts, r), end) == end {
            return r;
        }
    }
    relations
}

// The answer once the filter is done: before tuples lived at entry, and kept of them after the change.
pub fn answer_for(starts: &Starts, words: &[u64], before: u16, kept: u16) -> Answer
    requires { Covered starts.now words.now × (count (living_in starts.now words.now) ≤ kept) × (kept ≤ before) }
    ensures { let L = living_in starts.now words.now in result ≡ answer_for (outline starts.now) L (counts_of before kept L) }
{
    let left = count(words, 0, tuple_count(starts));
    let withdrawn = before - kept;
    let deleted = kept - left;
    let counts = Counts {
        left,
        withdrawn,
        deleted,
    };
    let r = lowest_empty(starts, words);
    if r < relation_count(starts) {
        return Answer::Emptied(r, counts);
    }
    Answer::Settled(counts)
}
