// Lean words: the live words without the tuples of other members that have an earlier double. Such a tuple is in no first support: with the
// double put in its place there is an earlier one.
#![tactic(auto)]

ghost use Rattle.std.specs.Prelude.{◌<◌};
ghost use Rattle.model.specs.Limits.{max_relations};
ghost use Rattle.layout.specs.Loan.{entry};
ghost use Rattle.layout.specs.Setting.{lists, SoundLists};
ghost use Rattle.narrowing.specs.Narrows.{Long};
ghost use Rattle.lean.specs.Lean.{Thinned, LeanAt, LeanFrom};

use doubles::alike::variables_from;
use doubles::{PLACES, first_alike};
use layout::{Starts, tuple_start};
use live::{Words, clear, next};
use model::{NO_SUPPORT, Value};

// The words become lean once the hard searches have tried so many choices: what it costs is won back then.
const CHOICES: u16 = 512;

const MOST: u16 = 32768;

// Of relation r, each live tuple falls that has the values of an earlier one under the variables of the set.
fn thin(
    variables: &[u16],
    values: &[Value],
    starts: &Starts,
    r: u16,
    common: u64,
    words: &mut Words,
)
    requires { Long words.old × (SoundLists (lists (λ x. x.now) variables values starts) × (r < max_relations)) }
    ensures { Thinned (lists entry variables values starts) common r words.old words.new }
{
    let first = tuple_start(starts, r);
    let end = tuple_start(starts, r + 1);
    let mut kept = [NO_SUPPORT; PLACES];
    let mut g = next(words, first, end);
    // stays a while: the loop writes the words that it goes over
    while g < end {
        let x = g - first;
        if first_alike(variables, values, starts, &mut kept, r, x, common) < x {
            clear(words, g);
        }
        g = next(words, g + 1, end);
    }
}

// Of each member but the one at `place`, the tuples fall that have an earlier double.
fn without_doubles(
    variables: &[u16],
    values: &[Value],
    starts: &Starts,
    members: &[u16],
    place: usize,
    words: &mut Words,
)
    requires { Long words.old × LeanAt (lists (λ x. x.now) variables values starts) members.now place }
    ensures { LeanFrom (lists entry variables values starts) members.now place words.old words.new }
{
    for (j, r) in members.iter().enumerate() {
        if j != place {
            let common = variables_from(variables, values, starts, members, j, 0);
            thin(variables, values, starts, *r, common, words);
        }
    }
}

// How many choices the searches have tried, with one more search by its kind: half of it. More than MOST are not counted.
fn with_search(tried: u16, kind: u16) -> u16 {
    if MOST <= tried {
        return tried;
    }
    tried + kind / 2
}

// The same; once they are CHOICES the doubles fall.
pub fn lean_once_hard(
    variables: &[u16],
    values: &[Value],
    starts: &Starts,
    members: &[u16],
    place: usize,
    kind: u16,
    tried: u16,
    words: &mut Words,
) -> u16
    requires { Long words.old × LeanAt (lists (λ x. x.now) variables values starts) members.now place }
    ensures { LeanFrom (lists entry variables values starts) members.now place words.old words.new }
{
    if CHOICES <= tried {
        return with_search(tried, kind);
    }
    let all = tried + kind / 2;
    if CHOICES <= all {
        without_doubles(variables, values, starts, members, place, words);
    }
    all
}
