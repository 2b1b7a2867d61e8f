// The numbers of dead tuples in the support list: 65,535 each.
ghost use Rattle.std.specs.Prelude.{◌-◌, length};
ghost use Rattle.layout.specs.Starts.{outline};
ghost use Rattle.engine.specs.Blank.{Blank, Blanked, BlankAsks, BlankAllAsks};

use layout::{Starts, tuple_start, wide};
use worklist::list::{PairStarts, blank};

// The tuples with ids from `first` on and below `end` have m numbers each, one tuple behind the other from place `start` on. Those of
// a dead tuple become 65,535; all other numbers stay.
fn blank_dead(words: &[u64], numbers: &mut [u16], m: u16, first: u16, end: u16, start: usize)
    requires { BlankAsks m start first end words.now numbers.old }
    ensures { Blank m start first (end - first) words.now numbers.old numbers.new }
{
    let each = wide(m);
    let mut at = start;
    for g in first..end {
        if !live::is_live(words, g) {
            blank(numbers, at, each);
        }
        at += each;
    }
}

// The numbers of every dead tuple become 65,535; all other numbers stay.
pub fn blank_all(
    starts: &Starts,
    members: &[u16],
    m: u16,
    pair_starts: &PairStarts,
    words: &[u64],
    numbers: &mut [u16],
)
    requires { BlankAllAsks starts.now m members.now pair_starts.now words.now numbers.old }
    ensures { Blanked (outline starts.now) m members.now (length members.now) words.now numbers.old numbers.new }
{
    for (p, r) in members.iter().enumerate() {
        let first = tuple_start(starts, *r);
        let end = tuple_start(starts, *r + 1);
        blank_dead(words, numbers, m, first, end, wide(pair_starts[p]));
    }
}
