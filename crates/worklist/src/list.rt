// The support list: for each tuple of each pair's member m numbers, which are the indices of its support's tuples. A dead tuple's
// numbers are 65,535.
ghost use Rattle.std.specs.Prelude.{◌≡◌, ◌++◌, ◌+◌, ◌-◌, ◌≤◌, length, take, drop, replicate};
ghost use Rattle.model.specs.Limits.{max_members, no_support};
ghost use Rattle.layout.specs.Starts.{SoundStarts};
ghost use Rattle.layout.specs.Setting.{SoundPairs};
ghost use Rattle.worklist.specs.Supports.{replaced, SupportsFit, PairsBegin, Chosen, all_live};

use layout::{Starts, tuple_start};
use live::is_live;
use model::{MAX_MEMBERS, NO_SUPPORT};

// The tuples of a support by their indices, one for each member.
pub type Indices = [u16; MAX_MEMBERS];

// An entry for each of 1,024 pairs, and one behind them.
pub const PAIR_STARTS: usize = 1025;

pub type PairStarts = [u16; PAIR_STARTS];

// Sets the first n numbers to 65,535; all others stay.
pub fn fill(numbers: &mut [u16], n: usize)
    requires { n ≤ length numbers.old }
    ensures { numbers.new ≡ replicate n no_support ++ drop n numbers.old }
{
    numbers[..n].fill(NO_SUPPORT);
}

// The m numbers from `at` on, and noughts behind them. All places are gone through, of which there are few and always as many: so they are
// kept in registers, and not in an array that is written bit by bit and read whole just after.
pub fn load(numbers: &[u16], at: usize, m: usize) -> Indices
    requires { (at + m ≤ length numbers.now) × (m ≤ max_members) }
    ensures { result ≡ take m (drop at numbers.now) ++ replicate (max_members - m) 0 }
{
    let mut tuples = [0u16; MAX_MEMBERS];
    for j in 0..MAX_MEMBERS {
        if j < m {
            tuples[j] = numbers[at + j];
        }
    }
    tuples
}

// Sets the m numbers from `at` on to the first m indices; all others stay.
pub fn store(numbers: &mut [u16], at: usize, m: usize, tuples: Indices)
    requires { (at + m ≤ length numbers.old) × (m ≤ max_members) }
    ensures { numbers.new ≡ replaced numbers.old (take m tuples) at m }
{
    numbers[at..at + m].copy_from_slice(&tuples[..m]);
}

// Sets the m numbers from `at` on to 65,535; all others stay.
pub fn blank(numbers: &mut [u16], at: usize, m: usize)
    requires { (at + m ≤ length numbers.old) × (m ≤ max_members) }
    ensures { numbers.new ≡ replaced numbers.old (replicate m no_support) at m }
{
    numbers[at..at + m].fill(NO_SUPPORT);
}

// Where each pair's numbers begin in the support list, and behind the last pair how many numbers there are.
pub fn pair_starts(starts: &Starts, members: &[u16], m: u16) -> PairStarts
    requires { SoundStarts starts.now × SoundPairs starts.now m members.now × SupportsFit starts.now m members.now }
    ensures { PairsBegin starts.now m members.now result }
{
    let mut begins = [0u16; PAIR_STARTS];
    for (p, r) in members.iter().enumerate() {
        let size = tuple_start(starts, *r + 1) - tuple_start(starts, *r);
        begins[p + 1] = begins[p] + size * m;
    }
    begins
}

// Whether the tuples with these indices are live, one of each of the m members from `base` on.
pub fn all_live(
    words: &[u64],
    starts: &Starts,
    members: &[u16],
    base: usize,
    m: usize,
    tuples: Indices,
) -> bool
    requires { Chosen words.now starts.now members.now base m tuples }
    ensures { result ≡ all_live words.now starts.now members.now base m tuples }
{
    for k in 0..m {
        let first = tuple_start(starts, members[base + k]);
        if !is_live(words, first + tuples[k]) {
            return false;
        }
    }
    true
}
