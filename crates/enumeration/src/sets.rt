// Of each member chosen the neighbours of all that it reaches among those chosen.
ghost use Rattle.std.specs.Prelude.{◌≡◌, cond, suc, ◌-◌, ◌≤◌, ◌<◌, length, take};
ghost use Rattle.std.specs.Int.Bits.{bit_and, bit_or};
ghost use Rattle.std.specs.Iterator.{at_most};
ghost use Rattle.model.specs.Limits.{max_relations};
ghost use Rattle.model.specs.LiveWords.{is_set};
ghost use Rattle.enumeration.specs.Reach.{max_sets, reach, widened, joined, Joining, Union, Common, next_in, extendable};
ghost use Rattle.enumeration.specs.Sets.{Ordered, TakesRelation};

use model::{MAX_MEMBERS, MIN_MEMBERS};

// Of so many members the sets are kept: of all but the last two.
pub const SETS: usize = MAX_MEMBERS - MIN_MEMBERS;

// A walk over the first k of them takes as many turns for every k: one of a fixed length is compiled to code without a loop.
pub type Sets = [u64; SETS];

// Every relation.
const EVERY: u64 = 0xffff_ffff_ffff_ffff;

// Whether relation r is in the set.
fn is_in(set: u64, r: u16) -> bool
    requires { r < max_relations }
    ensures { result ≡ is_set set r }
{
    (set >> r) % 2 == 1
}

// The set `all`, with the other one if relation r is in that.
fn grown(all: u64, set: u64, r: u16) -> u64
    requires { r < max_relations }
    ensures { result ≡ cond (is_set set r) (bit_or all set) all }
{
    if is_in(set, r) { all | set } else { all }
}

// The set of the member at place j once `all` is that of the one at place k: `all`, if it is that one or relation r is in its set.
fn widened(all: u64, set: u64, r: u16, j: usize, k: usize) -> u64
    requires { r < max_relations }
    ensures { result ≡ widened r all k j set }
{
    if j == k {
        return all;
    }
    if is_in(set, r) { all } else { set }
}

// What of `rest` is in the other set, or all of it if relation r is in that.
fn kept(rest: u64, set: u64, r: u16) -> u64
    requires { r < max_relations }
    ensures { result ≡ cond (is_set set r) rest (bit_and rest set) }
{
    if is_in(set, r) { rest } else { rest & set }
}

// The set `own`, with every one of the first k sets that relation r is in.
fn reach(sets: &Sets, k: usize, r: u16, own: u64) -> u64
    requires { (length sets.now ≡ max_sets) × ((k ≤ max_sets) × (r < max_relations)) }
    ensures { result ≡ reach r own (take k sets.now) }
{
    let mut all = own;
    for (j, set) in sets.iter().enumerate() {
        if j < k {
            all = grown(all, *set, r);
        }
    }
    all
}

// The sets of k members and of relation r, whose neighbours are `own`.
pub fn joined(sets: &Sets, k: usize, r: u16, own: u64) -> Sets
    requires { (length sets.now ≡ max_sets) × ((k < max_sets) × (r < max_relations)) }
    ensures { take (suc k) result ≡ joined r own (take k sets.now) }
{
    let all = reach(sets, k, r, own);
    let mut next = [0u64; SETS];
    for (j, set) in sets.iter().enumerate() {
        next[j] = widened(all, *set, r, j, k);
    }
    next
}

// The relations that are in some of the first k sets.
pub fn union(sets: &Sets, k: usize) -> u64
    requires { (length sets.now ≡ max_sets) × (k ≤ max_sets) }
    ensures { Union result (take k sets.now) }
{
    let mut some: u64 = 0;
    for (j, set) in sets.iter().enumerate() {
        if j < k {
            some |= *set;
        }
    }
    some
}

// The relations that are in each of the first k sets.
pub fn common(sets: &Sets, k: usize) -> u64
    requires { (length sets.now ≡ max_sets) × (k ≤ max_sets) }
    ensures { Common result (take k sets.now) }
{
    let mut all: u64 = EVERY;
    for (j, set) in sets.iter().enumerate() {
        if j < k {
            all &= *set;
        }
    }
    all
}

// The relations that are in every set of k members and of relation r, whose neighbours are `own`.
fn joining(sets: &Sets, k: usize, r: u16, own: u64) -> u64
    requires { (length sets.now ≡ max_sets) × ((k ≤ max_sets) × (r < max_relations)) }
    ensures { Joining result r own (take k sets.now) }
{
    let mut all = own;
    let mut rest: u64 = EVERY;
    for (j, set) in sets.iter().enumerate() {
        if j < k {
            all = grown(all, *set, r);
            rest = kept(rest, *set, r);
        }
    }
    all & rest
}

// What `joining` gives, if these relations are in some and in each of the sets: most relations are in none.
pub fn candidates(sets: &Sets, k: usize, some: u64, all: u64, r: u16, own: u64) -> u64
    requires sets_len { (length sets.now ≡ max_sets) × ((k ≤ max_sets) × (r < max_relations)) }
    requires union { Union some (take k sets.now) × Common all (take k sets.now) }
    ensures { Joining result r own (take k sets.now) }
{
    if is_in(some, r) {
        return joining(sets, k, r, own);
    }
    own & all
}

// The first relation of the set from `from` on and below count; count if there is none.
pub fn next_in(set: u64, from: u16, count: u16) -> u16
    requires { (from ≤ count) × (count ≤ max_relations) }
    ensures { result ≡ next_in set from count }
{
    if from == count {
        return count;
    }
    let rest = set >> from;
    if rest == 0 {
        return count;
    }
    let r = from + u64::trailing_zeros(rest) as u16;
    if r < count { r } else { count }
}

// The relations of the set from `at` on and below count, in their order.
#[derive(Clone, Copy)]
pub struct Relations {
    pub set: u64,
    pub at: u16,
    pub count: u16,
    ghost ordered: { Ordered at count },
}

impl Iterator for Relations {
    type Item = u16;

    ghost next_gives = { λ s o t. TakesRelation s.set s.at s.count o t.set t.at t.count };

    ghost remaining = { λ s. at_most (s.count - s.at) };

    #[tactic(auto, using(crate::proofs::Last::next_from, crate::proofs::Last::next_to))]
    fn next(&mut self) -> Option<u16> {
        let r = next_in(self.set, self.at, self.count);
        if r == self.count {
            return None;
        }
        self.at = r + 1;
        Some(r)
    }
}

// The relations of the set from `from` on and below count.
pub fn relations_in(set: u64, from: u16, count: u16) -> Relations
    requires { (from ≤ count) × (count ≤ max_relations) }
    ensures set { result.set ≡ set }
    ensures from { result.at ≡ from }
    ensures count { result.count ≡ count }
{
    Relations {
        set,
        at: from,
        count,
    }
}

// Whether each of the first k sets has a relation from r on.
pub fn extendable(sets: &Sets, k: usize, r: u16) -> bool
    requires { (length sets.now ≡ max_sets) × ((k ≤ max_sets) × (r < max_relations)) }
    ensures { result ≡ extendable (take k sets.now) r }
{
    for (j, set) in sets.iter().enumerate() {
        if j < k && *set >> r == 0 {
            return false;
        }
    }
    true
}
