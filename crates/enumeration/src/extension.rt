// Relations chosen one after the other: every way to complete the members chosen so far.
ghost use Rattle.std.specs.Prelude.{◌≡◌, [], ◌∷◌, ◌++◌, suc, ◌+◌, ◌≤◌, ◌<◌, length, take, set};
ghost use Rattle.std.proofs.Math.Seq.{paste};
ghost use Rattle.model.specs.Limits.{max_members, max_combinations};
ghost use Rattle.model.specs.Edges.{max_member_list};
ghost use Rattle.enumeration.specs.Adds.{Adds};
ghost use Rattle.enumeration.specs.Stage.{Choice, Stage, last_extensions, extensions};

use super::neighbours::{Neighbours, tries};
use super::sets::{Sets, candidates, common, extendable, joined, relations_in, union};
use layout::{Members, put, wide};
use model::{MAX_COMBINATIONS, MAX_MEMBERS};

// Writes the first n numbers of s into the list, from place `at` on.
pub fn paste(list: &mut [u16], at: usize, s: &[u16], n: usize)
    requires { (at + n ≤ length list.old) × (n ≤ length s.now) }
    ensures { list.new ≡ paste list.old at s.now n }
{
    list[at..at + n].copy_from_slice(&s[..n]);
}

// Writes the first k members and r behind so many combinations, and gives the number of them then. As many numbers are always written, and
// those past r count for nothing.
fn add(list: &mut [u16], found: u16, members: Members, k: usize, r: u16) -> u16
    requires { (length list.old ≡ max_member_list) × ((k < max_members) × (found < max_combinations)) }
    ensures { Adds (suc k) ((take k members ++ (r ∷ [])) ∷ []) found list.old result list.new × (result ≡ found + 1) }
{
    let whole = put(members, k, r);
    paste(list, wide(found) * (k + 1), &whole, MAX_MEMBERS);
    found + 1
}

// The first k members with a last one from `from` on, each relation of the set, written behind the combinations found; gives the number
// of them then, or 257.
fn extend_last(
    set: u64,
    members: Members,
    k: usize,
    from: u16,
    count: u16,
    list: &mut [u16],
    found: u16,
) -> u16
    requires { Choice k from count list.old found }
    ensures { Adds (suc k) (last_extensions set members k from count) found list.old result list.new }
{
    let mut n = found;
    for r in relations_in(set, from, count) {
        if wide(n) == MAX_COMBINATIONS {
            return n + 1;
        }
        n = add(list, n, members, k, r);
    }
    n
}

// The first k members and relation r, with each of the set `last` behind r as the last one, written behind the combinations found; gives
// the number of them then, or 257. Mostly there is none, and then the members are not copied.
fn extend_by(
    last: u64,
    members: Members,
    k: usize,
    r: u16,
    count: u16,
    list: &mut [u16],
    found: u16,
) -> u16
    requires { Choice (k + 1) (r + 1) count list.old found }
    ensures { Adds (k + 2) (last_extensions last (set members k r) (k + 1) (r + 1) count) found list.old result list.new }
{
    if last >> r <= 1 {
        return found;
    }
    extend_last(last, put(members, k, r), k + 1, r + 1, count, list, found)
}

// What `extend` is called for, where two members are left to choose.
fn extend_two(
    near: &Neighbours,
    count: u16,
    m: usize,
    members: Members,
    k: usize,
    sets: &Sets,
    from: u16,
    list: &mut [u16],
    found: u16,
) -> u16
    requires { Stage near.now sets.now count m k from list.old found × (k + 2 ≡ m) }
    ensures { Adds m (extensions near.now sets.now members m k from count) found list.old result list.new }
{
    let some = union(sets, k);
    let all = common(sets, k);
    let tried = tries(near, count, some, all, from);
    let mut n = found;
    for r in relations_in(tried, from, count) {
        let last = candidates(sets, k, some, all, r, near[wide(r)]);
        n = extend_by(last, members, k, r, count, list, n);
        if MAX_COMBINATIONS < wide(n) {
            return n;
        }
    }
    n
}

// The first k of m members with relations from `from` on, each that connects all of them, written behind the combinations found; gives
// the number of them then, or 257.
pub fn extend(
    near: &Neighbours,
    count: u16,
    m: usize,
    members: Members,
    k: usize,
    sets: &Sets,
    from: u16,
    list: &mut [u16],
    found: u16,
) -> u16
    requires { Stage near.now sets.now count m k from list.old found }
    ensures { Adds m (extensions near.now sets.now members m k from count) found list.old result list.new }
{
    if k + 2 == m {
        return extend_two(near, count, m, members, k, sets, from, list, found);
    }
    let mut n = found;
    for r in from..count {
        if !extendable(sets, k, r) {
            return n;
        }
        let more = joined(sets, k, r, near[wide(r)]);
        n = extend(
            near,
            count,
            m,
            put(members, k, r),
            k + 1,
            &more,
            r + 1,
            list,
            n,
        );
        if MAX_COMBINATIONS < wide(n) {
            return n;
        }
    }
    n
}
