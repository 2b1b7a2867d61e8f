// Combinations of relations: what is wrong with those listed, whether one is connected, and how many numbers their supports need.
#![tactic(auto)]

ghost use Rattle.std.specs.Prelude.{◌≡◌, true, ℕ, ◌≤◌, ltb};
ghost use Rattle.model.specs.Limits.{max_relations, variable_count};
ghost use Rattle.model.specs.Lists.{all, pairwise, elem};
ghost use Rattle.model.specs.LiveWords.{is_set};
ghost use Rattle.model.specs.Combination.{combinations};
ghost use Rattle.model.specs.Consistency.{needed};
ghost use Rattle.model.specs.Fault.{combination_faults, first_fault, refusal};
ghost use Rattle.layout.specs.Loan.{entry};
ghost use Rattle.layout.specs.Starts.{outline, SoundStarts};
ghost use Rattle.layout.specs.Setting.{lists, network_in, setting, instance_in, SoundLists, SoundPairs};
ghost use Rattle.combination.specs.Masks.{Masks, meets, connected_in, known, absorbed};
ghost use Rattle.combination.specs.Proper.{below, proper};
ghost use Rattle.combination.specs.Refusals.{words_refusal, supports_refusal};

use layout::{Starts, relation_count, tuple_start, variable_start, wide};
use live::words_for;
use model::{
    MAX_COMBINATIONS, MAX_MEMBERS, MAX_RELATIONS, MAX_SUPPORT_NUMBERS, MIN_MEMBERS, Value, refusal,
};

// Of each relation a set of variables.
pub type Masks = [u64; MAX_RELATIONS];

// The set of a scope's variables: variable x is bit x.
pub fn mask_of(scope: &[u16]) -> u64
    requires { all (λ (x : ℕ). ltb x variable_count) scope.now ≡ true }
    ensures { (x : ℕ) → is_set result x ≡ elem x scope.now }
{
    let mut mask: u64 = 0;
    for x in scope {
        mask |= 1u64 << *x;
    }
    mask
}

// Of each relation the set of its scope's variables.
pub fn masks(variables: &[u16], values: &[Value], starts: &Starts) -> Masks
    requires { SoundLists (lists (λ x. x.now) variables values starts) }
    ensures { Masks (network_in (lists entry variables values starts)) result }
{
    let count = relation_count(starts);
    let mut sets = [0u64; MAX_RELATIONS];
    for r in 0..count {
        let scope = variable_start(starts, r);
        let scope_end = variable_start(starts, r + 1);
        sets[wide(r)] = mask_of(&variables[scope..scope_end]);
    }
    sets
}

// The set with the variables of every member that it meets by the time the pass comes to it.
fn absorb(masks: &Masks, members: &[u16], set: u64) -> u64
    requires { below max_relations members.now ≡ true }
    ensures { result ≡ absorbed masks.now members.now set }
{
    let mut grown = set;
    for r in members {
        let mask = masks[wide(*r)];
        if mask & grown != 0 {
            grown |= mask;
        }
    }
    grown
}

// Whether every member has a variable of the set.
fn all_meet(masks: &Masks, members: &[u16], set: u64) -> bool
    requires { below max_relations members.now ≡ true }
    ensures { result ≡ all (meets masks.now set) members.now }
{
    for r in members {
        if masks[wide(*r)] & set == 0 {
            return false;
        }
    }
    true
}

// Whether the combination is connected.
fn connected(masks: &Masks, members: &[u16]) -> bool
    requires { all (known masks.now) members.now ≡ true }
    ensures { result ≡ connected_in masks.now members.now }
{
    if members.is_empty() {
        return true;
    }
    let mut reached = masks[wide(members[0])];
    loop {
        let next = absorb(masks, members, reached);
        if next == reached {
            return all_meet(masks, members, reached);
        }
        reached = next;
    }
}

// Whether every member is below count.
pub fn all_below(count: usize, members: &[u16]) -> bool
    ensures { result ≡ below count members.now }
{
    members.iter().all(|r| wide(*r) < count)
}

// Whether the members rise.
fn rising(members: &[u16]) -> bool
    ensures { result ≡ pairwise ltb members.now }
{
    members.is_sorted_by(|r, s| *r < *s)
}

// Whether the members of one combination exist and rise.
fn proper(count: usize, members: &[u16]) -> bool
    ensures { result ≡ proper count members.now }
{
    all_below(count, members) && rising(members)
}

// Whether the members of every combination exist and rise.
fn all_proper(count: usize, m: usize, members: &[u16]) -> bool
    requires { 1 ≤ m }
    ensures { result ≡ all (proper count) (combinations m members.now) }
{
    for c in members.chunks_exact(m) {
        if !proper(count, c) {
            return false;
        }
    }
    true
}

// Whether every combination is connected.
fn all_connected(masks: &Masks, m: usize, members: &[u16]) -> bool
    requires le_m { 1 ≤ m }
    requires members_value { all (all (known masks.now)) (combinations m members.now) ≡ true }
    ensures { result ≡ all (connected_in masks.now) (combinations m members.now) }
{
    for c in members.chunks_exact(m) {
        if !connected(masks, c) {
            return false;
        }
    }
    true
}

// The number of the combinations' first fault, 7 to 10, or 0.
pub fn fault(variables: &[u16], values: &[Value], starts: &Starts, m: u16, members: &[u16]) -> u8
    requires { SoundLists (lists (λ x. x.now) variables values starts) }
    ensures { result ≡ refusal (first_fault (combination_faults (instance_in (setting entry variables values starts members m)))) }
{
    let each = wide(m);
    if each < MIN_MEMBERS {
        return refusal::MEMBER_COUNT;
    }
    if MAX_MEMBERS < each {
        return refusal::MEMBER_COUNT;
    }
    if members.len() % each != 0 {
        return refusal::COMBINATIONS;
    }
    if MAX_COMBINATIONS < members.len() / each {
        return refusal::COMBINATIONS;
    }
    if !all_proper(wide(relation_count(starts)), each, members) {
        return refusal::MEMBERS;
    }
    let sets = masks(variables, values, starts);
    if !all_connected(&sets, each, members) {
        return refusal::UNCONNECTED;
    }
    0
}

// How many numbers the supports need.
pub fn needed(starts: &Starts, members: &[u16], m: u16) -> usize
    requires { SoundStarts starts.now × SoundPairs starts.now m members.now }
    ensures { result ≡ needed (outline starts.now) (combinations m members.now) }
{
    let mut tuples = 0;
    for r in members {
        tuples += wide(tuple_start(starts, *r + 1) - tuple_start(starts, *r));
    }
    tuples * wide(m)
}

// 11 if so many live words are too few for so many tuples, or 0.
pub fn words_fault(tuples: u16, words: usize) -> u8
    ensures { result ≡ words_refusal tuples words }
{
    if words < words_for(tuples) {
        return refusal::WORDS;
    }
    0
}

// 12 if the supports need too many numbers, or more than those lent; or 0.
pub fn supports_fault(count: usize, numbers: usize) -> u8
    ensures { result ≡ supports_refusal count numbers }
{
    if MAX_SUPPORT_NUMBERS < count {
        return refusal::SUPPORTS;
    }
    if numbers < count {
        return refusal::SUPPORTS;
    }
    0
}
