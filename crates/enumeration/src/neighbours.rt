// Which relations share a variable.
ghost use Rattle.std.specs.Prelude.{◌≡◌, ◌&&◌, ℕ, ◌≤◌, ◌<◌, ltb, get_or};
ghost use Rattle.model.specs.Limits.{max_relations};
ghost use Rattle.model.specs.LiveWords.{is_set};
ghost use Rattle.combination.specs.Masks.{meets};
ghost use Rattle.enumeration.specs.Reach.{Near, Tries};

use super::sets::relations_in;
use combination::Masks;
use layout::wide;
use model::MAX_RELATIONS;

// Of each relation the relations that share a variable with it: relation s is bit s.
pub type Neighbours = [u64; MAX_RELATIONS];

// The relations below count that have a variable of the set.
fn meeting(masks: &Masks, count: u16, set: u64) -> u64
    requires { count ≤ max_relations }
    ensures { (s : ℕ) → is_set result s ≡ (ltb s count && meets masks.now set s) }
{
    let mut found: u64 = 0;
    for s in 0..count {
        if masks[wide(s)] & set != 0 {
            found |= 1u64 << s;
        }
    }
    found
}

// Of each relation below count its neighbours, by the masks of all.
pub fn neighbours(masks: &Masks, count: u16) -> Neighbours
    requires { count ≤ max_relations }
    ensures { Near masks.now count result }
{
    let mut near = [0u64; MAX_RELATIONS];
    for r in 0..count {
        near[wide(r)] = meeting(masks, count, masks[wide(r)]);
    }
    near
}

// The set `some`, with the neighbours of each relation of the set `all` from `from` on.
pub fn tries(near: &Neighbours, count: u16, some: u64, all: u64, from: u16) -> u64
    requires { (from ≤ count) × (count ≤ max_relations) }
    ensures { Tries result near.now count some all from }
{
    let mut word = some;
    for s in relations_in(all, from, count) {
        word |= near[wide(s)];
    }
    word
}
