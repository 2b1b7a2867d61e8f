// Every connected combination of a network, listed in order. Relations are chosen one after the other, and of each member chosen the
// neighbours of all that it reaches are kept: the last member is one that every such set holds.
#![tactic(auto)]

ghost use Rattle.std.specs.Prelude.{◌≡◌, ◌+◌, ◌≤◌, length};
ghost use Rattle.std.proofs.Math.Seq.{paste};
ghost use Rattle.model.specs.Limits.{max_members};
ghost use Rattle.model.specs.Edges.{max_member_list};
ghost use Rattle.model.specs.Enumeration.{connected_combinations, enumerated, Enumerates};
ghost use Rattle.layout.specs.Loan.{entry};
ghost use Rattle.layout.specs.Shape.{network_of};
ghost use Rattle.layout.specs.Setting.{lists, network_in, SoundLists};
ghost use Rattle.enumeration.specs.Adds.{Adds};
ghost use Rattle.enumeration.specs.Found.{Found, listed_in};

use combination::masks;
use extension::{extend, paste};
use layout::{Shape, Starts, relation_count, starts_of, wide};
use model::{Enumeration, MAX_COMBINATIONS, MAX_MEMBERS, MIN_MEMBERS, Value, refusal};
use neighbours::neighbours;
use network::faults::fault;
use sets::SETS;

pub mod neighbours; // which relations share a variable
pub mod sets; // what members chosen reach
pub mod extension; // relations chosen one after the other

// The members of as many combinations as there may be.
pub const MEMBER_LIST: usize = MAX_COMBINATIONS * MAX_MEMBERS;

// Writes the connected combinations of m members to the front of the list, and gives their number; or 257, if they are more than 256.
fn list_all(variables: &[u16], values: &[Value], starts: &Starts, m: usize, list: &mut [u16]) -> u16
    requires { SoundLists (lists (λ x. x.now) variables values starts) × ((2 ≤ m) × (m ≤ max_members)) × (length list.old ≡ max_member_list) }
    ensures { Adds m (connected_combinations (network_in (lists entry variables values starts)) m) 0 list.old result list.new }
{
    let count = relation_count(starts);
    let near = neighbours(&masks(variables, values, starts), count);
    extend(&near, count, m, [0; MAX_MEMBERS], 0, &[0; SETS], 0, list, 0)
}

// The answer of the call that is lent room for so many numbers; what it lists stands in front of the list here.
pub fn enumerate(
    shape: Shape,
    variables: &[u16],
    values: &[Value],
    m: u16,
    room: usize,
    list: &mut [u16],
) -> Enumeration
    requires { length list.old ≡ max_member_list }
    ensures { Found result (network_of shape variables.now values.now) m room list.new }
{
    let f = fault(shape, variables, values);
    if f != 0 {
        return Enumeration::Refused(f);
    }
    let each = wide(m);
    if each < MIN_MEMBERS {
        return Enumeration::Refused(refusal::MEMBER_COUNT);
    }
    if MAX_MEMBERS < each {
        return Enumeration::Refused(refusal::MEMBER_COUNT);
    }
    let starts = starts_of(shape);
    let n = list_all(variables, values, &starts, each, list);
    if MAX_COMBINATIONS < wide(n) {
        return Enumeration::Refused(refusal::TOO_MANY);
    }
    if room < wide(n) * each {
        return Enumeration::Refused(refusal::ROOM);
    }
    Enumeration::Listed(n)
}

// How many combinations are listed: none after a refusal.
pub fn listed(a: Enumeration) -> usize
    ensures { result ≡ listed_in a }
{
    match a {
        Enumeration::Listed(n) => wide(n),
        Enumeration::Refused(f) => 0,
    }
}

// Lists every connected combination of m members, in order, in front of the list.
pub fn combinations(
    shape: Shape,
    variables: &[u16],
    values: &[Value],
    m: u16,
    list: &mut [u16],
) -> Enumeration
    ensures { Enumerates (network_of shape variables.now values.now) m list.old (enumerated result list.new) }
{
    let mut found = [0u16; MEMBER_LIST];
    let a = enumerate(shape, variables, values, m, list.len(), &mut found);
    paste(list, 0, &found, listed(a) * wide(m));
    a
}
