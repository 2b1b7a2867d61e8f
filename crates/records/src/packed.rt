// The calls on the records' parts, with their answers as one number.
ghost use Rattle.std.specs.Prelude.{◌≡◌, ◌<◌};
ghost use Rattle.model.specs.Request.{filter, withdraw, choose, choose_several};
ghost use Rattle.model.specs.Reply.{answer_numbers, Tested, Compared};
ghost use Rattle.model.specs.Enumeration.{Enumerates};
ghost use Rattle.layout.specs.Shape.{network_of, instance_of};
ghost use Rattle.encoding.specs.Packed.{pair_in, enumerated_in};
ghost use Rattle.records.specs.Packed.{RepliesDone, written_for, done_with};

use super::{Done, Parts, at_most_64};
use encoding::packing::{pack, pack_comparison, pack_enumeration, pack_verdict};
use model::{Answer, Value};

// Of how many relations the live counts are to be written: of all n, or of none after a refusal.
fn written_for(a: Answer, n: usize) -> usize
    ensures { result ≡ written_for (answer_numbers a) n }
{
    match a {
        Answer::Settled(k) => n,
        Answer::Emptied(r, k) => n,
        Answer::Refused(f) => 0,
    }
}

// The answer packed, with the live counts of n relations.
fn done(a: Answer, n: usize, live: [u16; 64]) -> Done
    requires { (answer_numbers a).subject < 256 }
    ensures { result ≡ done_with a n live }
{
    let answer = pack(a);
    let written = written_for(a, n);
    Done {
        answer,
        written,
        live,
    }
}

// Filters what lives.
pub fn filter(
    parts: Parts,
    variables: &[u16],
    values: &[Value],
    m: u16,
    members: &[u16],
    words: &mut [u64],
    supports: &mut [u16],
) -> Done
    ensures { RepliesDone result parts (instance_of parts.shape variables.now values.now m members.now) words supports filter }
{
    let shape = parts.shape;
    let n = at_most_64(shape.count);
    let mut live = parts.live;
    let a = changes::filter(
        shape,
        variables,
        values,
        m,
        members,
        words,
        supports,
        &mut live[..n],
    );
    done(a, n, live)
}

// Withdraws the tuples listed, live or dead, and filters what then lives.
pub fn withdraw(
    parts: Parts,
    variables: &[u16],
    values: &[Value],
    m: u16,
    members: &[u16],
    words: &mut [u64],
    supports: &mut [u16],
    ids: &[u16],
) -> Done
    ensures { RepliesDone result parts (instance_of parts.shape variables.now values.now m members.now) words supports (withdraw ids.now) }
{
    let shape = parts.shape;
    let n = at_most_64(shape.count);
    let mut live = parts.live;
    let a = changes::withdraw(
        shape,
        variables,
        values,
        m,
        members,
        words,
        supports,
        &mut live[..n],
        ids,
    );
    done(a, n, live)
}

// Withdraws every tuple that has another value than v under variable x, and filters what then lives.
pub fn choose(
    parts: Parts,
    variables: &[u16],
    values: &[Value],
    m: u16,
    members: &[u16],
    words: &mut [u64],
    supports: &mut [u16],
    x: u16,
    v: Value,
) -> Done
    ensures { RepliesDone result parts (instance_of parts.shape variables.now values.now m members.now) words supports (choose x v) }
{
    let shape = parts.shape;
    let n = at_most_64(shape.count);
    let mut live = parts.live;
    let a = changes::choose(
        shape,
        variables,
        values,
        m,
        members,
        words,
        supports,
        &mut live[..n],
        x,
        v,
    );
    done(a, n, live)
}

// Withdraws every tuple that has, under a variable of xs, another value than vs has in the same place, and filters what then lives.
pub fn choose_several(
    parts: Parts,
    variables: &[u16],
    values: &[Value],
    m: u16,
    members: &[u16],
    words: &mut [u64],
    supports: &mut [u16],
    xs: &[u16],
    vs: &[Value],
) -> Done
    ensures { RepliesDone result parts (instance_of parts.shape variables.now values.now m members.now) words supports (choose_several xs.now vs.now) }
{
    let shape = parts.shape;
    let n = at_most_64(shape.count);
    let mut live = parts.live;
    let a = changes::choose_several(
        shape,
        variables,
        values,
        m,
        members,
        words,
        supports,
        &mut live[..n],
        xs,
        vs,
    );
    done(a, n, live)
}

// Whether the live tuples are consistent.
pub fn test(
    parts: Parts,
    variables: &[u16],
    values: &[Value],
    m: u16,
    members: &[u16],
    words: &[u64],
) -> u64
    ensures { Tested (instance_of parts.shape variables.now values.now m members.now) words.now (pair_in result) }
{
    pack_verdict(consistency::test(parts.shape, variables, values, m, members, words))
}

// Compares the tuples with ids g and h.
pub fn compare(parts: Parts, variables: &[u16], values: &[Value], g: u16, h: u16) -> u64
    ensures { Compared (network_of parts.shape variables.now values.now) g h (pair_in result) }
{
    pack_comparison(network::comparison::compare(parts.shape, variables, values, g, h))
}

// Lists every connected combination of m members in front of the list.
pub fn combinations(
    parts: Parts,
    variables: &[u16],
    values: &[Value],
    m: u16,
    list: &mut [u16],
) -> u64
    ensures { Enumerates (network_of parts.shape variables.now values.now) m list.old (enumerated_in result list.new) }
{
    pack_enumeration(enumeration::combinations(parts.shape, variables, values, m, list))
}
