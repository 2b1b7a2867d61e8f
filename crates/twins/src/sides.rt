// Sides: without the member of a pair, the other members of its combination may fall apart into two groups that share no variable.
ghost use Rattle.std.specs.Prelude.{◌≡◌, false, ◌≤◌, ◌<◌, length};
ghost use Rattle.model.specs.Limits.{max_members};
ghost use Rattle.model.specs.LiveWords.{is_set};
ghost use Rattle.layout.specs.Loan.{entry};
ghost use Rattle.layout.specs.Setting.{lists, network_in, setting};
ghost use Rattle.doubles.specs.Alike.{MembersIn, PairAt};
ghost use Rattle.twins.specs.Sides.{Put, Divides, Sided};

use doubles::alike::variables_of;
use layout::{Starts, wide};
use model::Value;

// Two sides: the variables that the members of either have, and the places of those of the far one, which may be none.
#[derive(Clone, Copy)]
pub struct Sides {
    pub near: u64,
    pub far: u64,
    pub places: u64,
}

// Member j put to the near side, unless that has members and shares no variable with it: then to the far one.
fn put_member(sides: Sides, j: usize, mask: u64) -> Sides
    requires { (j < max_members) × (is_set sides.places j ≡ false) }
    ensures { Put sides j mask result }
{
    if sides.near != 0 && mask & sides.near == 0 {
        return Sides {
            far: sides.far | mask,
            places: sides.places | (1u64 << j),
            ..sides
        };
    }
    Sides {
        near: sides.near | mask,
        ..sides
    }
}

// The members but one put to either side.
fn divided(
    variables: &[u16],
    values: &[Value],
    starts: &Starts,
    members: &[u16],
    place: usize,
) -> Sides
    requires { MembersIn (lists (λ x. x.now) variables values starts) members.now × (length members.now ≤ max_members) }
    ensures { Divides (network_in (lists entry variables values starts)) members.now (length members.now) place result }
{
    let mut sides = Sides {
        near: 0,
        far: 0,
        places: 0,
    };
    for (j, r) in members.iter().enumerate() {
        if j != place {
            let mask = variables_of(variables, values, starts, *r);
            sides = put_member(sides, j, mask);
        }
    }
    sides
}

// The sides of pair p's combination, if they share no variable; otherwise all is near.
pub fn sides_of(
    variables: &[u16],
    values: &[Value],
    starts: &Starts,
    members: &[u16],
    m: u16,
    p: u16,
) -> Sides
    requires { PairAt (setting (λ x. x.now) variables values starts members m) p }
    ensures { Sided (setting entry variables values starts members m) p result }
{
    let each = wide(m);
    let base = wide(p) / each * each;
    let end = base + each;
    let sides = divided(
        variables,
        values,
        starts,
        &members[base..end],
        wide(p) % each,
    );
    if sides.near & sides.far == 0 {
        return sides;
    }
    Sides {
        near: sides.near | sides.far,
        far: 0,
        places: 0,
    }
}
