// Tuples of a relation that have the same values under every variable that the other members of a combination have.
ghost use Rattle.std.specs.Prelude.{◌≡◌, true, ℕ, ◌<◌, length};
ghost use Rattle.model.specs.Lists.{elem};
ghost use Rattle.model.specs.Network.{scope_of};
ghost use Rattle.model.specs.Agreement.{cells, under};
ghost use Rattle.model.specs.LiveWords.{is_set};
ghost use Rattle.layout.specs.Loan.{entry};
ghost use Rattle.layout.specs.Starts.{records_in};
ghost use Rattle.layout.specs.Setting.{lists, network_in, SoundLists};
ghost use Rattle.doubles.specs.Alike.{TupleAt, Alike, MembersIn, CoversFrom};

use combination::mask_of;
use layout::{Starts, place_of, variable_start, wide};
use model::{VARIABLES, Value};

// ---- The variables that the other members have

// Whether variable v is in the set.
pub fn has_variable(set: u64, v: u16) -> bool
    ensures { result ≡ is_set set v }
{
    if VARIABLES <= wide(v) {
        return false;
    }
    (set >> v) % 2 == 1
}

// The set of relation r's variables.
pub fn variables_of(variables: &[u16], values: &[Value], starts: &Starts, r: u16) -> u64
    requires { SoundLists (lists (λ x. x.now) variables values starts) × (r < length (records_in starts.now)) }
    ensures { (v : ℕ) → is_set result v ≡ elem v (scope_of (network_in (lists entry variables values starts)) r) }
{
    let scope = variable_start(starts, r);
    let scope_end = variable_start(starts, r + 1);
    mask_of(&variables[scope..scope_end])
}

// The set of all variables that the members from `from` on have, but for the one at `place`.
pub fn variables_from(
    variables: &[u16],
    values: &[Value],
    starts: &Starts,
    members: &[u16],
    place: usize,
    from: usize,
) -> u64
    requires { MembersIn (lists (λ x. x.now) variables values starts) members.now }
    ensures { CoversFrom (network_in (lists entry variables values starts)) members.now place from (is_set result) }
{
    let mut common: u64 = 0;
    for j in from..members.len() {
        if j != place {
            common |= variables_of(variables, values, starts, members[j]);
        }
    }
    common
}

// ---- Whether two tuples have the same values

// Whether two tuples have equal values in every column whose variable is in the set.
fn equal_in(scope: &[u16], a: &[Value], b: &[Value], common: u64) -> bool
    requires { (length scope.now ≡ length a.now) × (length scope.now ≡ length b.now) }
    ensures { result ≡ true → under (is_set common) (cells scope.now a.now) ≡ under (is_set common) (cells scope.now b.now) }
{
    for (c, v) in scope.iter().enumerate() {
        if has_variable(common, *v) && a[c] != b[c] {
            return false;
        }
    }
    true
}

// Whether tuples x and y of relation r have equal values under every variable of the set.
pub fn same_values(
    variables: &[u16],
    values: &[Value],
    starts: &Starts,
    r: u16,
    x: u16,
    y: u16,
    common: u64,
) -> bool
    requires { TupleAt (lists (λ x. x.now) variables values starts) r x × TupleAt (lists (λ x. x.now) variables values starts) r y }
    ensures { result ≡ true → Alike (lists entry variables values starts) common r x y }
{
    let p = place_of(starts, r, x);
    let q = place_of(starts, r, y);
    let scope = p.scope;
    let scope_end = p.scope_end;
    let a = p.tuple;
    let a_end = p.tuple_end;
    let b = q.tuple;
    let b_end = q.tuple_end;
    equal_in(
        &variables[scope..scope_end],
        &values[a..a_end],
        &values[b..b_end],
        common,
    )
}
