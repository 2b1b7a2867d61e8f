// Where tuples clash, and which agree.
ghost use Rattle.std.specs.Prelude.{◌≡◌};
ghost use Rattle.model.specs.Agreement.{cells, first_clashing, clash_number};
ghost use Rattle.layout.specs.Loan.{entry};
ghost use Rattle.layout.specs.Setting.{lists};
ghost use Rattle.network.specs.Tuples.{Columns, Two, clash_at, agree_at};

use layout::{Starts, fit, place_of};
use model::{NO_VARIABLE, Value};

// The lowest variable of both scopes whose values do not fit; 64 where there is none.
pub fn first_clash(scope_a: &[u16], a: &[Value], scope_b: &[u16], b: &[Value]) -> u16
    requires { Columns scope_a.now a.now × Columns scope_b.now b.now }
    ensures { result ≡ clash_number (first_clashing (cells scope_a.now a.now) (cells scope_b.now b.now)) }
{
    let mut lowest = NO_VARIABLE;
    for (i, x) in scope_a.iter().enumerate() {
        'shared: for (j, y) in scope_b.iter().enumerate() {
            if *x == *y {
                if !fit(a[i], b[j]) {
                    lowest = lowest.min(*x);
                }
                break 'shared;
            }
        }
    }
    lowest
}

// Where tuple x of relation r and tuple y of relation s clash.
pub fn tuples_clash(
    variables: &[u16],
    values: &[Value],
    starts: &Starts,
    r: u16,
    x: u16,
    s: u16,
    y: u16,
) -> u16
    requires { Two (lists (λ x. x.now) variables values starts) r x s y }
    ensures { result ≡ clash_number (clash_at (lists entry variables values starts) r x s y) }
{
    let p = place_of(starts, r, x);
    let q = place_of(starts, s, y);
    first_clash(
        &variables[p.scope..p.scope_end],
        &values[p.tuple..p.tuple_end],
        &variables[q.scope..q.scope_end],
        &values[q.tuple..q.tuple_end],
    )
}

// Whether they agree.
pub fn tuples_agree(
    variables: &[u16],
    values: &[Value],
    starts: &Starts,
    r: u16,
    x: u16,
    s: u16,
    y: u16,
) -> bool
    requires { Two (lists (λ x. x.now) variables values starts) r x s y }
    ensures { result ≡ agree_at (lists entry variables values starts) r x s y }
{
    tuples_clash(variables, values, starts, r, x, s, y) == NO_VARIABLE
}
