// The faults of a network, in checking order.
ghost use Rattle.std.specs.Prelude.{◌≡◌, [], map, ℕ, ◌≤◌, ltb, length, replicate};
ghost use Rattle.model.specs.Limits.{max_relations, variable_count};
ghost use Rattle.model.specs.Lists.{from, sum, all, pairwise};
ghost use Rattle.model.specs.Network.{variables_in, tuples_in, values_in};
ghost use Rattle.model.specs.Fault.{proper_width, within, different, proper_scope, network_faults, first_fault, refusal};
ghost use Rattle.layout.specs.Shape.{relations_of, network_of};
ghost use Rattle.network.specs.Scopes.{proper_scopes};

use layout::{Shape, wide};
use model::{MAX_RELATIONS, MAX_TUPLES, MAX_WIDTH, VARIABLES, Value, refusal};

// How many variables, tuples and values the records call for.
#[derive(Clone, Copy)]
pub struct Totals {
    pub variables: usize,
    pub tuples: usize,
    pub values: usize,
}

// Whether n is one of low to high.
pub fn within(low: usize, high: usize, n: usize) -> bool
    ensures { result ≡ within low high n }
{
    (low..=high).contains(&n)
}

// Whether every width is allowed.
fn proper_widths(shape: Shape) -> bool
    requires { shape.count ≤ max_relations }
    ensures { result ≡ all proper_width (relations_of shape) }
{
    shape.widths[..shape.count]
        .iter()
        .all(|width| within(1, MAX_WIDTH, wide(*width)))
}

// The sums over all records.
fn totals_of(shape: Shape) -> Totals
    requires { shape.count ≤ max_relations }
    ensures variables { result.variables ≡ sum (map variables_in (relations_of shape)) }
    ensures tuples { result.tuples ≡ sum (map tuples_in (relations_of shape)) }
    ensures values { result.values ≡ sum (map values_in (relations_of shape)) }
{
    let mut variables = 0;
    let mut tuples = 0;
    let mut values = 0;
    for r in 0..shape.count {
        let width = wide(shape.widths[r]);
        let size = wide(shape.tuples[r]);
        variables += width;
        tuples += size;
        values += width * size;
    }
    Totals {
        variables,
        tuples,
        values,
    }
}

// Whether every entry is a variable.
fn all_variables(scope: &[u16]) -> bool
    ensures { result ≡ all (λ (x : ℕ). ltb x variable_count) scope.now }
{
    scope.iter().all(|x| wide(*x) < VARIABLES)
}

// Whether no variable stands twice.
fn all_different(scope: &[u16]) -> bool
    ensures { result ≡ pairwise different scope.now }
{
    for (i, x) in scope.iter().enumerate() {
        if scope[i + 1..].contains(x) {
            return false;
        }
    }
    true
}

// Whether a scope's variables are variables, and none stands twice.
fn proper_scope(scope: &[u16]) -> bool
    ensures { result ≡ proper_scope scope.now }
{
    all_variables(scope) && all_different(scope)
}

// Whether every relation's part of the variable list is a proper scope.
fn proper_scopes(shape: Shape, variables: &[u16]) -> bool
    requires count_le_max_relations { shape.count ≤ max_relations }
    requires variables_len { length variables.now ≡ sum (map variables_in (relations_of shape)) }
    ensures { result ≡ proper_scopes (network_of shape variables.now []) }
{
    let mut start = 0;
    for width in &shape.widths[..shape.count] {
        let end = start + wide(*width);
        if !proper_scope(&variables[start..end]) {
            return false;
        }
        start = end;
    }
    true
}

// The number of the first fault, 2 to 6, or 0, of a network with so many values, whichever they are.
pub fn fault_on(shape: Shape, variables: &[u16], values: usize) -> u8
    ensures { result ≡ refusal (first_fault (network_faults (network_of shape variables.now (replicate values 0)))) }
{
    if !within(1, MAX_RELATIONS, shape.count) {
        return refusal::RELATIONS;
    }
    let widths_proper = proper_widths(shape);
    let called = totals_of(shape);
    let tuples = called.tuples;
    if !widths_proper {
        return refusal::WIDTH;
    }
    if MAX_TUPLES < tuples {
        return refusal::TUPLES;
    }
    if variables.len() != called.variables {
        return refusal::LENGTHS;
    }
    if values != called.values {
        return refusal::LENGTHS;
    }
    if !proper_scopes(shape, variables) {
        return refusal::SCOPE;
    }
    0
}

// The number of the network's first fault, 2 to 6, or 0.
pub fn fault(shape: Shape, variables: &[u16], values: &[Value]) -> u8
    ensures { result ≡ refusal (first_fault (network_faults (network_of shape variables.now values.now))) }
{
    fault_on(shape, variables, values.len())
}
