// Several choices at once, as two values for each variable, and the ids that they remove.
ghost use Rattle.std.specs.Prelude.{◌≡◌, min, length};
ghost use Rattle.layout.specs.Loan.{entry};
ghost use Rattle.layout.specs.Setting.{lists, network_in, SoundLists};
ghost use Rattle.request.specs.Removal.{Holds, above};
ghost use Rattle.request.specs.Choices.{Joins, ChoiceAdded, ChoicesOf, removed_by_kept};

use super::removal::add_unlike;
use layout::{Starts, fit, is_any, wide};
use live::{WORDS, Words};
use model::{ANY_VALUE, VARIABLES, Value};

// A value for each variable.
pub type Chosen = [Value; VARIABLES];

// The pairs of a list of variables and a list of values: how long the lists are, the least number above all variables, and for each
// variable two values. What fits both fits all that the pairs give the variable: of values that do not fit each other two are enough.
#[derive(Clone, Copy)]
pub struct Choices {
    pub variables: usize,
    pub values: usize,
    pub bound: usize,
    pub firsts: Chosen,
    pub seconds: Chosen,
}

// Two values.
#[derive(Clone, Copy)]
pub struct Both {
    pub first: Value,
    pub second: Value,
}

// Two values for three: what fits them fits these and v.
fn joined(first: Value, second: Value, v: Value) -> Both
    ensures { Joins result first second v }
{
    if is_any(first) {
        return Both { first: v, second };
    }
    if fit(first, v) {
        return Both { first, second };
    }
    Both { first, second: v }
}

// Value v is chosen for variable x besides, if x is one; gives the bound with it.
pub fn add_choice(
    firsts: &mut [Value],
    seconds: &mut [Value],
    bound: usize,
    x: u16,
    v: Value,
) -> usize
    requires { (length firsts.old ≡ 64) × (length seconds.old ≡ 64) }
    ensures { ChoiceAdded firsts.old seconds.old x v firsts.new seconds.new × (result ≡ above bound x) }
{
    let at = wide(x);
    if at < VARIABLES {
        let both = joined(firsts[at], seconds[at], v);
        firsts[at] = both.first;
        seconds[at] = both.second;
    }
    bound.max(at + 1)
}

// The lesser of two numbers.
pub fn lesser(a: usize, b: usize) -> usize
    ensures { result ≡ min a b }
{
    a.min(b)
}

// The pairs of two lists.
pub fn paired(xs: &[u16], vs: &[Value]) -> Choices
    ensures { ChoicesOf result xs.now vs.now }
{
    let variables = xs.len();
    let values = vs.len();
    let mut firsts = [ANY_VALUE; VARIABLES];
    let mut seconds = [ANY_VALUE; VARIABLES];
    let mut bound = 0;
    for (x, v) in xs.iter().zip(vs) {
        bound = add_choice(&mut firsts, &mut seconds, bound, *x, *v);
    }
    Choices {
        variables,
        values,
        bound,
        firsts,
        seconds,
    }
}

// The ids of all tuples, live or dead, whose value under some variable does not fit both of the variable's.
pub fn unlike_any(
    variables: &[u16],
    values: &[Value],
    starts: &Starts,
    firsts: &[Value],
    seconds: &[Value],
) -> Words
    requires { SoundLists (lists (λ x. x.now) variables values starts) × (length firsts.now ≡ 64) × (length seconds.now ≡ 64) }
    ensures { Holds result (removed_by_kept (network_in (lists entry variables values starts)) firsts.now seconds.now) }
{
    let mut removed = [0u64; WORDS];
    for x in 0..VARIABLES as u16 {
        add_unlike(variables, values, starts, x, firsts[wide(x)], &mut removed);
        add_unlike(variables, values, starts, x, seconds[wide(x)], &mut removed);
    }
    removed
}
