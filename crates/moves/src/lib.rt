// Moves of a network between the old form, of 16-bit values, and the new one, of 32-bit values (card 9).
#![tactic(auto)]

ghost use Rattle.std.specs.Prelude.{◌≡◌, false, ◌++◌, map, ◌≤◌, length, drop};
ghost use Rattle.model.specs.Lists.{any};
ghost use Rattle.model.specs.Moves.{widened, narrowed, too_wide, widen, narrow, KeepsMove};
ghost use Rattle.layout.specs.Shape.{network_of};

use layout::{Shape, is_any};
use model::{ANY_VALUE, Moved, Value, refusal};
use network::faults::fault_on;

// stood for every value in the old form
const OLD_ANY: u16 = 65535;

// A value of the old form in the new one.
#[tactic(auto, unfolding(model::specs::Moves::widened))]
fn widened(v: u16) -> Value
    ensures { result ≡ widened v }
{
    if v == OLD_ANY {
        return ANY_VALUE;
    }
    v as u32
}

// Whether the old form has no place for a value.
fn too_wide(v: Value) -> bool
    ensures { result ≡ too_wide v }
{
    if v < OLD_ANY as u32 {
        return false;
    }
    v < ANY_VALUE
}

// A value of the new form in the old one.
#[tactic(auto, using(model::proofs::Moves::not_wide), unfolding(model::specs::Moves::narrowed))]
fn narrowed(v: Value) -> u16
    requires { too_wide v ≡ false }
    ensures { result ≡ narrowed v }
{
    if is_any(v) {
        return OLD_ANY;
    }
    v as u16
}

// Whether the old form has no place for some value.
fn any_too_wide(values: &[Value]) -> bool
    ensures { result ≡ any too_wide values.now }
{
    values.iter().any(|v| too_wide(*v))
}

// Writes the values in the new form to the front of a list.
fn put_widened(values: &[u16], target: &mut [Value])
    requires { length values.now ≤ length target.old }
    ensures { target.new ≡ map widened values.now ++ drop (length values.now) target.old }
{
    for (i, v) in values.iter().enumerate() {
        target[i] = widened(*v);
    }
}

// Writes the values in the old form to the front of a list.
fn put_narrowed(values: &[Value], target: &mut [u16])
    requires { (any too_wide values.now ≡ false) × (length values.now ≤ length target.old) }
    ensures { target.new ≡ map narrowed values.now ++ drop (length values.now) target.old }
{
    for (i, v) in values.iter().enumerate() {
        target[i] = narrowed(*v);
    }
}

// Moves a network of the old form to the new one: its values go to the front of the second list.
pub fn widen(shape: Shape, variables: &[u16], values: &[u16], target: &mut [Value]) -> Moved
    ensures { KeepsMove widen (network_of shape variables.now values.now) target.old result target.new }
{
    let f = fault_on(shape, variables, values.len());
    if f != 0 {
        return Moved::Refused(f);
    }
    if target.len() < values.len() {
        return Moved::Refused(refusal::TARGET);
    }
    put_widened(values, target);
    Moved::Done
}

// Moves a network of the new form back to the old one.
pub fn narrow(shape: Shape, variables: &[u16], values: &[Value], target: &mut [u16]) -> Moved
    ensures { KeepsMove narrow (network_of shape variables.now values.now) target.old result target.new }
{
    let f = fault_on(shape, variables, values.len());
    if f != 0 {
        return Moved::Refused(f);
    }
    if any_too_wide(values) {
        return Moved::Refused(refusal::TOO_WIDE);
    }
    if target.len() < values.len() {
        return Moved::Refused(refusal::TARGET);
    }
    put_narrowed(values, target);
    Moved::Done
}
