// The call that compares two tuples by id.
ghost use Rattle.std.specs.Prelude.{◌≡◌};
ghost use Rattle.model.specs.Agreement.{first_clash, clash_number};
ghost use Rattle.model.specs.Reply.{comparison_numbers, Compared};
ghost use Rattle.layout.specs.Loan.{entry};
ghost use Rattle.layout.specs.Shape.{network_of};
ghost use Rattle.layout.specs.Setting.{lists, network_in};
ghost use Rattle.network.specs.Tuples.{TwoIds};

use super::agreement::tuples_clash;
use super::faults::fault;
use layout::{Shape, Starts, relation_of, starts_of, tuple_count, tuple_start};
use model::{Comparison, NO_VARIABLE, Value};

// Where the tuples with ids g and h clash.
fn ids_clash(variables: &[u16], values: &[Value], starts: &Starts, g: u16, h: u16) -> u16
    requires { TwoIds (lists (λ x. x.now) variables values starts) g h }
    ensures { result ≡ clash_number (first_clash (network_in (lists entry variables values starts)) g h) }
{
    let r = relation_of(starts, g);
    let s = relation_of(starts, h);
    let x = g - tuple_start(starts, r);
    let y = h - tuple_start(starts, s);
    tuples_clash(variables, values, starts, r, x, s, y)
}

// Compares the tuples with ids g and h.
pub fn compare(shape: Shape, variables: &[u16], values: &[Value], g: u16, h: u16) -> Comparison
    ensures { Compared (network_of shape variables.now values.now) g h (comparison_numbers result) }
{
    let f = fault(shape, variables, values);
    if f != 0 {
        return Comparison::Refused(f);
    }
    let starts = starts_of(shape);
    let total = tuple_count(&starts);
    if total <= g {
        return Comparison::Refused(model::refusal::ID);
    }
    if total <= h {
        return Comparison::Refused(model::refusal::ID);
    }
    let clash = ids_clash(variables, values, &starts, g, h);
    if clash == NO_VARIABLE {
        return Comparison::Agree;
    }
    Comparison::Differ(clash)
}
