// What a change call is to do, found before any list that it may write is touched.
ghost use Rattle.std.specs.Prelude.{◌≡◌};
ghost use Rattle.model.specs.Request.{filter, choose};
ghost use Rattle.layout.specs.Setting.{SoundLists};
ghost use Rattle.request.specs.Plan.{lists_from, PlansFrom, PlansIds, PlansOn, PlansChoices};

use super::checks::{Opening, choices_fault, ids_fault, variable_fault};
use super::choices::{Choices, unlike_any};
use super::removal::{Ids, unlike};
use layout::{Starts, tuple_count};
use live::{WORDS, Words};
use model::Value;

// The number of the call's first fault, or 0; and if it is 0, where each relation begins, and the ids that the change removes.
#[derive(Clone, Copy)]
pub struct Plan {
    pub fault: u8,
    pub starts: Starts,
    pub removed: Words,
}

// Filter.
pub fn plan_filter(opening: Opening) -> Plan
    ensures { PlansFrom result opening filter }
{
    let fault = opening.fault;
    let starts = opening.starts;
    let removed = [0; WORDS];
    Plan {
        fault,
        starts,
        removed,
    }
}

// Withdraw, of the ids gathered.
pub fn plan_withdraw(opening: Opening, ids: Ids) -> Plan
    ensures { PlansIds result opening ids }
{
    let fault = opening.fault;
    let starts = opening.starts;
    let removed = ids.words;
    if fault != 0 {
        return Plan {
            fault,
            starts,
            removed,
        };
    }
    let fault = ids_fault(tuple_count(&starts), ids.bound);
    Plan {
        fault,
        starts,
        removed,
    }
}

// Choose, of value v under variable x.
pub fn plan_choose(opening: Opening, variables: &[u16], values: &[Value], x: u16, v: Value) -> Plan
    requires { opening.fault ≡ 0 → SoundLists (lists_from opening variables.now values.now) }
    ensures { PlansOn result opening variables.now values.now (choose x v) }
{
    let fault = opening.fault;
    let starts = opening.starts;
    if fault != 0 {
        let removed = [0u64; WORDS];
        return Plan {
            fault,
            starts,
            removed,
        };
    }
    let fault = variable_fault(x);
    let removed = unlike(variables, values, &starts, x, v);
    Plan {
        fault,
        starts,
        removed,
    }
}

// Choose several, of the pairs gathered.
pub fn plan_choose_several(
    opening: Opening,
    variables: &[u16],
    values: &[Value],
    choices: Choices,
) -> Plan
    requires { opening.fault ≡ 0 → SoundLists (lists_from opening variables.now values.now) }
    ensures { PlansChoices result opening variables.now values.now choices }
{
    let fault = opening.fault;
    let starts = opening.starts;
    if fault != 0 {
        let removed = [0u64; WORDS];
        return Plan {
            fault,
            starts,
            removed,
        };
    }
    let firsts = choices.firsts;
    let seconds = choices.seconds;
    let fault = choices_fault(choices.variables, choices.values, choices.bound);
    let removed = unlike_any(variables, values, &starts, &firsts, &seconds);
    Plan {
        fault,
        starts,
        removed,
    }
}
