// The faults of a request, in checking order, and where each relation begins in lists without fault.
ghost use Rattle.std.specs.Prelude.{◌≡◌};
ghost use Rattle.model.specs.Fault.{network_faults, instance_faults, list_faults};
ghost use Rattle.layout.specs.Shape.{relations_of, network_of, instance_of};
ghost use Rattle.request.specs.Checks.{Opened, test_faults_on, ids_refusal, variable_refusal, choices_refusal};

use combination::{needed, supports_fault, words_fault};
use layout::{STARTS, Shape, Starts, starts_of, tuple_count, wide};
use model::{VARIABLES, Value, refusal};

// The number of the first fault, or 0; and if it is 0, where each relation begins in the lists.
#[derive(Clone, Copy)]
pub struct Opening {
    pub fault: u8,
    pub starts: Starts,
}

// The network's first fault, 2 to 6, or where its relations begin.
pub fn network_checked(shape: Shape, variables: &[u16], values: &[Value]) -> Opening
    ensures { Opened result (network_faults (network_of shape variables.now values.now)) (relations_of shape) }
{
    let fault = network::faults::fault(shape, variables, values);
    if fault != 0 {
        return Opening {
            fault,
            starts: [0; STARTS],
        };
    }
    Opening {
        fault,
        starts: starts_of(shape),
    }
}

// The first fault of the network and its combinations, 2 to 10, or where the relations begin.
fn instance_checked(
    shape: Shape,
    variables: &[u16],
    values: &[Value],
    m: u16,
    members: &[u16],
) -> Opening
    ensures { Opened result (instance_faults (instance_of shape variables.now values.now m members.now)) (relations_of shape) }
{
    let opening = network_checked(shape, variables, values);
    if opening.fault != 0 {
        return opening;
    }
    let starts = opening.starts;
    let fault = combination::fault(variables, values, &starts, m, members);
    Opening { fault, starts }
}

// The first fault of test, 2 to 11, or where the relations begin.
pub fn test_checked(
    shape: Shape,
    variables: &[u16],
    values: &[Value],
    m: u16,
    members: &[u16],
    words: usize,
) -> Opening
    ensures { Opened result (test_faults_on (instance_of shape variables.now values.now m members.now) words) (relations_of shape) }
{
    let opening = instance_checked(shape, variables, values, m, members);
    if opening.fault != 0 {
        return opening;
    }
    let starts = opening.starts;
    let fault = words_fault(tuple_count(&starts), words);
    Opening { fault, starts }
}

// The first fault that every change call tests, 2 to 12, or where the relations begin.
pub fn checked(
    shape: Shape,
    variables: &[u16],
    values: &[Value],
    m: u16,
    members: &[u16],
    words: usize,
    numbers: usize,
) -> Opening
    ensures { Opened result (list_faults (instance_of shape variables.now values.now m members.now) words numbers) (relations_of shape) }
{
    let opening = test_checked(shape, variables, values, m, members, words);
    if opening.fault != 0 {
        return opening;
    }
    let starts = opening.starts;
    let fault = supports_fault(needed(&starts, members, m), numbers);
    Opening { fault, starts }
}

// 13 if the number of tuples is below the least number above all ids, or 0.
pub fn ids_fault(tuples: u16, bound: usize) -> u8
    ensures { result ≡ ids_refusal tuples bound }
{
    if wide(tuples) < bound {
        return refusal::ID;
    }
    0
}

// 14 if x is no variable, or 0.
pub fn variable_fault(x: u16) -> u8
    ensures { result ≡ variable_refusal x }
{
    if VARIABLES <= wide(x) {
        return refusal::VARIABLE;
    }
    0
}

// 19 if the variables and the values chosen are not as many, or 14 if the bound says that one is no variable, or 0.
pub fn choices_fault(variables: usize, values: usize, bound: usize) -> u8
    ensures { result ≡ choices_refusal variables values bound }
{
    if variables != values {
        return refusal::PAIRS;
    }
    if VARIABLES < bound {
        return refusal::VARIABLE;
    }
    0
}
