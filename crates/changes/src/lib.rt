// The change calls: filter, withdraw, choose and choose several. Each is planned, which finds its first fault or the ids that it removes; `change`
// does the rest for all of them.
#![tactic(auto)]

ghost use Rattle.model.specs.Request.{filter, withdraw, choose, choose_several};
ghost use Rattle.layout.specs.Loan.{entry};
ghost use Rattle.layout.specs.Shape.{instance_of};
ghost use Rattle.layout.specs.Setting.{setting};
ghost use Rattle.changes.specs.Change.{Ready, Changes, Replies, Plans, RepliesPlanned};

use layout::{Shape, Starts, tuple_count};
use live::{Words, count};
use model::{Answer, Value};
use request::answer::answer_for;
use request::choices::paired;
use request::counts::{count_all, opened};
use request::plan::{Plan, plan_choose, plan_choose_several, plan_filter, plan_withdraw};
use request::removal::{listed, remove};

// Takes the ids removed from what lives, filters the rest, counts what is left, and answers.
pub fn change(
    variables: &[u16],
    values: &[Value],
    starts: &Starts,
    members: &[u16],
    m: u16,
    words: &mut [u64],
    supports: &mut [u16],
    counts: &mut [u16],
    removed: &Words,
) -> Answer
    requires { Ready (setting (λ x. x.now) variables values starts members m) words.old supports.old counts.old removed.now }
    ensures { Changes result (setting entry variables values starts members m) words.old words.new supports.old supports.new counts.old counts.new removed.now }
{
    let total = tuple_count(starts);
    let before = count(words, 0, total);
    remove(words, removed, total);
    let kept = count(words, 0, total);
    engine::filter::filter(variables, values, starts, members, m, words, supports);
    count_all(starts, words, counts);
    answer_for(starts, words, before, kept)
}

// Makes the change that is planned, or refuses it.
fn make(
    variables: &[u16],
    values: &[Value],
    m: u16,
    members: &[u16],
    words: &mut [u64],
    supports: &mut [u16],
    counts: &mut [u16],
    plan: Plan,
) -> Answer
    requires { Plans plan variables.now values.now m members.now words.old supports.old counts.old }
    ensures { RepliesPlanned result plan variables.now values.now m members.now words.old words.new supports.old supports.new counts.old counts.new }
{
    let fault = plan.fault;
    if fault != 0 {
        return Answer::Refused(fault);
    }
    let starts = plan.starts;
    let removed = plan.removed;
    change(
        variables, values, &starts, members, m, words, supports, counts, &removed,
    )
}

// Filters what lives.
pub fn filter(
    shape: Shape,
    variables: &[u16],
    values: &[Value],
    m: u16,
    members: &[u16],
    words: &mut [u64],
    supports: &mut [u16],
    counts: &mut [u16],
) -> Answer
    ensures { Replies result (instance_of shape variables.now values.now m members.now) words.old words.new supports.old supports.new counts.old counts.new filter }
{
    let opening = opened(
        shape,
        variables,
        values,
        m,
        members,
        words,
        supports.len(),
        counts,
    );
    let plan = plan_filter(opening);
    make(variables, values, m, members, words, supports, counts, plan)
}

// Withdraws the tuples listed, live or dead, and filters what then lives.
pub fn withdraw(
    shape: Shape,
    variables: &[u16],
    values: &[Value],
    m: u16,
    members: &[u16],
    words: &mut [u64],
    supports: &mut [u16],
    counts: &mut [u16],
    ids: &[u16],
) -> Answer
    ensures { Replies result (instance_of shape variables.now values.now m members.now) words.old words.new supports.old supports.new counts.old counts.new (withdraw ids.now) }
{
    let opening = opened(
        shape,
        variables,
        values,
        m,
        members,
        words,
        supports.len(),
        counts,
    );
    let plan = plan_withdraw(opening, listed(ids));
    make(variables, values, m, members, words, supports, counts, plan)
}

// Withdraws every tuple that has another value than v under variable x, and filters what then lives.
pub fn choose(
    shape: Shape,
    variables: &[u16],
    values: &[Value],
    m: u16,
    members: &[u16],
    words: &mut [u64],
    supports: &mut [u16],
    counts: &mut [u16],
    x: u16,
    v: Value,
) -> Answer
    ensures { Replies result (instance_of shape variables.now values.now m members.now) words.old words.new supports.old supports.new counts.old counts.new (choose x v) }
{
    let opening = opened(
        shape,
        variables,
        values,
        m,
        members,
        words,
        supports.len(),
        counts,
    );
    let plan = plan_choose(opening, variables, values, x, v);
    make(variables, values, m, members, words, supports, counts, plan)
}

// Withdraws every tuple that has, under a variable of xs, another value than vs has in the same place, and filters what then lives.
pub fn choose_several(
    shape: Shape,
    variables: &[u16],
    values: &[Value],
    m: u16,
    members: &[u16],
    words: &mut [u64],
    supports: &mut [u16],
    counts: &mut [u16],
    xs: &[u16],
    vs: &[Value],
) -> Answer
    ensures { Replies result (instance_of shape variables.now values.now m members.now) words.old words.new supports.old supports.new counts.old counts.new (choose_several xs.now vs.now) }
{
    let opening = opened(
        shape,
        variables,
        values,
        m,
        members,
        words,
        supports.len(),
        counts,
    );
    let plan = plan_choose_several(opening, variables, values, paired(xs, vs));
    make(variables, values, m, members, words, supports, counts, plan)
}
