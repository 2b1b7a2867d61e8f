// The change calls on bytes: decode what is only read and check it, decode the needed words and the counts, check these and plan the
// change, and make it.
ghost use Rattle.std.specs.Prelude.{◌≡◌, List, ℕ, true, ◌/◌, ◌≤◌, min, length};
ghost use Rattle.layout.specs.Setting.{SoundLists};
ghost use Rattle.layout.specs.Shape.{instance_of};
ghost use Rattle.request.specs.Plan.{lists_from, PlansOn};
ghost use Rattle.encoding.specs.Call.{byte_book, byte_instance, byte_request, whole_own, decoded_change, KeepsBytes, left};
ghost use Rattle.byte_calls.specs.Call.{change_in};
ghost use Rattle.byte_calls.specs.Planned.{setting_for, Writable, WritesChange, AnswersOn, WholeBytes, PlansBytes, LeavesPlanned, Readable, OpensBytes, AnswersOpened};

use super::{FEW_VALUES, MANY_VALUES, NOT_WHOLE};
use changes::change;
use combination::needed;
use encoding::choices::choices_at;
use encoding::ids::ids_at;
use encoding::lengths::change_whole;
use encoding::packing::pack;
use encoding::sheets::{counts_at, put_counts, shape_at};
use layout::{Shape, tuple_count};
use live::{WORDS, words_for};
use model::{Answer, MAX_SUPPORT_NUMBERS, Value};
use request::checks::{Opening, checked};
use request::counts::counted;
use request::plan::{Plan, plan_choose, plan_choose_several, plan_filter, plan_withdraw};
use wire::{load, store};

// Which change call it is; choose with its variable and its value.
#[derive(Clone, Copy)]
pub enum Call {
    Filter,
    Withdraw,
    Choose(u16, Value),
    ChooseSeveral,
}

// What the call is to do, with this opening. Withdraw reads its ids where they are listed, and choose several its variables there and
// its values where they are chosen; the others read neither.
fn plan(
    call: Call,
    opening: Opening,
    variables: &[u16],
    values: &[Value],
    listed: &[u8],
    chosen: &[u8],
) -> Plan
    requires { opening.fault ≡ 0 → SoundLists (lists_from opening variables.now values.now) }
    ensures { PlansOn result opening variables.now values.now (decoded_change (change_in call listed.now chosen.now)) }
{
    match call {
        Call::Filter => plan_filter(opening),
        Call::Withdraw => plan_withdraw(opening, ids_at(listed)),
        Call::Choose(x, v) => plan_choose(opening, variables, values, x, v),
        Call::ChooseSeveral => plan_choose_several(
            opening,
            variables,
            values,
            choices_at(listed, chosen),
        ),
    }
}

// Makes the planned change on these words, numbers and counts, and writes them over the bytes lent.
fn write_change(
    variables: &[u16],
    values: &[Value],
    m: u16,
    members: &[u16],
    words: &mut [u64],
    numbers: &mut [u16],
    counts: &mut [u16],
    sheets: &mut [u8],
    marks: &mut [u8],
    supports: &mut [u8],
    plan: Plan,
) -> u64
    requires { Writable (setting_for plan variables.now values.now m members.now) words.old numbers.old counts.old plan.removed sheets.old marks.old supports.old }
    ensures { WritesChange result (setting_for plan variables.now values.now m members.now) words.old numbers.old plan.removed sheets.old sheets.new marks.old marks.new supports.old supports.new }
{
    let starts = plan.starts;
    let removed = plan.removed;
    let a = change(
        variables, values, &starts, members, m, words, numbers, counts, &removed,
    );
    put_counts(counts, sheets);
    store(words, marks);
    store(numbers, supports);
    pack(a)
}

// Makes the change that is planned, with room for as many numbers as are needed.
fn make(
    variables: &[u16],
    values: &[Value],
    m: u16,
    members: &[u16],
    words: &mut [u64],
    counts: &mut [u16],
    sheets: &mut [u8],
    marks: &mut [u8],
    supports: &mut [u8],
    plan: Plan,
) -> u64
    requires { PlansBytes plan variables.now values.now m members.now words.old counts.old sheets.old marks.old supports.old }
    ensures { LeavesPlanned result plan variables.now values.now m members.now sheets.old sheets.new marks.old marks.new supports.old supports.new }
{
    let starts = plan.starts;
    let number_count = needed(&starts, members, m);
    let mut numbers = [0u16; MAX_SUPPORT_NUMBERS];
    write_change(
        variables,
        values,
        m,
        members,
        words,
        &mut numbers[..number_count],
        counts,
        sheets,
        marks,
        supports,
        plan,
    )
}

// The call on the words and counts decoded: these checked and the change planned, then refused or made.
fn change_counted(
    call: Call,
    opening: Opening,
    variables: &[u16],
    values: &[Value],
    m: u16,
    members: &[u16],
    words: &mut [u64],
    counts: &mut [u16],
    sheets: &mut [u8],
    marks: &mut [u8],
    supports: &mut [u8],
    listed: &[u8],
    chosen: &[u8],
) -> u64
    requires { OpensBytes opening variables.now values.now m members.now words.old counts.old sheets.old marks.old supports.old }
    ensures { AnswersOpened result opening variables.now values.now m members.now sheets.old sheets.new marks.old marks.new supports.old supports.new (change_in call listed.now chosen.now) }
{
    let opened = counted(opening, words, counts);
    let plan = plan(call, opened, variables, values, listed, chosen);
    if plan.fault != 0 {
        return pack(Answer::Refused(plan.fault));
    }
    make(
        variables, values, m, members, words, counts, sheets, marks, supports, plan,
    )
}

// The call on lists that are opened: the needed words alone and the counts are decoded.
fn change_opened(
    call: Call,
    shape: Shape,
    opening: Opening,
    variables: &[u16],
    values: &[Value],
    m: u16,
    members: &[u16],
    sheets: &mut [u8],
    marks: &mut [u8],
    supports: &mut [u8],
    listed: &[u8],
    chosen: &[u8],
) -> u64
    requires { Readable opening shape.count (instance_of shape variables.now values.now m members.now) sheets.old marks.old supports.old }
    ensures { AnswersOn result (instance_of shape variables.now values.now m members.now) sheets.old sheets.new marks.old marks.new supports.old supports.new (change_in call listed.now chosen.now) }
{
    let starts = opening.starts;
    let word_count = words_for(tuple_count(&starts));
    let count = shape.count;
    let mut words = [0u64; WORDS];
    load(&marks[..8 * word_count], &mut words);
    let mut counts = counts_at(sheets);
    change_counted(
        call,
        opening,
        variables,
        values,
        m,
        members,
        &mut words[..word_count],
        &mut counts[..count],
        sheets,
        marks,
        supports,
        listed,
        chosen,
    )
}

// The call on decoded lists: checked as far as number 12, then refused or opened.
fn change_decoded(
    call: Call,
    shape: Shape,
    variables: &[u16],
    values: &[Value],
    m: u16,
    members: &[u16],
    sheets: &mut [u8],
    marks: &mut [u8],
    supports: &mut [u8],
    listed: &[u8],
    chosen: &[u8],
) -> u64
    requires { (shape.count ≡ length sheets.old / 6) × WholeBytes marks.old supports.old }
    ensures { AnswersOn result (instance_of shape variables.now values.now m members.now) sheets.old sheets.new marks.old marks.new supports.old supports.new (change_in call listed.now chosen.now) }
{
    let words = marks.len() / 8;
    let numbers = supports.len() / 2;
    let opening = checked(shape, variables, values, m, members, words, numbers);
    if opening.fault != 0 {
        return pack(Answer::Refused(opening.fault));
    }
    change_opened(
        call, shape, opening, variables, values, m, members, sheets, marks, supports, listed,
        chosen,
    )
}

// Decodes the lists that are only read, and makes the call. There is room for ROOM values: for all that there are, or for one more than
// any accepted list has.
fn change_sized<const ROOM: usize>(
    call: Call,
    sheets: &mut [u8],
    questions: &[u8],
    codes: &[u8],
    m: u16,
    combinations: &[u8],
    marks: &mut [u8],
    supports: &mut [u8],
    listed: &[u8],
    chosen: &[u8],
) -> u64
    requires { WholeBytes marks.old supports.old × (ROOM ≤ 32769) × (min 32769 (length codes.now / 4) ≤ ROOM) }
    ensures { AnswersOn result (byte_instance (byte_book (λ (l : List ℕ). l) sheets.old questions.now codes.now m combinations.now)) sheets.old sheets.new marks.old marks.new supports.old supports.new (change_in call listed.now chosen.now) }
{
    let mut variables = [0u16; 513];
    let mut values = [0u32; ROOM];
    let mut members = [0u16; 1025];
    let shape = shape_at(sheets);
    let variable_count = load(questions, &mut variables);
    let value_count = load(codes, &mut values);
    let member_count = load(combinations, &mut members);
    change_decoded(
        call,
        shape,
        &variables[..variable_count],
        &values[..value_count],
        m,
        &members[..member_count],
        sheets,
        marks,
        supports,
        listed,
        chosen,
    )
}

// The call on lists that are whole.
fn change_bytes(
    call: Call,
    sheets: &mut [u8],
    questions: &[u8],
    codes: &[u8],
    m: u16,
    combinations: &[u8],
    marks: &mut [u8],
    supports: &mut [u8],
    listed: &[u8],
    chosen: &[u8],
) -> u64
    requires { WholeBytes marks.old supports.old }
    ensures { AnswersOn result (byte_instance (byte_book (λ (l : List ℕ). l) sheets.old questions.now codes.now m combinations.now)) sheets.old sheets.new marks.old marks.new supports.old supports.new (change_in call listed.now chosen.now) }
{
    if codes.len() <= 4 * FEW_VALUES {
        return change_sized::<FEW_VALUES>(
            call,
            sheets,
            questions,
            codes,
            m,
            combinations,
            marks,
            supports,
            listed,
            chosen,
        );
    }
    change_sized::<MANY_VALUES>(
        call,
        sheets,
        questions,
        codes,
        m,
        combinations,
        marks,
        supports,
        listed,
        chosen,
    )
}

// The call, whose own lists are whole: refused with number 1 before all else if another list is not.
pub fn change_call(
    call: Call,
    sheets: &mut [u8],
    questions: &[u8],
    codes: &[u8],
    m: u16,
    combinations: &[u8],
    marks: &mut [u8],
    supports: &mut [u8],
    listed: &[u8],
    chosen: &[u8],
) -> u64
    requires { whole_own (change_in call listed.now chosen.now) ≡ true }
    ensures { KeepsBytes (byte_request (byte_book (λ (l : List ℕ). l) sheets.old questions.now codes.now m combinations.now) marks.old supports.old (change_in call listed.now chosen.now)) (left result sheets.new marks.new supports.new) }
{
    if !change_whole(
        sheets.len(),
        questions.len(),
        codes.len(),
        combinations.len(),
        marks.len(),
        supports.len(),
    ) {
        return NOT_WHOLE;
    }
    change_bytes(
        call,
        sheets,
        questions,
        codes,
        m,
        combinations,
        marks,
        supports,
        listed,
        chosen,
    )
}
