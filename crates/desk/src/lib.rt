// What the desk's programs write: a text read, its network filtered or its combinations listed, and the reply written as a text.
#![tactic(auto)]

ghost use Rattle.std.specs.Prelude.{◌≡◌, true, ◌++◌, ◌≤◌, length, take, drop};
ghost use Rattle.std.proofs.Math.Option.{none, some};
ghost use Rattle.model.specs.Text.{max_field, text_of, small, writable};
ghost use Rattle.model.specs.Listing.{lines_for, listing, combination_listing};
ghost use Rattle.layout.specs.Shape.{instance_of};
ghost use Rattle.printing.specs.Appended.{Appended};
ghost use Rattle.desk.specs.Opened.{Opened};
ghost use Rattle.desk.specs.Asked.{asked_listing};

use changes::filter;
use combinations::listed;
use layout::Shape;
use live::WORDS;
use model::{MAX_SUPPORT_NUMBERS, Value};
use printing::answer::{OUTPUT, print};
use printing::text::line;
use reading::fields::{MAX_FIELD, NEWLINE, field};
use reading::{Book, MAX_MEMBER_LIST, MAX_VALUES, MAX_VARIABLES, read};

pub mod combinations; // the connected combinations of a network

// Writes that a text is not in the form; the number of bytes written.
fn refused(out: &mut [u8; OUTPUT]) -> usize
    ensures { Appended (text_of (lines_for none)) out.old 0 out.new result }
{
    let fields = [2u32, 1, 0, 0];
    line(out, 0, &fields)
}

// Filters a network whose tuples are all live and counted, and writes the reply; the number of bytes written.
fn filtered(
    shape: Shape,
    variables: &[u16],
    values: &[Value],
    m: u16,
    members: &[u16],
    out: &mut [u8; OUTPUT],
) -> usize
    requires { writable (instance_of shape variables.now values.now m members.now) ≡ true }
    ensures { Appended (text_of (lines_for (some (instance_of shape variables.now values.now m members.now)))) out.old 0 out.new result }
{
    let mut words = [u64::MAX; WORDS];
    let mut supports = [0u16; MAX_SUPPORT_NUMBERS];
    let mut counts = shape.tuples;
    let relations = shape.count;
    let answer = filter(
        shape,
        variables,
        values,
        m,
        members,
        &mut words,
        &mut supports,
        &mut counts[..relations],
    );
    print(shape, variables, values, answer, &words, out)
}

// Copies fields that are not codes to the front of a list of 16-bit numbers.
fn copied(fields: &[u32], into: &mut [u16])
    requires { (small max_field fields.now ≡ true) × (length fields.now ≤ length into.old) }
    ensures { take (length fields.now) into.new ≡ fields.now }
{
    for (i, field) in fields.iter().enumerate() {
        into[i] = *field as u16;
    }
}

// Reads a text: the network's lists and the combinations' members go to the front of the lists, which may hold anything where the text is
// not in the form.
fn opened(
    text: &[u8],
    variables: &mut [u16; MAX_VARIABLES],
    values: &mut [Value; MAX_VALUES],
    members: &mut [u16; MAX_MEMBER_LIST],
) -> Book
    ensures { Opened text.now result variables.new values.new members.new }
{
    let mut variable_fields = [0u32; MAX_VARIABLES];
    let mut member_fields = [0u32; MAX_MEMBER_LIST];
    let book = read(text, &mut variable_fields, values, &mut member_fields);
    if !book.ok {
        return book;
    }
    let variable_end = book.variables;
    let member_end = book.members;
    copied(&variable_fields[..variable_end], variables);
    copied(&member_fields[..member_end], members);
    book
}

// Writes the listing of a text of any length at the front of the buffer, which behind it stays as lent; the number of bytes written.
pub fn listing(text: &[u8], out: &mut [u8; OUTPUT]) -> usize
    ensures room { (result ≤ length out.new) × (result ≡ length (take result out.new)) }
    ensures text { (result ≡ length (listing text.now)) × (out.new ≡ listing text.now ++ drop result out.old) }
{
    let mut variables = [0u16; MAX_VARIABLES];
    let mut values = [0u32; MAX_VALUES];
    let mut members = [0u16; MAX_MEMBER_LIST];
    let book = opened(text, &mut variables, &mut values, &mut members);
    if !book.ok {
        return refused(out);
    }
    let variable_count = book.variables;
    let value_count = book.values;
    let member_count = book.members;
    filtered(
        book.shape,
        &variables[..variable_count],
        &values[..value_count],
        book.m,
        &members[..member_count],
        out,
    )
}

// Writes, as `listing` does, the connected combinations of the m asked, whatever m and combinations stand in the text.
pub fn combination_listing(asked: u16, text: &[u8], out: &mut [u8; OUTPUT]) -> usize
    ensures room { (result ≤ length out.new) × (result ≡ length (take result out.new)) }
    ensures text { (result ≡ length (combination_listing asked text.now)) × (out.new ≡ combination_listing asked text.now ++ drop result out.old) }
{
    let mut variables = [0u16; MAX_VARIABLES];
    let mut values = [0u32; MAX_VALUES];
    let mut members = [0u16; MAX_MEMBER_LIST];
    let book = opened(text, &mut variables, &mut values, &mut members);
    if !book.ok {
        return refused(out);
    }
    let variable_count = book.variables;
    let value_count = book.values;
    listed(
        book.shape,
        &variables[..variable_count],
        &values[..value_count],
        asked,
        out,
    )
}

// Writes the combinations that are asked for by a line with m and a text behind it.
pub fn asked_listing(input: &[u8], out: &mut [u8; OUTPUT]) -> usize
    ensures room { (result ≤ length out.new) × (result ≡ length (take result out.new)) }
    ensures text { (result ≡ length (asked_listing input.now)) × (out.new ≡ asked_listing input.now ++ drop result out.old) }
{
    let m = field(input, 0, MAX_FIELD, NEWLINE);
    if m.next == 0 {
        return refused(out);
    }
    let next = m.next;
    let end = input.len();
    combination_listing(m.value as u16, &input[next..end], out)
}
