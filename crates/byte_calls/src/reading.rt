// The calls that write nothing, on bytes: decode and run.
ghost use Rattle.std.specs.Prelude.{◌≡◌, ◌/◌, ◌≤◌, min, length};
ghost use Rattle.model.specs.Reply.{test_reply, compare_reply};
ghost use Rattle.layout.specs.Loan.{entry};
ghost use Rattle.layout.specs.Shape.{instance_of};
ghost use Rattle.wire.specs.Entries.{entries64};
ghost use Rattle.encoding.specs.Packed.{packed_pair};
ghost use Rattle.encoding.specs.Call.{byte_book, byte_network, byte_instance};

use super::{FEW_VALUES, MANY_VALUES};
use consistency::all_supported;
use encoding::packing::{pack_comparison, pack_verdict};
use encoding::sheets::shape_at;
use layout::{Shape, tuple_count, wide};
use live::{WORDS, words_for};
use model::{Value, Verdict};
use network::comparison::compare;
use request::checks::test_checked;
use wire::load;

// Test, on decoded lists. Only the needed words are decoded.
fn test_decoded(
    shape: Shape,
    variables: &[u16],
    values: &[Value],
    m: u16,
    members: &[u16],
    marks: &[u8],
) -> u64
    ensures { result ≡ packed_pair (test_reply (instance_of shape variables.now values.now m members.now) (entries64 marks.now)) }
{
    let opening = test_checked(shape, variables, values, m, members, marks.len() / 8);
    if opening.fault != 0 {
        return pack_verdict(Verdict::Refused(opening.fault));
    }
    let starts = opening.starts;
    let mut words = [0u64; WORDS];
    load(&marks[..8 * words_for(tuple_count(&starts))], &mut words);
    if all_supported(variables, values, &starts, members, wide(m), &words) {
        return pack_verdict(Verdict::Yes);
    }
    pack_verdict(Verdict::No)
}

// Test, with room for ROOM values: for all that there are, or for one more than any accepted list has.
fn test_sized<const ROOM: usize>(
    sheets: &[u8],
    questions: &[u8],
    codes: &[u8],
    m: u16,
    combinations: &[u8],
    marks: &[u8],
) -> u64
    requires { (ROOM ≤ 32769) × (min 32769 (length codes.now / 4) ≤ ROOM) }
    ensures { result ≡ packed_pair (test_reply (byte_instance (byte_book entry sheets questions codes m combinations)) (entries64 marks.now)) }
{
    let mut variables = [0u16; 513];
    let mut values = [0u32; ROOM];
    let mut members = [0u16; 1025];
    let shape = shape_at(sheets);
    let variable_count = load(questions, &mut variables);
    let value_count = load(codes, &mut values);
    let member_count = load(combinations, &mut members);
    test_decoded(
        shape,
        &variables[..variable_count],
        &values[..value_count],
        m,
        &members[..member_count],
        marks,
    )
}

// Test, on lists that are whole.
pub fn test_bytes(
    sheets: &[u8],
    questions: &[u8],
    codes: &[u8],
    m: u16,
    combinations: &[u8],
    marks: &[u8],
) -> u64
    ensures { result ≡ packed_pair (test_reply (byte_instance (byte_book entry sheets questions codes m combinations)) (entries64 marks.now)) }
{
    if codes.len() <= 4 * FEW_VALUES {
        return test_sized::<FEW_VALUES>(sheets, questions, codes, m, combinations, marks);
    }
    test_sized::<MANY_VALUES>(sheets, questions, codes, m, combinations, marks)
}

// Compare, with room for ROOM values, as test.
fn compare_sized<const ROOM: usize>(
    sheets: &[u8],
    questions: &[u8],
    codes: &[u8],
    a: u16,
    b: u16,
) -> u64
    requires { (ROOM ≤ 32769) × (min 32769 (length codes.now / 4) ≤ ROOM) }
    ensures { result ≡ packed_pair (compare_reply (byte_network sheets.now questions.now codes.now) a b) }
{
    let mut variables = [0u16; 513];
    let mut values = [0u32; ROOM];
    let shape = shape_at(sheets);
    let variable_count = load(questions, &mut variables);
    let value_count = load(codes, &mut values);
    pack_comparison(compare(
        shape,
        &variables[..variable_count],
        &values[..value_count],
        a,
        b,
    ))
}

// Compare, on lists that are whole.
pub fn compare_bytes(sheets: &[u8], questions: &[u8], codes: &[u8], a: u16, b: u16) -> u64
    ensures { result ≡ packed_pair (compare_reply (byte_network sheets.now questions.now codes.now) a b) }
{
    if codes.len() <= 4 * FEW_VALUES {
        return compare_sized::<FEW_VALUES>(sheets, questions, codes, a, b);
    }
    compare_sized::<MANY_VALUES>(sheets, questions, codes, a, b)
}
