// The listing of connected combinations on lists of bytes that are whole: decode the book, find what there is to list, and write it in front
// of the bytes lent.
#![tactic(auto)]

ghost use Rattle.layout.specs.Shape.{network_of};
ghost use Rattle.encoding.specs.Call.{byte_network};
ghost use Rattle.byte_combinations.specs.Listed.{Lists};

use encoding::packing::pack_enumeration;
use encoding::sheets::shape_at;
use enumeration::{MEMBER_LIST, enumerate, listed};
use layout::{Shape, wide};
use model::Value;
use wire::{load, store};

// The call on decoded lists. The bytes lent are not read.
fn combinations_decoded(
    shape: Shape,
    variables: &[u16],
    values: &[Value],
    m: u16,
    combinations: &mut [u8],
) -> u64
    ensures { Lists result (network_of shape variables.now values.now) m combinations.old combinations.new }
{
    let mut found = [0u16; MEMBER_LIST];
    let a = enumerate(
        shape,
        variables,
        values,
        m,
        combinations.len() / 2,
        &mut found,
    );
    let n = listed(a) * wide(m);
    store(&found[..n], combinations);
    pack_enumeration(a)
}

// The call, with room for one entry more than any accepted list has.
pub fn combinations_bytes(
    sheets: &[u8],
    questions: &[u8],
    codes: &[u8],
    m: u16,
    combinations: &mut [u8],
) -> u64
    ensures { Lists result (byte_network sheets.now questions.now codes.now) m combinations.old combinations.new }
{
    let mut variables = [0u16; 513];
    let mut values = [0u32; 32769];
    let shape = shape_at(sheets);
    let variable_count = load(questions, &mut variables);
    let value_count = load(codes, &mut values);
    combinations_decoded(
        shape,
        &variables[..variable_count],
        &values[..value_count],
        m,
        combinations,
    )
}
