// The moves on lists of bytes that are whole: decode, move to an array with room for every network, and encode the values moved.
#![tactic(auto)]

ghost use Rattle.std.specs.Prelude.{◌≡◌};
ghost use Rattle.model.specs.Moves.{widen, narrow, moved_numbers};
ghost use Rattle.encoding.specs.Packed.{packed_pair};
ghost use Rattle.byte_moves.specs.Moves.{whole_moved};

use encoding::sheets::shape_at;
use model::{Moved, refusal};
use moves::{narrow, widen};
use wire::{load, store};

// The most values of a network.
const MOST: usize = 32768;

// The answer as one number.
fn pack_moved(a: Moved) -> u64
    ensures { result ≡ packed_pair (moved_numbers a) }
{
    match a {
        Moved::Done => 0,
        Moved::Refused(f) => 2 + 256 * (f as u64),
    }
}

// To the new form.
pub fn widen_bytes(sheets: &[u8], questions: &[u8], codes: &[u8], target: &mut [u8]) -> u64
    ensures { record { answer = result; target = target.new } ≡ whole_moved widen sheets.now questions.now codes.now target.old }
{
    let mut variables = [0u16; 513];
    let mut values = [0u16; 32769];
    let mut moved = [0u32; MOST];
    let shape = shape_at(sheets);
    let variable_count = load(questions, &mut variables);
    let value_count = load(codes, &mut values);
    let n = pack_moved(widen(
        shape,
        &variables[..variable_count],
        &values[..value_count],
        &mut moved,
    ));
    if n != 0 {
        return n;
    }
    if target.len() / 4 < value_count {
        return pack_moved(Moved::Refused(refusal::TARGET));
    }
    store::<u32>(&moved[..value_count], target);
    n
}

// Back to the old form.
pub fn narrow_bytes(sheets: &[u8], questions: &[u8], codes: &[u8], target: &mut [u8]) -> u64
    ensures { record { answer = result; target = target.new } ≡ whole_moved narrow sheets.now questions.now codes.now target.old }
{
    let mut variables = [0u16; 513];
    let mut values = [0u32; 32769];
    let mut moved = [0u16; MOST];
    let shape = shape_at(sheets);
    let variable_count = load(questions, &mut variables);
    let value_count = load(codes, &mut values);
    let n = pack_moved(narrow(
        shape,
        &variables[..variable_count],
        &values[..value_count],
        &mut moved,
    ));
    if n != 0 {
        return n;
    }
    if target.len() / 2 < value_count {
        return pack_moved(Moved::Refused(refusal::TARGET));
    }
    store::<u16>(&moved[..value_count], target);
    n
}
