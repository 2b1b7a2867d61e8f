// Pairs of variables and values as bytes: two lists of any length, read where they lie.
ghost use Rattle.request.specs.Choices.{ChoicesOf};
ghost use Rattle.wire.specs.Entries.{entries16, entries32};

use model::{ANY_VALUE, VARIABLES};
use request::choices::{Choices, add_choice, lesser};
use wire::Entry;

// The pairs of two lists.
pub fn choices_at(questions: &[u8], codes: &[u8]) -> Choices
    ensures { ChoicesOf result (entries16 questions.now) (entries32 codes.now) }
{
    let variables = questions.len() / 2;
    let values = codes.len() / 4;
    let count = lesser(variables, values);
    let mut firsts = [ANY_VALUE; VARIABLES];
    let mut seconds = [ANY_VALUE; VARIABLES];
    let mut bound = 0;
    for i in 0..count {
        let x = u16::at(questions, i);
        let v = u32::at(codes, i);
        bound = add_choice(&mut firsts, &mut seconds, bound, x, v);
    }
    Choices {
        variables,
        values,
        bound,
        firsts,
        seconds,
    }
}
