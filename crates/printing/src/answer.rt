// The answer's line, and a whole reply.
ghost use Rattle.std.specs.Prelude.{◌≡◌, false};
ghost use Rattle.model.specs.Reply.{answer_numbers};
ghost use Rattle.model.specs.Listing.{answer_line};
ghost use Rattle.layout.specs.Shape.{network_of};
ghost use Rattle.printing.specs.Lines.{is_refusal, Accepted, Printed};

use super::text::line;
use super::tuples::tuple_lines;
use layout::{Shape, starts_of};
use model::{Answer, Value};

// Room for every reply: the answer's line takes at most 44 bytes, each of 4,096 tuples at most 22 before its values, and the values
// what they took in a text of 32,768 bytes: 122,924 together.
pub const OUTPUT: usize = 131072;

// An answer's kind.
const SETTLED: u32 = 0;

const EMPTIED: u32 = 1;

const REFUSED: u32 = 2;

// The subject of a settled answer: no relation is empty.
const NO_RELATION: u32 = 64;

// The fields of the answer's line: kind, subject, left, deleted.
fn answer_fields(answer: Answer) -> [u32; 4]
    ensures { result ≡ answer_line (answer_numbers answer) }
{
    match answer {
        Answer::Settled(k) => [SETTLED, NO_RELATION, k.left as u32, k.deleted as u32],
        Answer::Emptied(r, k) => [EMPTIED, r as u32, k.left as u32, k.deleted as u32],
        Answer::Refused(f) => [REFUSED, f as u32, 0, 0],
    }
}

// Writes the reply that has this answer and leaves these words, and gives the number of bytes. No line shows a variable: they are lent
// for the contract.
pub fn print(
    shape: Shape,
    variables: &[u16],
    values: &[Value],
    answer: Answer,
    words: &[u64],
    out: &mut [u8; OUTPUT],
) -> usize
    requires { is_refusal answer ≡ false → Accepted (network_of shape variables.now values.now) words.now }
    ensures { Printed (network_of shape variables.now values.now) answer words.now out.old out.new result }
{
    let fields = answer_fields(answer);
    let n = line(out, 0, &fields);
    if fields[0] == REFUSED {
        return n;
    }
    let starts = starts_of(shape);
    tuple_lines(values, &starts, words, out, n)
}
