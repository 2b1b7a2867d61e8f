// The connected combinations of a network, written as a text.
ghost use Rattle.std.specs.Prelude.{◌≡◌, ℕ, ◌*◌, ◌≤◌, ◌<◌, length, take, replicate};
ghost use Rattle.model.specs.declared.Enumeration.TheVariants.{Listed};
ghost use Rattle.model.specs.Edges.{max_member_list};
ghost use Rattle.model.specs.Enumeration.{enumerated, enumeration_reply};
ghost use Rattle.model.specs.Text.{text_of};
ghost use Rattle.model.specs.Listing.{enumeration_lines};
ghost use Rattle.layout.specs.Shape.{network_of};
ghost use Rattle.printing.specs.Appended.{Appended};

use enumeration::{MEMBER_LIST, combinations};
use layout::{Shape, wide};
use model::{Enumeration, Value};
use printing::answer::OUTPUT;
use printing::combinations::combination_lines;
use printing::text::line;

// The kinds of an answer.
const LISTED: u32 = 0;

const REFUSED: u32 = 2;

// Copies members to the front of a list of fields.
fn widened(members: &[u16], into: &mut [u32])
    requires { length members.now ≤ length into.old }
    ensures { take (length members.now) into.new ≡ members.now }
{
    for (i, member) in members.iter().enumerate() {
        into[i] = u32::from(*member);
    }
}

// Writes that so many combinations of m members are listed, and each of them; the number of bytes written.
fn print_listed(count: u16, m: u16, members: &[u16], out: &mut [u8; OUTPUT]) -> usize
    requires { (length members.now ≡ max_member_list) × ((0 < m) × (count * m ≤ max_member_list)) }
    ensures { Appended (text_of (enumeration_lines m (enumerated (Listed count) members.now))) out.old 0 out.new result }
{
    let fields = [LISTED, 0, count as u32, 0];
    let n = line(out, 0, &fields);
    let each = wide(m);
    let end = wide(count) * each;
    let mut numbers = [0u32; MEMBER_LIST];
    widened(&members[..end], &mut numbers);
    combination_lines(&numbers[..end], each, out, n)
}

// Writes an answer, and the combinations that are listed; the number of bytes written.
fn print(answer: Enumeration, m: u16, members: &[u16], out: &mut [u8; OUTPUT]) -> usize
    requires { (length members.now ≡ max_member_list) × ((n : ℕ) → answer ≡ Listed n → (0 < m) × (n * m ≤ max_member_list)) }
    ensures { Appended (text_of (enumeration_lines m (enumerated answer members.now))) out.old 0 out.new result }
{
    match answer {
        Enumeration::Listed(count) => print_listed(count, m, members, out),
        Enumeration::Refused(f) => {
            let fields = [REFUSED, f as u32, 0, 0];
            line(out, 0, &fields)
        }
    }
}

// Lists a network's connected combinations of m members, and writes the reply; the number of bytes written.
pub fn listed(
    shape: Shape,
    variables: &[u16],
    values: &[Value],
    m: u16,
    out: &mut [u8; OUTPUT],
) -> usize
    ensures { Appended (text_of (enumeration_lines m (enumeration_reply (network_of shape variables.now values.now) m (replicate max_member_list 0)))) out.old 0 out.new result }
{
    let mut members = [0u16; MEMBER_LIST];
    let answer = combinations(shape, variables, values, m, &mut members);
    print(answer, m, &members, out)
}
