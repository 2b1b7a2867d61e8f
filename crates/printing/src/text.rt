// Numbers, fields and lines.
ghost use Rattle.std.specs.Prelude.{[], ◌∷◌, ◌++◌, ◌+◌, ◌≤◌, ◌<◌, length};
ghost use Rattle.model.specs.Text.{decimal, line_text};
ghost use Rattle.printing.specs.Appended.{Appended};

use model::Value;

// A newline ends a line's last field, a comma every other.
const NEWLINE: u8 = 10;

const COMMA: u8 = 44;

// The digit 0; the other nine follow it.
const NOUGHT: u8 = 48;

// Writes v in decimal, from `at` on. Every function here gives the place behind what it wrote.
fn digits(out: &mut [u8], at: usize, v: u32) -> usize
    requires { at + length (decimal v) ≤ length out.old }
    ensures { Appended (decimal v) out.old at out.new result }
{
    if v < 10 {
        out[at] = NOUGHT + v as u8;
        return at + 1;
    }
    let n = digits(out, at, v / 10);
    out[n] = NOUGHT + (v % 10) as u8;
    n + 1
}

// Writes a field and the byte that ends it.
fn field(out: &mut [u8], at: usize, v: u32, end: u8) -> usize
    requires { at + length (decimal v) < length out.old }
    ensures { Appended (decimal v ++ (end ∷ [])) out.old at out.new result }
{
    let n = digits(out, at, v);
    out[n] = end;
    n + 1
}

// Writes a line of these fields.
pub fn line(out: &mut [u8], at: usize, fields: &[u32]) -> usize
    requires { (0 < length fields.now) × (at + length (line_text fields.now) ≤ length out.old) }
    ensures { Appended (line_text fields.now) out.old at out.new result }
{
    let last = fields.len() - 1;
    let mut n = at;
    for v in &fields[..last] {
        n = field(out, n, *v, COMMA);
    }
    field(out, n, fields[last], NEWLINE)
}

// Writes a tuple's line: its relation, its index, its values.
pub fn tuple_line(out: &mut [u8], at: usize, relation: u16, index: u16, values: &[Value]) -> usize
    requires { (0 < length values.now) × (at + length (line_text (relation ∷ index ∷ values.now)) ≤ length out.old) }
    ensures { Appended (line_text (relation ∷ index ∷ values.now)) out.old at out.new result }
{
    let k = field(out, at, u32::from(relation), COMMA);
    let n = field(out, k, u32::from(index), COMMA);
    line(out, n, values)
}
