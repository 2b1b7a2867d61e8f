// A field of the text, a line of fields, and lines.
ghost use Rattle.std.specs.Prelude.{◌≡◌, ◌+◌, ◌*◌, ◌≤◌, ◌<◌, length, take, drop};
ghost use Rattle.model.specs.Fault.{within};
ghost use Rattle.model.specs.Reading.{read_digits, read_field, read_line, read_lines};
ghost use Rattle.reading.specs.Parts.{found_at, behind, KeptFrom};

// Document 01's bytes, its largest field, and card 9's largest code. The model names them in specs/Text.antt.
pub const NEWLINE: u8 = 10;

const COMMA: u8 = 44;

const NOUGHT: u8 = 48;

const NINE: u8 = 57;

pub const MAX_FIELD: u32 = 65535;

pub const MAX_CODE: u32 = 4294967295;

// A number, and the position behind the byte that ends it; 0 if there is no field.
#[derive(Clone, Copy)]
pub struct Decimal {
    pub value: u32,
    pub next: usize,
}

// The rest of a field of at most `top`: the digits before position `from` made the number `first`.
fn digits(text: &[u8], from: usize, top: u32, first: u32, end: u8) -> Decimal
    ensures read { found_at result.next result.value text.now ≡ read_digits top end first (drop from text.now) }
    ensures inside { result.next ≤ length text.now }
{
    let mut v = first;
    for i in from..text.len() {
        let b = text[i];
        if b == end {
            let next = i + 1;
            return Decimal { value: v, next };
        }
        if b < NOUGHT {
            break;
        }
        if NINE < b {
            break;
        }
        if v == 0 {
            break;
        }
        let w = 10 * u64::from(v) + u64::from(b - NOUGHT);
        if u64::from(top) < w {
            break;
        }
        v = w as u32;
    }
    Decimal { value: 0, next: 0 }
}

// The field of at most `top` at a position, if the byte `end` ends it.
pub fn field(text: &[u8], at: usize, top: u32, end: u8) -> Decimal
    ensures read { found_at result.next result.value text.now ≡ read_field top end (drop at text.now) }
    ensures inside { result.next ≤ length text.now }
{
    if text.len() <= at {
        return Decimal { value: 0, next: 0 };
    }
    let b = text[at];
    if b < NOUGHT {
        return Decimal { value: 0, next: 0 };
    }
    if NINE < b {
        return Decimal { value: 0, next: 0 };
    }
    digits(text, at + 1, top, u32::from(b - NOUGHT), end)
}

// Reads a line of n fields, each at most `top`, into a list, from entry `start` on. Gives the position behind the line; 0 if there is
// no such line.
pub fn line(text: &[u8], at: usize, top: u32, n: usize, into: &mut [u32], start: usize) -> usize
    requires { (0 < n) × (start + n ≤ length into.old) }
    ensures read { found_at result (take (start + n) into.new) text.now ≡ behind (take start into.old) (read_line top n (drop at text.now)) }
    ensures kept { KeptFrom (start + n) into.old into.new }
{
    let last = start + n - 1;
    let mut from = at;
    for to in start..last {
        let f = field(text, from, top, COMMA);
        if f.next == 0 {
            return 0;
        }
        into[to] = f.value;
        from = f.next;
    }
    let f = field(text, from, top, NEWLINE);
    into[last] = f.value;
    f.next
}

// Reads k lines of n fields each, as `line` does. Gives the position behind them; 0 if there are no such lines.
pub fn lines(
    text: &[u8],
    at: usize,
    top: u32,
    k: usize,
    n: usize,
    into: &mut [u32],
    start: usize,
) -> usize
    requires { (0 < at) × (0 < n) × (start + k * n ≤ length into.old) }
    ensures read { found_at result (take (start + k * n) into.new) text.now ≡ behind (take start into.old) (read_lines top k n (drop at text.now)) }
    ensures kept { KeptFrom (start + k * n) into.old into.new }
{
    let mut from = at;
    for i in 0..k {
        from = line(text, from, top, n, into, start + i * n);
        if from == 0 {
            return 0;
        }
    }
    from
}

// A field's number as an index.
pub fn number(x: u32) -> usize
    ensures { (result ≡ x) × (result < 4294967296) }
{
    x as usize
}

// Whether n is one of low to high.
pub fn within(low: usize, high: usize, n: usize) -> bool
    ensures { result ≡ within low high n }
{
    low <= n && n <= high
}
