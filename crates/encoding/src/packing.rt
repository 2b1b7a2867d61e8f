// Answers as one number.
ghost use Rattle.std.specs.Prelude.{◌≡◌, ◌^◌, ◌<◌};
ghost use Rattle.model.specs.Reply.{with_counts, answer_numbers, verdict_numbers, comparison_numbers};
ghost use Rattle.model.specs.Enumeration.{enumeration_numbers};
ghost use Rattle.encoding.specs.Packed.{packed_counts, packed, packed_pair};

use model::{Answer, Comparison, Counts, Enumeration, NO_VARIABLE, Verdict};

// The counts, 16 bits each.
fn pack_counts(k: Counts) -> u64
    ensures { (result ≡ packed_counts k.left k.withdrawn k.deleted) × (result < 2 ^ 48) }
{
    let left = k.left as u64;
    let withdrawn = k.withdrawn as u64;
    let deleted = k.deleted as u64;
    left + 65536 * (withdrawn + 65536 * deleted)
}

// Kind, subject and counts.
fn pack_numbers(kind: u64, subject: u64, k: Counts) -> u64
    requires { (kind < 256) × (subject < 256) }
    ensures { result ≡ packed (with_counts kind subject k) }
{
    kind + 256 * (subject + 256 * pack_counts(k))
}

// The answer of a change call.
pub fn pack(a: Answer) -> u64
    requires { (answer_numbers a).subject < 256 }
    ensures { result ≡ packed (answer_numbers a) }
{
    match a {
        Answer::Settled(k) => pack_numbers(0, 64, k),
        Answer::Emptied(r, k) => pack_numbers(1, r as u64, k),
        Answer::Refused(f) => pack_numbers(
            2,
            f as u64,
            Counts {
                left: 0,
                withdrawn: 0,
                deleted: 0,
            },
        ),
    }
}

// The answer of test.
pub fn pack_verdict(v: Verdict) -> u64
    ensures { result ≡ packed_pair (verdict_numbers v) }
{
    match v {
        Verdict::No => 0,
        Verdict::Yes => 1,
        Verdict::Refused(f) => 2 + 256 * (f as u64),
    }
}

// The answer of compare.
pub fn pack_comparison(a: Comparison) -> u64
    ensures { result ≡ packed_pair (comparison_numbers a) }
{
    match a {
        Comparison::Differ(x) => 256 * (x as u64),
        Comparison::Agree => 1 + 256 * (NO_VARIABLE as u64),
        Comparison::Refused(f) => 2 + 256 * (f as u64),
    }
}

// The answer of the listing of combinations.
pub fn pack_enumeration(a: Enumeration) -> u64
    ensures { result ≡ packed (enumeration_numbers a) }
{
    match a {
        Enumeration::Listed(n) => pack_numbers(
            0,
            0,
            Counts {
                left: n,
                withdrawn: 0,
                deleted: 0,
            },
        ),
        Enumeration::Refused(f) => pack_numbers(
            2,
            f as u64,
            Counts {
                left: 0,
                withdrawn: 0,
                deleted: 0,
            },
        ),
    }
}
