// Relation records as bytes, and the live counts in them.
ghost use Rattle.std.specs.Prelude.{◌≡◌, ◌*◌, ◌≤◌, length};
ghost use Rattle.model.specs.Limits.{max_relations};
ghost use Rattle.layout.specs.Shape.{padded, shape_of};
ghost use Rattle.encoding.specs.Records.{records, counts_in, with_counts};

use layout::Shape;
use model::MAX_RELATIONS;
use wire::{Entry, least};

// The relation records taken apart.
pub fn shape_at(sheets: &[u8]) -> Shape
    ensures { result ≡ shape_of (records sheets.now) }
{
    let count = sheets.len() / 6;
    let first = least(count, MAX_RELATIONS);
    let mut widths = [0u16; 64];
    let mut tuples = [0u16; 64];
    for r in 0..first {
        widths[r] = u16::at(sheets, 3 * r);
        tuples[r] = u16::at(sheets, 3 * r + 1);
    }
    Shape {
        count,
        widths,
        tuples,
    }
}

// The live counts of the first 64 records, and noughts behind them.
pub fn counts_at(sheets: &[u8]) -> [u16; 64]
    ensures { result ≡ padded max_relations (counts_in sheets.now) }
{
    let first = least(sheets.len() / 6, MAX_RELATIONS);
    let mut counts = [0u16; 64];
    for r in 0..first {
        counts[r] = u16::at(sheets, 3 * r + 2);
    }
    counts
}

// The counts become those of the first records, and every other byte stays.
pub fn put_counts(counts: &[u16], sheets: &mut [u8])
    requires { 6 * length counts.now ≤ length sheets.old }
    ensures { sheets.new ≡ with_counts sheets.old counts.now }
{
    for (r, count) in counts.iter().enumerate() {
        count.put(sheets, 3 * r + 2);
    }
}
