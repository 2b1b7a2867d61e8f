// The lines of live tuples.
ghost use Rattle.std.specs.Prelude.{◌+◌, ◌≤◌, ◌<◌, length};
ghost use Rattle.model.specs.Text.{text_of};
ghost use Rattle.model.specs.Listing.{tuple_lines};
ghost use Rattle.layout.specs.Starts.{relation_count};
ghost use Rattle.printing.specs.Appended.{Appended};
ghost use Rattle.printing.specs.Lines.{rows, relation_text, Printable};

use super::text::tuple_line;
use layout::{Starts, relation_count, tuple_start, value_start, variable_start, wide};
use live::ids::live_ids;
use model::Value;

// Writes the line of each live tuple of relation r.
fn relation_lines(
    values: &[Value],
    starts: &Starts,
    words: &[u64],
    r: u16,
    out: &mut [u8],
    at: usize,
) -> usize
    requires printable { Printable starts.now values.now words.now × (r < relation_count starts.now) }
    requires r_in_bounds { at + length (relation_text starts.now values.now words.now r) ≤ length out.old }
    ensures { Appended (relation_text starts.now values.now words.now r) out.old at out.new result }
{
    let start = tuple_start(starts, r);
    let end = tuple_start(starts, r + 1);
    let first = value_start(starts, r);
    let width = variable_start(starts, r + 1) - variable_start(starts, r);
    let mut n = at;
    for g in live_ids(words, start, end) {
        let index = g - start;
        let place = first + wide(index) * width;
        let place_end = place + width;
        n = tuple_line(out, n, r, index, &values[place..place_end]);
    }
    n
}

// Writes the line of each live tuple of every relation.
pub fn tuple_lines(
    values: &[Value],
    starts: &Starts,
    words: &[u64],
    out: &mut [u8],
    at: usize,
) -> usize
    requires printable { Printable starts.now values.now words.now }
    requires words_in_bounds { at + length (text_of (tuple_lines (rows starts.now values.now) words.now)) ≤ length out.old }
    ensures { Appended (text_of (tuple_lines (rows starts.now values.now) words.now)) out.old at out.new result }
{
    let relations = relation_count(starts);
    let mut n = at;
    for r in 0..relations {
        n = relation_lines(values, starts, words, r, out, n);
    }
    n
}
