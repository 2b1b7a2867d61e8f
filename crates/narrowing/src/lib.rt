// Forward checking by words: the live tuples narrowed by the value index, to those that may agree with a tuple.
#![tactic(auto)]

ghost use Rattle.std.specs.Prelude.{◌≡◌, ℕ, ◌+◌, ◌^◌, ◌≤◌, ◌<◌, ltb, length};
ghost use Rattle.model.specs.Limits.{max_relations, max_tuples};
ghost use Rattle.model.specs.LiveWords.{is_set, words_for};
ghost use Rattle.layout.specs.Loan.{entry};
ghost use Rattle.layout.specs.Setting.{lists};
ghost use Rattle.value_index.specs.Index.{row_bit};
ghost use Rattle.narrowing.specs.Narrows.{Long, Kept, KeptIds, first_in, end_in, BitsBetween, Others, Seeks, NarrowsMember, NarrowsMembers};

use kept::keep_rows;
use layout::{Starts, tuple_start, wide};
use live::{Words, next};
use model::Value;
use rows::{TUPLE_ROWS, rows_for};
use value_index::{Index, scope_bits};

pub mod sieve; // tuples passed over by one bit of their value
pub mod columns; // the columns that two relations share
pub mod rows; // the rows of a tuple's values in them
pub mod kept; // live words narrowed to the ids in all of them
pub mod gather; // .. and such ids gathered in other words

// The word whose bit j is 1 where base + j is below the bound.
fn below(base: u16, bound: u16) -> u64
    ensures { (result < 2 ^ 64) × ((j : ℕ) → j < 64 → is_set result j ≡ ltb (base + j) bound) }
{
    if bound <= base {
        return 0;
    }
    let k = bound - base;
    if 64 <= k {
        return !0u64;
    }
    (1u64 << k) - 1
}

// The word whose bit j is 1 where id 64 * i + j is from start on and below end.
fn between(i: usize, start: u16, end: u16) -> u64
    requires { i < 64 }
    ensures { BitsBetween i start end result }
{
    let base = (i * 64) as u16;
    !below(base, start) & below(base, end)
}

// The ids of word i, of those from start on and below end, whose bit in the words from `first` on is 0, are dead, and every other bit stays.
fn keep_word(rows: &[u64], words: &mut Words, first: usize, i: usize, start: u16, end: u16)
    requires { Long words.old × ((first + i < length rows.now) × (i < 64)) }
    ensures { Long words.new × KeptIds (row_bit rows.now first) (first_in i start) (end_in i end) words.old words.new }
{
    words[i] &= !between(i, start, end) | rows[first + i];
}

// The same for all ids of the words from `from` on and below `to`.
fn keep_words(rows: &[u64], words: &mut Words, first: usize, from: usize, to: usize)
    requires { Long words.old × ((first + to ≤ length rows.now) × ((from ≤ to) × (to ≤ 64))) }
    ensures { Long words.new × Kept (row_bit rows.now first) from to words.old words.new }
{
    for i in from..to {
        words[i] &= rows[first + i];
    }
}

// Of the ids from start on and below end, those whose bit is 0 in the row that begins at word `first` are dead, and every other bit stays.
pub fn keep(rows: &[u64], words: &mut Words, first: usize, start: u16, end: u16)
    requires { Long words.old × ((end ≤ max_tuples) × (first + words_for end ≤ length rows.now)) }
    ensures { Long words.new × KeptIds (row_bit rows.now first) start end words.old words.new }
{
    if end <= start {
        return;
    }
    let i = wide(start / 64);
    let last = wide((end - 1) / 64);
    keep_word(rows, words, first, i, start, end);
    if i < last {
        keep_words(rows, words, first, i + 1, last);
        keep_word(rows, words, first, last, start, end);
    }
}

// Relation s's ids narrowed for tuple x of relation r. False where none of them is live any more.
pub fn narrow_member(
    variables: &[u16],
    values: &[Value],
    starts: &Starts,
    index: &Index,
    words: &mut Words,
    r: u16,
    x: u16,
    s: u16,
) -> bool
    requires { Long words.old × (Seeks (lists (λ x. x.now) variables values starts) index.now r x × (s < max_relations)) }
    ensures { NarrowsMember (lists entry variables values starts) r x s words.old words.new result }
{
    let start = tuple_start(starts, s);
    let end = tuple_start(starts, s + 1);
    if scope_bits(index, r) & scope_bits(index, s) == 0 {
        return next(words, start, end) < end;
    }
    let mut rows = [0u16; TUPLE_ROWS];
    let n = rows_for(variables, values, starts, index, r, x, s, &mut rows);
    keep_rows(index, &rows, n, words, start, end) != 0
}

// The tuples of each member from k on, but the one at `place`, narrowed for tuple x of relation r, which is none of these.
// False where one of them has no live tuple left.
pub fn narrow_members(
    variables: &[u16],
    values: &[Value],
    starts: &Starts,
    index: &Index,
    words: &mut Words,
    members: &[u16],
    place: usize,
    k: usize,
    r: u16,
    x: u16,
) -> bool
    requires { Long words.old × (Seeks (lists (λ x. x.now) variables values starts) index.now r x × Others members.now place k r) }
    ensures { NarrowsMembers (lists entry variables values starts) members.now place k r x words.old words.new result }
{
    for j in k..members.len() {
        if j != place {
            if !narrow_member(variables, values, starts, index, words, r, x, members[j]) {
                return false;
            }
        }
    }
    true
}
