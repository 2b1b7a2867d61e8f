// The rows of a value's digits, by what the plan says of all columns alike. That is read once for many tuples: the word at which a tuple is
// entered might be one of the plan's, for all that a compiler knows, so that each entry would have it read again.
ghost use Rattle.std.specs.Prelude.{◌≡◌, ◌<◌};
ghost use Rattle.value_index.specs.Plan.{hashes, digit_count, row_plan, mixed, hash_at, hash_behind, row_of, ColumnRows, SoundPlan};

use super::{DIGIT_ROWS, DIGITS, FACTOR, HASHES, Index, MIXES, ROW_WORDS};
use model::Value;

// A factor that spreads hashes.
const FURTHER: u64 = 2246822507;

// How many words a row has, how many digits a value has, how many rows a digit has, what a value is multiplied by, and whether the product
// is mixed, which is 0 if it is not.
#[derive(Clone, Copy)]
pub struct RowPlan {
    pub words: u64,
    pub digits: u64,
    pub rows: u64,
    pub factor: u64,
    pub mixes: u64,
}

// What the index says of them.
pub fn row_plan(index: &Index) -> RowPlan
    ensures { result ≡ row_plan index.now }
{
    RowPlan {
        words: index[ROW_WORDS],
        digits: index[DIGITS],
        rows: index[DIGIT_ROWS],
        factor: index[FACTOR],
        mixes: index[MIXES],
    }
}

// A hash mixed: its high bits go into the low ones, the factor takes those up again, and the high ones go into the low once more.
#[tactic(auto, unfolding(crate::specs::Plan::mixed))]
pub fn mix(hash: u64) -> u64
    ensures { result ≡ mixed hash }
{
    let folded = (hash ^ (hash / 32768)) % HASHES;
    let further = folded * FURTHER % HASHES;
    (further ^ (further / 8192)) % HASHES
}

// The hash of a value, of which its first digit is made.
pub fn hash_of(index: &Index, plan: RowPlan, value: Value) -> u64
    requires { SoundPlan index.now × (plan ≡ row_plan index.now) }
    ensures { result ≡ hash_at index.now value 0 }
{
    let hash = value as u64 * plan.factor % HASHES;
    if plan.mixes == 0 {
        return hash;
    }
    mix(hash)
}

// The hash of which the digit behind is made: what is left of this one, its digit taken out.
pub fn hash_behind(index: &Index, plan: RowPlan, hash: u64) -> u64
    requires { SoundPlan index.now × ((plan ≡ row_plan index.now) × (hash < hashes)) }
    ensures { result ≡ hash_behind index.now hash }
{
    hash * plan.rows % HASHES
}

// The word at which the row of digit i begins, which is made of a hash, among the rows that begin at `start`.
pub fn row_of(index: &Index, plan: RowPlan, start: usize, hash: u64, i: u64) -> usize
    requires sound_plan { SoundPlan index.now × (ColumnRows index.now start × ((hash < hashes) × (i < digit_count index.now))) }
    requires plan_value { plan ≡ row_plan index.now }
    ensures { result ≡ row_of index.now start hash i }
{
    let rows = plan.rows;
    let words = plan.words;
    start + ((i * rows + hash * rows / HASHES) * words) as usize
}
