// The columns that two relations share, found once for the two of them.
ghost use Rattle.std.specs.Prelude.{◌≤◌, ◌<◌, length};
ghost use Rattle.model.specs.Limits.{max_relations, max_width};
ghost use Rattle.narrowing.specs.TupleRows.{Found, Shares};

use layout::column_of;
use model::MAX_WIDTH;
use value_index::{Index, column_start};

// By the columns of a relation, where the rows of another one's column of the same variable begin; 0 where it has none.
pub type Columns = [usize; MAX_WIDTH];

// Where the rows of relation s's column of variable v begin; 0 if its scope has no such column, or the column no rows.
fn column_rows(index: &Index, scope: &[u16], s: u16, v: u16) -> usize
    requires { (s < max_relations) × (length scope.now ≤ max_width) }
    ensures { Found scope.now index.now s v result }
{
    let c = column_of(scope, v);
    if scope.len() <= c {
        return 0;
    }
    column_start(index, s, c as u16)
}

// The columns of scope a that scope b, which is relation s's, has too.
pub fn shared_columns(index: &Index, scope_a: &[u16], scope_b: &[u16], s: u16) -> Columns
    requires { (s < max_relations) × ((length scope_a.now ≤ max_width) × (length scope_b.now ≤ max_width)) }
    ensures { Shares scope_a.now scope_b.now index.now s result }
{
    let mut columns = [0; MAX_WIDTH];
    for (i, v) in scope_a.iter().enumerate() {
        columns[i] = column_rows(index, scope_b, s, *v);
    }
    columns
}
