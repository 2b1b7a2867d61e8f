// The lines of combinations.
ghost use Rattle.std.specs.Prelude.{◌+◌, ◌≤◌, ◌<◌, length};
ghost use Rattle.model.specs.Combination.{combinations};
ghost use Rattle.model.specs.Text.{text_of};
ghost use Rattle.printing.specs.Appended.{Appended};

use super::text::line;

// Writes the line of each combination of a list that holds m members of each, end to end.
pub fn combination_lines(members: &[u32], m: usize, out: &mut [u8], at: usize) -> usize
    requires { (0 < m) × (at + length (text_of (combinations m members.now)) ≤ length out.old) }
    ensures { Appended (text_of (combinations m members.now)) out.old at out.new result }
{
    let mut n = at;
    for combination in members.chunks_exact(m) {
        n = line(out, n, combination);
    }
    n
}
