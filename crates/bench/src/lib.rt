// The functions that the benchmark times, exported as they are.
#![tactic(auto)]

ghost use Rattle.std.specs.Prelude.{◌*◌, ◌≤◌, length};
ghost use Rattle.layout.specs.Setting.{setting, Sound};
ghost use Rattle.network.specs.Tuples.{Columns};
ghost use Rattle.engine.specs.Work.{Room};

use layout::Starts;
use model::Value;

#[unsafe(no_mangle)]
pub extern "C" fn bench_first_clash(
    scope_a: &[u16],
    a: &[Value],
    scope_b: &[u16],
    b: &[Value],
) -> u16
    requires { Columns scope_a.now a.now × Columns scope_b.now b.now }
{
    network::agreement::first_clash(scope_a, a, scope_b, b)
}

#[unsafe(no_mangle)]
pub extern "C" fn bench_next(words: &[u64], start: u16, end: u16) -> u16
    requires { (start ≤ end) × (end ≤ 64 * length words.now) × (end ≤ 4096) }
{
    live::next(words, start, end)
}

#[unsafe(no_mangle)]
pub extern "C" fn bench_count(words: &[u64], start: u16, end: u16) -> u16
    requires { (start ≤ end) × (end ≤ 64 * length words.now) × (end ≤ 4096) }
{
    live::count(words, start, end)
}

#[unsafe(no_mangle)]
pub extern "C" fn bench_filter(
    variables: &[u16],
    values: &[Value],
    starts: &Starts,
    members: &[u16],
    m: u16,
    words: &mut [u64],
    numbers: &mut [u16],
)
    requires { Sound (setting (λ x. x.now) variables values starts members m) × Room (setting (λ x. x.now) variables values starts members m) words.old numbers.old }
{
    engine::filter::filter(variables, values, starts, members, m, words, numbers);
}
