// How much room the counters of bounds take.
ghost use Rattle.std.specs.Prelude.{◌≡◌, ◌≤◌};
ghost use Rattle.lls_problem.specs.Bounds.{most_counters, all_counter_vars};
ghost use Rattle.lls_least.specs.Bounded.{counters_with_one_more};

use lls_grid::History;
use lls_problem::{Bound, Problem};

/// How many variables the counters of a problem's bounds have, together with a counter of all cells of a generation: at most
/// `Bounds::MOST_COUNTERS` exactly where `beyond` and `extremal` can be asked of the problem.
pub fn counters_with_one_more(problem: &Problem) -> u64
    ensures { result ≡ counters_with_one_more problem.now }
{
    let posed = problem.posed();
    let size = posed.width * posed.height;
    let one_more = u64::from(size) * u64::from(size);
    counters(size, problem.demands().bounds.items()) + one_more
}

// How many variables the counters of these bounds have.
fn counters(size: u32, bounds: &[Bound]) -> u64
    requires size { size ≤ History.MOST_CELLS }
    requires few { all_counter_vars size bounds.now ≤ most_counters }
    ensures { result ≡ all_counter_vars size bounds.now }
{
    let mut count = 0u64;
    for bound in bounds {
        count += u64::from(size) * u64::from(bound.counter_top(size));
    }
    count
}
