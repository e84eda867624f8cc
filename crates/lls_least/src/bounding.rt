// A problem with one more bound on its live cells.
ghost use Rattle.std.specs.Prelude.{◌≡◌, ◌<◌, ◌≤◌, Ok, IfOk};
ghost use Rattle.lls_problem.specs.Bounds.{grid_size};
ghost use Rattle.lls_problem.specs.Problem.{problem_made};
ghost use Rattle.lls_least.specs.Bounded.{bounded, fewer, more, on_first, problem_beyond, IsWithin, LeavesRoom};

use crate::copying::{copy_of, with_bound};
use crate::extreme::Extreme;
use lls_base::Memory;
use lls_problem::{Bound, Problem, make_problem};
use std::alloc::Global;

// The same file, rule and demands, and a bound on generation 0 behind the other ones.
fn bounded(alloc: Global, problem: &Problem, low: u32, high: Option<u32>) -> Result<Problem, Memory>
    requires room { LeavesRoom problem.now }
    requires within { IsWithin (grid_size problem.now.posed) (on_first low high) }
    ensures bounded { IfOk result (λ more. more ≡ bounded problem.now (on_first low high)) }

    // It is what the file, the rule and these demands are put together to.
    ensures made { problem_made problem.now.posed problem.now.rule (bounded problem.now (on_first low high)).demands ≡ Ok (bounded problem.now (on_first low high)) }
{
    // That the demands fit the file is known from here on.
    let demands = problem.demands();
    let bound = Bound {
        generation: 0,
        low,
        high,
    };
    let posed = copy_of(alloc, problem.posed())?;
    let demands = with_bound(alloc, demands, bound)?;
    let Ok(bounded) = make_problem(posed, *problem.rule(), demands) else {
        unreachable!()
    };
    Ok(bounded)
}

/// The problem in which at most `k` cells of generation 0 are live besides all that was demanded before: the same file, rule and
/// demands, and this bound behind the other ones.
pub fn fewer(alloc: Global, problem: &Problem, k: u32) -> Result<Problem, Memory>
    requires room { LeavesRoom problem.now }
    requires below { k < grid_size problem.now.posed }
    ensures fewer { IfOk result (λ bounded. bounded ≡ fewer problem.now k) }

    // It is what the file, the rule and these demands are put together to.
    ensures made { problem_made problem.now.posed problem.now.rule (fewer problem.now k).demands ≡ Ok (fewer problem.now k) }
{
    bounded(alloc, problem, 0, Some(k))
}

/// The problem in which at least `k` cells of generation 0 are live besides all that was demanded before, likewise.
pub fn more(alloc: Global, problem: &Problem, k: u32) -> Result<Problem, Memory>
    requires room { LeavesRoom problem.now }
    requires within { k ≤ grid_size problem.now.posed }
    ensures more { IfOk result (λ bounded. bounded ≡ more problem.now k) }

    // It is what the file, the rule and these demands are put together to.
    ensures made { problem_made problem.now.posed problem.now.rule (more problem.now k).demands ≡ Ok (more problem.now k) }
{
    bounded(alloc, problem, k, None)
}

/// The problem whose solutions have fewer than `live` live cells in generation 0, or more. None where a grid has no room for them: nothing has
/// fewer live cells than none, or more than all.
pub fn beyond(
    alloc: Global,
    problem: &Problem,
    extreme: Extreme,
    live: u32,
) -> Result<Option<Problem>, Memory>
    requires room { LeavesRoom problem.now }
    requires within { live ≤ grid_size problem.now.posed }
    ensures { IfOk result (λ next. next ≡ problem_beyond extreme problem.now live) }
{
    let posed = problem.posed();
    match extreme {
        Extreme::Fewest if live == 0 => Ok(None),
        Extreme::Fewest => Ok(Some(fewer(alloc, problem, live - 1)?)),
        Extreme::Most if live == posed.width * posed.height => Ok(None),
        Extreme::Most => Ok(Some(more(alloc, problem, live + 1)?)),
    }
}
