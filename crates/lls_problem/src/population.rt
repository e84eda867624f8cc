// The first bound that the live cells of its generation are outside of.
ghost use Rattle.std.specs.Prelude.{◌≡◌};
ghost use Rattle.lls_problem.specs.Judgement.{HasItsSizes};
ghost use Rattle.lls_problem.specs.Outside.{first_outside};

use crate::Problem;
use lls_grid::History;

/// How many cells of a generation are live.
#[derive(Clone, Copy)]
pub struct Count {
    pub t: u32,
    pub live: u32,
}

/// The live cells of the first bound that isn't kept.
pub fn first_outside(problem: &Problem, history: &History) -> Option<Count>
    requires { HasItsSizes problem.now history.now }
    ensures { result ≡ first_outside problem.now history.now }
{
    for bound in problem.demands().bounds.items() {
        let live = history.population(bound.generation);
        if bound.excludes(live) {
            return Some(Count {
                t: bound.generation,
                live,
            });
        }
    }
    None
}
