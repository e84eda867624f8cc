// The patterns that generation 0 mustn't be.
ghost use Rattle.std.specs.Prelude.{IfSome, IfNone};
ghost use Rattle.lls_grid.specs.History.{cells_of_rows, rows_at};
ghost use Rattle.lls_problem.specs.Solution.{IsUnlisted};
ghost use Rattle.lls_problem.specs.Judgement.{HasItsSizes, IsFirstListed};

use crate::Problem;
use lls_grid::History;

/// The place in the list of the first pattern that generation 0 is.
pub fn first_listed(problem: &Problem, history: &History) -> Option<u64>
    requires { HasItsSizes problem.now history.now }
    ensures found { IfSome result (IsFirstListed problem.now.demands.listed (cells_of_rows (rows_at history.now 0))) }
    ensures none { IfNone result (IsUnlisted problem.now history.now) }
{
    // The limits of the file's sizes are known from here on.
    let _posed = problem.posed();
    let cells = history.cells_at(0);
    let patterns = problem.demands().listed.items();
    for n in 0..patterns.len() {
        if patterns[n].cells() == cells {
            return Some(n as u64);
        }
    }
    None
}
