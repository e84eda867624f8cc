// One look for a solution.
ghost use Rattle.std.specs.Prelude.{◌≤◌, IfOk};
ghost use Rattle.lls_solver.specs.declared.solving.TheConstants.{MOST_BUDGET};
ghost use Rattle.lls_least.specs.Finding.{IsFinding};

use crate::effort::Effort;
use lls_base::Memory;
use lls_cnf::Assignment;
use lls_encode::{decode, formulate};
use lls_grid::History;
use lls_problem::Problem;
use lls_prooflog::Log;
use lls_solver::{Outcome, solve_from};
use std::alloc::Global;

/// What a look for a solution came to.
#[derive(Drop)]
pub(crate) enum Finding {
    /// A solution, and the values of the formula's variables that it was read from.
    Found {
        history: History,
        values: Assignment,
    },
    /// There is none.
    Absent {
        log: Log,
    },
    /// The budget is spent.
    Undecided {
        log: Log,
    },
}

/// Looks for a solution of a problem, where the first decisions go towards these values.
pub(crate) fn look(
    alloc: Global,
    problem: &Problem,
    effort: Effort,
    near: &[bool],
) -> Result<Finding, Memory>
    requires { effort.budget ≤ MOST_BUDGET }
    ensures { IfOk result (IsFinding problem.now effort) }
{
    let formula = formulate(alloc, problem, effort.formulation)?;
    let mut log = Log::new(alloc);
    match solve_from(
        alloc,
        &formula,
        near,
        effort.approach,
        effort.budget,
        effort.keep_all,
        &mut log,
    )? {
        Outcome::Sat(values) => {
            let history = decode(alloc, problem, &values)?;
            Ok(Finding::Found { history, values })
        }
        Outcome::Unsat => Ok(Finding::Absent { log }),
        Outcome::Undecided => Ok(Finding::Undecided { log }),
    }
}
