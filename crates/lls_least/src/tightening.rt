// The search for the fewest live cells, or for the most: each solution that is found is followed by the question for one beyond it.
ghost use Rattle.std.specs.Prelude.{◌≤◌, IfOk};
ghost use Rattle.lls_problem.specs.Solution.{IsSolution};
ghost use Rattle.lls_solver.specs.Searching.{KeepsAll};
ghost use Rattle.lls_solver.specs.declared.solving.TheConstants.{MOST_BUDGET};
ghost use Rattle.lls_least.specs.Bounded.{LeavesRoom};
ghost use Rattle.lls_least.specs.Extremal.{IsExtremal, Settles, log_of};

use crate::answer::Extremal;
use crate::bounding::beyond;
use crate::effort::Effort;
use crate::extreme::Extreme;
use crate::looking::{Finding, look};
use lls_base::Memory;
use lls_cnf::Assignment;
use lls_grid::History;
use lls_problem::{Formulation, Problem};
use lls_prooflog::Log;
use lls_solver::Approach;
use std::alloc::Global;

/// Looks for a solution with the fewest live cells in generation 0, or with the most, by this approach. Each look has the budget to itself and a log
/// of its own; the answer has the last one's. A look begins with the values of the solution before it, so that the next one is near.
pub fn extremal(
    alloc: Global,
    problem: &Problem,
    extreme: Extreme,
    formulation: Formulation,
    approach: Approach,
    budget: u32,
    keep_all: bool,
) -> Result<Extremal, Memory>
    requires room { LeavesRoom problem.now }
    requires budget { budget ≤ MOST_BUDGET }
    ensures answer { IfOk result (IsExtremal extreme problem.now formulation budget) }

    // What is shown has the fewest live cells of all solutions, or the most, and what is absent has none.
    ensures settles { IfOk result (Settles extreme problem.now) }
    ensures all_kept { IfOk result (λ extremal. KeepsAll keep_all (log_of extremal).steps) }
{
    let effort = Effort {
        formulation,
        approach,
        budget,
        keep_all,
    };
    match look(alloc, problem, effort, &[])? {
        Finding::Found { history, values } => {
            tighten(alloc, problem, extreme, effort, history, values)
        }
        Finding::Absent { log } => Ok(Extremal::Absent { log }),
        Finding::Undecided { log } => Ok(Extremal::Unsettled { log }),
    }
}

// Looks for solutions beyond the one that is known, until there is none or the budget is spent.
fn tighten(
    alloc: Global,
    problem: &Problem,
    extreme: Extreme,
    effort: Effort,
    mut history: History,
    mut values: Assignment,
) -> Result<Extremal, Memory>
    requires room { LeavesRoom problem.now }
    requires budget { effort.budget ≤ MOST_BUDGET }
    requires solution { IsSolution problem.now history }
    ensures answer { IfOk result (IsExtremal extreme problem.now effort.formulation effort.budget) }
    ensures settles { IfOk result (Settles extreme problem.now) }
    ensures all_kept { IfOk result (λ extremal. KeepsAll effort.keep_all (log_of extremal).steps) }
{
    // What holds of every posed file is known from here on.
    let _posed = problem.posed();
    'tighter: loop {
        let live = history.population(0);
        let Some(bounded) = beyond(alloc, problem, extreme, live)? else {
            return Ok(Extremal::Shown {
                history,
                log: Log::new(alloc),
            });
        };
        match look(alloc, &bounded, effort, values.values())? {
            Finding::Found {
                history: next,
                values: nearer,
            } => {
                history = next;
                values = nearer;
            }
            Finding::Absent { log } => return Ok(Extremal::Shown { history, log }),
            Finding::Undecided { log } => return Ok(Extremal::Reached { history, log }),
        }
    }
}
