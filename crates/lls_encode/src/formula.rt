// The formula of a problem.
ghost use Rattle.std.specs.Prelude.{◌≡◌, ◌<◌, ◌≤◌, Bool, true, List, length, IfOk, OnOk};
ghost use Rattle.lls_grid.specs.History.{History};
ghost use Rattle.lls_lit.specs.Formula.{satisfies, IsUnsatisfiable};
ghost use Rattle.lls_transition.specs.Clause.{with_clauses};
ghost use Rattle.lls_problem.specs.Solution.{IsSolution, IsAbsent};
ghost use Rattle.lls_encode.specs.Formula.{front_part, formula_of};
ghost use Rattle.lls_encode.specs.History.{history_of, HasAssignment};
ghost use Rattle.lls_encode.specs.Room.{HasRoom};

use crate::apart::push_difference;
use crate::cells::{push_fixed, push_names};
use crate::period::{MOST_CLAUSES_PERIOD, push_period};
use crate::population::push_bounds;
use crate::symmetry::{MOST_CLAUSES_SYMMETRY, push_symmetry};
use crate::transition::push_transitions;
use lls_base::Memory;
use lls_cnf::Formula;
use lls_grid::History;
use lls_problem::{Form, Problem};
use std::alloc::Global;

/// Every formula of a problem has fewer clauses.
pub const CLAUSES_BELOW: usize = 200_000_000;

// The clauses of fixed cells, of names, of symmetry and of a period.
const MOST_CLAUSES_FRONT: usize = 3 * History::MOST_CELLS as usize
    + MOST_CLAUSES_SYMMETRY
    + MOST_CLAUSES_PERIOD;

/// Pushes what stands before the transitions.
pub(crate) fn push_front(
    alloc: Global,
    formula: &mut Formula,
    problem: &Problem,
) -> Result<(), Memory>
    requires vars { formula.old.vars ≡ length problem.now.posed.cells }
    requires room { HasRoom formula.old MOST_CLAUSES_FRONT }
    ensures { OnOk result (formula.new ≡ with_clauses formula.old (front_part problem.now)) }
{
    let posed = problem.posed();
    let cells = posed.cells.items();
    push_fixed(formula, cells)?;
    push_names(alloc, formula, cells, posed.names.items().len())?;
    push_symmetry(formula, problem)?;
    push_period(formula, problem)
}

/// The formula of a problem, with one variable a cell in the order generation, row, column. Behind them stand the variables
/// of the counters that bounds on live cells need. Where two generations have to differ, it has one variable more for each
/// cell of the grid, behind these; and under an exact period, behind all others, one for each place that a shorter period
/// along the same line compares.
///
/// The clauses come in this order: fixed cells, names, symmetry, period, transitions, bounds, differing generations, exact
/// period, listed patterns. Those of the transitions are by the form: for each place, the clauses of the cubes that the form
/// takes of the rule's forbidden rows.
pub fn encode(alloc: Global, problem: &Problem, form: Form) -> Result<Formula, Memory>
    ensures formula { IfOk result (λ formula. formula ≡ formula_of problem.now form) }
    ensures few { IfOk result (λ formula. length formula.clauses < CLAUSES_BELOW) }

    // Every solution has an assignment that satisfies it and begins with the solution's cells.
    ensures complete { IfOk result (λ formula. (history : History) → IsSolution problem.now history
        → HasAssignment formula history) }

    // Every assignment that satisfies it and has a value for each cell begins with the cells of a solution. A value past its
    // end is false.
    ensures sound { IfOk result (λ formula. (values : List Bool) → length problem.now.posed.cells ≤ length values
        → satisfies values formula.clauses ≡ true → IsSolution problem.now (history_of problem.now values)) }

    // So a formula that no assignment satisfies says that there is no solution.
    ensures absent { IfOk result (λ formula. IsUnsatisfiable formula → IsAbsent problem.now) }

    // And where there is no solution, no assignment satisfies it.
    ensures unsatisfiable { IfOk result (λ formula. IsAbsent problem.now → IsUnsatisfiable formula) }
{
    // That the demands fit the file is known from here on.
    let _demands = problem.demands();
    let cells = problem.posed().cells.items().len();
    let mut formula = Formula::new(alloc, cells as u32);
    push_front(alloc, &mut formula, problem)?;
    push_transitions(alloc, &mut formula, problem, form)?;
    push_bounds(alloc, &mut formula, problem)?;
    push_difference(alloc, &mut formula, problem)?;
    Ok(formula)
}
