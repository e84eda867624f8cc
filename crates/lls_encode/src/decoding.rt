// The history that an assignment of the formula's variables writes.
ghost use Rattle.std.specs.Prelude.{◌≡◌, ◌≤◌, true, length, take, IfOk};
ghost use Rattle.lls_lit.specs.Formula.{satisfies};
ghost use Rattle.lls_problem.specs.declared.form.Formulation.{Formulation};
ghost use Rattle.lls_problem.specs.Solution.{IsSolution};
ghost use Rattle.lls_encode.specs.History.{history_of};
ghost use Rattle.lls_encode.specs.Images.{formulated};

use lls_base::Memory;
use lls_cnf::Assignment;
use lls_grid::History;
use lls_problem::Problem;
use std::alloc::{AllocError, Global};

/// The history of the problem's sizes whose cells have the first values of an assignment, in the order generation, row,
/// column. Values of variables behind those of the cells aren't looked at. Where the assignment satisfies a formula
/// of the problem, the history is a solution; a variable that it has no value for is false.
pub fn decode(alloc: Global, problem: &Problem, assignment: &Assignment) -> Result<History, Memory>
    requires { length problem.now.posed.cells ≤ length assignment.now }
    ensures history { IfOk result (λ history. history ≡ history_of problem.now assignment.now) }
    ensures solution { IfOk result (λ history. (formulation : Formulation)
        → satisfies assignment.now (formulated problem.now formulation).clauses ≡ true → IsSolution problem.now history) }
{
    // That the demands fit the file is known from here on.
    let _demands = problem.demands();
    let posed = problem.posed();
    let cells = first_values(alloc, assignment.values(), posed.cells.items().len())?;
    Ok(History::from_cells(posed.sizes(), cells))
}

// So many values from the first on.
fn first_values(alloc: Global, values: &[bool], count: usize) -> Result<Vec<bool>, AllocError>
    requires { count ≤ length values.now }
    ensures { IfOk result (λ cells. cells.items ≡ take count values.now) }
{
    Vec::from_slice(alloc, &values[..count])
}
