// The clauses of all that has to differ.
ghost use Rattle.std.specs.Prelude.{◌≡◌, ◌≤◌, ◌+◌, length, OnOk};
ghost use Rattle.lls_encode.specs.Formula.{difference_part, difference_vars};
ghost use Rattle.lls_encode.specs.Room.{HasRoom, with_more};

use crate::difference::{MOST_CLAUSES_ASKED, push_asked};
use crate::exact::{MOST_CLAUSES_EXACT, push_exact};
use crate::listed::push_listed;
use lls_base::Memory;
use lls_cnf::Formula;
use lls_grid::Patterns;
use lls_lit::Var;
use lls_problem::Problem;
use std::alloc::Global;

/// Those of two generations, those of an exact period, and one for each listed pattern.
pub const MOST_CLAUSES_DIFFERENCE: usize = MOST_CLAUSES_ASKED + MOST_CLAUSES_EXACT + Patterns::MOST;

/// Pushes the clauses of two generations that are asked to differ, those of an exact period, and those of listed patterns,
/// and their variables.
pub fn push_difference(
    alloc: Global,
    formula: &mut Formula,
    problem: &Problem,
) -> Result<(), Memory>
    requires vars { length problem.now.posed.cells ≤ formula.old.vars }
    requires most { formula.old.vars + difference_vars problem.now ≤ Var.MOST }
    requires room { HasRoom formula.old MOST_CLAUSES_DIFFERENCE }
    ensures { OnOk result (formula.new ≡ with_more formula.old (difference_vars problem.now)
        (difference_part problem.now formula.old.vars)) }
{
    // The limits of the file's sizes, and that the demands fit them, are known from here on.
    let _posed = problem.posed();
    let _demands = problem.demands();
    push_asked(alloc, formula, problem)?;
    push_exact(alloc, formula, problem)?;
    push_listed(alloc, formula, problem)
}
