// The clauses before the transitions and those behind them, for formulas of other makers.
ghost use Rattle.std.specs.Prelude.{◌≡◌, ◌+◌, ◌≤◌, ◌↔◌, ◌++◌, Bool, true, List, length, OnOk, OnErr};
ghost use Rattle.lls_lit.specs.Formula.{satisfies};
ghost use Rattle.lls_transition.specs.Clause.{with_clauses};
ghost use Rattle.lls_encode.specs.Formula.{front_part};
ghost use Rattle.lls_encode.specs.History.{history_of};
ghost use Rattle.lls_encode.specs.Parts.{MeetsBefore, MeetsAfter, HasExtension, after_part, after_vars};

use crate::apart::push_difference;
use crate::append::append;
use crate::formula::push_front;
use crate::population::push_bounds;
use lls_base::Memory;
use lls_cnf::Formula;
use lls_lit::Var;
use lls_problem::Problem;
use std::alloc::Global;

/// Appends the clauses of fixed cells, of names, of symmetry and of a period, over the variables of the cells. They are
/// made apart first, so that the formula is as before after `Memory`.
pub fn push_before(alloc: Global, formula: &mut Formula, problem: &Problem) -> Result<(), Memory>
    requires vars { length problem.now.posed.cells ≤ formula.old.vars }
    requires room { length formula.old.clauses + length (front_part problem.now) ≤ Formula.MOST_CLAUSES }
    ensures ok { OnOk result (formula.new ≡ with_clauses formula.old (front_part problem.now)) }
    ensures err { OnErr result (formula.new ≡ formula.old) }

    // An assignment with a value for each cell satisfies them exactly where its cells are as the file says, symmetric, and
    // there again a period later, as asked.
    ensures holds { (values : List Bool) → length problem.now.posed.cells ≤ length values
        → (satisfies values (front_part problem.now) ≡ true) ↔ MeetsBefore problem.now (history_of problem.now values) }
{
    // That the demands fit the file, and what holds of every formula, is known from here on.
    let _demands = problem.demands();
    let _vars = formula.vars();
    let cells = problem.posed().cells.items().len();
    let mut front = Formula::new(alloc, cells as u32);
    push_front(alloc, &mut front, problem)?;
    append(formula, &front)
}

/// Appends the clauses of bounds on live cells, of generations that differ, of an exact period and of listed patterns, and
/// their variables, behind those so far. They are made apart first, so that the formula is as before after `Memory`.
pub fn push_after(alloc: Global, formula: &mut Formula, problem: &Problem) -> Result<(), Memory>
    requires cells { length problem.now.posed.cells ≤ formula.old.vars }
    requires vars { formula.old.vars + after_vars problem.now ≤ Var.MOST }
    requires room { length formula.old.clauses + length (after_part problem.now formula.old.vars) ≤ Formula.MOST_CLAUSES }
    ensures ok { OnOk result (formula.new ≡ record {
      vars = formula.old.vars + after_vars problem.now;
      clauses = formula.old.clauses ++ after_part problem.now formula.old.vars;
    }) }
    ensures err { OnErr result (formula.new ≡ formula.old) }

    // The cells of an assignment that satisfies them keep the bounds, differ, have an exact period, and are no listed pattern,
    // as asked.
    ensures sound { (values : List Bool) → length problem.now.posed.cells ≤ length values
        → satisfies values (after_part problem.now formula.old.vars) ≡ true → MeetsAfter problem.now (history_of problem.now values) }

    // Where the cells of an assignment of the variables so far do, the new variables have values that satisfy them.
    ensures complete { (values : List Bool) → length values ≡ formula.old.vars
        → MeetsAfter problem.now (history_of problem.now values) → HasExtension problem.now values }
{
    // That the demands fit the file is known from here on.
    let _posed = problem.posed();
    let _demands = problem.demands();
    let mut after = Formula::new(alloc, formula.vars());
    push_bounds(alloc, &mut after, problem)?;
    push_difference(alloc, &mut after, problem)?;
    append(formula, &after)
}
