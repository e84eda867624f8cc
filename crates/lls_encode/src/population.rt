// The clauses of bounds on the number of live cells.
ghost use Rattle.std.specs.Prelude.{◌≡◌, ◌<◌, ◌≤◌, ◌+◌, ◌*◌, length, OnOk, All};
ghost use Rattle.lls_problem.specs.declared.bounds.Bound.{Bound};
ghost use Rattle.lls_problem.specs.Bounds.{top_end, counter_vars};
ghost use Rattle.lls_transition.specs.Clause.{with_clauses};
ghost use Rattle.lls_encode.specs.Formula.{generation_size, low_clauses, high_clauses, bound_clauses, bounds_part, bounds_vars};
ghost use Rattle.lls_encode.specs.Room.{HasRoom, with_more};

use crate::generation::{generation_cells, generation_size};
use lls_base::Memory;
use lls_cardinality::{CounterVars, MOST_CLAUSES_EACH, push_counter};
use lls_cnf::Formula;
use lls_lit::Var;
use lls_problem::{Bound, Bounds, Problem};
use std::alloc::Global;

// The greatest number of clauses of a bound, by the variables of its counter: those of the counter, and one for each end.
const MOST_CLAUSES_VARIABLE: usize = MOST_CLAUSES_EACH + 2;

/// The clauses of all bounds.
pub const MOST_CLAUSES_BOUNDS: usize = MOST_CLAUSES_VARIABLE * Bounds::MOST_COUNTERS as usize;

// Pushes that at least so many of a counter's cells are live.
fn push_low(formula: &mut Formula, counter: CounterVars, low: u32) -> Result<(), Memory>
    requires some { 1 ≤ counter.cells }
    requires low { low ≤ counter.top }
    requires counter { counter.base + counter.cells * counter.top ≤ formula.old.vars }
    requires vars { formula.old.vars ≤ Var.MOST }
    requires room { HasRoom formula.old 1 }
    ensures { OnOk result (formula.new ≡ with_clauses formula.old (low_clauses counter.base counter.top counter.cells low)) }
{
    if low == 0 {
        return Ok(());
    }
    formula.push(&[counter.at_least(counter.cells - 1, low - 1)])
}

// Pushes that not more than so many of a counter's cells are live, where there are more.
fn push_high(formula: &mut Formula, counter: CounterVars, top_end: u32) -> Result<(), Memory>
    requires some { 1 ≤ counter.cells }
    requires high { top_end < counter.cells → top_end < counter.top }
    requires counter { counter.base + counter.cells * counter.top ≤ formula.old.vars }
    requires vars { formula.old.vars ≤ Var.MOST }
    requires room { HasRoom formula.old 1 }
    ensures { OnOk result (formula.new ≡ with_clauses formula.old (high_clauses counter.base counter.top counter.cells top_end)) }
{
    if top_end >= counter.cells {
        return Ok(());
    }
    formula.push(&[counter.at_least(counter.cells - 1, top_end).negated()])
}

// Pushes the counter of a bound's cells, and that its count is within the ends.
fn push_bound(
    alloc: Global,
    formula: &mut Formula,
    problem: &Problem,
    bound: Bound,
) -> Result<(), Memory>
    requires generation { bound.generation < problem.now.posed.generations }
    requires ordered { bound.low ≤ top_end (generation_size problem.now) bound }
    requires few { counter_vars (generation_size problem.now) bound ≤ Bounds.MOST_COUNTERS }
    requires cells { length problem.now.posed.cells ≤ formula.old.vars }
    requires vars { formula.old.vars + counter_vars (generation_size problem.now) bound ≤ Var.MOST }
    requires room { HasRoom formula.old (MOST_CLAUSES_VARIABLE * counter_vars (generation_size problem.now) bound) }
    ensures { OnOk result (formula.new ≡ with_more formula.old (counter_vars (generation_size problem.now) bound)
        (bound_clauses problem.now formula.old.vars bound)) }
{
    // The limits of the file's sizes are known from here on.
    let _posed = problem.posed();
    let size = generation_size(problem);
    let top = bound.counter_top(size);
    if top == 0 {
        return Ok(());
    }
    let cells = generation_cells(alloc, problem, bound.generation)?;
    let counter = push_counter(formula, &cells, top)?;
    push_low(formula, counter, bound.low)?;
    push_high(formula, counter, bound.top_end(size))
}

/// Pushes the clauses of all bounds, and their counters' variables.
pub fn push_bounds(alloc: Global, formula: &mut Formula, problem: &Problem) -> Result<(), Memory>
    requires cells { length problem.now.posed.cells ≤ formula.old.vars }
    requires vars { formula.old.vars + bounds_vars problem.now ≤ Var.MOST }
    requires room { HasRoom formula.old MOST_CLAUSES_BOUNDS }
    ensures { OnOk result (formula.new ≡ with_more formula.old (bounds_vars problem.now)
        (bounds_part problem.now formula.old.vars)) }
{
    // The limits of the file's sizes are known from here on.
    let _posed = problem.posed();
    for bound in problem.demands().bounds.items() {
        push_bound(alloc, formula, problem, *bound)?;
    }
    Ok(())
}
