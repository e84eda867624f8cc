// The clauses of transitions.
ghost use Rattle.std.specs.Prelude.{◌≡◌, ◌-◌, ◌<◌, ◌≤◌, ◌+◌, ◌^◌, ℤ, pos, ◌-ℤ◌, length, All, OnOk, IfOk};
ghost use Rattle.lls_transition.specs.declared.table.TheConstants.{INPUTS};
ghost use Rattle.lls_transition.specs.Clause.{with_clauses};
ghost use Rattle.lls_encode.specs.Formula.{cubes_of, place_clauses, line_clauses, generation_clauses, transition_part, first_framed, framed_count};
ghost use Rattle.lls_encode.specs.Room.{HasRoom};

use crate::cubes::{cubes_in, push_cubes_of};
use crate::place::inputs_at;
use lls_base::Memory;
use lls_cnf::Formula;
use lls_cube::Cube;
use lls_grid::History;
use lls_problem::{Edge, Form, Problem};
use lls_rule::Rule;
use lls_transition::{MOST_CLAUSES_EACH, table_of};
use std::alloc::Global;

// A line has at most 64 cells and one cell of the ring at each end.
const MOST_LINE: usize = 66;

// The clauses of a line's transitions, of a generation's and of all.
const MOST_CLAUSES_LINE: usize = MOST_LINE * MOST_CLAUSES_EACH;

const MOST_CLAUSES_GENERATION: usize = MOST_LINE * MOST_CLAUSES_LINE;

const MOST_CLAUSES_ALL: usize = (History::MOST_GENERATIONS as usize - 1) * MOST_CLAUSES_GENERATION;

// The cubes of a rule's transitions. The transition into each place takes the same.
fn cubes_of(alloc: Global, form: Form, rule: &Rule) -> Result<Vec<Cube>, Memory>
    ensures cubes { IfOk result (λ cubes. cubes.items ≡ cubes_of form rule.now) }
    ensures cares { IfOk result (λ cubes. All (λ cube. cube.care < 2 ^ INPUTS) cubes.items) }
    ensures few { IfOk result (λ cubes. length cubes.items ≤ MOST_CLAUSES_EACH) }
{
    cubes_in(alloc, form, &table_of(rule))
}

// Pushes the transition into a place of generation t + 1, unless a mark frees it. The line and the column count from
// the ones before the grid.
fn push_place(
    formula: &mut Formula,
    form: Form,
    cubes: &[Cube],
    problem: &Problem,
    t: u32,
    line: u32,
    column: u32,
) -> Result<(), Memory>
    requires cubes { length cubes.now ≤ MOST_CLAUSES_EACH }
    requires cares { All (λ cube. cube.care < 2 ^ INPUTS) cubes.now }
    requires generation { t + 1 < problem.now.posed.generations }
    requires line { line < MOST_LINE }
    requires column { column < MOST_LINE }
    requires vars { formula.old.vars ≡ length problem.now.posed.cells }
    requires room { HasRoom formula.old MOST_CLAUSES_EACH }
    ensures { OnOk result (formula.new ≡ with_clauses formula.old (place_clauses problem.now form cubes.now t (pos line -ℤ pos 1) (pos column -ℤ pos 1))) }
{
    // The limits of the file's sizes are known from here on.
    let _posed = problem.posed();
    let y = line as i32 - 1;
    let x = column as i32 - 1;
    if !problem.is_marked(t + 1, y, x) {
        push_cubes_of(formula, form, cubes, &inputs_at(problem, t, y, x))?;
    }
    Ok(())
}

/// The first framed row or column, counted from the one before the grid.
pub fn first_framed(edge: Edge) -> u32
    ensures value { result ≡ first_framed edge }
    ensures small { result ≤ 1 }
{
    match edge {
        Edge::Framed => 0,
        Edge::Bare => 1,
    }
}

/// How many rows or columns are framed where the grid has `size`.
pub fn framed_count(edge: Edge, size: u32) -> u32
    requires { size ≤ History.MOST_WIDTH }
    ensures value { result ≡ framed_count edge size }
    ensures small { result + first_framed edge ≤ size + 2 }
{
    match edge {
        Edge::Framed => size + 2,
        Edge::Bare => size,
    }
}

// Pushes the transitions into a line of generation t + 1, which counts from the one before the grid.
fn push_line(
    formula: &mut Formula,
    form: Form,
    cubes: &[Cube],
    problem: &Problem,
    t: u32,
    line: u32,
) -> Result<(), Memory>
    requires cubes { length cubes.now ≤ MOST_CLAUSES_EACH }
    requires cares { All (λ cube. cube.care < 2 ^ INPUTS) cubes.now }
    requires generation { t + 1 < problem.now.posed.generations }
    requires line { line < MOST_LINE }
    requires vars { formula.old.vars ≡ length problem.now.posed.cells }
    requires room { HasRoom formula.old MOST_CLAUSES_LINE }
    ensures { OnOk result (formula.new ≡ with_clauses formula.old (line_clauses problem.now form cubes.now t (pos line -ℤ pos 1))) }
{
    let edge = problem.demands().edge;
    let first = first_framed(edge);
    for column in 0..framed_count(edge, problem.posed().width) {
        push_place(formula, form, cubes, problem, t, line, first + column)?;
    }
    Ok(())
}

// Pushes the transitions into generation t + 1.
fn push_generation(
    formula: &mut Formula,
    form: Form,
    cubes: &[Cube],
    problem: &Problem,
    t: u32,
) -> Result<(), Memory>
    requires cubes { length cubes.now ≤ MOST_CLAUSES_EACH }
    requires cares { All (λ cube. cube.care < 2 ^ INPUTS) cubes.now }
    requires generation { t + 1 < problem.now.posed.generations }
    requires vars { formula.old.vars ≡ length problem.now.posed.cells }
    requires room { HasRoom formula.old MOST_CLAUSES_GENERATION }
    ensures { OnOk result (formula.new ≡ with_clauses formula.old (generation_clauses problem.now form cubes.now t)) }
{
    let edge = problem.demands().edge;
    let first = first_framed(edge);
    for line in 0..framed_count(edge, problem.posed().height) {
        push_line(formula, form, cubes, problem, t, first + line)?;
    }
    Ok(())
}

/// Pushes all transitions.
pub fn push_transitions(
    alloc: Global,
    formula: &mut Formula,
    problem: &Problem,
    form: Form,
) -> Result<(), Memory>
    requires vars { formula.old.vars ≡ length problem.now.posed.cells }
    requires room { HasRoom formula.old MOST_CLAUSES_ALL }
    ensures { OnOk result (formula.new ≡ with_clauses formula.old (transition_part problem.now form)) }
{
    let cubes = cubes_of(alloc, form, problem.rule())?;
    for t in 0..problem.posed().generations - 1 {
        push_generation(formula, form, &cubes, problem, t)?;
    }
    Ok(())
}
