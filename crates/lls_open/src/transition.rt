// The clauses of transitions whose rule is open.
ghost use Rattle.std.specs.Prelude.{◌≡◌, ◌<◌, ◌≤◌, ◌+◌, ◌*◌, [], ◌∷◌, ◌++◌, length, true, All, OnOk};
ghost use Rattle.std.specs.List.{list_all, flat_map, range_with_len};
ghost use Rattle.lls_transition.specs.declared.place.Place.TheVariants.{Of};
ghost use Rattle.lls_transition.specs.Place.{place_within};
ghost use Rattle.lls_transition.specs.Clause.{with_clauses};
ghost use Rattle.lls_encode.specs.Room.{HasRoom};
ghost use Rattle.lls_open.specs.Cubes.{AreCubes};
ghost use Rattle.lls_open.specs.Formula.{class_variable, class_inputs, class_clauses, open_clauses, target_clauses, open_part};
ghost use Rattle.lls_open.specs.Targets.{IsTarget};

use crate::SideClass;
use crate::cubes::{OpenCubes, open_cubes};
use crate::table::OPEN_INPUTS;
use crate::target::{Target, targets_of};
use lls_base::Memory;
use lls_cnf::Formula;
use lls_encode::{inputs_at, push_cubes_of};
use lls_lit::{Lit, Var};
use lls_problem::{Form, Problem};
use lls_transition::{INPUTS, Place};
use std::alloc::Global;

/// The greatest number of cells of a file whose rule is left open.
pub const MOST_OPEN_CELLS: usize = 2048;

/// The classes of birth and those of survival.
pub(crate) const MOST_CLASSES: usize = 102;

// The clauses of a table: it forbids at most half of the rows of eleven inputs, or all of ten.
const MOST_CLAUSES_TABLE: usize = 1024;

// The clauses of a place.
const MOST_CLAUSES_TARGET: usize = MOST_CLAUSES_TABLE * (1 + MOST_CLASSES);

// The places of a file of at most `MOST_OPEN_CELLS` cells.
const MOST_TARGETS: usize = 6522;

/// The clauses of all places.
pub(crate) const MOST_CLAUSES_OPEN: usize = MOST_CLAUSES_TARGET * MOST_TARGETS;

// The literal of the kth open class.
fn class_variable(problem: &Problem, k: usize) -> Lit
    requires { length problem.now.posed.cells + k < Var.MOST }
    ensures { result ≡ class_variable problem.now k }
{
    Lit::from_number((problem.posed().cells.items().len() + k) as i32 + 1).unwrap()
}

// The inputs of an open class's table: those of a transition, and the class's variable.
fn with_variable(inputs: &[Place; INPUTS], variable: Lit) -> [Place; OPEN_INPUTS]
    ensures { result ≡ inputs.now ++ Of variable ∷ [] }
{
    let [a, b, c, d, e, f, g, h, i, next] = *inputs;
    [a, b, c, d, e, f, g, h, i, next, Place::Of(variable)]
}

// Appends the clauses of the open classes' tables, with these inputs of a transition.
fn push_classes(
    formula: &mut Formula,
    problem: &Problem,
    form: Form,
    classes: &[SideClass],
    cubes: &OpenCubes,
    inputs: &[Place; INPUTS],
) -> Result<(), Memory>
    requires cubes { AreCubes form problem.now.rule classes.now cubes.now }
    requires few { length classes.now ≤ MOST_CLASSES }
    requires vars { formula.old.vars ≡ length problem.now.posed.cells + length classes.now }
    requires within { list_all (place_within (length problem.now.posed.cells)) inputs.now ≡ true }
    requires room { HasRoom formula.old (MOST_CLAUSES_TABLE * length classes.now) }
    ensures { OnOk result (formula.new ≡ with_clauses formula.old
        (flat_map (class_clauses problem.now form classes.now inputs.now) (range_with_len 0 (length classes.now)))) }
{
    // The limits of the file's sizes are known from here on.
    let _posed = problem.posed();
    for k in 0..classes.len() {
        let wide = with_variable(inputs, class_variable(problem, k));
        push_cubes_of(formula, form, &cubes.by_class[k], &wide)?;
    }
    Ok(())
}

// Appends the clauses of the transition into a place.
fn push_target(
    formula: &mut Formula,
    problem: &Problem,
    form: Form,
    classes: &[SideClass],
    cubes: &OpenCubes,
    target: Target,
) -> Result<(), Memory>
    requires cubes { AreCubes form problem.now.rule classes.now cubes.now }
    requires few { length classes.now ≤ MOST_CLASSES }
    requires vars { formula.old.vars ≡ length problem.now.posed.cells + length classes.now }
    requires target { IsTarget problem.now target }
    requires room { HasRoom formula.old MOST_CLAUSES_TARGET }
    ensures { OnOk result (formula.new ≡ with_clauses formula.old (target_clauses problem.now form classes.now target)) }
{
    // The limits of the file's sizes are known from here on.
    let _posed = problem.posed();
    let y = target.line as i32 - 1;
    let x = target.column as i32 - 1;
    let inputs = inputs_at(problem, target.t, y, x);
    push_cubes_of(formula, form, &cubes.settled, &inputs)?;
    push_classes(formula, problem, form, classes, cubes, &inputs)
}

/// Appends the clauses of all transitions.
pub(crate) fn push_open(
    alloc: Global,
    formula: &mut Formula,
    problem: &Problem,
    form: Form,
    classes: &[SideClass],
) -> Result<(), Memory>
    requires few { length classes.now ≤ MOST_CLASSES }
    requires cells { length problem.now.posed.cells ≤ MOST_OPEN_CELLS }
    requires vars { formula.old.vars ≡ length problem.now.posed.cells + length classes.now }
    requires room { HasRoom formula.old MOST_CLAUSES_OPEN }
    ensures { OnOk result (formula.new ≡ with_clauses formula.old (open_part problem.now form classes.now)) }
{
    // The limits of the file's sizes are known from here on.
    let _posed = problem.posed();
    let cubes = open_cubes(alloc, form, problem.rule(), classes)?;
    let targets = targets_of(alloc, problem)?;
    for k in 0..targets.len() {
        push_target(formula, problem, form, classes, &cubes, targets[k])?;
    }
    Ok(())
}
