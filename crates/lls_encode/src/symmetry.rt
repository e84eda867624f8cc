// The clauses of symmetry.
ghost use Rattle.std.specs.Prelude.{◌≡◌, ◌<◌, length, OnOk};
ghost use Rattle.std.specs.List.{flat_map};
ghost use Rattle.lls_transition.specs.Clause.{with_clauses};
ghost use Rattle.lls_symmetry.specs.Symmetry.{generators_of, generator_at};
ghost use Rattle.lls_symmetry.specs.Pairs.{pair_at, row_pairs};
ghost use Rattle.lls_encode.specs.Formula.{pair_clauses, symmetric_clauses, motion_clauses, symmetry_part};
ghost use Rattle.lls_encode.specs.Room.{HasRoom};

use crate::equal::push_same_places;
use crate::place::place_at;
use lls_base::Memory;
use lls_cnf::Formula;
use lls_grid::History;
use lls_problem::Problem;
use lls_symmetry::{generators, image};

// The clauses of a row's cells, of a generation's, of a generator's and of all: no symmetry has more than two.
const MOST_CLAUSES_ROW: usize = 2 * History::MOST_WIDTH as usize;

const MOST_CLAUSES_GENERATION: usize = History::MOST_HEIGHT as usize * MOST_CLAUSES_ROW;

const MOST_CLAUSES_GENERATOR: usize = History::MOST_GENERATIONS as usize * MOST_CLAUSES_GENERATION;

pub const MOST_CLAUSES_SYMMETRY: usize = 2 * MOST_CLAUSES_GENERATOR;

// Pushes that a cell and its image under the kth generator are equal, where they are two cells.
fn push_cell(
    formula: &mut Formula,
    problem: &Problem,
    k: u32,
    t: u32,
    y: u32,
    x: u32,
) -> Result<(), Memory>
    requires generator { k < length (generators_of problem.now.demands.symmetry) }
    requires generation { t < problem.now.posed.generations }
    requires row { y < problem.now.posed.height }
    requires column { x < problem.now.posed.width }
    requires vars { formula.old.vars ≡ length problem.now.posed.cells }
    requires room { HasRoom formula.old 2 }
    ensures { OnOk result (formula.new ≡ with_clauses formula.old (flat_map (pair_clauses problem.now t)
        (pair_at (generator_at problem.now.demands.symmetry k) problem.now.posed.height problem.now.posed.width y x))) }
{
    let posed = problem.posed();
    let symmetry = problem.demands().symmetry;
    let (to_y, to_x) = image(symmetry, k, posed.height, posed.width, y, x);
    if to_y == y && to_x == x {
        return Ok(());
    }
    let cell = place_at(problem, t, y as i32, x as i32);
    let image = place_at(problem, t, to_y as i32, to_x as i32);
    push_same_places(formula, &cell, &image)
}

// Pushes that the cells of a row and their images are equal.
fn push_row(formula: &mut Formula, problem: &Problem, k: u32, t: u32, y: u32) -> Result<(), Memory>
    requires generator { k < length (generators_of problem.now.demands.symmetry) }
    requires generation { t < problem.now.posed.generations }
    requires row { y < problem.now.posed.height }
    requires vars { formula.old.vars ≡ length problem.now.posed.cells }
    requires room { HasRoom formula.old MOST_CLAUSES_ROW }
    ensures { OnOk result (formula.new ≡ with_clauses formula.old (flat_map (pair_clauses problem.now t)
        (row_pairs (generator_at problem.now.demands.symmetry k) problem.now.posed.height problem.now.posed.width y))) }
{
    for x in 0..problem.posed().width {
        push_cell(formula, problem, k, t, y, x)?;
    }
    Ok(())
}

// Pushes that the cells of generation t and their images are equal.
fn push_generation(formula: &mut Formula, problem: &Problem, k: u32, t: u32) -> Result<(), Memory>
    requires generator { k < length (generators_of problem.now.demands.symmetry) }
    requires generation { t < problem.now.posed.generations }
    requires vars { formula.old.vars ≡ length problem.now.posed.cells }
    requires room { HasRoom formula.old MOST_CLAUSES_GENERATION }
    ensures { OnOk result (formula.new ≡ with_clauses formula.old
        (symmetric_clauses problem.now (generator_at problem.now.demands.symmetry k) t)) }
{
    for y in 0..problem.posed().height {
        push_row(formula, problem, k, t, y)?;
    }
    Ok(())
}

// Pushes that all cells and their images under the kth generator are equal.
fn push_generator(formula: &mut Formula, problem: &Problem, k: u32) -> Result<(), Memory>
    requires generator { k < length (generators_of problem.now.demands.symmetry) }
    requires vars { formula.old.vars ≡ length problem.now.posed.cells }
    requires room { HasRoom formula.old MOST_CLAUSES_GENERATOR }
    ensures { OnOk result (formula.new ≡ with_clauses formula.old
        (motion_clauses problem.now (generator_at problem.now.demands.symmetry k))) }
{
    for t in 0..problem.posed().generations {
        push_generation(formula, problem, k, t)?;
    }
    Ok(())
}

/// Pushes that every generation is symmetric.
pub fn push_symmetry(formula: &mut Formula, problem: &Problem) -> Result<(), Memory>
    requires vars { formula.old.vars ≡ length problem.now.posed.cells }
    requires room { HasRoom formula.old MOST_CLAUSES_SYMMETRY }
    ensures { OnOk result (formula.new ≡ with_clauses formula.old (symmetry_part problem.now)) }
{
    // The limits of the file's sizes are known from here on.
    let _posed = problem.posed();
    for k in 0..generators(problem.demands().symmetry) {
        push_generator(formula, problem, k)?;
    }
    Ok(())
}
