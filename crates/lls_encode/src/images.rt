// The formula of a problem, all of its solutions left or one of each kind.
ghost use Rattle.std.specs.Prelude.{◌≡◌, ◌<◌, ◌≤◌, ◌+◌, Bool, [], ◌∷◌, ◌++◌, if◌then◌else◌, true, All, List, length, IfOk, OnOk};
ghost use Rattle.std.specs.Option.{option_to_list};
ghost use Rattle.lls_lit.specs.Formula.{satisfies, is_within, IsUnsatisfiable};
ghost use Rattle.lls_grid.specs.History.{History};
ghost use Rattle.lls_symmetry.specs.Motion.{exchanges};
ghost use Rattle.lls_transition.specs.Clause.{with_clauses};
ghost use Rattle.lls_problem.specs.Solution.{IsSolution, IsAbsent};
ghost use Rattle.lls_encode.specs.Formula.{generation_size};
ghost use Rattle.lls_encode.specs.History.{history_of, HasAssignment};
ghost use Rattle.lls_encode.specs.Images.{image_of_cell, is_changed, changed_cells, compared, before_of, comparison, comparisons, all_comparisons, all_comparison_vars, images_part, images_vars, formulated, IsLeft, HasOneOfKind};
ghost use Rattle.lls_encode.specs.Room.{HasRoom, with_more};

use crate::difference::difference_variable;
use crate::formula::{CLAUSES_BELOW, encode};
use crate::generation::{cell_of_generation, generation_size};
use lls_base::Memory;
use lls_cnf::Formula;
use lls_grid::History;
use lls_images::{image_index, same_motions};
use lls_lit::{Lit, Var};
use lls_problem::{Formulation, Images, Problem};
use lls_symmetry::Motion;
use std::alloc::{AllocError, Global};

// The cells of a generation.
const MOST_CELLS: u32 = History::MOST_HEIGHT * History::MOST_WIDTH;

// The clauses of a comparison of a cell with its image.
const CLAUSES_EACH: usize = 3;

// Those of all cells.
const MOST_CLAUSES_MOTION: usize = CLAUSES_EACH * MOST_CELLS as usize;

// The motions of a grid. Before each there is room for one more than all, whatever those before it took.
const MOST_MOTIONS: usize = 7;

const MOST_VARIABLES: usize = (MOST_MOTIONS + 1) * MOST_CELLS as usize;

const MOST_CLAUSES_IMAGES: usize = (MOST_MOTIONS + 1) * MOST_CLAUSES_MOTION;

// Where the image of a cell of generation 0 stands in it.
fn image_of_cell(problem: &Problem, motion: Motion, k: u32) -> u32
    requires grid { exchanges motion ≡ true → problem.now.posed.height ≡ problem.now.posed.width }
    requires cell { k < generation_size problem.now }
    ensures image { result ≡ image_of_cell problem.now motion k }
    ensures within { result < generation_size problem.now }
{
    image_index(motion, problem.posed(), k as usize) as u32
}

// Pushes a cell of generation 0 whose image is another one.
fn push_changed(
    cells: &mut Vec<u32>,
    problem: &Problem,
    motion: Motion,
    k: u32,
) -> Result<(), AllocError>
    requires grid { exchanges motion ≡ true → problem.now.posed.height ≡ problem.now.posed.width }
    requires cell { k < generation_size problem.now }
    ensures { OnOk result (cells.new.items ≡ cells.old.items ++ (if is_changed problem.now motion k then k ∷ [] else [])) }
{
    if image_of_cell(problem, motion, k) != k {
        cells.push(k)?;
    }
    Ok(())
}

// The cells of generation 0 whose images are other cells.
fn changed_cells(alloc: Global, problem: &Problem, motion: Motion) -> Result<Vec<u32>, AllocError>
    requires { exchanges motion ≡ true → problem.now.posed.height ≡ problem.now.posed.width }
    ensures cells { IfOk result (λ cells. cells.items ≡ changed_cells problem.now motion) }
    ensures within { IfOk result (λ cells. All (λ k. k < generation_size problem.now) cells.items) }
    ensures few { IfOk result (λ cells. length cells.items ≤ MOST_CELLS) }
{
    let mut cells = Vec::new(alloc);
    for k in 0..generation_size(problem) {
        push_changed(&mut cells, problem, motion, k)?;
    }
    Ok(cells)
}

// The literal that something differs before the ith of those that have variables behind the first `base`, where there is
// one before it.
fn before_of(base: u32, i: u32) -> Option<Lit>
    requires { base + i ≤ Var.MOST }
    ensures { option_to_list result ≡ before_of base i }
{
    if i == 0 {
        return None;
    }
    Some(difference_variable(base, i - 1).negated())
}

// Pushes that a cell is live where its image is, and that `same` is true where they have one value, unless `before` is true.
fn push_compared(
    formula: &mut Formula,
    before: Option<Lit>,
    cell: Lit,
    image: Lit,
    same: Lit,
) -> Result<(), Memory>
    requires before { is_within formula.old.vars (option_to_list before) ≡ true }
    requires within { is_within formula.old.vars (cell ∷ image ∷ same ∷ []) ≡ true }
    requires room { HasRoom formula.old CLAUSES_EACH }
    ensures { OnOk result (formula.new ≡ with_clauses formula.old (compared (option_to_list before) cell image same)) }
{
    match before {
        Some(before) => {
            formula.push(&[before, cell, image.negated()])?;
            formula.push(&[before, image.negated(), same])?;
            formula.push(&[before, cell, same])
        }
        None => {
            formula.push(&[cell, image.negated()])?;
            formula.push(&[image.negated(), same])?;
            formula.push(&[cell, same])
        }
    }
}

// Pushes the comparison of the ith of some cells with its image.
fn push_comparison(
    formula: &mut Formula,
    problem: &Problem,
    motion: Motion,
    base: u32,
    cells: &[u32],
    i: usize,
) -> Result<(), Memory>
    requires grid { exchanges motion ≡ true → problem.now.posed.height ≡ problem.now.posed.width }
    requires cells { All (λ k. k < generation_size problem.now) cells.now }
    requires few { length cells.now ≤ MOST_CELLS }
    requires within { i < length cells.now }
    requires behind { length problem.now.posed.cells ≤ base }
    requires vars { base + i < formula.old.vars }
    requires room { HasRoom formula.old CLAUSES_EACH }
    ensures { OnOk result (formula.new ≡ with_clauses formula.old (comparison problem.now motion base cells.now i)) }
{
    // The limits of the file's sizes, and what holds of every formula, are known from here on.
    let _posed = problem.posed();
    let _vars = formula.vars();
    let k = cells[i];
    let cell = cell_of_generation(problem, 0, k);
    let image = cell_of_generation(problem, 0, image_of_cell(problem, motion, k));
    let same = difference_variable(base, i as u32);
    push_compared(formula, before_of(base, i as u32), cell, image, same)
}

// Pushes those of all cells whose images under a motion are other cells, and their variables.
fn push_comparisons(
    alloc: Global,
    formula: &mut Formula,
    problem: &Problem,
    motion: Motion,
) -> Result<(), Memory>
    requires grid { exchanges motion ≡ true → problem.now.posed.height ≡ problem.now.posed.width }
    requires cells { length problem.now.posed.cells ≤ formula.old.vars }
    requires vars { formula.old.vars + MOST_CELLS ≤ Var.MOST }
    requires room { HasRoom formula.old MOST_CLAUSES_MOTION }
    ensures { OnOk result (formula.new ≡ with_more formula.old (length (changed_cells problem.now motion))
        (comparisons problem.now motion formula.old.vars (changed_cells problem.now motion))) }
{
    let cells = changed_cells(alloc, problem, motion)?;
    let base = formula.more_vars(cells.len() as u32);
    for i in 0..cells.len() {
        push_comparison(formula, problem, motion, base, &cells, i)?;
    }
    Ok(())
}

// Pushes those of motions one after another.
fn push_all_comparisons(
    alloc: Global,
    formula: &mut Formula,
    problem: &Problem,
    motions: &[Motion],
) -> Result<(), Memory>
    requires few { length motions.now ≤ MOST_MOTIONS }
    requires grid { All (λ motion. exchanges motion ≡ true → problem.now.posed.height ≡ problem.now.posed.width) motions.now }
    requires cells { length problem.now.posed.cells ≤ formula.old.vars }
    requires vars { formula.old.vars + MOST_VARIABLES ≤ Var.MOST }
    requires room { HasRoom formula.old MOST_CLAUSES_IMAGES }
    ensures { OnOk result (formula.new ≡ with_more formula.old (all_comparison_vars problem.now motions.now)
        (all_comparisons problem.now formula.old.vars motions.now)) }
{
    // The limits of the file's sizes are known from here on.
    let _posed = problem.posed();
    for n in 0..motions.len() {
        push_comparisons(alloc, formula, problem, motions[n])?;
    }
    Ok(())
}

// Pushes the clauses by which one of each kind is left, where that is asked, and their variables.
fn push_images(
    alloc: Global,
    formula: &mut Formula,
    problem: &Problem,
    images: Images,
) -> Result<(), Memory>
    requires cells { length problem.now.posed.cells ≤ formula.old.vars }
    requires vars { formula.old.vars + MOST_VARIABLES ≤ Var.MOST }
    requires room { HasRoom formula.old MOST_CLAUSES_IMAGES }
    ensures { OnOk result (formula.new ≡ with_more formula.old (images_vars problem.now images) (images_part problem.now images formula.old.vars)) }
{
    match images {
        Images::All => Ok(()),
        Images::One => {
            let motions = same_motions(alloc, problem)?;
            push_all_comparisons(alloc, formula, problem, &motions)
        }
    }
}

/// The formula of a problem, and where one solution of each kind is asked, behind it the clauses that generation 0 comes first
/// of its images under the motions under which the problem looks the same.
///
/// Under a motion, each cell of generation 0 whose image is another cell has a variable, in the order of rows: it is true where
/// that cell and all before it have the values of their images. Each has three clauses. Where all before it have, the cell is
/// live where its image is; and where it has the value of its image too, its variable is true.
pub fn formulate(
    alloc: Global,
    problem: &Problem,
    formulation: Formulation,
) -> Result<Formula, Memory>
    ensures formula { IfOk result (λ formula. formula ≡ formulated problem.now formulation) }
    ensures few { IfOk result (λ formula. length formula.clauses < CLAUSES_BELOW) }

    // Every solution that is to be left has an assignment that satisfies it and begins with the solution's cells.
    ensures complete { IfOk result (λ formula. (history : History) → IsSolution problem.now history → IsLeft formulation.images problem.now history
        → HasAssignment formula history) }

    // So has one of the kind of every solution.
    ensures kinds { IfOk result (λ formula. (history : History) → IsSolution problem.now history
        → HasOneOfKind problem.now formula history) }

    // Every assignment that satisfies it and has a value for each cell begins with the cells of a solution, and of one that is
    // to be left. A value past its end is false.
    ensures sound { IfOk result (λ formula. (values : List Bool) → length problem.now.posed.cells ≤ length values
        → satisfies values formula.clauses ≡ true → IsSolution problem.now (history_of problem.now values)) }
    ensures left { IfOk result (λ formula. (values : List Bool) → length problem.now.posed.cells ≤ length values
        → satisfies values formula.clauses ≡ true → IsLeft formulation.images problem.now (history_of problem.now values)) }

    // So a formula that no assignment satisfies says that there is no solution, whichever are left.
    ensures absent { IfOk result (λ formula. IsUnsatisfiable formula → IsAbsent problem.now) }

    // And where there is no solution, no assignment satisfies it.
    ensures unsatisfiable { IfOk result (λ formula. IsAbsent problem.now → IsUnsatisfiable formula) }
{
    // That the demands fit the file is known from here on.
    let _posed = problem.posed();
    let _demands = problem.demands();
    let mut formula = encode(alloc, problem, formulation.form)?;
    push_images(alloc, &mut formula, problem, formulation.images)?;
    Ok(formula)
}
