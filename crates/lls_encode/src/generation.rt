// The cells of a generation, and their variables.
ghost use Rattle.std.specs.Prelude.{◌≡◌, ◌<◌, ◌≤◌, ◌*◌, length, true, IfOk};
ghost use Rattle.lls_lit.specs.Formula.{is_literal_of};
ghost use Rattle.lls_encode.specs.Formula.{generation_size, cell_of_generation, generation_cells};

use crate::cells::cell_literal;
use lls_grid::History;
use lls_lit::Lit;
use lls_problem::Problem;
use std::alloc::{AllocError, Global};

/// How many cells a generation has.
pub fn generation_size(problem: &Problem) -> u32
    ensures size { result ≡ generation_size problem.now }
    ensures most { result ≤ History.MOST_HEIGHT * History.MOST_WIDTH }
{
    let posed = problem.posed();
    posed.width * posed.height
}

/// The literal of the kth cell of a generation.
pub fn cell_of_generation(problem: &Problem, t: u32, k: u32) -> Lit
    requires generation { t < problem.now.posed.generations }
    requires cell { k < generation_size problem.now }
    ensures literal { result ≡ cell_of_generation problem.now t k }
    ensures within { is_literal_of (length problem.now.posed.cells) result ≡ true }
{
    // The limits of the file's sizes are known from here on.
    let _posed = problem.posed();
    cell_literal((k + generation_size(problem) * t) as usize)
}

/// The literals of all cells of a generation, row by row.
pub fn generation_cells(alloc: Global, problem: &Problem, t: u32) -> Result<Vec<Lit>, AllocError>
    requires { t < problem.now.posed.generations }
    ensures { IfOk result (λ cells. cells.items ≡ generation_cells problem.now t) }
{
    let mut cells = Vec::new(alloc);
    for k in 0..generation_size(problem) {
        cells.push(cell_of_generation(problem, t, k))?;
    }
    Ok(cells)
}
