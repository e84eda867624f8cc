// A problem with a solution, from a number.
ghost use Rattle.std.specs.Prelude.{◌≡◌, ◌≤◌, ◌*◌, length, map, IfOk};
ghost use Rattle.lls_grid.specs.History.{folded};
ghost use Rattle.lls_problem.specs.Solution.{IsSolution};
ghost use Rattle.lls_gen.specs.Drawing.{is_live, cells_of_both};
ghost use Rattle.lls_gen.specs.Made.{made, posed_of};

use crate::drawing::{cells, lives};
use crate::numbers::numbers;
use lls_base::Memory;
use lls_grid::{History, Sizes};
use lls_problem::{Demands, Edge, Problem, make_problem};
use lls_rule::Rule;
use lls_search_file::{Cells, Names, Posed};
use std::alloc::Global;

/// The greatest size that can be made.
pub const MOST_SIZE: u32 = 64;

// The generations of what is made.
const GENERATIONS: u32 = 2;

/// A problem, and a history that is a solution of it.
#[derive(Drop)]
pub struct Made {
    pub problem: Problem,
    pub history: History,
}

/// Two generations of so many rows of as many cells, under Life's rule with an open edge, from a number.
///
/// With the seed begins a linear congruential generator with the constants of D. E. Knuth's MMIX: each number is
/// 6364136223846793005 times the one before and 1442695040888963407, modulo 2^64. The cells of generation 0, row by row,
/// take one number each: the highest bit says whether the cell is live, and the cell is unknown in the file where the three
/// bits below are 0. Generation 1 is what the rule makes of it, and is known whole.
pub fn make(alloc: Global, seed: u64, size: u32) -> Result<Made, Memory>
    requires { (1 ≤ size) × (size ≤ MOST_SIZE) }
    ensures value { IfOk result (λ pair. pair ≡ made seed size) }
    ensures solution { IfOk result (λ pair. IsSolution pair.problem pair.history) }
{
    let numbers = numbers(alloc, seed, size * size)?;
    let first = first_generation(alloc, &numbers, size)?;
    let life = Rule::from_counts(1 << 3, 1 << 2 | 1 << 3);
    let history = History::evolve(alloc, &life, &first, GENERATIONS)?;
    let posed = posed(alloc, &numbers, history.cells_at(1), size)?;
    let Ok(problem) = make_problem(posed, life, Demands::new(alloc, Edge::Bare)) else {
        unreachable!()
    };
    Ok(Made { problem, history })
}

// One generation of the cells of numbers.
fn first_generation(alloc: Global, numbers: &[u64], size: u32) -> Result<History, Memory>
    requires size { (1 ≤ size) × (size ≤ MOST_SIZE) }
    requires count { length numbers.now ≡ size * size }
    ensures { IfOk result (λ history. history ≡ folded 1 size size (map is_live numbers.now)) }
{
    let sizes = Sizes {
        generations: 1,
        height: size,
        width: size,
    };
    Ok(History::from_cells(sizes, lives(alloc, numbers)?))
}

// The file that says of generation 0 what numbers say, and fixes the cells of generation 1.
fn posed(alloc: Global, numbers: &[u64], next: &[bool], size: u32) -> Result<Posed, Memory>
    requires size { (1 ≤ size) × (size ≤ MOST_SIZE) }
    requires count { length numbers.now ≡ size * size }
    requires next_count { length next.now ≡ size * size }
    ensures { IfOk result (λ posed. posed ≡ posed_of size (cells_of_both numbers.now next.now)) }
{
    Ok(Posed {
        generations: GENERATIONS,
        height: size,
        width: size,
        cells: Cells::new(cells(alloc, numbers, next)?),
        names: Names::new(Vec::new(alloc)),
    })
}
