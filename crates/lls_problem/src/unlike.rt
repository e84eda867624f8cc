// The first cell of a history that differs from its image under the symmetry.
ghost use Rattle.std.specs.Prelude.{◌≡◌, ◌<◌, length};
ghost use Rattle.lls_symmetry.specs.Symmetry.{generators_of};
ghost use Rattle.lls_problem.specs.Judgement.{HasItsSizes};
ghost use Rattle.lls_problem.specs.Firsts.{first};
ghost use Rattle.lls_problem.specs.Unlike.{is_unlike, unlike_in_row, unlike_in_generation, unlike_under, unlike_cells};

use crate::Problem;
use lls_grid::{GridPlace, History};
use lls_symmetry::{generators, image};

// Whether a cell differs from its image under the kth generator.
fn is_unlike(problem: &Problem, history: &History, k: u32, t: u32, y: u32, x: u32) -> bool
    requires sizes { HasItsSizes problem.now history.now }
    requires generator { k < length (generators_of problem.now.demands.symmetry) }
    requires generation { t < problem.now.posed.generations }
    requires row { y < problem.now.posed.height }
    requires column { x < problem.now.posed.width }
    ensures { result ≡ is_unlike problem.now history.now k t y x }
{
    let posed = problem.posed();
    let symmetry = problem.demands().symmetry;
    let (to_y, to_x) = image(symmetry, k, posed.height, posed.width, y, x);
    let rule = problem.rule();
    history.at(rule, t, to_y as i32, to_x as i32) != history.at(rule, t, y as i32, x as i32)
}

// The first cell of a row that differs from its image under the kth generator.
fn first_in_row(problem: &Problem, history: &History, k: u32, t: u32, y: u32) -> Option<GridPlace>
    requires sizes { HasItsSizes problem.now history.now }
    requires generator { k < length (generators_of problem.now.demands.symmetry) }
    requires generation { t < problem.now.posed.generations }
    requires row { y < problem.now.posed.height }
    ensures { result ≡ first (unlike_in_row problem.now history.now k t y) }
{
    for x in 0..problem.posed().width {
        if is_unlike(problem, history, k, t, y, x) {
            return Some(GridPlace { t, y, x });
        }
    }
    None
}

// The first such cell of a generation.
fn first_in_generation(problem: &Problem, history: &History, k: u32, t: u32) -> Option<GridPlace>
    requires sizes { HasItsSizes problem.now history.now }
    requires generator { k < length (generators_of problem.now.demands.symmetry) }
    requires generation { t < problem.now.posed.generations }
    ensures { result ≡ first (unlike_in_generation problem.now history.now k t) }
{
    for y in 0..problem.posed().height {
        if let Some(place) = first_in_row(problem, history, k, t, y) {
            return Some(place);
        }
    }
    None
}

// The first such cell of all generations.
fn first_under(problem: &Problem, history: &History, k: u32) -> Option<GridPlace>
    requires sizes { HasItsSizes problem.now history.now }
    requires generator { k < length (generators_of problem.now.demands.symmetry) }
    ensures { result ≡ first (unlike_under problem.now history.now k) }
{
    for t in 0..problem.posed().generations {
        if let Some(place) = first_in_generation(problem, history, k, t) {
            return Some(place);
        }
    }
    None
}

/// The first cell that differs from its image, by generator, generation, row and column.
pub fn first_unlike(problem: &Problem, history: &History) -> Option<GridPlace>
    requires { HasItsSizes problem.now history.now }
    ensures { result ≡ first (unlike_cells problem.now history.now) }
{
    for k in 0..generators(problem.demands().symmetry) {
        if let Some(place) = first_under(problem, history, k) {
            return Some(place);
        }
    }
    None
}
