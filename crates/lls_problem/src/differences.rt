// Whether two generations of a history differ.
ghost use Rattle.std.specs.Prelude.{◌≡◌, ◌<◌, ℕ, MatchBool};
ghost use Rattle.lls_problem.specs.Solution.{IsDifference, Differs};
ghost use Rattle.lls_problem.specs.Judgement.{HasItsSizes};
ghost use Rattle.lls_problem.specs.Differences.{AreAlikeAt, AreAlikeInRow, AreAlike};

use crate::Problem;
use lls_grid::History;

// Whether a cell isn't the same in two generations.
fn cell_differs(problem: &Problem, history: &History, s: u32, t: u32, y: u32, x: u32) -> bool
    requires sizes { HasItsSizes problem.now history.now }
    requires early { s < problem.now.posed.generations }
    requires late { t < problem.now.posed.generations }
    requires row { y < problem.now.posed.height }
    requires column { x < problem.now.posed.width }
    ensures { MatchBool result (IsDifference problem.now history.now s t y x) (AreAlikeAt problem.now history.now s t y x) }
{
    // The limits of the file's sizes are known from here on.
    let _posed = problem.posed();
    let rule = problem.rule();
    let (row, column) = (y as i32, x as i32);
    history.at(rule, s, row, column) != history.at(rule, t, row, column)
}

// Whether some cell of a row isn't.
fn row_differs(problem: &Problem, history: &History, s: u32, t: u32, y: u32) -> bool
    requires sizes { HasItsSizes problem.now history.now }
    requires early { s < problem.now.posed.generations }
    requires late { t < problem.now.posed.generations }
    requires row { y < problem.now.posed.height }
    ensures { MatchBool result ((x : ℕ) × IsDifference problem.now history.now s t y x) (AreAlikeInRow problem.now history.now s t y) }
{
    for x in 0..problem.posed().width {
        if cell_differs(problem, history, s, t, y, x) {
            return true;
        }
    }
    false
}

// Whether some cell of the grid isn't.
fn generations_differ(problem: &Problem, history: &History, s: u32, t: u32) -> bool
    requires sizes { HasItsSizes problem.now history.now }
    requires early { s < problem.now.posed.generations }
    requires late { t < problem.now.posed.generations }
    ensures { MatchBool result ((y : ℕ) × ((x : ℕ) × IsDifference problem.now history.now s t y x)) (AreAlike problem.now history.now s t) }
{
    for y in 0..problem.posed().height {
        if row_differs(problem, history, s, t, y) {
            return true;
        }
    }
    false
}

/// Whether the two generations differ that have to, where there are such.
pub fn differs(problem: &Problem, history: &History) -> bool
    requires { HasItsSizes problem.now history.now }
    ensures { MatchBool result (Differs problem.now history.now) (Differs problem.now history.now → ⊥) }
{
    match problem.demands().differ {
        Some((s, t)) => generations_differ(problem, history, s, t),
        None => true,
    }
}
