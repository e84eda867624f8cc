// What stands at a place, and what a transition reads.
ghost use Rattle.std.specs.Prelude.{◌≡◌, ◌<◌, ◌≤◌, ◌+◌, ◌-◌, pos, negsuc, ◌≤ℤ◌, Bool, List, [], ◌∷◌, ◌++◌, length, map, true};
ghost use Rattle.std.specs.List.{list_all};
ghost use Rattle.lls_grid.specs.History.{at, nine};
ghost use Rattle.lls_problem.specs.Solution.{IsFramed};
ghost use Rattle.lls_transition.specs.Place.{place_within, value_of};
ghost use Rattle.lls_encode.specs.History.{history_of};
ghost use Rattle.lls_encode.specs.Place.{place_at, inputs_at};

use crate::cells::cell_literal;
use lls_grid::{GridPlace, History, index_within};
use lls_problem::Problem;
use lls_transition::{INPUTS, Place};

/// What stands at a place of generation t; y counts down from the top row, x to the right from the left column.
pub fn place_at(problem: &Problem, t: u32, y: i32, x: i32) -> Place
    requires { t < problem.now.posed.generations }
    ensures place { result ≡ place_at problem.now t y x }
    ensures within { place_within (length problem.now.posed.cells) result ≡ true }
{
    let posed = problem.posed();
    match (index_within(y, posed.height), index_within(x, posed.width)) {
        (Some(y), Some(x)) => Place::Of(cell_literal(problem.cell_index(GridPlace { t, y, x }))),
        _ => Place::Known(problem.rule().background(t)),
    }
}

/// The ten inputs of the transition into a place of generation t + 1: its neighbourhood in generation t from top left
/// to bottom right, and itself.
pub fn inputs_at(problem: &Problem, t: u32, y: i32, x: i32) -> [Place; INPUTS]
    requires generation { t + 1 < problem.now.posed.generations }
    requires row { (negsuc 0 ≤ℤ y) × (y ≤ℤ pos History.MOST_HEIGHT) }
    requires column { (negsuc 0 ≤ℤ x) × (x ≤ℤ pos History.MOST_WIDTH) }
    ensures inputs { result ≡ inputs_at problem.now t y x }
    ensures within { list_all (place_within (length problem.now.posed.cells)) result ≡ true }
{
    // The limits of the file's sizes are known from here on.
    let _generations = problem.posed().generations;
    [
        place_at(problem, t, y - 1, x - 1),
        place_at(problem, t, y - 1, x),
        place_at(problem, t, y - 1, x + 1),
        place_at(problem, t, y, x - 1),
        place_at(problem, t, y, x),
        place_at(problem, t, y, x + 1),
        place_at(problem, t, y + 1, x - 1),
        place_at(problem, t, y + 1, x),
        place_at(problem, t, y + 1, x + 1),
        place_at(problem, t + 1, y, x),
    ]
}

/// The ten inputs of the transition into a framed place of generation t: its neighbourhood in the generation before, from
/// top left to bottom right, and itself. A place outside the grid is the background of its generation. It takes no memory.
pub fn inputs(problem: &Problem, t: u32, y: i32, x: i32) -> [Place; INPUTS]
    requires generation { (1 ≤ t) × (t < problem.now.posed.generations) }
    requires framed { IsFramed problem.now.demands.edge problem.now.posed.height problem.now.posed.width y x }
    ensures inputs { result ≡ inputs_at problem.now (t - 1) y x }
    ensures within { list_all (place_within (length problem.now.posed.cells)) result ≡ true }

    // Where the first values are the cells of a history, those of the inputs are its cells there.
    ensures values { (values : List Bool) → length problem.now.posed.cells ≤ length values
        → map (value_of values) result ≡ nine problem.now.rule (history_of problem.now values) (t - 1) y x
        ++ at problem.now.rule (history_of problem.now values) t y x ∷ [] }
{
    // The limits of the file's sizes are known from here on.
    let _posed = problem.posed();
    inputs_at(problem, t - 1, y, x)
}
