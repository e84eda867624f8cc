// The first transition of a history that doesn't obey the rule.
ghost use Rattle.std.specs.Prelude.{◌≡◌, ◌<◌, ◌≤◌, ◌+◌, ℕ, ℤ, pos, negsuc, ◌-ℤ◌, ◌≤ℤ◌, length, false, true, IsTrue, ◌↔◌, MatchOption, MatchBool};
ghost use Rattle.lls_problem.specs.Solution.{IsFramed, Obeys};
ghost use Rattle.lls_problem.specs.Judgement.{HasItsSizes, IsFirstTransition};
ghost use Rattle.lls_problem.specs.Transitions.{side, KeepsRule, BreaksRule, KeepsLine, BreaksLine, KeepsGeneration, BreaksGeneration};

use crate::{Edge, Problem};
use lls_grid::History;

// A place of a generation: a line and a column of the grid or of the ring round it, counted from those before the grid.
#[derive(Clone, Copy)]
struct RingPlace {
    line: u32,
    column: u32,
}

/// A transition by the place that it goes into: the generation, and the row and the column from those of the grid.
#[derive(Clone, Copy)]
pub struct Transition {
    pub t: u32,
    pub y: i32,
    pub x: i32,
}

// Whether transitions into a place have to obey the rule. The line and the column count from those before the grid.
fn is_framed(edge: Edge, height: u32, width: u32, line: u32, column: u32) -> bool
    requires height { height ≤ History.MOST_HEIGHT }
    requires width { width ≤ History.MOST_WIDTH }
    requires line { line < height + 2 }
    requires column { column < width + 2 }
    ensures { IsTrue result ↔ IsFramed edge height width (side line) (side column) }
{
    match edge {
        Edge::Framed => true,
        Edge::Bare => 1 <= line && line <= height && 1 <= column && column <= width,
    }
}

// Whether the transition into a place of generation t obeys the rule, where it has to.
fn keeps_rule(problem: &Problem, history: &History, t: u32, line: u32, column: u32) -> bool
    requires sizes { HasItsSizes problem.now history.now }
    requires later { 0 < t }
    requires generation { t < problem.now.posed.generations }
    requires line { line < problem.now.posed.height + 2 }
    requires column { column < problem.now.posed.width + 2 }
    ensures { MatchBool result (KeepsRule problem.now history.now t line column) (BreaksRule problem.now history.now t line column) }
{
    let posed = problem.posed();
    if !is_framed(problem.edge(), posed.height, posed.width, line, column) {
        return true;
    }
    let y = line as i32 - 1;
    let x = column as i32 - 1;
    if problem.is_marked(t, y, x) {
        return true;
    }
    let rule = problem.rule();
    history.at(rule, t, y, x) == rule.next(history.nine(rule, t - 1, y, x))
}

// The first column of a line of generation t that breaks the rule.
fn first_in_line(problem: &Problem, history: &History, t: u32, line: u32) -> Option<u32>
    requires sizes { HasItsSizes problem.now history.now }
    requires later { 0 < t }
    requires generation { t < problem.now.posed.generations }
    requires line { line < problem.now.posed.height + 2 }
    ensures { MatchOption result (KeepsLine problem.now history.now t line)
        (λ column. BreaksLine problem.now history.now t column line) }
{
    for column in 0..problem.posed().width + 2 {
        if !keeps_rule(problem, history, t, line, column) {
            return Some(column);
        }
    }
    None
}

// The first place of generation t that breaks the rule.
fn first_in_generation(problem: &Problem, history: &History, t: u32) -> Option<RingPlace>
    requires sizes { HasItsSizes problem.now history.now }
    requires later { 0 < t }
    requires generation { t < problem.now.posed.generations }
    ensures { MatchOption result (KeepsGeneration problem.now history.now t)
        (λ place. BreaksGeneration problem.now history.now t place.line place.column) }
{
    for line in 0..problem.posed().height + 2 {
        if let Some(column) = first_in_line(problem, history, t, line) {
            return Some(RingPlace { line, column });
        }
    }
    None
}

/// The first transition that breaks the rule.
pub fn first_transition(problem: &Problem, history: &History) -> Option<Transition>
    requires { HasItsSizes problem.now history.now }
    ensures { MatchOption result (Obeys problem.now history.now)
        (λ place. IsFirstTransition problem.now history.now (record { t = place.t; y = place.y; x = place.x })) }
{
    for t in 1..problem.posed().generations {
        if let Some(place) = first_in_generation(problem, history, t) {
            return Some(Transition {
                t,
                y: place.line as i32 - 1,
                x: place.column as i32 - 1,
            });
        }
    }
    None
}
