// The places whose transitions a formula is of.
ghost use Rattle.std.specs.Prelude.{◌≡◌, ◌+◌, ◌<◌, ◌++◌, IfOk, OnOk};
ghost use Rattle.lls_open.specs.Targets.{place_targets, line_targets, generation_targets, targets_of};

use lls_base::Memory;
use lls_encode::{first_framed, framed_count};
use lls_problem::Problem;
use std::alloc::Global;

// A line has at most 64 cells and one cell of the ring at each end.
const MOST_LINE: usize = 66;

/// The place of generation `t` + 1 into which a transition goes. Its line and its column count from the ones before the grid.
#[derive(Clone, Copy, Debug, PartialEq, Eq)]
pub struct Target {
    pub t: u32,
    pub line: u32,
    pub column: u32,
}

// Pushes a place, unless a mark frees it.
fn push_place(targets: &mut Vec<Target>, problem: &Problem, target: Target) -> Result<(), Memory>
    requires generation { target.t + 1 < problem.now.posed.generations }
    requires line { target.line < MOST_LINE }
    requires column { target.column < MOST_LINE }
    ensures { OnOk result (targets.new.items ≡ targets.old.items ++ place_targets problem.now target.t target.line target.column) }
{
    // The limits of the file's sizes are known from here on.
    let _posed = problem.posed();
    let y = target.line as i32 - 1;
    let x = target.column as i32 - 1;
    if !problem.is_marked(target.t + 1, y, x) {
        targets.push(target)?;
    }
    Ok(())
}

// Pushes the places of a line.
fn push_line(targets: &mut Vec<Target>, problem: &Problem, t: u32, line: u32) -> Result<(), Memory>
    requires generation { t + 1 < problem.now.posed.generations }
    requires line { line < MOST_LINE }
    ensures { OnOk result (targets.new.items ≡ targets.old.items ++ line_targets problem.now t line) }
{
    let edge = problem.demands().edge;
    let first = first_framed(edge);
    for k in 0..framed_count(edge, problem.posed().width) {
        let column = first + k;
        push_place(targets, problem, Target { t, line, column })?;
    }
    Ok(())
}

// Pushes the places of a generation.
fn push_generation(targets: &mut Vec<Target>, problem: &Problem, t: u32) -> Result<(), Memory>
    requires generation { t + 1 < problem.now.posed.generations }
    ensures { OnOk result (targets.new.items ≡ targets.old.items ++ generation_targets problem.now t) }
{
    let edge = problem.demands().edge;
    let first = first_framed(edge);
    for k in 0..framed_count(edge, problem.posed().height) {
        push_line(targets, problem, t, first + k)?;
    }
    Ok(())
}

/// The framed places of all generations but the first that no mark frees, by generation, row and column.
pub fn targets_of(alloc: Global, problem: &Problem) -> Result<Vec<Target>, Memory>
    ensures { IfOk result (λ targets. targets.items ≡ targets_of problem.now) }
{
    let mut targets = Vec::new(alloc);
    for t in 0..problem.posed().generations - 1 {
        push_generation(&mut targets, problem, t)?;
    }
    Ok(targets)
}
