// The clauses of a period.
ghost use Rattle.std.specs.Prelude.{◌≡◌, ◌<◌, ◌+◌, length, OnOk};
ghost use Rattle.std.specs.List.{flat_map};
ghost use Rattle.lls_transition.specs.Clause.{with_clauses};
ghost use Rattle.lls_symmetry.specs.Moved.{IsCourse, row_leaving, all_leaving, entering, row_entering, all_entering};
ghost use Rattle.lls_problem.specs.Problem.{IsPeriod};
ghost use Rattle.lls_problem.specs.Losses.{course_of};
ghost use Rattle.lls_encode.specs.Formula.{moved_clauses, background_clauses, return_clauses, period_clauses, period_part};
ghost use Rattle.lls_encode.specs.Room.{HasRoom};

use crate::equal::push_same_places;
use crate::place::place_at;
use lls_base::Memory;
use lls_cnf::Formula;
use lls_grid::History;
use lls_problem::{Period, Problem};
use lls_symmetry::{Course, MOST_PERIOD, Moved, is_on_grid};

// The clauses of a row's cells and of a grid's, of a generation and of all.
const MOST_CLAUSES_ROW: usize = 2 * History::MOST_WIDTH as usize;

const MOST_CLAUSES_GRID: usize = History::MOST_HEIGHT as usize * MOST_CLAUSES_ROW;

const MOST_CLAUSES_GENERATION: usize = 1 + 2 * MOST_CLAUSES_GRID;

pub const MOST_CLAUSES_PERIOD: usize = MOST_PERIOD as usize * MOST_CLAUSES_GENERATION;

// Pushes that a place and where it is a period later are equal.
fn push_moved(formula: &mut Formula, problem: &Problem, pair: Moved) -> Result<(), Memory>
    requires early { pair.early.t < problem.now.posed.generations }
    requires late { pair.late.t < problem.now.posed.generations }
    requires vars { formula.old.vars ≡ length problem.now.posed.cells }
    requires room { HasRoom formula.old 2 }
    ensures { OnOk result (formula.new ≡ with_clauses formula.old (moved_clauses problem.now pair)) }
{
    let early = place_at(problem, pair.early.t, pair.early.y, pair.early.x);
    let late = place_at(problem, pair.late.t, pair.late.y, pair.late.x);
    push_same_places(formula, &early, &late)
}

// Pushes where the cells of a row go.
fn push_row_leaving(
    formula: &mut Formula,
    problem: &Problem,
    course: Course,
    y: u32,
) -> Result<(), Memory>
    requires course { IsCourse course }
    requires later { course.t + course.period < problem.now.posed.generations }
    requires row { y < problem.now.posed.height }
    requires vars { formula.old.vars ≡ length problem.now.posed.cells }
    requires room { HasRoom formula.old MOST_CLAUSES_ROW }
    ensures { OnOk result (formula.new ≡ with_clauses formula.old
        (flat_map (moved_clauses problem.now) (row_leaving course problem.now.posed.width y))) }
{
    for x in 0..problem.posed().width {
        push_moved(formula, problem, course.leaving(y, x))?;
    }
    Ok(())
}

// Pushes where the cells of a generation go.
fn push_leaving(formula: &mut Formula, problem: &Problem, course: Course) -> Result<(), Memory>
    requires course { IsCourse course }
    requires later { course.t + course.period < problem.now.posed.generations }
    requires vars { formula.old.vars ≡ length problem.now.posed.cells }
    requires room { HasRoom formula.old MOST_CLAUSES_GRID }
    ensures { OnOk result (formula.new ≡ with_clauses formula.old
        (flat_map (moved_clauses problem.now) (all_leaving course problem.now.posed.height problem.now.posed.width))) }
{
    for y in 0..problem.posed().height {
        push_row_leaving(formula, problem, course, y)?;
    }
    Ok(())
}

// Pushes where a cell of the later generation comes from, where that is outside the grid.
fn push_cell_entering(
    formula: &mut Formula,
    problem: &Problem,
    course: Course,
    y: u32,
    x: u32,
) -> Result<(), Memory>
    requires course { IsCourse course }
    requires later { course.t + course.period < problem.now.posed.generations }
    requires row { y < problem.now.posed.height }
    requires column { x < problem.now.posed.width }
    requires vars { formula.old.vars ≡ length problem.now.posed.cells }
    requires room { HasRoom formula.old 2 }
    ensures { OnOk result (formula.new ≡ with_clauses formula.old
        (flat_map (moved_clauses problem.now) (entering course problem.now.posed.height problem.now.posed.width y x))) }
{
    let posed = problem.posed();
    let pair = course.coming(y, x);
    if is_on_grid(posed.height, posed.width, pair.early) {
        return Ok(());
    }
    push_moved(formula, problem, pair)
}

// Pushes where the cells of a row of the later generation come from, those from outside the grid.
fn push_row_entering(
    formula: &mut Formula,
    problem: &Problem,
    course: Course,
    y: u32,
) -> Result<(), Memory>
    requires course { IsCourse course }
    requires later { course.t + course.period < problem.now.posed.generations }
    requires row { y < problem.now.posed.height }
    requires vars { formula.old.vars ≡ length problem.now.posed.cells }
    requires room { HasRoom formula.old MOST_CLAUSES_ROW }
    ensures { OnOk result (formula.new ≡ with_clauses formula.old
        (flat_map (moved_clauses problem.now) (row_entering course problem.now.posed.height problem.now.posed.width y))) }
{
    for x in 0..problem.posed().width {
        push_cell_entering(formula, problem, course, y, x)?;
    }
    Ok(())
}

// Pushes where the cells of the later generation come from, those from outside the grid.
fn push_entering(formula: &mut Formula, problem: &Problem, course: Course) -> Result<(), Memory>
    requires course { IsCourse course }
    requires later { course.t + course.period < problem.now.posed.generations }
    requires vars { formula.old.vars ≡ length problem.now.posed.cells }
    requires room { HasRoom formula.old MOST_CLAUSES_GRID }
    ensures { OnOk result (formula.new ≡ with_clauses formula.old
        (flat_map (moved_clauses problem.now) (all_entering course problem.now.posed.height problem.now.posed.width))) }
{
    for y in 0..problem.posed().height {
        push_row_entering(formula, problem, course, y)?;
    }
    Ok(())
}

// Pushes the clause without literals where the background of generation t isn't there again a period later.
fn push_background(
    formula: &mut Formula,
    problem: &Problem,
    period: Period,
    t: u32,
) -> Result<(), Memory>
    requires later { t + period.length < problem.now.posed.generations }
    requires room { HasRoom formula.old 1 }
    ensures { OnOk result (formula.new ≡ with_clauses formula.old (background_clauses problem.now period t)) }
{
    // The limits of the file's sizes are known from here on.
    let _posed = problem.posed();
    let rule = problem.rule();
    if rule.background(t) == rule.background(t + period.length) {
        return Ok(());
    }
    formula.push(&[])
}

// The course of a period from generation t on.
fn course_of(period: Period, t: u32) -> Course
    requires period { IsPeriod period }
    requires start { t < History.MOST_GENERATIONS }
    ensures course { result ≡ course_of period t }
    ensures kept { IsCourse result }
{
    Course {
        t,
        period: period.length,
        dx: period.dx,
        dy: period.dy,
    }
}

// Pushes that generation t is there again a period later, moved by the shift.
fn push_return(
    formula: &mut Formula,
    problem: &Problem,
    period: Period,
    t: u32,
) -> Result<(), Memory>
    requires period { IsPeriod period }
    requires later { t + period.length < problem.now.posed.generations }
    requires vars { formula.old.vars ≡ length problem.now.posed.cells }
    requires room { HasRoom formula.old MOST_CLAUSES_GENERATION }
    ensures { OnOk result (formula.new ≡ with_clauses formula.old (return_clauses problem.now period t)) }
{
    // The limits of the file's sizes are known from here on.
    let _posed = problem.posed();
    let course = course_of(period, t);
    push_background(formula, problem, period, t)?;
    push_leaving(formula, problem, course)?;
    push_entering(formula, problem, course)
}

// Pushes that each generation that has one a period later is there again.
fn push_returns(formula: &mut Formula, problem: &Problem, period: Period) -> Result<(), Memory>
    requires period { IsPeriod period }
    requires shorter { period.length < problem.now.posed.generations }
    requires vars { formula.old.vars ≡ length problem.now.posed.cells }
    requires room { HasRoom formula.old MOST_CLAUSES_PERIOD }
    ensures { OnOk result (formula.new ≡ with_clauses formula.old (period_clauses problem.now period)) }
{
    for t in 0..problem.posed().generations - period.length {
        push_return(formula, problem, period, t)?;
    }
    Ok(())
}

/// Pushes the clauses of the period, where one is asked.
pub fn push_period(formula: &mut Formula, problem: &Problem) -> Result<(), Memory>
    requires vars { formula.old.vars ≡ length problem.now.posed.cells }
    requires room { HasRoom formula.old MOST_CLAUSES_PERIOD }
    ensures { OnOk result (formula.new ≡ with_clauses formula.old (period_part problem.now)) }
{
    match problem.demands().period {
        Some(period) => push_returns(formula, problem, period),
        None => Ok(()),
    }
}
