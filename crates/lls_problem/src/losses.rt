// What of a history isn't there again a period later, and the first of it.
ghost use Rattle.std.specs.Prelude.{◌≡◌, ◌<◌, ◌+◌};
ghost use Rattle.std.specs.List.{flat_map};
ghost use Rattle.lls_symmetry.specs.Moved.{IsCourse, row_leaving, all_leaving, entering, row_entering, all_entering};
ghost use Rattle.lls_problem.specs.Problem.{IsPeriod};
ghost use Rattle.lls_problem.specs.Judgement.{HasItsSizes, judgement_of};
ghost use Rattle.lls_problem.specs.Firsts.{first};
ghost use Rattle.lls_problem.specs.Losses.{is_lost, lost_of, course_of, losses_at, losses_of, losses};
ghost use Rattle.lls_problem.specs.Board.{IsOnBoard};

use crate::{Judgement, Period, Problem};
use lls_grid::History;
use lls_symmetry::{Course, Moved, Spot, is_on_grid};

/// What isn't there again a period later.
#[derive(Clone, Copy, Debug, PartialEq, Eq)]
pub enum Loss {
    /// The background of that generation.
    OfBackground(u32),
    /// The cell at that place.
    OfPlace(Spot),
}

impl Loss {
    /// The answer that says it.
    pub fn judgement(self) -> Judgement
        ensures { result ≡ judgement_of self }
    {
        match self {
            Loss::OfBackground(t) => Judgement::Background(t),
            Loss::OfPlace(spot) => Judgement::Moved(spot.t, spot.y, spot.x),
        }
    }
}

// Whether the two places of a pair have different values.
fn is_lost(problem: &Problem, history: &History, pair: Moved) -> bool
    requires sizes { HasItsSizes problem.now history.now }
    requires early { IsOnBoard problem.now pair.early }
    requires late { IsOnBoard problem.now pair.late }
    ensures { result ≡ is_lost problem.now.rule history.now pair }
{
    let rule = problem.rule();
    let early = history.at(rule, pair.early.t, pair.early.y, pair.early.x);
    early != history.at(rule, pair.late.t, pair.late.y, pair.late.x)
}

// The first cell of a row that isn't where the course takes it.
fn first_left_in_row(problem: &Problem, history: &History, course: Course, y: u32) -> Option<Spot>
    requires sizes { HasItsSizes problem.now history.now }
    requires course { IsCourse course }
    requires later { course.t + course.period < problem.now.posed.generations }
    requires row { y < problem.now.posed.height }
    ensures { result ≡ first (flat_map (lost_of problem.now.rule history.now) (row_leaving course problem.now.posed.width y)) }
{
    for x in 0..problem.posed().width {
        let pair = course.leaving(y, x);
        if is_lost(problem, history, pair) {
            return Some(pair.early);
        }
    }
    None
}

// The first cell of the grid that isn't.
fn first_left(problem: &Problem, history: &History, course: Course) -> Option<Spot>
    requires sizes { HasItsSizes problem.now history.now }
    requires course { IsCourse course }
    requires later { course.t + course.period < problem.now.posed.generations }
    ensures { result ≡ first (flat_map (lost_of problem.now.rule history.now) (all_leaving course problem.now.posed.height problem.now.posed.width)) }
{
    for y in 0..problem.posed().height {
        if let Some(spot) = first_left_in_row(problem, history, course, y) {
            return Some(spot);
        }
    }
    None
}

// The place outside the grid from which a cell comes, where the two differ.
fn lost_entry(problem: &Problem, history: &History, course: Course, y: u32, x: u32) -> Option<Spot>
    requires sizes { HasItsSizes problem.now history.now }
    requires course { IsCourse course }
    requires later { course.t + course.period < problem.now.posed.generations }
    requires row { y < problem.now.posed.height }
    requires column { x < problem.now.posed.width }
    ensures { result ≡ first (flat_map (lost_of problem.now.rule history.now) (entering course problem.now.posed.height problem.now.posed.width y x)) }
{
    let posed = problem.posed();
    let pair = course.coming(y, x);
    if is_on_grid(posed.height, posed.width, pair.early) {
        return None;
    }
    if is_lost(problem, history, pair) {
        Some(pair.early)
    } else {
        None
    }
}

// The first such place of a row's cells.
fn first_entered_in_row(
    problem: &Problem,
    history: &History,
    course: Course,
    y: u32,
) -> Option<Spot>
    requires sizes { HasItsSizes problem.now history.now }
    requires course { IsCourse course }
    requires later { course.t + course.period < problem.now.posed.generations }
    requires row { y < problem.now.posed.height }
    ensures { result ≡ first (flat_map (lost_of problem.now.rule history.now) (row_entering course problem.now.posed.height problem.now.posed.width y)) }
{
    for x in 0..problem.posed().width {
        if let Some(spot) = lost_entry(problem, history, course, y, x) {
            return Some(spot);
        }
    }
    None
}

// The first such place of all cells.
fn first_entered(problem: &Problem, history: &History, course: Course) -> Option<Spot>
    requires sizes { HasItsSizes problem.now history.now }
    requires course { IsCourse course }
    requires later { course.t + course.period < problem.now.posed.generations }
    ensures { result ≡ first (flat_map (lost_of problem.now.rule history.now) (all_entering course problem.now.posed.height problem.now.posed.width)) }
{
    for y in 0..problem.posed().height {
        if let Some(spot) = first_entered_in_row(problem, history, course, y) {
            return Some(spot);
        }
    }
    None
}

// The course of a period from generation t on.
fn course_of(period: Period, t: u32) -> Course
    requires period { IsPeriod period }
    requires start { t < History.MOST_GENERATIONS }
    ensures course { result ≡ course_of period t }
    ensures kept { IsCourse result }
{
    Course {
        t,
        period: period.length,
        dx: period.dx,
        dy: period.dy,
    }
}

/// The first loss of a generation.
pub fn first_at(problem: &Problem, history: &History, period: Period, t: u32) -> Option<Loss>
    requires sizes { HasItsSizes problem.now history.now }
    requires period { IsPeriod period }
    requires later { t + period.length < problem.now.posed.generations }
    ensures { result ≡ first (losses_at problem.now history.now period t) }
{
    // The limits of the file's sizes are known from here on.
    let _posed = problem.posed();
    let rule = problem.rule();
    if rule.background(t) != rule.background(t + period.length) {
        return Some(Loss::OfBackground(t));
    }
    let course = course_of(period, t);
    if let Some(spot) = first_left(problem, history, course) {
        return Some(Loss::OfPlace(spot));
    }
    match first_entered(problem, history, course) {
        Some(spot) => Some(Loss::OfPlace(spot)),
        None => None,
    }
}

// The first loss of a period.
fn first_of(problem: &Problem, history: &History, period: Period) -> Option<Loss>
    requires sizes { HasItsSizes problem.now history.now }
    requires period { IsPeriod period }
    requires shorter { period.length < problem.now.posed.generations }
    ensures { result ≡ first (losses_of problem.now history.now period) }
{
    for t in 0..problem.posed().generations - period.length {
        if let Some(loss) = first_at(problem, history, period, t) {
            return Some(loss);
        }
    }
    None
}

/// The first loss of the period that is asked, where one is.
pub fn first_loss(problem: &Problem, history: &History) -> Option<Loss>
    requires { HasItsSizes problem.now history.now }
    ensures { result ≡ first (losses problem.now history.now) }
{
    match problem.demands().period {
        Some(period) => first_of(problem, history, period),
        None => None,
    }
}
