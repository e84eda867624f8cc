// The search for a solution with the fewest live cells in generation 0, or with the most.
ghost use Rattle.std.specs.Prelude.{◌≤◌, Bool};
ghost use Rattle.lls_hensel.specs.Isotropy.{IsIsotropic};
ghost use Rattle.lls_least.specs.Bounded.{LeavesRoom};
ghost use Rattle.lls_least.specs.Extremal.{IsExtremal, IsExtreme, IsShown, Settles, log_of};
ghost use Rattle.lls_solver.specs.declared.solving.TheConstants.{MOST_BUDGET};
ghost use Rattle.lls_solver.specs.Searching.{KeepsAll};
ghost use Rattle.lls_outside.specs.Outside.{BorrowsSame, moment_of};
ghost use Rattle.lls_answers.specs.Evidence.{IsEvidence};
ghost use Rattle.lls_answers.specs.Questions as questions;
ghost use Rattle.lls_answers.specs.Subject.{formula_asked};
ghost use Rattle.lls_cli.specs.Ends.{End, IsEndOf};

use crate::deliver::{give, lack};
use lls_answers::extremal::{asked_beyond, reached, shown, unsettled};
use lls_answers::{Asked, Effort, Status, Subject, absence_of};
use lls_base::{Memory, Shelf, Sink};
use lls_grid::History;
use lls_least::{Extremal, Extreme, extremal};
use lls_outside::Outside;
use lls_prooflog::Log;
use lls_solver::Approach;
use std::alloc::Global;

/// Searches a solution with the fewest live cells, or with the most, and gives what comes of it.
pub fn give_extremal<S: Shelf, O: Sink, E: Sink>(
    alloc: Global,
    extreme: Extreme,
    asked: Asked,
    effort: Effort,
    rle: bool,
    approach: Approach,
    outside: &mut Outside<S, O, E>,
) -> Status
    requires room { LeavesRoom asked.problem }
    requires budget { effort.budget ≤ MOST_BUDGET }
    requires isotropic { IsIsotropic asked.problem.rule }
    ensures end { (end : End) × IsEndOf (questions.Extremal extreme asked effort rle) (moment_of S.Shelf O.Sink E.Sink outside.old) (moment_of S.Shelf O.Sink E.Sink outside.new) result end }
    ensures same { BorrowsSame outside.old outside.new }
{
    match extremal(
        alloc,
        &asked.problem,
        extreme,
        asked.formulation,
        approach,
        effort.budget,
        effort.keep_all,
    ) {
        Ok(found) => give_found(alloc, extreme, asked, effort, rle, &found, outside),
        Err(Memory) => lack(outside.err),
    }
}

// Gives what was found.
fn give_found<S: Shelf, O: Sink, E: Sink>(
    alloc: Global,
    extreme: Extreme,
    asked: Asked,
    effort: Effort,
    rle: bool,
    found: &Extremal,
    outside: &mut Outside<S, O, E>,
) -> Status
    requires room { LeavesRoom asked.problem }
    requires isotropic { IsIsotropic asked.problem.rule }
    requires found { IsExtremal extreme asked.problem asked.formulation effort.budget found.now }
    requires settles { Settles extreme asked.problem found.now }
    requires kept { KeepsAll effort.keep_all (log_of found.now).steps }
    ensures end { (end : End) × IsEndOf (questions.Extremal extreme asked effort rle) (moment_of S.Shelf O.Sink E.Sink outside.old) (moment_of S.Shelf O.Sink E.Sink outside.new) result end }
    ensures same { BorrowsSame outside.old outside.new }
{
    match found {
        Extremal::Shown { history, log } => {
            give_shown(alloc, extreme, &asked, effort, rle, history, log, outside)
        }
        Extremal::Absent { log } => give_absent(alloc, asked, effort, log, outside),
        Extremal::Reached { history, log } => {
            give(
                reached(alloc, &asked, extreme, effort, rle, history, log),
                outside,
            )
        }
        Extremal::Unsettled { log } => give(unsettled(alloc, effort, log), outside),
    }
}

// Gives a solution with the fewest live cells, or with the most, and the log that shows that there is none beyond it.
fn give_shown<S: Shelf, O: Sink, E: Sink>(
    alloc: Global,
    extreme: Extreme,
    asked: &Asked,
    effort: Effort,
    rle: bool,
    history: &History,
    log: &Log,
    outside: &mut Outside<S, O, E>,
) -> Status
    requires room { LeavesRoom asked.now.problem }
    requires isotropic { IsIsotropic asked.now.problem.rule }
    requires shown { IsShown extreme asked.now.problem asked.now.formulation effort.budget history.now log.now.steps }
    requires utmost { IsExtreme extreme asked.now.problem history.now }
    requires kept { KeepsAll effort.keep_all log.now.steps }
    ensures end { (end : End) × IsEndOf (questions.Extremal extreme asked.now effort rle) (moment_of S.Shelf O.Sink E.Sink outside.old) (moment_of S.Shelf O.Sink E.Sink outside.new) result end }
    ensures same { BorrowsSame outside.old outside.new }
{
    match asked_beyond(alloc, asked, extreme, history) {
        Ok(next) => give(
            shown(alloc, asked, extreme, &next, effort, rle, history, log),
            outside,
        ),
        Err(Memory) => lack(outside.err),
    }
}

// Gives that there is no solution, with the log that shows it.
fn give_absent<S: Shelf, O: Sink, E: Sink>(
    alloc: Global,
    asked: Asked,
    effort: Effort,
    log: &Log,
    outside: &mut Outside<S, O, E>,
) -> Status
    requires { IsEvidence (formula_asked asked) effort log.now.steps }
    ensures end { (extreme : Extreme) (rle : Bool) → (end : End) × IsEndOf (questions.Extremal extreme asked effort rle) (moment_of S.Shelf O.Sink E.Sink outside.old) (moment_of S.Shelf O.Sink E.Sink outside.new) result end }
    ensures same { BorrowsSame outside.old outside.new }
{
    match Subject::of_problem(alloc, asked.problem, asked.formulation) {
        Ok(subject) => give(absence_of(alloc, &subject, log, effort), outside),
        Err(Memory) => lack(outside.err),
    }
}
