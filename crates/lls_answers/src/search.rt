// Searches: for a solution of a problem, for a rule between two and a solution by it, and for an assignment that satisfies a formula.
ghost use Rattle.std.specs.Prelude.{◌≡◌, ◌≤◌, [], Ok, IfOk};
ghost use Rattle.std.specs.Option.{ForSome};
ghost use Rattle.lls_solver.specs.Searching.{IsOutcome};
ghost use Rattle.lls_solver.specs.declared.solving.TheConstants.{MOST_BUDGET};
ghost use Rattle.lls_answers.specs.Questions as questions;
ghost use Rattle.lls_answers.specs.Answer.{IsAnswer};
ghost use Rattle.lls_answers.specs.Subject.{CanBePrinted, subject_formula};
ghost use Rattle.lls_answers.specs.Crew.{IsCrew};

use crate::answer::Answer;
use crate::effort::{CrewPlan, Effort, Further};
use crate::evidence::{absence_of, log_file};
use crate::status::Status;
use crate::subject::Subject;
use crate::text::Text;
use lls_base::Memory;
use lls_crew::crew;
use lls_prooflog::Log;
use lls_solver::{Approach, Outcome, solve_from};
use std::alloc::Global;

// Searches for an assignment that satisfies the formula of what a search is about, by a crew or in a manner.
fn solve_by(
    alloc: Global,
    subject: &Subject,
    effort: &Effort,
    further: &Further,
    log: &mut Log,
) -> Result<Outcome, Memory>
    requires none { log.old.steps ≡ [] }
    requires budget { effort.now.budget ≤ MOST_BUDGET }
    requires crew { ForSome further.now.crew IsCrew }
    ensures { IsOutcome (subject_formula subject.now) effort.now.budget effort.now.keep_all log.new.steps result }
{
    let formula = subject.formula();
    match further.crew {
        Some(CrewPlan { searchers, seed }) => crew(
            alloc,
            formula,
            searchers,
            effort.budget,
            effort.keep_all,
            seed,
            log,
        ),
        None => {
            let approach = Approach {
                manners: subject.manners(further.manners),
                first: further.first,
            };
            solve_from(
                alloc,
                formula,
                &[],
                approach,
                effort.budget,
                effort.keep_all,
                log,
            )
        }
    }
}

/// The answer to a search, by several searchers where there is a plan for them.
pub fn search<'f>(
    alloc: Global,
    subject: &'f Subject,
    effort: Effort,
    further: Further,
) -> Result<Answer<'f>, Memory>
    requires budget { effort.budget ≤ MOST_BUDGET }
    requires crew { ForSome further.crew IsCrew }
    requires printable { CanBePrinted subject.now }
    ensures { IfOk result (IsAnswer (questions.Search subject.now effort further.rle)) }
{
    let mut log = Log::new(alloc);
    let outcome = solve_by(alloc, subject, &effort, &further, &mut log)?;
    answer_to(alloc, subject, &outcome, &log, effort, further.rle)
}

// What is answered where a search ended so, with that log.
fn answer_to<'f>(
    alloc: Global,
    subject: &'f Subject,
    outcome: &Outcome,
    log: &Log,
    effort: Effort,
    rle: bool,
) -> Result<Answer<'f>, Memory>
    requires outcome { IsOutcome (subject_formula subject.now) effort.budget effort.keep_all log.now.steps (Ok outcome.now) }
    requires printable { CanBePrinted subject.now }
    ensures { IfOk result (IsAnswer (questions.Search subject.now effort rle)) }
{
    match outcome {
        Outcome::Sat(assignment) => Ok(Answer {
            status: Status::Pattern,
            text: Text::plain(subject.show(alloc, assignment, rle)?),
            file: None,
        }),
        Outcome::Unsat => absence_of(alloc, subject, log, effort),
        Outcome::Undecided => {
            let file = log_file(alloc, log, effort.proof)?;
            Answer::of_text(alloc, Status::Undecided, subject.undecided(), Some(file))
        }
    }
}
