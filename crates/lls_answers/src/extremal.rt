// What a search for the fewest live cells in generation 0, or for the most, comes to.
ghost use Rattle.std.specs.Prelude.{◌≡◌, ◌<◌, Bool, length, IfOk};
ghost use Rattle.lls_hensel.specs.Isotropy.{IsIsotropic};
ghost use Rattle.lls_least.specs.Bounded.{LeavesRoom};
ghost use Rattle.lls_least.specs.Extremal.{IsExtreme, IsReached, IsShown};
ghost use Rattle.lls_problem.specs.Solution.{IsSolution};
ghost use Rattle.lls_prooflog.specs.Spent.{IsSpent};
ghost use Rattle.lls_solver.specs.Searching.{KeepsAll};
ghost use Rattle.lls_answers.specs.Questions as questions;
ghost use Rattle.lls_answers.specs.Answer.{IsAnswer};
ghost use Rattle.lls_answers.specs.Extremal.{counted_text, reached_word, shown_word, subject_beyond};
ghost use Rattle.lls_answers.specs.Subject.{formula_asked};

use crate::answer::Answer;
use crate::asked::Asked;
use crate::effort::Effort;
use crate::evidence::{log_file, proof_file};
use crate::pattern::print_pattern;
use crate::status::Status;
use crate::subject::Subject;
use crate::text::Text;
use lls_base::Memory;
use lls_grid::History;
use lls_least::{Extreme, beyond};
use lls_prooflog::Log;
use lls_rule::Rule;
use std::alloc::Global;

// The word of a solution with the fewest live cells, or with the most.
fn shown_word(extreme: Extreme) -> &'static str
    ensures { result.now ≡ shown_word extreme }
{
    match extreme {
        Extreme::Fewest => "least",
        Extreme::Most => "most",
    }
}

// The word of a solution of which the budget didn't tell whether there is one beyond it.
fn reached_word(extreme: Extreme) -> &'static str
    ensures { result.now ≡ reached_word extreme }
{
    match extreme {
        Extreme::Fewest => "at most",
        Extreme::Most => "at least",
    }
}

// How many cells of generation 0 a solution has alive, behind a word, and the solution.
fn counted(
    alloc: Global,
    word: &str,
    history: &History,
    rule: &Rule,
    rle: bool,
) -> Result<Vec<u8>, Memory>
    requires isotropic { IsIsotropic rule.now }
    requires some { 0 < length history.now }
    ensures { IfOk result (λ text. text.items ≡ counted_text word.now rle rule.now history.now) }
{
    let live = history.population(0);
    let mut text = format!(in alloc; "{word} {live}\n")?.into_bytes();
    let pattern = print_pattern(alloc, history, rule, rle)?;
    text.extend_from_slice(&pattern)?;
    Ok(text)
}

/// The problem that asks for a solution with fewer live cells than this one, or with more, with its formula. None where there is no room for
/// such numbers.
pub fn asked_beyond(
    alloc: Global,
    asked: &Asked,
    extreme: Extreme,
    history: &History,
) -> Result<Option<Subject>, Memory>
    requires room { LeavesRoom asked.now.problem }
    requires solution { IsSolution asked.now.problem history.now }
    ensures { IfOk result (λ next. next ≡ subject_beyond extreme asked.now history.now) }
{
    // What the type of a problem keeps is known from here on.
    let _posed = asked.problem.posed();
    let live = history.population(0);
    match beyond(alloc, &asked.problem, extreme, live)? {
        Some(problem) => Ok(Some(Subject::of_problem(alloc, problem, asked.formulation)?)),
        None => Ok(None),
    }
}

/// The answer of a solution with the fewest live cells, or with the most, by the log that shows that the problem that asks for one beyond it
/// has none.
pub fn shown<'f>(
    alloc: Global,
    asked: &Asked,
    extreme: Extreme,
    next: &'f Option<Subject>,
    effort: Effort,
    rle: bool,
    history: &History,
    log: &Log,
) -> Result<Answer<'f>, Memory>
    requires room { LeavesRoom asked.now.problem }
    requires isotropic { IsIsotropic asked.now.problem.rule }
    requires shown { IsShown extreme asked.now.problem asked.now.formulation effort.budget history.now log.now.steps }
    requires utmost { IsExtreme extreme asked.now.problem history.now }
    requires kept { KeepsAll effort.keep_all log.now.steps }
    requires next { next.now ≡ subject_beyond extreme asked.now history.now }
    ensures { IfOk result (IsAnswer (questions.Extremal extreme asked.now effort rle)) }
{
    // What the type of a problem keeps is known from here on.
    let problem = &asked.problem;
    let _posed = problem.posed();
    let _demands = problem.demands();
    let status = Status::Pattern;
    let text = counted(alloc, shown_word(extreme), history, problem.rule(), rle)?;
    match next {
        None => Ok(Answer {
            status,
            text: Text::plain(text),
            file: None,
        }),
        Some(next) => {
            let (checked, file) = proof_file(alloc, next.formula(), log, effort)?;
            Ok(Answer {
                status,
                text: Text::certified(checked, text),
                file: Some(file),
            })
        }
    }
}

/// The answer of a solution of which the budget didn't tell whether there is one beyond it.
pub fn reached(
    alloc: Global,
    asked: &Asked,
    extreme: Extreme,
    effort: Effort,
    rle: bool,
    history: &History,
    log: &Log,
) -> Result<Answer<'static>, Memory>
    requires room { LeavesRoom asked.now.problem }
    requires isotropic { IsIsotropic asked.now.problem.rule }
    requires reached { IsReached extreme asked.now.problem asked.now.formulation effort.budget history.now log.now.steps }
    requires kept { KeepsAll effort.keep_all log.now.steps }
    ensures { IfOk result (IsAnswer (questions.Extremal extreme asked.now effort rle)) }
{
    // What the type of a problem keeps is known from here on.
    let problem = &asked.problem;
    let _posed = problem.posed();
    let _demands = problem.demands();
    let text = counted(alloc, reached_word(extreme), history, problem.rule(), rle)?;
    let file = log_file(alloc, log, effort.proof)?;
    Ok(Answer {
        status: Status::Undecided,
        text: Text::plain(text),
        file: Some(file),
    })
}

/// The answer of a budget that was spent before there was a solution.
pub fn unsettled(alloc: Global, effort: Effort, log: &Log) -> Result<Answer<'static>, Memory>
    ensures { (extreme : Extreme) (asked : Asked) (rle : Bool) → IsSpent (formula_asked asked) log.now.steps effort.budget → KeepsAll effort.keep_all log.now.steps
        → IfOk result (IsAnswer (questions.Extremal extreme asked effort rle)) }
{
    let file = log_file(alloc, log, effort.proof)?;
    Answer::of_text(alloc, Status::Undecided, b"undecided\n", Some(file))
}
