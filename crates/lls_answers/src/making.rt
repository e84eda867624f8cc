// A made problem: the search file that it is written to, and the search for its solution.
ghost use Rattle.std.specs.Prelude.{◌≡◌, ◌≢◌, ◌≤◌, ℕ, List, length, string_bytes, IfOk, count_by};
ghost use Rattle.lls_gen.specs.Made.{made};
ghost use Rattle.lls_problem.specs.Solution.{IsSolution};
ghost use Rattle.lls_encode.specs.Formula.{formula_of};
ghost use Rattle.lls_solver.specs.declared.solving.TheConstants.{MOST_BUDGET};
ghost use Rattle.lls_solver.specs.Searching.{IsExhausted, KeepsAll};
ghost use Rattle.lls_answers.specs.Questions as questions;
ghost use Rattle.lls_answers.specs.Answer.{IsAnswer};
ghost use Rattle.lls_answers.specs.Making.{IsSize, is_known, known_count, made_file, problem_lines, search_lines, summary_of};

use crate::answer::Answer;
use crate::answer_file::AnswerFile;
use crate::bytes::Bytes;
use crate::effort::Effort;
use crate::evidence::log_file;
use crate::status::Status;
use crate::text::Text;
use lls_base::{Memory, Name};
use lls_cnf::Formula;
use lls_encode::encode;
use lls_gen::{Made, make};
use lls_problem::Form;
use lls_prooflog::Log;
use lls_search_file::{Cell, Kind, Posed, print_posed};
use lls_solver::{Outcome, solve};
use std::alloc::Global;

/// The problem of a seed and a size with its solution, and the search file of this name that it is written to.
pub fn make_file(
    alloc: Global,
    seed: u64,
    size: u32,
    name: Name,
) -> Result<(Made, AnswerFile), Memory>
    requires { IsSize size }
    ensures made { IfOk result (λ pair. pair.0 ≡ made seed size) }
    ensures file { IfOk result (λ pair. pair.1 ≡ made_file seed size name) }
    ensures solution { IfOk result (λ pair. IsSolution pair.0.problem pair.0.history) }
    ensures two { IfOk result (λ pair. length pair.0.history ≡ 2) }
{
    let made = make(alloc, seed, size)?;
    let bytes = Bytes::new(print_posed(alloc, made.problem.posed())?);
    Ok((made, AnswerFile { name, bytes }))
}

// Whether a cell's value is fixed.
fn is_known(kind: Kind) -> bool
    ensures { result ≡ is_known kind }
{
    matches!(kind, Kind::Dead | Kind::Live)
}

// How many of these cells are fixed.
fn known_among(cells: &[Cell]) -> usize
    ensures { result ≡ count_by (λ cell. is_known cell.kind) cells.now }
{
    let mut count = 0;
    for cell in cells {
        if is_known(cell.kind) {
            count += 1;
        }
    }
    count
}

// How many cells of generation 0 are fixed.
fn known_count(posed: &Posed) -> usize
    ensures { result ≡ known_count posed.now }
{
    let cells = (posed.width * posed.height) as usize;
    known_among(&posed.cells.items()[..cells])
}

// The lines on a made problem: its size, its known cells, and the live cells of its solution.
fn problem_lines(alloc: Global, made: &Made) -> Result<String, Memory>
    requires { length made.now.history ≡ 2 }
    ensures { IfOk result (λ text. string_bytes text ≡ problem_lines made.now) }
{
    let posed = made.problem.posed();
    let size = posed.height;
    let known = known_count(posed);
    let first = made.history.population(0);
    let second = made.history.population(1);
    Ok(format!(in alloc; "size {size}\nknown {known}\nlive {first} {second}\n")?)
}

// The lines on the search over a formula: the formula's sizes, and how the search ended.
fn search_lines(alloc: Global, formula: &Formula, answer: &str) -> Result<String, Memory>
    ensures { IfOk result (λ text. string_bytes text ≡ search_lines formula.now answer.now) }
{
    let vars = formula.vars();
    let clauses = formula.len();
    Ok(format!(in alloc; "variables {vars}\nclauses {clauses}\nanswer {answer}\n")?)
}

// What is said of a made problem and of the search over its formula.
fn summary(alloc: Global, made: &Made, formula: &Formula, answer: &str) -> Result<Vec<u8>, Memory>
    requires { length made.now.history ≡ 2 }
    ensures { IfOk result (λ text. text.items ≡ summary_of made.now formula.now answer.now) }
{
    let mut text = problem_lines(alloc, made)?.into_bytes();
    let search = search_lines(alloc, formula, answer)?;
    text.extend_from_slice(search.as_bytes())?;
    Ok(text)
}

/// The answer to the search for the solution of a made problem.
pub fn solve_made(alloc: Global, pair: &Made, effort: Effort) -> Result<Answer<'static>, Memory>
    requires budget { effort.budget ≤ MOST_BUDGET }
    requires solution { IsSolution pair.now.problem pair.now.history }
    requires two { length pair.now.history ≡ 2 }
    ensures { (seed size : ℕ) (name : List ℕ) → pair.now ≡ made seed size →
        IfOk result (IsAnswer (questions.Make seed size name effort)) }
{
    let formula = encode(alloc, &pair.problem, Form::Rows)?;
    let mut log = Log::new(alloc);
    let outcome = solve(alloc, &formula, effort.budget, effort.keep_all, &mut log)?;
    made_answer(alloc, pair, &formula, &outcome, &log, effort)
}

// What is answered where the search over the formula of a made problem ended so.
fn made_answer(
    alloc: Global,
    pair: &Made,
    formula: &Formula,
    outcome: &Outcome,
    log: &Log,
    effort: Effort,
) -> Result<Answer<'static>, Memory>
    requires formula { formula.now ≡ formula_of pair.now.problem Form.Rows }
    requires solution { IsSolution pair.now.problem pair.now.history }
    requires two { length pair.now.history ≡ 2 }
    requires found { outcome.now ≢ Outcome.Unsat }
    requires spent { outcome.now ≡ Outcome.Undecided → IsExhausted formula.now effort.budget log.now.steps }
    requires kept { KeepsAll effort.keep_all log.now.steps }
    ensures { (seed size : ℕ) (name : List ℕ) → pair.now ≡ made seed size →
        IfOk result (IsAnswer (questions.Make seed size name effort)) }
{
    match outcome {
        Outcome::Sat(_) => Ok(Answer {
            status: Status::Pattern,
            text: Text::plain(summary(alloc, pair, formula, "pattern")?),
            file: None,
        }),
        Outcome::Unsat => unreachable!(),
        Outcome::Undecided => Ok(Answer {
            status: Status::Undecided,
            text: Text::plain(summary(alloc, pair, formula, "undecided")?),
            file: Some(log_file(alloc, log, effort.proof)?),
        }),
    }
}
