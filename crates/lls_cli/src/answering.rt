// From a task to its answer: the inputs are read in their order.
ghost use Rattle.lls_words.specs.Job.{AreWithinLimits};
ghost use Rattle.lls_outside.specs.Moment.{files_of, shelf_at};
ghost use Rattle.lls_cli.specs.Steps.{ComesTo, Reads};
ghost use Rattle.lls_cli.specs.Task.{KeepsSource};
ghost use Rattle.lls_cli.specs.declared.task.Task.TheVariants as tasks;

use crate::check::check;
use crate::fault::Fault;
use crate::input::{
    PROOF_LIMIT, read_formula, read_input, read_pattern, read_problem, read_subject,
};
use crate::task::Source;
use lls_answers::Answer;
use lls_answers::judge::judge;
use lls_answers::print::print_formula;
use lls_answers::trim::trim;
use lls_base::{Name, Shelf};
use lls_words::ProblemSource;
use std::alloc::Global;

/// The answer to a check: what it is about is read, and then the proof.
pub fn answer_check<S: Shelf>(
    alloc: Global,
    shelf: &mut S,
    source: Source,
    proof: &Name,
) -> Result<Answer<'static>, Fault>
    requires { KeepsSource source }
    ensures { Reads (ComesTo (tasks.Check source proof.now) (files_of S.Shelf shelf.old)) result (shelf_at S.Shelf shelf.old) (shelf_at S.Shelf shelf.new) }
{
    let subject = read_subject(alloc, shelf, source)?;
    check(alloc, shelf, &subject, proof)
}

/// The answer to a judging: the problem is read, and then the pattern.
pub fn answer_judge<S: Shelf>(
    alloc: Global,
    shelf: &mut S,
    source: ProblemSource,
    pattern: &Name,
    rle: bool,
) -> Result<Answer<'static>, Fault>
    requires { AreWithinLimits source.demands }
    ensures { Reads (ComesTo (tasks.Judge source pattern.now rle) (files_of S.Shelf shelf.old)) result (shelf_at S.Shelf shelf.old) (shelf_at S.Shelf shelf.new) }
{
    let problem = read_problem(alloc, shelf, source)?;
    let history = read_pattern(alloc, shelf, pattern, &problem, rle)?;
    Ok(judge(alloc, &problem, &history)?)
}

/// The answer of a formula that is printed: what it is of is read.
pub fn answer_encode<S: Shelf>(
    alloc: Global,
    shelf: &mut S,
    source: Source,
) -> Result<Answer<'static>, Fault>
    requires { KeepsSource source }
    ensures { Reads (ComesTo (tasks.Encode source) (files_of S.Shelf shelf.old)) result (shelf_at S.Shelf shelf.old) (shelf_at S.Shelf shelf.new) }
{
    let subject = read_subject(alloc, shelf, source)?;
    Ok(print_formula(alloc, &subject)?)
}

/// The answer to a trim: the formula is read, and then the proof.
pub fn answer_trim<S: Shelf>(
    alloc: Global,
    shelf: &mut S,
    formula: &Name,
    proof: &Name,
    output: Name,
) -> Result<Answer<'static>, Fault>
    ensures { Reads (ComesTo (tasks.Trim formula.now proof.now output) (files_of S.Shelf shelf.old)) result (shelf_at S.Shelf shelf.old) (shelf_at S.Shelf shelf.new) }
{
    let formula = read_formula(alloc, shelf, formula)?;
    let proof = read_input(alloc, shelf, proof, PROOF_LIMIT)?;
    Ok(trim(alloc, &formula, proof.items(), output)?)
}
