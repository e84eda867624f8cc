// The check of a proof.
ghost use Rattle.lls_cli.specs.Fed.{ProofComesTo};
ghost use Rattle.lls_outside.specs.Moment.{files_of, shelf_at};
ghost use Rattle.lls_answers.specs.Questions as questions;
ghost use Rattle.lls_cli.specs.Steps.{Reads};
ghost use Rattle.lls_answers.specs.Subject as subjects;

use crate::fault::Fault;
use crate::feeding::feed_file;
use lls_answers::check::end_proof;
use lls_answers::{Answer, Subject};
use lls_base::{Name, Shelf};
use lls_cnf::Formula;
use std::alloc::Global;

// The answer to a proof that no assignment satisfies a formula.
fn refute<S: Shelf>(
    alloc: Global,
    shelf: &mut S,
    formula: &Formula,
    proof: &Name,
) -> Result<Answer<'static>, Fault>
    ensures { Reads (ProofComesTo (questions.Check (subjects.Formula formula.now)) (files_of S.Shelf shelf.old) proof.now) result (shelf_at S.Shelf shelf.old) (shelf_at S.Shelf shelf.new) }
{
    let feed = feed_file(alloc, shelf, proof, formula)?;
    Ok(end_proof(alloc, feed)?)
}

/// The answer to a proof that there is nothing to find.
pub fn check<S: Shelf>(
    alloc: Global,
    shelf: &mut S,
    subject: &Subject,
    proof: &Name,
) -> Result<Answer<'static>, Fault>
    ensures { Reads (ProofComesTo (questions.Check subject.now) (files_of S.Shelf shelf.old) proof.now) result (shelf_at S.Shelf shelf.old) (shelf_at S.Shelf shelf.new) }
{
    refute(alloc, shelf, subject.formula(), proof)
}
