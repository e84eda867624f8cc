// What a search leaves in its file, the check of a proof before it is told of, and the answers that there is nothing.
ghost use Rattle.std.specs.Prelude.{◌≡◌, ℕ, List, true, IfOk, OnOk};
ghost use Rattle.lls_lit.specs.Formula.{IsUnsatisfiable};
ghost use Rattle.lls_prooflog.specs.Log.{ReadsAs, log_text};
ghost use Rattle.lls_prooflog.specs.UnitWalk.{numbered};
ghost use Rattle.lls_prooflog.specs.Steps.{are_accepted};
ghost use Rattle.lls_lrat.specs.Verdict.{Accepted, verdict};
ghost use Rattle.lls_answers.specs.Evidence.{HasProof, IsEvidence};
ghost use Rattle.lls_answers.specs.Shown.{ShowsNone};
ghost use Rattle.lls_answers.specs.Subject.{subject_formula};

use crate::absence::Absence;
use crate::answer::Answer;
use crate::answer_file::AnswerFile;
use crate::bytes::Bytes;
use crate::effort::Effort;
use crate::status::Status;
use crate::subject::Subject;
use crate::text::Text;
use lls_base::{Memory, Name};
use lls_cnf::Formula;
use lls_lrat::{CheckError, Checked, check};
use lls_prooflog::{Log, print_log};
use std::alloc::Global;

/// The file of a log.
pub fn log_file(alloc: Global, log: &Log, name: Name) -> Result<AnswerFile, Memory>
    ensures file { IfOk result (λ file. file ≡ record { name = name; bytes = log_text log.now.steps }) }
    ensures read_again { IfOk result (λ file. ReadsAs file.bytes log.now.steps) }
{
    let bytes = Bytes::new(print_log(alloc, log)?);
    Ok(AnswerFile { name, bytes })
}

// Checks a log that a search calls a proof. The checker refuses it for want of memory alone.
fn check_proof<'f>(alloc: Global, formula: &'f Formula, log: &Log) -> Result<Checked<'f>, Memory>
    requires { are_accepted (numbered formula.now.clauses) log.now.steps ≡ true }
    ensures formula { IfOk result (λ checked. checked ≡ formula.now) }
    ensures unsatisfiable { OnOk result (IsUnsatisfiable formula.now) }
    ensures accepted { IfOk result (λ _. (text : List ℕ) → ReadsAs text log.now.steps → verdict formula.now text ≡ Accepted) }
{
    match check(alloc, formula, log) {
        Ok(checked) => Ok(checked),
        Err(CheckError::Memory) => Err(Memory),
        Err(_) => unreachable!(),
    }
}

/// The file of a proof that nothing satisfies a formula: the log of a search, whole, which is checked before.
pub fn proof_file<'f>(
    alloc: Global,
    formula: &'f Formula,
    log: &Log,
    effort: Effort,
) -> Result<(Checked<'f>, AnswerFile), Memory>
    requires { IsEvidence formula.now effort log.now.steps }
    ensures formula { IfOk result (λ made. made.0 ≡ formula.now) }
    ensures unsatisfiable { OnOk result (IsUnsatisfiable formula.now) }
    ensures proof { IfOk result (λ made. HasProof formula.now effort made.1) }
{
    let checked = check_proof(alloc, formula, log)?;
    let file = log_file(alloc, log, effort.proof)?;
    Ok((checked, file))
}

/// The answer that there is nothing of what a search is about, by an accepted log over its formula.
pub fn absence_of<'f>(
    alloc: Global,
    subject: &'f Subject,
    log: &Log,
    effort: Effort,
) -> Result<Answer<'f>, Memory>
    requires { IsEvidence (subject_formula subject.now) effort log.now.steps }
    ensures { IfOk result (ShowsNone subject.now effort) }
{
    let (checked, file) = proof_file(alloc, subject.formula(), log, effort)?;
    Ok(Answer {
        status: Status::NoPattern,
        text: Text::absence(Absence::new(checked, subject)),
        file: Some(file),
    })
}
