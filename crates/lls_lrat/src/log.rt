// The check of a log.
ghost use Rattle.std.specs.Prelude.{◌≡◌, ℕ, List, true, ◌+◌, ◌<◌, ◌^◌, false, Ok, Err, OnOk, IfOk, if◌then◌else◌};
ghost use Rattle.lls_base.specs.Results.{Gives};
ghost use Rattle.lls_lit.specs.Formula.{IsUnsatisfiable};
ghost use Rattle.lls_prooflog.specs.Log.{ReadsAs, step_of_ref};
ghost use Rattle.lls_prooflog.specs.Range.{IsInRange};
ghost use Rattle.lls_prooflog.specs.Steps.{numbered, are_accepted};
ghost use Rattle.lls_lrat.specs.Checking.{progress_of};
ghost use Rattle.lls_lrat.specs.Verdict.{Accepted, verdict, log_verdict, answer_of, step_taken};
ghost use Rattle.lls_lrat.specs.UnderWay.{at_line, or_fault};

use crate::checked::Checked;
use crate::checker::{Checker, Progress};
use crate::error::CheckError;
use crate::refusal::Refusal;
use lls_cnf::Formula;
use lls_prooflog::{Log, StepRef};
use std::alloc::Global;

/// Checks that a log is an accepted proof, as `check_bytes` does with its text, which isn't made. The line of a fault is the
/// number of its step, from 1.
#[tactic(auto, using(crate::proofs::Logs::accepted_log, crate::proofs::Logs::log_accepted, crate::proofs::Logs::verdict_of_lines))]
pub fn check<'f>(alloc: Global, formula: &'f Formula, log: &Log) -> Result<Checked<'f>, CheckError>
    ensures exact { Gives CheckError.Memory (λ _. tt) result (answer_of (log_verdict formula.now log.now.steps)) }
    ensures formula { IfOk result (λ checked. checked ≡ formula.now) }
    ensures sound { OnOk result (IsUnsatisfiable formula.now) }

    // It is Ok where the steps are accepted, and nowhere else. So is the check of the log's text, or of any text whose lines are
    // read as its steps.
    ensures accepts { are_accepted (numbered formula.now.clauses) log.now.steps ≡ true → log_verdict formula.now log.now.steps ≡ Accepted }
    ensures accepted { OnOk result (are_accepted (numbered formula.now.clauses) log.now.steps ≡ true) }
    ensures text { (text : List ℕ) → ReadsAs text log.now.steps → verdict formula.now text ≡ log_verdict formula.now log.now.steps }
{
    let mut checker = Checker::new(alloc, formula)?;
    for k in 0..log.len() {
        match take_step(&mut checker, k as u64, log.lend(k)) {
            Ok(Progress::Done) => return checker.conclude(),
            Ok(Progress::Going) => {}
            Err(error) => return Err(error),
        }
    }
    checker.conclude()
}

// Takes one more step behind so many.
fn take_step(checker: &mut Checker, count: u64, step: StepRef) -> Result<Progress, CheckError>
    requires in_range { IsInRange (step_of_ref step) }
    requires going { checker.old.done ≡ false }
    requires room { count + 1 < 2 ^ 64 }
    ensures taken { Gives CheckError.Memory (λ _. at_line checker.new (count + 1)) result
        (or_fault (step_taken (at_line checker.old count) (step_of_ref step.entry))) }
    ensures progress { IfOk result (λ p. p ≡ progress_of checker.new.done) }
    ensures formula { OnOk result (checker.new.formula ≡ checker.old.formula) }
{
    match checker.take(step) {
        Ok(progress) => Ok(progress),
        Err(Refusal::Fault(fault)) => Err(CheckError::Step(count + 1, fault)),
        Err(Refusal::Memory) => Err(CheckError::Memory),
    }
}
