// The trim of a log.
ghost use Rattle.std.specs.Prelude.{◌≡◌, ◌≢◌, ℕ, true, Err, IfOk, IfErr, OnOk};
ghost use Rattle.lls_prooflog.specs.Spent.{EachStep, IsGood, log_start};
ghost use Rattle.lls_prooflog.specs.Steps.{numbered, are_accepted};
ghost use Rattle.lls_lrat.specs.Verdict.{Accepted, log_verdict, answer_of};
ghost use Rattle.lls_trim.specs.Placed.{steps_of_log};
ghost use Rattle.lls_trim.specs.Inferences.{inferences_of};
ghost use Rattle.lls_trim.specs.Needed.{IsFirstRat, NeedsNoRat};
ghost use Rattle.lls_trim.specs.Trimming.{IsTrimmingOf};

use crate::inferences::Inferences;
use crate::recorder::Recorder;
use crate::{Recorded, TrimError, Trimming};
use lls_cnf::Formula;
use lls_lrat::{CheckError, Progress};
use lls_prooflog::Log;
use std::alloc::Global;

/// The same of a log, as `check` stands beside `check_bytes`. The line of a step is its number, from 1.
pub fn trim(alloc: Global, formula: &Formula, log: &Log) -> Result<Trimming, TrimError>
    ensures left { IfOk result (IsTrimmingOf formula.now (steps_of_log log.now.steps)) }

    // It is Ok where the steps are accepted and each needed addition is by unit propagation, and nowhere else.
    ensures accepted { OnOk result (are_accepted (numbered formula.now.clauses) log.now.steps ≡ true) }
    ensures by_propagation { OnOk result (NeedsNoRat (inferences_of formula.now (steps_of_log log.now.steps))) }
    ensures refused { (error : CheckError) → result ≡ Err (TrimError.Refused error) →
        answer_of (log_verdict formula.now log.now.steps) ≡ Err error }
    ensures rat { (line : ℕ) → result ≡ Err (TrimError.RatStep line) →
        IsFirstRat (inferences_of formula.now (steps_of_log log.now.steps)) line }
    ensures rat_accepted { (line : ℕ) → result ≡ Err (TrimError.RatStep line) →
        are_accepted (numbered formula.now.clauses) log.now.steps ≡ true }

    // No accepted log is refused, and a log that is good by unit propagation has no other step.
    ensures not_refused { are_accepted (numbered formula.now.clauses) log.now.steps ≡ true →
        (error : CheckError) → result ≢ Err (TrimError.Refused error) }
    ensures not_rat { EachStep IsGood (log_start formula.now) log.now.steps →
        (line : ℕ) → result ≢ Err (TrimError.RatStep line) }
{
    let recorded = Recorded::of_log(alloc, formula, log)?;
    recorded.trim(alloc)
}

/// The additions of an accepted log.
pub(crate) fn record_log(
    alloc: Global,
    formula: &Formula,
    log: &Log,
) -> Result<Inferences, CheckError>
    ensures inferences { IfOk result (λ i. i ≡ inferences_of formula.now (steps_of_log log.now.steps)) }
    ensures accepted { OnOk result (log_verdict formula.now log.now.steps ≡ Accepted) }
    ensures refused { IfErr result (λ error. error ≢ CheckError.Memory → answer_of (log_verdict formula.now log.now.steps) ≡ Err error) }
{
    let mut recorder = Recorder::new(alloc, formula)?;
    for k in 0..log.len() {
        match recorder.take(k as u64 + 1, log.lend(k)) {
            Ok(Progress::Done) => return Ok(recorder.finish()),
            Ok(Progress::Going) => {}
            Err(error) => return Err(error),
        }
    }
    Err(CheckError::NoEmpty)
}
