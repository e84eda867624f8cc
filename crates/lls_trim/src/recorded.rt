// The additions of an accepted log, once it needs the log no more.
ghost use Rattle.std.specs.Prelude.{◌≡◌, ◌≢◌, ◌<◌, ℕ, true, Err, IfOk, IfErr, OnOk, length};
ghost use Rattle.lls_prooflog.specs.Steps.{numbered, are_accepted};
ghost use Rattle.lls_lrat.specs.Verdict.{log_verdict, answer_of};
ghost use Rattle.lls_trim.specs.Placed.{steps_of_log};
ghost use Rattle.lls_trim.specs.Inferences.{inferences_of};
ghost use Rattle.lls_trim.specs.Needed.{IsFirstRat, NeedsNoRat};
ghost use Rattle.lls_trim.specs.Trimmed.{Trims};

use crate::inferences::Inferences;
use crate::log::record_log;
use crate::trimmed::trim_inferences;
use crate::{TrimError, Trimming};
use lls_cnf::Formula;
use lls_lrat::CheckError;
use lls_prooflog::Log;
use std::alloc::Global;
use std::marker::Model;

/// What a trim needs of a formula's log, so that the log can be let go before what is left of it is written down.
///
/// It is seen as the formula and the log's additions up to the empty clause, each with what it comes from.
#[derive(Drop)]
pub struct Recorded<'f> {
    formula: &'f Formula,
    inferences: Inferences,
}

impl<'f> Model for Recorded<'f> {
    ghost use Rattle.lls_trim.specs.Recorded.{IsRecorded, RecordedState};

    ghost Value = { RecordedState };

    ghost view = { λ r. record { formula = r.formula.now; inferences = r.inferences } };

    ghost invariant = { λ r. IsRecorded r.formula.now r.inferences };
}

impl<'f> Recorded<'f> {
    /// What is to be trimmed, of an accepted log.
    pub fn of_log(
        alloc: Global,
        formula: &'f Formula,
        log: &Log,
    ) -> Result<Recorded<'f>, CheckError>
        ensures formula { IfOk result (λ recorded. recorded.formula ≡ formula.now) }
        ensures inferences { IfOk result (λ recorded. recorded.inferences ≡ inferences_of formula.now (steps_of_log log.now.steps)) }
        ensures accepted { OnOk result (are_accepted (numbered formula.now.clauses) log.now.steps ≡ true) }
        ensures refused { IfErr result (λ error. error ≢ CheckError.Memory → answer_of (log_verdict formula.now log.now.steps) ≡ Err error) }
    {
        let inferences = record_log(alloc, formula, log)?;
        Ok(Recorded {
            formula,
            inferences,
        })
    }

    /// What the empty clause rests on.
    pub fn trim(self, alloc: Global) -> Result<Trimming, TrimError>
        ensures trims { IfOk result (λ trimming. Trims (length self.entry.formula.clauses) self.entry.inferences trimming.log.steps) }
        ensures additions { IfOk result (λ trimming. trimming.additions ≡ length self.entry.inferences) }
        ensures by_propagation { OnOk result (NeedsNoRat self.entry.inferences) }
        ensures rat { (line : ℕ) → result ≡ Err (TrimError.RatStep line) → IsFirstRat self.entry.inferences line }
        ensures not_refused { (error : CheckError) → result ≢ Err (TrimError.Refused error) }
    {
        trim_inferences(alloc, self.formula.len(), &self.inferences)
    }
}
