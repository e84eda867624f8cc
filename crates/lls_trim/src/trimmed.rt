// The trim of the additions of a proof.
ghost use Rattle.std.specs.Prelude.{◌≡◌, ◌≢◌, ◌<◌, ◌≤◌, ℕ, Err, IfOk, OnOk, length};
ghost use Rattle.lls_cnf.specs.declared.formula.TheConstants.Formula.{MOST_CLAUSES};
ghost use Rattle.lls_trim.specs.Needed.{IsFirstRat, NeedsNoRat};
ghost use Rattle.lls_trim.specs.Trimmed.{Trims};
ghost use Rattle.lls_trim.specs.Marking.{AreOrdered, AreGivenWithin};

use crate::inferences::Inferences;
use crate::marking::{first_rat, mark_needed};
use crate::renumbering::renumber;
use crate::{TrimError, Trimming};
use lls_lrat::CheckError;
use std::alloc::Global;

/// The trim of these additions, of which the last is the empty clause, behind so many clauses of a formula.
pub(crate) fn trim_inferences(
    alloc: Global,
    given: usize,
    inferences: &Inferences,
) -> Result<Trimming, TrimError>
    requires few { given ≤ MOST_CLAUSES }
    requires some { 0 < length inferences.now }
    requires ordered { AreOrdered inferences.now }
    requires given { AreGivenWithin given inferences.now }
    ensures trims { IfOk result (λ trimming. Trims given inferences.now trimming.log.steps) }
    ensures additions { IfOk result (λ trimming. trimming.additions ≡ length inferences.now) }
    ensures by_propagation { OnOk result (NeedsNoRat inferences.now) }
    ensures rat { (line : ℕ) → result ≡ Err (TrimError.RatStep line) → IsFirstRat inferences.now line }
    ensures not_refused { (error : CheckError) → result ≢ Err (TrimError.Refused error) }
{
    let marks = mark_needed(alloc, inferences)?;
    match first_rat(inferences, &marks) {
        Some(line) => Err(TrimError::RatStep(line)),
        None => Ok(Trimming {
            log: renumber(alloc, given, &marks, inferences)?,
            additions: inferences.len(),
        }),
    }
}
