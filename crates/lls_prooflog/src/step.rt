// A step of a proof.
ghost use Rattle.std.specs.Prelude.{◌≡◌};
ghost use Rattle.std.specs.List.{list_all};
ghost use Rattle.lls_prooflog.specs.Log.{step_of_ref};
ghost use Rattle.lls_prooflog.specs.Range.{is_id, is_hint, is_in_range};

use crate::{Addition, Hints, HintsRef, Ids, IdsRef, Lits, StepRef};

/// A step of an LRAT proof.
#[derive(Debug, Drop)]
pub enum Step {
    /// Adds a clause under an id. The hints lead to it by unit propagation.
    Add { id: u64, lits: Lits, hints: Hints },
    /// Takes the clauses of these ids out.
    Del { ids: Ids },
}

impl Step {
    /// The greatest id.
    pub const MOST_ID: u64 = 9_223_372_036_854_775_807;

    /// The step without a copy.
    pub fn lend(&self) -> StepRef
        ensures { step_of_ref result ≡ self.now }
    {
        match self {
            Step::Add { id, lits, hints } => StepRef::Add(Addition {
                id: *id,
                lits: lits.items(),
                hints: HintsRef::Wide(hints.items()),
            }),
            Step::Del { ids } => StepRef::Del(IdsRef::Wide(ids.items())),
        }
    }

    /// Whether the ids are from 1 to `MOST_ID`, and the hints the same with either sign.
    pub fn is_in_range(&self) -> bool
        ensures { result ≡ is_in_range self.now }
    {
        match self {
            Step::Add { id, lits: _, hints } => is_id(*id) && are_hints(hints.items()),
            Step::Del { ids } => are_ids(ids.items()),
        }
    }
}

fn is_id(number: u64) -> bool
    ensures { result ≡ is_id number }
{
    1 <= number && number <= Step::MOST_ID
}

fn are_ids(ids: &[u64]) -> bool
    ensures { result ≡ list_all is_id ids.now }
{
    ids.iter().all(|id| is_id(*id))
}

fn are_hints(hints: &[i64]) -> bool
    ensures { result ≡ list_all is_hint hints.now }
{
    hints.iter().all(|hint| is_id(hint.unsigned_abs()))
}
