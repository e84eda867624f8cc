// Why a step of a proof isn't good.
ghost use Rattle.std.specs.Prelude.{◌≡◌};
ghost use Rattle.lls_prooflog.specs.FaultText.{step_fault_name, culprit_of};

use std::fmt;

/// Why a step of a proof isn't good.
#[derive(Clone, Copy, Debug, PartialEq, Eq)]
pub enum StepFault {
    /// A clause with this id is live.
    IdLive(u64),
    /// No live clause has the id of this hint.
    NoClause(i64),
    /// The clause of this hint has two different literals that aren't false.
    NotUnit(i64),
    /// The hints, or those of a group, are at their end, and no clause has only false literals.
    NoConflict,
    /// The live clause of this id holds the negation of the added clause's first literal, and no group of hints is about it.
    RatMissing(u64),
    /// A group of hints is about the clause of this id, which doesn't hold the negation of the added clause's first literal.
    RatOther(u64),
}

/// The id or the hint of a step that is at fault.
#[derive(Clone, Copy, Debug, PartialEq, Eq)]
pub enum Culprit {
    Id(u64),
    Hint(i64),
}

impl StepFault {
    /// The fault's name.
    pub fn name(&self) -> &'static str
        ensures { result.now ≡ step_fault_name self.now }
    {
        match self {
            StepFault::IdLive(_) => "IdLive",
            StepFault::NoClause(_) => "NoClause",
            StepFault::NotUnit(_) => "NotUnit",
            StepFault::NoConflict => "NoConflict",
            StepFault::RatMissing(_) => "RatMissing",
            StepFault::RatOther(_) => "RatOther",
        }
    }

    /// The id or the hint that is at fault; none where the hints end too early.
    pub fn culprit(&self) -> Option<Culprit>
        ensures { result ≡ culprit_of self.now }
    {
        match *self {
            StepFault::IdLive(id) | StepFault::RatMissing(id) | StepFault::RatOther(id) => {
                Some(Culprit::Id(id))
            }
            StepFault::NoClause(hint) | StepFault::NotUnit(hint) => Some(Culprit::Hint(hint)),
            StepFault::NoConflict => None,
        }
    }
}

impl fmt::Display for Culprit {
    ghost use Rattle.std.specs.Prelude.{Some};
    ghost use Rattle.lls_prooflog.specs.FaultText.{culprit_text};

    ghost output = { λ culprit. Some (culprit_text culprit) };

    fn fmt<W: fmt::Write>(&self, f: &mut fmt::Formatter<W>) -> fmt::Result {
        match self {
            Culprit::Id(id) => write!(f, "{id}"),
            Culprit::Hint(hint) => write!(f, "{hint}"),
        }
    }
}

impl fmt::Display for StepFault {
    ghost use Rattle.std.specs.Prelude.{Some};
    ghost use Rattle.lls_prooflog.specs.FaultText.{step_fault_text};

    ghost output = { λ fault. Some (step_fault_text fault) };

    fn fmt<W: fmt::Write>(&self, f: &mut fmt::Formatter<W>) -> fmt::Result {
        let name = self.name();
        match self.culprit() {
            Some(culprit) => write!(f, "{name} {culprit}"),
            None => write!(f, "{name}"),
        }
    }
}
