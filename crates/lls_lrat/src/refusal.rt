// Why a step of a proof was refused.
use lls_base::Memory;
use lls_prooflog::StepFault;
use std::fmt;

/// Why a step of a proof was refused.
#[derive(Clone, Copy, Debug, PartialEq, Eq)]
pub enum Refusal {
    /// The step isn't good.
    Fault(StepFault),
    /// An allocation was refused.
    Memory,
}

impl From<StepFault> for Refusal {
    ghost use Rattle.std.specs.Prelude.{◌≡◌};
    ghost use Rattle.lls_lrat.specs.declared.refusal.Refusal.TheVariants as refusals;

    ghost from_gives = { λ fault e. e ≡ refusals.Fault fault };

    fn from(fault: StepFault) -> Self {
        Refusal::Fault(fault)
    }
}

impl From<Memory> for Refusal {
    ghost use Rattle.std.specs.Prelude.{◌≡◌};
    ghost use Rattle.lls_lrat.specs.declared.refusal.Refusal.TheVariants as refusals;

    ghost from_gives = { λ _ e. e ≡ refusals.Memory };

    fn from(_: Memory) -> Self {
        Refusal::Memory
    }
}

impl fmt::Display for Refusal {
    ghost use Rattle.std.specs.Prelude.{Some};
    ghost use Rattle.lls_lrat.specs.FaultText.{refusal_text};

    ghost output = { λ e. Some (refusal_text e) };

    fn fmt<W: fmt::Write>(&self, f: &mut fmt::Formatter<W>) -> fmt::Result {
        match self {
            Refusal::Fault(fault) => write!(f, "{fault}"),
            Refusal::Memory => write!(f, "Memory"),
        }
    }
}
