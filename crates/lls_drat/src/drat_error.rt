// Why no lemma was read.
use crate::DratFault;
use lls_base::Memory;
use std::alloc::AllocFailed;
use std::fmt;

/// Why no lemma was read.
#[derive(Clone, Copy, Debug, PartialEq, Eq)]
pub enum DratError {
    /// The proof writes no further one.
    Fault(DratFault),
    /// An allocation was refused.
    Memory,
}

impl From<DratFault> for DratError {
    ghost use Rattle.std.specs.Prelude.{◌≡◌};
    ghost use Rattle.lls_drat.specs.declared.drat_error.DratError.TheVariants as errors;

    ghost from_gives = { λ fault e. e ≡ errors.Fault fault };

    fn from(fault: DratFault) -> Self {
        DratError::Fault(fault)
    }
}

impl From<Memory> for DratError {
    ghost use Rattle.std.specs.Prelude.{◌≡◌};
    ghost use Rattle.lls_drat.specs.declared.drat_error.DratError.TheVariants as errors;

    ghost from_gives = { λ _ e. e ≡ errors.Memory };

    fn from(_: Memory) -> Self {
        DratError::Memory
    }
}

impl<T: Drop> From<AllocFailed<T>> for DratError {
    ghost use Rattle.std.specs.Prelude.{◌≡◌};
    ghost use Rattle.lls_drat.specs.declared.drat_error.DratError.TheVariants as errors;

    ghost from_gives = { λ _ e. e ≡ errors.Memory };

    fn from(_: AllocFailed<T>) -> Self {
        DratError::Memory
    }
}

impl fmt::Display for DratError {
    ghost use Rattle.std.specs.Prelude.{Some};
    ghost use Rattle.lls_drat.specs.FaultText.{error_text};

    ghost output = { λ e. Some (error_text e) };

    fn fmt<W: fmt::Write>(&self, f: &mut fmt::Formatter<W>) -> fmt::Result {
        match self {
            DratError::Fault(fault) => write!(f, "{fault}"),
            DratError::Memory => write!(f, "Memory"),
        }
    }
}
