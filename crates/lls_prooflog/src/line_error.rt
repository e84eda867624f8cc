// Why a line of a proof wasn't read.
use crate::LineFault;
use lls_base::Memory;
use std::alloc::AllocFailed;
use std::fmt;

/// Why a line of a proof wasn't read.
#[derive(Clone, Copy, Debug, PartialEq, Eq)]
pub enum LineError {
    /// The line writes no step.
    Fault(LineFault),
    /// An allocation was refused.
    Memory,
}

impl From<LineFault> for LineError {
    ghost use Rattle.std.specs.Prelude.{◌≡◌};
    ghost use Rattle.lls_prooflog.specs.declared.line_error.LineError.TheVariants as errors;

    ghost from_gives = { λ fault e. e ≡ errors.Fault fault };

    fn from(fault: LineFault) -> Self {
        LineError::Fault(fault)
    }
}

impl From<Memory> for LineError {
    ghost use Rattle.std.specs.Prelude.{◌≡◌};
    ghost use Rattle.lls_prooflog.specs.declared.line_error.LineError.TheVariants as errors;

    ghost from_gives = { λ _ e. e ≡ errors.Memory };

    fn from(_: Memory) -> Self {
        LineError::Memory
    }
}

impl<T: Drop> From<AllocFailed<T>> for LineError {
    ghost use Rattle.std.specs.Prelude.{◌≡◌};
    ghost use Rattle.lls_prooflog.specs.declared.line_error.LineError.TheVariants as errors;

    ghost from_gives = { λ _ e. e ≡ errors.Memory };

    fn from(_: AllocFailed<T>) -> Self {
        LineError::Memory
    }
}

impl fmt::Display for LineError {
    ghost use Rattle.std.specs.Prelude.{Some};
    ghost use Rattle.lls_prooflog.specs.FaultText.{line_error_text};

    ghost output = { λ e. Some (line_error_text e) };

    fn fmt<W: fmt::Write>(&self, f: &mut fmt::Formatter<W>) -> fmt::Result {
        match self {
            LineError::Fault(fault) => write!(f, "{fault}"),
            LineError::Memory => write!(f, "Memory"),
        }
    }
}
