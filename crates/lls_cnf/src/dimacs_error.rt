// Why a formula in DIMACS CNF wasn't read.
use crate::DimacsFault;
use lls_base::Memory;
use std::fmt;

/// Why a formula in DIMACS CNF wasn't read.
#[derive(Clone, Copy, Debug, PartialEq, Eq)]
pub enum DimacsError {
    /// The text is no formula.
    Fault(DimacsFault),
    /// An allocation was refused.
    Memory,
}

impl From<DimacsFault> for DimacsError {
    ghost use Rattle.std.specs.Prelude.{◌≡◌};
    ghost use Rattle.lls_cnf.specs.declared.dimacs_error.DimacsError.TheVariants as errors;

    ghost from_gives = { λ fault error. error ≡ errors.Fault fault };

    fn from(fault: DimacsFault) -> Self {
        DimacsError::Fault(fault)
    }
}

impl From<Memory> for DimacsError {
    ghost use Rattle.std.specs.Prelude.{◌≡◌};
    ghost use Rattle.lls_cnf.specs.declared.dimacs_error.DimacsError.TheVariants as errors;

    ghost from_gives = { λ _ error. error ≡ errors.Memory };

    fn from(_: Memory) -> Self {
        DimacsError::Memory
    }
}

impl fmt::Display for DimacsError {
    ghost use Rattle.std.specs.Prelude.{Some};
    ghost use Rattle.lls_cnf.specs.FaultText.{dimacs_error_text};

    ghost output = { λ error. Some (dimacs_error_text error) };

    fn fmt<W: fmt::Write>(&self, f: &mut fmt::Formatter<W>) -> fmt::Result {
        match self {
            DimacsError::Fault(fault) => write!(f, "{fault}"),
            DimacsError::Memory => write!(f, "Memory"),
        }
    }
}
