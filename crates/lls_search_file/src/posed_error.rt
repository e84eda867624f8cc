// Why a search file wasn't read.
use crate::PosedFault;
use lls_base::Memory;
use std::alloc::AllocFailed;
use std::error::Error;
use std::fmt;

/// Why a search file wasn't read.
#[derive(Clone, Copy, Debug, PartialEq, Eq)]
pub enum PosedError {
    /// The text is no search file.
    Fault(PosedFault),
    /// An allocation was refused.
    Memory,
}

impl From<PosedFault> for PosedError {
    ghost use Rattle.std.specs.Prelude.{◌≡◌};
    ghost use Rattle.lls_search_file.specs.declared.posed_error.PosedError.TheVariants as errors;

    ghost from_gives = { λ fault error. error ≡ errors.Fault fault };

    fn from(fault: PosedFault) -> Self {
        PosedError::Fault(fault)
    }
}

impl From<Memory> for PosedError {
    ghost use Rattle.std.specs.Prelude.{◌≡◌};
    ghost use Rattle.lls_search_file.specs.declared.posed_error.PosedError.TheVariants as errors;

    ghost from_gives = { λ _ error. error ≡ errors.Memory };

    fn from(_: Memory) -> Self {
        PosedError::Memory
    }
}

impl<T: Drop> From<AllocFailed<T>> for PosedError {
    ghost use Rattle.std.specs.Prelude.{◌≡◌};
    ghost use Rattle.lls_search_file.specs.declared.posed_error.PosedError.TheVariants as errors;

    ghost from_gives = { λ _ error. error ≡ errors.Memory };

    fn from(_: AllocFailed<T>) -> Self {
        PosedError::Memory
    }
}

impl fmt::Display for PosedError {
    ghost use Rattle.std.specs.Prelude.{Some};
    ghost use Rattle.lls_search_file.specs.FaultText.{posed_error_text};

    ghost output = { λ error. Some (posed_error_text error) };

    fn fmt<W: fmt::Write>(&self, f: &mut fmt::Formatter<W>) -> fmt::Result {
        match self {
            PosedError::Fault(fault) => write!(f, "{fault}"),
            PosedError::Memory => write!(f, "Memory"),
        }
    }
}

impl Error for PosedError {}
