// Why a pattern wasn't read.
use crate::RleFault;
use std::alloc::AllocError;
use std::error::Error;
use std::fmt;

/// Why a pattern wasn't read.
#[derive(Clone, Copy, Debug, PartialEq, Eq)]
pub enum RleError {
    /// The text is no pattern of the grid.
    Fault(RleFault),
    /// An allocation was refused.
    Memory,
}

impl From<RleFault> for RleError {
    ghost use Rattle.std.specs.Prelude.{◌≡◌};
    ghost use Rattle.lls_rle.specs.declared.rle_error.RleError.TheVariants as errors;

    ghost from_gives = { λ fault error. error ≡ errors.Fault fault };

    fn from(fault: RleFault) -> Self {
        RleError::Fault(fault)
    }
}

impl From<AllocError> for RleError {
    ghost use Rattle.std.specs.Prelude.{◌≡◌};
    ghost use Rattle.lls_rle.specs.declared.rle_error.RleError.TheVariants as errors;

    ghost from_gives = { λ _ error. error ≡ errors.Memory };

    fn from(_: AllocError) -> Self {
        RleError::Memory
    }
}

impl fmt::Display for RleError {
    ghost use Rattle.std.specs.Prelude.{Some};
    ghost use Rattle.lls_rle.specs.FaultText.{rle_error_text};

    ghost output = { λ error. Some (rle_error_text error) };

    fn fmt<W: fmt::Write>(&self, f: &mut fmt::Formatter<W>) -> fmt::Result {
        match self {
            RleError::Fault(fault) => write!(f, "{fault}"),
            RleError::Memory => write!(f, "Memory"),
        }
    }
}

impl Error for RleError {}
