// Why a history wasn't read.
use crate::{HistoryFault, PosedError};
use std::alloc::AllocError;
use std::error::Error;
use std::fmt;

/// Why a history wasn't read.
#[derive(Clone, Copy, Debug, PartialEq, Eq)]
pub enum HistoryError {
    /// The text is no history.
    Fault(HistoryFault),
    /// An allocation was refused.
    Memory,
}

impl From<HistoryFault> for HistoryError {
    ghost use Rattle.std.specs.Prelude.{◌≡◌};
    ghost use Rattle.lls_search_file.specs.declared.history_error.HistoryError.TheVariants as errors;

    ghost from_gives = { λ fault error. error ≡ errors.Fault fault };

    fn from(fault: HistoryFault) -> Self {
        HistoryError::Fault(fault)
    }
}

impl From<PosedError> for HistoryError {
    ghost use Rattle.std.specs.Prelude.{◌≡◌};
    ghost use Rattle.lls_search_file.specs.Plain.{history_error};

    ghost from_gives = { λ posed error. error ≡ history_error posed };

    fn from(error: PosedError) -> Self {
        match error {
            PosedError::Fault(fault) => HistoryError::Fault(HistoryFault::Text(fault)),
            PosedError::Memory => HistoryError::Memory,
        }
    }
}

impl From<AllocError> for HistoryError {
    ghost use Rattle.std.specs.Prelude.{◌≡◌};
    ghost use Rattle.lls_search_file.specs.declared.history_error.HistoryError.TheVariants as errors;

    ghost from_gives = { λ _ error. error ≡ errors.Memory };

    fn from(_: AllocError) -> Self {
        HistoryError::Memory
    }
}

impl fmt::Display for HistoryError {
    ghost use Rattle.std.specs.Prelude.{Some};
    ghost use Rattle.lls_search_file.specs.FaultText.{history_error_text};

    ghost output = { λ error. Some (history_error_text error) };

    fn fmt<W: fmt::Write>(&self, f: &mut fmt::Formatter<W>) -> fmt::Result {
        match self {
            HistoryError::Fault(fault) => write!(f, "{fault}"),
            HistoryError::Memory => write!(f, "Memory"),
        }
    }
}

impl Error for HistoryError {}
