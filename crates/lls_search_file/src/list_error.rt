// Why a list wasn't read.
use crate::{ListFault, PosedError};
use std::alloc::{AllocError, AllocFailed};
use std::error::Error;
use std::fmt;

/// Why a list wasn't read.
#[derive(Clone, Copy, Debug, PartialEq, Eq)]
pub enum ListError {
    /// The text is no list of patterns of that size.
    Fault(ListFault),
    /// An allocation was refused.
    Memory,
}

impl From<ListFault> for ListError {
    ghost use Rattle.std.specs.Prelude.{◌≡◌};
    ghost use Rattle.lls_search_file.specs.declared.list_error.ListError.TheVariants as errors;

    ghost from_gives = { λ fault error. error ≡ errors.Fault fault };

    fn from(fault: ListFault) -> Self {
        ListError::Fault(fault)
    }
}

impl From<PosedError> for ListError {
    ghost use Rattle.std.specs.Prelude.{◌≡◌};
    ghost use Rattle.lls_search_file.specs.Listing.{list_error};

    ghost from_gives = { λ posed error. error ≡ list_error posed };

    fn from(error: PosedError) -> Self {
        match error {
            PosedError::Fault(fault) => ListError::Fault(ListFault::Text(fault)),
            PosedError::Memory => ListError::Memory,
        }
    }
}

impl<T: Drop> From<AllocFailed<T>> for ListError {
    ghost use Rattle.std.specs.Prelude.{◌≡◌};
    ghost use Rattle.lls_search_file.specs.declared.list_error.ListError.TheVariants as errors;

    ghost from_gives = { λ _ error. error ≡ errors.Memory };

    fn from(_: AllocFailed<T>) -> Self {
        ListError::Memory
    }
}

impl From<AllocError> for ListError {
    ghost use Rattle.std.specs.Prelude.{◌≡◌};
    ghost use Rattle.lls_search_file.specs.declared.list_error.ListError.TheVariants as errors;

    ghost from_gives = { λ _ error. error ≡ errors.Memory };

    fn from(_: AllocError) -> Self {
        ListError::Memory
    }
}

impl fmt::Display for ListError {
    ghost use Rattle.std.specs.Prelude.{Some};
    ghost use Rattle.lls_search_file.specs.FaultText.{list_error_text};

    ghost output = { λ error. Some (list_error_text error) };

    fn fmt<W: fmt::Write>(&self, f: &mut fmt::Formatter<W>) -> fmt::Result {
        match self {
            ListError::Fault(fault) => write!(f, "{fault}"),
            ListError::Memory => write!(f, "Memory"),
        }
    }
}

impl Error for ListError {}
