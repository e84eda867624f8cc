// Why a list of pictures wasn't read.
use crate::PicturesFault;
use std::alloc::{AllocError, AllocFailed};
use std::error::Error;
use std::fmt;

/// Why a list of pictures wasn't read.
#[derive(Clone, Copy, Debug, PartialEq, Eq)]
pub enum PicturesError {
    /// The text is no list of pictures of that size.
    Fault(PicturesFault),
    /// An allocation was refused.
    Memory,
}

impl From<PicturesFault> for PicturesError {
    ghost use Rattle.std.specs.Prelude.{◌≡◌};
    ghost use Rattle.lls_rle.specs.declared.pictures_error.PicturesError.TheVariants as errors;

    ghost from_gives = { λ fault error. error ≡ errors.Fault fault };

    fn from(fault: PicturesFault) -> Self {
        PicturesError::Fault(fault)
    }
}

impl<T: Drop> From<AllocFailed<T>> for PicturesError {
    ghost use Rattle.std.specs.Prelude.{◌≡◌};
    ghost use Rattle.lls_rle.specs.declared.pictures_error.PicturesError.TheVariants as errors;

    ghost from_gives = { λ _ error. error ≡ errors.Memory };

    fn from(_: AllocFailed<T>) -> Self {
        PicturesError::Memory
    }
}

impl From<AllocError> for PicturesError {
    ghost use Rattle.std.specs.Prelude.{◌≡◌};
    ghost use Rattle.lls_rle.specs.declared.pictures_error.PicturesError.TheVariants as errors;

    ghost from_gives = { λ _ error. error ≡ errors.Memory };

    fn from(_: AllocError) -> Self {
        PicturesError::Memory
    }
}

impl fmt::Display for PicturesError {
    ghost use Rattle.std.specs.Prelude.{Some};
    ghost use Rattle.lls_rle.specs.FaultText.{pictures_error_text};

    ghost output = { λ error. Some (pictures_error_text error) };

    fn fmt<W: fmt::Write>(&self, f: &mut fmt::Formatter<W>) -> fmt::Result {
        match self {
            PicturesError::Fault(fault) => write!(f, "{fault}"),
            PicturesError::Memory => write!(f, "Memory"),
        }
    }
}

impl Error for PicturesError {}
