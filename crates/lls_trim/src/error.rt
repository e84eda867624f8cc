// Why a proof wasn't trimmed.
use lls_base::Memory;
use lls_lrat::CheckError;
use std::fmt;

/// Why a proof wasn't trimmed.
#[derive(Clone, Copy, Debug, PartialEq, Eq)]
pub enum TrimError {
    /// It isn't accepted. The fault isn't want of memory.
    Refused(CheckError),
    /// The empty clause rests on the addition of this line, counted from 1, which isn't by unit propagation.
    RatStep(u64),
    /// An allocation was refused.
    Memory,
}

impl From<Memory> for TrimError {
    ghost use Rattle.std.specs.Prelude.{◌≡◌};
    ghost use Rattle.lls_trim.specs.declared.error.TrimError.TheVariants as errors;

    ghost from_gives = { λ _ e. e ≡ errors.Memory };

    fn from(_: Memory) -> Self {
        TrimError::Memory
    }
}

impl From<CheckError> for TrimError {
    ghost use Rattle.std.specs.Prelude.{◌≡◌};
    ghost use Rattle.lls_trim.specs.FaultText.{refused};

    ghost from_gives = { λ error e. e ≡ refused error };

    fn from(error: CheckError) -> Self {
        match error {
            CheckError::Memory => TrimError::Memory,
            _ => TrimError::Refused(error),
        }
    }
}

impl fmt::Display for TrimError {
    ghost use Rattle.std.specs.Prelude.{Some};
    ghost use Rattle.lls_trim.specs.FaultText.{trim_error_text};

    ghost output = { λ e. Some (trim_error_text e) };

    fn fmt<W: fmt::Write>(&self, f: &mut fmt::Formatter<W>) -> fmt::Result {
        match self {
            TrimError::Refused(error) => write!(f, "{error}"),
            TrimError::RatStep(line) => write!(f, "RatStep {line}"),
            TrimError::Memory => write!(f, "Memory"),
        }
    }
}
