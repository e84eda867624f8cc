// Why words are no command line.
ghost use Rattle.std.specs.Prelude.{◌≡◌, IfOk, string_bytes};
ghost use Rattle.lls_hinting.specs.Fault.{words_line, words_status};

use crate::status::Status;
use std::alloc::{AllocError, AllocFailed, Global};
use std::error::Error;
use std::fmt;

/// Why words are no command line. Places count words from 1.
#[derive(Clone, Copy, Debug, PartialEq, Eq)]
pub enum WordsError {
    /// An empty word, or one that begins with `-` and is no option.
    BadWord(u64),
    /// The option was given before.
    RepeatedOption(u64),
    /// The option has no value.
    MissingValue(u64),
    /// The value isn't one that the option may have; the place is the value's.
    BadValue(u64),
    /// How many operands there have to be, and how many there are.
    Operands(u64, u64),
    /// The file that is written has the name of an earlier one.
    SameName(u64),
    /// An allocation was refused.
    Memory,
}

impl fmt::Display for WordsError {
    ghost use Rattle.std.specs.Prelude.{Some};
    ghost use Rattle.lls_hinting.specs.Fault.{words_error_text};

    ghost output = { λ error. Some (words_error_text error) };

    fn fmt<W: fmt::Write>(&self, f: &mut fmt::Formatter<W>) -> fmt::Result {
        match self {
            WordsError::BadWord(place) => write!(f, "BadWord {place}"),
            WordsError::RepeatedOption(place) => write!(f, "RepeatedOption {place}"),
            WordsError::MissingValue(place) => write!(f, "MissingValue {place}"),
            WordsError::BadValue(place) => write!(f, "BadValue {place}"),
            WordsError::Operands(expected, found) => write!(f, "Operands {expected} {found}"),
            WordsError::SameName(place) => write!(f, "SameName {place}"),
            WordsError::Memory => write!(f, "Memory"),
        }
    }
}

impl Error for WordsError {}

impl WordsError {
    pub fn status(self) -> Status
        ensures { result ≡ words_status self }
    {
        match self {
            WordsError::Memory => Status::Memory,
            _ => Status::Words,
        }
    }

    /// The line of the standard error that says the error.
    pub fn line(self, alloc: Global) -> Result<String, AllocError>
        ensures { IfOk result (λ line. string_bytes line ≡ words_line self) }
    {
        match self {
            WordsError::Memory => format!(in alloc; "lls-hints: memory\n"),
            _ => format!(in alloc; "lls-hints: words: {self}\n"),
        }
    }
}

impl From<AllocError> for WordsError {
    ghost use Rattle.std.specs.Prelude.{◌≡◌};
    ghost use Rattle.lls_hinting.specs.declared.words_error.WordsError.TheVariants as errors;

    ghost from_gives = { λ _ e. e ≡ errors.Memory };

    fn from(_: AllocError) -> Self {
        WordsError::Memory
    }
}

impl<T: Drop> From<AllocFailed<T>> for WordsError {
    ghost use Rattle.std.specs.Prelude.{◌≡◌};
    ghost use Rattle.lls_hinting.specs.declared.words_error.WordsError.TheVariants as errors;

    ghost from_gives = { λ _ e. e ≡ errors.Memory };

    fn from(_: AllocFailed<T>) -> Self {
        WordsError::Memory
    }
}
