// Why words are no command line.
use lls_base::Memory;
use lls_hensel::RuleError;
use std::alloc::{AllocError, AllocFailed};
use std::error::Error;
use std::fmt;

/// Why words are no command line. Places count words from 1, columns bytes from 1.
#[derive(Clone, Copy, Debug, PartialEq, Eq)]
pub enum WordsError {
    /// There are no words.
    NoCommand,
    /// The first word is no command.
    UnknownCommand,
    /// An empty word, or one that begins with `-` and is no option.
    BadWord(u64),
    /// The command has no such option.
    UnknownOption(u64),
    /// The option was given before.
    RepeatedOption(u64),
    /// The option has no value.
    MissingValue(u64),
    /// The value isn't one that the option or the operand may have; the place is the option's or the operand's.
    BadValue(u64),
    /// The value is no rule text; the place is the option's or the operand's.
    BadRule(u64, RuleError),
    /// `--exact` stands at that place, and no `--period` anywhere.
    NoPeriod(u64),
    /// How many operands the command has, and how many there are.
    Operands(u64, u64),
    /// A file that is written has the name of an earlier one.
    SameName(u64),
    /// The low rule gives 1 at this neighbourhood and the high one 0. It is the least such.
    RulesCross(u64),
    /// The low rule and the high one differ at this neighbourhood, of nine dead or of nine live cells.
    LooseBackground(u64),
    /// An allocation was refused.
    Memory,
}

impl fmt::Display for WordsError {
    ghost use Rattle.std.specs.Prelude.{Some};
    ghost use Rattle.lls_words.specs.Texts.{words_error_text};

    ghost output = { λ error. Some (words_error_text error) };

    fn fmt<W: fmt::Write>(&self, f: &mut fmt::Formatter<W>) -> fmt::Result {
        match self {
            WordsError::NoCommand => write!(f, "NoCommand"),
            WordsError::UnknownCommand => write!(f, "UnknownCommand"),
            WordsError::BadWord(place) => write!(f, "BadWord {place}"),
            WordsError::UnknownOption(place) => write!(f, "UnknownOption {place}"),
            WordsError::RepeatedOption(place) => write!(f, "RepeatedOption {place}"),
            WordsError::MissingValue(place) => write!(f, "MissingValue {place}"),
            WordsError::BadValue(place) => write!(f, "BadValue {place}"),
            WordsError::BadRule(place, fault) => {
                let place = *place;
                let fault = *fault;
                BadRule { place, fault }.fmt(f)
            }
            WordsError::NoPeriod(place) => write!(f, "NoPeriod {place}"),
            WordsError::Operands(expected, found) => write!(f, "Operands {expected} {found}"),
            WordsError::SameName(place) => write!(f, "SameName {place}"),
            WordsError::RulesCross(nine) => write!(f, "RulesCross {nine}"),
            WordsError::LooseBackground(nine) => write!(f, "LooseBackground {nine}"),
            WordsError::Memory => write!(f, "Memory"),
        }
    }
}

impl Error for WordsError {}

// The fault of a rule text, with the place of its word.
#[derive(Clone, Copy, Debug)]
struct BadRule {
    place: u64,
    fault: RuleError,
}

impl fmt::Display for BadRule {
    ghost use Rattle.std.specs.Prelude.{Some};
    ghost use Rattle.lls_words.specs.Texts.{bad_rule_text};

    ghost output = { λ bad. Some (bad_rule_text bad.place bad.fault) };

    fn fmt<W: fmt::Write>(&self, f: &mut fmt::Formatter<W>) -> fmt::Result {
        let place = self.place;
        let name = self.fault.name();
        match self.fault.column() {
            None => write!(f, "{name} {place}"),
            Some(column) => write!(f, "{name} {place} {column}"),
        }
    }
}

impl From<AllocError> for WordsError {
    ghost use Rattle.std.specs.Prelude.{◌≡◌};
    ghost use Rattle.lls_words.specs.declared.error.WordsError.TheVariants as errors;

    ghost from_gives = { λ _ e. e ≡ errors.Memory };

    fn from(_: AllocError) -> Self {
        WordsError::Memory
    }
}

impl<T: Drop> From<AllocFailed<T>> for WordsError {
    ghost use Rattle.std.specs.Prelude.{◌≡◌};
    ghost use Rattle.lls_words.specs.declared.error.WordsError.TheVariants as errors;

    ghost from_gives = { λ _ e. e ≡ errors.Memory };

    fn from(_: AllocFailed<T>) -> Self {
        WordsError::Memory
    }
}
