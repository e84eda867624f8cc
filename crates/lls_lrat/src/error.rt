// Why a proof was not accepted.
use lls_base::Memory;
use lls_prooflog::{LineFault, StepFault};
use std::fmt;

/// Why a proof was not accepted. Lines are counted from 1.
#[derive(Clone, Copy, Debug, PartialEq, Eq)]
pub enum CheckError {
    /// The first line with a fault writes no step.
    Line(u64, LineFault),
    /// The first line with a fault writes a step that isn't good.
    Step(u64, StepFault),
    /// The lines end before the empty clause was added.
    NoEmpty,
    /// An allocation was refused.
    Memory,
}

impl From<Memory> for CheckError {
    ghost use Rattle.std.specs.Prelude.{◌≡◌};
    ghost use Rattle.lls_lrat.specs.declared.error.CheckError.TheVariants as errors;

    ghost from_gives = { λ _ e. e ≡ errors.Memory };

    fn from(_: Memory) -> Self {
        CheckError::Memory
    }
}

impl fmt::Display for CheckError {
    ghost use Rattle.std.specs.Prelude.{Some};
    ghost use Rattle.lls_lrat.specs.FaultText.{check_error_text};

    ghost output = { λ e. Some (check_error_text e) };

    fn fmt<W: fmt::Write>(&self, f: &mut fmt::Formatter<W>) -> fmt::Result {
        match self {
            CheckError::Line(line, fault) => write!(f, "{}", LineAtFault(*line, *fault)),
            CheckError::Step(line, fault) => write!(f, "{}", StepAtFault(*line, *fault)),
            CheckError::NoEmpty => write!(f, "NoEmpty"),
            CheckError::Memory => write!(f, "Memory"),
        }
    }
}

// A line's fault, which tells the line before its own column.
#[derive(Clone, Copy)]
struct LineAtFault(u64, LineFault);

impl fmt::Display for LineAtFault {
    ghost use Rattle.std.specs.Prelude.{Some};
    ghost use Rattle.lls_lrat.specs.FaultText.{line_text};

    ghost output = { λ at. Some (line_text at.0 at.1) };

    fn fmt<W: fmt::Write>(&self, f: &mut fmt::Formatter<W>) -> fmt::Result {
        let LineAtFault(line, fault) = *self;
        let name = fault.name();
        match fault.column() {
            Some(column) => write!(f, "{name} {line} {column}"),
            None => write!(f, "{name} {line}"),
        }
    }
}

// A step's fault, which tells the line before its own id or hint.
#[derive(Clone, Copy)]
struct StepAtFault(u64, StepFault);

impl fmt::Display for StepAtFault {
    ghost use Rattle.std.specs.Prelude.{Some};
    ghost use Rattle.lls_lrat.specs.FaultText.{step_text};

    ghost output = { λ at. Some (step_text at.0 at.1) };

    fn fmt<W: fmt::Write>(&self, f: &mut fmt::Formatter<W>) -> fmt::Result {
        let StepAtFault(line, fault) = *self;
        let name = fault.name();
        match fault.culprit() {
            Some(culprit) => write!(f, "{name} {line} {culprit}"),
            None => write!(f, "{name} {line}"),
        }
    }
}
