// Why a text is no history.
use crate::PosedFault;
use std::error::Error;
use std::fmt;

/// Why a text is no history. Generations, rows and columns count from 0.
#[derive(Clone, Copy, Debug, PartialEq, Eq)]
pub enum HistoryFault {
    /// The text is no search file, for that cause.
    Text(PosedFault),
    /// The cell of this generation, row and column is the first that has a mark, or is neither `0` nor `1`.
    NotPlain(u64, u64, u64),
}

impl fmt::Display for HistoryFault {
    ghost use Rattle.std.specs.Prelude.{Some};
    ghost use Rattle.lls_search_file.specs.FaultText.{history_fault_text};

    ghost output = { λ fault. Some (history_fault_text fault) };

    fn fmt<W: fmt::Write>(&self, f: &mut fmt::Formatter<W>) -> fmt::Result {
        match self {
            HistoryFault::Text(fault) => write!(f, "{fault}"),
            HistoryFault::NotPlain(t, y, x) => write!(f, "NotPlain {t} {y} {x}"),
        }
    }
}

impl Error for HistoryFault {}
