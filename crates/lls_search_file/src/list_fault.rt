// Why a text is no list of patterns.
use crate::PosedFault;
use std::error::Error;
use std::fmt;

/// Why a text is no list of patterns of a size. Lines count from 1, and cells of a row from 0.
#[derive(Clone, Copy, Debug, PartialEq, Eq)]
pub enum ListFault {
    /// A row isn't in the grammar of search files, for that cause, which says its line and column.
    Text(PosedFault),
    /// The row of this line hasn't the width: the width, and how many cells it has.
    Width(u64, u64, u64),
    /// At this line a pattern has a row too many, or ends with too few: the height, and how many rows it has.
    Height(u64, u64, u64),
    /// In the row of this line this cell is the first that has a mark, or is neither `0` nor `1`.
    NotPlain(u64, u64),
    /// So many patterns, which is one more than the greatest number.
    TooMany(u64),
}

impl fmt::Display for ListFault {
    ghost use Rattle.std.specs.Prelude.{Some};
    ghost use Rattle.lls_search_file.specs.FaultText.{list_fault_text};

    ghost output = { λ fault. Some (list_fault_text fault) };

    fn fmt<W: fmt::Write>(&self, f: &mut fmt::Formatter<W>) -> fmt::Result {
        match self {
            ListFault::Text(fault) => write!(f, "{fault}"),
            ListFault::Width(line, width, found) => write!(f, "Width {line} {width} {found}"),
            ListFault::Height(line, height, found) => write!(f, "Height {line} {height} {found}"),
            ListFault::NotPlain(line, cell) => write!(f, "NotPlain {line} {cell}"),
            ListFault::TooMany(n) => write!(f, "TooMany {n}"),
        }
    }
}

impl Error for ListFault {}
