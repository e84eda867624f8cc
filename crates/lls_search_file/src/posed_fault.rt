// Why a text is no search file.
ghost use Rattle.std.specs.Prelude.{◌≡◌};

use std::error::Error;
use std::fmt;

/// Why a text is no search file. Lines and columns count from 1, columns in bytes; generations count from 0.
#[derive(Clone, Copy, Debug, PartialEq, Eq)]
pub enum PosedFault {
    /// The text has no row.
    Empty,
    /// A word that is no cell, or a comma that has no cell before it, at this line and column.
    BadCell(u64, u64),
    /// The row of this line has another number of cells than the first row: the number that was expected, and the one found.
    Ragged(u64, u64, u64),
    /// A generation has another number of rows than generation 0: the generation, the number that was expected, and the one found.
    Sizes(u64, u64, u64),
    /// A row of this many cells, above `History::MOST_WIDTH`.
    TooWide(u64),
    /// Generation 0 has this many rows, above `History::MOST_HEIGHT`.
    TooHigh(u64),
    /// This many generations, above `History::MOST_GENERATIONS`.
    TooMany(u64),
    /// This many cells so far, above `History::MOST_CELLS`.
    TooManyCells(u64),
    /// A byte above 127 in a row, at this line and column.
    NotAscii(u64, u64),
}

impl PosedFault {
    ghost use Rattle.lls_search_file.specs.FaultText.{is_limit};

    /// Whether a size passes its limit.
    pub fn is_limit(self) -> bool
        ensures { result ≡ is_limit self }
    {
        matches!(
            self,
            PosedFault::TooWide(_)
                | PosedFault::TooHigh(_)
                | PosedFault::TooMany(_)
                | PosedFault::TooManyCells(_)
        )
    }
}

impl fmt::Display for PosedFault {
    ghost use Rattle.std.specs.Prelude.{Some};
    ghost use Rattle.lls_search_file.specs.FaultText.{posed_fault_text};

    ghost output = { λ fault. Some (posed_fault_text fault) };

    fn fmt<W: fmt::Write>(&self, f: &mut fmt::Formatter<W>) -> fmt::Result {
        match self {
            PosedFault::Empty => write!(f, "Empty"),
            PosedFault::BadCell(line, column) => write!(f, "BadCell {line} {column}"),
            PosedFault::Ragged(line, expected, found) => {
                write!(f, "Ragged {line} {expected} {found}")
            }
            PosedFault::Sizes(generation, expected, found) => {
                write!(f, "Sizes {generation} {expected} {found}")
            }
            PosedFault::TooWide(n) => write!(f, "TooWide {n}"),
            PosedFault::TooHigh(n) => write!(f, "TooHigh {n}"),
            PosedFault::TooMany(n) => write!(f, "TooMany {n}"),
            PosedFault::TooManyCells(n) => write!(f, "TooManyCells {n}"),
            PosedFault::NotAscii(line, column) => write!(f, "NotAscii {line} {column}"),
        }
    }
}

impl Error for PosedFault {}
