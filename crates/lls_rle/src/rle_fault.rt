// Why a text is no pattern of a grid.
use std::error::Error;
use std::fmt;

/// Why a text is no RLE pattern that fits a grid. Lines and columns count from 1, columns in bytes; rows of the grid count from 0.
#[derive(Clone, Copy, Debug, PartialEq, Eq)]
pub enum RleFault {
    /// The first line that is neither a comment nor blank is no header, or there is none.
    NoHeader,
    /// This line and column has a byte that can't stand there: no digit, tag or blank; the seventh digit of a count; the last
    /// digit of a count of zero; a digit after a count; a `!` after a count.
    BadTag(u64, u64),
    /// A run of live cells in this row passes the width.
    TooWide(u64),
    /// A run of live cells stands in this row, which isn't below the height.
    TooHigh(u64),
    /// The text ends without `!`.
    NoEnd,
}

impl fmt::Display for RleFault {
    ghost use Rattle.std.specs.Prelude.{Some};
    ghost use Rattle.lls_rle.specs.FaultText.{rle_fault_text};

    ghost output = { λ fault. Some (rle_fault_text fault) };

    fn fmt<W: fmt::Write>(&self, f: &mut fmt::Formatter<W>) -> fmt::Result {
        match self {
            RleFault::NoHeader => write!(f, "NoHeader"),
            RleFault::BadTag(line, column) => write!(f, "BadTag {line} {column}"),
            RleFault::TooWide(row) => write!(f, "TooWide {row}"),
            RleFault::TooHigh(row) => write!(f, "TooHigh {row}"),
            RleFault::NoEnd => write!(f, "NoEnd"),
        }
    }
}

impl Error for RleFault {}
