// Why a line of a proof writes no step.
ghost use Rattle.std.specs.Prelude.{◌≡◌};
ghost use Rattle.lls_prooflog.specs.FaultText.{line_fault_name, line_fault_column};

use std::fmt;

/// Why a line of a proof writes no step. Columns are counted in bytes from 1, and are those of a word's first byte.
#[derive(Clone, Copy, Debug, PartialEq, Eq)]
pub enum LineFault {
    /// The word at this column is no number, nor the `d` of a deletion.
    BadWord(u64),
    /// The line ends before its last `0`.
    NoZero,
    /// The word at this column is the first behind the last `0`.
    Extra(u64),
    /// The number at this column is out of its range.
    Range(u64),
}

impl LineFault {
    /// The fault's name.
    pub fn name(&self) -> &'static str
        ensures { result.now ≡ line_fault_name self.now }
    {
        match self {
            LineFault::BadWord(_) => "BadWord",
            LineFault::NoZero => "NoZero",
            LineFault::Extra(_) => "Extra",
            LineFault::Range(_) => "Range",
        }
    }

    /// The column at which the fault stands; none where the line ends too early.
    pub fn column(&self) -> Option<u64>
        ensures { result ≡ line_fault_column self.now }
    {
        match *self {
            LineFault::BadWord(column) | LineFault::Extra(column) | LineFault::Range(column) => {
                Some(column)
            }
            LineFault::NoZero => None,
        }
    }
}

impl fmt::Display for LineFault {
    ghost use Rattle.std.specs.Prelude.{Some};
    ghost use Rattle.lls_prooflog.specs.FaultText.{line_fault_text};

    ghost output = { λ fault. Some (line_fault_text fault) };

    fn fmt<W: fmt::Write>(&self, f: &mut fmt::Formatter<W>) -> fmt::Result {
        let name = self.name();
        match self.column() {
            Some(column) => write!(f, "{name} {column}"),
            None => write!(f, "{name}"),
        }
    }
}
