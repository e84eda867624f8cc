// Why a text is no formula in DIMACS CNF.
use std::fmt;

/// Why a text is no formula in DIMACS CNF. Lines are counted from 1.
#[derive(Clone, Copy, Debug, PartialEq, Eq)]
pub enum DimacsFault {
    /// The first line that counts doesn't begin with the word `p`, or there is none.
    NoHeader,
    /// That line begins with `p` and isn't `p cnf` and two numbers.
    BadHeader(u64),
    /// A word on this line is no number.
    BadWord(u64),
    /// A number on this line has a variable above those of the header.
    LiteralRange(u64, i64),
    /// The last clause has no `0`.
    Unended,
    /// The header declares the first number of clauses, and the text has the second.
    ClauseCount(u64, u64),
    /// The header declares more variables than `Var::MOST`.
    TooManyVariables(u64),
    /// A word on this line begins with `%`.
    Percent(u64),
}

impl fmt::Display for DimacsFault {
    ghost use Rattle.std.specs.Prelude.{Some};
    ghost use Rattle.lls_cnf.specs.FaultText.{dimacs_fault_text};

    ghost output = { λ fault. Some (dimacs_fault_text fault) };

    fn fmt<W: fmt::Write>(&self, f: &mut fmt::Formatter<W>) -> fmt::Result {
        match self {
            DimacsFault::NoHeader => write!(f, "NoHeader"),
            DimacsFault::BadHeader(line) => write!(f, "BadHeader {line}"),
            DimacsFault::BadWord(line) => write!(f, "BadWord {line}"),
            DimacsFault::LiteralRange(line, number) => write!(f, "LiteralRange {line} {number}"),
            DimacsFault::Unended => write!(f, "Unended"),
            DimacsFault::ClauseCount(declared, found) => {
                write!(f, "ClauseCount {declared} {found}")
            }
            DimacsFault::TooManyVariables(n) => write!(f, "TooManyVariables {n}"),
            DimacsFault::Percent(line) => write!(f, "Percent {line}"),
        }
    }
}
