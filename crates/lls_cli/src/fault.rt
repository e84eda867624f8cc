// Why a command line has no answer.
ghost use Rattle.std.specs.Prelude.{◌≡◌, IfOk, string_bytes};
ghost use Rattle.lls_cli.specs.Fault.{status_of, fault_line};

use lls_answers::Status;
use lls_base::Memory;
use lls_cnf::DimacsFault;
use lls_problem::DemandError;
use lls_rle::{PicturesFault, RleFault};
use lls_search_file::{ListFault, PosedFault};
use lls_words::WordsError;
use std::alloc::{AllocError, AllocFailed, Global};
use std::error::Error;
use std::fmt;

/// A failure of the outside.
#[derive(Clone, Copy, Debug, PartialEq, Eq)]
pub enum OutsideFault {
    /// There is no file of an input's name.
    NoFile,
    /// An input wasn't opened.
    OpenFailed,
    /// A read of an input failed.
    ReadFailed,
    /// The file of an answer wasn't made.
    CreateFailed,
    /// A write to the file of an answer failed.
    WriteFailed,
    /// The output failed.
    OutFailed,
}

impl fmt::Display for OutsideFault {
    ghost use Rattle.std.specs.Prelude.{Some};
    ghost use Rattle.lls_cli.specs.Fault.{outside_text};

    ghost output = { λ fault. Some (outside_text fault) };

    fn fmt<W: fmt::Write>(&self, f: &mut fmt::Formatter<W>) -> fmt::Result {
        match self {
            OutsideFault::NoFile => write!(f, "NoFile"),
            OutsideFault::OpenFailed => write!(f, "OpenFailed"),
            OutsideFault::ReadFailed => write!(f, "ReadFailed"),
            OutsideFault::CreateFailed => write!(f, "CreateFailed"),
            OutsideFault::WriteFailed => write!(f, "WriteFailed"),
            OutsideFault::OutFailed => write!(f, "OutFailed"),
        }
    }
}

impl OutsideFault {
    ghost use Rattle.lls_cli.specs.Fault.{fault_line};
    ghost use Rattle.lls_cli.specs.declared.fault.Fault.TheVariants.{Outside};

    /// The line of the standard error that says the failure.
    pub fn line(self) -> &'static [u8]
        ensures { result.now ≡ fault_line (Outside self) }
    {
        match self {
            OutsideFault::NoFile => b"lls: outside: NoFile\n",
            OutsideFault::OpenFailed => b"lls: outside: OpenFailed\n",
            OutsideFault::ReadFailed => b"lls: outside: ReadFailed\n",
            OutsideFault::CreateFailed => b"lls: outside: CreateFailed\n",
            OutsideFault::WriteFailed => b"lls: outside: WriteFailed\n",
            OutsideFault::OutFailed => b"lls: outside: OutFailed\n",
        }
    }
}

/// Why a command line has no answer.
#[derive(Clone, Copy, Debug, PartialEq, Eq)]
pub enum Fault {
    /// The words are no command line.
    Words(WordsError),
    /// The search file isn't in its grammar, or is too large.
    Posed(PosedFault),
    /// The demands don't fit the search file, or need too many counters.
    Demands(DemandError),
    /// The file of a formula isn't in its grammar, or declares too many variables.
    Dimacs(DimacsFault),
    /// The cell of this generation, row and column of the pattern is the first that is marked, or neither
    /// dead nor live.
    NotPlain(u64, u64, u64),
    /// The picture isn't in its grammar, or doesn't fit the grid.
    Rle(RleFault),
    /// The list of patterns isn't in its grammar, or its patterns aren't of the grid's size, or there are too many.
    List(ListFault),
    /// The list of pictures isn't in its grammar, or a picture doesn't fit the grid, or there are too many.
    Pictures(PicturesFault),
    Outside(OutsideFault),
    /// An input has more bytes than this limit.
    TooLong(u64),
    /// An allocation was refused.
    Memory,
}

impl fmt::Display for Fault {
    ghost use Rattle.std.specs.Prelude.{Some};
    ghost use Rattle.lls_cli.specs.Fault.{fault_text};

    ghost output = { λ fault. Some (fault_text fault) };

    fn fmt<W: fmt::Write>(&self, f: &mut fmt::Formatter<W>) -> fmt::Result {
        match self {
            Fault::Words(error) => write!(f, "words: {error}"),
            Fault::Posed(fault) => {
                if fault.is_limit() {
                    write!(f, "limit: {fault}")
                } else {
                    write!(f, "content: {fault}")
                }
            }
            Fault::Demands(error) => {
                if let DemandError::Counters(_) = error {
                    write!(f, "limit: {error}")
                } else {
                    write!(f, "content: {error}")
                }
            }
            Fault::Dimacs(fault) => {
                if let DimacsFault::TooManyVariables(_) = fault {
                    write!(f, "limit: {fault}")
                } else {
                    write!(f, "content: {fault}")
                }
            }
            Fault::NotPlain(t, y, x) => write!(f, "content: NotPlain {t} {y} {x}"),
            Fault::Rle(fault) => write!(f, "content: {fault}"),
            Fault::List(fault) => {
                if let ListFault::TooMany(_) = fault {
                    write!(f, "limit: List{fault}")
                } else {
                    write!(f, "content: List{fault}")
                }
            }
            Fault::Pictures(fault) => {
                if let PicturesFault::TooMany(_) = fault {
                    write!(f, "limit: List{fault}")
                } else {
                    write!(f, "content: List{fault}")
                }
            }
            Fault::Outside(fault) => write!(f, "outside: {fault}"),
            Fault::TooLong(limit) => write!(f, "limit: TooLong {limit}"),
            Fault::Memory => write!(f, "memory"),
        }
    }
}

impl Error for Fault {}

impl Fault {
    pub fn status(self) -> Status
        ensures { result ≡ status_of self }
    {
        match self {
            Fault::Words(WordsError::Memory) => Status::Memory,
            Fault::Words(_) => Status::Words,
            Fault::Posed(fault) => {
                if fault.is_limit() {
                    Status::Limit
                } else {
                    Status::Content
                }
            }
            Fault::Demands(DemandError::Counters(_)) => Status::Limit,
            Fault::Demands(_) => Status::Content,
            Fault::Dimacs(DimacsFault::TooManyVariables(_)) => Status::Limit,
            Fault::Dimacs(_) => Status::Content,
            Fault::NotPlain(_, _, _) => Status::Content,
            Fault::Rle(_) => Status::Content,
            Fault::List(ListFault::TooMany(_)) => Status::Limit,
            Fault::List(_) => Status::Content,
            Fault::Pictures(PicturesFault::TooMany(_)) => Status::Limit,
            Fault::Pictures(_) => Status::Content,
            Fault::Outside(_) => Status::Outside,
            Fault::TooLong(_) => Status::Limit,
            Fault::Memory => Status::Memory,
        }
    }

    /// The line of the standard error that says the fault.
    pub fn line(self, alloc: Global) -> Result<String, AllocError>
        ensures { IfOk result (λ line. string_bytes line ≡ fault_line self) }
    {
        format!(in alloc; "lls: {self}\n")
    }
}

impl From<WordsError> for Fault {
    ghost use Rattle.std.specs.Prelude.{◌≡◌};
    ghost use Rattle.lls_cli.specs.Fault.{words_fault};

    ghost from_gives = { λ error fault. fault ≡ words_fault error };

    fn from(error: WordsError) -> Self {
        match error {
            WordsError::Memory => Fault::Memory,
            _ => Fault::Words(error),
        }
    }
}

impl From<DemandError> for Fault {
    ghost use Rattle.std.specs.Prelude.{◌≡◌};
    ghost use Rattle.lls_cli.specs.declared.fault.Fault.TheVariants as faults;

    ghost from_gives = { λ error fault. fault ≡ faults.Demands error };

    fn from(error: DemandError) -> Self {
        Fault::Demands(error)
    }
}

impl From<Memory> for Fault {
    ghost use Rattle.std.specs.Prelude.{◌≡◌};
    ghost use Rattle.lls_cli.specs.declared.fault.Fault.TheVariants as faults;

    ghost from_gives = { λ _ e. e ≡ faults.Memory };

    fn from(_: Memory) -> Self {
        Fault::Memory
    }
}

impl From<AllocError> for Fault {
    ghost use Rattle.std.specs.Prelude.{◌≡◌};
    ghost use Rattle.lls_cli.specs.declared.fault.Fault.TheVariants as faults;

    ghost from_gives = { λ _ e. e ≡ faults.Memory };

    fn from(_: AllocError) -> Self {
        Fault::Memory
    }
}

impl<T: Drop> From<AllocFailed<T>> for Fault {
    ghost use Rattle.std.specs.Prelude.{◌≡◌};
    ghost use Rattle.lls_cli.specs.declared.fault.Fault.TheVariants as faults;

    ghost from_gives = { λ _ e. e ≡ faults.Memory };

    fn from(_: AllocFailed<T>) -> Self {
        Fault::Memory
    }
}
