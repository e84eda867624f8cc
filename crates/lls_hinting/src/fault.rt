// Why inputs have no answer.
ghost use Rattle.std.specs.Prelude.{◌≡◌, IfOk, string_bytes};
ghost use Rattle.lls_hinting.specs.Fault.{status_of, fault_line};

use crate::status::Status;
use lls_base::Memory;
use lls_cnf::DimacsFault;
use lls_drat::{DratError, DratFault};
use std::alloc::{AllocError, AllocFailed, Global};
use std::error::Error;
use std::fmt;

/// A failure of the outside.
#[derive(Clone, Copy, Debug, PartialEq, Eq)]
pub enum OutsideFault {
    /// There is no file of an input's name.
    NoFile,
    /// An input wasn't opened.
    OpenFailed,
    /// A read of an input failed.
    ReadFailed,
    /// The proof has other variables at its second reading than at its first.
    Changed,
    /// The file that is written wasn't made.
    CreateFailed,
    /// A write to it failed.
    WriteFailed,
    /// The output failed.
    OutFailed,
}

impl fmt::Display for OutsideFault {
    ghost use Rattle.std.specs.Prelude.{Some};
    ghost use Rattle.lls_hinting.specs.Fault.{outside_text};

    ghost output = { λ fault. Some (outside_text fault) };

    fn fmt<W: fmt::Write>(&self, f: &mut fmt::Formatter<W>) -> fmt::Result {
        match self {
            OutsideFault::NoFile => write!(f, "NoFile"),
            OutsideFault::OpenFailed => write!(f, "OpenFailed"),
            OutsideFault::ReadFailed => write!(f, "ReadFailed"),
            OutsideFault::Changed => write!(f, "Changed"),
            OutsideFault::CreateFailed => write!(f, "CreateFailed"),
            OutsideFault::WriteFailed => write!(f, "WriteFailed"),
            OutsideFault::OutFailed => write!(f, "OutFailed"),
        }
    }
}

impl OutsideFault {
    ghost use Rattle.lls_hinting.specs.Fault.{fault_line};
    ghost use Rattle.lls_hinting.specs.declared.fault.Fault.TheVariants.{Outside};

    /// The line of the standard error that says the failure.
    pub fn line(self) -> &'static [u8]
        ensures { result.now ≡ fault_line (Outside self) }
    {
        match self {
            OutsideFault::NoFile => b"lls-hints: outside: NoFile\n",
            OutsideFault::OpenFailed => b"lls-hints: outside: OpenFailed\n",
            OutsideFault::ReadFailed => b"lls-hints: outside: ReadFailed\n",
            OutsideFault::Changed => b"lls-hints: outside: Changed\n",
            OutsideFault::CreateFailed => b"lls-hints: outside: CreateFailed\n",
            OutsideFault::WriteFailed => b"lls-hints: outside: WriteFailed\n",
            OutsideFault::OutFailed => b"lls-hints: outside: OutFailed\n",
        }
    }
}

/// Why inputs have no answer.
#[derive(Clone, Copy, Debug, PartialEq, Eq)]
pub enum Fault {
    /// The file of the formula isn't in its grammar, or declares too many variables.
    Dimacs(DimacsFault),
    /// The proof isn't in its grammar.
    Proof(DratFault),
    Outside(OutsideFault),
    /// An input has more bytes than this limit.
    TooLong(u64),
    /// An allocation was refused.
    Memory,
}

impl fmt::Display for Fault {
    ghost use Rattle.std.specs.Prelude.{Some};
    ghost use Rattle.lls_hinting.specs.Fault.{fault_text};

    ghost output = { λ fault. Some (fault_text fault) };

    fn fmt<W: fmt::Write>(&self, f: &mut fmt::Formatter<W>) -> fmt::Result {
        match self {
            Fault::Dimacs(fault) => {
                if let DimacsFault::TooManyVariables(_) = fault {
                    write!(f, "limit: {fault}")
                } else {
                    write!(f, "content: {fault}")
                }
            }
            Fault::Proof(fault) => write!(f, "content: {fault}"),
            Fault::Outside(fault) => write!(f, "outside: {fault}"),
            Fault::TooLong(limit) => write!(f, "limit: TooLong {limit}"),
            Fault::Memory => write!(f, "memory"),
        }
    }
}

impl Error for Fault {}

impl Fault {
    pub fn status(self) -> Status
        ensures { result ≡ status_of self }
    {
        match self {
            Fault::Dimacs(DimacsFault::TooManyVariables(_)) => Status::Limit,
            Fault::Dimacs(_) => Status::Content,
            Fault::Proof(_) => Status::Content,
            Fault::Outside(_) => Status::Outside,
            Fault::TooLong(_) => Status::Limit,
            Fault::Memory => Status::Memory,
        }
    }

    /// The line of the standard error that says the fault.
    pub fn line(self, alloc: Global) -> Result<String, AllocError>
        ensures { IfOk result (λ line. string_bytes line ≡ fault_line self) }
    {
        format!(in alloc; "lls-hints: {self}\n")
    }
}

impl From<DratError> for Fault {
    ghost use Rattle.std.specs.Prelude.{◌≡◌};
    ghost use Rattle.lls_hinting.specs.Fault.{proof_fault};

    ghost from_gives = { λ error fault. fault ≡ proof_fault error };

    fn from(error: DratError) -> Self {
        match error {
            DratError::Fault(fault) => Fault::Proof(fault),
            DratError::Memory => Fault::Memory,
        }
    }
}

impl From<Memory> for Fault {
    ghost use Rattle.std.specs.Prelude.{◌≡◌};
    ghost use Rattle.lls_hinting.specs.declared.fault.Fault.TheVariants as faults;

    ghost from_gives = { λ _ e. e ≡ faults.Memory };

    fn from(_: Memory) -> Self {
        Fault::Memory
    }
}

impl From<AllocError> for Fault {
    ghost use Rattle.std.specs.Prelude.{◌≡◌};
    ghost use Rattle.lls_hinting.specs.declared.fault.Fault.TheVariants as faults;

    ghost from_gives = { λ _ e. e ≡ faults.Memory };

    fn from(_: AllocError) -> Self {
        Fault::Memory
    }
}

impl<T: Drop> From<AllocFailed<T>> for Fault {
    ghost use Rattle.std.specs.Prelude.{◌≡◌};
    ghost use Rattle.lls_hinting.specs.declared.fault.Fault.TheVariants as faults;

    ghost from_gives = { λ _ e. e ≡ faults.Memory };

    fn from(_: AllocFailed<T>) -> Self {
        Fault::Memory
    }
}
