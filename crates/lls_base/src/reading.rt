// Whole reads of a file, up to a limit.
ghost use Rattle.std.specs.Prelude.{◌≡◌, ◌<◌, ◌≤◌, ◌+◌, ◌++◌, [], ℕ, List, false, length, take, IsTrue, IsNone, IsErrOf, IfErr, IfSome, OnOk};
ghost use Rattle.std.specs.FinMap as map;
ghost use Rattle.lls_base.specs.Faults.{Counts, Rose};
ghost use Rattle.lls_base.specs.Shelf.{known_files, known_target, known_rest, bytes_of};
ghost use Rattle.lls_base.specs.Reading.{was_opened, has_failed, GrewByFile, GrewByAll};
ghost use Rattle.lls_base.specs.declared.reading.ReadError.TheVariants.{Memory as OutOfMemory};

use crate::{Failed, Name, OpenFault, Shelf};
use std::alloc::AllocError;
use std::error::Error;
use std::fmt;

const CHUNK: usize = 8192;

/// Why a file wasn't read whole.
#[derive(Clone, Copy, Debug, PartialEq, Eq)]
pub enum ReadError {
    /// The file wasn't opened.
    OpenFailed,
    /// A read failed.
    ReadFailed,
    /// The file has more bytes than this limit.
    TooLong(u64),
    /// An allocation was refused.
    Memory,
    /// There is no file of that name.
    NoFile,
}

impl fmt::Display for ReadError {
    ghost use Rattle.std.specs.Prelude.{Some};
    ghost use Rattle.lls_base.specs.Reading.{read_error_text};

    ghost output = { λ error. Some (read_error_text error) };

    fn fmt<W: fmt::Write>(&self, f: &mut fmt::Formatter<W>) -> fmt::Result {
        match self {
            ReadError::OpenFailed => write!(f, "OpenFailed"),
            ReadError::ReadFailed => write!(f, "ReadFailed"),
            ReadError::TooLong(limit) => write!(f, "TooLong {limit}"),
            ReadError::Memory => write!(f, "Memory"),
            ReadError::NoFile => write!(f, "NoFile"),
        }
    }
}

impl Error for ReadError {}

impl From<AllocError> for ReadError {
    ghost from_gives = { λ _ e. e ≡ OutOfMemory };

    fn from(_: AllocError) -> Self {
        ReadError::Memory
    }
}

/// Appends the bytes of a file to a list, unless they are more than `limit`.
/// After a refusal the list has grown by some first bytes of the file.
pub fn read_all<S: Shelf>(
    shelf: &mut S,
    name: &Name,
    limit: u64,
    into: &mut Vec<u8>,
) -> Result<(), ReadError>
    ensures ok { OnOk result (IfSome (known_files (S.told shelf.old))
        (λ files. GrewByFile files name.now limit into.old.items into.new.items)) }
    ensures rest { OnOk result (IfSome (known_rest (S.told shelf.new)) (λ rest. rest ≡ [])) }
    ensures fits { OnOk result (length into.new.items ≤ length into.old.items + limit) }
    ensures grew { (bytes : List ℕ) × (into.new.items ≡ into.old.items ++ bytes) }
    ensures prefix { IfSome (known_files (S.told shelf.old))
        (λ files. (n : ℕ) × (into.new.items ≡ into.old.items ++ take n (bytes_of files name.now))) }
    ensures unopened { was_opened result ≡ false → into.new.items ≡ into.old.items }

    ensures too_long { IsErrOf result (ReadError.TooLong limit) → IfSome (known_files (S.told shelf.old))
        (λ files. limit < length (bytes_of files name.now)) }
    ensures limit { (n : ℕ) → IsErrOf result (ReadError.TooLong n) → n ≡ limit }
    ensures no_file { IsErrOf result ReadError.NoFile → IfSome (known_files (S.told shelf.old))
        (λ files. IsNone (map.get files name.now)) }
    ensures absent { IfSome (known_files (S.told shelf.old))
        (λ files. IsNone (map.get files name.now) → was_opened result ≡ false) }
    ensures open_failed { IsErrOf result ReadError.OpenFailed → Rose (S.faults shelf.old) (S.faults shelf.new) }
    ensures read_failed { IsErrOf result ReadError.ReadFailed → Rose (S.faults shelf.old) (S.faults shelf.new) }

    ensures files { known_files (S.told shelf.new) ≡ known_files (S.told shelf.old) }
    ensures target { known_target (S.told shelf.new) ≡ known_target (S.told shelf.old) }
    ensures input { S.has_input shelf.new ≡ was_opened result }
    ensures output { S.has_output shelf.new ≡ S.has_output shelf.old }
    ensures counts { Counts (S.faults shelf.old) (S.faults shelf.new) }
    ensures no_fault { has_failed result ≡ false → S.faults shelf.new ≡ S.faults shelf.old }
{
    match shelf.open_input(name.text()) {
        Ok(()) => read_rest(shelf, limit, into),
        Err(OpenFault::Absent) => Err(ReadError::NoFile),
        Err(OpenFault::Failed) => Err(ReadError::OpenFailed),
    }
}

// Appends all that is left of the current input, unless it is more than `limit`.
fn read_rest<S: Shelf>(shelf: &mut S, limit: u64, into: &mut Vec<u8>) -> Result<(), ReadError>
    requires { IsTrue (S.has_input shelf.old) }
    ensures ok { OnOk result (IfSome (known_rest (S.told shelf.old))
        (λ rest. GrewByAll limit into.old.items into.new.items rest)) }
    ensures rest { OnOk result (IfSome (known_rest (S.told shelf.new)) (λ rest. rest ≡ [])) }
    ensures fits { OnOk result (length into.new.items ≤ length into.old.items + limit) }
    ensures grew { (bytes : List ℕ) × (into.new.items ≡ into.old.items ++ bytes) }
    ensures prefix { IfSome (known_rest (S.told shelf.old))
        (λ rest. (n : ℕ) × (into.new.items ≡ into.old.items ++ take n rest)) }

    ensures opened { IsTrue (was_opened result) }
    ensures too_long { IsErrOf result (ReadError.TooLong limit) → IfSome (known_rest (S.told shelf.old))
        (λ rest. limit < length rest) }
    ensures limit { (n : ℕ) → IsErrOf result (ReadError.TooLong n) → n ≡ limit }
    ensures read_failed { IsErrOf result ReadError.ReadFailed → Rose (S.faults shelf.old) (S.faults shelf.new) }

    ensures files { known_files (S.told shelf.new) ≡ known_files (S.told shelf.old) }
    ensures target { known_target (S.told shelf.new) ≡ known_target (S.told shelf.old) }
    ensures input { S.has_input shelf.new ≡ S.has_input shelf.old }
    ensures output { S.has_output shelf.new ≡ S.has_output shelf.old }
    ensures counts { Counts (S.faults shelf.old) (S.faults shelf.new) }
    ensures no_fault { has_failed result ≡ false → S.faults shelf.new ≡ S.faults shelf.old }
{
    let mut chunk = [0; CHUNK];
    let mut taken = 0;
    loop {
        let count = match shelf.read(&mut chunk) {
            Ok(count) => count,
            Err(Failed) => return Err(ReadError::ReadFailed),
        };
        if count == 0 {
            return Ok(());
        }
        if count as u64 > limit - taken {
            return Err(ReadError::TooLong(limit));
        }
        into.extend_from_slice(&chunk[..count])?;
        taken += count as u64;
    }
}
