// Whole writes: every byte is taken, or a call has failed.
ghost use Rattle.std.specs.Prelude.{◌≡◌, ℕ, ◌≤◌, length, take, IsErrOf, OnOk, OnErr};
ghost use Rattle.std.specs.Option.{option_map};
ghost use Rattle.std.specs.Io.KnownBytes.{append_known};
ghost use Rattle.lls_base.specs.Faults.{Counts, Rose};
ghost use Rattle.lls_base.specs.Writing.{was_created, with_output, without_output};

use crate::{Failed, Name, Shelf, Sink};
use std::error::Error;
use std::fmt;

/// Why a file wasn't written whole.
#[derive(Clone, Copy, Debug, PartialEq, Eq)]
pub enum FileFault {
    /// The file wasn't made. No file has changed.
    CreateFailed,
    /// A write failed, or took nothing. The name stands for some first bytes.
    WriteFailed,
}

impl fmt::Display for FileFault {
    ghost use Rattle.std.specs.Prelude.{Some};
    ghost use Rattle.lls_base.specs.Writing.{file_fault_text};

    ghost output = { λ fault. Some (file_fault_text fault) };

    fn fmt<W: fmt::Write>(&self, f: &mut fmt::Formatter<W>) -> fmt::Result {
        match self {
            FileFault::CreateFailed => write!(f, "CreateFailed"),
            FileFault::WriteFailed => write!(f, "WriteFailed"),
        }
    }
}

impl Error for FileFault {}

/// Writes all the bytes to a sink. After a failure it has taken some first bytes of them.
pub fn write_all<O: Sink>(sink: &mut O, bytes: &[u8]) -> Result<(), Failed>
    ensures ok { OnOk result (O.written sink.new ≡ append_known (O.written sink.old) bytes.now) }
    ensures err { OnErr result ((n : ℕ) × (n ≤ length bytes.now) × (O.written sink.new ≡ append_known (O.written sink.old) (take n bytes.now))) }
    ensures counts { Counts (O.faults sink.old) (O.faults sink.new) }
    ensures failed { OnErr result (Rose (O.faults sink.old) (O.faults sink.new)) }
    ensures no_fault { OnOk result (O.faults sink.new ≡ O.faults sink.old) }
{
    let mut done = 0;
    while done < bytes.len() {
        let taken = sink.write(&bytes[done..])?;
        if taken == 0 {
            return Err(Failed);
        }
        done += taken;
    }
    Ok(())
}

/// Makes the name stand for exactly these bytes.
pub fn write_file<S: Shelf>(shelf: &mut S, name: &Name, bytes: &[u8]) -> Result<(), FileFault>
    ensures ok { OnOk result (S.told shelf.new ≡ option_map (with_output name.now bytes.now) (S.told shelf.old)) }
    ensures create_failed { IsErrOf result FileFault.CreateFailed → S.told shelf.new ≡ option_map without_output (S.told shelf.old) }
    ensures write_failed { IsErrOf result FileFault.WriteFailed → (n : ℕ) × (n ≤ length bytes.now)
        × (S.told shelf.new ≡ option_map (with_output name.now (take n bytes.now)) (S.told shelf.old)) }
    ensures input { S.has_input shelf.new ≡ S.has_input shelf.old }
    ensures output { S.has_output shelf.new ≡ was_created result }
    ensures counts { Counts (S.faults shelf.old) (S.faults shelf.new) }
    ensures failed { OnErr result (Rose (S.faults shelf.old) (S.faults shelf.new)) }
    ensures no_fault { OnOk result (S.faults shelf.new ≡ S.faults shelf.old) }
{
    if let Err(Failed) = shelf.create_output(name.text()) {
        return Err(FileFault::CreateFailed);
    }
    let mut written = 0;
    while written < bytes.len() {
        let Ok(taken) = shelf.write(&bytes[written..]) else {
            return Err(FileFault::WriteFailed);
        };
        if taken == 0 {
            return Err(FileFault::WriteFailed);
        }
        written += taken;
    }
    Ok(())
}
