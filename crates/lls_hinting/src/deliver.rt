// The delivery of what a proof comes to, and of faults: the file first, then the text; or a line on the standard error.
ghost use Rattle.std.specs.Prelude.{◌≡◌, ◌⊎◌};
ghost use Rattle.std.specs.FinMap as map;
ghost use Rattle.std.specs.Io.KnownBytes.{append_known};
ghost use Rattle.std.specs.Option.{option_map};
ghost use Rattle.lls_base.specs.Faults.{Rose};
ghost use Rattle.lls_base.specs.Shelf.{known_files};
ghost use Rattle.lls_hinting.specs.declared.fault.Fault.TheVariants.{Outside as OfOutside};
ghost use Rattle.lls_hinting.specs.Fault.{fault_line, words_status};
ghost use Rattle.lls_outside.specs.Grown.{GrewBy};
ghost use Rattle.lls_hinting.specs.Ends.{KeepsBut};
ghost use Rattle.lls_outside.specs.Moment.{sink_at};
ghost use Rattle.lls_hinting.specs.Saying.{GivesText, SaysFault};

use crate::fault::{Fault, OutsideFault};
use crate::outcome::Hints;
use crate::status::Status;
use crate::words_error::WordsError;
use lls_base::{FileFault, Name, Shelf, Sink, write_all, write_file};
use lls_outside::write_line;
use std::alloc::Global;

/// Says a failure of the outside on the standard error. It takes no memory.
pub fn say<E: Sink>(fault: OutsideFault, err: &mut E) -> Status
    ensures status { result ≡ Status.Outside }
    ensures line { GrewBy (fault_line (OfOutside fault)) (sink_at E.Sink err.old) (sink_at E.Sink err.new) }
{
    write_line(err, fault.line());
    Status::Outside
}

/// Says want of memory on the standard error. It takes none.
pub fn lack<E: Sink>(err: &mut E) -> Status
    ensures status { result ≡ Status.Memory }
{
    write_line(err, b"lls-hints: memory\n");
    Status::Memory
}

/// Says a fault of the inputs on the standard error. Where there is no memory for its line, it says want of memory.
pub fn refuse<E: Sink>(alloc: Global, fault: Fault, err: &mut E) -> Status
    ensures { SaysFault fault result (sink_at E.Sink err.old) (sink_at E.Sink err.new) }
{
    match fault.line(alloc) {
        Ok(line) => {
            write_line(err, line.as_bytes());
            fault.status()
        }
        Err(_) => lack(err),
    }
}

/// The same of words that are no command line.
pub fn refuse_words<E: Sink>(alloc: Global, error: WordsError, err: &mut E) -> Status
    ensures status { (result ≡ words_status error) ⊎ (result ≡ Status.Memory) }
{
    match error.line(alloc) {
        Ok(line) => {
            write_line(err, line.as_bytes());
            error.status()
        }
        Err(_) => lack(err),
    }
}

// The failure of the outside that a file's fault is.
fn file_fault(fault: FileFault) -> OutsideFault {
    match fault {
        FileFault::CreateFailed => OutsideFault::CreateFailed,
        FileFault::WriteFailed => OutsideFault::WriteFailed,
    }
}

/// Writes a proof with hints to the file of that name, and then says what there is to say of it.
pub fn give_hints<S: Shelf, O: Sink, E: Sink>(
    hints: &Hints,
    output: &Name,
    shelf: &mut S,
    out: &mut O,
    err: &mut E,
) -> Status
    ensures status { (result ≡ Status.Done) ⊎ (result ≡ Status.Outside) }
    ensures done { result ≡ Status.Done →
        known_files (S.told shelf.new) ≡ option_map (λ files. map.insert files output.now hints.now.bytes.items) (known_files (S.told shelf.old)) }
    ensures said { result ≡ Status.Done → O.written out.new ≡ append_known (O.written out.old) hints.now.text.items }
    ensures others { KeepsBut output.now (known_files (S.told shelf.old)) (known_files (S.told shelf.new)) }
    ensures failed { result ≡ Status.Outside → Rose (S.faults shelf.old) (S.faults shelf.new) ⊎ Rose (O.faults out.old) (O.faults out.new) }
{
    match write_file(shelf, output, &hints.bytes) {
        Ok(()) => give_text(&hints.text, Status::Done, out, err),
        Err(fault) => say(file_fault(fault), err),
    }
}

/// Says a text on the standard output, which ends the run with that status.
pub fn give_text<O: Sink, E: Sink>(text: &[u8], status: Status, out: &mut O, err: &mut E) -> Status
    ensures status { (result ≡ status) ⊎ (result ≡ Status.Outside) }
    ensures text { GivesText text.now status result (sink_at O.Sink out.old) (sink_at O.Sink out.new) }
{
    match write_all(out, text) {
        Ok(()) => status,
        Err(_) => say(OutsideFault::OutFailed, err),
    }
}
