// The delivery of answers and faults: the file first, then the text; or the line of a fault.
ghost use Rattle.std.specs.Prelude.{◌≡◌, IfErr, IfOk, OnOk};
ghost use Rattle.lls_cli.specs.declared.fault.Fault.TheVariants.{Outside as OfOutside};
ghost use Rattle.lls_answers.specs.Questions as questions;
ghost use Rattle.lls_answers.specs.Answer.{IsAnswer};
ghost use Rattle.lls_cli.specs.Ends.{End, IsEndOf};
ghost use Rattle.lls_outside.specs.Grown.{GrewBy};
ghost use Rattle.lls_outside.specs.Kept.{KeepsInput};
ghost use Rattle.lls_answers.specs.Standing.{WroteFile};
ghost use Rattle.lls_cli.specs.Fault.{fault_line};
ghost use Rattle.lls_outside.specs.Moment.{shelf_at, sink_at};
ghost use Rattle.lls_outside.specs.Outside.{BorrowsSame, moment_of};
ghost use Rattle.lls_cli.specs.Steps.{IsDelivery, Says, Unwritten, file_fault};

use crate::fault::{Fault, OutsideFault};
use lls_answers::{Answer, AnswerFile, Status};
use lls_base::{FileFault, Memory, Shelf, Sink, write_file};
use lls_outside::{Outside, write_line};
use std::alloc::Global;

/// Says a failure of the outside on the standard error. It takes no memory.
pub fn say<E: Sink>(fault: OutsideFault, err: &mut E) -> Status
    ensures status { result ≡ Status.Outside }
    ensures line { GrewBy (fault_line (OfOutside fault)) (sink_at E.Sink err.old) (sink_at E.Sink err.new) }
{
    write_line(err, fault.line());
    Status::Outside
}

/// Says want of memory on the standard error. It takes none.
pub fn lack<E: Sink>(err: &mut E) -> Status
    ensures status { result ≡ Status.Memory }
    ensures line { GrewBy (fault_line Fault.Memory) (sink_at E.Sink err.old) (sink_at E.Sink err.new) }
{
    write_line(err, b"lls: memory\n");
    Status::Memory
}

/// Says a fault on the standard error. Where there is no memory for its line, it says want of memory. A failure of the outside takes
/// none, so it is always said.
pub fn refuse<E: Sink>(alloc: Global, fault: Fault, err: &mut E) -> Status
    ensures { Says fault result (sink_at E.Sink err.old) (sink_at E.Sink err.new) }
{
    if let Fault::Outside(failure) = fault {
        return say(failure, err);
    }
    match fault.line(alloc) {
        Ok(line) => {
            write_line(err, line.as_bytes());
            fault.status()
        }
        Err(_) => lack(err),
    }
}

// The failure of the outside that a file's fault is.
fn file_fault(fault: FileFault) -> OutsideFault
    ensures { result ≡ file_fault fault }
{
    match fault {
        FileFault::CreateFailed => OutsideFault::CreateFailed,
        FileFault::WriteFailed => OutsideFault::WriteFailed,
    }
}

/// Writes the file of an answer, if it has one.
pub fn write_answer_file<S: Shelf>(
    file: &Option<AnswerFile>,
    shelf: &mut S,
) -> Result<(), OutsideFault>
    ensures written { OnOk result (WroteFile file.now (shelf_at S.Shelf shelf.old) (shelf_at S.Shelf shelf.new)) }
    ensures unwritten { IfErr result (λ fault. Unwritten file.now fault (shelf_at S.Shelf shelf.old) (shelf_at S.Shelf shelf.new)) }
    ensures input { KeepsInput (shelf_at S.Shelf shelf.old) (shelf_at S.Shelf shelf.new) }
{
    let Some(file) = file else {
        return Ok(());
    };
    match write_file(shelf, &file.name, file.bytes.items()) {
        Ok(()) => Ok(()),
        Err(fault) => Err(file_fault(fault)),
    }
}

// Delivers an answer: its file, then its text. Where one of them fails, the standard error says so.
fn deliver<'f, S: Shelf, O: Sink, E: Sink>(
    answer: &Answer<'f>,
    outside: &mut Outside<S, O, E>,
) -> Status
    ensures end { (end : End) × IsDelivery answer.now (moment_of S.Shelf O.Sink E.Sink outside.old) (moment_of S.Shelf O.Sink E.Sink outside.new) result end }
    ensures input { KeepsInput (moment_of S.Shelf O.Sink E.Sink outside.old).shelf (moment_of S.Shelf O.Sink E.Sink outside.new).shelf }
    ensures same { BorrowsSame outside.old outside.new }
{
    if let Err(fault) = write_answer_file(&answer.file, outside.shelf) {
        return say(fault, outside.err);
    }
    match answer.text.print(outside.out) {
        Ok(()) => answer.status,
        Err(_) => say(OutsideFault::OutFailed, outside.err),
    }
}

/// Gives what a question comes to: its answer, or want of memory. An answer in hand takes no memory to give.
pub fn give<'f, S: Shelf, O: Sink, E: Sink>(
    answer: Result<Answer<'f>, Memory>,
    outside: &mut Outside<S, O, E>,
) -> Status
    ensures end { (question : questions.Question) → IfOk answer.entry (IsAnswer question)
        → (end : End) × IsEndOf question (moment_of S.Shelf O.Sink E.Sink outside.old) (moment_of S.Shelf O.Sink E.Sink outside.new) result end }
    ensures input { KeepsInput (moment_of S.Shelf O.Sink E.Sink outside.old).shelf (moment_of S.Shelf O.Sink E.Sink outside.new).shelf }
    ensures in_hand { IfOk answer.entry (λ given. (end : End)
        × IsDelivery given (moment_of S.Shelf O.Sink E.Sink outside.old) (moment_of S.Shelf O.Sink E.Sink outside.new) result end) }
    ensures same { BorrowsSame outside.old outside.new }
{
    match answer {
        Ok(answer) => deliver(&answer, outside),
        Err(Memory) => lack(outside.err),
    }
}
