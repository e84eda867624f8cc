// The check of a proof's lines, one after another.
ghost use Rattle.std.specs.Prelude.{◌≡◌, ◌+◌, ◌<◌, ◌^◌, false, Some, None, Ok, Err, OnOk, OnErr, IfOk, IfErr, IsSome, if◌then◌else◌};
ghost use Rattle.std.specs.Option.{option_map};
ghost use Rattle.lls_base.specs.Results.{Gives};
ghost use Rattle.lls_lit.specs.Formula.{IsUnsatisfiable};
ghost use Rattle.lls_lrat.specs.Checking.{progress_of};
ghost use Rattle.lls_lrat.specs.Verdict.{start, line_taken};
ghost use Rattle.lls_lrat.specs.UnderWay.{at_line, or_fault, answer_at, closing_at};

use crate::checked::Checked;
use crate::checker::{Checker, Progress};
use crate::error::CheckError;
use crate::refusal::Refusal;
use lls_base::Memory;
use lls_cnf::Formula;
use lls_prooflog::{LineError, LineReader};
use std::alloc::Global;
use std::marker::Model;

/// A checker of lines, which remembers what ended the proof, and that memory lacked.
#[derive(Drop)]
pub(crate) struct LineChecker<'f> {
    checker: Checker<'f>,
    reader: LineReader,
    /// How many lines were taken.
    lines: u64,
    /// The fault that ended the proof, or want of memory.
    fault: Option<CheckError>,
}

impl<'f> Model for LineChecker<'f> {
    ghost use Rattle.lls_lrat.specs.UnderWay.{LineChecking, at_line, stopped};

    ghost Value = { LineChecking };

    ghost view = { λ l. record {
      formula = l.checker.formula;
      state = stopped (at_line l.checker l.lines) l.fault;
    } };
}

impl<'f> LineChecker<'f> {
    /// A check at its start.
    pub(crate) fn new(alloc: Global, formula: &'f Formula) -> Result<LineChecker<'f>, Memory>
        ensures { IfOk result (λ l. l ≡ record { formula = formula.now; state = Some (start formula.now) }) }
    {
        let checker = Checker::new(alloc, formula)?;
        Ok(LineChecker {
            checker,
            reader: LineReader::new(alloc),
            lines: 0,
            fault: None,
        })
    }

    /// What the last line came to.
    pub(crate) fn answer(&self) -> Result<Progress, CheckError>
        ensures { result ≡ answer_at self.now.state }
    {
        match self.fault {
            Some(fault) => Err(fault),
            None => Ok(self.checker.progress()),
        }
    }

    /// Takes a line, without LF and the CR before it. At an end nothing changes. It counts no further than to the end of its type,
    /// where it answers `Memory`.
    pub(crate) fn take(&mut self, line: &[u8]) -> Result<Progress, CheckError>
        ensures formula { self.new.formula ≡ self.old.formula }
        ensures answer { result ≡ answer_at self.new.state }
        ensures taken { IsSome self.new.state → self.new.state ≡ option_map (λ s. line_taken s line.now) self.old.state }
        ensures lacked { self.old.state ≡ None → self.new.state ≡ None }
    {
        match self.answer() {
            Ok(Progress::Going) => {}
            answered => return answered,
        }
        if self.lines == u64::MAX {
            return self.lack_memory();
        }
        let taken = take_line(&mut self.reader, &mut self.checker, self.lines, line);
        self.lines += 1;
        self.fault = taken.err();
        self.answer()
    }

    /// Ends the check, since memory lacks.
    pub(crate) fn lack_memory(&mut self) -> Result<Progress, CheckError>
        ensures formula { self.new.formula ≡ self.old.formula }
        ensures state { self.new.state ≡ None }
        ensures answer { result ≡ Err CheckError.Memory }
    {
        self.fault = Some(CheckError::Memory);
        Err(CheckError::Memory)
    }

    /// What the lines come to.
    pub(crate) fn finish(self) -> Result<Checked<'f>, CheckError>
        ensures accepted { IfOk result (λ checked. checked ≡ self.entry.formula) }
        ensures ok { OnOk result (closing_at self.entry.state ≡ Ok tt) }
        ensures err { IfErr result (λ error. closing_at self.entry.state ≡ Err error) }
        ensures sound { OnOk result (IsUnsatisfiable self.entry.formula) }
    {
        match self.fault {
            Some(fault) => Err(fault),
            None => self.checker.conclude(),
        }
    }
}

// Takes one more line behind so many.
fn take_line(
    reader: &mut LineReader,
    checker: &mut Checker,
    count: u64,
    line: &[u8],
) -> Result<Progress, CheckError>
    requires going { checker.old.done ≡ false }
    requires room { count + 1 < 2 ^ 64 }
    ensures taken { Gives CheckError.Memory (λ _. at_line checker.new (count + 1)) result
        (or_fault (line_taken (at_line checker.old count) line.now)) }
    ensures progress { IfOk result (λ p. p ≡ progress_of checker.new.done) }
    ensures formula { checker.new.formula ≡ checker.old.formula }
    ensures kept { OnErr result (checker.new ≡ checker.old) }
{
    let number = count + 1;
    let step = match reader.read(line) {
        Ok(Some(step)) => step,
        Ok(None) => return Ok(Progress::Going),
        Err(LineError::Fault(fault)) => return Err(CheckError::Line(number, fault)),
        Err(LineError::Memory) => return Err(CheckError::Memory),
    };
    match checker.take(step) {
        Ok(progress) => Ok(progress),
        Err(Refusal::Fault(fault)) => Err(CheckError::Step(number, fault)),
        Err(Refusal::Memory) => Err(CheckError::Memory),
    }
}
