// The trim of a proof's text.
ghost use Rattle.std.specs.Prelude.{◌≡◌, ◌≢◌, ◌+◌, ◌<◌, ◌^◌, ℕ, false, Err, IfOk, IfErr, OnOk};
ghost use Rattle.lls_base.specs.Results.{Gives};
ghost use Rattle.lls_prooflog.specs.Line.{step_of_line};
ghost use Rattle.lls_lrat.specs.Checking.{progress_of};
ghost use Rattle.lls_lrat.specs.Verdict.{Accepted, verdict, answer_of};
ghost use Rattle.lls_trim.specs.Placed.{steps_of_text};
ghost use Rattle.lls_trim.specs.Inferences.{inferences_of};
ghost use Rattle.lls_trim.specs.Needed.{IsFirstRat, NeedsNoRat};
ghost use Rattle.lls_trim.specs.Trimming.{IsTrimmingOf};
ghost use Rattle.lls_trim.specs.Buffers.{names_in};
ghost use Rattle.lls_trim.specs.Recording.{AreNumbered, recording_of, reading_recorded};

use crate::inferences::Inferences;
use crate::recorder::Recorder;
use crate::trimmed::trim_inferences;
use crate::{TrimError, Trimming};
use lls_cnf::Formula;
use lls_lrat::{CheckError, Progress};
use lls_prooflog::{LineError, LineReader};
use lls_text::Lines;
use std::alloc::Global;

/// Of the text of an accepted LRAT proof, the additions that the empty clause rests on: with ids from one more than the formula's
/// number of clauses upwards, their literals as they stand there, and of their hints those that were looked at, each with the id that its
/// clause has now. A text that `check_bytes` refuses is refused for the same fault.
pub fn trim_bytes(alloc: Global, formula: &Formula, text: &[u8]) -> Result<Trimming, TrimError>
    ensures left { IfOk result (IsTrimmingOf formula.now (steps_of_text text.now)) }

    // It is Ok where the text is accepted and each needed addition is by unit propagation, and nowhere else.
    ensures accepted { OnOk result (verdict formula.now text.now ≡ Accepted) }
    ensures by_propagation { OnOk result (NeedsNoRat (inferences_of formula.now (steps_of_text text.now))) }
    ensures refused { (error : CheckError) → result ≡ Err (TrimError.Refused error) →
        answer_of (verdict formula.now text.now) ≡ Err error }
    ensures rat { (line : ℕ) → result ≡ Err (TrimError.RatStep line) →
        IsFirstRat (inferences_of formula.now (steps_of_text text.now)) line }
    ensures rat_accepted { (line : ℕ) → result ≡ Err (TrimError.RatStep line) →
        verdict formula.now text.now ≡ Accepted }
{
    let inferences = record_text(alloc, formula, text)?;
    trim_inferences(alloc, formula.len(), &inferences)
}

// The additions of an accepted text.
fn record_text(alloc: Global, formula: &Formula, text: &[u8]) -> Result<Inferences, CheckError>
    ensures inferences { IfOk result (λ i. i ≡ inferences_of formula.now (steps_of_text text.now)) }
    ensures accepted { OnOk result (verdict formula.now text.now ≡ Accepted) }
    ensures refused { IfErr result (λ error. error ≢ CheckError.Memory → answer_of (verdict formula.now text.now) ≡ Err error) }
{
    let mut recorder = Recorder::new(alloc, formula)?;
    let mut reader = LineReader::new(alloc);
    let mut lines = Lines::new(text);
    let mut count = 0;
    while let Some(line) = lines.next() {
        match take_line(&mut reader, &mut recorder, count, line) {
            Ok(Progress::Done) => return Ok(recorder.finish()),
            Ok(Progress::Going) => count += 1,
            Err(error) => return Err(error),
        }
    }
    Err(CheckError::NoEmpty)
}

// Takes one more line behind so many.
fn take_line(
    reader: &mut LineReader,
    recorder: &mut Recorder,
    count: u64,
    line: &[u8],
) -> Result<Progress, CheckError>
    requires going { recorder.old.checker.done ≡ false }
    requires numbered { AreNumbered recorder.old.checker.live (names_in recorder.old.names) }
    requires room { count + 1 < 2 ^ 64 }
    ensures recorded { Gives CheckError.Memory (λ _. recording_of recorder.new) result
        (reading_recorded (count + 1) (recording_of recorder.old) (step_of_line line.now)) }
    ensures progress { IfOk result (λ p. p ≡ progress_of recorder.new.checker.done) }
    ensures numbered { OnOk result (AreNumbered recorder.new.checker.live (names_in recorder.new.names)) }
{
    let number = count + 1;
    match reader.read(line) {
        Ok(Some(step)) => recorder.take(number, step),
        Ok(None) => Ok(Progress::Going),
        Err(LineError::Fault(fault)) => Err(CheckError::Line(number, fault)),
        Err(LineError::Memory) => Err(CheckError::Memory),
    }
}
