// The check of a proof that comes in pieces.
ghost use Rattle.std.specs.Prelude.{◌≡◌, ◌++◌, ℕ, List, true, false, Some, None, Ok, Err, OnOk, OnErr, IfOk, IsSome, length, if◌then◌else◌};
ghost use Rattle.std.specs.Option.{option_map};
ghost use Rattle.std.specs.Str.Lines.{strip_carriage_return};
ghost use Rattle.lls_base.specs.Results.{Gives};
ghost use Rattle.lls_lit.specs.Formula.{IsUnsatisfiable};
ghost use Rattle.lls_prooflog.specs.FirstLine.{has_line, IsFirstLine};
ghost use Rattle.lls_lrat.specs.Verdict.{verdict};
ghost use Rattle.lls_lrat.specs.Feeding.{Feeding, begun, between, run_over, fed, last_taken, ending, piece_answer, last_answer};
ghost use Rattle.lls_lrat.specs.UnderWay.{answer_at};

use crate::checked::Checked;
use crate::checker::Progress;
use crate::error::CheckError;
use crate::line_checker::LineChecker;
use lls_base::Memory;
use lls_cnf::Formula;
use lls_prooflog::Lines;
use std::alloc::Global;
use std::marker::Model;

/// A check of an LRAT proof whose bytes come in pieces, of any sizes.
///
/// It comes to what `check_bytes` answers of all pieces together, and holds the live clauses and the bytes of the line that isn't
/// whole yet. Once memory lacked, each call answers `Memory`; it does so too behind 2^64 - 1 lines.
#[derive(Drop)]
pub struct Feed<'f> {
    check: LineChecker<'f>,
    lines: Lines,
    line: Vec<u8>,
}

impl<'f> Model for Feed<'f> {
    ghost use Rattle.std.specs.Option.{option_map};
    ghost use Rattle.lls_lrat.specs.Feeding.{FeedState, between};

    ghost Value = { FeedState };

    ghost view = { λ f. record {
      formula = f.check.formula;
      feeding = option_map (λ check. between check f.lines) f.check.state;
    } };
}

impl<'f> Feed<'f> {
    /// The check of a proof of which nothing has come.
    pub fn new(alloc: Global, formula: &'f Formula) -> Result<Feed<'f>, Memory>
        ensures { IfOk result (λ f. f ≡ record { formula = formula.now; feeding = Some (begun formula.now) }) }
    {
        let check = LineChecker::new(alloc, formula)?;
        Ok(Feed {
            check,
            lines: Lines::new(alloc),
            line: Vec::new(alloc),
        })
    }

    /// Takes the next piece. `Done` where the empty clause was added by now, and the fault where a line has one; then no further
    /// piece is looked at.
    #[tactic(auto, using(crate::proofs::Feedings::fed_fed))]
    pub fn feed(&mut self, piece: &[u8]) -> Result<Progress, CheckError>
        ensures formula { self.new.formula ≡ self.old.formula }
        ensures answer { result ≡ piece_answer self.new.feeding }
        ensures fed { IsSome self.new.feeding → self.new.feeding ≡ option_map (λ f. fed f piece.now) self.old.feeding }
        ensures lacked { self.old.feeding ≡ None → self.new.feeding ≡ None }

        // Two pieces come to what both together do.
        ensures pieces { (f : Feeding) → (more : List ℕ) → fed (fed f piece.now) more ≡ fed f (piece.now ++ more) }
    {
        match self.check.answer() {
            Ok(Progress::Going) => {}
            Ok(Progress::Done) => return Ok(Progress::Done),
            Err(fault) => return Err(fault),
        }
        if self.lines.put(piece).is_err() {
            return self.check.lack_memory();
        }
        take_lines(&mut self.check, &mut self.lines, &mut self.line)
    }

    /// Ends the proof: what all pieces together come to. The last line may have no LF.
    #[tactic(auto, using(crate::proofs::Feedings::ending_fed))]
    pub fn end(self) -> Result<Checked<'f>, CheckError>
        ensures exact { Gives CheckError.Memory (λ _. tt) result (last_answer self.entry.feeding) }
        ensures lacked { self.entry.feeding ≡ None → result ≡ Err CheckError.Memory }
        ensures formula { IfOk result (λ checked. checked ≡ self.entry.formula) }
        ensures sound { OnOk result (IsUnsatisfiable self.entry.formula) }

        // A proof in one piece comes to what its text does.
        ensures text { (text : List ℕ) → ending (fed (begun self.entry.formula) text) ≡ verdict self.entry.formula text }
    {
        let mut check = self.check;
        let last = self.lines.rest();
        take_last(&mut check, &last);
        check.finish()
    }
}

// Takes the lines that are whole, up to an end.
fn take_lines(
    check: &mut LineChecker,
    lines: &mut Lines,
    line: &mut Vec<u8>,
) -> Result<Progress, CheckError>
    requires { answer_at check.old.state ≡ Ok Progress.Going }
    ensures formula { check.new.formula ≡ check.old.formula }
    ensures answer { result ≡ answer_at check.new.state }
    ensures taken { IsSome check.new.state →
        option_map (λ s. between s lines.new) check.new.state ≡ option_map (λ s. run_over s lines.old) check.old.state }
{
    loop {
        match next_line(lines, line) {
            Ok(true) => {}
            Ok(false) => return Ok(Progress::Going),
            Err(Memory) => return check.lack_memory(),
        }
        match check.take(without_return(line)) {
            Ok(Progress::Going) => {}
            Ok(Progress::Done) => return Ok(Progress::Done),
            Err(fault) => return Err(fault),
        }
    }
}

// Takes the bytes that are left as the last line, if there are any.
fn take_last(check: &mut LineChecker, last: &[u8])
    ensures formula { check.new.formula ≡ check.old.formula }
    ensures taken { IsSome check.new.state → check.new.state ≡ option_map (λ s. last_taken s last.now) check.old.state }
    ensures lacked { check.old.state ≡ None → check.new.state ≡ None }
{
    if last.is_empty() {
        return;
    }
    let _ = check.take(without_return(last));
}

// Takes the first line out, if one is whole, in place of the line before.
fn next_line(lines: &mut Lines, line: &mut Vec<u8>) -> Result<bool, Memory>
    ensures found { IfOk result (λ found. found ≡ has_line lines.old) }
    ensures line { result ≡ Ok true → IsFirstLine lines.old line.new.items lines.new }
    ensures none { result ≡ Ok false → lines.new ≡ lines.old }
{
    line.clear();
    lines.take(line)
}

// A line without the CR at its end.
fn without_return(line: &[u8]) -> &[u8]
    ensures { result.now ≡ strip_carriage_return line.now }
{
    match line {
        [front @ .., b'\r'] => front,
        _ => line,
    }
}
