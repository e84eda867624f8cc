// A check of a proof that records its additions.
ghost use Rattle.std.specs.Prelude.{◌≡◌, ◌≤◌, [], ◌∷◌, ◌++◌, false, All, take, length, IfOk, OnOk};
ghost use Rattle.std.specs.Option.{option_map, ForSome};
ghost use Rattle.lls_base.specs.Results.{Gives};
ghost use Rattle.lls_prooflog.specs.Lent.{hints_of};
ghost use Rattle.lls_prooflog.specs.Log.{step_of_ref, step_of_addition};
ghost use Rattle.lls_prooflog.specs.Range.{IsInRange};
ghost use Rattle.lls_lrat.specs.Checking.{progress_of};
ghost use Rattle.lls_trim.specs.Inferences.{sources_of};
ghost use Rattle.lls_trim.specs.Numbers.{IsNumbered};
ghost use Rattle.lls_trim.specs.Buffers.{names_in};
ghost use Rattle.lls_trim.specs.Recording.{AreNumbered, recording_of, begun, step_recorded, refusal_at};

use crate::inferences::Inferences;
use crate::names::{Names, list_sources};
use crate::number::Number;
use lls_base::Memory;
use lls_cnf::Formula;
use lls_lrat::{CheckError, Checker, Progress, Refusal};
use lls_prooflog::{Addition, StepRef};
use std::alloc::Global;

/// A checker, with the additions that it accepted so far.
#[derive(Drop)]
pub(crate) struct Recorder<'f> {
    checker: Checker<'f>,
    names: Names,
    inferences: Inferences,
    /// What the last addition's hints name.
    sources: Vec<Number>,
}

impl<'f> Recorder<'f> {
    /// A check at its start.
    pub(crate) fn new(alloc: Global, formula: &'f Formula) -> Result<Recorder<'f>, Memory>
        ensures begun { IfOk result (λ r. recording_of r ≡ begun formula.now) }
        ensures numbered { IfOk result (λ r. AreNumbered r.checker.live (names_in r.names)) }
    {
        let checker = Checker::new(alloc, formula)?;
        Ok(Recorder {
            checker,
            names: Names::new(alloc, formula.len()),
            inferences: Inferences::new(alloc),
            sources: Vec::new(alloc),
        })
    }

    /// Takes the next step, which stands on that line.
    pub(crate) fn take(&mut self, line: u64, step: StepRef) -> Result<Progress, CheckError>
        requires in_range { IsInRange (step_of_ref step) }
        requires going { self.old.checker.done ≡ false }
        requires numbered { AreNumbered self.old.checker.live (names_in self.old.names) }
        ensures recorded { Gives CheckError.Memory (λ _. recording_of self.new) result (step_recorded line (recording_of self.old) (step_of_ref step.entry)) }
        ensures progress { IfOk result (λ p. p ≡ progress_of self.new.checker.done) }
        ensures numbered { OnOk result (AreNumbered self.new.checker.live (names_in self.new.names)) }
    {
        match step {
            StepRef::Add(addition) => self.add(line, addition),
            StepRef::Del(_) => match self.checker.take(step) {
                Ok(progress) => Ok(progress),
                Err(refusal) => Err(at_line(line, refusal)),
            },
        }
    }

    /// The additions.
    pub(crate) fn finish(self) -> Inferences
        ensures { result ≡ self.entry.inferences }
    {
        self.inferences
    }

    fn add(&mut self, line: u64, addition: Addition) -> Result<Progress, CheckError>
        requires going { self.old.checker.done ≡ false }
        requires numbered { AreNumbered self.old.checker.live (names_in self.old.names) }
        ensures recorded { Gives CheckError.Memory (λ _. recording_of self.new) result (step_recorded line (recording_of self.old) (step_of_addition addition.entry)) }
        ensures progress { IfOk result (λ p. p ≡ progress_of self.new.checker.done) }
        ensures numbered { OnOk result (AreNumbered self.new.checker.live (names_in self.new.names)) }
    {
        let looked = match self.checker.add(addition.id, addition.lits, addition.hints) {
            Ok(looked) => looked,
            Err(refusal) => return Err(at_line(line, refusal)),
        };
        let number = self.inferences.len();
        record(
            &mut self.inferences,
            &mut self.sources,
            &self.names,
            line,
            addition,
            looked,
        )?;
        self.names.put(addition.id, number)?;
        if addition.lits.is_empty() {
            Ok(Progress::Done)
        } else {
            Ok(Progress::Going)
        }
    }
}

// Puts an addition behind the others, of which so many hints were looked at.
fn record(
    inferences: &mut Inferences,
    sources: &mut Vec<Number>,
    names: &Names,
    line: u64,
    addition: Addition,
    looked: Option<usize>,
) -> Result<(), Memory>
    requires within { ForSome looked (λ count. count ≤ length (hints_of addition.hints)) }
    requires numbered { ForSome looked (λ count. All IsNumbered (sources_of (names_in names.now) (take count (hints_of addition.hints)))) }
    ensures { OnOk result (inferences.new ≡ inferences.old ++ record {
      line = line;
      clause = addition.entry.lits.now;
      by = option_map (λ count. sources_of (names_in names.now) (take count (hints_of addition.entry.hints))) looked;
    } ∷ []) }
{
    match looked {
        Some(count) => {
            list_sources(names, addition.hints, count, sources)?;
            inferences.push(line, addition.lits, Some(sources))
        }
        None => inferences.push(line, addition.lits, None),
    }
}

// Why the proof isn't accepted, where the step of that line is refused.
fn at_line(line: u64, refusal: Refusal) -> CheckError
    ensures { result ≡ refusal_at line refusal }
{
    match refusal {
        Refusal::Fault(fault) => CheckError::Step(line, fault),
        Refusal::Memory => CheckError::Memory,
    }
}
