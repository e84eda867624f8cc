// The checker of proof steps.
ghost use Rattle.std.specs.Prelude.{◌≡◌, ◌≤◌, ◌+◌, ◌*◌, [], true, false, take, length, Some, None, Ok, Err, IfOk, IfSome, OnOk, OnErr, if◌then◌else◌};
ghost use Rattle.std.specs.Option.{option_map};
ghost use Rattle.lls_lit.specs.Formula.{is_within, IsUnsatisfiable};
ghost use Rattle.lls_prooflog.specs.Range.{IsInRange};
ghost use Rattle.lls_prooflog.specs.Steps.{numbered, KeepsSatisfiable};
ghost use Rattle.lls_prooflog.specs.Lent.{hints_of};
ghost use Rattle.lls_prooflog.specs.Log.{step_of_ref};
ghost use Rattle.lls_base.specs.Results.{GivesWrapped};
ghost use Rattle.lls_prooflog.specs.declared.step.Step.TheVariants.{Add};

use crate::assumed::Assumed;
use crate::checked::Checked;
use crate::error::CheckError;
use crate::live::LiveClauses;
use crate::pivot::check_hints;
use crate::refusal::Refusal;
use lls_base::Memory;
use lls_cnf::Formula;
use lls_lit::{Lit, Var};
use lls_prooflog::{HintsRef, Step, StepFault, StepRef};
use std::alloc::Global;
use std::marker::Model;

/// How far a proof has come.
#[derive(Clone, Copy, Debug, PartialEq, Eq)]
pub enum Progress {
    /// The empty clause wasn't added yet.
    Going,
    /// The empty clause was added, so the formula has no satisfying assignment.
    Done,
}

/// A checker of the steps of a proof that a formula has no satisfying assignment.
///
/// It borrows the formula, whose clauses have the ids from 1. An addition takes time by its literals and hints and by the
/// literals of the hints' clauses, and not by the number of live clauses. So does a deletion on average: now and then the
/// store of added clauses is closed up or made anew.
#[derive(Drop)]
pub struct Checker<'f> {
    alloc: Global,
    formula: &'f Formula,
    live: LiveClauses<'f>,
    assumed: Assumed,
    done: bool,
}

impl<'f> Model for Checker<'f> {
    ghost use Rattle.lls_lrat.specs.Checking.{Checking, IsChecking};

    ghost Value = { Checking };

    ghost view = { λ c. record { formula = c.formula.now; live = c.live.all; added = c.live.added; done = c.done } };

    ghost invariant = { λ c. IsChecking c.formula.now c.live.all c.assumed.vars c.done };
}

impl<'f> Checker<'f> {
    ghost use Rattle.lls_lrat.specs.Checking.{stepped, progress_of, literals_of};
    ghost use Rattle.lls_lrat.specs.Looked.{looked_at};

    /// A checker at the start of a proof.
    pub fn new(alloc: Global, formula: &'f Formula) -> Result<Checker<'f>, Memory>
        ensures { IfOk result (λ c. c ≡ record {
          formula = formula.now;
          live = numbered formula.now.clauses;
          added = [];
          done = false;
        }) }
    {
        let live = LiveClauses::new(alloc, formula)?;
        let assumed = Assumed::new(alloc, formula.vars())?;
        Ok(Checker {
            alloc,
            formula,
            live,
            assumed,
            done: false,
        })
    }

    /// Takes the next step of the proof. After an error the checker is as before; after `Done` no step changes it.
    pub fn step(&mut self, step: &Step) -> Result<Progress, Refusal>
        requires { IsInRange step.now }
        ensures stepped { GivesWrapped Refusal.Fault (λ _. self.new) result (stepped self.old step.now) }
        ensures progress { IfOk result (λ p. p ≡ progress_of self.new.done) }
        ensures err { OnErr result (self.new ≡ self.old) }
        ensures sound { result ≡ Ok Progress.Done → IsUnsatisfiable self.new.formula }

        // Where the formula is satisfiable, so is what is live.
        ensures keeps { KeepsSatisfiable self.new.formula self.new.live }
    {
        self.take(step.lend())
    }

    /// The same without a copy of the step.
    pub fn take(&mut self, step: StepRef) -> Result<Progress, Refusal>
        requires { IsInRange (step_of_ref step) }
        ensures stepped { GivesWrapped Refusal.Fault (λ _. self.new) result (stepped self.old (step_of_ref step.entry)) }
        ensures progress { IfOk result (λ p. p ≡ progress_of self.new.done) }
        ensures err { OnErr result (self.new ≡ self.old) }
        ensures sound { result ≡ Ok Progress.Done → IsUnsatisfiable self.new.formula }

        // Where the formula is satisfiable, so is what is live.
        ensures keeps { KeepsSatisfiable self.new.formula self.new.live }
    {
        if self.done {
            return Ok(Progress::Done);
        }
        match step {
            StepRef::Add(addition) => {
                self.add(addition.id, addition.lits, addition.hints)?;
                Ok(self.progress())
            }
            StepRef::Del(ids) => {
                self.live.delete(ids);
                Ok(Progress::Going)
            }
        }
    }

    /// The length of the buffer that holds the literals of added clauses. It stays near what the live ones of them have, whatever
    /// memory there is, since the buffer is closed up in place. The formula's clauses are borrowed.
    pub fn held(&self) -> usize
        ensures least { literals_of self.now.added ≤ result }
        ensures most { result ≤ 2 * literals_of self.now.added + 4096 }
    {
        self.live.held()
    }

    // How far the proof has come.
    pub(crate) fn progress(&self) -> Progress
        ensures progress { result ≡ progress_of self.now.done }
        ensures sound { result ≡ Progress.Done → IsUnsatisfiable self.now.formula }
    {
        if self.done {
            Progress::Done
        } else {
            Progress::Going
        }
    }

    /// What the steps prove: Some exactly after `Done`.
    pub fn finish(self) -> Option<Checked<'f>>
        ensures { result ≡ (if self.entry.done then Some self.entry.formula else None) }
    {
        if self.done {
            Some(Checked::new(self.formula))
        } else {
            None
        }
    }

    // What the steps prove, or that they don't add the empty clause.
    pub(crate) fn conclude(self) -> Result<Checked<'f>, CheckError>
        ensures exact { result ≡ (if self.entry.done then Ok self.entry.formula else Err CheckError.NoEmpty) }
        ensures sound { OnOk result (IsUnsatisfiable self.entry.formula) }
    {
        match self.finish() {
            Some(checked) => Ok(checked),
            None => Err(CheckError::NoEmpty),
        }
    }

    /// The step that adds a clause, where the empty clause wasn't added yet. It tells along how many of the hints, at the least, unit
    /// propagation leads to a conflict: None where the clause is good by its pivot alone.
    pub fn add(&mut self, id: u64, lits: &[Lit], hints: HintsRef) -> Result<Option<usize>, Refusal>
        requires { self.old.done ≡ false }
        ensures stepped { GivesWrapped Refusal.Fault (λ _. self.new) result
            (stepped self.old (Add id lits.now (hints_of hints.entry))) }
        ensures looked { IfOk result (λ count.
            option_map (λ n. take n (hints_of hints.entry)) count ≡ looked_at self.old.live lits.now (hints_of hints.entry)) }
        ensures within { IfOk result (λ count. IfSome count (λ n. n ≤ length (hints_of hints.entry))) }
        ensures err { OnErr result (self.new ≡ self.old) }

        // Where the formula is satisfiable, so is what is live.
        ensures keeps { KeepsSatisfiable self.new.formula self.new.live }
    {
        if self.live.find(id).is_some() {
            return Err(StepFault::IdLive(id).into());
        }
        assume(self.alloc, &mut self.assumed, lits)?;
        let looked = check_hints(self.alloc, &mut self.live, &mut self.assumed, lits, hints)?;
        self.live.push(id, lits)?;
        if lits.is_empty() {
            self.done = true;
        }
        Ok(looked)
    }
}

// Takes just these literals as false, and makes room for their variables.
fn assume(alloc: Global, assumed: &mut Assumed, lits: &[Lit]) -> Result<(), Memory>
    ensures lits { OnOk result (assumed.new.lits ≡ lits.now) }
    ensures within { OnOk result (is_within assumed.new.vars lits.now ≡ true) }
    ensures grown { assumed.old.vars ≤ assumed.new.vars }
{
    assumed.begin(alloc, greatest_variable(lits))?;
    for lit in lits {
        assumed.put(*lit)?;
    }
    Ok(())
}

fn greatest_variable(lits: &[Lit]) -> u32
    ensures within { is_within result lits.now ≡ true }
    ensures most { result ≤ Var.MOST }
{
    let mut most = 0;
    for lit in lits {
        most = most.max(lit.var().number());
    }
    most
}
