// A log: the steps of a proof, as a search writes them down.
ghost use Rattle.std.specs.Prelude.{◌≡◌, ◌≤◌, ◌<◌, ◌+◌, ◌-◌, ◌∷◌, ◌++◌, [], length, slice_get, count_by, IfOk, OnOk};
ghost use Rattle.lls_prooflog.specs.declared.step.Step.TheVariants.{Add, Del};
ghost use Rattle.lls_prooflog.specs.Range.{IsInRange};
ghost use Rattle.lls_prooflog.specs.Spent.{is_addition};
ghost use Rattle.lls_prooflog.specs.Log.{HasSpare, Widens, step_of_ref};
ghost use Rattle.lls_prooflog.specs.Heads.{step_at, IsHead};

use crate::hint_buffers::HintBuffers;
use crate::id_buffers::IdBuffers;
use crate::spans::{Place, Span, filled, piece, widened};
use crate::{HintsRef, Step, StepRef};
use lls_base::Memory;
use lls_lit::Lit;
use std::alloc::Global;
use std::marker::Model;

/// An addition, lent by a log.
#[derive(Clone, Copy, Debug)]
pub struct Addition<'l> {
    pub id: u64,
    pub lits: &'l [Lit],
    pub hints: HintsRef<'l>,
}

// What a step is, and where its numbers stand.
#[derive(Clone, Copy, Debug, Drop)]
enum Head {
    Add { id: u64, lits: Span, hints: Place },
    Del { ids: Place },
}

/// Steps of a proof, in the order in which they were written down.
///
/// A step takes at most 56 bytes, 4 for each literal, and 4 for each hint or deleted id, or 8 where one of the step's isn't from
/// 1 to 2^32 - 1. `reserve` takes the memory, and a push none.
#[derive(Drop)]
pub struct Log {
    alloc: Global,
    heads: Vec<Head>,
    lits: Vec<Lit>,
    hints: HintBuffers,
    ids: IdBuffers,
    additions: u64,
    spare_steps: usize,
    spare_lits: usize,
    spare_hints: usize,
}

impl Model for Log {
    ghost use Rattle.std.specs.Prelude.{◌+◌, ◌≤◌, length, vec_capacity};
    ghost use Rattle.lls_prooflog.specs.Log.{Logged};
    ghost use Rattle.lls_prooflog.specs.Heads.{steps_in, IsLaid};

    ghost Value = { Logged };

    ghost view = { λ l. record {
      steps = steps_in l.lits.items l.hints l.ids l.heads.items;
      spare_steps = l.spare_steps;
      spare_lits = l.spare_lits;
      spare_hints = l.spare_hints;
    } };

    ghost invariant = { λ l. IsLaid l.lits.items l.hints l.ids l.heads.items l.additions
        × ((length l.heads.items + l.spare_steps ≤ vec_capacity l.heads)
        × ((length l.lits.items + l.spare_lits ≤ vec_capacity l.lits)
        × ((l.spare_hints ≤ l.hints.room) × (l.spare_hints ≤ l.ids.room)))) };
}

impl Log {
    /// No step, and no room. It takes no memory.
    pub fn new(alloc: Global) -> Log
        ensures { result ≡ record { steps = []; spare_steps = 0; spare_lits = 0; spare_hints = 0 } }
    {
        Log {
            alloc,
            heads: Vec::new(alloc),
            lits: Vec::new(alloc),
            hints: HintBuffers::new(alloc),
            ids: IdBuffers::new(alloc),
            additions: 0,
            spare_steps: 0,
            spare_lits: 0,
            spare_hints: 0,
        }
    }

    /// Makes room for so many steps, literals and hints more. The ids that a deletion names count as hints. After `Memory` the
    /// steps are as before, and some room may be greater.
    pub fn reserve(&mut self, steps: usize, lits: usize, hints: usize) -> Result<(), Memory>
        ensures ok { OnOk result (HasSpare self.new steps lits hints) }
        ensures widens { Widens self.old self.new }
    {
        self.spare_steps = widened(&mut self.heads, self.spare_steps, steps)?;
        self.spare_lits = widened(&mut self.lits, self.spare_lits, lits)?;
        self.hints.reserve(hints)?;
        self.ids.reserve(hints)?;
        self.spare_hints = self.spare_hints.max(hints);
        Ok(())
    }

    /// Writes an addition down, which takes no memory.
    pub fn push_add(&mut self, id: u64, lits: &[Lit], hints: &[i64])
        requires in_range { IsInRange (Add id lits.now hints.now) }
        requires spare { HasSpare self.old 1 (length lits.now) (length hints.now) }
        ensures { self.new ≡ record {
          steps = self.old.steps ++ Add id lits.now hints.now ∷ [];
          spare_steps = self.old.spare_steps - 1;
          spare_lits = self.old.spare_lits - length lits.now;
          spare_hints = self.old.spare_hints - length hints.now;
        } }
    {
        let head = Head::Add {
            id,
            lits: filled(&mut self.lits, lits),
            hints: self.hints.push(hints),
        };
        self.heads.push_reserved(head);
        self.additions += 1;
        self.spare_steps -= 1;
        self.spare_lits -= lits.len();
        self.spare_hints -= hints.len();
    }

    /// Writes a deletion of the clauses of these ids down, which takes no memory.
    pub fn push_del(&mut self, ids: &[u64])
        requires in_range { IsInRange (Del ids.now) }
        requires spare { HasSpare self.old 1 0 (length ids.now) }
        ensures { self.new ≡ record {
          steps = self.old.steps ++ Del ids.now ∷ [];
          spare_steps = self.old.spare_steps - 1;
          spare_lits = self.old.spare_lits;
          spare_hints = self.old.spare_hints - length ids.now;
        } }
    {
        let head = Head::Del {
            ids: self.ids.push(ids),
        };
        self.heads.push_reserved(head);
        self.spare_steps -= 1;
        self.spare_hints -= ids.len();
    }

    /// The number of steps.
    pub fn len(&self) -> usize
        ensures { result ≡ length self.now.steps }
    {
        self.heads.len()
    }

    /// The number of additions among the steps.
    pub fn additions(&self) -> u64
        ensures { result ≡ count_by is_addition self.now.steps }
    {
        self.additions
    }

    /// The step of that number, counted from 0.
    pub fn step(&self, k: usize) -> Result<Step, Memory>
        requires { k < length self.now.steps }
        ensures { IfOk result (λ step. slice_get self.now.steps k ≡ Some step) }
    {
        self.lend(k).to_step(self.alloc)
    }

    /// The same without a copy.
    pub fn lend(&self, k: usize) -> StepRef
        requires { k < length self.now.steps }
        ensures step { slice_get self.now.steps k ≡ Some (step_of_ref result) }
        ensures in_range { IsInRange (step_of_ref result) }
    {
        cut(&self.heads[k], &self.lits, &self.hints, &self.ids)
    }
}

// The step of a head, cut from the buffers.
fn cut<'l>(head: &Head, lits: &'l [Lit], hints: &'l HintBuffers, ids: &'l IdBuffers) -> StepRef<'l>
    requires { IsHead (length lits.now) hints.now ids.now head.now }
    ensures { step_of_ref result ≡ step_at lits.now hints.now ids.now head.now }
{
    match head {
        Head::Add {
            id,
            lits: clause,
            hints: chain,
        } => StepRef::Add(Addition {
            id: *id,
            lits: piece(lits, clause),
            hints: hints.lend(chain),
        }),
        Head::Del { ids: named } => StepRef::Del(ids.lend(named)),
    }
}
