// A step of a proof without a copy.
ghost use Rattle.std.specs.Prelude.{◌≡◌, IfOk};
ghost use Rattle.lls_prooflog.specs.Log.{step_of_addition, step_of_ref};

use crate::{Addition, IdsRef, Lits, Step};
use lls_base::Memory;
use std::alloc::Global;

/// A step, lent by a step or by a reader of lines.
#[derive(Clone, Copy, Debug)]
pub enum StepRef<'s> {
    Add(Addition<'s>),
    /// Takes the clauses of these ids out.
    Del(IdsRef<'s>),
}

impl<'s> StepRef<'s> {
    /// The step, copied.
    pub fn to_step(&self, alloc: Global) -> Result<Step, Memory>
        ensures { IfOk result (λ step. step ≡ step_of_ref self.now) }
    {
        match self {
            StepRef::Add(addition) => Ok(Step::Add {
                id: addition.id,
                lits: Lits::new(Vec::from_slice(alloc, addition.lits)?),
                hints: addition.hints.to_hints(alloc)?,
            }),
            StepRef::Del(ids) => Ok(Step::Del {
                ids: ids.to_ids(alloc)?,
            }),
        }
    }
}
