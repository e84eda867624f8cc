// The literals that a way back from a conflict comes by.
ghost use Rattle.std.specs.Prelude.{◌≡◌, ℤ, true, Contains, OnOk};
ghost use Rattle.lls_lit.specs.Formula.{is_literal_of, is_within};
ghost use Rattle.lls_store.specs.Trail.{HasNegated};
ghost use Rattle.lls_store.specs.Clauses.{IsIn};
ghost use Rattle.lls_lemmas.specs.Closing.{AreListed};

use lls_base::Memory;
use lls_lit::{Lit, Marks};
use lls_store::Trail;

// Marks a literal, which is listed then.
fn mark(marks: &mut Marks, met: &mut Vec<Lit>, lit: Lit) -> Result<(), Memory>
    requires within { is_literal_of marks.old.vars lit ≡ true }
    requires listed { AreListed marks.old.vars marks.old.lits met.old.items }
    ensures marked { OnOk result (IsIn marks.new.lits lit) }
    ensures kept { (l : ℤ) → IsIn marks.old.lits l → IsIn marks.new.lits l }
    ensures listed { AreListed marks.old.vars marks.new.lits met.new.items }
    ensures vars { marks.new.vars ≡ marks.old.vars }
{
    if marks.has(lit) {
        return Ok(());
    }
    met.push(lit)?;
    marks.put(lit);
    Ok(())
}

// Marks a literal that is false.
fn mark_if_false(
    marks: &mut Marks,
    met: &mut Vec<Lit>,
    trail: &Trail,
    lit: Lit,
) -> Result<(), Memory>
    requires vars { marks.old.vars ≡ trail.now.vars }
    requires within { is_literal_of trail.now.vars lit ≡ true }
    requires listed { AreListed marks.old.vars marks.old.lits met.old.items }
    ensures marked { OnOk result (HasNegated trail.now.entries lit → IsIn marks.new.lits lit) }
    ensures kept { (l : ℤ) → IsIn marks.old.lits l → IsIn marks.new.lits l }
    ensures listed { AreListed marks.old.vars marks.new.lits met.new.items }
    ensures vars { marks.new.vars ≡ marks.old.vars }
{
    if trail.value(lit) != Some(false) {
        return Ok(());
    }
    mark(marks, met, lit)
}

// Marks those of the literals that are false.
pub(crate) fn mark_false(
    marks: &mut Marks,
    met: &mut Vec<Lit>,
    trail: &Trail,
    lits: &[Lit],
) -> Result<(), Memory>
    requires vars { marks.old.vars ≡ trail.now.vars }
    requires within { is_within trail.now.vars lits.now ≡ true }
    requires listed { AreListed marks.old.vars marks.old.lits met.old.items }
    ensures marked { OnOk result ((l : ℤ) → Contains lits.now l → HasNegated trail.now.entries l → IsIn marks.new.lits l) }
    ensures kept { (l : ℤ) → IsIn marks.old.lits l → IsIn marks.new.lits l }
    ensures listed { AreListed marks.old.vars marks.new.lits met.new.items }
    ensures vars { marks.new.vars ≡ marks.old.vars }
{
    for lit in lits {
        mark_if_false(marks, met, trail, *lit)?;
    }
    Ok(())
}
