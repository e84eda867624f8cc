// A clause that is taken out.
ghost use Rattle.std.specs.Prelude.{◌≡◌, ◌≢◌, ◌⊎◌, ℤ, List, true, false, length, Some, IsSome, OnErr, OnOk};
ghost use Rattle.lls_lit.specs.Literal.{variable_of};
ghost use Rattle.lls_lit.specs.Formula.{is_literal_of};
ghost use Rattle.lls_store.specs.Trail.{IsTrail, reason_of};
ghost use Rattle.lls_store.specs.Clauses.{clause_numbered};
ghost use Rattle.lls_store.specs.Removal.{without_clause};
ghost use Rattle.lls_store.specs.Sound.{IsSound};
ghost use Rattle.lls_store.specs.Store.{AreLive};
ghost use Rattle.lls_lemmas.specs.Finding.{HasLiterals, IsFree, IsNeeded};
ghost use Rattle.lls_lemmas.specs.Lemmas.{DeletesOne};
ghost use Rattle.lls_lemmas.specs.Units.{AreUnits, HasSettled, IsAtRest, unit_of};

use lls_base::Memory;
use lls_cnf::Formula;
use lls_lit::Lit;
use lls_prooflog::Log;
use lls_store::{Store, Trail};

// Whether the clause of a number and an id forced the value of the literal's variable, or stands for it.
fn is_for(trail: &Trail, units: &[Option<u64>], lit: Lit, number: u32, id: u64) -> bool
    requires within { is_literal_of trail.now.vars lit ≡ true }
    requires unit_each { length units.now ≡ trail.now.vars }
    ensures no_reason { result ≡ false → reason_of trail.now.entries (variable_of lit) ≢ Some number }
    ensures no_unit { result ≡ false → unit_of units.now lit ≢ Some id }
    ensures either { result ≡ true → (reason_of trail.now.entries (variable_of lit) ≡ Some number) ⊎ (unit_of units.now lit ≡ Some id) }
{
    if trail.reason(lit.var()) == Some(number) {
        return true;
    }
    units[lit.var().index()] == Some(id)
}

/// Whether the clause of a number forced a literal, or stands for a value of level 0.
pub(crate) fn is_needed<S: Store>(
    store: &S,
    trail: &Trail,
    units: &[Option<u64>],
    number: u32,
) -> bool
    requires live { AreLive (S.state store.now) }
    requires is_trail { IsTrail trail.now }
    requires store_vars { (S.state store.now).vars ≡ trail.now.vars }
    requires sound { IsSound (S.state store.now).live trail.now }
    requires unit_each { length units.now ≡ trail.now.vars }
    requires are_units { AreUnits (S.state store.now).live trail.now.entries units.now }
    requires is_live { IsSome (clause_numbered (S.state store.now).live number) }
    ensures free { result ≡ false → IsFree (S.state store.now).live trail.now.entries units.now number }
    ensures needed { result ≡ true → IsNeeded (S.state store.now).live trail.now.entries units.now number }
{
    let id = store.id(number);
    let lits = store.lits(number);
    for lit in lits {
        if is_for(trail, units, *lit, number, id) {
            return true;
        }
    }
    false
}

/// Deletes the clause of a number, in the log and in the store.
pub(crate) fn delete_clause<S: Store>(
    formula: &Formula,
    store: &mut S,
    trail: &Trail,
    log: &mut Log,
    last: u64,
    units: &[Option<u64>],
    done: usize,
    number: u32,
) -> Result<(), Memory>
    requires rest { IsAtRest formula.now log.old.steps (S.state store.old) trail.now units.now done last }
    requires tracked { S.tracks store.old trail.now }
    requires live { AreLive (S.state store.old) }
    requires is_live { IsSome (clause_numbered (S.state store.old).live number) }
    requires free { IsFree (S.state store.old).live trail.now.entries units.now number }
    ensures deletes { OnOk result ((lits : List ℤ) → HasLiterals (S.state store.old).live number lits → DeletesOne formula.now log.old.steps log.new.steps lits) }
    ensures state { OnOk result (S.state store.new ≡ without_clause (S.state store.old) number) }
    ensures err_state { OnErr result (S.state store.new ≡ S.state store.old) }
    ensures err { OnErr result (log.new.steps ≡ log.old.steps) }
    ensures rest { IsAtRest formula.now log.new.steps (S.state store.new) trail.now units.now done last }
    ensures settled { HasSettled (S.state store.old) trail.now done → HasSettled (S.state store.new) trail.now done }
    ensures tracked { S.tracks store.new trail.now }
{
    let id = store.id(number);
    log.reserve(1, 0, 1)?;
    log.push_del(&[id]);
    store.remove(trail, number);
    Ok(())
}
