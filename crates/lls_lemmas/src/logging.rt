// A clause that is added to the store and to the log.
ghost use Rattle.std.specs.Prelude.{◌≡◌, ◌++◌, ◌∷◌, [], Some, true, IfOk, OnErr};
ghost use Rattle.std.specs.List.{list_all};
ghost use Rattle.lls_lit.specs.Formula.{is_within};
ghost use Rattle.lls_prooflog.specs.Range.{is_hint};
ghost use Rattle.lls_prooflog.specs.UnitWalk.{find_clause};
ghost use Rattle.lls_prooflog.specs.Spent.{IsGood, live_after};
ghost use Rattle.lls_prooflog.specs.declared.step.Step.TheVariants.{Add};
ghost use Rattle.lls_store.specs.Sound.{IsSound};
ghost use Rattle.lls_store.specs.Store.{with_clause};
ghost use Rattle.lls_lemmas.specs.Behind.{GivesClause, HoldsLive};
ghost use Rattle.lls_lemmas.specs.Closing.{is_id_hint};
ghost use Rattle.lls_lemmas.specs.Lemmas.{GoesOnBy, GoesOnWell, KeepsLive};
ghost use Rattle.lls_lemmas.specs.Pivot.{AddsClause};

use lls_base::Memory;
use lls_cnf::Formula;
use lls_lit::Lit;
use lls_prooflog::Log;
use lls_store::{MOST_CLAUSES, MOST_ID, Store, Trail};

/// Adds a clause that the hints add to the store and to the log, under the id behind the last, which it answers. After `Memory`,
/// which is also the answer where no number or id is left, both are as before.
pub(crate) fn push_step<S: Store>(
    formula: &Formula,
    store: &mut S,
    trail: &Trail,
    log: &mut Log,
    last: &mut u64,
    lits: &[Lit],
    hints: &[i64],
) -> Result<u64, Memory>
    requires holds { HoldsLive formula.now log.old.steps (S.state store.old) last.old }
    requires level { trail.now.current ≡ 0 }
    requires tracked { S.tracks store.old trail.now }
    requires sound { IsSound (S.state store.old).live trail.now }
    requires within { is_within (S.state store.old).vars lits.now ≡ true }
    requires adds { AddsClause (S.state store.old).live lits.now hints.now }
    requires in_range { list_all is_hint hints.now ≡ true }
    ensures state { IfOk result (λ id. S.state store.new ≡ with_clause (S.state store.old) id lits.now) }
    ensures found { IfOk result (λ id. find_clause (live_after formula.now log.new.steps) id ≡ Some lits.now) }
    ensures err { OnErr result (S.state store.new ≡ S.state store.old) }
    ensures err_steps { OnErr result (log.new.steps ≡ log.old.steps) }
    ensures holds { HoldsLive formula.now log.new.steps (S.state store.new) last.new }
    ensures well { GoesOnWell formula.now log.old.steps log.new.steps }
    ensures keeps { KeepsLive formula.now log.old.steps log.new.steps }
    ensures pushed { IfOk result (λ id. log.new.steps ≡ log.old.steps ++ Add id lits.now hints.now ∷ []) }
    ensures good { GivesClause (S.state store.old).live lits.now hints.now → list_all is_id_hint hints.now ≡ true → GoesOnBy IsGood formula.now log.old.steps log.new.steps }
    ensures tracked { S.tracks store.new trail.now }
    ensures sound { IsSound (S.state store.new).live trail.now }
{
    if store.count() >= MOST_CLAUSES || *last >= MOST_ID {
        return Err(Memory);
    }
    log.reserve(1, lits.len(), hints.len())?;
    let id = *last + 1;
    store.add(trail, id, lits)?;
    log.push_add(id, lits, hints);
    *last = id;
    Ok(id)
}
