// The clauses of a formula in a store, but those that hold for any values.
ghost use Rattle.std.specs.Prelude.{◌≡◌, ◌<◌, ◌≤◌, [], length, replicate, true, false, Some, None, OnOk};
ghost use Rattle.lls_store.specs.Clauses.{LiveClause, clause_numbered};
ghost use Rattle.lls_store.specs.Sound.{IsSound};
ghost use Rattle.lls_store.specs.Changes.{empty_trail};
ghost use Rattle.lls_store.specs.Store.{AreLive, empty_store};
ghost use Rattle.lls_lemmas.specs.Behind.{HoldsLive};
ghost use Rattle.lls_lemmas.specs.Finding.{IsTautologyAt};
ghost use Rattle.lls_lemmas.specs.Indexed.{ArePlain, Indexes, IsLinked, IsPlain};
ghost use Rattle.lls_lemmas.specs.Lemmas.{DropsTautology, GoesOnBy, KeepsPlain};
ghost use Rattle.lls_lemmas.specs.Units.{IsAtRest};

use crate::deleting::delete_clause;
use crate::finding::hash_of;
use crate::index::Index;
use crate::tautology::is_tautology;
use lls_base::Memory;
use lls_cnf::Formula;
use lls_lit::Marks;
use lls_prooflog::Log;
use lls_store::{Store, Trail};

/// Adds the clauses of a formula, which may have fewer variables than the store, under the ids from 1.
pub(crate) fn load<S: Store>(store: &mut S, trail: &Trail, formula: &Formula) -> Result<(), Memory>
    requires store { S.state store.old ≡ empty_store trail.now.vars }
    requires trail { trail.now ≡ empty_trail trail.now.vars }
    requires vars { formula.now.vars ≤ trail.now.vars }
    requires tracked { S.tracks store.old trail.now }
    ensures holds { OnOk result (HoldsLive formula.now [] (S.state store.new) (length formula.now.clauses)) }
    ensures vars { OnOk result ((S.state store.new).vars ≡ trail.now.vars) }
    ensures tracked { OnOk result (S.tracks store.new trail.now) }
    ensures sound { OnOk result (IsSound (S.state store.new).live trail.now) }
{
    for k in 0..formula.len() {
        store.add(trail, k as u64 + 1, formula.clause(k))?;
    }
    Ok(())
}

/// Deletes the clauses in which a literal stands beside its negation, in the log and in the store.
pub(crate) fn drop_tautologies<S: Store>(
    formula: &Formula,
    store: &mut S,
    trail: &Trail,
    log: &mut Log,
    last: u64,
    units: &[Option<u64>],
    marks: &mut Marks,
) -> Result<(), Memory>
    requires rest { IsAtRest formula.now log.old.steps (S.state store.old) trail.now units.now 0 last }
    requires trail { trail.now ≡ empty_trail trail.now.vars }
    requires none { units.now ≡ replicate trail.now.vars None }
    requires tracked { S.tracks store.old trail.now }
    requires vars { marks.old.vars ≡ trail.now.vars }
    ensures rest { OnOk result (IsAtRest formula.now log.new.steps (S.state store.new) trail.now units.now 0 last) }
    ensures plain { OnOk result (ArePlain (S.state store.new).live) }
    ensures drops { OnOk result (GoesOnBy DropsTautology formula.now log.old.steps log.new.steps) }
    ensures keeps { OnOk result (KeepsPlain formula.now log.old.steps log.new.steps) }
    ensures tracked { OnOk result (S.tracks store.new trail.now) }
    ensures vars { marks.new.vars ≡ marks.old.vars }
{
    for number in 0..store.count() {
        if is_tautology_at(store, marks, number) {
            delete_clause(formula, store, trail, log, last, units, 0, number)?;
        }
    }
    Ok(())
}

// Whether the clause of a number is live and has a literal and its negation.
fn is_tautology_at<S: Store>(store: &S, marks: &mut Marks, number: u32) -> bool
    requires vars { (S.state store.now).vars ≡ marks.old.vars }
    requires given { number < (S.state store.now).count }
    ensures live { AreLive (S.state store.now) }
    ensures is { result ≡ true → IsTautologyAt (S.state store.now).live number }
    ensures plain { result ≡ false → (clause : LiveClause) → clause_numbered (S.state store.now).live number ≡ Some clause → IsPlain clause.lits }
    ensures vars { marks.new.vars ≡ marks.old.vars }
{
    // What holds of all live clauses is known from here on.
    let _count = store.count();
    store.live(number) && is_tautology(marks, store.lits(number))
}

/// Indexes the live clauses.
pub(crate) fn index_live<S: Store>(
    store: &S,
    index: &mut Index,
    marks: &mut Marks,
) -> Result<(), Memory>
    requires vars { (S.state store.now).vars ≡ marks.old.vars }
    requires linked { IsLinked index.old }
    ensures indexes { OnOk result (Indexes marks.old.vars index.new (S.state store.now).live) }
    ensures vars { marks.new.vars ≡ marks.old.vars }
{
    for number in 0..store.count() {
        if store.live(number) {
            let hash = hash_of(marks, store.lits(number));
            index.put(hash, number)?;
        }
    }
    Ok(())
}
